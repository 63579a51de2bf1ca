use ld_script::{ScriptRefusal, run_script};
use std::alloc::Global;
use std::process::Abort;

fn is_good(rt: &impl Abort, alloc: Global, line: &str) {
    assert!(rt; run_script(alloc, line.as_bytes()).is_ok(), "{line}");
}

#[test]
fn each_kind_of_line_is_good(rt: HostRuntime) {
    let alloc = rt.alloc();
    is_good(&rt, alloc, "open 255\n");
    is_good(&rt, alloc, "pin 1\n");
    is_good(&rt, alloc, "lack 1 http://a.example/context#~!\n");
    is_good(&rt, alloc, "give 1 1048577 0123abcd\n");
    is_good(&rt, alloc, "fail 1 0 9223372036854775807\n");
    is_good(&rt, alloc, "lapse 4294967295\n");
    is_good(&rt, alloc, "evict 1 x\n");
    is_good(&rt, alloc, "revise 1 x\n");
    is_good(&rt, alloc, "answer 10\n");
    is_good(&rt, alloc, "close 0\n");
    is_good(&rt, alloc, "limits 256 64 16777216 134217728\nopen 0\n");
}

fn is_bad(rt: &impl Abort, alloc: Global, text: &str, line: u64) {
    match run_script(alloc, text.as_bytes()) {
        Err(refusal) => assert_eq!(rt; refusal, ScriptRefusal::BadLine { line }, "{text}"),
        Ok(_) => assert!(rt; false, "{text}"),
    }
}

#[test]
fn bad_words(rt: HostRuntime) {
    let alloc = rt.alloc();
    is_bad(&rt, alloc, "opens 0\n", 1);
    is_bad(&rt, alloc, "Open 0\n", 1);
    is_bad(&rt, alloc, "open 0\nwait 1\n", 2);
    is_bad(&rt, alloc, "open\n", 1);
    is_bad(&rt, alloc, "open 0\npin 1\nlack 1\n", 3);
    is_bad(&rt, alloc, "give 1 2\n", 1);
    is_bad(&rt, alloc, "fail 1 0\n", 1);
    is_bad(&rt, alloc, "pin 1 2\n", 1);
    is_bad(&rt, alloc, "lack 1 x y\n", 1);
    is_bad(&rt, alloc, "give 1 2 m n\n", 1);
    is_bad(&rt, alloc, "limits 1 1 1\n", 1);
    is_bad(&rt, alloc, "limits 1 1 1 1 1\n", 1);
}

#[test]
fn bad_spaces(rt: HostRuntime) {
    let alloc = rt.alloc();
    is_bad(&rt, alloc, "open  0\n", 1);
    is_bad(&rt, alloc, " open 0\n", 1);
    is_bad(&rt, alloc, "open 0 \n", 1);
    is_bad(&rt, alloc, "lack 1 \n", 1);
    is_bad(&rt, alloc, "lack 1  x\n", 1);
    is_bad(&rt, alloc, "open 0\r\n", 1);
    is_bad(&rt, alloc, "open\t0\n", 1);
    is_bad(&rt, alloc, "lack 1 \u{e9}\n", 1);
    is_bad(&rt, alloc, "lack 1 \u{7f}\n", 1);
    is_bad(&rt, alloc, "\n", 1);
    is_bad(&rt, alloc, "open 0\n\nopen 1\n", 2);
    is_bad(&rt, alloc, "open 0", 1);
    is_bad(&rt, alloc, "open 0\nopen 1", 2);
    is_bad(&rt, alloc, "limits 1 1 1 1", 1);
}

#[test]
fn bad_numbers(rt: HostRuntime) {
    let alloc = rt.alloc();
    is_bad(&rt, alloc, "open 00\n", 1);
    is_bad(&rt, alloc, "open 01\n", 1);
    is_bad(&rt, alloc, "open +1\n", 1);
    is_bad(&rt, alloc, "open -1\n", 1);
    is_bad(&rt, alloc, "open 1x\n", 1);
    is_bad(&rt, alloc, "open 4294967296\n", 1);
    is_bad(&rt, alloc, "pin 18446744073709551616\n", 1);
    is_bad(&rt, alloc, "give 1 1048578 m\n", 1);
    is_bad(&rt, alloc, "fail 1 9223372036854775808 1\n", 1);
    is_bad(&rt, alloc, "fail 1 1 9223372036854775808\n", 1);
}

#[test]
fn bad_limits(rt: HostRuntime) {
    let alloc = rt.alloc();
    is_bad(&rt, alloc, "open 0\nlimits 1 1 1 1\n", 2);
    is_bad(&rt, alloc, "limits 1 1 1 1\nlimits 1 1 1 1\n", 2);
    is_bad(&rt, alloc, "limits 257 64 16777216 134217728\n", 1);
    is_bad(&rt, alloc, "limits 256 65 16777216 134217728\n", 1);
    is_bad(&rt, alloc, "limits 256 64 16777217 134217728\n", 1);
    is_bad(&rt, alloc, "limits 256 64 16777216 134217729\n", 1);
    is_bad(
        &rt,
        alloc,
        "limits 2 64 16777216 134217728\nopen 0\nopen\n",
        3,
    );
}

fn prints(rt: &impl Abort, alloc: Global, script: &str, lines: &str) {
    let out = run_script(alloc, script.as_bytes()).expect(rt, "memory");
    assert_eq!(rt; out.as_slice(), lines.as_bytes(), "{script}");
}

#[test]
fn empty_script(rt: HostRuntime) {
    let alloc = rt.alloc();
    prints(&rt, alloc, "", "version 0 events 0\n");
    prints(&rt, alloc, "limits 0 0 0 0\n", "version 0 events 0\n");
}

#[test]
fn two_sessions_share_a_flight(rt: HostRuntime) {
    prints(
        &rt,
        rt.alloc(),
        "open 0\nopen 1\npin 1\npin 2\nlack 1 x\nlack 2 x\ngive 1 10 m\npin 1\npin 2\n\
         answer 1\nanswer 2\nclose 1\nclose 2\n",
        "opened 1\nopened 2\npinned 1 1 1 0\npinned 2 1 1 0\nled 1 1\njoined 2 1\npublished 1 1\n\
         pinned 1 1 2 1\npinned 2 1 2 1\nanswered 1 1\nanswered 2 1\nclosed 1\nclosed 2\n\
         version 1 events 13\n",
    );
}

#[test]
fn held_stays_until_answered(rt: HostRuntime) {
    prints(
        &rt,
        rt.alloc(),
        "open 0\nopen 1\npin 1\nlack 1 x\ngive 1 3 m\npin 1\npin 2\nevict 2 x\nanswer 1\n\
         pin 2\nevict 2 x\npin 2\nevict 2 x\n",
        "opened 1\nopened 2\npinned 1 1 1 0\nled 1 1\npublished 1 1\npinned 1 1 2 1\n\
         pinned 2 1 1 1\nheld 1\nanswered 1 1\npinned 2 2 1 1\nevicted x 2\npinned 2 3 1 2\n\
         not stored 2\nversion 2 events 14\n",
    );
}

#[test]
fn full_store_makes_place(rt: HostRuntime) {
    prints(
        &rt,
        rt.alloc(),
        "limits 2 64 16777216 134217728\nopen 0\nopen 1\npin 1\nlack 1 a\ngive 1 3 m\npin 1\n\
         lack 1 b\ngive 2 3 m\npin 1\npin 2\nlack 2 c\nanswer 1\npin 2\nlack 2 c\ngive 3 3 m\n",
        "opened 1\nopened 2\npinned 1 1 1 0\nled 1 1\npublished 1 1\npinned 1 1 2 1\nled 1 2\n\
         published 2 2\npinned 1 1 3 2\npinned 2 1 1 2\nstore full\nanswered 1 1\n\
         pinned 2 2 1 2\nevicted a 3\nled 2 3\npublished 3 4\nversion 4 events 16\n",
    );
}

#[test]
fn room_ends(rt: HostRuntime) {
    let alloc = rt.alloc();
    prints(
        &rt,
        alloc,
        "limits 2 64 576 134217728\nopen 0\npin 1\n",
        "opened 1\nhistory full 1\nversion 0 events 1\n",
    );
    prints(
        &rt,
        alloc,
        "limits 2 64 16777216 1050624\nopen 0\nopen 1\npin 1\npin 2\nlack 1 a\nlack 2 b\n",
        "opened 1\nopened 2\npinned 1 1 1 0\npinned 2 1 1 0\nled 1 1\narchive full 1\n\
         version 0 events 6\n",
    );
}

#[test]
fn flights_end_in_each_way(rt: HostRuntime) {
    prints(
        &rt,
        rt.alloc(),
        "open 0\nopen 0\npin 1\nlack 1 x\nfail 1 0 1\nanswer 1\npin 1\nlack 1 x\nlapse 2\n\
         lapse 2\nanswer 1\npin 1\nlack 1 x\ngive 3 5 m\npin 1\nanswer 1\n",
        "opened 1\nnot allowed\npinned 1 1 1 0\nled 1 1\nfailed 1\nanswered 1 1\n\
         pinned 1 2 1 0\nled 1 2\nlapsed 2\nnot allowed\nanswered 1 2\npinned 1 3 1 0\nled 1 3\n\
         published 3 1\npinned 1 3 2 1\nanswered 1 3\nversion 1 events 14\n",
    );
}

#[test]
fn revisions(rt: HostRuntime) {
    prints(
        &rt,
        rt.alloc(),
        "open 0\nopen 1\npin 1\nlack 1 x\ngive 1 5 m\npin 1\nanswer 1\npin 1\npin 2\n\
         revise 1 x\nanswer 1\nrevise 2 x\ngive 2 5 m\nanswer 1\npin 1\nrevise 1 y\nclose 1\n\
         answer 1\ngive 9 5 m\n",
        "opened 1\nopened 2\npinned 1 1 1 0\nled 1 1\npublished 1 1\npinned 1 1 2 1\n\
         answered 1 1\npinned 1 2 1 1\npinned 2 1 1 1\nrevising 1 2\nnot allowed\nflying 2\n\
         same 2\nanswered 1 2\npinned 1 3 1 1\nnot stored 1\nclosed 1\nnot allowed\n\
         not allowed\nversion 1 events 16\n",
    );
}
