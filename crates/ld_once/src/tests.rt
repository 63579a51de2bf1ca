ghost use Rattle.std.specs.Prelude.{◌≤◌};

use crate::run::run_once;
use ld_edge::{MemSink, MemSource, Status};
use ld_flight::MemLoader;
use ld_tree::Raw;
use std::alloc::Global;
use std::test::Fail;

const ANN: &str =
    "{\"document\":{\"@id\":\"http://a.example/1\",\"http://xmlns.com/foaf/0.1/name\":\"Ann\"}}";

const ANN_EXPANDED: &str =
    "[{\"@id\":\"http://a.example/1\",\"http://xmlns.com/foaf/0.1/name\":[{\"@value\":\"Ann\"}]}]\n";

const USAGE: &str =
    "usage: expand | compact | flatten | schedule | soak <n> | serve <address> <workers> <connections> <every>\n";

// Runs over memory objects that take at most `piece` bytes a call, and fail at the calls listed. There is no context to load.
pub fn run(
    alloc: Global,
    form: &[&str],
    input: Vec<u8>,
    piece: usize,
    read_fails: &[u64],
    write_fails: &[u64],
) -> Result<(Status, MemSink), Fail>
    requires { 1 ≤ piece }
{
    let mut words = Vec::new(alloc);
    for word in form {
        words.push(String::from_str(alloc, word)?)?;
    }
    let mut source = MemSource::new(Raw::from_vec(input), piece, read_fails.to_vec(alloc)?);
    let mut sink = MemSink::new(alloc, piece, write_fails.to_vec(alloc)?);
    let mut loader = MemLoader::new(alloc, Vec::new(alloc), Vec::new(alloc));
    let status = run_once(alloc, words.as_slice(), &mut source, &mut sink, &mut loader);
    Ok((status, sink))
}

#[test]
fn answers_inputs(rt: HostRuntime) -> Result<(), Fail> {
    let cases = [
        (ANN, Status::Done, ANN_EXPANDED),
        (
            "{\"document\":{\"http://e/p\":[5,null,[true]],\"q\":1}}",
            Status::Done,
            "[{\"http://e/p\":[{\"@value\":5},{\"@value\":true}]}]\n",
        ),
        ("{\"document\":{}}", Status::Done, "[]\n"),
        ("{\"document\":null}", Status::Done, "[]\n"),
        ("{\"document\":[]}", Status::Done, "[]\n"),
        ("{\"document\":{},\"base\":null}", Status::Done, "[]\n"),
        (
            "{\"document\":{\"@id\":\"x\",\"http://e/p\":1},\"base\":\"http://e/d/doc\"}",
            Status::Done,
            "[{\"@id\":\"http://e/d/x\",\"http://e/p\":[{\"@value\":1}]}]\n",
        ),
        (
            "{\"document\":{\"@context\":\"http://c/x\"}}",
            Status::LoadFault,
            "{\"after\":1,\"before\":0,\"flight\":1,\"iri\":\"http://c/x\",\"own\":\"load fault\"}\n",
        ),
        ("[]", Status::Refused, "{\"own\":\"not an envelope\"}\n"),
        (
            "{\"base\":null}",
            Status::Refused,
            "{\"own\":\"not an envelope\"}\n",
        ),
        (
            "{\"document\":1,\"x\":2}",
            Status::Refused,
            "{\"field\":\"x\",\"own\":\"unknown field\"}\n",
        ),
        (
            "{\"document\":1,\"base\":\"x\"}",
            Status::Refused,
            "{\"field\":\"base\",\"own\":\"wrong kind\"}\n",
        ),
        (
            "{\"document\":",
            Status::Refused,
            "{\"at\":12,\"own\":\"syntax\"}\n",
        ),
        ("", Status::Refused, "{\"at\":0,\"own\":\"syntax\"}\n"),
        (
            "{\"document\":{\"http://e/p\":1.5}}",
            Status::Refused,
            "{\"at\":26,\"own\":\"fractional number\"}\n",
        ),
    ];
    for (input, status, output) in cases {
        let bytes = input.as_bytes().to_vec(rt.alloc())?;
        let seen = run(rt.alloc(), &["expand"], bytes, 7, &[], &[])?;
        assert_eq!(rt; seen.0, status, "{input}");
        assert_eq!(rt; seen.1.bytes(), output.as_bytes(), "{input}");
    }
    Ok(())
}

#[test]
fn flattens_documents(rt: HostRuntime) -> Result<(), Fail> {
    let cases = [
        (
            "{\"document\":{\"@id\":\"http://e/a\",\"http://e/k\":{\"http://e/n\":\"x\"}}}",
            Status::Done,
            "[{\"@id\":\"_:b0\",\"http://e/n\":[{\"@value\":\"x\"}]},{\"@id\":\"http://e/a\",\"http://e/k\":[{\"@id\":\"_:b0\"}]}]\n",
        ),
        (
            "{\"document\":[{\"@id\":\"http://e/a\",\"@index\":\"x\"},{\"@id\":\"http://e/a\",\"@index\":\"y\"}]}",
            Status::Refused,
            "{\"code\":\"conflicting indexes\"}\n",
        ),
        (
            "{\"document\":{\"@context\":{\"a\":\"b:x\",\"b\":\"a:y\"}}}",
            Status::Refused,
            "{\"code\":\"cyclic IRI mapping\"}\n",
        ),
    ];
    for (input, status, output) in cases {
        let bytes = input.as_bytes().to_vec(rt.alloc())?;
        let seen = run(rt.alloc(), &["flatten"], bytes, 7, &[], &[])?;
        assert_eq!(rt; seen.0, status, "{input}");
        assert_eq!(rt; seen.1.bytes(), output.as_bytes(), "{input}");
    }
    Ok(())
}

#[test]
fn runs_scripts(rt: HostRuntime) -> Result<(), Fail> {
    let cases = [
        ("", Status::Done, "version 0 events 0\n"),
        (
            "open 0\npin 1\nlack 1 x\ngive 1 10 m\npin 1\nanswer 1\nopen 0\nclose 1\n",
            Status::Done,
            "opened 1\npinned 1 1 1 0\nled 1 1\npublished 1 1\npinned 1 1 2 1\nanswered 1 1\nnot allowed\nclosed 1\nversion 1 events 7\n",
        ),
        (
            "open 0\npin  1\n",
            Status::Refused,
            "{\"line\":2,\"own\":\"script\"}\n",
        ),
        (
            "{\"document\":{}}",
            Status::Refused,
            "{\"line\":1,\"own\":\"script\"}\n",
        ),
    ];
    for (input, status, output) in cases {
        let bytes = input.as_bytes().to_vec(rt.alloc())?;
        let seen = run(rt.alloc(), &["schedule"], bytes, 7, &[], &[])?;
        assert_eq!(rt; seen.0, status, "{input}");
        assert_eq!(rt; seen.1.bytes(), output.as_bytes(), "{input}");
    }
    Ok(())
}

// No byte of the input is read.
#[test]
fn soaks(rt: HostRuntime) -> Result<(), Fail> {
    let line = b"documents 7 loads 1 expanded 826 compacted 595 flattened 973 runs 57\n";
    let seen = run(
        rt.alloc(),
        &["soak", "7"],
        Vec::new(rt.alloc()),
        4,
        &[1],
        &[],
    )?;
    assert_eq!(rt; seen.0, Status::Done);
    assert_eq!(rt; seen.1.bytes(), line.as_slice());
    let seen = run(
        rt.alloc(),
        &["soak", "7"],
        Vec::new(rt.alloc()),
        4,
        &[],
        &[3],
    )?;
    assert_eq!(rt; seen.0, Status::WriteFault);
    assert_eq!(rt; seen.1.bytes(), &line[..8]);
    Ok(())
}

#[test]
fn each_read_and_write_may_fail(rt: HostRuntime) -> Result<(), Fail> {
    let alloc = rt.alloc();
    let input = b"{\"document\":[1]} ";
    let output = b"[]\n";
    // One read for each byte, and one that finds the end.
    for call in 1..=18 {
        let seen = run(alloc, &["expand"], input.to_vec(alloc)?, 1, &[call], &[])?;
        assert_eq!(rt; seen.0, Status::ReadFault, "read {call}");
        assert!(rt; seen.1.bytes().is_empty(), "read {call}");
    }
    for call in 1..=3 {
        let seen = run(alloc, &["expand"], input.to_vec(alloc)?, 1, &[19], &[call])?;
        let written = call as usize - 1;
        assert_eq!(rt; seen.0, Status::WriteFault, "write {call}");
        assert_eq!(rt; seen.1.bytes(), &output[..written], "write {call}");
    }
    let seen = run(alloc, &["expand"], input.to_vec(alloc)?, 1, &[19], &[4])?;
    assert_eq!(rt; seen.0, Status::Done);
    assert_eq!(rt; seen.1.bytes(), output.as_slice());
    Ok(())
}

#[test]
fn words_and_lengths_have_limits(rt: HostRuntime) -> Result<(), Fail> {
    let alloc = rt.alloc();
    let forms: [&[&str]; 10] = [
        &[],
        &["expand", "x"],
        &["Expand"],
        &["soak"],
        &["soak", "0"],
        &["soak", "07"],
        &["soak", "10001"],
        &["soak", "7", "x"],
        &["expand", "7"],
        &["schedule", "expand"],
    ];
    for form in forms {
        let seen = run(alloc, form, Vec::new(alloc), 64, &[1], &[])?;
        assert_eq!(rt; seen.0, Status::Usage);
        assert_eq!(rt; seen.1.bytes(), USAGE.as_bytes());
    }
    let mut longest = vec![in alloc; b' '; 4_194_304 - ANN.len()]?;
    longest.extend_from_slice(ANN.as_bytes())?;
    let seen = run(alloc, &["expand"], longest, 1_000_000, &[], &[])?;
    assert_eq!(rt; seen.0, Status::Done);
    assert_eq!(rt; seen.1.bytes(), ANN_EXPANDED.as_bytes());
    let too_long = vec![in alloc; b' '; 4_194_305]?;
    let seen = run(alloc, &["schedule"], too_long, 1_000_000, &[], &[])?;
    assert_eq!(rt; seen.0, Status::InputTooLong);
    assert_eq!(rt;
        seen.1.bytes(),
        b"{\"own\":\"input too long\"}\n".as_slice()
    );
    Ok(())
}
