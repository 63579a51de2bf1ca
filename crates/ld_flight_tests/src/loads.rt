ghost use Rattle.std.specs.Prelude.{All, IfOk};
ghost use Rattle.ld_flight.specs.Memory.{IsShort};

use ld_flight::{LONGEST_TEXT, Loaded, Loader, MemLoader, Refused, Tower, Why};
use ld_rec::Stored;
use ld_tree::{Iri, NoMemory, Raw, Text, Url};
use std::alloc::Global;
use std::process::Abort;
use std::test::Fail;

// The answers of a loader; a text that is too long for one is left out.
fn answers(alloc: Global, texts: &[(&str, &str, &str)]) -> Result<Vec<(Iri, Url, Raw)>, Fail>
    ensures { IfOk result (λ answers. All IsShort answers.items) }
{
    let mut answers = Vec::new(alloc);
    for (iri, url, text) in texts {
        if text.len() <= LONGEST_TEXT {
            let bytes = Raw::from_vec(text.as_bytes().to_vec(alloc)?);
            answers.push((
                Text::from_str(alloc, iri)?,
                Text::from_str(alloc, url)?,
                bytes,
            ))?;
        }
    }
    Ok(answers)
}

// What a load gave: the place and the text, or the counts of a fault.
fn seen(rt: &impl Abort, outcome: Result<Loaded, Refused>) -> Result<(Url, Raw), (u64, u64)> {
    match outcome {
        Ok(loaded) => {
            let Loaded { pass, url, text } = loaded;
            pass.end();
            Ok((url, text))
        }
        Err(refused) => {
            let Refused {
                pass,
                why,
                before,
                after,
            } = refused;
            pass.end();
            assert!(rt; why == Why::Fault);
            Err((before, after))
        }
    }
}

#[test]
fn answers_come_in_turn_and_the_last_stays(rt: HostRuntime) -> Result<(), Fail> {
    let alloc = rt.alloc();
    let texts = [
        ("http://c/x", "http://p/1", "1"),
        ("http://c/y", "http://p/2", "2"),
        ("http://c/x", "http://p/3", "3"),
    ];
    let calls = [
        ("http://c/x", "http://p/1", "1"),
        ("http://c/y", "http://p/2", "2"),
        ("http://c/x", "http://p/3", "3"),
        ("http://c/x", "http://p/3", "3"),
        ("http://c/y", "http://p/2", "2"),
    ];
    let mut loader = MemLoader::new(alloc, answers(alloc, &texts)?, Vec::new(alloc));
    let mut tower = Tower::new();
    for (iri, url, text) in calls {
        assert!(rt; tower.made() < 9);
        let pass = tower.lead(Text::from_str(alloc, iri)?);
        let Ok(answer) = seen(&rt, loader.load(alloc, pass)) else {
            rt.panic("a fault");
        };
        assert_eq!(rt; answer.0.as_str(), url);
        assert_eq!(rt; answer.1.as_slice(), text.as_bytes());
    }
    assert_eq!(rt; tower.made(), 5);
    assert_eq!(rt; loader.faults(), 0);
    Ok(())
}

#[test]
fn planned_and_unknown_loads_fail(rt: HostRuntime) -> Result<(), Fail> {
    let alloc = rt.alloc();
    let texts = [("http://c/x", "http://c/x", "1")];
    let mut loader = MemLoader::new(alloc, answers(alloc, &texts)?, [2].to_vec(alloc)?);
    let mut tower = Tower::new();
    let calls = [
        ("http://c/z", Err((0, 1))),
        ("http://c/x", Err((1, 2))),
        ("http://c/x", Ok(())),
    ];
    for (iri, want) in calls {
        assert!(rt; tower.made() < 9);
        let pass = tower.lead(Text::from_str(alloc, iri)?);
        let got = match seen(&rt, loader.load(alloc, pass)) {
            Ok(_) => Ok(()),
            Err(counts) => Err(counts),
        };
        assert!(rt; got == want, "{iri}");
    }
    assert_eq!(rt; loader.faults(), 2);
    Ok(())
}

// The SHA-256 of `abc` as FIPS 180-2 has it in its first example.
const ABC: [u8; 32] = [
    0xba, 0x78, 0x16, 0xbf, 0x8f, 0x01, 0xcf, 0xea, 0x41, 0x41, 0x40, 0xde, 0x5d, 0xae, 0x22, 0x23,
    0xb0, 0x03, 0x61, 0xa3, 0x96, 0x17, 0x7a, 0x9c, 0xb4, 0x10, 0xff, 0x61, 0xf2, 0x00, 0x15, 0xad,
];

#[test]
fn a_text_is_made_ready(rt: HostRuntime) -> Result<(), Fail> {
    let alloc = rt.alloc();
    let mut tower = Tower::new();
    let iri = Text::from_str(alloc, "http://c/x")?;
    let url = Text::from_str(alloc, "http://p/x")?;
    let text = Raw::from_vec(b"abc".to_vec(alloc)?);
    let loaded = Loaded {
        pass: tower.lead(iri),
        url,
        text,
    };
    match loaded.ready(alloc) {
        Ok(ready) => {
            assert_eq!(rt; ready.url().as_str(), "http://p/x");
            assert_eq!(rt; ready.length(), 3);
            assert_eq!(rt; ready.mark().as_slice(), ABC.as_slice());
            assert!(rt; matches!(ready.doc().body, Stored::Unreadable(_)));
            assert_eq!(rt; ready.pass().flight(), 1);
            ready.into_pass().end();
            Ok(())
        }
        Err((loaded, NoMemory)) => {
            let Loaded {
                pass,
                url: _,
                text: _,
            } = loaded;
            pass.end();
            rt.panic("memory")
        }
    }
}
