//! Connections whose requests need contexts from elsewhere.
use crate::hosting::{Shelf, exchange_alone};
use crate::messages::{Exchange, JSON, LD_JSON, WITH_X, X, X_FAULT, X_RESULT};
use ld_history::Limits;
use std::test::Fail;

#[test]
fn a_context_is_loaded_again_after_a_fault(rt: HostRuntime) -> Result<(), Fail> {
    let shelf = Shelf {
        texts: &[("http://c/x", X)],
        fails: &[1],
    };
    let exchanges = [
        Exchange {
            path: "/expand",
            asked: WITH_X,
            status: "502 Bad Gateway",
            media: JSON,
            version: 0,
            answered: X_FAULT,
        },
        Exchange {
            path: "/expand",
            asked: WITH_X,
            status: "200 OK",
            media: LD_JSON,
            version: 1,
            answered: X_RESULT,
        },
    ];
    let events = exchange_alone(&rt, rt.alloc(), Limits::server(), shelf, &exchanges)?;
    assert_eq!(&rt; events, 11);
    Ok(())
}

#[test]
fn what_is_no_context_is_refused(rt: HostRuntime) -> Result<(), Fail> {
    for (text, answered) in [
        ("not json", r#"{"code":"loading remote context failed"}"#),
        ("[]", r#"{"code":"invalid remote context"}"#),
    ] {
        let shelf = Shelf {
            texts: &[("http://c/x", text)],
            fails: &[],
        };
        let exchange = Exchange {
            path: "/expand",
            asked: WITH_X,
            status: "422 Unprocessable Content",
            media: JSON,
            version: 1,
            answered,
        };
        let events = exchange_alone(&rt, rt.alloc(), Limits::server(), shelf, &[exchange])?;
        assert_eq!(&rt; events, 7, "{text}");
    }
    Ok(())
}

const IRI_X: &str = r#"{"iri":"http://c/x"}"#;

// What a context goes through that is loaded, changed, looked at again, and taken out twice.
const CHANGES: [Exchange<'static>; 5] = [
    Exchange {
        path: "/expand",
        asked: WITH_X,
        status: "200 OK",
        media: LD_JSON,
        version: 1,
        answered: X_RESULT,
    },
    Exchange {
        path: "/revise",
        asked: IRI_X,
        status: "200 OK",
        media: JSON,
        version: 1,
        answered: r#"{"version":2}"#,
    },
    Exchange {
        path: "/revise",
        asked: IRI_X,
        status: "200 OK",
        media: JSON,
        version: 2,
        answered: r#"{"own":"same","version":2}"#,
    },
    Exchange {
        path: "/evict",
        asked: IRI_X,
        status: "200 OK",
        media: JSON,
        version: 2,
        answered: r#"{"version":3}"#,
    },
    Exchange {
        path: "/evict",
        asked: IRI_X,
        status: "404 Not Found",
        media: JSON,
        version: 3,
        answered: r#"{"own":"not stored","version":3}"#,
    },
];

#[test]
fn a_context_is_revised_and_evicted(rt: HostRuntime) -> Result<(), Fail> {
    let shelf = Shelf {
        texts: &[
            ("http://c/x", X),
            ("http://c/x", r#"{"@context":{"n":"http://e/m"}}"#),
        ],
        fails: &[],
    };
    let events = exchange_alone(&rt, rt.alloc(), Limits::server(), shelf, &CHANGES)?;
    assert_eq!(&rt; events, 20);
    Ok(())
}
