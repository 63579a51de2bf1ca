//! Rounds of revisions between the connections of a worker.
use crate::hosting::{door_of, loader_of, serve_posts};
use ld_revise::RoundEnd;
use ld_work::{Ended, Post};
use std::test::Fail;

// The first of these contexts is another one at its second load.
const THREE: &[(&str, &str)] = &[
    ("http://c/1", r#"{"@context":{}}"#),
    ("http://c/2", r#"{"@context":{}}"#),
    ("http://c/3", r#"{"@context":{}}"#),
    ("http://c/1", r#"{"@context":{"n":"http://e/n"}}"#),
];

// A request that needs them all.
const WITH_THREE: &str =
    "POST /expand HTTP/1.1\r\nHost: h\r\nContent-Length: 66\r\n\r\n{\"document\":{\"@context\":[\"http://c/1\",\"http://c/2\",\"http://c/3\"]}}";

#[test]
fn a_round_goes_on_after_a_failed_load(rt: HostRuntime) -> Result<(), Fail> {
    let alloc = rt.alloc();
    let mut posts = Vec::new(alloc);
    // Three loads are the connection's, so the fifth is the second of the round.
    posts.push(Post {
        door: door_of(alloc, &[WITH_THREE])?,
        loader: loader_of(alloc, THREE, &[5])?,
    })?;
    let Some(
        Ended::Done {
            book: _,
            sessions,
            rounds,
            posts: _,
        },
    ) = serve_posts(&rt, alloc, 1, 1, posts)
    else {
        return Err("not done".into());
    };
    assert_eq!(&rt; sessions.len(), 1);
    let [round] = rounds.as_slice() else {
        return Err("not one round".into());
    };
    assert_eq!(&rt; round.end, RoundEnd::Done);
    assert_eq!(&rt; round.revised, 1);
    assert_eq!(&rt; round.same, 1);
    assert_eq!(&rt; round.failed, 1);
    assert_eq!(&rt; round.refused, 0);
    Ok(())
}
