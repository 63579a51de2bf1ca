//! Servers whose doors and loaders have all in memory.
use crate::gate::{Gated, Watched};
use crate::hosting::{door_of, loader_of, serve_posts};
use crate::messages::{ANN, WITH_X, X, X_REPLY, ann_reply};
use ld_book::Bell;
use ld_edge::Door;
use ld_head::SessionEnd;
use ld_work::{Ended, Post};
use std::alloc::Global;
use std::process::Abort;
use std::sync::Wait;
use std::test::Fail;

// Asserts that this text is what went out over the door's links.
fn assert_written<R: Abort + Wait>(rt: &R, door: &Watched<'_, R>, wanted: &str) {
    assert_eq!(rt; door.written.as_slice(), wanted.as_bytes());
}

// The loader waits at the one gate, and the door rings the other, where there is one.
fn gated_post<'a, R: Wait>(
    rt: &'a R,
    alloc: Global,
    rung: Option<&'a Bell>,
    awaited: Option<&'a Bell>,
    stream: &str,
    texts: &[(&str, &str)],
) -> Result<Post<Watched<'a, R>, Gated<'a, R>>, Fail> {
    let door = Watched {
        rt,
        gate: rung,
        door: door_of(alloc, &[stream])?,
        written: Vec::new(alloc),
    };
    let loader = Gated {
        rt,
        gate: awaited,
        loader: loader_of(alloc, texts, &[])?,
    };
    Ok(Post { door, loader })
}

// The first loads once a link of the second came back.
fn gated_posts<'a, R: Wait>(
    rt: &'a R,
    alloc: Global,
    gate: &'a Bell,
) -> Result<Vec<Post<Watched<'a, R>, Gated<'a, R>>>, Fail> {
    let mut posts = Vec::new(alloc);
    let loads = gated_post(rt, alloc, None, Some(gate), WITH_X, &[("http://c/x", X)])?;
    posts.push(loads)?;
    let rings = gated_post(rt, alloc, Some(gate), None, ANN, &[])?;
    posts.push(rings)?;
    Ok(posts)
}

#[test]
fn a_load_waits_for_another_session(rt: HostRuntime) -> Result<(), Fail> {
    let alloc = rt.alloc();
    let gate = Bell::new();
    let posts = gated_posts(&rt, alloc, &gate)?;
    let Some(
        Ended::Done {
            book,
            sessions,
            rounds,
            posts,
        },
    ) = serve_posts(&rt, alloc, 1, 0, posts)
    else {
        return Err("not done".into());
    };
    assert_eq!(&rt; sessions.len(), 2);
    for (session, end) in &sessions {
        assert!(&rt; session.is_some());
        assert_eq!(&rt; *end, SessionEnd::Closed);
    }
    assert!(&rt; rounds.is_empty());
    // The one has its opening, a pin, a flight and its end, another pin, an answer and its close; the other has four entries.
    assert_eq!(&rt; book.events(), 11);
    assert_eq!(&rt; book.version(), 1);
    let [first, second] = posts.as_slice() else {
        return Err("not two posts".into());
    };
    assert_written(&rt, &first.door, X_REPLY);
    assert_written(&rt, &second.door, ann_reply(alloc, 1, 0)?.as_str());
    Ok(())
}

#[test]
fn all_links_come_back(rt: HostRuntime) -> Result<(), Fail> {
    let alloc = rt.alloc();
    let mut posts = Vec::new(alloc);
    for _ in 0..3 {
        posts.push(Post {
            door: door_of(alloc, &[ANN, "", ANN, ANN, "POST"])?,
            loader: loader_of(alloc, &[], &[])?,
        })?;
    }
    let Some(
        Ended::Done {
            book,
            sessions,
            rounds,
            posts,
        },
    ) = serve_posts(&rt, alloc, 5, 2, posts)
    else {
        return Err("not done".into());
    };
    assert_eq!(&rt; sessions.len(), 15);
    assert_eq!(&rt; rounds.len(), 6);
    assert_eq!(&rt; book.version(), 0);
    for post in &posts {
        assert_eq!(&rt; post.door.returned().len(), 5);
        assert_eq!(&rt; post.door.faults(), 0);
    }
    Ok(())
}
