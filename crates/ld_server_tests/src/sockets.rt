//! Servers over real connections on the loopback interface.
use crate::hosting::{loader_of, serve_posts};
use crate::messages::{ANN, WITH_X, X, X_REPLY, ann_reply};
use ld_edge::ListenDoor;
use ld_flight::MemLoader;
use ld_head::SessionEnd;
use ld_work::{Ended, Post};
use std::alloc::Global;
use std::io::{self, Read, Write};
use std::net::{Net, Shutdown, TcpListener, TcpStream};
use std::test::Fail;
use std::thread::join;

type Posts<'a> = Vec<Post<ListenDoor<'a, TcpListener>, MemLoader>>;

// Workers at one listener, each for so many connections, whose loaders have one context.
fn posts_at<'a>(
    alloc: Global,
    listener: &'a TcpListener,
    workers: u32,
    connections: u64,
) -> Result<Posts<'a>, Fail> {
    let mut posts = Vec::new(alloc);
    for _ in 0..workers {
        posts.push(Post {
            door: ListenDoor::new(listener, connections),
            loader: loader_of(alloc, &[("http://c/x", X)], &[])?,
        })?;
    }
    Ok(posts)
}

// Sends the bytes, and nothing more; gives what comes back.
fn exchange(alloc: Global, mut stream: TcpStream, bytes: &[u8]) -> io::Result<Vec<u8>> {
    stream.write_all(bytes)?;
    stream.shutdown(Shutdown::Write)?;
    let mut back = Vec::new(alloc);
    stream.read_to_end(&mut back)?;
    Ok(back)
}

// Two connections that are open at once. The one that came last is answered first.
fn two_at_once<R: Net<Stream = TcpStream>>(
    rt: &R,
    alloc: Global,
    listener: &TcpListener,
) -> io::Result<(Vec<u8>, Vec<u8>)> {
    let address = listener.local_addr()?;
    let first = TcpStream::connect(rt, address)?;
    let second = TcpStream::connect(rt, address)?;
    let plain = exchange(alloc, second, ANN.as_bytes())?;
    let loaded = exchange(alloc, first, WITH_X.as_bytes())?;
    Ok((loaded, plain))
}

#[test]
fn two_connections_are_served_at_once(rt: HostRuntime) -> Result<(), Fail> {
    let alloc = rt.alloc();
    let listener = TcpListener::bind(&rt, "127.0.0.1:0")?;
    let posts = posts_at(alloc, &listener, 2, 1)?;
    // The clients get the other thread, since what they give crosses threads by itself.
    let (got, served) = join(
        &rt,
        || two_at_once(&rt, alloc, &listener).ok(),
        || serve_posts(&rt, alloc, 1, 0, posts),
    );
    let (loaded, plain) = got.ok_or("no replies")?;
    assert_eq!(&rt; loaded.as_slice(), X_REPLY.as_bytes());
    assert_eq!(&rt; plain.as_slice(), ann_reply(alloc, 1, 0)?.as_bytes());
    let Some(
        Ended::Done {
            book,
            sessions,
            rounds: _,
            posts: _,
        },
    ) = served
    else {
        return Err("not done".into());
    };
    assert_eq!(&rt; sessions.len(), 2);
    assert_eq!(&rt; book.events(), 11);
    assert_eq!(&rt; book.version(), 1);
    Ok(())
}

// One client hangs up in the middle of a body; the next sends two requests at once.
fn one_after_another<R: Net<Stream = TcpStream>>(
    rt: &R,
    alloc: Global,
    listener: &TcpListener,
    pair: &str,
) -> io::Result<(Vec<u8>, Vec<u8>)> {
    let address = listener.local_addr()?;
    let half = &ANN.as_bytes()[..ANN.len() - 20];
    let cut = exchange(alloc, TcpStream::connect(rt, address)?, half)?;
    let both = exchange(alloc, TcpStream::connect(rt, address)?, pair.as_bytes())?;
    Ok((cut, both))
}

#[test]
fn a_client_hangs_up_and_another_asks_twice(rt: HostRuntime) -> Result<(), Fail> {
    let alloc = rt.alloc();
    let listener = TcpListener::bind(&rt, "127.0.0.1:0")?;
    let posts = posts_at(alloc, &listener, 1, 2)?;
    let pair = format!(in alloc; "{ANN}{ANN}")?;
    let (got, served) = join(
        &rt,
        || one_after_another(&rt, alloc, &listener, pair.as_str()).ok(),
        || serve_posts(&rt, alloc, 2, 0, posts),
    );
    let (cut, both) = got.ok_or("no replies")?;
    assert!(&rt; cut.is_empty());
    let first = ann_reply(alloc, 1, 0)?;
    let second = ann_reply(alloc, 2, 0)?;
    let wanted = format!(in alloc; "{first}{second}")?;
    assert_eq!(&rt; both.as_slice(), wanted.as_bytes());
    let Some(
        Ended::Done {
            book,
            sessions,
            rounds: _,
            posts: _,
        },
    ) = served
    else {
        return Err("not done".into());
    };
    let ends: [(Option<u32>, SessionEnd); 2] = [
        (Some(1), SessionEnd::Truncated),
        (Some(2), SessionEnd::Closed),
    ];
    assert_eq!(&rt; sessions.as_slice(), ends.as_slice());
    assert_eq!(&rt; book.events(), 8);
    Ok(())
}
