//! What servers over memory are made of.
ghost use Rattle.std.specs.Prelude.{◌≡◌, ◌≤◌, All, IfOk};
ghost use Rattle.ld_edge.specs.Doors.{IsNew};
ghost use Rattle.ld_flight.specs.Memory.{IsShort};

use ld_edge::{Door, Link, MemDoor, MemLink, MemSink, MemSource};
use ld_flight::{LONGEST_TEXT, Loader, MemLoader};
use ld_tree::{Iri, Raw, Text, Url};
use ld_work::{Ended, Post, serve_all, serve_form};
use std::alloc::Global;
use std::sync::Wait;
use std::test::Fail;
use std::thread::Threads;

/// Serves with these numbers of connections, and of connections between two rounds, by as many workers as there are posts.
/// None where the words can't be made.
pub(crate) fn serve_posts<
    N: Link + Drop + Send,
    D: Door<L = N> + Drop + Send,
    L: Loader + Drop + Send,
    R: Threads + Wait + Sync,
>(
    rt: &R,
    alloc: Global,
    connections: u32,
    every: u32,
    posts: Vec<Post<D, L>>,
) -> Option<Ended<D, L>>
    requires { (link : N) → D.sides link ≡ (N.incoming link, N.outgoing link) }
{
    let count = posts.len();
    let mut words = Vec::new(alloc);
    for word in ["serve", "here"] {
        words.push(String::from_str(alloc, word).ok()?).ok()?;
    }
    words.push(format!(in alloc; "{count}").ok()?).ok()?;
    words.push(format!(in alloc; "{connections}").ok()?).ok()?;
    words.push(format!(in alloc; "{every}").ok()?).ok()?;
    let form = serve_form("serve", words.as_slice())?;
    if form.workers as usize != count {
        return None;
    }
    Some(serve_all(rt, alloc, words.as_slice(), posts))
}

/// A link over which this stream comes, and on which nothing was done.
pub(crate) fn link_of(alloc: Global, stream: &str) -> Result<MemLink, Fail>
    ensures { IfOk result IsNew }
{
    let bytes = Raw::from_vec(stream.as_bytes().to_vec(alloc)?);
    let source = MemSource::new(bytes, 4096, Vec::new(alloc));
    let sink = MemSink::new(alloc, 4096, Vec::new(alloc));
    Ok(MemLink::new(source, sink))
}

/// A door that gives links over which these streams come.
pub(crate) fn door_of(alloc: Global, streams: &[&str]) -> Result<MemDoor, Fail> {
    let mut links = Vec::new(alloc);
    for stream in streams {
        links.push(link_of(alloc, stream)?)?;
    }
    Ok(MemDoor::new(alloc, links, Vec::new(alloc))?)
}

/// A loader that has these texts, each with its IRI, and whose loads of these numbers fail, counted from 1. A text that is too
/// long for a loader is left out.
pub(crate) fn loader_of(
    alloc: Global,
    texts: &[(&str, &str)],
    fails: &[u64],
) -> Result<MemLoader, Fail> {
    Ok(MemLoader::new(alloc, answers(alloc, texts)?, fails.to_vec(alloc)?))
}

fn answers(alloc: Global, texts: &[(&str, &str)]) -> Result<Vec<(Iri, Url, Raw)>, Fail>
    ensures { IfOk result (λ answers. All IsShort answers.items) }
{
    let mut answers = Vec::new(alloc);
    for (iri, text) in texts {
        if text.len() <= LONGEST_TEXT {
            let bytes = Raw::from_vec(text.as_bytes().to_vec(alloc)?);
            answers.push((
                Text::from_str(alloc, iri)?,
                Text::from_str(alloc, iri)?,
                bytes,
            ))?;
        }
    }
    Ok(answers)
}
