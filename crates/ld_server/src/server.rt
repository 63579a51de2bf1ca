//! What a server over a listener is made of, and what is told of it.
ghost use Rattle.std.specs.Prelude.{◌≡◌, IfOk, length};

use ld_edge::{ListenDoor, Sink, Status, write_all};
use ld_flight::FolderLoader;
use ld_tree::NoMemory;
use ld_work::{Ended, Form, Post, told_line};
use std::alloc::Global;
use std::net::{Net, TcpListener, TcpStream};
use std::rt::Files;

// The exit status where the address can't be listened on.
const CANNOT_LISTEN: u8 = 9;

/// Writes what comes of a server that has ended. Gives the exit status.
pub fn report<D: Drop, L: Drop, K: Sink>(alloc: Global, ended: Ended<D, L>, output: &mut K) -> u8 {
    match ended {
        Ended::Done {
            book,
            sessions,
            rounds: _,
            posts: _,
        } => match told_line(alloc, sessions.len() as u64, book.events(), book.version()) {
            Ok(line) => write(output, Status::Done.code(), line.as_slice()),
            Err(NoMemory) => Status::NoMemory.code(),
        },
        Ended::NoMemory => Status::NoMemory.code(),
        Ended::Usage => Status::Usage.code(),
    }
}

/// Says that the address can't be listened on. Gives the exit status.
pub fn refuse_address<K: Sink>(output: &mut K) -> u8 {
    write(output, CANNOT_LISTEN, b"cannot listen\n")
}

/// A listener at the address, which is the second word.
pub fn listen<R: Net<Listener = TcpListener, Stream = TcpStream>>(
    rt: &R,
    words: &[String],
) -> Option<TcpListener> {
    let address = words.get(1)?;
    TcpListener::bind(rt, address.as_str()).ok()
}

/// A door and a loader for each worker.
pub fn posts<'a, R: Files>(
    rt: &'a R,
    alloc: Global,
    listener: &'a TcpListener,
    form: Form,
) -> Result<Vec<Post<ListenDoor<'a, TcpListener>, FolderLoader<'a, R>>>, NoMemory>
    ensures { IfOk result (λ posts. length posts.items ≡ form.workers) }
{
    let mut posts = Vec::new(alloc);
    for _ in 0..form.workers {
        posts.push(Post {
            door: ListenDoor::new(listener, u64::from(form.connections)),
            loader: FolderLoader::new(alloc, rt),
        })?;
    }
    Ok(posts)
}

// Writes the text that goes with the status.
fn write<K: Sink>(output: &mut K, code: u8, text: &[u8]) -> u8 {
    match write_all(output, text) {
        Ok(()) => code,
        Err(_) => Status::WriteFault.code(),
    }
}
