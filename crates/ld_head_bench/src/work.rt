//! The work of the benchmark.

use bytes::BytesMut;
use ld_head::{Begun, Came, Marks, Outcome, Reply, read_head, write_reply};
use std::alloc::Global;

#[derive(Clone, Copy)]
pub enum Kind {
    Whole,
    Bytes,
    Replies,
}

#[derive(Clone, Copy)]
pub struct Wanted {
    pub kind: Kind,
    pub fields: u32,
    pub value: u32,
    pub rounds: u32,
}

// A request head with so many fields more than it needs.
fn head(alloc: Global, fields: u32, value: u32) -> Option<String> {
    let mut text = String::from_str(
        alloc,
        "POST /expand HTTP/1.1\r\nHost: server.example\r\nContent-Length: 107\r\n",
    )
    .ok()?;
    for _ in 0..fields {
        text.push_str("X-Some-Field: ").ok()?;
        for _ in 0..value {
            text.push('v').ok()?;
        }
        text.push_str("\r\n").ok()?;
    }
    text.push_str("\r\n").ok()?;
    Some(text)
}

// The length of the body that the head tells.
fn read_whole(alloc: Global, head: &[u8]) -> Option<u64> {
    Some(u64::from(read_head(alloc, head).ok()?.length))
}

fn read_by_bytes(alloc: Global, head: &[u8]) -> Option<u64> {
    let mut begun = Begun::new(alloc);
    for piece in head.chunks(1) {
        begun = match begun.take(piece) {
            Came::More { begun } => begun,
            Came::Whole { block, .. } => return read_whole(alloc, block.as_slice()),
            _ => return None,
        };
    }
    None
}

// How many bytes a reply has.
fn reply(alloc: Global, number: u32) -> Option<u64> {
    let marks = Marks {
        interim: false,
        closes: false,
        head_alone: false,
    };
    let outcome = Outcome::NotStored {
        version: u64::from(number),
    };
    let reply = Reply::new(alloc, Some((number, 7)), &outcome, marks).ok()?;
    let mut out = BytesMut::new(alloc);
    write_reply(&reply, &mut out).ok()?;
    Some(out.len() as u64)
}

/// The sum of what the rounds give. `None` without memory, or where the head is refused.
pub fn run(alloc: Global, wanted: &Wanted) -> Option<u64> {
    let head = head(alloc, wanted.fields, wanted.value)?;
    let mut sum: u64 = 0;
    for round in 0..wanted.rounds {
        let given = match wanted.kind {
            Kind::Whole => read_whole(alloc, head.as_bytes()),
            Kind::Bytes => read_by_bytes(alloc, head.as_bytes()),
            Kind::Replies => reply(alloc, round),
        };
        sum = sum.wrapping_add(given?);
    }
    Some(sum)
}
