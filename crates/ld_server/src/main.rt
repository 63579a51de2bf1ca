//! The program: words of the form that asks for a server make it one, and any others are one run.
//!
//! A server (`serve_all` of `ld_work`) has a listener at the address, which all workers share, and for each worker a door over
//! it and a loader of the folder `contexts`; when it has ended, a line tells of it. A run (`run_once` of `ld_once`) has a source
//! of standard input, a sink of standard output, and such a loader. Nothing is to be believed of this crate but that it is
//! safe: what its calls owe stands in those two.
#![tactic(auto)]

mod server;

use ld_edge::{Status, StdSink, StdSource};
use ld_flight::FolderLoader;
use ld_once::run_once;
use ld_work::{serve_all, serve_form};
use server::{listen, posts, refuse_address, report};
use std::env::Env;
use std::process::ExitCode;
use std::{env, io};

// The words after the program's name. Where one isn't UTF-8 there are none, which is no form either.
fn words<R: Env + AllocGlobal>(rt: &R) -> Result<Vec<String>, Status> {
    match env::args(rt) {
        Ok(args) => args
            .skip(1)
            .collect(rt.alloc())
            .map_err(|_| Status::NoMemory),
        Err(error) if error.kind() == io::ErrorKind::OutOfMemory => Err(Status::NoMemory),
        Err(_) => Ok(Vec::new(rt.alloc())),
    }
}

// What a server sends to its threads has to be of this very runtime, so it is called here.
fn main(rt: HostRuntime) -> ExitCode {
    let words = match words(&rt) {
        Ok(words) => words,
        Err(status) => return ExitCode::from(status.code()),
    };
    let alloc = rt.alloc();
    let mut output = StdSink::new(rt.stdout());
    let Some(form) = serve_form("serve", words.as_slice()) else {
        let mut input = StdSource::new(rt.stdin());
        let mut loader = FolderLoader::new(alloc, &rt);
        let status = run_once(
            alloc,
            words.as_slice(),
            &mut input,
            &mut output,
            &mut loader,
        );
        return ExitCode::from(status.code());
    };
    let Some(listener) = listen(&rt, words.as_slice()) else {
        return ExitCode::from(refuse_address(&mut output));
    };
    let Ok(posts) = posts(&rt, alloc, &listener, form) else {
        return ExitCode::from(Status::NoMemory.code());
    };
    let ended = serve_all(&rt, alloc, words.as_slice(), posts);
    ExitCode::from(report(alloc, ended, &mut output))
}
