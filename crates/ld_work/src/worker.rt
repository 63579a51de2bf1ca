//! One worker: a session for each link of its door, and rounds of revisions in between.
ghost use Rattle.std.specs.Prelude.{◌≡◌, ◌<◌, ◌^◌, [], Some, IfNone, IfSome, OnOk};
ghost use mathlib.Core.List.{IsPrefix};
ghost use Rattle.ld_book.specs.Pages.{Booked};
ghost use Rattle.ld_book.specs.Seats.{lines_of};
ghost use Rattle.ld_moves.specs.Stocks.{IsSound};
ghost use Rattle.ld_visit.specs.Visits.{IsFree};
ghost use Rattle.ld_work.specs.Shifts.{Converses, Gives, HasRoom, IsLast, IsShift, ServesOne};
ghost use Rattle.ld_work.specs.Working.{IsRevisedBy, is_due};

use crate::post::Post;
use crate::report::RoundReport;
use ld_book::{Blank, Hall, Seats};
use ld_edge::{Door, Link};
use ld_flight::Loader;
use ld_head::SessionEnd;
use ld_revise::{Round, revise_round};
use ld_session::{Served, serve_session};
use ld_tree::NoMemory;
use std::alloc::Global;
use std::sync::Wait;

/// What a worker begins with. No session is under way in its seats.
#[derive(Drop)]
pub(crate) struct Job<D, L> {
    pub seats: Seats<Blank>,
    pub post: Post<D, L>,
}

/// What a worker has done, in order.
#[derive(Drop)]
pub(crate) struct Log {
    /// The number of each session, where one was opened, and how its connection ended.
    pub sessions: Vec<(Option<u32>, SessionEnd)>,
    pub rounds: Vec<RoundReport>,
}

impl Log {
    fn new(alloc: Global) -> Log
        ensures sessions { result.sessions.items ≡ [] }
        ensures rounds { result.rounds.items ≡ [] }
    {
        Log {
            sessions: Vec::new(alloc),
            rounds: Vec::new(alloc),
        }
    }

    // Makes room for one more of each.
    fn reserve(&mut self) -> Result<(), NoMemory>
        ensures sessions { self.new.sessions.items ≡ self.old.sessions.items }
        ensures rounds { self.new.rounds.items ≡ self.old.rounds.items }
        ensures room { OnOk result (HasRoom self.new) }
    {
        self.sessions.reserve(1)?;
        self.rounds.reserve(1)?;
        Ok(())
    }
}

/// What a worker leaves.
#[derive(Drop)]
pub(crate) struct Shift<D, L> {
    pub seats: Seats<Blank>,
    pub post: Post<D, L>,
    /// None where there was no memory for it.
    pub log: Option<Log>,
}

/// Serves the links of the door until it has none left or fails, or until there is no memory for the log.
pub(crate) fn work<N: Link + Drop, D: Door<L = N> + Drop, L: Loader + Drop, R: Wait>(
    rt: &R,
    alloc: Global,
    hall: &Hall<Blank>,
    every: u32,
    job: Job<D, L>,
) -> Shift<D, L>
    requires book { job.seats.book.lock ≡ hall.now.book }
    requires free { IsFree job.seats.book }
    requires sides { (link : N) → D.sides link ≡ (N.incoming link, N.outgoing link) }
    ensures { IsShift D.doorway L.loading every job result }
{
    let Job {
        mut seats,
        mut post,
    } = job;
    let mut log = Log::new(alloc);
    for _ in rt.forever() {
        if log.reserve().is_err() {
            return Shift {
                seats,
                post,
                log: None,
            };
        }
        let Some(link) = take_link(&mut post) else {
            return Shift {
                seats,
                post,
                log: Some(log),
            };
        };
        seats = serve_one(rt, alloc, hall, every, seats, &mut post, &mut log, link);
    }
    unreachable!()
}

// The next link of the door.
fn take_link<N: Link, D: Door<L = N>, L>(post: &mut Post<D, L>) -> Option<N>
    ensures some { IfSome result (λ link. Gives (D.doorway post.old.door) (D.doorway post.new.door) (D.sides link)) }
    ensures none { IfNone result (IsLast (D.doorway post.old.door) (D.doorway post.new.door)) }
    ensures loader { post.new.loader ≡ post.old.loader }
{
    match post.door.next() {
        Ok(Some(link)) => Some(link),
        Ok(None) | Err(_) => None,
    }
}

// Serves the link, and has a round behind it where one is due.
fn serve_one<N: Link, D: Door<L = N>, L: Loader, R: Wait>(
    rt: &R,
    alloc: Global,
    hall: &Hall<Blank>,
    every: u32,
    seats: Seats<Blank>,
    post: &mut Post<D, L>,
    log: &mut Log,
    link: N,
) -> Seats<Blank>
    requires book { seats.book.lock ≡ hall.now.book }
    requires free { IsFree seats.book }
    requires sides { (link : N) → D.sides link ≡ (N.incoming link, N.outgoing link) }
    requires given { (D.doorway post.old.door).back < (D.doorway post.old.door).given }
    requires room { HasRoom log.old }
    ensures library { result.library ≡ seats.library }
    ensures lock { result.book.lock ≡ seats.book.lock }
    ensures free { IsFree result.book }
    ensures seen { IsPrefix seats.book.front result.book.front }
    ensures serves { ServesOne D.doorway L.loading every (D.sides link) result.book.front post.old post.new log.old log.new }
{
    let (seats, report) = converse(rt, alloc, hall, seats, post, link);
    log.sessions.push_reserved(report);
    if !is_round_due(every, log.sessions.len()) {
        return seats;
    }
    let (seats, report) = have_round(rt, alloc, hall, seats, &mut post.loader);
    log.rounds.push_reserved(report);
    seats
}

// Serves the link, and gives it back to the door.
fn converse<N: Link, D: Door<L = N>, L: Loader, R: Wait>(
    rt: &R,
    alloc: Global,
    hall: &Hall<Blank>,
    seats: Seats<Blank>,
    post: &mut Post<D, L>,
    link: N,
) -> (Seats<Blank>, (Option<u32>, SessionEnd))
    requires book { seats.book.lock ≡ hall.now.book }
    requires free { IsFree seats.book }
    requires sides { (link : N) → D.sides link ≡ (N.incoming link, N.outgoing link) }
    requires given { (D.doorway post.old.door).back < (D.doorway post.old.door).given }
    ensures library { result.0.library ≡ seats.library }
    ensures lock { result.0.book.lock ≡ seats.book.lock }
    ensures free { IsFree result.0.book }
    ensures seen { IsPrefix seats.book.front result.0.book.front }
    ensures serves { Converses D.doorway L.loading (D.sides link) result.0.book.front post.old post.new result.1 }
{
    let mut link = link;
    let Served {
        seats,
        session,
        end,
    } = serve_session(rt, alloc, hall, seats, &mut link, &mut post.loader);
    post.door.back(link);
    (seats, (session, end))
}

// Whether a round follows on so many connections.
fn is_round_due(every: u32, connections: usize) -> bool
    ensures { result ≡ is_due every connections }
{
    every != 0 && connections as u64 % u64::from(every) == 0
}

fn have_round<L: Loader, R: Wait>(
    rt: &R,
    alloc: Global,
    hall: &Hall<Blank>,
    seats: Seats<Blank>,
    loader: &mut L,
) -> (Seats<Blank>, RoundReport)
    requires book { seats.book.lock ≡ hall.now.book }
    requires free { IsFree seats.book }
    ensures library { result.0.library ≡ seats.library }
    ensures lock { result.0.book.lock ≡ seats.book.lock }
    ensures free { IsFree result.0.book }
    ensures seen { IsPrefix seats.book.front result.0.book.front }
    ensures revises { (book : Booked) → IsSound book.limits book.pages → IsPrefix result.0.book.front (lines_of book)
        → IsRevisedBy book (Some result.1) (L.loading loader.old) (L.loading loader.new) }
{
    let Round {
        seats,
        session,
        end,
        revised,
        same,
        failed,
        refused,
    } = revise_round(rt, alloc, hall, seats, loader);
    let report = RoundReport {
        session,
        end,
        revised,
        same,
        failed,
        refused,
    };
    (seats, report)
}
