//! Many connections over one book.
ghost use Rattle.std.specs.Prelude.{◌≡◌, [], ◌∷◌, ◌++◌, All, IfOk, OnOk, codes, length, map, string_bytes};
ghost use Rattle.std.specs.List.{AllZip};
ghost use Rattle.ld_moves.specs.Stocks.{IsSound};
ghost use Rattle.ld_work.specs.Ends.{HasEnded};
ghost use Rattle.ld_work.specs.Forms.{IsFormOf};
ghost use Rattle.ld_work.specs.Gathering.{AreGathered};
ghost use Rattle.ld_work.specs.Shifts.{IsReady, IsShift};
ghost use Rattle.ld_work.specs.Working.{AllWorked};

use crate::form::{Form, serve_form};
use crate::hall::{AllSeats, close_hall, open_hall, split_seats};
use crate::post::Post;
use crate::report::RoundReport;
use crate::worker::{Job, Log, Shift, work};
use ld_book::{Blank, Book, Hall, Seats};
use ld_edge::{Door, Link};
use ld_flight::Loader;
use ld_head::SessionEnd;
use ld_tree::NoMemory;
use std::alloc::Global;
use std::sync::Wait;
use std::thread::{Threads, map_vec};

/// How serving ended.
#[derive(Drop)]
pub enum Ended<D, L> {
    /// The words ask for no server.
    Usage,
    NoMemory,
    Done {
        /// The book, when all have left it.
        book: Book,
        /// The number of each session, where one was opened, and how its connection ended: door by door, in order.
        sessions: Vec<(Option<u32>, SessionEnd)>,
        /// The rounds of revisions, door by door, in order.
        rounds: Vec<RoundReport>,
        /// The doors and the loaders come back.
        posts: Vec<Post<D, L>>,
    },
}

/// Serves all connections that come through the doors, by a worker for each, over one book under the limits of a server.
/// The words are `serve`, an address, how many workers, how many connections for each, and after how many of them it has a
/// round of revisions. The doors give so many links; the address was taken for them before. The workers are threads, and
/// where none can be made they run one after another.
pub fn serve_all<
    N: Link + Drop + Send,
    D: Door<L = N> + Drop + Send,
    L: Loader + Drop + Send,
    R: Threads + Wait + Sync,
>(rt: &R, alloc: Global, words: &[String], posts: Vec<Post<D, L>>) -> Ended<D, L>
    // One door for each worker.
    requires posts { (form : Form) → IsFormOf (codes "serve") (map string_bytes words.now) form → length posts.items ≡ form.workers }

    // A door tells of a link what the link tells.
    requires sides { (link : N) → D.sides link ≡ (N.incoming link, N.outgoing link) }
    ensures { HasEnded D.doorway L.loading (map string_bytes words.now) posts.items result }
{
    let Some(form) = serve_form("serve", words) else {
        return Ended::Usage;
    };
    match serve(rt, alloc, form.every, posts) {
        Ok((book, gathered)) => {
            let Gathered {
                posts,
                sessions,
                rounds,
            } = gathered;
            Ended::Done {
                book,
                sessions,
                rounds,
                posts,
            }
        }
        Err(NoMemory) => Ended::NoMemory,
    }
}

// Serves, and closes the book.
fn serve<
    N: Link + Drop + Send,
    D: Door<L = N> + Drop + Send,
    L: Loader + Drop + Send,
    R: Threads + Wait + Sync,
>(
    rt: &R,
    alloc: Global,
    every: u32,
    posts: Vec<Post<D, L>>,
) -> Result<(Book, Gathered<D, L>), NoMemory>
    requires sides { (link : N) → D.sides link ≡ (N.incoming link, N.outgoing link) }
    ensures sound { IfOk result (λ r. IsSound r.0.limits r.0.pages) }
    ensures worked { IfOk result (λ r. AllWorked D.doorway L.loading r.0 every posts.items r.1.posts.items r.1.sessions.items r.1.rounds.items) }
{
    let (hall, mut first) = open_hall(alloc)?;
    let jobs = seat_all(alloc, &hall, &mut first, posts)?;
    let shifts = work_all(rt, alloc, &hall, every, jobs)?;
    let (all, gathered) = gather(alloc, first, shifts)?;
    let book = close_hall(hall, all)?;
    Ok((book, gathered))
}

// Gives each post seats of its own, split from the first ones.
fn seat_all<D: Drop, L: Drop>(
    alloc: Global,
    hall: &Hall<Blank>,
    first: &mut Seats<Blank>,
    posts: Vec<Post<D, L>>,
) -> Result<Vec<Job<D, L>>, NoMemory>
    requires book { first.old.book.lock ≡ hall.now.book }
    requires library { first.old.library.lock ≡ hall.now.library }
    requires unseen { first.old.book.front ≡ [] }
    ensures book { first.new.book.lock ≡ hall.now.book }
    ensures library { first.new.library.lock ≡ hall.now.library }
    ensures ready { IfOk result (λ jobs. All (λ j. IsReady hall.now.book hall.now.library j) jobs.items) }
    ensures posts { IfOk result (λ jobs. map (λ j. j.post) jobs.items ≡ posts.items) }
{
    let mut jobs = Vec::new(alloc);
    for post in posts {
        let seats = split_seats(hall, first)?;
        jobs.push(Job { seats, post })?;
    }
    Ok(jobs)
}

// Each worker in a thread, where one can be made.
fn work_all<
    N: Link + Drop + Send,
    D: Door<L = N> + Drop + Send,
    L: Loader + Drop + Send,
    R: Threads + Wait + Sync,
>(
    rt: &R,
    alloc: Global,
    hall: &Hall<Blank>,
    every: u32,
    jobs: Vec<Job<D, L>>,
) -> Result<Vec<Shift<D, L>>, NoMemory>
    requires ready { All (λ j. IsReady hall.now.book hall.now.library j) jobs.items }
    requires sides { (link : N) → D.sides link ≡ (N.incoming link, N.outgoing link) }
    ensures { IfOk result (λ shifts. AllZip (λ j s. IsShift D.doorway L.loading every j s) jobs.items shifts.items) }
{
    Ok(map_vec(rt, jobs, &|job| work(rt, alloc, hall, every, job))?)
}

/// What the workers leave together, but for their seats.
#[derive(Drop)]
struct Gathered<D, L> {
    posts: Vec<Post<D, L>>,
    sessions: Vec<(Option<u32>, SessionEnd)>,
    rounds: Vec<RoundReport>,
}

impl<D: Drop, L: Drop> Gathered<D, L> {
    fn new(alloc: Global) -> Gathered<D, L>
        ensures posts { result.posts.items ≡ [] }
        ensures sessions { result.sessions.items ≡ [] }
        ensures rounds { result.rounds.items ≡ [] }
    {
        Gathered {
            posts: Vec::new(alloc),
            sessions: Vec::new(alloc),
            rounds: Vec::new(alloc),
        }
    }

    fn add(&mut self, post: Post<D, L>, log: Log) -> Result<(), NoMemory>
        ensures posts { OnOk result (self.new.posts.items ≡ self.old.posts.items ++ post ∷ []) }
        ensures sessions { OnOk result (self.new.sessions.items ≡ self.old.sessions.items ++ log.sessions.items) }
        ensures rounds { OnOk result (self.new.rounds.items ≡ self.old.rounds.items ++ log.rounds.items) }
    {
        let Log {
            mut sessions,
            mut rounds,
        } = log;
        self.sessions.append(&mut sessions)?;
        self.rounds.append(&mut rounds)?;
        self.posts.push(post)?;
        Ok(())
    }
}

// All seats, the first ones too, and what the workers have done, in their order. None where a log is missing.
fn gather<D: Drop, L: Drop>(
    alloc: Global,
    first: Seats<Blank>,
    shifts: Vec<Shift<D, L>>,
) -> Result<(AllSeats, Gathered<D, L>), NoMemory>
    ensures { IfOk result (λ r. AreGathered first.book first.library shifts.items r.0 r.1) }
{
    let mut all = AllSeats::new(alloc);
    let mut gathered = Gathered::new(alloc);
    all.add(first)?;
    for shift in shifts {
        let Shift { seats, post, log } = shift;
        let log = log.ok_or(NoMemory)?;
        all.add(seats)?;
        gathered.add(post, log)?;
    }
    Ok((all, gathered))
}
