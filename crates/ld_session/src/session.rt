//! The session of a connection.
ghost use Rattle.std.specs.Prelude.{◌≡◌};

use crate::desk::Desk;
use ld_book::{Blank, Hall};
use ld_flight::Loader;
use ld_talk::{Replied, Request, Requests};
use ld_visit::Visit;
use std::alloc::Global;
use std::marker::{Model, PhantomData};
use std::sync::Wait;

/// A session that answers the requests of a connection, each over a version of the book that it shares with others. No
/// request is under way between two of them. Contracts see its visit.
#[derive(Drop)]
pub(crate) struct Session<'a, R: Wait, L: Loader> {
    pub rt: &'a R,
    pub hall: &'a Hall<Blank>,
    pub visit: Visit,
    pub loader: PhantomData<L>,
}

impl<'a, R: Wait, L: Loader> Model for Session<'a, R, L> {
    ghost use Rattle.std.specs.Coded.{codes};
    ghost use Rattle.std.specs.Prelude.{◌≡◌};
    ghost use Rattle.ld_rec.specs.contracts.doc.Doc as docs;
    ghost use Rattle.ld_history.specs.declared.session.Last.TheVariants as lasts;
    ghost use Rattle.ld_moves.specs.Standing.{Stands};
    ghost use Rattle.ld_visit.specs.Visits.{Visiting};

    ghost Value = { Visiting };

    ghost coded = { Prim.hlevel (codes, docs.the_row.coded) };

    ghost view = { λ s. s.visit };

    ghost invariant = { λ s. (s.visit.lock ≡ s.hall.now.book) × Stands s.visit.pages s.visit.session lasts.Idle };
}

impl<'a, R: Wait, L: Loader> Requests for Session<'a, R, L> {
    ghost use Rattle.ld_session.specs.Serving.{IsFull, Moving};
    ghost use Rattle.ld_session.specs.Adding.{moving_more, moving_none};

    type Outside = L;

    ghost moves = { λ a x b y. Moving a b (L.loading x) (L.loading y) };

    ghost full = { λ s. IsFull s.limits s.pages };

    ghost moves_none = { λ s x stage. moving_none s (L.loading x) stage };

    ghost moves_more = { λ a b c x y z p q r. moving_more a b c (L.loading x) (L.loading y) (L.loading z) p q r };

    fn request(
        self,
        alloc: Global,
        outside: &mut L,
        request: Request,
    ) -> (Session<'a, R, L>, Replied) {
        let Session {
            rt,
            hall,
            visit,
            loader,
        } = self;
        let desk = Desk { rt, alloc, hall };
        let (visit, replied) = desk.reply(visit, outside, &request);
        let session = Session {
            rt,
            hall,
            visit,
            loader,
        };
        (session, replied)
    }
}
