//! A session without a history.
use ld_head::Outcome;
use ld_talk::{Replied, Request, Requests};
use std::alloc::Global;

/// Answers an evaluation with its document, at version 7; has no room for a revision, and no memory for an eviction.
#[derive(Drop)]
pub(crate) struct Echo {
    pub number: u32,
}

impl Requests for Echo {
    type Outside = ();

    ghost moves = { λ a x b y from to. Unit {0} };

    ghost full = { λ s events. Unit {0} };

    ghost moves_none = { λ s x stage. tt };

    ghost moves_more = { λ a b c x y z p q r h k. tt };

    fn request(self, _alloc: Global, _outside: &mut (), request: Request) -> (Echo, Replied) {
        let Echo { number } = self;
        match request {
            Request::Evaluation { op: _, envelope } => {
                let number = number.wrapping_add(1);
                let outcome = Outcome::Result(envelope.document);
                (
                    Echo { number },
                    Replied::Answered {
                        number,
                        version: 7,
                        outcome,
                    },
                )
            }
            Request::Revision(_) => (Echo { number }, Replied::HistoryFull { events: 9 }),
            Request::Eviction(_) => (Echo { number }, Replied::Unmade),
        }
    }
}
