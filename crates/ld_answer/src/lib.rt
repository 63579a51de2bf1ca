//! Envelopes, and what is answered for them: a document with what is asked for it, as the program and a server read it.
//!
//! - [`read_envelope`] reads one from bytes, or says why they are none ([`EnvelopeRefusal`]).
//! - [`read_target`] reads the IRI of the context that is to be revised or evicted, and refuses bytes in the same way.
//! - [`Envelope::answer`] gives what the algorithms of JSON-LD 1.1 Processing Algorithms and API give for it over the
//!   documents that an object of ld_inverse's `Inverses` stands for: an [`Answer`].
//! - [`code_body`], [`own_body`] and [`refusal_body`] are the bodies of refusals, as trees.
//!
//! To be believed: `specs/Envelopes.antt` (what an envelope is, and why bytes are none), `specs/Targets.antt` (the same of
//! what is to be revised or evicted), `specs/Answers.antt` (what an envelope is answered) and `specs/Bodies.antt` (the
//! bodies). `specs/Readings.antt` is the code's own.
#![tactic(auto)]

mod answer;
mod answering;
mod body;
mod envelope;
mod op;
mod reading;
mod refusal;
mod target;

pub use answer::Answer;
pub use body::{
    code_body, load_fault_body, own_about_body, own_body, own_text_body, refusal_body,
    too_many_body,
};
pub use envelope::Envelope;
pub use op::Op;
pub use reading::read_envelope;
pub use refusal::EnvelopeRefusal;
pub use target::read_target;
