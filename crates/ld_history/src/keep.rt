//! An entry as the history keeps it: each text once.
ghost use Rattle.std.specs.Prelude.{◌≡◌, IfOk};
ghost use Rattle.ld_history.specs.Seen.{seen};

use crate::event::{Entry, Event, Given, How};
use crate::name::{Answer, Name};
use crate::tables::Tables;
use ld_tree::{Iri, NoMemory};
use std::alloc::Global;

impl Tables {
    /// The same entry, whose texts are shared with those that are kept.
    pub fn keep(&self, alloc: Global, entry: Entry) -> Result<Entry<Name, Answer>, NoMemory>
        ensures { IfOk result (λ kept. kept ≡ entry) }
    {
        let Entry { event, given } = entry;
        let event = self.keep_event(alloc, event)?;
        let given = match given {
            Some(given) => {
                let given = self.keep_given(alloc, given)?;
                Some(self.keep_same(&event, given)?)
            }
            None => None,
        };
        Ok(Entry { event, given })
    }

    /// The same answer, whose url shares a text that is kept.
    pub fn keep_given(&self, alloc: Global, given: Given) -> Result<Answer, NoMemory>
        ensures { IfOk result (λ kept. kept ≡ given) }
    {
        let Given { url, length, mark } = given;
        let url = self.name(alloc, url)?;
        Answer::new(alloc, url, length, mark)
    }

    /// The same answer, which a Same shares with what is stored for its flight's IRI.
    pub fn keep_same(&self, event: &Event<Name>, answer: Answer) -> Result<Answer, NoMemory>
        ensures { IfOk result (λ kept. kept ≡ answer) }
    {
        let Event::Same { flight } = event else {
            return Ok(answer);
        };
        match self.stored_answer(*flight) {
            Some(stored) if stored.is_same(&answer) => stored.share(),
            _ => Ok(answer),
        }
    }

    fn stored_answer(&self, flight: u32) -> Option<&Answer> {
        let f = self.flight(flight)?;
        let stored = self.stored.get(&f.iri)?;
        Some(&stored.answer)
    }

    fn keep_event(&self, alloc: Global, event: Event) -> Result<Event<Name>, NoMemory>
        ensures { IfOk result (λ kept. kept ≡ event) }
    {
        Ok(match event {
            Event::Opened { session, seat } => Event::Opened { session, seat },
            Event::Pinned {
                session,
                request,
                attempt,
                version,
            } => Event::Pinned {
                session,
                request,
                attempt,
                version,
            },
            Event::Found { session, iri } => Event::Found {
                session,
                iri: self.name(alloc, iri)?,
            },
            Event::Led {
                session,
                iri,
                flight,
            } => Event::Led {
                session,
                iri: self.name(alloc, iri)?,
                flight,
            },
            Event::Joined {
                session,
                iri,
                flight,
            } => Event::Joined {
                session,
                iri: self.name(alloc, iri)?,
                flight,
            },
            Event::Published { flight, version } => Event::Published { flight, version },
            Event::Failed {
                flight,
                before,
                after,
            } => Event::Failed {
                flight,
                before,
                after,
            },
            Event::Lapsed { flight } => Event::Lapsed { flight },
            Event::Evicted {
                session,
                iri,
                version,
            } => Event::Evicted {
                session,
                iri: self.name(alloc, iri)?,
                version,
            },
            Event::ReviseLed {
                session,
                iri,
                flight,
            } => Event::ReviseLed {
                session,
                iri: self.name(alloc, iri)?,
                flight,
            },
            Event::Same { flight } => Event::Same { flight },
            Event::Answered {
                session,
                request,
                how,
            } => Event::Answered {
                session,
                request,
                how: self.keep_how(alloc, how)?,
            },
            Event::Closed { session } => Event::Closed { session },
        })
    }

    pub fn keep_how(&self, alloc: Global, how: How) -> Result<How<Name>, NoMemory>
        ensures { IfOk result (λ kept. kept ≡ how) }
    {
        Ok(match how {
            How::Done => How::Done,
            How::NoMemory => How::NoMemory,
            How::LoadFault { flight } => How::LoadFault { flight },
            How::TooMany { iri } => How::TooMany {
                iri: self.name(alloc, iri)?,
            },
            How::StoreFull => How::StoreFull,
            How::ArchiveFull { bytes } => How::ArchiveFull { bytes },
            How::NotStored { version } => How::NotStored { version },
            How::Held { session } => How::Held { session },
            How::Revising { flight } => How::Revising { flight },
            How::Flying { flight } => How::Flying { flight },
            How::Evicted { version } => How::Evicted { version },
            How::Revised { version } => How::Revised { version },
            How::Same => How::Same,
        })
    }

    /// The IRI, which shares its text with an equal one that is kept.
    pub fn name(&self, alloc: Global, iri: Iri) -> Result<Name, NoMemory>
        ensures { IfOk result (λ name. name ≡ iri) }
    {
        let name = Name::new(alloc, iri)?;
        match self.texts.get_key_value(&name) {
            Some((kept, _)) => kept.share(),
            None => Ok(name),
        }
    }

    /// Has the entry's texts among those that later entries share.
    pub fn share_texts(&mut self, entry: &Entry<Name, Answer>) -> Result<(), NoMemory>
        ensures { seen self.new ≡ seen self.old }
    {
        if let Some(iri) = iri_of(&entry.event) {
            self.share_text(iri)?;
        }
        match &entry.given {
            Some(given) => self.share_text(given.url()),
            None => Ok(()),
        }
    }

    pub fn share_text(&mut self, name: &Name) -> Result<(), NoMemory>
        ensures { seen self.new ≡ seen self.old }
    {
        if self.texts.contains_key(name) {
            return Ok(());
        }
        let key = name.share()?;
        self.texts.insert(key, ())?;
        Ok(())
    }
}

fn iri_of(event: &Event<Name>) -> Option<&Name> {
    match event {
        Event::Found { iri, .. }
        | Event::Led { iri, .. }
        | Event::Joined { iri, .. }
        | Event::Evicted { iri, .. }
        | Event::ReviseLed { iri, .. }
        | Event::Answered {
            how: How::TooMany { iri },
            ..
        } => Some(iri),
        _ => None,
    }
}
