//! A loader that has its answers in memory.
ghost use Rattle.std.specs.Prelude.{◌≡◌, ◌+◌, ◌≤◌, ◌++◌, ◌∷◌, [], ◌<◌, ℕ, List, Some, None, All, IfOk, IfSome, OnOk, OnErr, MatchOption, IsPermutation, length, drop};
ghost use Rattle.ld_flight.specs.Loads.{entry_of, longest_text, IsFirst};
ghost use Rattle.ld_flight.specs.Memory.{answers_for, taken_from, IsAnswerAt, IsFirstAt, IsShort};

use crate::given::Given;
use crate::loader::{Loaded, Loader, Refused, Why};
use crate::pass::Pass;
use ld_edge::FaultPlan;
use ld_tree::{Iri, Items, NoMemory, Raw, Url};
use std::alloc::Global;
use std::marker::Model;

/// A loader that gives the answers of a list: those of one IRI in turn, and the last of them again and again. It fails at
/// the calls that it is told, and at an IRI that it has no answer for. A load takes time linear in the number of answers.
#[derive(Debug, Drop)]
pub struct MemLoader {
    answers: Vec<(Iri, Url, Raw)>,
    given: Vec<Given>,
    plan: FaultPlan,
}

impl Model for MemLoader {
    ghost use Rattle.std.specs.Prelude.{All};
    ghost use Rattle.ld_flight.specs.Memory.{Holding, IsShort};

    ghost Value = { Holding };

    ghost view = { λ l. record { answers = l.answers.items; given = l.given.items; plan = l.plan } };

    ghost invariant = { λ l. All IsShort l.answers.items };
}

impl MemLoader {
    /// The answers, each with the IRI that it is for, and the numbers of the calls that fail, counted from 1.
    /// Takes no memory.
    pub fn new(alloc: Global, answers: Vec<(Iri, Url, Raw)>, fail_at: Vec<u64>) -> MemLoader
        requires { All IsShort answers.items }
        ensures answers { result.answers ≡ answers.items }
        ensures given { result.given ≡ [] }
        ensures calls { result.plan.calls ≡ 0 }
        ensures fail_at { IsPermutation fail_at.items result.plan.fail_at }
        ensures faults { result.plan.faults.number ≡ 0 }
    {
        MemLoader {
            answers,
            given: Vec::new(alloc),
            plan: FaultPlan::new(fail_at),
        }
    }

    // The next answer for the pass, where there is one.
    fn answer(&mut self, alloc: Global, pass: &Pass) -> Result<Option<(Url, Raw)>, NoMemory>
        ensures none { IfOk result (λ r. r ≡ None → self.new ≡ self.old) }
        ensures next { IfOk result (λ r. IfSome r (λ answer. IsFirst (answers_for pass.now.iri self.old.answers) (answer.0, answer.1))) }
        ensures left { IfOk result (λ r. IfSome r (λ answer. (iri : List ℕ) → answers_for iri self.new.answers ≡ taken_from iri pass.now.iri (answers_for iri self.old.answers))) }
        ensures given { IfOk result (λ r. IfSome r (λ answer. self.new.given ≡ self.old.given ++ entry_of pass.now answer.0 answer.1 ∷ [])) }
        ensures length { IfOk result (λ r. IfSome r (λ answer. length answer.1 ≤ longest_text)) }
        ensures plan { self.new.plan ≡ self.old.plan }
        ensures unchanged { OnErr result (self.new ≡ self.old) }
    {
        match first_for(self.answers.as_slice(), pass.iri().as_str()) {
            None => Ok(None),
            Some(at) => {
                let answer = take_answer(alloc, &mut self.answers, &mut self.given, pass, at)?;
                Ok(Some(answer))
            }
        }
    }
}

impl Loader for MemLoader {
    ghost loading = { λ l. record { given = l.given; held = λ iri. Some (answers_for iri l.answers); faults = l.plan.faults.number } };

    ghost at_most_last = { λ l. l.plan.faults.in_range };

    fn load(&mut self, alloc: Global, pass: Pass) -> Result<Loaded, Refused> {
        let before = self.plan.faults();
        if self.plan.next_fails() {
            let after = self.plan.faults();
            return Err(Refused::fault(pass, before, after));
        }
        match self.answer(alloc, &pass) {
            Ok(Some((url, text))) => Ok(Loaded { pass, url, text }),
            Ok(None) => {
                self.plan.count_fault();
                let after = self.plan.faults();
                Err(Refused::fault(pass, before, after))
            }
            Err(_) => Err(Refused::no_memory(pass, before)),
        }
    }

    fn faults(&self) -> u64 {
        self.plan.faults()
    }
}

// The place of the first answer for the IRI.
fn first_for(answers: &[(Iri, Url, Raw)], iri: &str) -> Option<usize>
    ensures { MatchOption result (answers_for iri.now answers.now ≡ []) (IsFirstAt iri.now answers.now) }
{
    for (at, answer) in answers.iter().enumerate() {
        if answer.0.as_str() == iri {
            return Some(at);
        }
    }
    None
}

// The first answer for the pass, which goes unless it is the only one. Its entry is made and kept before.
fn take_answer(
    alloc: Global,
    answers: &mut Vec<(Iri, Url, Raw)>,
    given: &mut Vec<Given>,
    pass: &Pass,
    at: usize,
) -> Result<(Url, Raw), NoMemory>
    requires first { IsFirstAt pass.now.iri answers.old.items at }
    requires short { All IsShort answers.old.items }
    ensures next { IfOk result (λ answer. IsFirst (answers_for pass.now.iri answers.old.items) (answer.0, answer.1)) }
    ensures left { OnOk result ((iri : List ℕ) → answers_for iri answers.new.items ≡ taken_from iri pass.now.iri (answers_for iri answers.old.items)) }
    ensures given { IfOk result (λ answer. given.new.items ≡ given.old.items ++ entry_of pass.now answer.0 answer.1 ∷ []) }
    ensures length { IfOk result (λ answer. length answer.1 ≤ longest_text) }
    ensures short { All IsShort answers.new.items }
    ensures keeps_answers { OnErr result (answers.new.items ≡ answers.old.items) }
    ensures keeps_given { OnErr result (given.new.items ≡ given.old.items) }
{
    let only = copied_if_last(alloc, answers.as_slice(), pass, at)?;
    let entry = entry_at(alloc, answers.as_slice(), pass, at)?;
    given.push(entry)?;
    match only {
        Some(answer) => Ok(answer),
        None => {
            let (_, url, text) = answers.remove(at);
            Ok((url, text))
        }
    }
}

// A copy of the answer at this place, where no later one is for its IRI.
fn copied_if_last(
    alloc: Global,
    answers: &[(Iri, Url, Raw)],
    pass: &Pass,
    at: usize,
) -> Result<Option<(Url, Raw)>, NoMemory>
    requires { at < length answers.now }
    ensures last { IfOk result (λ r. IfSome r (λ answer. (answers_for pass.now.iri (drop (at + 1) answers.now) ≡ []) × IsAnswerAt answer.0 answer.1 answers.now at)) }
    ensures not_last { IfOk result (λ r. r ≡ None → answers_for pass.now.iri (drop (at + 1) answers.now) ≡ [] → ⊥) }
{
    match first_for(after(answers, at), pass.iri().as_str()) {
        Some(_) => Ok(None),
        None => Ok(Some(copied(alloc, answers, at)?)),
    }
}

fn after(answers: &[(Iri, Url, Raw)], at: usize) -> &[(Iri, Url, Raw)]
    requires { at < length answers.now }
    ensures { result.now ≡ drop (at + 1) answers.now }
{
    &answers[at + 1..]
}

fn copied(alloc: Global, answers: &[(Iri, Url, Raw)], at: usize) -> Result<(Url, Raw), NoMemory>
    requires { at < length answers.now }
    ensures { IfOk result (λ answer. IsAnswerAt answer.0 answer.1 answers.now at) }
{
    let (_, url, text) = &answers[at];
    let text = Items::from_vec(Vec::from_slice(alloc, text.as_slice())?);
    Ok((url.try_copy(alloc)?, text))
}

fn entry_at(
    alloc: Global,
    answers: &[(Iri, Url, Raw)],
    pass: &Pass,
    at: usize,
) -> Result<Given, NoMemory>
    requires inside { at < length answers.now }
    requires short { All IsShort answers.now }
    ensures { IfOk result (λ entry. (url text : List ℕ) → IsAnswerAt url text answers.now at → entry ≡ entry_of pass.now url text) }
{
    let (_, url, text) = &answers[at];
    Given::of(alloc, pass, url, text)
}
