//! What is told of a flight.
ghost use Rattle.std.specs.Prelude.{◌≡◌};
ghost use Rattle.std.specs.Option.{option_map, option_copied};
ghost use Rattle.ld_history.specs.Legal.{state};
ghost use Rattle.ld_history.specs.Words.{flight_at};
ghost use Rattle.ld_history.specs.Rules as rules;

use crate::name::Name;
use crate::session::End;
use crate::state::State;

impl State {
    /// The IRI of the flight of this number, or None where there is no such flight.
    pub fn flight_iri(&self, flight: u32) -> Option<&Name>
        ensures { option_copied result ≡ option_map (λ f. f.iri) (flight_at (state self.now.entries).flights flight) }
    {
        match self.tables.flight(flight) {
            Some(found) => Some(&found.iri),
            None => None,
        }
    }

    /// How the flight of this number has ended, or that it is under way; None where there is no such
    /// flight.
    pub fn end_of(&self, flight: u32) -> Option<End>
        ensures { result ≡ rules.end_of (state self.now.entries) flight }
    {
        self.tables.end_of(flight)
    }
}
