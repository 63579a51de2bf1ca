//! Which stored IRI goes out next.
ghost use Rattle.std.specs.Prelude.{◌≡◌, option_copied};
ghost use Rattle.ld_history.specs.Seen.{seen};
ghost use Rattle.ld_history.specs.Steps as steps;

use crate::name::Name;
use crate::tables::Tables;

impl Tables {
    /// The stored IRI that goes out next, where one may go.
    pub fn next_out(&self) -> Option<&Name>
        ensures { option_copied result ≡ steps.next_out (seen self.now) }
    {
        match self.order.first() {
            Some(version) => self.order.published.get(&version),
            None => None,
        }
    }
}
