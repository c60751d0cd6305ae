// Which box of which yard a home is.
ghost use Rattle.std.specs.Prelude.{◌≡◌};
ghost use Rattle.home.specs.Queries.{is_next};

use crate::home::Home;
use messages::{BoxNumber, Call, Yard};

impl Home {
    pub fn yard(&self) -> Yard
        ensures { result ≡ self.now.yard }
    {
        self.yard
    }

    pub fn number(&self) -> BoxNumber
        ensures { result ≡ self.now.number }
    {
        self.number
    }

    // Has the call the number after the last one that its engine used with that box.
    pub fn is_next(&self, call: Call) -> bool
        ensures { result ≡ is_next self.now call }
    {
        self.state(call.engine).is_ok_and(|state| {
            state.stored.next_number(call.section.keeper) == Some(call.number)
        })
    }
}
