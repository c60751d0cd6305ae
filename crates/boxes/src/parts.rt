// A box's two halves, to be read.
ghost use Rattle.std.specs.Prelude.{◌≡◌};

use crate::signal_box::SignalBox;
use home::Home;
use keeper::Keeper;

impl SignalBox {
    pub fn keeper(&self) -> &Keeper
        ensures { result.now ≡ self.now.keeper }
    {
        &self.keeper
    }

    pub fn home(&self) -> &Home
        ensures { result.now ≡ self.now.home }
    {
        &self.home
    }
}
