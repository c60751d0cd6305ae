// Which homes are told of a change of a section.
ghost use Rattle.std.specs.Prelude.{◌≡◌};
ghost use Rattle.keeper.specs.Model.{model_of};
ghost use Rattle.keeper.specs.Homes.{Concerns, home_of_any, home_of_holder, told_of};
ghost use Rattle.sections.specs.Table.{holder_at, queue_at};

use crate::Keeper;
use messages::{BoxNumber, Engine, Yard};

impl Keeper {
    // Holder and queue are asked apart, each with its own clause: the place, the yard and the box come along twice.
    fn is_home_of_holder(&self, place: u8, yard: Yard, number: BoxNumber) -> bool
        ensures { result ≡ home_of_holder yard number.0 (holder_at (model_of self.now).table place) }
    {
        self.holder(place)
            .is_some_and(|engine| yard.home(engine) == number)
    }

    fn is_home_of_waiter(&self, place: u8, yard: Yard, number: BoxNumber) -> bool
        ensures { result ≡ home_of_any yard number.0 (queue_at (model_of self.now).table place) }
    {
        self.waiters(place)
            .iter()
            .any(|engine| yard.home(Engine(*engine)) == number)
    }

    // Is a box the home of the engine that has the section at a place, or of one that waits for it.
    pub fn has_home(&self, place: u8, yard: Yard, number: BoxNumber) -> bool
        ensures answer { result ≡ told_of yard number.0 (model_of self.now).table place }
        ensures concerns { Concerns yard number.0 (model_of self.now).table place result }
    {
        self.is_home_of_holder(place, yard, number) || self.is_home_of_waiter(place, yard, number)
    }
}
