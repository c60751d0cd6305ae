// What can be asked of a keeper.
ghost use Rattle.std.specs.Prelude.{◌≡◌, length};
ghost use Rattle.keeper.specs.Model.{last_of, model_of};
ghost use Rattle.keeper.specs.Words.{holder_of, waiter_of};
ghost use Rattle.sections.specs.Table.{change_number_at, holder_at, queue_at};

use crate::{Keeper, LastCall, NEVER};
use messages::Engine;

impl Keeper {
    // Who has the section at a place; where there is no such place, nobody.
    pub fn holder(&self, place: u8) -> Option<Engine>
        ensures { result ≡ holder_of (holder_at (model_of self.now).table place) }
    {
        self.sections.holder(place).map(Engine)
    }

    // The change number of the section at a place.
    pub fn change(&self, place: u8) -> u32
        ensures { result ≡ change_number_at (model_of self.now).table place }
    {
        self.sections.change(place)
    }

    // The numbers of those that wait for the section at a place, in the order of coming.
    pub fn waiters(&self, place: u8) -> &[u8]
        ensures { result.now ≡ queue_at (model_of self.now).table place }
    {
        self.sections.queue(place)
    }

    // How many wait for the section at a place.
    pub fn queue_length(&self, place: u8) -> usize
        ensures { result ≡ length (queue_at (model_of self.now).table place) }
    {
        self.waiters(place).len()
    }

    // Who waits for the section at a place, by index in the order of coming.
    pub fn waiter(&self, place: u8, index: usize) -> Option<Engine>
        ensures { result ≡ waiter_of (queue_at (model_of self.now).table place) index }
    {
        self.waiters(place).get(index).copied().map(Engine)
    }

    // The last call of an engine here.
    pub fn last_call(&self, engine: Engine) -> LastCall
        ensures { result ≡ last_of (model_of self.now) engine.0 }
    {
        self.calls.get(engine.0 as usize).copied().unwrap_or(NEVER)
    }
}
