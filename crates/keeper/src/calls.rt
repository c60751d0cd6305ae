// Calls to a box's sections, and the same from its file.
ghost use Rattle.std.specs.Prelude.{◌≡◌, ◌+◌, ◌<◌, ◌&&◌, ◌==◌, nat_lt};
ghost use Rattle.keeper.specs.Model.{fresh, last_of, model_of};
ghost use Rattle.keeper.specs.Calls.{apply_of, call_of, numbered_of, turn_of};
ghost use Rattle.keeper.specs.Promise.{AnsweredAgain, Followed, OneSection, Risen};
ghost use Rattle.keeper.specs.Range.{StaysWithin};

use crate::{Keeper, NEVER, Verdict};
use messages::{Call, Engine};
use sections::{ENGINES, PLACES, Sections};

// How a call's number stands to that of its engine's last call: three cases, each with what is done, so no Option.
enum Turn {
    Last,
    Next,
    Other,
}

fn turn_of(last: u32, number: u32) -> Turn
    ensures { result ≡ turn_of last number }
{
    if number == 0 {
        Turn::Other
    } else if number == last {
        Turn::Last
    } else if last.checked_add(1) == Some(number) {
        Turn::Next
    } else {
        Turn::Other
    }
}

impl Keeper {
    // Nobody has anything, and nobody has called.
    pub fn new() -> Keeper
        ensures { model_of result ≡ fresh }
    {
        Keeper {
            sections: Sections::new(),
            calls: [NEVER; 64],
        }
    }

    // A call of an engine, whose home it is known to come from, for a section of this box.
    pub fn call(&mut self, call: Call) -> Verdict
        ensures after { (model_of self.new, result) ≡ call_of (model_of self.old) call }
        ensures followed { Followed (model_of self.old) call (model_of self.new) result }
        ensures again { AnsweredAgain call (model_of self.new) result }
        ensures elsewhere { OneSection (model_of self.old) call (model_of self.new) }
        ensures risen { Risen (model_of self.old) call (model_of self.new) }
        ensures within { StaysWithin (model_of self.old) call (model_of self.new) result }
    {
        let engine = call.engine.0;
        if engine >= ENGINES || call.section.place >= PLACES {
            return Verdict::Malformed;
        }
        self.numbered(call)
    }

    // A call of one of the table's engines, by its number.
    fn numbered(&mut self, call: Call) -> Verdict
        requires { call.engine.0 < 64 }
        ensures { (model_of self.new, result) ≡ numbered_of (turn_of (last_of (model_of self.old) call.engine.0).number call.number) (model_of self.old) call }
    {
        let last = self.last_call(call.engine);
        match turn_of(last.number, call.number) {
            Turn::Last => Verdict::Again(last.answer),
            Turn::Next => self.tried(call),
            Turn::Other => Verdict::PassedOver,
        }
    }

    // The same from a record of the file.
    pub fn apply(&mut self, call: Call)
        ensures { model_of self.new ≡ apply_of (model_of self.old) call }
    {
        let _ = self.call(call);
    }

    // Is that the number of the engine's next call.
    pub fn is_next(&self, engine: Engine, number: u32) -> bool
        ensures { result ≡ (nat_lt engine.0 64 && number == (last_of (model_of self.now) engine.0).number + 1) }
    {
        engine.0 < ENGINES && self.last_call(engine).number.checked_add(1) == Some(number)
    }
}
