// One function from an input to effects.
ghost use Rattle.std.specs.Prelude.{◌≡◌, OnOk};
ghost use Rattle.boxes.specs.Log.{log_of};
ghost use Rattle.boxes.specs.Model.{fresh, state_of};
ghost use Rattle.boxes.specs.Handle.{change_for, changed_at, delivered_of, handle_of, received_of, wait_at_box, wait_from_home, wait_from_keeper, wait_here, wait_sent};

use crate::emit::{emit, send};
use crate::signal_box::{Input, SignalBox};
use engine_state::Event;
use home::{Home, is_home};
use journal::{Effects, Fault, Output};
use keeper::Keeper;
use messages::{BoxNumber, Change, Engine, Message, Refusal, Waits, Yard, decode};

impl SignalBox {
    // A box of which there is no record yet.
    pub fn new(yard: Yard, number: BoxNumber) -> SignalBox
        ensures { state_of result ≡ fresh yard number }
    {
        SignalBox {
            keeper: Keeper::new(),
            home: Home::new(yard, number),
        }
    }

    fn change_for(
        &mut self,
        change: Change,
        engine: Engine,
        effects: &mut Effects,
    ) -> Result<(), Fault>
        ensures { OnOk result ((state_of self.new, log_of effects.new) ≡ change_for change.section change.holder change.change engine (state_of self.old, log_of effects.old)) }
    {
        if !self.home.is_ours(engine) {
            return Ok(());
        }
        // Most of ours pass it over, and `emit` needn't be asked.
        match self.home.change_at(engine, change) {
            Event::PassedOver => Ok(()),
            event => emit(&self.home, event, effects),
        }
    }

    // A change of a section, heard by each of ours by number.
    fn change(
        &mut self,
        from: BoxNumber,
        change: Change,
        effects: &mut Effects,
    ) -> Result<(), Fault>
        ensures { OnOk result ((state_of self.new, log_of effects.new) ≡ changed_at (state_of self.old) from change.section change.holder change.change (log_of effects.old)) }
    {
        if from != change.section.keeper {
            return effects.say(Output::Refused(Refusal::Malformed));
        }
        for engine in (0..self.home.yard().engines).map(Engine) {
            self.change_for(change, engine, effects)?;
        }
        Ok(())
    }

    // Sends on that an engine waits, to the home of the one that has the section; here it is dealt with at once.
    fn send_wait(
        &mut self,
        waits: Waits,
        holder: Option<Engine>,
        effects: &mut Effects,
    ) -> Result<(), Fault>
        ensures { OnOk result ((state_of self.new, log_of effects.new) ≡ wait_sent (state_of self.old) waits.engine waits.section waits.count waits.change holder (log_of effects.old)) }
    {
        let Some(holder) = holder else {
            return Ok(());
        };
        let to = self.home.yard().home(holder);
        if to != self.home.number() {
            return send(to, Message::Waits(waits), effects);
        }
        // These two lines, six times: a function that took the step as a closure would be longer than what it saves, and owe a clause on what the step gives.
        let event = self.home.waits(waits.engine, waits.section, waits.count);
        emit(&self.home, event, effects)
    }

    fn wait_here(&mut self, waits: Waits, effects: &mut Effects) -> Result<(), Fault>
        ensures { OnOk result ((state_of self.new, log_of effects.new) ≡ wait_here (state_of self.old) waits.engine waits.section waits.count waits.change (log_of effects.old)) }
    {
        let place = waits.section.place;
        if waits.change != self.keeper.change(place) {
            return Ok(());
        }
        let holder = self.keeper.holder(place);
        self.send_wait(waits, holder, effects)
    }

    // The engine's home says that it waits for a section here.
    fn wait_from_home(
        &mut self,
        from: BoxNumber,
        waits: Waits,
        effects: &mut Effects,
    ) -> Result<(), Fault>
        ensures { OnOk result ((state_of self.new, log_of effects.new) ≡ wait_from_home (state_of self.old) from waits.engine waits.section waits.count waits.change (log_of effects.old)) }
    {
        if !is_home(self.home.yard(), from, waits.engine) {
            return effects.say(Output::Refused(Refusal::Malformed));
        }
        self.wait_here(waits, effects)
    }

    // The section's box says that an engine waits for it.
    fn wait_from_keeper(
        &mut self,
        from: BoxNumber,
        waits: Waits,
        effects: &mut Effects,
    ) -> Result<(), Fault>
        ensures { OnOk result ((state_of self.new, log_of effects.new) ≡ wait_from_keeper (state_of self.old) from waits.engine waits.section waits.count (log_of effects.old)) }
    {
        if from != waits.section.keeper {
            return effects.say(Output::Refused(Refusal::Malformed));
        }
        let event = self.home.waits(waits.engine, waits.section, waits.count);
        emit(&self.home, event, effects)
    }

    // An engine waits: its home says so to the section's box, and that to the home of the one that has it.
    fn wait(&mut self, from: BoxNumber, waits: Waits, effects: &mut Effects) -> Result<(), Fault>
        ensures { OnOk result ((state_of self.new, log_of effects.new) ≡ wait_at_box (state_of self.old) from waits.engine waits.section waits.count waits.change (log_of effects.old)) }
    {
        if waits.section.keeper == self.home.number() {
            self.wait_from_home(from, waits, effects)
        } else {
            self.wait_from_keeper(from, waits, effects)
        }
    }

    // One message, from the box `from`.
    fn receive(
        &mut self,
        from: BoxNumber,
        message: Message,
        effects: &mut Effects,
    ) -> Result<(), Fault>
        ensures { OnOk result ((state_of self.new, log_of effects.new) ≡ received_of (state_of self.old) from message (log_of effects.old)) }
    {
        match message {
            Message::Call(call) => self.call(from, call, effects),
            Message::Answer {
                engine,
                call,
                answer,
            } => {
                let event = self.home.answer(from, engine, call, answer);
                emit(&self.home, event, effects)
            }
            Message::Change(change) => self.change(from, change, effects),
            Message::WhichChange { engine, section } => self.which_change(
                from, engine, section, effects,
            ),
            Message::Sign(sign) => {
                let event = self.home.sign(from, sign);
                emit(&self.home, event, effects)
            }
            Message::Waits(waits) => self.wait(from, waits, effects),
        }
    }

    // What an input makes of the box; the effects are to be committed before anything else is done.
    pub fn handle(&mut self, input: Input, effects: &mut Effects) -> Result<(), Fault>
        ensures { OnOk result ((state_of self.new, log_of effects.new) ≡ handle_of (state_of self.old) input (log_of effects.old)) }
    {
        match input {
            Input::Take { engine, section } => {
                let event = self.home.take(engine, section);
                emit(&self.home, event, effects)
            }
            Input::Free { engine, section } => {
                let event = self.home.free(engine, section);
                emit(&self.home, event, effects)
            }
            Input::Received { from, message } => self.receive(from, message, effects),
            Input::Second => self.second(effects),
        }
    }

    // The bytes of a message, from the box `from`; what is no message is refused by 1.
    pub fn deliver(
        &mut self,
        from: BoxNumber,
        bytes: &[u8],
        effects: &mut Effects,
    ) -> Result<(), Fault>
        ensures { OnOk result ((state_of self.new, log_of effects.new) ≡ delivered_of (state_of self.old) from bytes.now (log_of effects.old)) }
    {
        match decode(self.home.yard(), bytes) {
            Ok(message) => self.receive(from, message, effects),
            Err(refusal) => effects.say(Output::Refused(refusal)),
        }
    }
}
