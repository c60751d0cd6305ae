// What a box makes of messages for its sections.
ghost use Rattle.std.specs.Prelude.{◌≡◌, OnOk};
ghost use Rattle.boxes.specs.Log.{log_of};
ghost use Rattle.boxes.specs.Model.{state_of};
ghost use Rattle.boxes.specs.Keeping.{answered, called_at, changes_of, change_to, for_us, ruled_log, which_at};

use crate::emit::send;
use crate::signal_box::SignalBox;
use home::is_home;
use journal::{Effects, Fault, Output};
use keeper::{Answer, Verdict};
use messages::{BoxNumber, Call, Change, Engine, Message, Record, Refusal, Section};

impl SignalBox {
    // Is the section here, and the sender the engine's home.
    fn is_for_us(&self, from: BoxNumber, engine: Engine, section: Section) -> bool
        ensures { result ≡ for_us (state_of self.now) from engine section }
    {
        section.keeper == self.home.number() && is_home(self.home.yard(), from, engine)
    }

    fn send_change(&self, change: Change, to: BoxNumber, effects: &mut Effects) -> Result<(), Fault>
        ensures { OnOk result (log_of effects.new ≡ change_to (state_of self.now) change.section change.holder change.change to.0 (log_of effects.old)) }
    {
        if self
            .keeper
            .has_home(change.section.place, self.home.yard(), to)
        {
            send(to, Message::Change(change), effects)?;
        }
        Ok(())
    }

    // Who has the section now, to the homes of that one and of all in the queue.
    fn send_changes(&self, change: Change, effects: &mut Effects) -> Result<(), Fault>
        ensures { OnOk result (log_of effects.new ≡ changes_of (state_of self.now) change.section change.holder change.change (log_of effects.old)) }
    {
        for to in (0..self.home.yard().boxes).map(BoxNumber) {
            self.send_change(change, to, effects)?;
        }
        Ok(())
    }

    fn send_answer(&self, call: Call, answer: Answer, effects: &mut Effects) -> Result<(), Fault>
        ensures { OnOk result (log_of effects.new ≡ answered (state_of self.now) call answer (log_of effects.old)) }
    {
        let message = Message::Answer {
            engine: call.engine,
            call: call.number,
            answer,
        };
        send(self.home.yard().home(call.engine), message, effects)
    }

    // What a verdict on a call gives; what used up its number is recorded.
    // By verdict and not by question (recorded, refused, answered): each arm is read as a whole, in its order.
    fn say_verdict(&self, call: Call, verdict: Verdict, effects: &mut Effects) -> Result<(), Fault>
        ensures { OnOk result (log_of effects.new ≡ ruled_log (state_of self.now) call verdict (log_of effects.old)) }
    {
        match verdict {
            Verdict::Malformed => effects.say(Output::Refused(Refusal::Malformed)),
            Verdict::PassedOver => effects.say(Output::Refused(Refusal::WrongCall)),
            Verdict::Again(answer) => {
                effects.say(Output::Refused(Refusal::WrongCall))?;
                self.send_answer(call, answer, effects)
            }
            Verdict::AtLimit(answer) => {
                effects.say(Output::Refused(Refusal::Exhausted))?;
                self.send_answer(call, answer, effects)
            }
            Verdict::Refused(refusal, answer) => {
                effects.record(Record::Kept(call))?;
                effects.say(Output::Refused(refusal))?;
                self.send_answer(call, answer, effects)
            }
            Verdict::Done(answer) => {
                effects.record(Record::Kept(call))?;
                self.send_answer(call, answer, effects)
            }
            Verdict::PassedOn(answer) => {
                effects.record(Record::Kept(call))?;
                self.send_answer(call, answer, effects)?;
                let change = Change {
                    section: call.section,
                    holder: answer.holder,
                    change: answer.change,
                };
                self.send_changes(change, effects)
            }
        }
    }

    pub(crate) fn call(
        &mut self,
        from: BoxNumber,
        call: Call,
        effects: &mut Effects,
    ) -> Result<(), Fault>
        ensures { OnOk result ((state_of self.new, log_of effects.new) ≡ called_at (state_of self.old) from call (log_of effects.old)) }
    {
        if !self.is_for_us(from, call.engine, call.section) {
            return effects.say(Output::Refused(Refusal::Malformed));
        }
        let verdict = self.keeper.call(call);
        self.say_verdict(call, verdict, effects)
    }

    pub(crate) fn which_change(
        &self,
        from: BoxNumber,
        engine: Engine,
        section: Section,
        effects: &mut Effects,
    ) -> Result<(), Fault>
        ensures { OnOk result ((state_of self.now, log_of effects.new) ≡ which_at (state_of self.now) from engine section (log_of effects.old)) }
    {
        if !self.is_for_us(from, engine, section) {
            return effects.say(Output::Refused(Refusal::Malformed));
        }
        let change = Change {
            section,
            holder: self.keeper.holder(section.place),
            change: self.keeper.change(section.place),
        };
        send(from, Message::Change(change), effects)
    }
}
