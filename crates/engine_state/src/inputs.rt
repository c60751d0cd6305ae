// What answers, changes and signs make of one engine, and the event that each gives.
ghost use Rattle.std.specs.Prelude.{◌≡◌};
ghost use Rattle.engine_state.specs.Inputs.{told, refused_for, begin_at, taken_by, ended_by, awaited, answer_to, answer_at, is_later, passed_to, change_at, found_at, listened, sign_at};
ghost use Rattle.engine_state.specs.Calls.{wait_of};
ghost use Rattle.signs.specs.Signs.{listen_of};

use crate::state::{Event, Known, State};
use messages::{
    Act, Answer, Beginning, BoxNumber, Call, Change, Engine, Refusal, Reply, Section, Sign,
};

// The refusals of signs by the yard's numbers. No `From`: both types are other crates', and Rust wants it beside one of them.
fn refused_for(refusal: signs::Refusal) -> Refusal
    ensures { result ≡ refused_for refusal }
{
    match refusal {
        signs::Refusal::OutOfRange => Refusal::Malformed,
        signs::Refusal::Itself => Refusal::Mismatch,
        signs::Refusal::Stale => Refusal::Stale,
        signs::Refusal::Limit => Refusal::Exhausted,
    }
}

// What is told of a step that turned the input away or not.
fn told(step: Result<Event, Refusal>) -> Event
    ensures { result ≡ told step }
{
    step.unwrap_or_else(|refusal| Event::Refused(refusal))
}

// A step changes the state in its place, and where it turns the input away it leaves it as it is: a state is some 250 bytes, and is not handed from step to step.
impl State {
    // Begins to wait for `whom`, which has the section since that change, in a yard of so many engines.
    fn begin(
        &mut self,
        engine: Engine,
        engines: u8,
        change: Change,
        whom: Engine,
    ) -> Result<Event, Refusal>
        ensures { (self.new, told result) ≡ begin_at self.old engine engines change.section change.change whom }
    {
        let after = self
            .signs
            .begin(engine.0, engines, whom.0)
            .map_err(refused_for)?;
        let start = Beginning {
            engine,
            section: change.section,
            change: change.change,
            holder: whom,
            count: after.count,
            own: after.own,
        };
        *self = self.begun(start);
        Ok(Event::Began(start))
    }

    // The answer to an open take.
    fn taken(&mut self, call: Call, engines: u8, answer: Answer) -> Result<Event, Refusal>
        ensures { (self.new, told result) ≡ taken_by self.old call engines answer.reply answer.holder answer.change }
    {
        match (answer.reply, answer.holder) {
            (Reply::Done, _) => {
                self.known = Known::Had;
                Ok(Event::Had {
                    engine: call.engine,
                    section: call.section,
                })
            }
            (Reply::Waits, Some(whom)) if whom != call.engine => {
                let change = Change {
                    section: call.section,
                    holder: answer.holder,
                    change: answer.change,
                };
                self.begin(call.engine, engines, change, whom)
            }
            (Reply::Waits, _) => Err(Refusal::WrongCall),
            (Reply::Refused(Refusal::Exhausted), _) => Err(Refusal::Exhausted),
            (Reply::Refused(refusal), _) => {
                self.known = Known::Closed;
                Ok(Event::RefusedBy(refusal))
            }
        }
    }

    // The answer to an open free or give up.
    fn ended(&mut self, call: Call, answer: Answer) -> Result<Event, Refusal>
        ensures { (self.new, told result) ≡ ended_by self.old call answer.reply answer.holder }
    {
        match answer.reply {
            Reply::Done => {
                self.known = Known::Closed;
                Ok(Event::Closed)
            }
            Reply::Waits => Err(Refusal::WrongCall),
            Reply::Refused(Refusal::Exhausted) => Err(Refusal::Exhausted),
            Reply::Refused(refusal) => {
                self.known = if answer.holder == Some(call.engine) {
                    Known::Had
                } else {
                    Known::Closed
                };
                Ok(Event::RefusedBy(refusal))
            }
        }
    }

    // The open call, if it is to that box and has that number.
    fn awaited(self, from: BoxNumber, engine: Engine, number: u32) -> Option<Call>
        ensures { result ≡ awaited self from engine number }
    {
        self.open_call(engine).filter(|call| call.section.keeper == from && call.number == number)
    }

    fn answer_to(&mut self, call: Call, engines: u8, answer: Answer) -> Result<Event, Refusal>
        ensures { (self.new, told result) ≡ answer_to self.old call engines answer.reply answer.holder answer.change call.act }
    {
        match call.act {
            Act::Take => self.taken(call, engines, answer),
            Act::Free | Act::GiveUp => self.ended(call, answer),
        }
    }

    // An answer of the box `from` to the call `number`: with the engine, five things that come from five places, and together nowhere else.
    #[tactic(auto, unfolding(crate::specs::Inputs::answer_at))]
    pub fn answer(
        mut self,
        from: BoxNumber,
        engine: Engine,
        engines: u8,
        number: u32,
        answer: Answer,
    ) -> (State, Event)
        ensures { result ≡ answer_at self from engine engines number answer.reply answer.holder answer.change }
    {
        let step = match self.awaited(from, engine, number) {
            Some(call) => self.answer_to(call, engines, answer),
            None => Err(Refusal::WrongCall),
        };
        (self, told(step))
    }

    // Is it a later change of the section that is waited for.
    pub fn is_later(self, change: Change) -> bool
        ensures { result ≡ is_later (wait_of self) change.section change.change }
    {
        self.wait().is_some_and(|wait| wait.section == change.section
            && wait.change < change.change)
    }

    // What is waited for has passed on.
    fn passed_to(&mut self, engine: Engine, engines: u8, change: Change) -> Result<Event, Refusal>
        ensures { (self.new, told result) ≡ passed_to self.old engine engines change.section change.change change.holder }
    {
        match change.holder {
            None => Ok(Event::PassedOver),
            Some(whom) if whom == engine => {
                self.known = Known::Had;
                Ok(Event::Had {
                    engine,
                    section: change.section,
                })
            }
            Some(whom) => self.begin(engine, engines, change, whom),
        }
    }

    // A section has passed on, by that change.
    #[tactic(auto, unfolding(crate::specs::Inputs::change_at))]
    pub fn change_at(mut self, engine: Engine, engines: u8, change: Change) -> (State, Event)
        ensures { result ≡ change_at self engine engines change.section change.holder change.change }
    {
        if !self.is_later(change) {
            return (self, Event::PassedOver);
        }
        let step = self.passed_to(engine, engines, change);
        (self, told(step))
    }

    // Its own sign has come round: it gives up the section that it waits for.
    fn found(&mut self, engine: Engine, section: Section) -> Result<Event, Refusal>
        ensures { (self.new, told result) ≡ found_at self.old engine section }
    {
        let call = self.next_call(Act::GiveUp, engine, section)?;
        *self = self.made(call);
        Ok(Event::Found(call))
    }

    // What comes of a sign while the wait for a section stands.
    fn listened(&mut self, section: Section, sign: Sign) -> Result<Event, Refusal>
        ensures { (self.new, told result) ≡ listened self.old sign.to section (listen_of self.old.signs sign.by.0 sign.count sign.sign) }
    {
        let (_, heard) = self
            .signs
            .listen(sign.by.0, sign.count, sign.sign)
            .map_err(refused_for)?;
        match heard {
            signs::Heard::PassedOver => Ok(Event::PassedOver),
            signs::Heard::TellOn(shown) => {
                self.signs.shown = shown;
                Ok(Event::Heard {
                    engine: sign.to,
                    sign: shown,
                })
            }
            signs::Heard::Found => self.found(sign.to, section),
        }
    }

    // A sign told to the engine as one that waits for the teller.
    #[tactic(auto, unfolding(crate::specs::Inputs::sign_at))]
    pub fn sign(mut self, sign: Sign) -> (State, Event)
        ensures { result ≡ sign_at self sign.to sign.count sign.by sign.sign }
    {
        let step = match self.wait() {
            Some(wait) => self.listened(wait.section, sign),
            None => Err(Refusal::Stale),
        };
        (self, told(step))
    }
}
