// What the driver's lines and the messages of other boxes make of a home, each at one engine.
ghost use Rattle.std.specs.Prelude.{◌≡◌, map};
ghost use Rattle.engine_state.specs.Inputs.{is_later};
ghost use Rattle.home.specs.Queries.{wait_at};
ghost use Rattle.home.specs.Inputs.{has_section, unless_for, taken, take_of, free_of, answer_of, change_of, sign_of, is_older, noted, waits_of, IsStateFor, Stepped};

use crate::home::{Home, Note, is_home};
use engine_state::{Event, State};
use messages::{Answer, BoxNumber, Call, Change, Engine, MOST_ENGINES, Refusal, Section, Sign};

// The note, unless it is for the section.
fn unless_for(note: Option<Note>, section: Section) -> Option<Note>
    ensures { result ≡ unless_for section note }
{
    note.filter(|seen| seen.section != section)
}

fn drop_notes(notes: &mut [Option<Note>], section: Section)
    ensures { notes.new ≡ map (unless_for section) notes.old }
{
    for note in notes.iter_mut() {
        *note = unless_for(*note, section);
    }
}

// Is there a note of a later beginning.
fn is_older(count: u32, note: Option<Note>) -> bool
    ensures { result ≡ is_older count note }
{
    note.is_some_and(|seen| count < seen.count)
}

impl Home {
    fn has_section(&self, section: Section) -> bool
        ensures { result ≡ has_section self.now section }
    {
        self.yard.section(section.keeper.0, section.place).is_some()
    }

    // The engine, if it is ours and the section one of the yard's.
    fn state_for(&self, engine: Engine, section: Section) -> Result<State, Refusal>
        ensures { IsStateFor self.now engine section result }
    {
        if !self.has_section(section) {
            return Err(Refusal::Malformed);
        }
        self.state(engine)
    }

    // The call that one of ours makes, or why it makes none.
    fn called(&mut self, call: Result<Call, Refusal>) -> Event
        ensures { (self.new, result) ≡ taken self.old call }
    {
        match call {
            Ok(call) => {
                self.record_made(call);
                Event::Called(call)
            }
            Err(refusal) => Event::Refused(refusal),
        }
    }

    pub fn take(&mut self, engine: Engine, section: Section) -> Event
        ensures { (self.new, result) ≡ take_of self.old engine section }
    {
        let call = self
            .state_for(engine, section)
            .and_then(|state| state.take(engine, section));
        self.called(call)
    }

    // Frees a section: it is held no more from now on, and nobody is told of it.
    pub fn free(&mut self, engine: Engine, section: Section) -> Event
        ensures { (self.new, result) ≡ free_of self.old engine section }
    {
        let call = self
            .state_for(engine, section)
            .and_then(|state| state.free(engine, section));
        let event = self.called(call);
        if call.is_ok() {
            drop_notes(&mut self.notes, section);
        }
        event
    }

    // What an input makes of one of ours.
    fn at<F: FnOnce(State) -> (State, Event)>(&mut self, engine: Engine, step: F) -> Event
        requires { F.IsAlwaysCallable step }
        ensures { Stepped self.old engine (F.post step) self.new result }
    {
        match self.state(engine) {
            Ok(state) => {
                let (after, event) = step(state);
                self.put(engine, after);
                event
            }
            Err(refusal) => Event::Refused(refusal),
        }
    }

    // The answer of the box `from` to the call `number` of one of ours.
    pub fn answer(&mut self, from: BoxNumber, engine: Engine, number: u32, answer: Answer) -> Event
        ensures { (self.new, result) ≡ answer_of self.old from engine number answer.reply answer.holder answer.change }
    {
        let engines = self.yard.engines;
        self.at(
            engine,
            |state| state.answer(from, engine, engines, number, answer),
        )
    }

    // Is it a later change of the section that the engine waits for.
    fn awaits(&self, engine: Engine, change: Change) -> bool
        ensures { result ≡ is_later (wait_at self.now engine) change.section change.change }
    {
        self.state(engine).is_ok_and(|state| state.is_later(change))
    }

    // A section has passed on, by that change: what one of ours makes of it.
    // Most of ours pass it over, and their states are left where they are.
    #[tactic(auto, using(crate::proofs::Passed::passed))]
    pub fn change_at(&mut self, engine: Engine, change: Change) -> Event
        ensures { (self.new, result) ≡ change_of self.old engine change.section change.holder change.change }
    {
        if self.is_ours(engine) && !self.awaits(engine, change) {
            return Event::PassedOver;
        }
        let engines = self.yard.engines;
        self.at(engine, |state| state.change_at(engine, engines, change))
    }

    // A sign told to one of ours by `from`, the home of the one that shows it.
    pub fn sign(&mut self, from: BoxNumber, sign: Sign) -> Event
        ensures { (self.new, result) ≡ sign_of self.old from sign.to sign.count sign.by sign.sign }
    {
        if !is_home(self.yard, from, sign.by) {
            return Event::Refused(Refusal::Malformed);
        }
        self.at(sign.to, |state| state.sign(sign))
    }

    // Notes that an engine waits for what `by` holds, unless a later beginning of it is noted.
    fn note_waiter(&mut self, engine: Engine, note: Note, by: Engine) -> Event
        ensures { (self.new, result) ≡ noted self.old engine note.section note.count by }
    {
        // Tried with `get_mut` at the end: the proof didn't close.
        if engine.0 >= MOST_ENGINES || is_older(note.count, self.note(engine)) {
            return Event::PassedOver;
        }
        let Some(signs) = self.signs(by) else {
            return Event::PassedOver;
        };
        self.notes[usize::from(engine.0)] = Some(note);
        Event::Noted(Sign {
            to: engine,
            count: note.count,
            by,
            sign: signs.shown,
        })
    }

    // An engine of the yard waits for a section by its beginning `count`.
    pub fn waits(&mut self, engine: Engine, section: Section, count: u32) -> Event
        ensures { (self.new, result) ≡ waits_of self.old engine section count }
    {
        if self.yard.engine(engine.0).is_none() || !self.has_section(section) {
            return Event::Refused(Refusal::Malformed);
        }
        match self.holder_of(section) {
            Some(by) => self.note_waiter(engine, Note { section, count }, by),
            None => Event::PassedOver,
        }
    }
}
