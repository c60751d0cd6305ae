// What is asked of a home: nothing changes.
ghost use Rattle.std.specs.Prelude.{◌≡◌};
ghost use Rattle.home.specs.Queries.{open_at, wait_at, holds_at, giving_back_at, signs_at, note_at, holder_of};

use crate::home::{Home, Note};
use engine_state::Wait;
use messages::{Call, Engine, MOST_ENGINES, Section};

impl Home {
    pub fn open_call(&self, engine: Engine) -> Option<Call>
        ensures { result ≡ open_at self.now engine }
    {
        self.state(engine).ok()?.open_call(engine)
    }

    pub fn wait(&self, engine: Engine) -> Option<Wait>
        ensures { result ≡ wait_at self.now engine }
    {
        self.state(engine).ok()?.wait()
    }

    // Asked for every engine of a home: the whole state is not copied.
    pub fn holds(&self, engine: Engine, section: Section) -> bool
        ensures { result ≡ holds_at self.now engine section }
    {
        let i = usize::from(engine.0);
        self.is_ours(engine) && self.stored[i].holds(self.known[i], section)
    }

    pub fn is_giving_back(&self, engine: Engine) -> bool
        ensures { result ≡ giving_back_at self.now engine }
    {
        self.state(engine).is_ok_and(|state| state.is_giving_back())
    }

    // The signs and the count of one of ours.
    pub fn signs(&self, engine: Engine) -> Option<signs::Engine>
        ensures { result ≡ signs_at self.now engine }
    {
        Some(self.state(engine).ok()?.signs)
    }

    // What is noted of an engine of the yard.
    pub fn note(&self, engine: Engine) -> Option<Note>
        ensures { result ≡ note_at self.now engine }
    {
        *self.notes.get(usize::from(engine.0))?
    }

    // The lowest of ours that holds the section.
    #[tactic(auto, unfolding(crate::specs::Queries::lowest))]
    pub fn holder_of(&self, section: Section) -> Option<Engine>
        ensures { result ≡ holder_of self.now section }
    {
        (0..MOST_ENGINES)
            .map(Engine)
            .find(|engine| self.holds(*engine, section))
    }
}
