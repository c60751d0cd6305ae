// The engines of one box: each input changes one of them, or is turned away.
ghost use Rattle.std.specs.Prelude.{◌≡◌, ◌<◌};
ghost use Rattle.home.specs.Home.{fresh_home, is_home, is_ours, IsState, with, made_of, apply_of, Recorded};

use engine_state::{Known, Mode, Places, State, Stored};
use messages::{Beginning, BoxNumber, Call, Engine, Record, Refusal, Section, Yard};
use signs::table::Engines;

// That an engine said that it waits, by its beginning `count`, for a section that one of ours holds.
#[derive(Clone, Copy, PartialEq, Eq)]
pub struct Note {
    pub section: Section,
    pub count: u32,
}

// `signs` and `stored` are rebuilt from the file; `known` and `notes` are lost when the box stops.
// `signs` stands in its own table of arrays, a rule of the project; `stored` is apart from `known`, since what is promised of stops speaks of all that is stored.
#[derive(Clone, Copy)]
pub struct Home {
    pub(crate) yard: Yard,
    pub(crate) number: BoxNumber,
    pub(crate) signs: Engines,
    pub(crate) stored: [Stored; 64],
    pub(crate) known: [Known; 64],
    pub(crate) notes: [Option<Note>; 64],
}

// Is the box the home of the engine, in that yard.
pub fn is_home(yard: Yard, number: BoxNumber, engine: Engine) -> bool
    ensures { result ≡ is_home yard number engine }
{
    engine.0 < yard.engines && yard.home(engine) == number
}

impl Home {
    // A box of which there is no record yet. The yard and the box's number are handed in side by side: each is asked for alone, and together only where a box is made.
    pub fn new(yard: Yard, number: BoxNumber) -> Home
        ensures { result ≡ fresh_home yard number }
    {
        let blank = Stored {
            mode: Mode::Idle,
            used: [0; 16],
            kept: Places::new(),
            asked: None,
        };
        Home {
            yard,
            number,
            signs: Engines::new(),
            stored: [blank; 64],
            known: [Known::Pending; 64],
            notes: [None; 64],
        }
    }

    pub fn is_ours(&self, engine: Engine) -> bool
        ensures { result ≡ is_ours self.now engine }
    {
        is_home(self.yard, self.number, engine)
    }

    // The engine, if it is ours.
    pub fn state(&self, engine: Engine) -> Result<State, Refusal>
        ensures { IsState self.now engine result }
    {
        if !self.is_ours(engine) {
            return Err(Refusal::Malformed);
        }
        let signs = self.signs.get(engine.0).map_err(|_| Refusal::Malformed)?;
        let i = usize::from(engine.0);
        Ok(State {
            stored: self.stored[i],
            known: self.known[i],
            signs,
        })
    }

    pub(crate) fn put(&mut self, engine: Engine, state: State)
        requires { engine.0 < 64 }
        ensures { self.new ≡ with self.old engine state }
    {
        // It is one of sixty-four: the table takes it.
        let _ = self.signs.put(engine.0, state.signs);
        let i = usize::from(engine.0);
        self.stored[i] = state.stored;
        self.known[i] = state.known;
    }

    // What is recorded of one of ours changes it.
    pub(crate) fn record<F: FnOnce(State) -> State>(&mut self, engine: Engine, change: F)
        requires { F.IsAlwaysCallable change }
        ensures { Recorded self.old engine (F.post change) self.new }
    {
        if let Ok(state) = self.state(engine) {
            self.put(engine, change(state));
        }
    }

    pub(crate) fn record_made(&mut self, call: Call)
        ensures { self.new ≡ made_of self.old call }
    {
        self.record(call.engine, |state| state.made(call));
    }

    // What a record of one of ours makes of it, in a running box and at opening alike.
    pub fn apply(&mut self, entry: Record)
        ensures { self.new ≡ apply_of self.old entry }
    {
        match entry {
            Record::Kept(_) => {}
            Record::Made(call) => self.record_made(call),
            Record::Beginning { holder, waits, own } => {
                let start = Beginning {
                    engine: waits.engine,
                    section: waits.section,
                    change: waits.change,
                    holder,
                    count: waits.count,
                    own,
                };
                self.record(start.engine, |state| state.begun(start))
            }
            Record::Heard { engine, sign } => self.record(engine, |state| state.heard(sign)),
        }
    }
}
