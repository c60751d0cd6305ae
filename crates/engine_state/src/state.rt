// One engine of a home by value: what is stored of it, and what is known besides.
ghost use Rattle.std.specs.Prelude.{◌≡◌};
ghost use Rattle.engine_state.specs.State.{wanted, mode_section, next_number, numbered, kept_after, asked_after, stored_after, made, begun, heard, knowing};
ghost use Rattle.engine_state.specs.Calls.{open_of, wait_of, had_of, holds_by, holds_of, holds_any, giving_back, next_call, may_call, take_call, free_call};

use crate::places::Places;
use messages::{Act, Beginning, BoxNumber, Call, Engine, MOST_BOXES, Refusal, Section, Sign};

// The last of the engine's own records. For whom it waits is in its signs.
#[derive(Clone, Copy, PartialEq, Eq)]
pub enum Mode {
    Idle,
    Called {
        act: Act,
        section: Section,
        number: u32,
    },
    Waiting {
        section: Section,
        change: u32,
    },
}

// How the mode's business ended: not known to have ended, the engine has the mode's section, or otherwise.
#[derive(Clone, Copy, PartialEq, Eq)]
pub enum Known {
    Pending,
    Had,
    Closed,
}

// A call that isn't a free.
#[derive(Clone, Copy, PartialEq, Eq)]
pub enum Asked {
    Took,
    GaveUp,
}

// `used`: for each box the last call number. `kept`: sections that the engine got before the mode's business. `asked`: the last call that isn't a free, if there was one.
#[derive(Clone, Copy)]
pub struct Stored {
    pub mode: Mode,
    pub used: [u32; 16],
    pub kept: Places,
    pub asked: Option<Asked>,
}

#[derive(Clone, Copy)]
pub struct State {
    pub stored: Stored,
    pub known: Known,
    pub signs: signs::Engine,
}

// A standing wait: for which section, for whom, by which beginning, and of which change.
#[derive(Clone, Copy, PartialEq, Eq)]
pub struct Wait {
    pub section: Section,
    pub whom: Engine,
    pub count: u32,
    pub change: u32,
}

// What came of one input at one engine, with all that is to be recorded and sent.
#[derive(Clone, Copy, PartialEq, Eq)]
pub enum Event {
    PassedOver,
    // Turned away: nothing changed.
    Refused(Refusal),
    // The keeper refused the open call, which is over.
    RefusedBy(Refusal),
    Had { engine: Engine, section: Section },
    // A free or a give up was done.
    Closed,
    // A call of the driver.
    Called(Call),
    // The engine stands in a ring: the give up by which it leaves it.
    Found(Call),
    Began(Beginning),
    Heard { engine: Engine, sign: u64 },
    // An engine waits for what one of ours holds, and is told the sign that this one shows.
    Noted(Sign),
}

impl Mode {
    // The section that it is about.
    pub fn section(self) -> Option<Section>
        ensures { result ≡ mode_section self }
    {
        match self {
            Mode::Idle => None,
            Mode::Called { section, .. } | Mode::Waiting { section, .. } => Some(section),
        }
    }

    // The section that is asked for or waited for.
    fn wanted(self) -> Option<Section>
        ensures { result ≡ wanted self }
    {
        match self {
            Mode::Called {
                act: Act::Take,
                section,
                ..
            }
            | Mode::Waiting { section, .. } => Some(section),
            Mode::Idle | Mode::Called { .. } => None,
        }
    }
}

fn asked_after(asked: Option<Asked>, act: Act) -> Option<Asked>
    ensures { result ≡ asked_after asked act }
{
    match act {
        Act::Take => Some(Asked::Took),
        Act::Free => asked,
        Act::GiveUp => Some(Asked::GaveUp),
    }
}

impl Stored {
    // The number of the next call to a box, if there is one left.
    pub fn next_number(&self, keeper: BoxNumber) -> Option<u32>
        ensures { result ≡ next_number self.now keeper }
    {
        self.used.get(usize::from(keeper.0))?.checked_add(1)
    }

    // Does the engine hold the section, if this is stored of it and that is known.
    pub fn holds(&self, known: Known, section: Section) -> bool
        ensures { result ≡ holds_by self.now known section }
    {
        known == Known::Had && self.mode.section() == Some(section) || self.kept.has(section)
    }

    // The sections kept after a call: what was wanted and isn't given up by it the engine must have got, and what it frees is held no more.
    fn kept_after(self, call: Call) -> Places
        ensures { result ≡ kept_after self call }
    {
        let kept = match self.mode.wanted() {
            Some(section) if call.act != Act::GiveUp || call.section != section => self
                .kept
                .with(section),
            _ => self.kept,
        };
        match call.act {
            Act::Free => kept.without(call.section),
            Act::Take | Act::GiveUp => kept,
        }
    }

    // The last call numbers after a call.
    fn used_after(self, call: Call) -> [u32; 16]
        ensures { result ≡ numbered self.used call.section.keeper call.number }
    {
        let mut used = self.used;
        // Tried with `get_mut`: the proof didn't close.
        if call.section.keeper.0 < MOST_BOXES {
            used[usize::from(call.section.keeper.0)] = call.number;
        }
        used
    }

    fn after(self, call: Call) -> Stored
        ensures { result ≡ stored_after self call }
    {
        Stored {
            mode: Mode::Called {
                act: call.act,
                section: call.section,
                number: call.number,
            },
            used: self.used_after(call),
            kept: self.kept_after(call),
            asked: asked_after(self.asked, call.act),
        }
    }
}

impl State {
    // A call of the engine, made: it is the mode, and pending.
    pub fn made(self, call: Call) -> State
        ensures { result ≡ made self call }
    {
        State {
            stored: self.stored.after(call),
            known: Known::Pending,
            signs: signs::Engine {
                wait: None,
                ..self.signs
            },
        }
    }

    // A beginning to wait: it is the mode, and pending.
    pub fn begun(self, start: Beginning) -> State
        ensures { result ≡ begun self start.section start.change start.holder start.count start.own }
    {
        State {
            stored: Stored {
                mode: Mode::Waiting {
                    section: start.section,
                    change: start.change,
                },
                ..self.stored
            },
            known: Known::Pending,
            signs: signs::Engine {
                wait: Some(start.holder.0),
                count: start.count,
                shown: start.own,
                own: start.own,
            },
        }
    }

    // A sign heard: it is shown.
    pub fn heard(self, sign: u64) -> State
        ensures { result ≡ heard self sign }
    {
        State {
            signs: signs::Engine {
                shown: sign,
                ..self.signs
            },
            ..self
        }
    }

    pub fn knowing(self, known: Known) -> State
        ensures { result ≡ knowing self known }
    {
        State { known, ..self }
    }

    // The engine's open call, if there is one.
    pub fn open_call(self, engine: Engine) -> Option<Call>
        ensures { result ≡ open_of self engine }
    {
        match (self.known, self.stored.mode) {
            (
                Known::Pending,
                Mode::Called {
                    act,
                    section,
                    number,
                },
            ) => Some(Call {
                act,
                engine,
                section,
                number,
            }),
            _ => None,
        }
    }

    // The wait that stands.
    pub fn wait(self) -> Option<Wait>
        ensures { result ≡ wait_of self }
    {
        match (self.known, self.stored.mode, self.signs.wait) {
            (Known::Pending, Mode::Waiting { section, change }, Some(whom)) => Some(Wait {
                section,
                whom: Engine(whom),
                count: self.signs.count,
                change,
            }),
            _ => None,
        }
    }

    // The mode's section, if the engine is known to have got it.
    fn had(self) -> Option<Section>
        ensures { result ≡ had_of self }
    {
        match self.known {
            Known::Had => self.stored.mode.section(),
            Known::Pending | Known::Closed => None,
        }
    }

    pub fn holds(self, section: Section) -> bool
        ensures { result ≡ holds_of self section }
    {
        self.stored.holds(self.known, section)
    }

    // Does it hold any section.
    fn holds_any(self) -> bool
        ensures { result ≡ holds_any self }
    {
        self.had().is_some() || !self.stored.kept.is_empty()
    }

    // It gave up, and still holds what it has to free.
    pub fn is_giving_back(self) -> bool
        ensures { result ≡ giving_back self }
    {
        self.stored.asked == Some(Asked::GaveUp) && self.holds_any()
    }

    // The next call to a section's box.
    pub(crate) fn next_call(
        self,
        act: Act,
        engine: Engine,
        section: Section,
    ) -> Result<Call, Refusal>
        ensures { result ≡ next_call self act engine section }
    {
        let number = self
            .stored
            .next_number(section.keeper)
            .ok_or(Refusal::Exhausted)?;
        Ok(Call {
            act,
            engine,
            section,
            number,
        })
    }

    // An engine calls neither while a call of it is open nor while it waits.
    fn may_call(self, engine: Engine) -> Result<(), Refusal>
        ensures { result ≡ may_call self engine }
    {
        if self.open_call(engine).is_some() {
            return Err(Refusal::WrongCall);
        }
        if self.wait().is_some() {
            return Err(Refusal::Waiting);
        }
        Ok(())
    }

    // The call by which it takes a section.
    pub fn take(self, engine: Engine, section: Section) -> Result<Call, Refusal>
        ensures { result ≡ take_call self engine section }
    {
        if self.is_giving_back() {
            return Err(Refusal::WrongCall);
        }
        self.may_call(engine)?;
        if self.holds(section) {
            return Err(Refusal::Mismatch);
        }
        self.next_call(Act::Take, engine, section)
    }

    // The call by which it frees a section.
    pub fn free(self, engine: Engine, section: Section) -> Result<Call, Refusal>
        ensures { result ≡ free_call self engine section }
    {
        self.may_call(engine)?;
        if !self.holds(section) {
            return Err(Refusal::Mismatch);
        }
        self.next_call(Act::Free, engine, section)
    }
}
