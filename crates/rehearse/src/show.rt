// The lines of what boxes know: sections and engines.
use crate::text::Spot;
use engine_state::State;
use keeper::Keeper;
use messages::{Act, BoxNumber, Engine, PLACES, Section};
use std::fmt;

// The line of a section that somebody has.
#[derive(Clone, Copy)]
pub struct SectionLine<'a> {
    pub section: Section,
    pub holder: Engine,
    pub keeper: &'a Keeper,
}

impl fmt::Display for SectionLine<'_> {
    fn fmt<W: fmt::Write>(&self, f: &mut fmt::Formatter<W>) -> fmt::Result {
        let place = self.section.place;
        let change = self.keeper.change(place);
        write!(
            f,
            "section {} {} {change}:",
            Spot(self.section),
            self.holder.0
        )?;
        for waiter in self.keeper.waiters(place) {
            write!(f, " {waiter}")?;
        }
        Ok(())
    }
}

// Acts and this trait of printing are both of other crates, so it is a function, and it is needed once.
fn act_word(act: Act) -> &'static str {
    match act {
        Act::Take => "take",
        Act::Free => "free",
        Act::GiveUp => "give-up",
    }
}

// The line of an engine, in a yard of so many boxes.
#[derive(Clone, Copy)]
pub struct EngineLine {
    pub engine: Engine,
    pub state: State,
    pub boxes: u8,
}

impl fmt::Display for EngineLine {
    fn fmt<W: fmt::Write>(&self, f: &mut fmt::Formatter<W>) -> fmt::Result {
        let signs = self.state.signs;
        write!(
            f,
            "engine {} shown {} own {} count {}",
            self.engine.0, signs.shown, signs.own, signs.count
        )?;
        if let Some(wait) = self.state.wait() {
            write!(
                f,
                " waits {} {} {}",
                wait.whom.0,
                Spot(wait.section),
                wait.change
            )?;
        }
        if let Some(call) = self.state.open_call(self.engine) {
            write!(
                f,
                " open {} {} {}",
                act_word(call.act),
                Spot(call.section),
                call.number
            )?;
        }
        let mut held = (0..self.boxes)
            .flat_map(|keeper| (0..PLACES).map(move |place| Section {
                keeper: BoxNumber(keeper),
                place,
            }))
            .filter(|section| self.state.holds(*section));
        if let Some(first) = held.next() {
            write!(f, " has {}", Spot(first))?;
            for section in held {
                write!(f, " {}", Spot(section))?;
            }
        }
        Ok(())
    }
}
