// A box's sections with the engines of one rehearsal, and the text of its answers.
ghost use Rattle.std.specs.Prelude.{◌≡◌, Some};
ghost use Rattle.sections.specs.Model.{table_of};
ghost use Rattle.one_box.specs.Play.{answer_text, play_of, section_text};

use crate::script::{Call, Verb};
use sections::{Done, Refusal, Sections};
use std::fmt;

// One call on the sections, by one of so many engines.
pub fn play(sections: &mut Sections, engines: u8, call: Call) -> Result<Done, Refusal>
    ensures { (table_of sections.new, result) ≡ play_of engines (table_of sections.old) call }
{
    if call.engine >= engines {
        return Err(Refusal::OutOfRange);
    }
    match call.verb {
        Verb::Take => sections.take_or_wait(call.engine, call.place),
        Verb::Free => sections.free(call.engine, call.place),
        Verb::GiveUp => sections.give_up(call.engine, call.place),
    }
}

// What the sections answered to a call, as one line.
#[derive(Clone, Copy)]
pub struct Answer {
    pub call: Call,
    pub outcome: Result<Done, Refusal>,
}

impl fmt::Display for Answer {
    ghost output = { λ a. Some (answer_text a.call a.outcome) };

    fn fmt<W: fmt::Write>(&self, f: &mut fmt::Formatter<W>) -> fmt::Result {
        let engine = self.call.engine;
        let place = self.call.place;
        match self.outcome {
            Ok(Done::Had) => write!(f, "had {engine} 0:{place}"),
            Ok(Done::Waits(holder)) => write!(f, "waits {engine} 0:{place} for {holder}"),
            Ok(Done::LetGo(None)) => write!(f, "let go {engine} 0:{place} to nobody"),
            Ok(Done::LetGo(Some(next))) => write!(f, "let go {engine} 0:{place} to {next}"),
            Ok(Done::Left) => write!(f, "left {engine} 0:{place}"),
            Err(refusal) => write!(f, "refused {}", refusal.number()),
        }
    }
}

// A section that somebody has, as one line.
#[derive(Clone, Copy)]
pub struct Section<'a> {
    pub place: u8,
    pub holder: u8,
    pub change: u32,
    pub queue: &'a [u8],
}

impl fmt::Display for Section<'_> {
    ghost output = { λ s. Some (section_text s.place s.holder s.change s.queue.now) };

    fn fmt<W: fmt::Write>(&self, f: &mut fmt::Formatter<W>) -> fmt::Result {
        write!(
            f,
            "section 0:{} {} {}:",
            self.place, self.holder, self.change
        )?;
        for engine in self.queue {
            write!(f, " {engine}")?;
        }
        Ok(())
    }
}
