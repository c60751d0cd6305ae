// One section as it lies in memory, and what a call makes of it.
ghost use Rattle.std.specs.Prelude.{◌≡◌, ◌<◌, false};
ghost use Rattle.sections.specs.Table.{is_in};
ghost use Rattle.sections.specs.Sound.{HoldersKnown, NobodyForFree, NobodyItsOwn};
ghost use Rattle.sections.specs.Queues.{engines_of};

use crate::queue::Queue;
use crate::{Done, Refusal, queue};

#[derive(Clone, Copy)]
pub struct Row {
    pub holder: Option<u8>,
    pub change: u32,
    pub queue: Queue,
    ghost others: { NobodyItsOwn holder (engines_of queue) },
    ghost had: { NobodyForFree holder (engines_of queue) },
    ghost holders: { HoldersKnown holder },
}

// A section that nobody ever had.
pub const IDLE: Row = Row {
    holder: None,
    change: 0,
    queue: queue::EMPTY,
};

impl Row {
    ghost use Rattle.sections.specs.Table.{answered, free_section, give_up_section, next_change, take_section};
    ghost use Rattle.sections.specs.Layout.{section_of};

    // The change number of the section's next holder.
    fn next_change(&self) -> Result<u32, Refusal>
        ensures { result ≡ next_change (section_of self.now) }
    {
        self.change.checked_add(1).ok_or(Refusal::AtLimit)
    }

    // A free section is had; one that another has is waited for.
    pub fn take(&mut self, engine: u8) -> Result<Done, Refusal>
        requires known { engine < 64 }
        requires absent { is_in engine (engines_of self.old.queue) ≡ false }
        ensures { (section_of self.new, result) ≡ answered (section_of self.old) (take_section (section_of self.old) engine) }
    {
        match self.holder {
            None => {
                self.change = self.next_change()?;
                self.holder = Some(engine);
                Ok(Done::Had)
            }
            Some(holder) if holder == engine => Err(Refusal::Mismatch),
            Some(holder) => {
                self.queue.join(engine);
                Ok(Done::Waits(holder))
            }
        }
    }

    // The engine that has the section lets it go, to the first of the queue or to nobody.
    pub fn free(&mut self, engine: u8) -> Result<Done, Refusal>
        ensures { (section_of self.new, result) ≡ answered (section_of self.old) (free_section (section_of self.old) engine) }
    {
        if self.holder != Some(engine) {
            return Err(Refusal::Mismatch);
        }
        self.change = self.next_change()?;
        self.holder = self.queue.leave_first();
        Ok(Done::LetGo(self.holder))
    }

    // An engine leaves the queue.
    pub fn give_up(&mut self, engine: u8) -> Result<Done, Refusal>
        ensures { (section_of self.new, result) ≡ answered (section_of self.old) (give_up_section (section_of self.old) engine) }
    {
        if !self.queue.has(engine) {
            return Err(Refusal::Mismatch);
        }
        self.queue.leave(engine);
        Ok(Done::Left)
    }
}
