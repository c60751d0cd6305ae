// The calls on a box's sections, and what can be asked of them.
ghost use Rattle.std.specs.Prelude.{◌≡◌, cond, MatchOption, MatchResult};
ghost use Rattle.sections.specs.Table.{change_number_at, empty, free_of, give_up_of, holder_at, idle, known, queue_at, refusal_of, place_at, take_of, waits};
ghost use Rattle.sections.specs.Layout.{section_of};
ghost use Rattle.sections.specs.Model.{table_of};
ghost use Rattle.sections.specs.Promise.{FirstServed, InTurn};

use crate::row::Row;
use crate::{Done, ENGINES, PLACES, Refusal, Sections, row};

// Engines and places are numbered from 0 to 63.
fn in_range(engine: u8, place: u8) -> Result<(), Refusal>
    ensures { result ≡ cond (known engine place) (Ok tt) (Err Refusal.OutOfRange) }
{
    if engine < ENGINES && place < PLACES {
        Ok(())
    } else {
        Err(Refusal::OutOfRange)
    }
}

impl Sections {
    // All sections free, and never had.
    pub fn new() -> Sections
        ensures { table_of result ≡ empty }
    {
        Sections {
            rows: [row::IDLE; 64],
        }
    }

    // Who has the section at a place; where there is no such place, nobody.
    pub fn holder(&self, place: u8) -> Option<u8>
        ensures { result ≡ holder_at (table_of self.now) place }
    {
        self.row(place).and_then(|row| row.holder)
    }

    // How often the holder of the section at a place has changed.
    pub fn change(&self, place: u8) -> u32
        ensures { result ≡ change_number_at (table_of self.now) place }
    {
        self.row(place).map_or(0, |row| row.change)
    }

    // Who waits for the section at a place, in the order of coming.
    pub fn queue(&self, place: u8) -> &[u8]
        ensures { result.now ≡ queue_at (table_of self.now) place }
    {
        self.row(place).map_or(&[], |row| row.queue.engines())
    }

    // Does the engine wait for a section of this box.
    pub fn waits(&self, engine: u8) -> bool
        ensures { result ≡ waits engine (table_of self.now) }
    {
        if engine >= ENGINES {
            return false;
        }
        // By index: over an iterator the loop is written out row by row, and the engine's bit is looked for anew in each, which takes half as long again.
        for place in 0..self.rows.len() {
            if self.rows[place].queue.has(engine) {
                return true;
            }
        }
        false
    }

    // An engine takes a free section, or waits for one that another has.
    // It and `free` differ in the row's method: a function that took that as a closure would be longer than both.
    pub fn take_or_wait(&mut self, engine: u8, place: u8) -> Result<Done, Refusal>
        ensures after { (table_of self.new, result) ≡ take_of (table_of self.old) engine place }
        ensures in_turn { InTurn (table_of self.old) (table_of self.new) }
        ensures first { FirstServed (table_of self.old) (table_of self.new) }
    {
        self.admit(engine, place)?;
        // By a name of its own here and below: a call on a place of the field itself gets no plan from the check.
        let rows = &mut self.rows;
        rows[place as usize].take(engine)
    }

    // An engine lets a section go: to the first of its queue, or to nobody.
    pub fn free(&mut self, engine: u8, place: u8) -> Result<Done, Refusal>
        ensures after { (table_of self.new, result) ≡ free_of (table_of self.old) engine place }
        ensures in_turn { InTurn (table_of self.old) (table_of self.new) }
        ensures first { FirstServed (table_of self.old) (table_of self.new) }
    {
        self.admit(engine, place)?;
        let rows = &mut self.rows;
        rows[place as usize].free(engine)
    }

    // An engine leaves the queue of a section.
    pub fn give_up(&mut self, engine: u8, place: u8) -> Result<Done, Refusal>
        ensures after { (table_of self.new, result) ≡ give_up_of (table_of self.old) engine place }
        ensures in_turn { InTurn (table_of self.old) (table_of self.new) }
        ensures first { FirstServed (table_of self.old) (table_of self.new) }
    {
        in_range(engine, place)?;
        let rows = &mut self.rows;
        rows[place as usize].give_up(engine)
    }

    // The section at a place, if there is such a place.
    fn row(&self, place: u8) -> Option<&Row>
        ensures { MatchOption result (place_at (table_of self.now) place ≡ idle) (λ row. place_at (table_of self.now) place ≡ section_of row.now) }
    {
        self.rows.get(place as usize)
    }

    // An engine may take or free a section, whoever has it; or why not.
    fn admit(&self, engine: u8, place: u8) -> Result<(), Refusal>
        ensures { MatchResult result (λ _. refusal_of (table_of self.now) engine place ≡ None) (λ refusal. refusal_of (table_of self.now) engine place ≡ Some refusal) }
    {
        in_range(engine, place)?;
        if self.waits(engine) {
            return Err(Refusal::Waiting);
        }
        Ok(())
    }
}
