// A box that comes up from the records of its file.
ghost use Rattle.std.specs.Prelude.{◌≡◌};
ghost use Rattle.std.specs.Option.{is_some};
ghost use Rattle.boxes.specs.Model.{fresh, state_of};
ghost use Rattle.boxes.specs.Opening.{home_again, is_sound, kept_here, opened, open_from, replay_of};

use crate::signal_box::SignalBox;
use home::Home;
use messages::{BoxNumber, Call, Record, Yard};

// The index of the first record that couldn't have been written.
#[derive(Clone, Copy, PartialEq, Eq, Debug)]
pub struct Unwritten {
    pub index: usize,
}

// Could the home have written the record.
fn is_sound(home: &Home, record: Record) -> bool
    ensures { result ≡ is_sound home.now «record» }
{
    match record {
        Record::Kept(_) => false,
        Record::Made(call) => home.is_next(call),
        Record::Beginning { waits, own, .. } => {
            home.is_ours(waits.engine)
                && own % u64::from(home.yard().engines) == u64::from(waits.engine.0)
        }
        Record::Heard { engine, sign: _ } => home.is_ours(engine),
    }
}

impl SignalBox {
    // What a kept call makes of the box; None if it couldn't have been written.
    fn replay_kept(&mut self, call: Call) -> Option<()>
        ensures { (state_of self.new, is_some result) ≡ kept_here (state_of self.old) call }
    {
        if call.section.keeper != self.home.number() {
            return None;
        }
        self.keeper.call(call).recorded()?;
        Some(())
    }

    // What a record of the home makes of it; None if it couldn't have been written.
    fn replay_ours(&mut self, record: Record) -> Option<()>
        ensures { (state_of self.new, is_some result) ≡ home_again (state_of self.old) «record» }
    {
        if !is_sound(&self.home, record) {
            return None;
        }
        self.home.apply(record);
        Some(())
    }

    // What a record makes of the box; None if it couldn't have been written.
    fn replay(&mut self, record: Record) -> Option<()>
        ensures { (state_of self.new, is_some result) ≡ replay_of (state_of self.old) «record» }
    {
        match record {
            Record::Kept(call) => self.replay_kept(call),
            Record::Made(_) | Record::Beginning { .. } | Record::Heard { .. } => self.replay_ours(
                record,
            ),
        }
    }

    // The box that the records stand for.
    pub fn open(yard: Yard, number: BoxNumber, records: &[Record]) -> Result<SignalBox, Unwritten>
        ensures { opened result ≡ open_from 0 records.now (fresh yard number) }
    {
        let mut opened = SignalBox::new(yard, number);
        for (index, record) in records.iter().enumerate() {
            opened.replay(*record).ok_or(Unwritten { index })?;
        }
        Ok(opened)
    }
}
