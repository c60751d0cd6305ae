// Inputs at a box: its records are stored, and only then is anything said.
ghost use Rattle.std.specs.Prelude.{◌≡◌, ℕ, List, IfOk};
ghost use Rattle.messages.specs.Journal.{Holds, written};
ghost use Rattle.journal.specs.Effect.{said_of};
ghost use Rattle.journal.specs.Memory.{held_by};
ghost use Rattle.boxes.specs.Log.{log_of, none};
ghost use Rattle.boxes.specs.Handle.{reminders_of};
ghost use Rattle.boxes.specs.Model.{state_of};
ghost use Rattle.world.specs.Station.{Restarts, committed, delivered_at, fresh_station, handled_at, station_of};

use crate::station::Station;
use boxes::{Input, SignalBox};
use journal::{Effects, MemoryFile, OpenFault, Said, open};
use messages::{BoxNumber, Record, Yard};
use std::alloc::Global;

impl Station {
    // A box of which there is no record yet.
    pub(crate) fn new(yard: Yard, number: BoxNumber, heap: Global) -> Station
        ensures { station_of result ≡ fresh_station yard number }
    {
        Station {
            state: SignalBox::new(yard, number),
            file: MemoryFile::new(heap),
        }
    }

    pub(crate) fn state(&self) -> &SignalBox
        ensures { result.now ≡ self.now.state }
    {
        &self.state
    }

    // Stores what was recorded. After a fault the station isn't gone on with: its file is left empty, not half written.
    fn commit(&mut self, effects: Effects, heap: Global) -> Result<Said, OpenFault>
        ensures { IfOk result (λ said. (station_of self.new, said_of said) ≡ committed (held_by self.old.file) (state_of self.old.state, log_of effects)) }
    {
        let said = effects.commit(&mut self.file);
        if said.is_err() {
            self.file = MemoryFile::new(heap);
        }
        Ok(said?)
    }

    pub(crate) fn handle(&mut self, input: Input, heap: Global) -> Result<Said, OpenFault>
        ensures { IfOk result (λ said. (station_of self.new, said_of said) ≡ handled_at input (station_of self.old)) }
    {
        let effects = Effects::gather(heap, &mut self.state, |state, effects| {
            state.handle(input, effects)
        })?;
        self.commit(effects, heap)
    }

    pub(crate) fn deliver(
        &mut self,
        from: BoxNumber,
        bytes: &[u8],
        heap: Global,
    ) -> Result<Said, OpenFault>
        ensures { IfOk result (λ said. (station_of self.new, said_of said) ≡ delivered_at from bytes.now (station_of self.old)) }
    {
        let effects = Effects::gather(heap, &mut self.state, |state, effects| {
            state.deliver(from, bytes, effects)
        })?;
        self.commit(effects, heap)
    }

    fn remind(&mut self, heap: Global) -> Result<Said, OpenFault>
        ensures { IfOk result (λ said. (station_of self.new, said_of said) ≡ committed (held_by self.old.file) (state_of self.old.state, reminders_of self.old.state.home none)) }
    {
        let effects = Effects::gather(heap, &mut self.state, |state, effects| {
            state.remind(effects)
        })?;
        self.commit(effects, heap)
    }

    // The records of its file, opened again. After a fault the file is left empty.
    fn read_again(&mut self, yard: Yard, heap: Global) -> Result<Vec<Record>, OpenFault>
        ensures state { self.new.state ≡ self.old.state }
        ensures records { IfOk result (λ rs. (rest : List ℕ) × Holds yard (held_by self.old.file) rs.items rest × (held_by self.new.file ≡ written rs.items)) }
    {
        let records = open(&mut self.file, yard, heap);
        if records.is_err() {
            self.file = MemoryFile::new(heap);
        }
        records
    }

    // The box stops, and comes up as its file says.
    pub(crate) fn stop(
        &mut self,
        yard: Yard,
        number: BoxNumber,
        heap: Global,
    ) -> Result<Said, OpenFault>
        ensures { IfOk result (λ said. Restarts yard number (station_of self.old) (station_of self.new, said_of said)) }
    {
        let records = self.read_again(yard, heap)?;
        // By a match: `map_err` would hand the whole box on once more.
        match SignalBox::open(yard, number, records.as_slice()) {
            Ok(state) => self.state = state,
            Err(unwritten) => return Err(OpenFault::Damaged(unwritten.index)),
        }
        self.remind(heap)
    }
}
