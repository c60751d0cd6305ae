// What came of inputs: records to be stored, and what may be said once they are.
ghost use Rattle.std.specs.Prelude.{◌≡◌, ℕ, List, [], ◌∷◌, ◌++◌, length, is_ok, IfOk, if◌then◌else◌, MatchResult, OnOk};
ghost use Rattle.journal.specs.Effect.{outputs_of, own_at, records_of, said_of};
ghost use Rattle.journal.specs.Gather.{Gathers};
ghost use Rattle.messages.specs.Journal.{written};
ghost use Rattle.journal.specs.Storage.{Remains};

use crate::fault::Fault;
use crate::file::File;
use crate::output::Output;
use crate::store::store;
use messages::{BoxNumber, Message, Record};
use std::alloc::Global;

// Not `Drop`, so they can't be forgotten. What is in them is said only by way of `commit`; before that a box reads those to itself, and nobody the others.
pub struct Effects {
    heap: Global,
    records: Vec<Record>,
    outputs: Vec<Output>,
}

impl Effects {
    pub fn new(heap: Global) -> Effects
        ensures records { records_of result ≡ [] }
        ensures outputs { outputs_of result ≡ [] }
    {
        Effects {
            heap,
            records: Vec::new(heap),
            outputs: Vec::new(heap),
        }
    }

    // What came of a turn of some state; after a fault nothing of it is said. The state is lent to the turn, and not captured by it: what a call leaves in a capture isn't known after it.
    pub fn gather<S, F: FnOnce(&mut S, &mut Effects) -> Result<(), Fault>>(
        heap: Global,
        state: &mut S,
        turn: F,
    ) -> Result<Effects, Fault>
        requires { F.IsAlwaysCallable turn }
        ensures { Gathers F.FnOnce turn state.old state.new result }
    {
        let mut effects = Effects::new(heap);
        match turn(state, &mut effects) {
            Ok(()) => Ok(effects),
            Err(fault) => {
                effects.abandon();
                Err(fault)
            }
        }
    }

    pub fn record(&mut self, record: Record) -> Result<(), Fault>
        ensures records { records_of self.new ≡ (if is_ok result then records_of self.old ++ «record» ∷ [] else records_of self.old) }
        ensures outputs { outputs_of self.new ≡ outputs_of self.old }
    {
        self.records.push(record)?;
        Ok(())
    }

    pub fn say(&mut self, output: Output) -> Result<(), Fault>
        ensures records { records_of self.new ≡ records_of self.old }
        ensures outputs { outputs_of self.new ≡ (if is_ok result then outputs_of self.old ++ output ∷ [] else outputs_of self.old) }
    {
        self.outputs.push(output)?;
        Ok(())
    }

    // How many outputs there are so far.
    pub fn said_so_far(&self) -> usize
        ensures { result ≡ length (outputs_of self.now) }
    {
        self.outputs.len()
    }

    // What the output at a place sends to the box `own`, for that box to act on: nothing comes of it but what goes into the same commit.
    pub fn to_itself(&self, own: BoxNumber, at: usize) -> Option<Message>
        ensures { result ≡ own_at own at (outputs_of self.now) }
    {
        self.outputs.get(at)?.sent_to(own)
    }

    // Stores the records, and hands out what may be said only when they are synced.
    pub fn commit<F: File>(self, file: &mut F) -> Result<Said, Fault>
        ensures said { IfOk result (λ s. said_of s ≡ outputs_of self) }
        ensures stored { (xs : List ℕ) → F.File.holds file.old xs (length xs) → MatchResult result (λ _. F.File.holds file.new (xs ++ written (records_of self)) (length (xs ++ written (records_of self)))) (λ _. Remains (F.File.holds file.new) (xs ++ written (records_of self)) (length xs)) }
        ensures settled { F.File.settled file.old → OnOk result (F.File.settled file.new) }
    {
        let Effects {
            heap,
            records,
            outputs,
        } = self;
        store(file, records.as_slice(), heap)?;
        Ok(Said { outputs })
    }

    // For a program that ends on a fault: nothing is said.
    pub fn abandon(self) {
        let Effects {
            heap: _,
            records: _,
            outputs: _,
        } = self;
    }
}

// Outputs whose records are synced.
#[derive(Drop)]
pub struct Said {
    outputs: Vec<Output>,
}

impl Said {
    pub fn as_slice(&self) -> &[Output]
        ensures { result.now ≡ said_of self.now }
    {
        self.outputs.as_slice()
    }
}

#[cfg(test)]
mod tests {
    use super::*;
    use messages::Engine;

    // A turn that says two things of its state, and changes it.
    fn speak(count: &mut u8, effects: &mut Effects) -> Result<(), Fault> {
        effects.say(Output::GiveBack {
            engine: Engine(*count),
        })?;
        *count = 4;
        effects.say(Output::GivingBack {
            engine: Engine(*count),
        })
    }

    #[test]
    fn a_turn_is_gathered(rt: HostRuntime) {
        let mut count = 3;
        let gathered = Effects::gather(rt.alloc(), &mut count, speak);
        assert!(rt; gathered.is_ok(), "there is memory for two outputs");
        if let Ok(effects) = gathered {
            assert_eq!(rt; effects.said_so_far(), 2);
            effects.abandon();
        }
        assert_eq!(rt; count, 4);
    }
}
