// A section's queue: the engines in the order of coming, and beside them the set of those engines.
ghost use Rattle.std.specs.Prelude.{◌≡◌, ◌<◌, ◌≤◌, false, [], ◌∷◌, ◌++◌, length, take};
ghost use Rattle.sections.specs.Table.{first_of, is_in, rest_of, without};
ghost use Rattle.sections.specs.Sound.{NobodyTwice, WaitersKnown};
ghost use Rattle.sections.specs.Sets.{Fits, Matches};

use crate::ENGINES;

// An array with its count, and no list that asks for memory: a rule of the project. The set, a 64-bit word beside the queue, says in one step who is in it.
#[derive(Clone, Copy)]
pub struct Queue {
    engines: [u8; 64],
    count: usize,
    set: u64,
    ghost fits: { Fits count engines },
    ghost matched: { Matches «set» (take count engines) },
    ghost twice: { NobodyTwice (take count engines) },
    ghost waiters: { WaitersKnown (take count engines) },
}

pub const EMPTY: Queue = Queue {
    engines: [0; 64],
    count: 0,
    set: 0,
};

// Closes a queue up in place where an engine leaves it; how many are left.
// The loop writes behind what it reads, in one array.
fn close_up(queue: &mut [u8], engine: u8) -> usize
    ensures left { take result queue.new ≡ without engine queue.old }
    ensures fewer { result ≤ length queue.old }
{
    let mut left = 0;
    for i in 0..queue.len() {
        let x = queue[i];
        if x != engine {
            queue[left] = x;
            left += 1;
        }
    }
    left
}

impl Queue {
    ghost use Rattle.sections.specs.Queues.{engines_of};

    // The engines in the order of coming.
    pub fn engines(&self) -> &[u8]
        ensures { result.now ≡ engines_of self.now }
    {
        &self.engines[..self.count]
    }

    // Is the engine in the queue.
    pub fn has(&self, engine: u8) -> bool
        ensures { result ≡ is_in engine (engines_of self.now) }
    {
        engine < ENGINES && (self.set >> engine) & 1 == 1
    }

    // An engine that isn't in the queue joins it, at its end. Here and below an engine is a plain number: the calls have tested it, and a type for it would be made and opened at each.
    pub fn join(&mut self, engine: u8)
        requires known { engine < 64 }
        requires absent { is_in engine (engines_of self.old) ≡ false }
        ensures { engines_of self.new ≡ engines_of self.old ++ engine ∷ [] }
    {
        self.engines[self.count] = engine;
        self.count += 1;
        self.set |= 1 << engine;
    }

    // An engine leaves the queue, from wherever it stood.
    pub fn leave(&mut self, engine: u8)
        requires { engine < 64 }
        ensures { engines_of self.new ≡ without engine (engines_of self.old) }
    {
        // In a copy: array, count and set agree again only once all three are set.
        let mut engines = self.engines;
        self.count = close_up(&mut engines[..self.count], engine);
        self.engines = engines;
        self.set &= !(1 << engine);
    }

    // The first leaves the queue, if anybody stands in it.
    pub fn leave_first(&mut self) -> Option<u8>
        ensures first { result ≡ first_of (engines_of self.old) }
        ensures rest { engines_of self.new ≡ rest_of (engines_of self.old) }
    {
        let first = *self.engines().first()?;
        self.leave(first);
        Some(first)
    }
}
