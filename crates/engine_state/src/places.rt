// A set of track sections: for each box the set of its places, a bit for each.
ghost use Rattle.std.specs.Prelude.{◌≡◌};
ghost use Rattle.engine_state.specs.Places.{fits, has_of, with_of, without_of, empty_of, no_place};

use messages::{MOST_BOXES, PLACES, Section};

// Is it a section that a yard can have.
fn is_real(section: Section) -> bool
    ensures { result ≡ fits section }
{
    section.keeper.0 < MOST_BOXES && section.place < PLACES
}

#[derive(Clone, Copy)]
pub struct Places {
    words: [u64; 16],
}

impl Places {
    pub fn new() -> Places
        ensures { result ≡ no_place }
    {
        Places { words: [0; 16] }
    }

    pub fn has(&self, section: Section) -> bool
        ensures { result ≡ has_of self.now section }
    {
        is_real(section) && (self.words[usize::from(section.keeper.0)] >> section.place) % 2 == 1
    }

    // The set with a section, if a yard can have it.
    pub fn with(mut self, section: Section) -> Places
        ensures { result ≡ with_of self section }
    {
        if is_real(section) {
            self.words[usize::from(section.keeper.0)] |= 1 << section.place;
        }
        self
    }

    #[tactic(auto, using(crate::proofs::Bits::clears))]
    pub fn without(mut self, section: Section) -> Places
        ensures { result ≡ without_of self section }
    {
        if is_real(section) {
            let word = &mut self.words[usize::from(section.keeper.0)];
            *word &= !(1 << section.place);
        }
        self
    }

    pub fn is_empty(&self) -> bool
        ensures { result ≡ empty_of self.now }
    {
        self.words.iter().all(|word| *word == 0)
    }
}
