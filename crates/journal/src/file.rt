// A file that is appended to, synced, read whole and cut back: all that a journal needs of one.
ghost use Rattle.std.specs.Prelude.{◌≡◌, ℕ, ◌≤◌, min, List, ◌++◌, length, take, IfOk, MatchResult, OnOk};
ghost use Rattle.journal.specs.Storage.{Remains};

use crate::fault::Fault;
use std::alloc::Global;

// Each promise begins with what the file holds, so that one of which nothing is known can be a file too.
pub trait File {
    // It holds these bytes, and so many of the first of them are synced.
    ghost holds: { Self → List ℕ → ℕ → Type 0 };

    // A sync succeeded after the last append or cut.
    ghost settled: { Self → Type 0 };

    fn append(&mut self, bytes: &[u8]) -> Result<(), Fault>
        ensures { (xs : List ℕ) (n : ℕ) → holds self.old xs n → MatchResult result (λ _. holds self.new (xs ++ bytes.now) n) (λ _. Remains (holds self.new) (xs ++ bytes.now) n) };

    fn sync(&mut self) -> Result<(), Fault>
        ensures held { (xs : List ℕ) (n : ℕ) → holds self.old xs n → MatchResult result (λ _. holds self.new xs (length xs)) (λ _. Remains (holds self.new) xs n) }
        ensures settles { OnOk result (settled self.new) };

    fn read_all(&mut self, heap: Global) -> Result<Vec<u8>, Fault>
        ensures held { (xs : List ℕ) (n : ℕ) → holds self.old xs n → holds self.new xs n × IfOk result (λ v. v.items ≡ xs) };

    // Only the first `kept` bytes are left.
    fn cut(&mut self, kept: usize) -> Result<(), Fault>
        ensures { (xs : List ℕ) (n : ℕ) → holds self.old xs n → kept ≤ length xs → MatchResult result (λ _. holds self.new (take kept xs) (min n kept)) (λ _. Remains (holds self.new) xs (min n kept)) };

    ghost within: { (f : Self) (xs : List ℕ) (n : ℕ) → holds f xs n → n ≤ length xs };

    ghost all: { (f : Self) (xs : List ℕ) (n : ℕ) → settled f → holds f xs n → n ≡ length xs };
}
