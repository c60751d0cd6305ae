// Input that has come, and the line at its end that isn't whole yet.
ghost use Rattle.std.specs.Prelude.{◌≡◌, ℕ, ◌-◌, ◌<◌, ◌≤◌, length, ◌≢◌, slice_index};
ghost use Rattle.box_run.specs.Lines.{CutAtANewline};

// How many bytes the whole lines of a text take: up to its last newline.
pub fn whole_lines(text: &[u8]) -> usize
    ensures within { result ≤ length text.now }
    ensures ended { 0 < result → slice_index text.now (result - 1) ≡ 10 }
    ensures after { (k : ℕ) → result ≤ k → k < length text.now → slice_index text.now k ≢ 10 }
{
    match text.iter().rposition(|byte| *byte == b'\n') {
        Some(last) => last + 1,
        None => 0,
    }
}

// A text that is cut behind a newline has the same lines.
pub fn cut_at_a_newline()
    ensures { CutAtANewline }
{}
