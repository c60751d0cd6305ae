// A list of who waits for whom, as written down by hand: a line for each engine, with its number, the engine it waits for or `-`, the sign shown and its own sign.
ghost use Rattle.std.specs.Prelude.{◌≡◌, IfErr};
ghost use Rattle.ring_search.specs.Listing.{empty_of, add_of};

use signs::Engine;
use signs::table::{ENGINES, Engines};
use thiserror::Error;

// A line's words.
#[derive(Clone, Copy, PartialEq, Eq, Debug)]
pub struct Entry {
    pub engine: u8,
    pub wait: Option<u8>,
    pub shown: u64,
    pub own: u64,
}

// A line that is refused, by its number.
#[derive(Clone, Copy, PartialEq, Eq, Debug, Error)]
#[error("refused line {0}")]
pub struct BadLine(pub u64);

// The engines as listed; one that has no line waits for nobody.
#[derive(Clone, Copy)]
pub struct Listing {
    engines: Engines,
    // Which engines have a line. It stands beside the table, since that has an engine at each place, with a line or without.
    read: [bool; 64],
}

impl Listing {
    // No line is read yet.
    pub fn new() -> Listing
        ensures { result ≡ empty_of }
    {
        Listing {
            engines: Engines::new(),
            read: [false; 64],
        }
    }

    pub fn engines(&self) -> Engines
        ensures { result ≡ self.now.engines }
    {
        self.engines
    }

    // One line more. Refused by its number, changing nothing, where an engine is not below 64 or has a line already.
    pub fn add(&mut self, line: u64, entry: Entry) -> Result<(), BadLine>
        ensures { (self.new, result) ≡ add_of self.old line entry }
    {
        if entry.engine >= ENGINES || entry.wait.is_some_and(|whom| whom >= ENGINES) {
            return Err(BadLine(line));
        }
        let i = entry.engine as usize;
        if self.read[i] {
            return Err(BadLine(line));
        }
        let engine = Engine {
            wait: entry.wait,
            count: 0,
            shown: entry.shown,
            own: entry.own,
        };
        self.engines
            .put(entry.engine, engine)
            .map_err(|_| BadLine(line))?;
        self.read[i] = true;
        Ok(())
    }

    // One line of text more. Refused by its number, changing nothing, where it is no such line.
    pub fn read(&mut self, line: u64, text: &str) -> Result<(), BadLine>
        ensures { IfErr result (λ bad. (bad.0 ≡ line) × (self.new ≡ self.old)) }
    {
        let entry = read_entry(text).ok_or(BadLine(line))?;
        self.add(line, entry)
    }
}

// The four words of a line, one blank between them.
fn read_entry(text: &str) -> Option<Entry> {
    let (engine, rest) = text.split_once(' ')?;
    let (wait, rest) = rest.split_once(' ')?;
    let (shown, own) = rest.split_once(' ')?;
    let wait = if wait == "-" {
        None
    } else {
        Some(wait.parse().ok()?)
    };
    Some(Entry {
        engine: engine.parse().ok()?,
        wait,
        shown: shown.parse().ok()?,
        own: own.parse().ok()?,
    })
}
