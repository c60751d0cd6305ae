// The table of a yard's sixty-four engines, changed at one engine at a time.
ghost use Rattle.std.specs.Prelude.{◌≡◌, if◌then◌else◌, nat_lt};
ghost use Rattle.std.specs.List.{range_with_len};
ghost use Rattle.signs.specs.Table.{fresh_of, get_of, put_of, FreshSigns, PutOne};

use super::{Engine, Refusal};

// How many engines a yard has at most: this crate's own constant, since it leans on no other.
pub const ENGINES: u8 = 64;

// Four arrays of sixty-four side by side: a rule of the project, so that a box is fixed arrays of plain numbers.
#[derive(Clone, Copy)]
pub struct Engines {
    waits: [Option<u8>; 64],
    counts: [u32; 64],
    shown: [u64; 64],
    own: [u64; 64],
}

// Where the engine stands in each array.
fn place(e: u8) -> Result<usize, Refusal>
    ensures { result ≡ (if nat_lt e 64 then Ok e else Err Refusal.OutOfRange) }
{
    if e < ENGINES {
        Ok(e as usize)
    } else {
        Err(Refusal::OutOfRange)
    }
}

// The first sign of every engine: its number.
fn numbers() -> [u64; 64]
    ensures { result ≡ range_with_len 0 64 }
{
    std::array::from_fn(|e| e as u64)
}

impl Engines {
    // Nobody waits, and every engine shows its number.
    pub fn new() -> Engines
        ensures { result ≡ fresh_of }
    {
        let signs = numbers();
        Engines {
            waits: [None; 64],
            counts: [0; 64],
            shown: signs,
            own: signs,
        }
    }

    pub fn get(&self, e: u8) -> Result<Engine, Refusal>
        ensures { result ≡ get_of self.now e }
    {
        let i = place(e)?;
        Ok(Engine {
            wait: self.waits[i],
            count: self.counts[i],
            shown: self.shown[i],
            own: self.own[i],
        })
    }

    // The engine `e` is now `engine`, and all others are as they were.
    pub fn put(&mut self, e: u8, engine: Engine) -> Result<(), Refusal>
        ensures value { (self.new, result) ≡ put_of self.old e engine }
        ensures others { PutOne }
    {
        let i = place(e)?;
        self.waits[i] = engine.wait;
        self.counts[i] = engine.count;
        self.shown[i] = engine.shown;
        self.own[i] = engine.own;
        Ok(())
    }
}

// A fresh table has at each place an engine that waits for nobody and shows its number.
pub fn fresh_signs()
    ensures { FreshSigns }
{}
