// The numbers that name things in a yard, and how many of each there are.
ghost use Rattle.std.specs.Prelude.{◌≤◌};

pub mod checks;

// An engine's number, from 0 on.
#[derive(Clone, Copy, PartialEq, Eq)]
pub struct Engine(pub u8);

// A signal box's number, from 0 on.
#[derive(Clone, Copy, PartialEq, Eq)]
pub struct BoxNumber(pub u8);

// A track section: the box that keeps it, and its place there.
#[derive(Clone, Copy, PartialEq, Eq)]
pub struct Section {
    pub keeper: BoxNumber,
    pub place: u8,
}

pub const MOST_BOXES: u8 = 16;

pub const MOST_ENGINES: u8 = 64;

pub const PLACES: u8 = 64;

// The byte of nobody, where an engine's number could stand.
pub const NOBODY: u8 = 255;

// How many boxes and engines there are: what is in range is decided by it alone.
#[derive(Clone, Copy)]
pub struct Yard {
    pub boxes: u8,
    pub engines: u8,
    ghost sizes: { (1 ≤ boxes) × (boxes ≤ 16) × (1 ≤ engines) × (engines ≤ 64) },
}
