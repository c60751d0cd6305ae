// Bytes in place: no memory is asked for.
ghost use Rattle.std.specs.Prelude.{◌≤◌};

pub mod writing;

// The longest message or record is a beginning to wait.
pub const LONGEST: usize = 21;

// At most `N` bytes, in an array of its own: a box asks for no memory but for its files and its lines.
#[derive(Clone, Copy)]
pub struct Bytes<const N: usize> {
    bytes: [u8; N],
    used: usize,
    ghost fits: { used ≤ N },
}

// The bytes of one message or record.
pub type Encoded = Bytes<LONGEST>;
