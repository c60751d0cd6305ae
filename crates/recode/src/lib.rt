// One message, read and written again; `recode_c` hands it to callers in C and plain Rust.
#![tactic(auto)]

ghost use Rattle.std.specs.Prelude.{◌≡◌, ◌≤◌, IfSome, IsSome, MatchOption, drop, length, take};
ghost use Rattle.recode.specs.Again.{IsMessage};

use messages::{Encoded, Yard, decode, encode_into};

// How many bytes of `out` are the message again, and the others are as they were; `None` where `bytes` are no message or `out` is too short.
pub fn recode(boxes: u8, engines: u8, bytes: &[u8], out: &mut [u8]) -> Option<usize>
    ensures again { IfSome result (λ n. (n ≡ length bytes.now) × (take n out.new ≡ bytes.now)) }
    ensures only { IsSome result → IsMessage boxes engines bytes.now }
    ensures whole { IsMessage boxes engines bytes.now → length bytes.now ≤ length out.old → result ≡ Some (length bytes.now) }
    ensures rest { MatchOption result (out.new ≡ out.old) (λ n. drop n out.new ≡ drop n out.old) }
{
    let yard = Yard::new(boxes, engines)?;
    // Not `.ok()?`, which forgets what is known of a message that was read.
    let Ok(message) = decode(yard, bytes) else {
        return None;
    };
    let mut encoded = Encoded::empty();
    encode_into(message, &mut encoded);
    let written = encoded.as_slice();
    if out.len() < written.len() {
        return None;
    }
    out[..written.len()].copy_from_slice(written);
    Some(written.len())
}
