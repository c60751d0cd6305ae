// The codec for callers in C and plain Rust, under the C name `recode`.
#![tactic(auto)]

ghost use Rattle.std.specs.Prelude.{◌≡◌, ◌<◌, ◌≤◌, drop, length};
ghost use Rattle.recode.specs.Again.{Again, IsMessage};

// How many bytes of `out` are the message again, and the others are as they were; 0 where `bytes` are no message or `out` is too short.
#[unsafe(no_mangle)]
pub extern "C" fn recode(boxes: u8, engines: u8, bytes: &[u8], out: &mut [u8]) -> usize
    ensures again { Again bytes.now out.new result }
    ensures only { 0 < result → IsMessage boxes engines bytes.now }
    ensures whole { IsMessage boxes engines bytes.now → length bytes.now ≤ length out.old → result ≡ length bytes.now }
    ensures rest { drop result out.new ≡ drop result out.old }
{
    recode::recode(boxes, engines, bytes, out).unwrap_or(0)
}
