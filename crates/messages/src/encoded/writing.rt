// Writing bytes one field after another, high byte first.
ghost use Rattle.std.specs.Prelude.{◌≡◌, MatchOption, ◌+◌, ◌<◌, ◌≤◌, [], ◌∷◌, ◌++◌};
ghost use Rattle.messages.specs.Written.{encoded};
ghost use Rattle.messages.specs.Table.{call_bytes, eight, four, two};

use crate::encoded::Bytes;
use crate::message::Call;
use crate::yard::Section;

impl<const N: usize> Bytes<N> {
    pub fn as_slice(&self) -> &[u8]
        ensures { result.now ≡ encoded self.now }
    {
        &self.bytes[..self.used]
    }

    pub fn empty() -> Self
        ensures bytes { encoded result ≡ [] }
        ensures used { result.used ≡ 0 }
    {
        Bytes {
            bytes: [0; N],
            used: 0,
        }
    }

    // The bytes with one more; none where there is no room for it.
    pub fn push(self, b: u8) -> Option<Self>
        ensures { MatchOption result (self.entry.used ≡ N) (λ more. (encoded more ≡ encoded self.entry ++ (b ∷ [])) × (more.used ≡ self.entry.used + 1)) }
    {
        if self.used == N {
            return None;
        }
        Some(self.byte(b))
    }

    // One byte more, in place: where many are written, the array isn't handed on whole for each. None, and nothing changes, where there is no room for it.
    pub fn add(&mut self, b: u8) -> Option<()>
        ensures { MatchOption result ((self.old.used ≡ N) × (self.new ≡ self.old)) (λ _. (encoded self.new ≡ encoded self.old ++ (b ∷ [])) × (self.new.used ≡ self.old.used + 1)) }
    {
        let at = self.used;
        if at >= N {
            return None;
        }
        self.bytes[at] = b;
        self.used = at + 1;
        Some(())
    }

    // This and those below ask for the room of what they write, each its own.
    pub(crate) fn byte(mut self, b: u8) -> Self
        requires { self.used < N }
        ensures bytes { encoded result ≡ encoded self.entry ++ (b ∷ []) }
        ensures used { result.used ≡ self.entry.used + 1 }
    {
        self.bytes[self.used] = b;
        self.used += 1;
        self
    }

    pub(crate) fn section(self, section: Section) -> Self
        requires { self.used + 2 ≤ N }
        ensures bytes { encoded result ≡ encoded self.entry ++ two section }
        ensures used { result.used ≡ self.entry.used + 2 }
    {
        self.byte(section.keeper.0).byte(section.place)
    }

    pub(crate) fn four(self, n: u32) -> Self
        requires { self.used + 4 ≤ N }
        ensures bytes { encoded result ≡ encoded self.entry ++ four n }
        ensures used { result.used ≡ self.entry.used + 4 }
    {
        let [a, b, c, d] = n.to_be_bytes();
        self.byte(a).byte(b).byte(c).byte(d)
    }

    pub(crate) fn eight(self, n: u64) -> Self
        requires { self.used + 8 ≤ N }
        ensures bytes { encoded result ≡ encoded self.entry ++ eight n }
        ensures used { result.used ≡ self.entry.used + 8 }
    {
        let [a, b, c, d, e, f, g, h] = n.to_be_bytes();
        self.byte(a)
            .byte(b)
            .byte(c)
            .byte(d)
            .byte(e)
            .byte(f)
            .byte(g)
            .byte(h)
    }

    pub(crate) fn call(self, call: Call) -> Self
        requires { self.used + 8 ≤ N }
        ensures bytes { encoded result ≡ encoded self.entry ++ call_bytes call }
        ensures used { result.used ≡ self.entry.used + 8 }
    {
        self.byte(u8::from(call.act))
            .byte(call.engine.0)
            .section(call.section)
            .four(call.number)
    }
}
