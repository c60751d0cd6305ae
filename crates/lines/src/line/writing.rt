// From bytes to a line.
ghost use Rattle.std.specs.Prelude.{◌≡◌, IsSomeAnd, ◌+◌, ◌*◌, ◌≤◌, ◌++◌, length};
ghost use Rattle.lines.specs.Digits.{decimal, hex_of};
ghost use Rattle.lines.specs.Lines.{written};
ghost use Rattle.lines.specs.Written.{bytes_of, held};

use crate::line::Buffer;
use crate::line::digits::hex_digit;
use messages::BoxNumber;

// The line that sends `message` to a box: its number, a blank, and the bytes in hexadecimal.
pub fn write(to: BoxNumber, message: &[u8]) -> Option<Buffer>
    ensures { held result ≡ written to message.now }
{
    if to.0 > 99 || message.len() > 21 {
        return None;
    }
    let out = decimal(Buffer::empty(), to.0)?.push(b' ')?;
    hex(out, message)
}

// By hand: `write!` asks for a writer, and these are bytes in place.
fn decimal(out: Buffer, n: u8) -> Option<Buffer>
    requires { (n ≤ 99) × (out.used + 2 ≤ 45) }
    ensures { IsSomeAnd result (λ more. (bytes_of more ≡ bytes_of out ++ decimal n) × (more.used ≤ out.used + 2)) }
{
    if n < 10 {
        out.push(b'0' + n)
    } else {
        out.push(b'0' + n / 10)?.push(b'0' + n % 10)
    }
}

fn hex(mut out: Buffer, message: &[u8]) -> Option<Buffer>
    requires { out.used + 2 * length message.now ≤ 45 }
    ensures { IsSomeAnd result (λ more. bytes_of more ≡ bytes_of out ++ hex_of message.now) }
{
    for b in message {
        out.add(hex_digit(*b / 16))?;
        out.add(hex_digit(*b % 16))?;
    }
    Some(out)
}
