// Decimal and hexadecimal digits.
ghost use Rattle.std.specs.Prelude.{◌≡◌, ◌<◌};
ghost use Rattle.lines.specs.Digits.{Below, Inside, Next, hex_digit, hex_value, next_of, number_of};

use crate::line::Number;
use words::digit;

// The number that `text` begins with: one digit, or two.
pub(crate) fn number(text: &[u8]) -> Option<Number>
    ensures value { result ≡ number_of text.now }
    ensures inside { Inside text.now result }
{
    let [first, ..] = text else {
        return None;
    };
    let first = digit(*first)?;
    match next_digit(text) {
        Some(last) => Some(Number {
            value: first * 10 + last,
            width: 2,
        }),
        None => Some(Number {
            value: first,
            width: 1,
        }),
    }
}

fn next_digit(text: &[u8]) -> Option<u8>
    ensures value { result ≡ next_of text.now }
    ensures small { Next text.now result }
{
    let [_, second, ..] = text else {
        return None;
    };
    digit(*second)
}

// These two for bytes: the library's are for characters.
pub(crate) fn hex_digit(n: u8) -> u8
    requires { n < 16 }
    ensures { result ≡ hex_digit n }
{
    if n < 10 { b'0' + n } else { b'a' - 10 + n }
}

// A hexadecimal digit, of either case.
pub(crate) fn hex_value(c: u8) -> Option<u8>
    ensures value { result ≡ hex_value c }
    ensures small { Below 16 result }
{
    match c {
        b'0'..=b'9' => Some(c - b'0'),
        b'a'..=b'f' => Some(c - b'a' + 10),
        b'A'..=b'F' => Some(c - b'A' + 10),
        0..=47 | 58..=64 | 71..=96 | 103..=255 => None,
    }
}
