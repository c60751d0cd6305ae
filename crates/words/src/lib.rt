// Readers of words and numbers, from a text's bytes.
#![tactic(auto)]

ghost use Rattle.std.specs.Prelude.{◌≡◌};
ghost use Rattle.std.specs.Option.{option_map};
ghost use Rattle.words.specs.Words.{after_of, digit_of, longer_of, number_of, split_once, short_number, small_number};

// What stands behind a word that a text begins with.
pub fn after<'a>(text: &'a [u8], word: &[u8]) -> Option<&'a [u8]>
    ensures { option_map (λ rest. rest.now) result ≡ after_of word.now text.now }
{
    text.strip_prefix(word)
}

// What stands before and behind the first byte of a text that is `between`.
pub fn split_once(text: &[u8], between: u8) -> Option<(&[u8], &[u8])>
    ensures { option_map (λ both. (both.0.now, both.1.now)) result ≡ split_once between text.now }
{
    let place = text.iter().position(|byte| *byte == between)?;
    Some((&text[..place], &text[place + 1..]))
}

// A decimal digit's value.
pub fn digit(byte: u8) -> Option<u8>
    ensures { result ≡ digit_of byte }
{
    byte.is_ascii_digit().then(|| byte - b'0')
}

// A number of one or two digits.
pub fn short_number(text: &[u8]) -> Option<u8>
    ensures { result ≡ short_number text.now }
{
    match text {
        [ones] => digit(*ones),
        [tens, ones] => Some(digit(*tens)? * 10 + digit(*ones)?),
        _ => None,
    }
}

// A number with one more digit, if it is one and the number isn't too large.
fn longer(value: u32, byte: u8) -> Option<u32>
    ensures { result ≡ longer_of value byte }
{
    value.checked_mul(10)?.checked_add(u32::from(digit(byte)?))
}

// A number: digits, and nothing else.
pub fn number(text: &[u8]) -> Option<u32>
    ensures { result ≡ number_of text.now }
{
    if text.is_empty() {
        return None;
    }
    let mut value = 0;
    for byte in text {
        value = longer(value, *byte)?;
    }
    Some(value)
}

// A number of one byte.
pub fn small_number(text: &[u8]) -> Option<u8>
    ensures { result ≡ small_number text.now }
{
    u8::try_from(number(text)?).ok()
}
