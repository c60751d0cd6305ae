// Reads rows of numbers, a yard's boxes and engines and then bytes, and says what the bytes are, whole and cut at every byte.
#![tactic(auto)]

ghost use Rattle.std.specs.Prelude.{◌≤◌, length};

use anyhow::anyhow;
use messages::{First, Yard, decode, encode, encode_record, first_record};
use std::alloc::Global;

fn numbers(heap: Global, text: &str) -> anyhow::Result<Vec<u8>> {
    let mut row = Vec::new(heap);
    for word in text.split_whitespace() {
        row.push(word.parse::<u8>()?)?;
    }
    Ok(row)
}

// How many proper first parts of `bytes` pass a test.
fn cuts<F: Fn(&[u8]) -> bool>(bytes: &[u8], test: F) -> usize
    requires { F.IsAlwaysCallable test }
    ensures { result ≤ length bytes.now }
{
    (0..bytes.len()).filter(|cut| test(&bytes[..*cut])).count()
}

fn say_message(rt: &HostRuntime, yard: Yard, bytes: &[u8]) -> anyhow::Result<()> {
    match decode(yard, bytes) {
        Ok(message) => {
            let again = encode(message);
            let same = again.as_slice() == bytes;
            let refused = cuts(bytes, |front| decode(yard, front).is_err());
            println!(rt; "message: the same again {same}, cuts refused {refused}")?;
        }
        Err(refusal) => {
            let number = refusal.number();
            println!(rt; "message: refused {number}")?;
        }
    }
    Ok(())
}

fn say_record(rt: &HostRuntime, yard: Yard, bytes: &[u8]) -> anyhow::Result<()> {
    match first_record(yard, bytes) {
        First::Whole {
            record,
            length: taken,
        } => {
            let again = encode_record(record);
            let same = again.as_slice() == bytes;
            let short = cuts(bytes, |front| first_record(yard, front) == First::Cut);
            println!(rt; "record: of {taken} bytes, the same again {same}, cuts short {short}")?;
        }
        First::Cut => println!(rt; "record: cut")?,
        First::Damaged => println!(rt; "record: damaged")?,
    }
    Ok(())
}

fn say(rt: &HostRuntime, row: &[u8]) -> anyhow::Result<()> {
    let [boxes, engines, bytes @ ..] = row else {
        return Err(anyhow!("a row has a yard first"));
    };
    match Yard::new(*boxes, *engines) {
        Some(yard) => {
            say_message(rt, yard, bytes)?;
            say_record(rt, yard, bytes)
        }
        None => {
            println!(rt; "no yard")?;
            Ok(())
        }
    }
}

fn run(rt: &HostRuntime) -> anyhow::Result<()> {
    for line in rt.lines(rt.alloc()) {
        let line = line?;
        let row = numbers(rt.alloc(), line.as_str())?;
        say(rt, row.as_slice())?;
    }
    Ok(())
}

fn main(rt: HostRuntime) -> anyhow::Result<()> {
    run(&rt)
}
