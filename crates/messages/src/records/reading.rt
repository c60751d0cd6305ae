// From bytes to records, and back.
ghost use Rattle.std.specs.Prelude.{◌≡◌};
ghost use Rattle.messages.specs.Journal.{FirstIs, ReadIs, beginning_of, heard_of, record_of, size_of};
ghost use Rattle.messages.specs.Table.{record_bytes};
ghost use Rattle.messages.specs.Written.{encoded};

use crate::decoder::{eight_at, four_at, whole_call};
use crate::encoded::Encoded;
use crate::message::{Record, Waits};
use crate::records::{First, Replay, Unread};
use crate::yard::Yard;
use std::alloc::Global;

pub fn encode_record(record: Record) -> Encoded
    ensures { encoded result ≡ record_bytes «record» }
{
    let out = Encoded::empty();
    match record {
        Record::Kept(call) => out.call(call),
        Record::Made(call) => out.byte(10).call(call),
        Record::Beginning { holder, waits, own } => {
            out.byte(8)
                .byte(waits.engine.0)
                .section(waits.section)
                .four(waits.change)
                .byte(holder.0)
                .four(waits.count)
                .eight(own)
        }
        Record::Heard { engine, sign } => out.byte(9).byte(engine.0).eight(sign),
    }
}

// What stands first in `bytes`.
pub fn first_record(yard: Yard, bytes: &[u8]) -> First
    ensures { FirstIs yard bytes.now result }
{
    let [first, ..] = bytes else {
        return First::Cut;
    };
    let Some(length) = size_of(*first) else {
        return First::Damaged;
    };
    if bytes.len() < length {
        return First::Cut;
    }
    match whole_record(yard, &bytes[..length]) {
        Some(record) => First::Whole { record, length },
        None => First::Damaged,
    }
}

// The records of `bytes` up to one that is cut; none where it is damaged.
pub fn read_records(heap: Global, yard: Yard, bytes: &[u8]) -> Result<Replay, Unread>
    ensures { ReadIs yard bytes.now result }
{
    let mut records = Vec::new(heap);
    let mut length = 0usize;
    // Each record says where the next begins, so no iterator of the library goes over them.
    loop {
        match first_record(yard, &bytes[length..]) {
            First::Whole {
                record,
                length: more,
            } => {
                records.push(record)?;
                length += more;
            }
            First::Cut => return Ok(Replay { records, length }),
            First::Damaged => return Err(Unread::Damaged { at: length }),
        }
    }
}

fn whole_record(yard: Yard, bytes: &[u8]) -> Option<Record>
    ensures { result ≡ record_of yard bytes.now }
{
    let [first, rest @ ..] = bytes else {
        return None;
    };
    match *first {
        8 => beginning(yard, rest),
        9 => heard(yard, rest),
        10 => whole_call(yard, rest).map(Record::Made),
        1..=3 => whole_call(yard, bytes).map(Record::Kept),
        0 | 4..=7 | 11..=255 => None,
    }
}

fn beginning(yard: Yard, rest: &[u8]) -> Option<Record>
    ensures { result ≡ beginning_of yard rest.now }
{
    let rest = rest.as_array::<20>()?;
    let engine = yard.engine(rest[0])?;
    let section = yard.section(rest[1], rest[2])?;
    let holder = yard.engine(rest[7])?;
    let change = four_at(rest, 3);
    let count = four_at(rest, 8);
    let own = eight_at(rest, 12);
    let waits = Waits {
        engine,
        section,
        count,
        change,
    };
    Some(Record::Beginning { holder, waits, own })
}

fn heard(yard: Yard, rest: &[u8]) -> Option<Record>
    ensures { result ≡ heard_of yard rest.now }
{
    let [engine, _, _, _, _, _, _, _, _] = rest else {
        return None;
    };
    let engine = yard.engine(*engine)?;
    let sign = eight_at(rest, 1);
    Some(Record::Heard { engine, sign })
}

// How long the record is that begins with `first`.
fn size_of(first: u8) -> Option<usize>
    ensures { result ≡ size_of first }
{
    match first {
        1..=3 => Some(8),
        8 => Some(21),
        9 => Some(10),
        10 => Some(9),
        0 | 4..=7 | 11..=255 => None,
    }
}
