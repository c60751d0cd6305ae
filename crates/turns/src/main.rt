// One message, handled again and again by a full box: for counting instructions.
// Each line of the input is a kind of message and how often it is handled.
#![tactic(auto)]

mod full;
mod kind;

use anyhow::{Context, Result, anyhow};
use full::{Count, Full};
use kind::Kind;
use std::io::{BufRead, BufReader};

const USAGE: &str =
    "a line is KIND TIMES; KIND is call, repeat, which, change, waits, heard or second";

// What a line asks for.
fn task(line: &str) -> Option<(Kind, u32)> {
    let (word, number) = line.split_once(' ')?;
    Some((word.parse().ok()?, number.parse().ok()?))
}

fn main(rt: HostRuntime) -> Result<()> {
    let heap = rt.alloc();
    for line in BufReader::new(heap, rt.stdin())?.lines(heap) {
        let (kind, times) = task(line?.as_str()).context(USAGE)?;
        let mut full = Full::new(heap).map_err(|_| anyhow!("the box can't be filled"))?;
        let Count { records, said } = full
            .turns(kind, times)
            .map_err(|_| anyhow!("a turn failed"))?;
        println!(rt; "{records} records, {said} said")?;
    }
    Ok(())
}
