// Reads a list of who waits for whom, a line `E WAITSFOR|- SHOWN OWN` for each engine, and prints each ring of waits and who finds it.
#![tactic(auto)]

use ring_search::listing::Listing;
use ring_search::rings;

fn main(rt: HostRuntime) -> anyhow::Result<()> {
    let heap = rt.alloc();
    let mut list = Listing::new();
    for (number, text) in (1u64..).zip(rt.lines(heap)) {
        if let Err(bad) = list.read(number, text?.as_str()) {
            println!(rt; "{bad}")?;
            return Ok(());
        }
    }
    for ring in &rings(heap, &list.engines())? {
        println!(rt; "{ring}")?;
    }
    Ok(())
}

#[cfg(test)]
mod tests {
    use super::*;

    // The number of the first bad line; 0 where there is none.
    fn refused(lines: &[&str]) -> u64 {
        let mut list = Listing::new();
        (1u64..)
            .zip(lines)
            .find_map(|(number, text)| list.read(number, *text).err())
            .map_or(0, |bad| bad.0)
    }

    #[test]
    fn bad_lists(rt: HostRuntime) {
        assert_eq!(rt; refused(&["0 1 4 4", "1 - 1 1"]), 0, "a good list");
        assert_eq!(rt; refused(&["0 1 4 4", "64 - 1 1"]), 2, "an unknown engine");
        assert_eq!(rt; refused(&["0 64 4 4"]), 1, "waits for an unknown engine");
        assert_eq!(rt;
            refused(&["0 1 4 4", "1 0 5 5", "0 - 4 4"]),
            3,
            "two lines for one"
        );
        assert_eq!(rt; refused(&["0 1 4 x"]), 1, "no number");
        assert_eq!(rt; refused(&["0 1 4"]), 1, "a word too few");
        assert_eq!(rt; refused(&["0 1 4 4 4"]), 1, "a word too many");
        assert_eq!(rt;
            refused(&["0 - 0 18446744073709551616"]),
            1,
            "a number past eight bytes"
        );
    }
}
