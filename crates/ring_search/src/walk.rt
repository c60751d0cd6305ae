// Along waits from an engine until they come back to it, whatever tells who waits for whom.
ghost use Rattle.std.specs.Prelude.{◌≡◌, ℕ, [], Option, IfOk, vec_items};
ghost use Rattle.std.specs.Option.{option_map};
ghost use Rattle.ring_search.specs.Chase.{chase};

use signs::table::ENGINES;
use std::alloc::{AllocError, Global};

// Who waits for whom.
pub trait Waits {
    type Engine: Copy + PartialEq;

    ghost whom: { Self → Self.Engine → Option Self.Engine };

    // For whom the engine waits, if it waits.
    fn whom(&self, engine: Self::Engine) -> Option<Self::Engine>
        ensures { result ≡ whom self.now engine };
}

// The engines on the way from `first` along waits until they come back to it. None where they end, or come round elsewhere.
#[tactic(auto, using(crate::proofs::Chase::chase_start))]
pub fn way_back<W: Waits>(
    heap: Global,
    waits: &W,
    first: W::Engine,
) -> Result<Option<Vec<W::Engine>>, AllocError>
    ensures { IfOk result (λ o. option_map vec_items o ≡ chase W.Engine.eq (W.whom waits.now) first 64 first []) }
{
    let mut way = Vec::new(heap);
    let mut at = first;
    // A loop along waits with a falling count, left when they come back: a rule of the project.
    for _left in (0..ENGINES).rev() {
        way.push(at)?;
        match waits.whom(at) {
            None => return Ok(None),
            Some(next) if next == first => return Ok(Some(way)),
            Some(next) => at = next,
        }
    }
    Ok(None)
}

#[cfg(test)]
mod tests {
    use super::*;
    use crate::Upward;
    use signs::Engine;
    use signs::table::Engines;

    // 0 waits for 1, 1 for 2, 2 for 0, and 3 for 0.
    #[test]
    fn a_way_comes_back_or_not(rt: HostRuntime) {
        let mut table = Engines::new();
        for (at, whom) in [(0u8, 1u8), (1, 2), (2, 0), (3, 0)] {
            let waits = Engine {
                wait: Some(whom),
                count: 1,
                shown: 5,
                own: 5,
            };
            assert!(rt; table.put(at, waits).is_ok(), "it is one of sixty-four");
        }
        let waits = Upward {
            table: &table,
            first: 0,
        };
        let back =
            matches!(way_back(rt.alloc(), &waits, 0), Ok(Some(way)) if way.as_slice() == [0, 1, 2].as_slice());
        assert!(rt; back, "there is memory for three engines");
        assert!(rt;
            matches!(way_back(rt.alloc(), &waits, 3), Ok(None)),
            "who waits for a ring stands in none"
        );
    }
}
