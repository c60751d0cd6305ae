// The rings of waits in a table of engines, and who finds each.
#![tactic(auto)]

ghost use Rattle.std.specs.Prelude.{◌≡◌, map, IfOk, Some};
ghost use Rattle.std.specs.Option.{option_map};
ghost use Rattle.ring_search.specs.Exactly.{Exactly};
ghost use Rattle.ring_search.specs.Search.{wait_of, own_of, upward, best_of, ring_at, rings_below, model, text_of};

use signs::table::{ENGINES, Engines};
use std::alloc::{AllocError, Global};
use std::fmt;
use walk::{Waits, way_back};

pub mod listing;
pub mod walk;

// The engines of a ring from its lowest on, each waiting for the next and the last for the first, and the one with the highest own sign.
#[derive(Drop)]
pub struct Ring {
    pub engines: Vec<u8>,
    pub finder: u8,
}

// `ring 0 1 2: 2 finds`
impl fmt::Display for Ring {
    ghost output = { λ ring. Some (text_of (model ring)) };

    fn fmt<W: fmt::Write>(&self, f: &mut fmt::Formatter<W>) -> fmt::Result {
        write!(f, "ring")?;
        for e in &self.engines {
            write!(f, " {e}")?;
        }
        write!(f, ": {} finds", self.finder)
    }
}

fn wait_of(table: &Engines, e: u8) -> Option<u8>
    ensures { result ≡ wait_of table.now e }
{
    table.get(e).ok()?.wait
}

fn own_of(table: &Engines, e: u8) -> u64
    ensures { result ≡ own_of table.now e }
{
    table.get(e).map_or(0, |engine| engine.own)
}

// The waits of a table's engines, ended where they come to one lower than the first.
#[derive(Clone, Copy)]
struct Upward<'a> {
    table: &'a Engines,
    first: u8,
}

impl Waits for Upward<'_> {
    type Engine = u8;

    ghost whom = { λ waits at. upward (wait_of waits.table.now) waits.first at };

    fn whom(&self, at: u8) -> Option<u8> {
        let next = wait_of(self.table, at)?;
        (next >= self.first).then_some(next)
    }
}

// The first of the engines with the highest own sign.
fn highest(table: &Engines, first: u8, engines: &[u8]) -> u8
    ensures { result ≡ best_of (own_of table.now) first engines.now }
{
    engines.iter().fold(first, |best, e| {
        if own_of(table, best) < own_of(table, *e) {
            *e
        } else {
            best
        }
    })
}

// The ring of which `first` is the lowest engine.
fn ring_at(heap: Global, table: &Engines, first: u8) -> Result<Option<Ring>, AllocError>
    ensures { IfOk result (λ o. option_map model o ≡ ring_at (wait_of table.now) (own_of table.now) first) }
{
    let upward = Upward { table, first };
    let way = way_back(heap, &upward, first)?;
    Ok(way.map(|engines| Ring {
        finder: highest(table, first, &engines),
        engines,
    }))
}

// Every engine in turn: the rings of which it is the lowest.
fn search(heap: Global, table: &Engines) -> Result<Vec<Ring>, AllocError>
    ensures { IfOk result (λ v. map model v.items ≡ rings_below (wait_of table.now) (own_of table.now) 64) }
{
    let mut found = Vec::new(heap);
    // Engines are numbers, and not places of something else: each is tried, until memory runs out.
    for e in 0..ENGINES {
        found.extend(ring_at(heap, table, e)?)?;
    }
    Ok(found)
}

// Exactly the rings of the table, by their lowest engine.
pub fn rings(heap: Global, table: &Engines) -> Result<Vec<Ring>, AllocError>
    ensures { IfOk result (λ v. Exactly (wait_of table.now) (own_of table.now) (map model v.items)) }
{
    search(heap, table)
}
