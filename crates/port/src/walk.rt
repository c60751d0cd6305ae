// Along waits from an engine, by the queues of all boxes, until they come back to it.
ghost use Rattle.std.specs.Prelude.{◌≡◌, IfOk, vec_items};
ghost use Rattle.std.specs.Option.{option_map};
ghost use Rattle.keeper.specs.Model.{model_of};
ghost use Rattle.sections.specs.Table.{is_in, queue_at};
ghost use Rattle.world.specs.World.{state_at, world_of};
ghost use Rattle.port.specs.Walk.{after_of, ring_from, whom_at, whom_by, whom_in, whom_of};

use keeper::Keeper;
use messages::{BoxNumber, Engine, PLACES};
use ring_search::walk::{Waits, way_back};
use std::alloc::{AllocError, Global};
use world::World;

// Does an engine stand in the queue of the section at a place.
fn stands(keeper: &Keeper, engine: Engine, place: u8) -> bool
    ensures { result ≡ is_in engine.0 (queue_at (model_of keeper.now).table place) }
{
    keeper.waiters(place).contains(&engine.0)
}

// Who has the section at a place, if the engine stands in its queue. None: it stands in no queue here; Some(None): in one of a section that nobody has.
fn whom_at(keeper: &Keeper, engine: Engine, place: u8) -> Option<Option<Engine>>
    ensures { result ≡ whom_at (model_of keeper.now).table engine.0 place }
{
    stands(keeper, engine, place).then(|| keeper.holder(place))
}

// Whom an engine waits for by one box's sections.
fn whom_in(keeper: &Keeper, engine: Engine) -> Option<Option<Engine>>
    ensures { result ≡ whom_in (model_of keeper.now).table engine.0 }
{
    (0..PLACES).find_map(|place| whom_at(keeper, engine, place))
}

fn whom_by(world: &World, engine: Engine, number: BoxNumber) -> Option<Option<Engine>>
    ensures { result ≡ whom_by engine.0 (state_at (world_of world.now) number) }
{
    whom_in(world.signal_box(number)?.keeper(), engine)
}

// Whom an engine waits for by the sections of all boxes.
fn whom(world: &World, engine: Engine) -> Option<Option<Engine>>
    ensures { result ≡ whom_of (world_of world.now) engine }
{
    (0..world.yard().boxes).find_map(|number| whom_by(world, engine, BoxNumber(number)))
}

// Who waits for whom by the queues of all boxes.
#[derive(Clone, Copy)]
struct Queued<'a> {
    world: &'a World,
}

impl Waits for Queued<'_> {
    type Engine = Engine;

    ghost whom = { λ queued engine. after_of (whom_of (world_of queued.world.now) engine) };

    fn whom(&self, engine: Engine) -> Option<Engine> {
        whom(self.world, engine)?
    }
}

// The ring that an engine stands in, from it on. None where its waits don't come back to it.
pub(crate) fn ring_from(
    world: &World,
    engine: Engine,
    heap: Global,
) -> Result<Option<Vec<Engine>>, AllocError>
    ensures { IfOk result (λ o. option_map vec_items o ≡ ring_from (world_of world.now) engine) }
{
    way_back(heap, &Queued { world }, engine)
}
