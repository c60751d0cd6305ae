// The steps of boxes that run together, with the promises of each.
ghost use Rattle.std.specs.Prelude.{◌≡◌, IfOk, vec_items};
ghost use Rattle.std.specs.Option.{option_map};
ghost use Rattle.port.specs.Promise.{Promised};
ghost use Rattle.port.specs.Walk.{ring_from};
ghost use Rattle.world.specs.World.{Makes, answer_of, empty, world_of};

use crate::port::Port;
use crate::walk::ring_from;
use journal::OpenFault;
use messages::{Engine, Yard};
use std::alloc::{AllocError, Global};
use world::{Outcome, Step, World};

impl Port {
    // Boxes of which there is no record yet.
    pub fn new(yard: Yard, heap: Global) -> Result<Port, AllocError>
        ensures { IfOk result (λ p. world_of p.world ≡ empty yard) }
    {
        let world = World::new(yard, heap)?;
        Ok(Port { world })
    }

    // The boxes, their files and messages.
    pub fn world(&self) -> &World
        ensures { result.now ≡ self.now.world }
    {
        &self.world
    }

    // The ring that an engine stands in, from it on, each waiting for the next and the last for it. None where it stands in none.
    pub fn ring(&self, engine: Engine, heap: Global) -> Result<Option<Vec<Engine>>, AllocError>
        ensures { IfOk result (λ o. option_map vec_items o ≡ ring_from (world_of self.now.world) engine) }
    {
        ring_from(&self.world, engine, heap)
    }

    // One step. Where memory or a file fails, nothing is left to go on with.
    pub fn play(self, step: Step) -> Result<(Port, Outcome), OpenFault>
        ensures step { IfOk result (λ p. Makes (world_of self.world) step (world_of p.0.world, answer_of p.1)) }
        ensures promised { IfOk result (λ p. ∥ Promised (world_of self.world) (world_of p.0.world) (answer_of p.1) ∥₁) }
    {
        let mut world = self.world;
        let outcome = world.play(step)?;
        Ok((Port { world }, outcome))
    }
}
