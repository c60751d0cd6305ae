// Boxes, their files and all messages ever sent, as steps from nothing on lead to them: no other value of this type can be made.
ghost use Rattle.world.specs.Runs.{Reached};
ghost use Rattle.world.specs.World.{world_of};

mod playing;

use world::World;

#[derive(Drop)]
pub struct Port {
    world: World,
    ghost reached: { ∥ Reached (world_of world) ∥₁ },
}
