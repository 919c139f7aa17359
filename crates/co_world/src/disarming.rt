//! Armed stops are taken away.
ghost use Rattle.std.specs.Prelude.{◌≡◌, length};
ghost use Rattle.co_outside.specs.Home.{HomeView};
ghost use Rattle.co_plain.specs.Federation.{Federation};
ghost use Rattle.co_plain.specs.Step.{disarmed};
ghost use Rattle.co_world.specs.Pins.{PinsStay};
ghost use Rattle.co_world.specs.Standing.{RepresentsWorld, AreHeld};

use crate::world::World;
use co_engine::Engine;

impl<E: Engine + Drop> World<E> {
    /// Takes the armed stop of every node away, also of one that is down. Takes no memory.
    pub fn disarm(&mut self)
        ensures stands { (s : Federation) → RepresentsWorld E.takes E.stands_for self.old s → RepresentsWorld E.takes E.stands_for self.new (disarmed s) }
        ensures held { (home : HomeView) → AreHeld home self.old → AreHeld home self.new }
        ensures head { (length self.new.cluster.members.items ≡ length self.old.cluster.members.items) × (length self.new.cluster.coords.items ≡ length self.old.cluster.coords.items) }
        ensures pins { PinsStay E.pins self.old self.new }
    {
        self.cluster.disarm();
    }
}
