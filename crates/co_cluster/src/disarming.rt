//! Armed stops are taken away.
ghost use Rattle.co_cluster.specs.Pins.{PinsStay};
ghost use Rattle.std.specs.Prelude.{◌≡◌, ℕ, Option, length};
ghost use Rattle.co_outside.specs.Home.{HomeView, File};
ghost use Rattle.co_outside.specs.declared.spot.Spot.{Spot};
ghost use Rattle.co_plain.specs.Federation.{Federation};
ghost use Rattle.co_plain.specs.Step.{disarmed};
ghost use Rattle.co_cluster.specs.Standing.{RepresentsCluster, AreHeld};

use crate::cluster::Cluster;
use co_engine::Engine;

impl<E: Engine + Drop> Cluster<E> {
    /// Takes the armed stop of every node away, also of one that is down. Takes no memory.
    pub fn disarm(&mut self)
        ensures stands { (s : Federation) → RepresentsCluster E.takes E.stands_for self.old s → RepresentsCluster E.takes E.stands_for self.new (disarmed s) }
        ensures held { (home : HomeView) → AreHeld home self.old → AreHeld home self.new }
        ensures head { (length self.new.members.items ≡ length self.old.members.items) × (length self.new.coords.items ≡ length self.old.coords.items) }
        ensures pins { PinsStay E.pins self.old self.new }
    {
        for place in 0..self.members.len() {
            self.members[place].disarm();
        }
        for place in 0..self.coords.len() {
            self.coords[place].disarm();
        }
    }
}
