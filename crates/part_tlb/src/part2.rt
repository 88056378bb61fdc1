//! The environment with two levels of caches.

ghost use Rattle.std.specs.Prelude.{◌≡◌, ◌+◌, ◌/◌, ◌<◌, ◌≤◌, ◌↔◌, List, [], IfOk, IsTrue};
ghost use Rattle.std.specs.List.{All};
ghost use Rattle.label_lattice.specs.Order.{Order};
ghost use Rattle.env_contract.specs.declared.place.Touch.{Touch};
ghost use Rattle.part_tlb.specs.Machine.{accessed, access_cost};
ghost use Rattle.part_tlb.specs.Named.{part2_machine};
ghost use Rattle.part_tlb.specs.Structures.{IsMadeFor, StandsForAll, warmed};
ghost use Rattle.part_tlb.specs.Envs.{part2_structure, part2_touched, part2_penalty, part2_after, empty_part2};

use crate::lookup::{look_and_touch, miss_cost, tag_at};
use crate::part::PartEnv;
use env_contract::env::{LawfulEnv, MAX_PENALTY, MachineEnv};
use env_contract::make::MakeEnv;
use env_contract::place::{Kind, Place, Touch};
use label_lattice::label::Label;
use label_lattice::lattice::Lattice;
use part_cache::cache::PartCache;
use std::alloc::Global;
use std::rc::Rc;
use text_base::pos::Memory;

/// The sets of the cache of the second level.
const SETS: u32 = 32;

/// The ways of each set of this cache.
const WAYS: u32 = 4;

/// A translation buffer and two levels of caches, each with a partition for each label. The second level
/// serves code and data.
#[derive(Drop)]
pub struct Part2Env {
    first: PartEnv,
    second: PartCache,
}

impl Part2Env {
    /// The environment of a lattice, which its caches share, in which the touches were made, the earliest first. Fails only for
    /// want of memory.
    pub fn warm(alloc: Global, lattice: &Rc<Lattice>, touches: &[Touch]) -> Result<Part2Env, Memory>
        requires { All (λ t. t.label.number < lattice.now.value.size) touches.now }
        ensures value { IfOk result (λ e. e ≡ warmed part2_touched (empty_part2 lattice.now.value) touches.now) }
        ensures serves { IfOk result (IsMadeFor part2_structure lattice.now.value) }
        ensures history { IfOk result (λ e. StandsForAll part2_structure e touches.now) }
    {
        let first = PartEnv::warm(alloc, lattice, &[])?;
        let second = PartCache::new(alloc, lattice, SETS, WAYS)?;
        let mut env = Part2Env { first, second };
        for touch in touches {
            env.touch(touch.place, tag_at(touch.place, touch.address), touch.label);
        }
        Ok(env)
    }

    // Touches the tag at the place, in the partition of the label.
    fn touch(&mut self, place: Place, tag: u32, label: Label)
        requires { (order : Order) × (IsMadeFor part2_structure order self.old × (label.number < order.size)) }
        ensures { self.new ≡ part2_touched place tag label.number self.old }
    {
        match place {
            Place::Second => self.second.touch(tag, label),
            Place::Page | Place::Code | Place::Data => self.first.touch(place, tag, label),
        }
    }
}

impl MachineEnv for Part2Env {
    ghost use Rattle.part_tlb.specs.Structures.{IsMadeFor};
    ghost use Rattle.part_tlb.specs.Envs.{part2_structure, part2_env};

    ghost serves = { IsMadeFor part2_structure };

    ghost env = { part2_env };

    #[inline(always)]
    fn access(&mut self, kind: Kind, address: u32, er: Label, ew: Label) -> u32
        requires { (order : Order)
            × (IsMadeFor part2_structure order self.old × (er.number < order.size) × (ew.number < order.size)) }
        ensures cost { result ≡ part2_penalty kind address er.number ew.number self.old }
        ensures next { self.new ≡ part2_after kind address er.number ew.number self.old }
        ensures small { result ≤ MAX_PENALTY }
        ensures serves { (order : Order) → IsMadeFor part2_structure order self.old → IsMadeFor part2_structure order self.new }
        ensures history_cost { (order : Order) (h : List Touch) → IsMadeFor part2_structure order self.old
            → StandsForAll part2_structure self.old h
            → result ≡ access_cost part2_machine order kind address er.number h }
        ensures history_next { (h : List Touch) → StandsForAll part2_structure self.old h
            → StandsForAll part2_structure self.new (accessed kind address ew.number h) }
    {
        let hits = self.first.look_up(kind, address, er, ew);
        let second = look_and_touch(
            &mut self.second,
            SETS,
            tag_at(Place::Second, address),
            er,
            ew,
        );
        hits.penalty(kind) + miss_cost(hits.line || second, 30)
    }

    fn same(&self, other: &Self, place: Place, label: Label) -> bool {
        match place {
            Place::Second => self.second.same_part(&other.second, label),
            Place::Page | Place::Code | Place::Data => self.first.same(&other.first, place, label),
        }
    }
}

impl LawfulEnv for Part2Env {
    ghost use Rattle.part_tlb.specs.Laws.{part2_lawful};

    ghost lawful = { part2_lawful };
}

/// Makes environments of two levels of caches.
#[derive(Clone, Copy, Debug, PartialEq, Eq)]
pub struct MakePart2;

impl MakeEnv<Part2Env> for MakePart2 {
    ghost use Rattle.part_tlb.specs.Structures.{warmed};
    ghost use Rattle.part_tlb.specs.Envs.{part2_touched, empty_part2};

    ghost made = { λ maker order touches. warmed part2_touched (empty_part2 order) touches };

    fn make(
        &self,
        alloc: Global,
        lattice: &Rc<Lattice>,
        touches: &[Touch],
    ) -> Result<Part2Env, Memory>
        requires { All (λ t. t.label.number < lattice.now.value.size) touches.now }
        ensures value { IfOk result (λ e. e ≡ warmed part2_touched (empty_part2 lattice.now.value) touches.now) }
        ensures serves { IfOk result (IsMadeFor part2_structure lattice.now.value) }
        ensures history { IfOk result (λ e. StandsForAll part2_structure e touches.now) }
    {
        Part2Env::warm(alloc, lattice, touches)
    }
}
