//! The environment with one level of caches.

ghost use Rattle.std.specs.Prelude.{◌≡◌, ◌+◌, ◌/◌, ◌<◌, ◌≤◌, ◌↔◌, cond, List, [], IfOk, IsTrue};
ghost use Rattle.std.specs.List.{All};
ghost use Rattle.label_lattice.specs.Order.{Order};
ghost use Rattle.part_cache.specs.Rows.{found};
ghost use Rattle.env_contract.specs.declared.place.Touch.{Touch};
ghost use Rattle.part_tlb.specs.Machine.{accessed, access_cost};
ghost use Rattle.part_tlb.specs.Named.{part_machine};
ghost use Rattle.part_tlb.specs.Sizes.{line_cost, tag_at};
ghost use Rattle.part_tlb.specs.Structures.{IsMadeFor, StandsForAll, part_at, warmed};
ghost use Rattle.part_tlb.specs.Envs.{part_structure, line_cache, part_touched, part_penalty, part_after, empty_part};

use crate::lookup::{Hits, look_and_touch, tag_at};
use env_contract::env::{LawfulEnv, MAX_PENALTY, MachineEnv};
use env_contract::make::MakeEnv;
use env_contract::place::{Kind, Place, Touch};
use label_lattice::label::Label;
use label_lattice::lattice::Lattice;
use part_cache::cache::PartCache;
use std::alloc::Global;
use std::rc::Rc;
use text_base::pos::Memory;

/// The sets of the translation buffer.
const BUFFER_SETS: u32 = 1;

/// The ways of each set of the translation buffer.
const BUFFER_WAYS: u32 = 4;

/// The sets of each of the two caches.
const SETS: u32 = 8;

/// The ways of each set of these caches.
const WAYS: u32 = 2;

/// A translation buffer and two caches, each with a partition for each label.
#[derive(Drop)]
pub struct PartEnv {
    buffer: PartCache,
    code_cache: PartCache,
    data_cache: PartCache,
}

impl PartEnv {
    /// The environment of a lattice, which its caches share, in which the touches were made, the earliest first. Those of the
    /// second level change nothing. Fails only for want of memory.
    pub fn warm(alloc: Global, lattice: &Rc<Lattice>, touches: &[Touch]) -> Result<PartEnv, Memory>
        requires { All (λ t. t.label.number < lattice.now.value.size) touches.now }
        ensures value { IfOk result (λ e. e ≡ warmed part_touched (empty_part lattice.now.value) touches.now) }
        ensures serves { IfOk result (IsMadeFor part_structure lattice.now.value) }
        ensures history { IfOk result (λ e. StandsForAll part_structure e touches.now) }
    {
        let buffer = PartCache::new(alloc, lattice, BUFFER_SETS, BUFFER_WAYS)?;
        let code_cache = PartCache::new(alloc, lattice, SETS, WAYS)?;
        let data_cache = PartCache::new(alloc, lattice, SETS, WAYS)?;
        let mut env = PartEnv {
            buffer,
            code_cache,
            data_cache,
        };
        for touch in touches {
            env.touch(touch.place, tag_at(touch.place, touch.address), touch.label);
        }
        Ok(env)
    }

    /// Touches the tag at the place, in the partition of the label.
    pub(crate) fn touch(&mut self, place: Place, tag: u32, label: Label)
        requires { (order : Order) × (IsMadeFor part_structure order self.old × (label.number < order.size)) }
        ensures { self.new ≡ part_touched place tag label.number self.old }
    {
        match place {
            Place::Page => self.buffer.touch(tag, label),
            Place::Code => self.code_cache.touch(tag, label),
            Place::Data => self.data_cache.touch(tag, label),
            Place::Second => {}
        }
    }

    /// Looks the page up and touches it, and then the line in the cache of its kind.
    #[inline(always)]
    pub(crate) fn look_up(&mut self, kind: Kind, address: u32, er: Label, ew: Label) -> Hits
        requires { (order : Order)
            × (IsMadeFor part_structure order self.old × (er.number < order.size) × (ew.number < order.size)) }
        ensures page { result.page ≡ found self.old.buffer (address / 1024) er.number }
        ensures line { result.line ≡ found (line_cache kind self.old) (address / 32) er.number }
        ensures next { self.new ≡ part_after kind address er.number ew.number self.old }
    {
        let page = look_and_touch(
            &mut self.buffer,
            BUFFER_SETS,
            tag_at(Place::Page, address),
            er,
            ew,
        );
        let line = match kind {
            Kind::Code => {
                look_and_touch(
                    &mut self.code_cache,
                    SETS,
                    tag_at(Place::Code, address),
                    er,
                    ew,
                )
            }
            Kind::Data => {
                look_and_touch(
                    &mut self.data_cache,
                    SETS,
                    tag_at(Place::Data, address),
                    er,
                    ew,
                )
            }
        };
        Hits { page, line }
    }
}

impl MachineEnv for PartEnv {
    ghost use Rattle.part_tlb.specs.Structures.{IsMadeFor};
    ghost use Rattle.part_tlb.specs.Envs.{part_structure, part_env};

    ghost serves = { IsMadeFor part_structure };

    ghost env = { part_env };

    #[inline(always)]
    fn access(&mut self, kind: Kind, address: u32, er: Label, ew: Label) -> u32
        requires { (order : Order)
            × (IsMadeFor part_structure order self.old × (er.number < order.size) × (ew.number < order.size)) }
        ensures cost { result ≡ part_penalty kind address er.number ew.number self.old }
        ensures next { self.new ≡ part_after kind address er.number ew.number self.old }
        ensures small { result ≤ MAX_PENALTY }
        ensures serves { (order : Order) → IsMadeFor part_structure order self.old → IsMadeFor part_structure order self.new }
        ensures history_cost { (order : Order) (h : List Touch) → IsMadeFor part_structure order self.old
            → StandsForAll part_structure self.old h
            → result ≡ access_cost part_machine order kind address er.number h }
        ensures history_next { (h : List Touch) → StandsForAll part_structure self.old h
            → StandsForAll part_structure self.new (accessed kind address ew.number h) }
    {
        self.look_up(kind, address, er, ew).penalty(kind)
    }

    fn same(&self, other: &Self, place: Place, label: Label) -> bool {
        match place {
            Place::Page => self.buffer.same_part(&other.buffer, label),
            Place::Code => self.code_cache.same_part(&other.code_cache, label),
            Place::Data => self.data_cache.same_part(&other.data_cache, label),
            Place::Second => true,
        }
    }
}

impl LawfulEnv for PartEnv {
    ghost use Rattle.part_tlb.specs.Laws.{part_lawful};

    ghost lawful = { part_lawful };
}

/// Makes environments of one level of caches.
#[derive(Clone, Copy, Debug, PartialEq, Eq)]
pub struct MakePart;

impl MakeEnv<PartEnv> for MakePart {
    ghost use Rattle.part_tlb.specs.Structures.{warmed};
    ghost use Rattle.part_tlb.specs.Envs.{part_touched, empty_part};

    ghost made = { λ maker order touches. warmed part_touched (empty_part order) touches };

    fn make(
        &self,
        alloc: Global,
        lattice: &Rc<Lattice>,
        touches: &[Touch],
    ) -> Result<PartEnv, Memory>
        requires { All (λ t. t.label.number < lattice.now.value.size) touches.now }
        ensures value { IfOk result (λ e. e ≡ warmed part_touched (empty_part lattice.now.value) touches.now) }
        ensures serves { IfOk result (IsMadeFor part_structure lattice.now.value) }
        ensures history { IfOk result (λ e. StandsForAll part_structure e touches.now) }
    {
        PartEnv::warm(alloc, lattice, touches)
    }
}
