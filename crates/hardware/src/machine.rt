//! The environment of a machine.

ghost use Rattle.std.specs.Prelude.{◌≡◌, ◌<◌, ◌≤◌, ◌↔◌, List, [], IfOk, IsTrue};
ghost use Rattle.std.specs.List.{All};
ghost use Rattle.label_lattice.specs.Order.{Order};
ghost use Rattle.env_contract.specs.declared.place.Touch.{Touch};
ghost use Rattle.part_tlb.specs.declared.bank.Hardware.{Hardware};
ghost use Rattle.part_tlb.specs.Machine.{accessed, access_cost, line_place};
ghost use Rattle.hardware.specs.Limits.{HasBanks, AreSmall, IsCheap};
ghost use Rattle.hardware.specs.Seats.{option_found, option_cost};
ghost use Rattle.hardware.specs.Envs.{line_seat, machine_touched, machine_cost, machine_after, IsMadeOf, IsOfSome, Keeps, empty_machine, machine_warmed};

use crate::seat::{Look, Seat, look_at, same_at, seat_for, touch_at};
use env_contract::env::{MAX_PENALTY, MachineEnv};
use env_contract::place::{Kind, Place, Touch};
use label_lattice::label::Label;
use label_lattice::lattice::Lattice;
use part_tlb::bank::Hardware;
use std::alloc::Global;
use std::rc::Rc;
use text_base::pos::Memory;

/// A machine with what its banks hold.
#[derive(Drop)]
pub struct HardwareEnv {
    buffer: Option<Seat>,
    code_cache: Option<Seat>,
    data_cache: Option<Seat>,
    second: Option<Seat>,
}

impl HardwareEnv {
    /// The machine in which the touches were made, the earliest first. Fails only for want of memory.
    pub fn new(
        alloc: Global,
        lattice: &Rc<Lattice>,
        hardware: Hardware,
        touches: &[Touch],
    ) -> Result<HardwareEnv, Memory>
        requires banks { HasBanks hardware }
        requires small { AreSmall hardware }
        requires cheap { IsCheap hardware }
        requires touches { All (λ t. t.label.number < lattice.now.value.size) touches.now }
        ensures value { IfOk result (λ e. e ≡ machine_warmed (empty_machine hardware lattice.now.value) touches.now) }
        ensures history { IfOk result (λ e. Keeps hardware lattice.now.value e touches.now) }
    {
        let mut env = HardwareEnv::empty(alloc, lattice, hardware)?;
        for touch in touches {
            env.touch(touch.place, touch.address, touch.label);
        }
        Ok(env)
    }

    // The machine with nothing in its banks. Fails only for want of memory.
    fn empty(
        alloc: Global,
        lattice: &Rc<Lattice>,
        hardware: Hardware,
    ) -> Result<HardwareEnv, Memory>
        requires banks { HasBanks hardware }
        requires small { AreSmall hardware }
        ensures { IfOk result (λ e. e ≡ empty_machine hardware lattice.now.value) }
    {
        let buffer = seat_for(alloc, lattice, hardware.buffer, hardware.sharing)?;
        let code_cache = seat_for(alloc, lattice, hardware.code_cache, hardware.sharing)?;
        let data_cache = seat_for(alloc, lattice, hardware.data_cache, hardware.sharing)?;
        let second = seat_for(alloc, lattice, hardware.second, hardware.sharing)?;
        Ok(HardwareEnv {
            buffer,
            code_cache,
            data_cache,
            second,
        })
    }

    // Touches an address at a place.
    fn touch(&mut self, place: Place, address: u32, label: Label)
        requires { (hw : Hardware) × (order : Order) × (IsMadeOf hw order self.old × (label.number < order.size)) }
        ensures { self.new ≡ machine_touched place address label.number self.old }
    {
        match place {
            Place::Page => touch_at(&mut self.buffer, address, label),
            Place::Code => touch_at(&mut self.code_cache, address, label),
            Place::Data => touch_at(&mut self.data_cache, address, label),
            Place::Second => touch_at(&mut self.second, address, label),
        }
    }

    // Looks a line up in the first-level cache of its kind, and touches it.
    #[inline(always)]
    fn look_line(&mut self, kind: Kind, address: u32, er: Label, ew: Label) -> Look
        requires { (hw : Hardware) × (order : Order)
            × (IsMadeOf hw order self.old × (er.number < order.size) × (ew.number < order.size)) }
        ensures hit { result.hit ≡ option_found (line_seat kind self.old) address er.number }
        ensures cost { result.cost ≡ option_cost (line_seat kind self.old) address er.number }
        ensures next { self.new ≡ machine_touched (line_place kind) address ew.number self.old }
    {
        match kind {
            Kind::Code => look_at(&mut self.code_cache, address, er, ew),
            Kind::Data => look_at(&mut self.data_cache, address, er, ew),
        }
    }
}

impl MachineEnv for HardwareEnv {
    ghost use Rattle.hardware.specs.Envs.{machine_env, IsOfSome};

    ghost serves = { IsOfSome };

    ghost env = { machine_env };

    #[inline(always)]
    fn access(&mut self, kind: Kind, address: u32, er: Label, ew: Label) -> u32
        requires { (order : Order)
            × (IsOfSome order self.old × (er.number < order.size) × (ew.number < order.size)) }
        ensures cost { result ≡ machine_cost kind address er.number ew.number self.old }
        ensures next { self.new ≡ machine_after kind address er.number ew.number self.old }
        ensures small { result ≤ MAX_PENALTY }
        ensures serves { (order : Order) → IsOfSome order self.old → IsOfSome order self.new }
        ensures history_cost { (hw : Hardware) (order : Order) (h : List Touch) → Keeps hw order self.old h
            → result ≡ access_cost hw order kind address er.number h }
        ensures history_next { (hw : Hardware) (order : Order) (h : List Touch) → Keeps hw order self.old h
            → Keeps hw order self.new (accessed kind address ew.number h) }
    {
        let page = look_at(&mut self.buffer, address, er, ew);
        let line = self.look_line(kind, address, er, ew);
        let second = look_at(&mut self.second, address, er, ew);
        let far = if line.hit { 0 } else { second.cost };
        page.cost + line.cost + far
    }

    fn same(&self, other: &Self, place: Place, label: Label) -> bool {
        match place {
            Place::Page => same_at(&self.buffer, &other.buffer, label),
            Place::Code => same_at(&self.code_cache, &other.code_cache, label),
            Place::Data => same_at(&self.data_cache, &other.data_cache, label),
            Place::Second => same_at(&self.second, &other.second, label),
        }
    }
}
