//! One bank of a machine, with what it holds.

ghost use Rattle.std.specs.Prelude.{◌≡◌, ◌<◌, ◌≤◌, ◌/◌, IfOk, IfSome, Option, [], IsTrue, true, cond, ◌↔◌};
ghost use Rattle.label_lattice.specs.Order.{Order};
ghost use Rattle.part_cache.specs.Rows.{found, touched_by, empty_cache};
ghost use Rattle.part_tlb.specs.declared.bank.Sharing.{Sharing};
ghost use Rattle.hardware.specs.Limits.{IsBank, IsSmall};
ghost use Rattle.hardware.specs.Seats.{empty_seat, seat_home, seat_touched, option_found, option_cost, option_touched, option_part};
ghost use Rattle.hardware.specs.Seats.{empty_option, AreOfOne, IsSomeSeat};

use label_lattice::label::Label;
use label_lattice::lattice::Lattice;
use part_cache::cache::PartCache;
use part_cache::replacement::Replacement;
use part_tlb::bank::{Bank, Sharing};
use std::alloc::Global;
use std::rc::Rc;
use text_base::pos::Memory;

/// A bank, who shares it, and a cache of its sizes with a partition for each label.
#[derive(Drop)]
pub struct Seat {
    bank: Bank,
    sharing: Sharing,
    cache: PartCache,
}

impl Seat {
    /// The bank with nothing in it. Fails only for want of memory.
    pub fn new(
        alloc: Global,
        lattice: &Rc<Lattice>,
        bank: Bank,
        sharing: Sharing,
    ) -> Result<Seat, Memory>
        requires bank { IsBank bank }
        requires small { IsSmall bank }
        ensures { IfOk result (λ s. s ≡ empty_seat sharing lattice.now.value bank) }
    {
        let cache = PartCache::new(alloc, lattice, bank.sets, bank.ways)?;
        Ok(Seat {
            bank,
            sharing,
            cache,
        })
    }

    // The partition that serves a label: its own, or that of the lowest label.
    #[inline(always)]
    fn home(&self, label: Label) -> Label
        requires { label.number < self.now.cache.order.size }
        ensures value { result.number ≡ seat_home self.now label.number }
        ensures within { result.number < self.now.cache.order.size }
    {
        match self.sharing {
            Sharing::Partitioned => label,
            Sharing::Shared => self.cache.lowest(),
        }
    }

    // Whether a partition whose label flows to that which serves `er` holds the tag of the address, which is then touched
    // in the partition that serves `ew`, whether it hit or not.
    #[inline(always)]
    fn look(&mut self, address: u32, er: Label, ew: Label) -> bool
        requires read { er.number < self.old.cache.order.size }
        requires write { ew.number < self.old.cache.order.size }
        requires sets { self.old.bank.sets ≡ self.old.cache.sets }
        requires bytes { 0 < self.old.bank.bytes }
        ensures hit { result ≡ found self.old.cache (address / self.old.bank.bytes) (seat_home self.old er.number) }
        ensures next { self.new ≡ seat_touched self.old address ew.number }
    {
        let reads = self.home(er);
        let writes = self.home(ew);
        let tag = address / self.bank.bytes;
        if reads.number == writes.number && self.touch_held(tag, writes) {
            true
        } else {
            let hit = self.cache.look(tag, reads);
            self.cache.touch_by(self.bank.replacement, tag, writes);
            hit
        }
    }

    // Where the least recently used goes first and the partition of the label holds the tag, touches it: whether it
    // did. A look-up at the label then hits.
    #[inline(always)]
    fn touch_held(&mut self, tag: u32, label: Label) -> bool
        requires label { label.number < self.old.cache.order.size }
        requires sets { self.old.bank.sets ≡ self.old.cache.sets }
        ensures found { IsTrue result → found self.old.cache tag label.number ≡ true }
        ensures touched { self.new ≡ cond result
            (record self.old { cache = touched_by self.old.bank.replacement self.old.cache tag label.number }) self.old }
    {
        match self.bank.replacement {
            Replacement::LeastRecent => self.cache.touch_held(self.bank.sets, tag, label),
            Replacement::FirstCome => false,
        }
    }

    // Touches the address in the partition that serves the label.
    fn touch(&mut self, address: u32, label: Label)
        requires label { label.number < self.old.cache.order.size }
        requires bytes { 0 < self.old.bank.bytes }
        ensures { self.new ≡ seat_touched self.old address label.number }
    {
        let own = self.home(label);
        self.cache
            .touch_by(self.bank.replacement, address / self.bank.bytes, own);
    }
}

/// What a look-up found, and what it costs.
#[derive(Clone, Copy, Debug, PartialEq, Eq)]
pub struct Look {
    pub hit: bool,
    pub cost: u32,
}

/// Looks an address up, and touches it. Where there is no bank nothing hits, and nothing costs anything.
#[inline(always)]
pub fn look_at(seat: &mut Option<Seat>, address: u32, er: Label, ew: Label) -> Look
    requires { (sharing : Sharing) × (order : Order) × (bank : Option Bank)
        × (AreOfOne sharing order bank seat.old × (er.number < order.size) × (ew.number < order.size)) }
    ensures hit { result.hit ≡ option_found seat.old address er.number }
    ensures cost { result.cost ≡ option_cost seat.old address er.number }
    ensures next { seat.new ≡ option_touched seat.old address ew.number }
{
    match seat {
        None => Look {
            hit: false,
            cost: 0,
        },
        Some(seat) => {
            let hit = seat.look(address, er, ew);
            let cost = if hit { seat.bank.hit } else { seat.bank.miss };
            Look { hit, cost }
        }
    }
}

/// Touches an address, where there is a bank.
pub fn touch_at(seat: &mut Option<Seat>, address: u32, label: Label)
    requires { (sharing : Sharing) × (order : Order) × (bank : Option Bank)
        × (AreOfOne sharing order bank seat.old × (label.number < order.size)) }
    ensures { seat.new ≡ option_touched seat.old address label.number }
{
    match seat {
        None => {}
        Some(seat) => seat.touch(address, label),
    }
}

/// An empty bank, where there is to be one. Fails only for want of memory.
pub fn seat_for(
    alloc: Global,
    lattice: &Rc<Lattice>,
    bank: Option<Bank>,
    sharing: Sharing,
) -> Result<Option<Seat>, Memory>
    requires bank { IfSome bank IsBank }
    requires small { IfSome bank IsSmall }
    ensures { IfOk result (λ s. s ≡ empty_option sharing lattice.now.value bank) }
{
    match bank {
        None => Ok(None),
        Some(bank) => {
            let seat = Seat::new(alloc, lattice, bank, sharing)?;
            Ok(Some(seat))
        }
    }
}

/// Whether both hold the same in the partition of the label, of whichever banks they are. None holds nothing, and a
/// bank tells at least how many tags a set of it holds.
pub fn same_at(one: &Option<Seat>, other: &Option<Seat>, label: Label) -> bool
    requires { (order : Order) × (IsSomeSeat order one.now × IsSomeSeat order other.now × (label.number < order.size)) }
    ensures { IsTrue result ↔ (option_part label.number one.now ≡ option_part label.number other.now) }
{
    match (one, other) {
        (None, None) => true,
        (Some(one), Some(other)) => one.cache.same_part(&other.cache, label),
        _ => false,
    }
}
