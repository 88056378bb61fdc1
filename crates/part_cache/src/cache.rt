//! The partitioned cache.

ghost use Rattle.std.specs.Prelude.{◌≡◌, ◌+◌, ◌%◌, ◌<◌, ◌≤◌, ℕ, [], ◌∷◌, ◌++◌, List, cond, true, false, IfOk, IsTrue, ◌↔◌};
ghost use Rattle.part_cache.specs.Ways.{held_tags, AreWays};
ghost use Rattle.part_cache.specs.declared.replacement.Replacement.{Replacement};
ghost use Rattle.part_cache.specs.History.{Touched, hits_by};
ghost use Rattle.part_cache.specs.Rows.{StandsBy, StandsFor, IsCacheOf, empty_cache, part_of, tags_at, has, found, touched, touched_by};

use crate::replacement::Replacement;
use crate::ways::Ways;
use label_lattice::label::Label;
use label_lattice::lattice::Lattice;
use std::alloc::Global;
use std::marker::Model;
use std::rc::Rc;
use text_base::pos::Memory;

/// A cache with a partition for each label, each of as many sets, and each set of as many ways.
#[derive(Drop)]
pub struct PartCache {
    lattice: Rc<Lattice>,
    sets: u32,
    ways: u32,
    slots: Vec<Ways>,
}

impl Model for PartCache {
    ghost use Rattle.part_cache.specs.Rows.{Rows};

    ghost Value = { Rows };

    ghost use Rattle.part_cache.specs.Body.{rows_view, IsBody};

    ghost view = { rows_view };

    ghost invariant = { IsBody };
}

// The set of a tag. The numbers of sets in use are powers of 2, and want no division.
#[inline(always)]
fn set_of(tag: u32, sets: u32) -> u32
    requires { 0 < sets }
    ensures { result ≡ tag % sets }
{
    match sets {
        1 | 8 | 32 => tag & (sets - 1),
        _ => tag % sets,
    }
}

impl PartCache {
    /// An empty cache of 1 to 4,096 sets with 1 to 8 ways for each label, which shares the lattice. Fails only for want of memory.
    pub fn new(
        alloc: Global,
        lattice: &Rc<Lattice>,
        sets: u32,
        ways: u32,
    ) -> Result<PartCache, Memory>
        requires some_set { 0 < sets }
        requires few_sets { sets ≤ 4096 }
        requires some_way { 0 < ways }
        requires few_ways { ways ≤ 8 }
        ensures value { IfOk result (λ c. c ≡ empty_cache lattice.now.value sets ways) }
        ensures cache { IfOk result (IsCacheOf lattice.now.value sets ways) }
        ensures history { IfOk result (λ c. (r : Replacement) → StandsBy r c []) }
    {
        let count = lattice.size() as usize * sets as usize;
        let slots = vec![in alloc; Ways::none(); count]?;
        let lattice = lattice.clone()?;
        Ok(PartCache {
            lattice,
            sets,
            ways,
            slots,
        })
    }

    /// The lowest label of the cache's lattice.
    pub fn lowest(&self) -> Label
        ensures value { result.number ≡ self.now.order.bottom }
        ensures within { result.number < self.now.order.size }
    {
        self.lattice.bottom()
    }

    /// Whether a partition whose label flows to `er` holds the tag. Takes no memory.
    pub fn look(&self, tag: u32, er: Label) -> bool
        requires { er.number < self.now.order.size }
        ensures found { result ≡ found self.now tag er.number }
        ensures history { (r : Replacement) (h : List Touched) → StandsBy r self.now h
            → result ≡ hits_by r self.now.order self.now.sets self.now.ways h er.number tag }
    {
        self.lattice.laws();
        self.has(tag, er) || self.look_in_others(tag, er)
    }

    // Whether a partition whose label flows to `er` holds the tag, where that of `er` does not: each other
    // partition is tried.
    fn look_in_others(&self, tag: u32, er: Label) -> bool
        requires label { er.number < self.now.order.size }
        requires absent { has self.now tag er.number ≡ false }
        ensures { result ≡ found self.now tag er.number }
    {
        let lattice: &Lattice = &self.lattice;
        for number in 0..lattice.size() {
            let label = Label::new(number as u8);
            if label.number != er.number && lattice.flows(label, er) && self.has(tag, label) {
                return true;
            }
        }
        false
    }

    /// Puts the tag at the front of its set in the partition of `ew`, which keeps the latest of the set's
    /// other tags, as many as there are ways left. Takes no memory.
    pub fn touch(&mut self, tag: u32, ew: Label)
        requires { ew.number < self.old.order.size }
        ensures touched { self.new ≡ touched self.old tag ew.number }
        ensures history { (h : List Touched) → StandsFor self.old h
            → StandsFor self.new (h ++ record { label = ew.number; tag = tag } ∷ []) }
    {
        self.touch_by(Replacement::LeastRecent, tag, ew);
    }

    /// Touches the tag in its set of the partition of `ew` by the rule of replacement. A tag that is not there comes
    /// to the front, and where no way is left the last one of the set goes. One that is there comes to the front
    /// where the least recently used goes first, and else stays where it is. Takes no memory.
    pub fn touch_by(&mut self, replacement: Replacement, tag: u32, ew: Label)
        requires { ew.number < self.old.order.size }
        ensures touched { self.new ≡ touched_by replacement self.old tag ew.number }
        ensures history { (h : List Touched) → StandsBy replacement self.old h
            → StandsBy replacement self.new (h ++ record { label = ew.number; tag = tag } ∷ []) }
    {
        let row = usize::from(ew.number) * self.sets as usize + set_of(tag, self.sets) as usize;
        let ways = self.ways as usize;
        self.slots[row].touch_by(replacement, ways, tag);
    }

    /// Touches the tag where the partition of the label holds it, and else changes nothing: whether it holds
    /// it. A look-up at the label then hits. `sets` is the number of sets, which a caller that has it as a
    /// literal passes on. Takes no memory.
    #[inline(always)]
    pub fn touch_held(&mut self, sets: u32, tag: u32, label: Label) -> bool
        requires label { label.number < self.old.order.size }
        requires sets { sets ≡ self.old.sets }
        ensures held { result ≡ has self.old tag label.number }
        ensures touched { self.new ≡ cond result (touched self.old tag label.number) self.old }
        ensures found { IsTrue result → found self.old tag label.number ≡ true }
    {
        self.lattice.laws();
        let row = usize::from(label.number) * sets as usize + set_of(tag, sets) as usize;
        self.slots[row].bring(self.ways, tag)
    }

    /// Touches a tag that the partition of the label does not hold: whether a look-up at the label hits. The
    /// set is not searched again. `sets` is the number of sets. Takes no memory.
    #[inline(never)]
    pub fn enter(&mut self, sets: u32, tag: u32, label: Label) -> bool
        requires label { label.number < self.old.order.size }
        requires sets { sets ≡ self.old.sets }
        requires absent { has self.old tag label.number ≡ false }
        ensures found { result ≡ found self.old tag label.number }
        ensures touched { self.new ≡ touched self.old tag label.number }
    {
        let found = self.look_in_others(tag, label);
        let set = set_of(tag, sets) as usize;
        let row = usize::from(label.number) * sets as usize + set;
        let ways = self.ways as usize;
        self.slots[row].enter(ways, tag);
        found
    }

    /// Whether both have as many sets, and hold the same tags in the same order in each set of the label's
    /// partition. Takes no memory.
    pub fn same_part(&self, other: &PartCache, label: Label) -> bool
        requires here { label.number < self.now.order.size }
        requires there { label.number < other.now.order.size }
        ensures { IsTrue result ↔ (part_of label.number self.now ≡ part_of label.number other.now) }
    {
        self.sets == other.sets && self.same_sets(other, label)
    }

    // Whether both hold the same tags in the same order in each set of the label's partition.
    fn same_sets(&self, other: &PartCache, label: Label) -> bool
        requires here { label.number < self.now.order.size }
        requires there { label.number < other.now.order.size }
        requires sets { self.now.sets ≡ other.now.sets }
        ensures { IsTrue result ↔ (part_of label.number self.now ≡ part_of label.number other.now) }
    {
        for set in 0..self.sets {
            if !self.same_set(other, label, set) {
                return false;
            }
        }
        true
    }

    // Whether both hold the same tags in the same order in a set of the label's partition.
    fn same_set(&self, other: &PartCache, label: Label, set: u32) -> bool
        requires here { label.number < self.now.order.size }
        requires there { label.number < other.now.order.size }
        requires sets { self.now.sets ≡ other.now.sets }
        requires in_sets { set < self.now.sets }
        ensures { IsTrue result ↔ (tags_at self.now label.number set ≡ tags_at other.now label.number set) }
    {
        self.ways_of(label, set).is_same(other.ways_of(label, set))
    }

    // Whether the partition of the label holds the tag.
    fn has(&self, tag: u32, label: Label) -> bool
        requires { label.number < self.now.order.size }
        ensures { result ≡ has self.now tag label.number }
    {
        self.ways_of(label, set_of(tag, self.sets)).holds(tag)
    }

    // The ways of a set of the label's partition.
    fn ways_of(&self, label: Label, set: u32) -> &Ways
        requires label { label.number < self.now.order.size }
        requires set { set < self.now.sets }
        ensures row { tags_at self.now label.number set ≡ held_tags result.now.tags }
        ensures set { AreWays result.now.tags }
    {
        &self.slots[usize::from(label.number) * self.sets as usize + set as usize]
    }
}
