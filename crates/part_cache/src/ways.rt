//! The ways of one set.

ghost use Rattle.std.specs.Prelude.{◌≡◌, ◌+◌, ◌<◌, ◌≤◌, ℕ, List, [], ◌∷◌, ◌++◌, length, take, drop, slice_index, cond, eqb, MatchOption, IsTrue, ◌↔◌};
ghost use Rattle.std.specs.List.{list_any};
ghost use Rattle.part_cache.specs.Ways.{AreWays, absent, held_tags, to_front, replaced};

use crate::replacement::Replacement;

/// What stands in a way that has no tag. No tag is so great.
const EMPTY: u64 = 18_446_744_073_709_551_615;

/// The tags of one set, the one that goes first at the end, and then empty ways.
#[derive(Clone, Copy)]
pub struct Ways {
    tags: [u64; 8],
}

impl Ways {
    /// No tag.
    pub fn none() -> Ways
        ensures set { AreWays result.tags }
        ensures none { held_tags result.tags ≡ [] }
    {
        Ways { tags: [EMPTY; 8] }
    }

    /// The way that has the tag.
    #[inline(always)]
    fn place(&self, tag: u32) -> Option<usize>
        ensures { MatchOption result
            ((k : ℕ) → k < 8 → slice_index self.now.tags k ≡ tag → ⊥)
            (λ way. (way < 8) × (slice_index self.now.tags way ≡ tag)) }
    {
        for way in 0..8 {
            if self.tags[way] == u64::from(tag) {
                return Some(way);
            }
        }
        None
    }

    /// The tags before a way go one way on, and this one comes to the front.
    #[inline(always)]
    fn rotate(&mut self, way: usize, tag: u32)
        requires { way < 8 }
        ensures { self.new.tags ≡ tag ∷ (take way self.old.tags ++ drop (way + 1) self.old.tags) }
    {
        let mut last = u64::from(tag);
        for to in 0..way + 1 {
            let next = self.tags[to];
            self.tags[to] = last;
            last = next;
        }
    }

    /// Whether a way has the tag.
    pub fn holds(&self, tag: u32) -> bool
        requires { AreWays self.now.tags }
        ensures { result ≡ list_any (eqb tag) (held_tags self.now.tags) }
    {
        match self.place(tag) {
            Some(_way) => true,
            None => false,
        }
    }

    /// The tag comes to the front. Of the others the latest stay, as many as there are ways left.
    pub fn touch(&mut self, ways: usize, tag: u32)
        requires some { 0 < ways }
        requires ways { ways ≤ 8 }
        requires set { AreWays self.old.tags }
        requires few { length (held_tags self.old.tags) ≤ ways }
        ensures row { held_tags self.new.tags ≡ to_front ways tag (held_tags self.old.tags) }
        ensures set { AreWays self.new.tags }
    {
        match self.place(tag) {
            Some(way) => self.rotate(way, tag),
            None => self.rotate(ways - 1, tag),
        }
    }

    /// The tag is touched by the rule of replacement.
    pub fn touch_by(&mut self, replacement: Replacement, ways: usize, tag: u32)
        requires some { 0 < ways }
        requires ways { ways ≤ 8 }
        requires set { AreWays self.old.tags }
        requires few { length (held_tags self.old.tags) ≤ ways }
        ensures row { held_tags self.new.tags ≡ replaced replacement ways tag (held_tags self.old.tags) }
        ensures set { AreWays self.new.tags }
    {
        match replacement {
            Replacement::LeastRecent => self.touch(ways, tag),
            Replacement::FirstCome => self.come(ways, tag),
        }
    }

    // The tag comes to the front where no way has it. Where one does, nothing changes.
    fn come(&mut self, ways: usize, tag: u32)
        requires some { 0 < ways }
        requires ways { ways ≤ 8 }
        requires set { AreWays self.old.tags }
        requires few { length (held_tags self.old.tags) ≤ ways }
        ensures row { held_tags self.new.tags ≡ replaced Replacement.FirstCome ways tag (held_tags self.old.tags) }
        ensures set { AreWays self.new.tags }
    {
        if !self.holds(tag) {
            self.enter(ways, tag);
        }
    }

    /// A tag that no way has comes to the front. Of the others the latest stay, as many as there are ways left.
    #[inline(always)]
    pub fn enter(&mut self, ways: usize, tag: u32)
        requires some { 0 < ways }
        requires ways { ways ≤ 8 }
        requires set { AreWays self.old.tags }
        requires few { length (held_tags self.old.tags) ≤ ways }
        requires absent { absent tag (held_tags self.old.tags) }
        ensures row { held_tags self.new.tags ≡ to_front ways tag (held_tags self.old.tags) }
        ensures set { AreWays self.new.tags }
    {
        self.rotate(ways - 1, tag);
    }

    /// The tag, where a way has it, comes to the front: whether a way has it. The first two ways are tried
    /// in place, and the others where there are more.
    #[inline(always)]
    pub fn bring(&mut self, ways: u32, tag: u32) -> bool
        requires set { AreWays self.old.tags }
        requires few { length (held_tags self.old.tags) ≤ ways }
        ensures held { result ≡ list_any (eqb tag) (held_tags self.old.tags) }
        ensures row { (ways : ℕ) → length (held_tags self.old.tags) ≤ ways
            → held_tags self.new.tags ≡ cond result (to_front ways tag (held_tags self.old.tags)) (held_tags self.old.tags) }
        ensures set { AreWays self.new.tags }
    {
        let wide = u64::from(tag);
        let front = self.tags[0];
        if front == wide {
            return true;
        }
        if self.tags[1] == wide {
            self.tags[1] = front;
            self.tags[0] = wide;
            return true;
        }
        if ways <= 2 {
            return false;
        }
        self.bring_far(tag)
    }

    // The same with each way tried.
    #[inline(never)]
    fn bring_far(&mut self, tag: u32) -> bool
        requires { AreWays self.old.tags }
        ensures held { result ≡ list_any (eqb tag) (held_tags self.old.tags) }
        ensures row { (ways : ℕ) → length (held_tags self.old.tags) ≤ ways
            → held_tags self.new.tags ≡ cond result (to_front ways tag (held_tags self.old.tags)) (held_tags self.old.tags) }
        ensures set { AreWays self.new.tags }
    {
        match self.place(tag) {
            Some(way) => {
                self.rotate(way, tag);
                true
            }
            None => false,
        }
    }

    /// Whether both hold the same tags in the same order.
    pub fn is_same(&self, other: &Ways) -> bool
        requires here { AreWays self.now.tags }
        requires there { AreWays other.now.tags }
        ensures { IsTrue result ↔ (held_tags self.now.tags ≡ held_tags other.now.tags) }
    {
        self.tags == other.tags
    }
}
