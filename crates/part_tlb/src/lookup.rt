//! Look-ups, what they cost, and the tags of addresses.

ghost use Rattle.std.specs.Prelude.{◌≡◌, ◌+◌, ◌<◌, cond};
ghost use Rattle.part_cache.specs.Rows.{found, touched};
ghost use Rattle.part_tlb.specs.Sizes.{tag_at, line_cost};

use env_contract::place::{Kind, Place};
use label_lattice::label::Label;
use part_cache::cache::PartCache;

/// The bytes of a page.
const PAGE_BYTES: u32 = 1024;

/// The bytes of a line.
const LINE_BYTES: u32 = 32;

/// The tag of a byte address at a place: its page in the translation buffer, and else its line.
pub fn tag_at(place: Place, address: u32) -> u32
    ensures { result ≡ tag_at place address }
{
    match place {
        Place::Page => address / PAGE_BYTES,
        Place::Code | Place::Data | Place::Second => address / LINE_BYTES,
    }
}

/// Whether a look-up of the tag hits. The tag is then touched, whether it hit or not. `sets` is the number
/// of the cache's sets, a literal where the call is inlined.
#[inline(always)]
pub fn look_and_touch(cache: &mut PartCache, sets: u32, tag: u32, er: Label, ew: Label) -> bool
    requires sets { sets ≡ cache.old.sets }
    requires read { er.number < cache.old.order.size }
    requires write { ew.number < cache.old.order.size }
    ensures hit { result ≡ found cache.old tag er.number }
    ensures touched { cache.new ≡ touched cache.old tag ew.number }
{
    if er.number == ew.number {
        look_and_touch_at(cache, sets, tag, ew)
    } else {
        look_then_touch(cache, tag, er, ew)
    }
}

// The same at one label. Mostly its partition holds the tag, and nothing else is looked up.
#[inline(always)]
fn look_and_touch_at(cache: &mut PartCache, sets: u32, tag: u32, label: Label) -> bool
    requires sets { sets ≡ cache.old.sets }
    requires label { label.number < cache.old.order.size }
    ensures hit { result ≡ found cache.old tag label.number }
    ensures touched { cache.new ≡ touched cache.old tag label.number }
{
    if cache.touch_held(sets, tag, label) {
        true
    } else {
        cache.enter(sets, tag, label)
    }
}

// A look-up and then a touch.
#[inline(never)]
fn look_then_touch(cache: &mut PartCache, tag: u32, er: Label, ew: Label) -> bool
    requires read { er.number < cache.old.order.size }
    requires write { ew.number < cache.old.order.size }
    ensures hit { result ≡ found cache.old tag er.number }
    ensures touched { cache.new ≡ touched cache.old tag ew.number }
{
    let hit = cache.look(tag, er);
    cache.touch(tag, ew);
    hit
}

/// What an access found in the translation buffer and in its first-level cache.
#[derive(Clone, Copy, Debug, PartialEq, Eq)]
pub struct Hits {
    pub page: bool,
    pub line: bool,
}

impl Hits {
    /// The cycles that the misses cost: 20 for a page, 8 for a line of code and 12 for one of data.
    pub fn penalty(self, kind: Kind) -> u32
        ensures { result ≡ cond self.page 0 20 + cond self.line 0 (line_cost kind) }
    {
        let line = match kind {
            Kind::Code => 8,
            Kind::Data => 12,
        };
        miss_cost(self.page, 20) + miss_cost(self.line, line)
    }
}

/// What a look-up costs whose miss costs so many cycles.
pub fn miss_cost(hit: bool, cycles: u32) -> u32
    ensures { result ≡ cond hit 0 cycles }
{
    if hit { 0 } else { cycles }
}
