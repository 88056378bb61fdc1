use crate::cache::PartCache;
use sample_lattice::{HIGH, LOW, two_labels};
use std::rc::Rc;

#[test]
fn keeps_the_latest_of_a_set(rt: HostRuntime) {
    let lattice = two_labels().expect(&rt, "a lattice");
    let lattice = Rc::new(rt.alloc(), lattice).expect(&rt, "memory");
    let mut cache = PartCache::new(rt.alloc(), &lattice, 1, 2).expect(&rt, "memory");
    cache.touch(1, LOW);
    cache.touch(2, LOW);
    assert!(rt; cache.touch_held(1, 1, LOW));
    cache.touch(3, LOW);
    assert!(rt; cache.look(1, LOW));
    assert!(rt; !cache.look(2, LOW));
    assert!(rt; cache.look(3, LOW));
}

#[test]
fn looks_at_and_below_a_label(rt: HostRuntime) {
    let lattice = two_labels().expect(&rt, "a lattice");
    let lattice = Rc::new(rt.alloc(), lattice).expect(&rt, "memory");
    let mut cache = PartCache::new(rt.alloc(), &lattice, 8, 2).expect(&rt, "memory");
    cache.touch(0, LOW);
    cache.touch(8, HIGH);
    assert!(rt; cache.look(0, HIGH));
    assert!(rt; cache.look(8, HIGH));
    assert!(rt; !cache.look(8, LOW));
    let mut other = PartCache::new(rt.alloc(), &lattice, 8, 2).expect(&rt, "memory");
    other.touch(0, LOW);
    assert!(rt; cache.same_part(&other, LOW));
    assert!(rt; !cache.same_part(&other, HIGH));
}
