use crate::bits::bits;
use crate::count::{LevelRuns, Runs, sharp_count};
use crate::lists::never_falling;
use crate::shared::{MAX_SHARED, shared_count};

// Values, entries, and how many lists never fall.
static LISTS: [(u32, u64, Option<u128>); 7] = [
    (0, 0, Some(1)),
    (0, 3, Some(0)),
    (20, 1, Some(20)),
    (20, 2, Some(210)),
    (20, 3, Some(1540)),
    (
        2,
        18_446_744_073_709_551_615,
        Some(18_446_744_073_709_551_616),
    ),
    (64, 18_446_744_073_709_551_615, None),
];

#[test]
fn lists_that_never_fall(rt: HostRuntime) {
    for &(values, entries, lists) in &LISTS {
        assert!(rt; never_falling(values, entries) == lists);
    }
}

// Mitigations of one level, and the counts to a million cycles with first predictions of 1 and of 512.
static COUNTS: [(u64, u128, u128); 3] = [(1, 20, 11), (2, 210, 66), (3, 1540, 286)];

#[test]
fn counts_of_one_level(rt: HostRuntime) {
    for &(mitigations, from_one, from_512) in &COUNTS {
        let one = LevelRuns {
            mitigations,
            first: 1,
        };
        let other = LevelRuns {
            mitigations,
            first: 512,
        };
        assert!(rt; sharp_count(Runs::Halted, &[one], 1_000_000) == Some(from_one));
        assert!(rt; sharp_count(Runs::Halted, &[other], 1_000_000) == Some(from_512));
    }
}

#[test]
fn counts_of_levels(rt: HostRuntime) {
    let one = LevelRuns {
        mitigations: 1,
        first: 512,
    };
    let two = LevelRuns {
        mitigations: 2,
        first: 1,
    };
    assert!(rt; sharp_count(Runs::Halted, &[one], 1_000_000) == Some(11));
    assert!(rt; sharp_count(Runs::Cut, &[one], 1_000_000) == Some(12));
    assert!(rt; sharp_count(Runs::Halted, &[one, two], 1_000_000) == Some(2310));
    assert!(rt; sharp_count(Runs::Halted, &[], 1_000_000) == Some(1));
    let least = LevelRuns {
        mitigations: 3,
        first: 4,
    };
    assert_eq!(rt; LevelRuns::of(&[7, 4, 9]), least);
}

#[test]
fn bits_of_counts(rt: HostRuntime) {
    for (count, least) in [
        (0u128, 0u32),
        (1, 0),
        (2, 1),
        (3, 2),
        (20, 5),
        (32, 5),
        (33, 6),
    ] {
        assert_eq!(rt; bits(count), least);
    }
}

// Mitigations, their least first prediction, the cycles, and in how many ways they can share these. With two
// mitigations and five cycles: 1 + 1, 1 + 2, 1 + 4 and 2 + 2. With three and six: 1 + 1 + 1, 1 + 1 + 2, 1 + 1 + 4,
// 1 + 2 + 2 and 2 + 2 + 2.
static WAYS: [(u64, u64, u64, u128); 15] = [
    (0, 1, 0, 1),
    (1, 1, 0, 0),
    (1, 1, 5, 3),
    (1, 3, 5, 1),
    (1, 3, 6, 2),
    (2, 1, 5, 4),
    (2, 0, 5, 4),
    (2, 1, 6, 5),
    (2, 3, 14, 3),
    (2, 3, 15, 4),
    (3, 1, 6, 5),
    (3, 3, 17, 3),
    (3, 3, 18, 5),
    (64, 1, 64, 1),
    (64, 1, 65, 2),
];

#[test]
fn ways_of_one_level(rt: HostRuntime) {
    for &(mitigations, first, t, ways) in &WAYS {
        assert!(rt; shared_count(rt.alloc(), mitigations, first, t) == Ok(Some(ways)));
    }
    assert!(rt; shared_count(rt.alloc(), MAX_SHARED + 1, 1, 65) == Ok(None));
    let many = LevelRuns {
        mitigations: 64,
        first: 1,
    };
    assert!(rt; sharp_count(Runs::Halted, &[many], 65) == Some(131_115_985));
}

// Mitigations of one level, and the ways in which they can share a million cycles, with first predictions of 1 and of 512.
static SHARED: [(u64, u128, u128); 3] = [(1, 20, 11), (2, 209, 65), (3, 1519, 274)];

#[test]
fn ways_to_share_a_million_cycles(rt: HostRuntime) {
    for &(mitigations, from_one, from_512) in &SHARED {
        assert!(rt; shared_count(rt.alloc(), mitigations, 1, 1_000_000) == Ok(Some(from_one)));
        assert!(rt; shared_count(rt.alloc(), mitigations, 512, 1_000_000) == Ok(Some(from_512)));
    }
}
