use crate::fault::MachineFault;
use crate::read::read_machine;
use env_contract::place::Place;
use part_cache::replacement::Replacement;
use part_tlb::bank::{Bank, Sharing};

const SHARED: &[u8] =
    b"version = 1\nsharing = \"shared\"\n[page]\nsets = 1\nways = 4\nbytes = 1024\nhit = 0\nmiss = 20\n";

const BUFFER: Bank = Bank {
    sets: 1,
    ways: 4,
    bytes: 1024,
    hit: 0,
    miss: 20,
    replacement: Replacement::LeastRecent,
};

#[test]
fn reads_a_machine(rt: HostRuntime) {
    let read = read_machine(rt.alloc(), SHARED).expect(&rt, "a machine");
    assert_eq!(rt; read.buffer, Some(BUFFER));
    assert_eq!(rt; read.code_cache, None);
    assert_eq!(rt; read.sharing, Sharing::Shared);
}

#[test]
fn refuses_what_is_none(rt: HostRuntime) {
    let rows: [(&[u8], MachineFault); 9] = [
        (b"version = ", MachineFault::NotToml),
        (b"sharing = \"shared\"", MachineFault::Version),
        (
            b"version = 1\nsharing = \"shared\"\nthird = 3",
            MachineFault::UnknownKey,
        ),
        (b"version = 1", MachineFault::Sharing),
        (b"version = 1\nsharing = \"half\"", MachineFault::Sharing),
        (
            b"version = 1\nsharing = \"shared\"\ndata = { sets = 8 }",
            MachineFault::BadBank(Place::Data),
        ),
        (
            b"version = 1\nsharing = \"shared\"\ncode = { sets = 8, ways = 9, bytes = 32, hit = 0, miss = 8, replace = \"FIFO\" }",
            MachineFault::Replacement(Place::Code),
        ),
        (
            b"version = 1\nsharing = \"shared\"\ncode = { sets = 8, ways = 9, bytes = 32, hit = 0, miss = 8 }",
            MachineFault::Ways(Place::Code),
        ),
        (
            b"version = 1\nsharing = \"shared\"\nsecond = { sets = 1, ways = 1, bytes = 1, hit = 0, miss = 1013 }",
            MachineFault::Costs(1013),
        ),
    ];
    for (text, fault) in rows {
        assert_eq!(rt; read_machine(rt.alloc(), text).err(), Some(fault));
    }
}

#[test]
fn reads_a_rule_of_replacement(rt: HostRuntime) {
    let rows: [(&[u8], Replacement); 2] = [
        (
            b"version = 1\nsharing = \"shared\"\npage = { sets = 4096, ways = 4, bytes = 1, hit = 0, miss = 2, replace = \"fifo\" }",
            Replacement::FirstCome,
        ),
        (
            b"version = 1\nsharing = \"shared\"\npage = { sets = 4096, ways = 4, bytes = 1, hit = 0, miss = 2, replace = \"lru\" }",
            Replacement::LeastRecent,
        ),
    ];
    for (text, rule) in rows {
        let read = read_machine(rt.alloc(), text).expect(&rt, "a machine");
        assert_eq!(rt; read.buffer.map(|bank| bank.replacement), Some(rule));
    }
}
