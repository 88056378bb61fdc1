ghost use Rattle.std.specs.Prelude.{◌≤◌};
ghost use Rattle.label_lattice.specs.Order.{Order};
ghost use Rattle.hardware.specs.Envs.{IsOfSome};

use crate::limits::is_within;
use crate::machine::HardwareEnv;
use env_contract::env::MachineEnv;
use env_contract::place::Kind;
use label_lattice::label::Label;
use label_lattice::lattice::Lattice;
use part_cache::replacement::Replacement;
use part_tlb::bank::{Bank, Hardware, Sharing};
use sample_lattice::{HIGH, LOW, two_labels};
use std::alloc::Global;
use std::rc::Rc;

const BUFFER: Bank = Bank {
    sets: 1,
    ways: 4,
    bytes: 1024,
    hit: 0,
    miss: 20,
    replacement: Replacement::LeastRecent,
};

const CODE: Bank = Bank {
    sets: 8,
    ways: 2,
    bytes: 32,
    hit: 0,
    miss: 8,
    replacement: Replacement::LeastRecent,
};

const LINES: Bank = Bank {
    sets: 8,
    ways: 2,
    bytes: 32,
    hit: 0,
    miss: 12,
    replacement: Replacement::LeastRecent,
};

const SECOND: Bank = Bank {
    sets: 32,
    ways: 4,
    bytes: 32,
    hit: 0,
    miss: 30,
    replacement: Replacement::LeastRecent,
};

fn machine(second: Option<Bank>, sharing: Sharing) -> Hardware {
    Hardware {
        buffer: Some(BUFFER),
        code_cache: Some(CODE),
        data_cache: Some(LINES),
        second,
        sharing,
    }
}

// The first byte of the data.
const FIRST: u32 = 1 << 20;

// Accesses with their labels, and what each costs on machines of one level and of two, each with partitions and shared. The
// costs come from another program.
static ROWS: [(Kind, u32, Label, Label, [u32; 4]); 13] = [
    (Kind::Code, 0, LOW, LOW, [28, 28, 58, 58]),
    (Kind::Code, 4, LOW, LOW, [0, 0, 0, 0]),
    (Kind::Data, FIRST, LOW, LOW, [32, 32, 62, 62]),
    (Kind::Data, FIRST, HIGH, HIGH, [0, 0, 0, 0]),
    (Kind::Data, FIRST + 32, HIGH, HIGH, [12, 12, 42, 42]),
    (Kind::Data, FIRST + 32, LOW, LOW, [12, 0, 42, 0]),
    (Kind::Data, FIRST + 288, HIGH, HIGH, [12, 12, 42, 42]),
    (Kind::Data, FIRST + 544, HIGH, HIGH, [12, 12, 42, 42]),
    (Kind::Data, FIRST + 32, LOW, LOW, [0, 12, 0, 12]),
    (Kind::Data, FIRST + 2048, HIGH, LOW, [32, 32, 62, 62]),
    (Kind::Data, FIRST + 2048, LOW, LOW, [0, 0, 0, 0]),
    (Kind::Code, 4096, HIGH, HIGH, [28, 28, 58, 58]),
    (Kind::Code, 4096, LOW, LOW, [28, 0, 58, 0]),
];

// The first row whose access does not cost what it should.
fn first_wrong(env: &mut HardwareEnv, column: usize) -> Option<usize>
    requires made { (order : Order) × (IsOfSome order env.old × (2 ≤ order.size)) }
    requires column { column ≤ 3 }
{
    for i in 0..ROWS.len() {
        let (kind, address, er, ew, costs) = ROWS[i];
        let er = if er.number == 0 { LOW } else { HIGH };
        let ew = if ew.number == 0 { LOW } else { HIGH };
        if env.access(kind, address, er, ew) != costs[column] {
            return Some(i);
        }
    }
    None
}

// A machine with nothing in it; none where memory is wanting.
fn empty(alloc: Global, lattice: &Rc<Lattice>, hardware: Hardware, column: usize) -> Option<usize>
    requires size { 2 ≤ lattice.now.value.size }
    requires column { column ≤ 3 }
{
    if !is_within(hardware) {
        return Some(100);
    }
    let Ok(mut env) = HardwareEnv::new(alloc, lattice, hardware, &[]) else {
        return Some(200);
    };
    first_wrong(&mut env, column)
}

#[test]
fn costs_as_another_program_says(rt: HostRuntime) {
    let lattice = two_labels().expect(&rt, "a lattice");
    let lattice = Rc::new(rt.alloc(), lattice).expect(&rt, "memory");
    let alloc = rt.alloc();
    assert_eq!(rt;
        empty(alloc, &lattice, machine(None, Sharing::Partitioned), 0),
        None
    );
    assert_eq!(rt;
        empty(alloc, &lattice, machine(None, Sharing::Shared), 1),
        None
    );
    assert_eq!(rt;
        empty(
            alloc,
            &lattice,
            machine(Some(SECOND), Sharing::Partitioned),
            2
        ),
        None
    );
    assert_eq!(rt;
        empty(alloc, &lattice, machine(Some(SECOND), Sharing::Shared), 3),
        None
    );
}

#[test]
fn is_too_dear_or_too_great(rt: HostRuntime) {
    let dear = Bank {
        miss: 981,
        ..SECOND
    };
    assert!(rt; is_within(machine(Some(SECOND), Sharing::Shared)));
    assert!(rt; !is_within(machine(Some(dear), Sharing::Shared)));
    assert!(rt; !is_within(machine(Some(Bank { ways: 9, ..SECOND }), Sharing::Shared)));
    assert!(rt; !is_within(machine(Some(Bank { sets: 0, ..SECOND }), Sharing::Shared)));
}
