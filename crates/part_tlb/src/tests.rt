ghost use Rattle.std.specs.Prelude.{◌<◌, ◌≤◌, IfOk};
ghost use Rattle.std.specs.List.{All};
ghost use Rattle.label_lattice.specs.Order.{Order};

use crate::part::{MakePart, PartEnv};
use crate::part2::{MakePart2, Part2Env};
use env_contract::env::MachineEnv;
use env_contract::make::MakeEnv;
use env_contract::place::{Kind, PLACES, Place, Touch};
use label_lattice::lattice::Lattice;
use sample_lattice::{HIGH, LOW, two_labels};
use std::alloc::Global;
use std::rc::Rc;
use text_base::pos::Memory;

fn make<E: MachineEnv, M: MakeEnv<E>>(
    maker: &M,
    alloc: Global,
    lattice: &Rc<Lattice>,
    touches: &[Touch],
) -> Result<E, Memory>
    requires { All (λ t. t.label.number < lattice.now.value.size) touches.now }
    ensures { IfOk result (E.serves lattice.now.value) }
{
    maker.make(alloc, lattice, touches)
}

// The first byte of the data.
const DATA: u32 = 1 << 20;

// Accesses: kind, address, whether under H (else L), and what each costs with one level of caches and with
// two. New pages and lines; a line of a page that is known; a line that only the other label's partition
// holds; and, at the end, a line that the first level dropped and the second still holds.
static ROWS: [(Kind, u32, bool, u32, u32); 9] = [
    (Kind::Code, 0, false, 28, 58),
    (Kind::Code, 4, false, 0, 0),
    (Kind::Data, DATA, false, 32, 62),
    (Kind::Data, DATA, true, 0, 0),
    (Kind::Data, DATA + 32, true, 12, 42),
    (Kind::Data, DATA + 32, false, 12, 42),
    (Kind::Data, DATA + 288, false, 12, 42),
    (Kind::Data, DATA + 544, false, 12, 42),
    (Kind::Data, DATA + 32, false, 12, 12),
];

// The first row whose access does not cost what it should.
fn first_wrong<E: MachineEnv>(env: &mut E, two_levels: bool) -> Option<usize>
    requires { (order : Order) × (E.serves order env.old × (2 ≤ order.size)) }
{
    for i in 0..ROWS.len() {
        let (kind, address, high, one, two) = ROWS[i];
        let label = if high { HIGH } else { LOW };
        let want = if two_levels { two } else { one };
        if env.access(kind, address, label, label) != want {
            return Some(i);
        }
    }
    None
}

#[test]
fn costs_one_level(rt: HostRuntime) {
    let lattice = two_labels().expect(&rt, "a lattice");
    let lattice = Rc::new(rt.alloc(), lattice).expect(&rt, "memory");
    let mut env = make(&MakePart, rt.alloc(), &lattice, &[]).expect(&rt, "memory");
    assert_eq!(rt; first_wrong(&mut env, false), None);
}

#[test]
fn costs_two_levels(rt: HostRuntime) {
    let lattice = two_labels().expect(&rt, "a lattice");
    let lattice = Rc::new(rt.alloc(), lattice).expect(&rt, "memory");
    let mut env = make(&MakePart2, rt.alloc(), &lattice, &[]).expect(&rt, "memory");
    assert_eq!(rt; first_wrong(&mut env, true), None);
}

// The address 0 in the second level alone.
const FAR: Touch = Touch {
    place: Place::Second,
    label: LOW,
    address: 0,
};

#[test]
fn uses_touches_of_the_second_level_with_two(rt: HostRuntime) {
    let lattice = two_labels().expect(&rt, "a lattice");
    let lattice = Rc::new(rt.alloc(), lattice).expect(&rt, "memory");
    let mut one = PartEnv::warm(rt.alloc(), &lattice, &[FAR]).expect(&rt, "memory");
    assert_eq!(rt; one.access(Kind::Code, 0, LOW, LOW), 28);
    let mut two = Part2Env::warm(rt.alloc(), &lattice, &[FAR]).expect(&rt, "memory");
    assert_eq!(rt; two.access(Kind::Code, 0, LOW, LOW), 28);
}

// A page, and a line of data of the label H.
const WARM: [Touch; 2] = [
    Touch {
        place: Place::Page,
        label: LOW,
        address: DATA,
    },
    Touch {
        place: Place::Data,
        label: HIGH,
        address: DATA,
    },
];

#[test]
fn compares_parts(rt: HostRuntime) {
    let lattice = two_labels().expect(&rt, "a lattice");
    let lattice = Rc::new(rt.alloc(), lattice).expect(&rt, "memory");
    let one = PartEnv::warm(rt.alloc(), &lattice, &WARM).expect(&rt, "memory");
    let other = PartEnv::warm(rt.alloc(), &lattice, &WARM[..1]).expect(&rt, "memory");
    for place in PLACES {
        assert!(rt; one.same(&other, place, LOW));
        assert_eq!(rt; one.same(&other, place, HIGH), place != Place::Data);
    }
}
