ghost use Rattle.std.specs.Prelude.{◌≡◌, ◌<◌, IfOk};

use crate::laws::{halt_is_run, limit_is_run, turns_go_on};
use crate::machine::Machine;
use crate::run::tell_turn;
use crate::turn::Turn;
use env_contract::flat::FlatEnv;
use label_code::code::{Instr, Work};
use label_code::image::Image;
use label_lattice::label::Label;
use label_lattice::lattice::Lattice;
use run_watch::{RunNumber, Watch, Watched};
use sample_lattice::one_label;
use std::alloc::Global;
use std::cell::Cell;
use std::rc::Rc;
use text_base::pos::Memory;

// The code of `mitigate (64, L) { a[5] := 7 }` for an array of length 4.
fn mitigated_code(alloc: Global, lattice: Lattice) -> Result<Image, Memory>
    requires { 0 < lattice.size }
    ensures { IfOk result (λ i. i.variables ≡ 4) }
{
    let low = Label::new(0);
    let instrs = vec![in alloc;
        Instr {
            work: Work::Push(64),
            er: low,
            ew: low
        },
        Instr {
            work: Work::Mitb {
                level: low,
                mark: 0
            },
            er: low,
            ew: low
        },
        Instr {
            work: Work::Push(5),
            er: low,
            ew: low
        },
        Instr {
            work: Work::Push(7),
            er: low,
            ew: low
        },
        Instr {
            work: Work::StoreAt {
                first: 0,
                length: 4
            },
            er: low,
            ew: low
        },
        Instr {
            work: Work::Mite,
            er: low,
            ew: low
        },
        Instr {
            work: Work::Halt,
            er: low,
            ew: low
        },
    ]?;
    Ok(Image::of(instrs, 4, Rc::new(alloc, lattice)?, 2, 1))
}

// What the run tells, without costs of accesses: the assignment takes 3 cycles, the mitigation 64.
static TURNS: [Turn; 5] = [
    Turn::Began { mark: 0, cycle: 2 },
    Turn::Event {
        variable: 1,
        value: 7,
        cycle: 5,
    },
    Turn::Ended { mark: 0, cycle: 66 },
    Turn::Halted { cycle: 67 },
    Turn::Halted { cycle: 67 },
];

#[test]
fn runs_to_its_end(rt: HostRuntime) -> Result<(), Memory> {
    let Some(lattice) = one_label() else {
        assert!(rt; false);
        return Ok(());
    };
    let image = mitigated_code(rt.alloc(), lattice)?;
    let memory = vec![in rt.alloc(); 0i64; 4]?;
    let mut machine = Machine::load(rt.alloc(), &image, memory, FlatEnv::new())?;
    for turn in &TURNS {
        assert_eq!(rt; machine.next(67), *turn);
    }
    Ok(())
}

// Limits, and where a run to each stops: after each instruction, and a cycle before the mitigation ends.
static STOPS: [(u64, Turn); 9] = [
    (0, Turn::Limit { cycle: 0 }),
    (1, Turn::Limit { cycle: 1 }),
    (2, Turn::Limit { cycle: 2 }),
    (3, Turn::Limit { cycle: 3 }),
    (4, Turn::Limit { cycle: 4 }),
    (5, Turn::Limit { cycle: 5 }),
    (65, Turn::Limit { cycle: 5 }),
    (66, Turn::Limit { cycle: 66 }),
    (67, Turn::Halted { cycle: 67 }),
];

// The last of four turns: three at most come before a stop, and a stop stays.
fn fourth_turn(machine: &mut Machine<FlatEnv>, limit: u64) -> Turn {
    for _ in 0..3 {
        let _ = machine.next(limit);
    }
    machine.next(limit)
}

#[test]
fn tells_the_clock_of_each_instruction(rt: HostRuntime) -> Result<(), Memory> {
    let lattice = one_label().expect(&rt, "a lattice");
    let image = mitigated_code(rt.alloc(), lattice)?;
    for &(limit, turn) in &STOPS {
        let memory = vec![in rt.alloc(); 0i64; 4]?;
        let mut machine = Machine::load(rt.alloc(), &image, memory, FlatEnv::new())?;
        assert_eq!(rt; fourth_turn(&mut machine, limit), turn, "{limit}");
    }
    Ok(())
}

#[test]
fn stops_at_a_limit(rt: HostRuntime) -> Result<(), Memory> {
    let Some(lattice) = one_label() else {
        assert!(rt; false);
        return Ok(());
    };
    let image = mitigated_code(rt.alloc(), lattice)?;
    let memory = vec![in rt.alloc(); 0i64; 4]?;
    let mut machine = Machine::load(rt.alloc(), &image, memory, FlatEnv::new())?;
    assert_eq!(rt; machine.next(65), Turn::Began { mark: 0, cycle: 2 });
    assert_eq!(rt; machine.next(4), Turn::Limit { cycle: 4 });
    assert_eq!(rt; machine.next(1000), Turn::Limit { cycle: 4 });
    assert_eq!(rt; (image.len(), image.variables()), (7, 4));
    assert_eq!(rt; image.lattice().size(), 1);
    turns_go_on::<FlatEnv>();
    limit_is_run::<FlatEnv>();
    halt_is_run::<FlatEnv>();
    Ok(())
}

// Keeps the clock that it was told last.
#[derive(Drop)]
struct LastClock {
    clock: Cell<u64>,
}

impl Watch for LastClock {
    fn tell(&self, _number: RunNumber, clock: u64, _limit: u64) {
        self.clock.set(clock);
    }

    fn clear(&self) {}
}

#[test]
fn tells_a_watch_of_each_stage(rt: HostRuntime) {
    let last = LastClock {
        clock: Cell::new(0),
    };
    let watched = Watched::new(&last, RunNumber { run: 1, runs: 1 });
    tell_turn(0, 16_777_215, 99_999_999, &watched);
    assert_eq!(rt; last.clock.get(), 0);
    tell_turn(16_777_215, 16_777_216, 99_999_999, &watched);
    assert_eq!(rt; last.clock.get(), 16_777_216);
    tell_turn(16_777_216, 33_554_431, 99_999_999, &watched);
    assert_eq!(rt; last.clock.get(), 16_777_216);
    tell_turn(5, 70_000_000, 99_999_999, &watched);
    assert_eq!(rt; last.clock.get(), 70_000_000);
}
