//! What a step does.

ghost use Rattle.std.specs.Prelude.{◌≡◌, ◌≤◌, ℕ, reverse};
ghost use Rattle.label_lattice.specs.Order.{most_labels};
ghost use Rattle.label_code.specs.Machine.{first as first_of, rest};
ghost use Rattle.label_code.specs.Shaped.{InRange};
ghost use Rattle.cycle_machine.specs.Took.{Stands};
ghost use Rattle.first_replay.specs.Replay.{what_of as what_of_work};
ghost use Rattle.run_entries.specs.Entries.{what_of};
ghost use Rattle.entry_run.specs.Worked.{entry_at};

use cycle_machine::state::State;
use env_contract::env::MachineEnv;
use label_code::code::Work;
use label_code::image::Image;
use mit_syntax::values::element;
use run_entries::entry::{Deed, Opening};

// The last operand, or 0 where there is none.
fn top(operands: &[i64]) -> i64
    ensures { result ≡ first_of (reverse operands.now) }
{
    match operands {
        [.., last] => *last,
        [] => 0,
    }
}

// The last operand but one, or 0 where there is none.
#[tactic(auto, using(crate::proofs::Operands::second_last))]
fn below_top(operands: &[i64]) -> i64
    ensures { result ≡ first_of (rest (reverse operands.now)) }
{
    match operands {
        [.., below, _] => *below,
        _ => 0,
    }
}

// What an instruction at a place does that its time hangs on, or that is seen.
fn deed_of(work: Work, place: u32, operands: &[i64]) -> Deed
    requires { (variables : ℕ) × (variables ≤ 3072) × InRange variables most_labels work }
    ensures { what_of result ≡ what_of_work work place (reverse operands.now) }
{
    match work {
        Work::Push(_) => Deed::Pushed(place),
        Work::Store(variable) => Deed::Assigned {
            variable,
            value: top(operands),
        },
        Work::StoreAt { first, length } => Deed::Assigned {
            variable: element(first, length, below_top(operands)),
            value: top(operands),
        },
        Work::Mitb { level, mark } => Deed::Opens(Opening {
            estimate: top(operands),
            level,
            mark,
        }),
        Work::Mite => Deed::Closes,
        Work::Load(_)
        | Work::LoadAt { .. }
        | Work::Apply(_)
        | Work::Brz(_)
        | Work::Brnz(_)
        | Work::Jmp(_)
        | Work::Sleep
        | Work::Nop
        | Work::Halt => Deed::Nothing,
    }
}

/// What the next step does that its time hangs on, or that is seen.
pub fn deed_at<E: MachineEnv>(image: &Image, state: &State<E>) -> Deed
    requires { Stands E.serves image.now state.now }
    ensures { what_of result ≡ (entry_at E.env image.now.instrs state.now).what }
{
    state.laws();
    let i = image.at(state.place);
    deed_of(i.work, state.place, &state.operands)
}
