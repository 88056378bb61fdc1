//! Whether the starts of a list agree for an observer.

ghost use Rattle.std.specs.Prelude.{◌≡◌, ◌<◌, ◌≤◌, ◌↔◌, IsTrue, All, OnOk, IfErr, IfOk, MatchOption, length, map};
ghost use Rattle.start_file.specs.Starts.{seen, IsFor};
ghost use Rattle.leak_bound.specs.Records.{Pairwise};
ghost use Rattle.leak_audit.specs.Agreement.{start_of, starts_of, AgreeFor, IsDisagreement, IsFirstDifference};
ghost use Rattle.leak_audit.specs.declared.agreement.Disagreement.TheVariants.{Memory};

use crate::difference::{first_difference, first_difference_in};
use crate::what::What;
use env_contract::env::MachineEnv;
use env_contract::make::MakeEnv;
use env_contract::place::Touch;
use label_lattice::label::Label;
use start_file::start::Start;
use std::alloc::Global;
use text_base::pos::Memory;
use timing_types::labelled::Labelled;

/// Why starts are not known to agree.
#[derive(Clone, Copy, Debug, PartialEq, Eq)]
pub enum Disagreement {
    /// The run, counted from 1, does not agree with the first one, and this is its first difference.
    Differs { run: u32, what: What },
    /// Want of memory.
    Memory,
}

impl From<Memory> for Disagreement {
    ghost from_gives = { λ _ e. e ≡ Memory };

    fn from(_: Memory) -> Disagreement {
        Disagreement::Memory
    }
}

// Whether these are the same touches, in the same order.
fn are_same(one: &[Touch], other: &[Touch]) -> bool
    ensures { IsTrue result ↔ (one.now ≡ other.now) }
{
    one == other
}

// The first difference of a start from the first one, which has this environment. Where both have the same touches,
// theirs is one environment, and no other one is made.
fn difference_from<E: MachineEnv + Drop, M: MakeEnv<E>>(
    alloc: Global,
    p: &Labelled,
    observer: Label,
    first: &Start,
    env: &E,
    start: &Start,
    make: &M,
) -> Result<Option<What>, Memory>
    requires observer { observer.number < p.now.program.order.size }
    requires first { IsFor p.now.program (seen first.now) }
    requires start { IsFor p.now.program (seen start.now) }
    requires made { env.now ≡ M.made make.now p.now.program.order first.now.touches.items }
    requires serves { E.serves p.now.program.order env.now }
    ensures { IfOk result (λ found. MatchOption found
        (AgreeFor E.env E.serves p.now observer.number (start_of (M.made make.now) p.now.program.order (seen first.now))
        (start_of (M.made make.now) p.now.program.order (seen start.now)))
        (λ w. IsFirstDifference E.env p.now observer.number (start_of (M.made make.now) p.now.program.order (seen first.now))
        (start_of (M.made make.now) p.now.program.order (seen start.now)) w)) }
{
    let (one, two) = (first.memory.as_slice(), start.memory.as_slice());
    let touches = start.touches.as_slice();
    if are_same(touches, first.touches.as_slice()) {
        return Ok(first_difference_in(p, observer, one, two, env));
    }
    let other = make.make(alloc, p.program().shared_lattice(), touches)?;
    Ok(first_difference(p, observer, one, env, two, &other))
}

/// Whether each two starts of a list agree for an observer, each with the environment that its touches make:
/// where the labels flow to the observer, the variables have equal values and the environments hold the
/// same. Keeps at most two environments at a time.
///
/// # Errors
/// `Differs` exactly where some start does not agree with the first one, for the first such start. `Memory`
/// is want of memory.
pub fn all_agree<E: MachineEnv + Drop, M: MakeEnv<E>>(
    alloc: Global,
    p: &Labelled,
    starts: &[Start],
    observer: Label,
    make: &M,
) -> Result<(), Disagreement>
    requires observer { observer.number < p.now.program.order.size }
    requires few { length starts.now ≤ 4096 }
    requires starts { All (IsFor p.now.program) (map seen starts.now) }
    ensures agree { OnOk result (Pairwise (AgreeFor E.env E.serves p.now observer.number) (starts_of (M.made make.now) p.now.program.order
        (map seen starts.now))) }
    ensures differ { IfErr result (IsDisagreement E.env E.serves p.now observer.number (starts_of (M.made make.now) p.now.program.order
        (map seen starts.now))) }
{
    let Some(first) = starts.first() else {
        return Ok(());
    };
    let lattice = p.program().shared_lattice();
    let env = make.make(alloc, lattice, first.touches.as_slice())?;
    for (i, start) in starts.iter().enumerate() {
        let found = difference_from(alloc, p, observer, first, &env, start, make)?;
        if let Some(what) = found {
            return Err(Disagreement::Differs {
                run: i as u32 + 1,
                what,
            });
        }
    }
    Ok(())
}
