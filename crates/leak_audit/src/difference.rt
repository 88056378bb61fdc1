//! Differences of two starts.

ghost use Rattle.std.specs.Prelude.{◌≡◌, ◌≢◌, ◌<◌, ℕ, MatchOption, length, true, false};
ghost use Rattle.label_lattice.specs.Lattice.{Flows};
ghost use Rattle.label_lattice.specs.Order.{lattice_of};
ghost use Rattle.mit_syntax.specs.Declarations.{variables};
ghost use Rattle.mit_syntax.specs.Values.{read};
ghost use Rattle.timing_types.specs.Labelled.{order_of, labels_of};
ghost use Rattle.leak_audit.specs.Agreement.{AgreeFor, IsFirstDifference};

use crate::what::What;
use env_contract::env::MachineEnv;
use env_contract::place::{PLACES, Place};
use label_lattice::label::Label;
use label_lattice::lattice::Lattice;
use timing_types::labelled::Labelled;

// The first variable that flows to the observer and has two values.
fn first_variable(p: &Labelled, observer: Label, one: &[i64], other: &[i64]) -> Option<u32>
    requires one { length one.now ≡ variables p.now.program.declarations }
    requires other { length other.now ≡ variables p.now.program.declarations }
    ensures { MatchOption result
        ((x : ℕ) → Flows (order_of p.now) (labels_of p.now x) observer.number → read one.now x ≡ read other.now x)
        (λ x. Flows (order_of p.now) (labels_of p.now x) observer.number
        × (read one.now x ≢ read other.now x)
        × ((y : ℕ) → y < x → Flows (order_of p.now) (labels_of p.now y) observer.number → read one.now y ≡ read other.now y)) }
{
    let program = p.program();
    let lattice = program.lattice();
    for x in 0..program.variables() {
        let own = p.variable_label(x);
        if one[x as usize] != other[x as usize] && lattice.flows(own, observer) {
            return Some(x);
        }
    }
    None
}

// Whether both hold other things at the place for the label, which flows to the observer.
fn differs<E: MachineEnv>(
    lattice: &Lattice,
    observer: Label,
    place: Place,
    label: Label,
    one: &E,
    other: &E,
) -> bool
    requires one { E.serves lattice.now one.now }
    requires other { E.serves lattice.now other.now }
    requires label { label.number < lattice.now.size }
    ensures yes { result ≡ true → Flows (lattice_of lattice.now) label.number observer.number
        × (E.env.part place label.number one.now ≢ E.env.part place label.number other.now) }
    ensures no { result ≡ false → Flows (lattice_of lattice.now) label.number observer.number
        → E.env.part place label.number one.now ≡ E.env.part place label.number other.now }
{
    if !lattice.flows(label, observer) {
        return false;
    }
    !one.same(other, place, label)
}

// The first label that flows to the observer for which both hold other things at the place.
fn first_label<E: MachineEnv>(
    lattice: &Lattice,
    observer: Label,
    place: Place,
    one: &E,
    other: &E,
) -> Option<Label>
    requires one { E.serves lattice.now one.now }
    requires other { E.serves lattice.now other.now }
    ensures { MatchOption result
        ((l : ℕ) → l < lattice.now.size → Flows (lattice_of lattice.now) l observer.number → E.env.part place l one.now ≡ E.env.part place l other.now)
        (λ l. Flows (lattice_of lattice.now) l.number observer.number
        × (E.env.part place l.number one.now ≢ E.env.part place l.number other.now)
        × ((k : ℕ) → k < l.number → Flows (lattice_of lattice.now) k observer.number → E.env.part place k one.now ≡ E.env.part place k other.now)) }
{
    for number in 0..lattice.size() {
        let label = Label::new(number as u8);
        if differs(lattice, observer, place, label, one, other) {
            return Some(label);
        }
    }
    None
}

/// The first difference of two starts, given by the values of their variables and their environments, among
/// what flows to the observer: first among the variables by their numbers, then among the places in their
/// order, in each by the labels' numbers. Takes no memory.
pub fn first_difference<E: MachineEnv>(
    p: &Labelled,
    observer: Label,
    one: &[i64],
    one_env: &E,
    other: &[i64],
    other_env: &E,
) -> Option<What>
    requires observer { observer.number < p.now.program.order.size }
    requires one { length one.now ≡ variables p.now.program.declarations }
    requires other { length other.now ≡ variables p.now.program.declarations }
    requires one_serves { E.serves p.now.program.order one_env.now }
    requires other_serves { E.serves p.now.program.order other_env.now }
    ensures { MatchOption result
        (AgreeFor E.env E.serves p.now observer.number (record { memory = one.now; env = one_env.now }) (record { memory = other.now; env = other_env.now }))
        (λ w. IsFirstDifference E.env p.now observer.number (record { memory = one.now; env = one_env.now })
        (record { memory = other.now; env = other_env.now }) w) }
{
    if let Some(x) = first_variable(p, observer, one, other) {
        return Some(What::Variable(x));
    }
    let lattice = p.program().lattice();
    for place in PLACES {
        if let Some(label) = first_label(lattice, observer, place, one_env, other_env) {
            return Some(What::Partition(place, label));
        }
    }
    None
}

/// The first difference of two starts that have one environment, given by the values of their variables: only
/// variables can differ. Takes no memory.
pub fn first_difference_in<E: MachineEnv>(
    p: &Labelled,
    observer: Label,
    one: &[i64],
    other: &[i64],
    env: &E,
) -> Option<What>
    requires one { length one.now ≡ variables p.now.program.declarations }
    requires other { length other.now ≡ variables p.now.program.declarations }
    requires serves { E.serves p.now.program.order env.now }
    ensures { MatchOption result
        (AgreeFor E.env E.serves p.now observer.number (record { memory = one.now; env = env.now }) (record { memory = other.now; env = env.now }))
        (λ w. IsFirstDifference E.env p.now observer.number (record { memory = one.now; env = env.now })
        (record { memory = other.now; env = env.now }) w) }
{
    let _ = env;
    match first_variable(p, observer, one, other) {
        Some(x) => Some(What::Variable(x)),
        None => None,
    }
}
