//! The sharp count over histories, as a contract of a function that does nothing.

ghost use Rattle.std.specs.Prelude.{List};
ghost use Rattle.label_lattice.specs.Order.{Order};
ghost use Rattle.env_contract.specs.Env.{Env};
ghost use Rattle.env_contract.specs.declared.place.Touch.{Touch};
ghost use Rattle.leak_bound.specs.Over.{KeepsLaws};
ghost use Rattle.history_bound.specs.Over.{AnyHistory};
ghost use Rattle.sharp_history.specs.Over.{LoweredSharpOver, LoweredSharpCutOver, LoweredSharpEndOver, LoweredSharedOver, LoweredOwnOver};

/// The sharp count where a look back into the history says what accesses cost: in every environment whose state is the
/// history and that keeps the laws, from every history, for the image that `lower` makes of a labelled program. Its source
/// is the program that was read, without its labels.
///
/// `halted`, `cut`, `ended` and `shared` say what they say in `lowered_few_sequences_sharp`.
pub fn lowered_few_sequences_sharp_of_histories()
    ensures halted { (v : Order → Env (List Touch)) → KeepsLaws v AnyHistory → LoweredSharpOver v AnyHistory }
    ensures cut { (v : Order → Env (List Touch)) → KeepsLaws v AnyHistory → LoweredSharpCutOver v AnyHistory }
    ensures ended { (v : Order → Env (List Touch)) → KeepsLaws v AnyHistory → LoweredSharpEndOver v AnyHistory }
    ensures shared { (v : Order → Env (List Touch)) → KeepsLaws v AnyHistory → LoweredSharedOver v AnyHistory }
{}

/// The same by own first predictions: it says there what `lowered_few_sequences_own` says.
pub fn lowered_few_sequences_own_of_histories()
    ensures { (v : Order → Env (List Touch)) → KeepsLaws v AnyHistory → LoweredOwnOver v AnyHistory }
{}
