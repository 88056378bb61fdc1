//! What is true of the code of every program, as contracts of functions that do nothing.

ghost use Rattle.code_lower.specs.Follows.{OrderAll};
ghost use Rattle.code_lower.specs.Lowered.{LabelsKeepMeaning, LoweredKeepsOrder};
ghost use Rattle.env_contract.specs.Env.{Env};

/// The image of a program does what the program does, in its order, in every environment, whether or not that
/// keeps the laws of `MachineEnv`. From each start and up to each cycle, its log without cycles is what the
/// program tells in some number of steps, and all that the program tells if the image has halted; and whatever
/// the program tells in a number of steps, the image tells by some cycle, at which it has halted if the program
/// has ended.
pub fn code_keeps_order<E>()
    ensures { (v : Env E) → OrderAll v }
{}

/// A program with labels means what the program does that was labelled: from each memory it tells the same
/// assignments and the same begun mitigates, in the same order and after the same number of steps, and ends after
/// the same number of steps.
pub fn labels_keep_meaning()
    ensures { LabelsKeepMeaning }
{}

/// The same of the image that `lower` makes of a program, and of the program that was read, without its labels.
pub fn image_keeps_order<E>()
    ensures { (v : Env E) → LoweredKeepsOrder v }
{}
