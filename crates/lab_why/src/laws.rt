//! What chains are worth, as the contract of a function that does nothing.

ghost use Rattle.lab_why.specs.Refuting.{ChainsRefute};

use flow_path::laws::chain_refutes;

/// A law: a chain that leads from a written label to a written label to which it does not flow refutes every labelling that
/// keeps what the program writes.
pub fn chains_refute()
    ensures { ChainsRefute }
{
    chain_refutes();
}
