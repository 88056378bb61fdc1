ghost use Rattle.std.specs.Prelude.{◌<◌};
ghost use Rattle.label_lattice.specs.Order.{most_labels};

use doubling_schedule::misses::MissTable;
use label_lattice::label::Label;

/// An open mitigation: its estimate, its level, its mark, and the clock when it began.
#[derive(Clone, Copy)]
pub struct Open {
    pub estimate: i64,
    pub level: Label,
    pub mark: u32,
    pub since: u64,
    ghost known: { level.number < most_labels },
}

/// What one instruction did. After `Late`, where it would have ended after the limit, the state is of no
/// use but for its clock.
#[derive(Clone, Copy)]
pub enum Outcome {
    Went,
    Wrote(u32, i64),
    Began(u32),
    Ended(u32),
    Halted,
    Late,
}

/// What a machine's instructions change. The last operand and the last open mitigation are the first to be
/// taken.
#[derive(Drop)]
pub struct State<E> {
    pub place: u32,
    pub operands: Vec<i64>,
    pub memory: Vec<i64>,
    pub opened: Vec<Open>,
    pub misses: MissTable,
    pub env: E,
    pub clock: u64,
}
