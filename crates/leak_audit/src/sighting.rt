/// An assignment that an observer sees: the number of the variable, its value, and the cycle.
#[derive(Clone, Copy, Debug, PartialEq, Eq, Hash)]
pub struct Sighting {
    pub variable: u32,
    pub value: i64,
    pub cycle: u64,
}
