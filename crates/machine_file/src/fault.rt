//! Why the file of a machine is refused.

use env_contract::place::Place;

/// Why the file of a machine is refused, in the order of the checks.
#[derive(Clone, Copy, Debug, PartialEq, Eq)]
pub enum MachineFault {
    /// The bytes are no TOML document.
    NotToml,
    /// The version is not 1.
    Version,
    /// A key of the document is unknown.
    UnknownKey,
    /// The rule of sharing is neither `partitioned` nor `shared`.
    Sharing,
    /// What stands at this place is no bank: no table, with another key, or without one of the five numbers.
    BadBank(Place),
    /// The rule of replacement of the bank at this place is neither `lru` nor `fifo`.
    Replacement(Place),
    /// The bank at this place has no set, or more than 4,096.
    Sets(Place),
    /// The bank at this place has no way, or more than 8.
    Ways(Place),
    /// A tag of the bank at this place stands for no byte.
    Bytes(Place),
    /// An access can cost more than 1,000 cycles: so many.
    Costs(u64),
    /// Memory was not there.
    Memory,
}
