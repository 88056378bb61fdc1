//! Variables by their numbers.

ghost use Rattle.std.specs.Prelude.{◌<◌};

/// A variable, by its number.
#[derive(Clone, Copy)]
pub(crate) struct Place {
    pub(crate) number: u32,
    ghost small: { number < 3072 },
}
