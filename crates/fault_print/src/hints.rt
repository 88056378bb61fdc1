//! The limits of the language, and what its names and labels have to be, each in a sentence.

ghost use Rattle.std.specs.Prelude.{◌≡◌, ◌++◌, OnOk};
ghost use Rattle.fault_print.specs.Hints.{utf8_hint, wide_hint, long_hint, deep_hint, many_hint, twice_hint, size_hint, misuse_hint, lattice_hint};

use itoa::Buffer;
use label_lattice::fault::LatticeFault;
use std::alloc::AllocError;

/// Of a byte with which no text in UTF-8 goes on.
pub(crate) fn utf8_hint() -> &'static [u8]
    ensures { result.now ≡ utf8_hint }
{
    b"a text is written in UTF-8\n"
}

/// Of a number that is too great.
pub(crate) fn wide_hint() -> &'static [u8]
    ensures { result.now ≡ wide_hint }
{
    b"the greatest number is 9223372036854775807\n"
}

/// Appends what is said of a name with so many bytes.
pub(crate) fn put_long_hint(out: &mut Vec<u8>, n: usize) -> Result<(), AllocError>
    ensures { OnOk result (out.new.items ≡ out.old.items ++ long_hint n) }
{
    out.extend_from_slice(b"a name has at most 32 bytes, and this one has ")?;
    let mut digits = Buffer::new();
    out.extend_from_slice(digits.format(n as u64).as_bytes())?;
    out.extend_from_slice(b"\n")?;
    Ok(())
}

/// Of too many open brackets or operators.
pub(crate) fn deep_hint() -> &'static [u8]
    ensures { result.now ≡ deep_hint }
{
    b"at most 100 brackets are open at once, and an expression has at most 256 operators\n"
}

/// Of too many declarations.
pub(crate) fn many_hint() -> &'static [u8]
    ensures { result.now ≡ many_hint }
{
    b"there are at most 1024 declarations; an array is one declaration\n"
}

/// Of a name that is declared twice.
pub(crate) fn twice_hint() -> &'static [u8]
    ensures { result.now ≡ twice_hint }
{
    b"a name is declared once\n"
}

/// Of an array's length.
pub(crate) fn size_hint() -> &'static [u8]
    ensures { result.now ≡ size_hint }
{
    b"an array has at least one element, and all arrays together have at most 2048\n"
}

/// Of an array without an index, or another variable with one.
pub(crate) fn misuse_hint() -> &'static [u8]
    ensures { result.now ≡ misuse_hint }
{
    b"an array is used with an index, as NAME[0], and any other variable without one\n"
}

/// Of labels that make no lattice.
pub(crate) fn lattice_hint(fault: LatticeFault) -> &'static [u8]
    ensures { result.now ≡ lattice_hint fault }
{
    match fault {
        LatticeFault::TooMany(_) => b"there are at most 32 labels\n".as_slice(),
        LatticeFault::Cycle(_, _) => b"of two labels at most one flows to the other\n".as_slice(),
        LatticeFault::NoBottom(_, _) => b"one label has to flow to all others\n".as_slice(),
        LatticeFault::NoJoin(_, _) => {
            b"one of the labels to which both flow has to flow to all others of these\n".as_slice()
        }
    }
}
