//! The words of a line, and how they are put.

ghost use Rattle.std.specs.Prelude.{◌≡◌, ◌<◌, ◌++◌, OnOk, codes, decimal};
ghost use Rattle.std.specs.Fmt.{signed_decimal};
ghost use Rattle.label_lattice.specs.Order.{name_of};
ghost use Rattle.image_print.specs.ImageText.{mnemonic};

use itoa::Buffer;
use label_code::code::Work;
use label_lattice::label::Label;
use label_lattice::lattice::Lattice;
use std::alloc::AllocError;

/// An instruction's name.
pub fn mnemonic(work: Work) -> &'static [u8]
    ensures { result.now ≡ mnemonic work }
{
    match work {
        Work::Push(_) => b"PUSH".as_slice(),
        Work::Load(_) => b"LOAD".as_slice(),
        Work::Store(_) => b"STORE".as_slice(),
        Work::Apply(_) => b"OP".as_slice(),
        Work::Brz(_) => b"BRZ".as_slice(),
        Work::Brnz(_) => b"BRNZ".as_slice(),
        Work::Jmp(_) => b"JMP".as_slice(),
        Work::Sleep => b"SLEEP".as_slice(),
        Work::Mitb { .. } => b"MITB".as_slice(),
        Work::Mite => b"MITE".as_slice(),
        Work::Nop => b"NOP".as_slice(),
        Work::Halt => b"HALT".as_slice(),
        Work::LoadAt { .. } => b"LOADX".as_slice(),
        Work::StoreAt { .. } => b"STOREX".as_slice(),
    }
}

/// Puts a number in decimal digits.
pub fn put_natural(out: &mut Vec<u8>, n: u32) -> Result<(), AllocError>
    ensures { OnOk result (out.new.items ≡ out.old.items ++ decimal n) }
{
    let mut buffer = Buffer::new();
    out.extend_from_slice(buffer.format(n).as_bytes())
}

/// Puts a number in decimal digits, after `-` where it is below 0.
pub fn put_signed(out: &mut Vec<u8>, n: i64) -> Result<(), AllocError>
    ensures { OnOk result (out.new.items ≡ out.old.items ++ signed_decimal n) }
{
    let mut buffer = Buffer::new();
    out.extend_from_slice(buffer.format(n).as_bytes())
}

/// Puts the name of a label.
pub fn put_label(out: &mut Vec<u8>, labels: &Lattice, label: Label) -> Result<(), AllocError>
    requires { label.number < labels.now.size }
    ensures { OnOk result (out.new.items ≡ out.old.items ++ name_of labels.now label.number) }
{
    let name = labels.name(label);
    out.extend_from_slice(name.bytes())
}
