//! The image of a typed program.

ghost use Rattle.std.specs.Prelude.{◌≡◌, ◌≤◌, length, IfOk, IfErr};
ghost use Rattle.timing_types.specs.Labelled.{order_of, labels_of, bare_of};
ghost use Rattle.code_lower.specs.Layout.{IsImage};
ghost use Rattle.code_lower.specs.Lowered.{lowered, IsLowerFault};
ghost use Rattle.code_lower.specs.declared.lower.LowerFault.TheVariants.{Memory};

use crate::emit::{emit_list, put};
use crate::size::list_extent;
use label_code::code::Work;
use label_code::image::{Image, is_too_long};
use std::alloc::{AllocError, Global};
use timing_types::labelled::Labelled;
use timing_types::typed::Typed;

/// Why a typed program has no image.
#[derive(Clone, Copy, Debug, PartialEq, Eq)]
pub enum LowerFault {
    /// The image would have so many instructions, more than `MAX_INSTRUCTIONS`.
    TooLong(u64),
    /// Want of memory.
    Memory,
}

impl From<AllocError> for LowerFault {
    ghost from_gives = { λ _ e. e ≡ Memory };

    fn from(_: AllocError) -> LowerFault {
        LowerFault::Memory
    }
}

/// The image of a labelled program, typed or not: the code of its commands and then HALT, with the program's number of
/// variables and its lattice.
///
/// # Errors
/// `TooLong` exactly where that image would have more than `MAX_INSTRUCTIONS` instructions, with their
/// number. `Memory` is want of memory.
pub fn lower_labelled(alloc: Global, labelled: &Labelled) -> Result<Image, LowerFault>
    ensures image { IfOk result (λ i. i ≡ lowered labelled.now) }
    ensures stands { IfOk result (λ i. IsImage (order_of labelled.now) (labels_of labelled.now) i.instrs (bare_of labelled.now)) }
    ensures short { IfOk result (λ i. length i.instrs ≤ 200000) }
    ensures fault { IfErr result (IsLowerFault labelled.now) }
{
    let program = labelled.program();
    let extent = list_extent(program.body());
    let count = extent.size + 1;
    if is_too_long(count) {
        return Err(LowerFault::TooLong(count));
    }
    let order = program.lattice();
    let mut code = Vec::with_capacity(alloc, count as usize)?;
    emit_list(&mut code, program.body(), labelled.labels(), order, 0)?;
    let bottom = order.bottom();
    put(&mut code, Work::Halt, (bottom, bottom))?;
    let variables = program.variables();
    let lattice = program.shared_lattice().clone()?;
    Ok(Image::of(
        code,
        variables,
        lattice,
        extent.operands as u32,
        extent.nesting as u32,
    ))
}

/// The image of a typed program.
///
/// # Errors
/// Those of `lower_labelled`.
pub fn lower(alloc: Global, p: &Typed) -> Result<Image, LowerFault>
    ensures image { IfOk result (λ i. i ≡ lowered p.now.labelled) }
    ensures stands { IfOk result (λ i. IsImage (order_of p.now.labelled) (labels_of p.now.labelled) i.instrs (bare_of p.now.labelled)) }
    ensures short { IfOk result (λ i. length i.instrs ≤ 200000) }
    ensures fault { IfErr result (IsLowerFault p.now.labelled) }
{
    lower_labelled(alloc, p.labelled())
}
