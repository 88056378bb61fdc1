//! From a typed program to its image.

ghost use Rattle.std.specs.Prelude.{◌≡◌, IfOk, IfErr, codes};
ghost use Rattle.tool_texts.specs.Ends.{IsStop};
ghost use Rattle.tool_stages.specs.Stages.{HasImage, ImageStops};

use code_lower::lower::{LowerFault, lower};
use label_code::image::Image;
use std::alloc::Global;
use timing_types::typed::Typed;
use tool_texts::lines;
use tool_texts::status::Status;
use tool_texts::stop::{Stop, no_memory};

/// The image of a typed program.
///
/// # Errors
/// Stops with `TooLong` where it would have more than `MAX_INSTRUCTIONS` instructions, or with `Memory`.
pub fn image(alloc: Global, p: &Typed) -> Result<Image, Stop>
    ensures ok { IfOk result (HasImage p.now.labelled) }
    ensures stop { IfErr result (IsStop (ImageStops p.now.labelled)) }
{
    match lower(alloc, p) {
        Ok(image) => Ok(image),
        Err(LowerFault::TooLong(count)) => Err(Stop::With {
            status: Status::TooLong,
            line: lines::too_long_image(count),
        }),
        Err(LowerFault::Memory) => Err(no_memory()),
    }
}
