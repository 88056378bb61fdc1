//! The objects of a file that is not read. They take no memory.

ghost use Rattle.std.specs.Prelude.{◌≡◌};
ghost use Rattle.found_print.specs.Plain.{read_fault_object, too_long_object};

/// The object of a file that could not be read.
pub fn read_fault_object() -> &'static [u8]
    ensures { result.now ≡ read_fault_object }
{
    b"{\"status\":\"read fault\",\"message\":\"read fault: program\"}\n"
}

/// The object of a file that is too long.
pub fn too_long_object() -> &'static [u8]
    ensures { result.now ≡ too_long_object }
{
    b"{\"status\":\"too long\",\"message\":\"too long: program\"}\n"
}
