//! Members that objects have in common.

ghost use Rattle.std.specs.Prelude.{◌≡◌, ◌++◌, ◌+◌, ◌^◌, ◌<◌, OnOk, codes, length};
ghost use Rattle.json_text.specs.Json.{json_text, quoted};
ghost use Rattle.found_print.specs.Members.{place_json, but_feed};

use json_text::put::{put_first_key, put_key, put_number, put_string};
use std::alloc::AllocError;
use text_base::pos::Pos;

fn put_place(out: &mut Vec<u8>, line: u64, column: u64) -> Result<(), AllocError>
    ensures { OnOk result (out.new.items ≡ out.old.items ++ json_text (place_json line column)) }
{
    put_first_key(out, b"line")?;
    put_number(out, line)?;
    put_key(out, b"column")?;
    put_number(out, column)?;
    out.extend_from_slice(b"}")?;
    Ok(())
}

/// Puts a place, behind its key, and the end of the so many bytes that stand there.
pub(crate) fn put_places(out: &mut Vec<u8>, pos: Pos, n: usize) -> Result<(), AllocError>
    requires { n < 2 ^ 63 }
    ensures { OnOk result (out.new.items ≡ out.old.items ++ (json_text (place_json pos.line pos.column)
        ++ ((codes "," ++ (quoted (codes "end") ++ codes ":")) ++ json_text (place_json pos.line (pos.column + n))))) }
{
    let line = u64::from(pos.line);
    let column = u64::from(pos.column);
    put_place(out, line, column)?;
    put_key(out, b"end")?;
    put_place(out, line, column + n as u64)?;
    Ok(())
}

/// A line without its line feed.
pub(crate) fn but_feed(line: &[u8]) -> &[u8]
    ensures { result.now ≡ but_feed line.now }
{
    &line[..line.len().saturating_sub(1)]
}

/// Begins an object by what is found and the tool's own line.
pub(crate) fn put_found(out: &mut Vec<u8>, status: &[u8], line: &[u8]) -> Result<(), AllocError>
    ensures { OnOk result (out.new.items ≡ out.old.items
        ++ ((codes "{" ++ (quoted (codes "status") ++ codes ":")) ++ (quoted status.now ++ ((codes "," ++ (quoted (codes "message") ++ codes ":"))
        ++ quoted (but_feed line.now))))) }
{
    put_first_key(out, b"status")?;
    put_string(out, status)?;
    put_key(out, b"message")?;
    put_string(out, but_feed(line))?;
    Ok(())
}

/// Ends an object that stands on a line of its own.
pub(crate) fn put_end(out: &mut Vec<u8>) -> Result<(), AllocError>
    ensures { OnOk result (out.new.items ≡ out.old.items ++ codes "}\n") }
{
    out.extend_from_slice(b"}\n")
}
