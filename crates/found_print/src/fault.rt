//! The object of a fault of a text.

ghost use Rattle.std.specs.Prelude.{◌≡◌, ◌++◌, ◌^◌, ◌<◌, OnOk, IfOk, IfSome, codes};
ghost use Rattle.json_text.specs.Json.{items_text, members_text, json_text, list, string};
ghost use Rattle.fault_print.specs.Words.{sort_text};
ghost use Rattle.found_print.specs.Faults.{sort_items, spoken, fault_members, fault_object};

use crate::members::{put_end, put_found, put_places};
use fault_print::words::sort_text;
use json_text::put::{put_first_bare, put_key, put_string};
use next_tokens::sort::Sort;
use std::alloc::{AllocError, Global};
use text_base::pos::Pos;

fn put_sort(out: &mut Vec<u8>, sort: Sort) -> Result<(), AllocError>
    ensures { OnOk result (out.new.items ≡ out.old.items ++ (codes "," ++ json_text (string (sort_text sort)))) }
{
    out.extend_from_slice(b",")?;
    put_string(out, sort_text(sort))?;
    Ok(())
}

fn put_sorts(out: &mut Vec<u8>, sorts: &[Sort]) -> Result<(), AllocError>
    ensures { OnOk result (out.new.items ≡ out.old.items ++ items_text (sort_items sorts.now)) }
{
    for sort in sorts {
        put_sort(out, *sort)?;
    }
    Ok(())
}

// Puts the list of tokens that could stand there.
fn put_could(alloc: Global, out: &mut Vec<u8>, could: &[Sort]) -> Result<(), AllocError>
    ensures { OnOk result (out.new.items ≡ out.old.items ++ json_text (list (sort_items could.now))) }
{
    let mut items = Vec::new(alloc);
    put_sorts(&mut items, could)?;
    out.extend_from_slice(b"[")?;
    put_first_bare(out, items.as_slice())?;
    out.extend_from_slice(b"]")?;
    Ok(())
}

fn put_spoken(
    alloc: Global,
    out: &mut Vec<u8>,
    could: &[Sort],
    lines: &[u8],
) -> Result<(), AllocError>
    ensures { OnOk result (out.new.items ≡ out.old.items ++ members_text (spoken could.now lines.now)) }
{
    put_key(out, b"expected")?;
    put_could(alloc, out, could)?;
    put_key(out, b"explained")?;
    put_string(out, lines)?;
    Ok(())
}

fn put_fault(
    alloc: Global,
    out: &mut Vec<u8>,
    place: Option<(Pos, usize)>,
    could: &[Sort],
    lines: &[u8],
) -> Result<(), AllocError>
    requires { IfSome place (λ at. at.1 < 2 ^ 63) }
    ensures { OnOk result (out.new.items ≡ out.old.items ++ members_text (fault_members place could.now lines.now)) }
{
    let Some((pos, n)) = place else {
        return put_spoken(alloc, out, could, lines);
    };
    put_key(out, b"place")?;
    put_places(out, pos, n)?;
    put_spoken(alloc, out, could, lines)?;
    Ok(())
}

/// The object of a fault of a text: the tool's own line, where it is and how many bytes stand there, what could stand there, and lines
/// on it.
///
/// # Errors
/// `AllocError` is want of memory.
pub fn fault_object(
    alloc: Global,
    line: &[u8],
    place: Option<(Pos, usize)>,
    could: &[Sort],
    lines: &[u8],
) -> Result<Vec<u8>, AllocError>
    requires { IfSome place (λ at. at.1 < 2 ^ 63) }
    ensures { IfOk result (λ v. v.items ≡ fault_object line.now place could.now lines.now) }
{
    let mut out = Vec::new(alloc);
    put_found(&mut out, b"syntax", line)?;
    put_fault(alloc, &mut out, place, could, lines)?;
    put_end(&mut out)?;
    Ok(out)
}
