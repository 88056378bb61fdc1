//! Appending pieces of JSON to a text.

ghost use Rattle.std.specs.Prelude.{◌≡◌, ◌<◌, ◌++◌, ◌∷◌, [], OnOk, codes, decimal, drop};
ghost use Rattle.json_text.specs.Json.{hex_digit, numbered, is_plain, escaped, string_body, quoted};

use itoa::Buffer;
use std::alloc::AllocError;

fn hex_digit(n: u8) -> u8
    requires { n < 16 }
    ensures { result ≡ hex_digit n }
{
    if n < 10 { 48 + n } else { 87 + n }
}

// Whether a byte stands for itself, unless it is a quote or a backslash.
fn is_plain(b: u8) -> bool
    ensures { result ≡ is_plain b }
{
    b > 31 && b < 127
}

fn put_numbered(out: &mut Vec<u8>, b: u8) -> Result<(), AllocError>
    ensures { OnOk result (out.new.items ≡ out.old.items ++ numbered b) }
{
    out.extend_from_slice(b"\\u00")?;
    out.push(hex_digit(b / 16))?;
    out.push(hex_digit(b % 16))?;
    Ok(())
}

fn put_plain(out: &mut Vec<u8>, b: u8) -> Result<(), AllocError>
    ensures { OnOk result (out.new.items ≡ out.old.items ++ (b ∷ [])) }
{
    out.push(b)?;
    Ok(())
}

// Appends what stands in a string for a byte.
fn put_escaped(out: &mut Vec<u8>, b: u8) -> Result<(), AllocError>
    ensures { OnOk result (out.new.items ≡ out.old.items ++ escaped b) }
{
    if b == b'"' {
        return out.extend_from_slice(b"\\\"");
    }
    if b == b'\\' {
        return out.extend_from_slice(b"\\\\");
    }
    if b == b'\n' {
        return out.extend_from_slice(b"\\n");
    }
    if is_plain(b) {
        return put_plain(out, b);
    }
    put_numbered(out, b)
}

fn put_body(out: &mut Vec<u8>, s: &[u8]) -> Result<(), AllocError>
    ensures { OnOk result (out.new.items ≡ out.old.items ++ string_body s.now) }
{
    for b in s {
        put_escaped(out, *b)?;
    }
    Ok(())
}

/// Appends a string.
///
/// # Errors
/// `AllocError` is want of memory.
pub fn put_string(out: &mut Vec<u8>, s: &[u8]) -> Result<(), AllocError>
    ensures { OnOk result (out.new.items ≡ out.old.items ++ quoted s.now) }
{
    out.extend_from_slice(b"\"")?;
    put_body(out, s)?;
    out.extend_from_slice(b"\"")?;
    Ok(())
}

/// Appends a number.
///
/// # Errors
/// `AllocError` is want of memory.
pub fn put_number(out: &mut Vec<u8>, n: u64) -> Result<(), AllocError>
    ensures { OnOk result (out.new.items ≡ out.old.items ++ decimal n) }
{
    let mut digits = Buffer::new();
    out.extend_from_slice(digits.format(n).as_bytes())?;
    Ok(())
}

/// Begins an object by its first key.
///
/// # Errors
/// `AllocError` is want of memory.
pub fn put_first_key(out: &mut Vec<u8>, key: &[u8]) -> Result<(), AllocError>
    ensures { OnOk result (out.new.items ≡ out.old.items ++ (codes "{" ++ (quoted key.now ++ codes ":"))) }
{
    out.extend_from_slice(b"{")?;
    put_string(out, key)?;
    out.extend_from_slice(b":")?;
    Ok(())
}

/// Appends a key of an object behind another member.
///
/// # Errors
/// `AllocError` is want of memory.
pub fn put_key(out: &mut Vec<u8>, key: &[u8]) -> Result<(), AllocError>
    ensures { OnOk result (out.new.items ≡ out.old.items ++ (codes "," ++ (quoted key.now ++ codes ":"))) }
{
    out.extend_from_slice(b",")?;
    put_string(out, key)?;
    out.extend_from_slice(b":")?;
    Ok(())
}

/// Appends items or members, each of which has a comma before it, and leaves out the first comma.
///
/// # Errors
/// `AllocError` is want of memory.
pub fn put_first_bare(out: &mut Vec<u8>, pieces: &[u8]) -> Result<(), AllocError>
    ensures { OnOk result (out.new.items ≡ out.old.items ++ drop 1 pieces.now) }
{
    out.extend_from_slice(&pieces[pieces.len().min(1)..])
}
