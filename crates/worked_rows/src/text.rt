use std::alloc::{AllocError, Global};

// How far an escape is read.
#[derive(Clone, Copy)]
enum Escape {
    No,
    Begun,
    Hex,
    Low(u8),
}

fn digit(letter: u8) -> u8 {
    match letter {
        b'0'..=b'9' => letter - b'0',
        b'a'..=b'f' => letter - b'a' + 10,
        _ => 0,
    }
}

// Appends a text in which `\n`, `\t`, `\r`, `\\` and `\x` with two small hexadecimal digits stand for a byte.
pub(crate) fn put_text(out: &mut Vec<u8>, text: &str) -> Result<(), AllocError> {
    let mut escape = Escape::No;
    for letter in text.bytes() {
        escape = match escape {
            Escape::No if letter == b'\\' => Escape::Begun,
            Escape::No => {
                out.push(letter)?;
                Escape::No
            }
            Escape::Begun if letter == b'x' => Escape::Hex,
            Escape::Begun => {
                out.push(match letter {
                    b'n' => b'\n',
                    b't' => b'\t',
                    b'r' => b'\r',
                    _ => letter,
                })?;
                Escape::No
            }
            Escape::Hex => Escape::Low(digit(letter)),
            Escape::Low(high) => {
                out.push((high << 4) | digit(letter))?;
                Escape::No
            }
        };
    }
    Ok(())
}

fn put_number(alloc: Global, out: &mut Vec<u8>, number: u64) -> Result<(), AllocError> {
    let digits = format!(in alloc; "{number}")?;
    out.extend_from_slice(digits.as_bytes())
}

// Appends a unit in which `#` stands for the number, and `$` for the next one.
fn put_unit(alloc: Global, out: &mut Vec<u8>, unit: &[u8], number: u32) -> Result<(), AllocError> {
    for letter in unit {
        match letter {
            b'#' => put_number(alloc, out, u64::from(number))?,
            b'$' => put_number(alloc, out, u64::from(number) + 1)?,
            _ => out.push(*letter)?,
        }
    }
    Ok(())
}

// Appends the text of a unit for each number from the first one to below the end.
pub(crate) fn put_repeated(
    alloc: Global,
    out: &mut Vec<u8>,
    unit: &str,
    first: u32,
    end: u32,
) -> Result<(), AllocError> {
    let mut bytes = Vec::new(alloc);
    put_text(&mut bytes, unit)?;
    if bytes.contains(&b'#') || bytes.contains(&b'$') {
        for number in first..end {
            put_unit(alloc, out, bytes.as_slice(), number)?;
        }
    } else {
        for _ in first..end {
            out.extend_from_slice(bytes.as_slice())?;
        }
    }
    Ok(())
}
