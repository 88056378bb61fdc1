//! The words of the command line.

use std::alloc::Global;
use std::env::FillError;
use std::rt::Env;

/// Why the words are not read.
#[derive(Clone, Copy)]
pub enum Refused {
    /// There is no memory to store them.
    Memory,
    /// One of them is not UTF-8.
    NotText,
}

impl Refused {
    /// The exit number.
    pub fn number(self) -> u8 {
        match self {
            Refused::Memory => 11,
            Refused::NotText => 13,
        }
    }
}

// The word at a place, where there is one. Its memory is doubled until it fits.
fn word<R: Env>(rt: &R, alloc: Global, place: usize) -> Result<Option<String>, Refused> {
    let mut bytes = Vec::new(alloc);
    for power in 7..32u32 {
        if bytes.resize(1usize << power, 0u8).is_err() {
            return Err(Refused::Memory);
        }
        match rt.arg(place, bytes.as_mut_slice()) {
            Ok(length) => {
                bytes.truncate(length);
                return match String::from_utf8(bytes) {
                    Ok(word) => Ok(Some(word)),
                    Err(_) => Err(Refused::NotText),
                };
            }
            Err(FillError::NotPresent) => return Ok(None),
            Err(FillError::TooLong) => {}
        }
    }
    Err(Refused::Memory)
}

/// The words after the program's name, which plays no part.
pub fn words<R: Env>(rt: &R, alloc: Global) -> Result<Vec<String>, Refused> {
    let mut words = Vec::new(alloc);
    for place in 1..usize::MAX {
        let Some(word) = word(rt, alloc, place)? else {
            break;
        };
        if words.push(word).is_err() {
            return Err(Refused::Memory);
        }
    }
    Ok(words)
}
