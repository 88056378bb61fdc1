//! What a call is given: words and files from rows of bytes.

ghost use Rattle.std.specs.Prelude.{◌≡◌, ◌<◌, ◌≤◌, ◌∷◌, [], ℕ, List, IfOk, IfErr, MatchResult, length, map, string_bytes, take, drop};
ghost use Rattle.tim_base.specs.Shelves.{bytes_at};
ghost use Rattle.mit_web.specs.declared.given.GivenFault.TheVariants.{Memory, BadCall};
ghost use Rattle.mit_web.specs.Calls.{AreContents, AreTexts, PutsAll, held_by, pieces};

use std::alloc::{AllocError, AllocFailed, Global};
use tim_base::shelf::MemShelf;
use tim_base::sink::MemSink;

/// Why a call cannot be made.
#[derive(Clone, Copy, Debug, PartialEq, Eq)]
pub enum GivenFault {
    /// There was no memory.
    Memory,
    /// Words or names are not UTF-8, or the lengths say more than the bytes hold.
    BadCall,
}

impl From<AllocError> for GivenFault {
    ghost from_gives = { λ _ e. e ≡ Memory };

    fn from(_refused: AllocError) -> GivenFault {
        GivenFault::Memory
    }
}

impl<T: Drop> From<AllocFailed<T>> for GivenFault {
    ghost from_gives = { λ _ e. e ≡ Memory };

    fn from(_refused: AllocFailed<T>) -> GivenFault {
        GivenFault::Memory
    }
}

// Cuts so many bytes off the beginning of a row.
fn cut(row: &[u8], bytes: u64) -> Result<(&[u8], &[u8]), GivenFault>
    ensures { MatchResult result (λ r. (r.0.now ≡ take bytes row.now) × (r.1.now ≡ drop bytes row.now) × (bytes ≤ length row.now))
        (λ e. (e ≡ BadCall) × (length row.now < bytes)) }
{
    let count = bytes as usize;
    if count > row.len() {
        return Err(GivenFault::BadCall);
    }
    Ok(row.split_at(count))
}

/// The texts that stand in a row.
pub fn texts(alloc: Global, lengths: &[u64], row: &[u8]) -> Result<Vec<String>, GivenFault>
    ensures texts { IfOk result (λ v. map string_bytes v.items ≡ pieces lengths.now row.now) }
    ensures fit { IfOk result (λ v. AreTexts lengths.now row.now) }
    ensures bad { IfErr result (λ e. e ≡ BadCall → AreTexts lengths.now row.now → ⊥) }
{
    let mut made = Vec::new(alloc);
    let mut row = row;
    for length in lengths {
        let (piece, rest) = cut(row, *length)?;
        let Ok(text) = std::str::from_utf8(piece) else {
            return Err(GivenFault::BadCall);
        };
        made.push(String::from_str(alloc, text)?)?;
        row = rest;
    }
    Ok(made)
}

// Puts a file.
#[tactic(auto, using(crate::proofs::Puts::puts_one))]
fn put_one(shelf: &mut MemShelf, name: &str, content: &[u8]) -> Result<(), GivenFault>
    ensures { MatchResult result (λ u. PutsAll shelf.old shelf.new (name.now ∷ []) (content.now ∷ [])) (λ e. e ≡ Memory) }
{
    match shelf.put(name, content) {
        Ok(()) => Ok(()),
        Err(_) => Err(GivenFault::Memory),
    }
}

// Puts the files of these names, whose contents stand in a row.
#[tactic(auto, using(crate::proofs::Puts::puts_then, crate::proofs::Puts::puts_none, crate::proofs::Puts::puts_no_more))]
fn put_all(
    shelf: &mut MemShelf,
    names: &[String],
    lengths: &[u64],
    row: &[u8],
) -> Result<(), GivenFault>
    ensures puts { IfOk result (λ u. PutsAll shelf.old shelf.new (map string_bytes names.now) (pieces lengths.now row.now)) }
    ensures fit { IfOk result (λ u. AreContents (map string_bytes names.now) lengths.now row.now) }
    ensures bad { IfErr result (λ e. e ≡ BadCall → AreContents (map string_bytes names.now) lengths.now row.now → ⊥) }
{
    let Some((name, names)) = names.split_first() else {
        return Ok(());
    };
    let Some((length, lengths)) = lengths.split_first() else {
        return Ok(());
    };
    let (content, rest) = cut(row, *length)?;
    put_one(shelf, name.as_str(), content)?;
    put_all(shelf, names, lengths, rest)
}

/// The files of these names, whose contents stand in a row.
pub fn files(
    alloc: Global,
    names: &[String],
    lengths: &[u64],
    row: &[u8],
) -> Result<MemShelf, GivenFault>
    ensures held { IfOk result (λ s. (name : List ℕ) → bytes_at s name ≡ held_by (map string_bytes names.now) (pieces lengths.now row.now) name) }
    ensures fit { IfOk result (λ s. AreContents (map string_bytes names.now) lengths.now row.now) }
    ensures bad { IfErr result (λ e. e ≡ BadCall → AreContents (map string_bytes names.now) lengths.now row.now → ⊥) }
{
    let mut shelf = MemShelf::new(alloc);
    put_all(&mut shelf, names, lengths, row)?;
    Ok(shelf)
}
