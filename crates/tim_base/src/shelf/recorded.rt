ghost use Rattle.std.specs.Prelude.{◌≡◌, ◌++◌, ◌∷◌, [], map, true, OnOk, OnErr};
ghost use Rattle.tim_base.specs.Logs.{fetched};
ghost use Rattle.tim_base.specs.Recorded.{fetch_of, told_if};

use super::{FetchFault, Shelf};
use std::alloc::Global;
use std::marker::Model;
use text_base::pos::Memory;

/// A fetch of a shelf.
#[derive(Drop)]
pub struct Fetch {
    /// The bytes of the name.
    pub name: Vec<u8>,
    /// The bytes that it gave, or its fault.
    pub gave: Result<Vec<u8>, FetchFault>,
}

/// A shelf that records each fetch and answers as the shelf that it asks. Its log is told as long as there is memory to
/// record each fetch.
#[derive(Drop)]
pub struct RecordedShelf<S: Shelf> {
    shelf: S,
    fetches: Vec<Fetch>,
    whole: bool,
}

impl<S: Shelf> Model for RecordedShelf<S> {
    ghost use Rattle.std.specs.Prelude.{map, All};
    ghost use Rattle.tim_base.specs.Recorded.{ShelfRecord, GaveTold, fetch_of};

    ghost Value = { ShelfRecord S };

    ghost view = { λ s. record { shelf = s.shelf; fetches = map fetch_of s.fetches.items; whole = s.whole } };

    ghost invariant = { λ s. All (GaveTold (S.content s.shelf)) (map fetch_of s.fetches.items) };
}

impl<S: Shelf> RecordedShelf<S> {
    /// A shelf of which nothing is fetched so far.
    pub fn new(alloc: Global, shelf: S) -> RecordedShelf<S>
        ensures { result ≡ record { shelf = shelf; fetches = []; whole = true } }
    {
        RecordedShelf {
            shelf,
            fetches: Vec::new(alloc),
            whole: true,
        }
    }

    /// The fetches that are recorded, in order.
    pub fn fetches(&self) -> &[Fetch]
        ensures { map fetch_of result.now ≡ self.now.fetches }
    {
        self.fetches.as_slice()
    }

    /// Whether no fetch is left out.
    pub fn is_whole(&self) -> bool
        ensures { result ≡ self.now.whole }
    {
        self.whole
    }
}

impl<S: Shelf> Shelf for RecordedShelf<S> {
    ghost content = { λ s. S.content s.shelf };

    ghost faults = { λ s. S.faults s.shelf };

    ghost log = { λ s. told_if s.whole s.fetches };

    fn fetch(&mut self, alloc: Global, name: &str, into: &mut Vec<u8>) -> Result<(), FetchFault> {
        let result = self.shelf.fetch(alloc, name, into);
        if record(&mut self.fetches, alloc, name, result, into.as_slice()).is_err() {
            self.whole = false;
        }
        result
    }
}

// Appends a fetch, with the bytes where it gave some.
fn record(
    fetches: &mut Vec<Fetch>,
    alloc: Global,
    name: &str,
    answer: Result<(), FetchFault>,
    bytes: &[u8],
) -> Result<(), Memory>
    ensures ok { OnOk result (map fetch_of fetches.new.items ≡ map fetch_of fetches.old.items ++ fetched name.now answer bytes.now ∷ []) }
    ensures err { OnErr result (map fetch_of fetches.new.items ≡ map fetch_of fetches.old.items) }
{
    let name = Vec::from_slice(alloc, name.as_bytes())?;
    let gave = match answer {
        Ok(()) => Ok(Vec::from_slice(alloc, bytes)?),
        Err(fault) => Err(fault),
    };
    fetches.push(Fetch { name, gave })?;
    Ok(())
}
