//! The declared variables: their names, labels, lengths and numbers.

ghost use Rattle.std.specs.Prelude.{◌≡◌, ◌<◌, ◌≤◌, ◌+◌, length, map, slice_get, Some, IfOk};
ghost use Rattle.label_lattice.specs.Order.{AllDiffer};
ghost use Rattle.mit_syntax.specs.Declarations.{cell_at, cell_of, variables, find_scalar, find_array, size_of, first_of, AreFew};

use indexmap::IndexMap;
use label_lattice::label::Label;
use label_lattice::name::Name;
use std::alloc::{AllocError, Global};
use std::marker::Model;

/// The most declarations that a program may have.
pub const MAX_VARIABLES: u32 = 1024;

/// The most that the lengths of all arrays may sum up to.
pub const MAX_ELEMENTS: u32 = 2048;

/// The most variables that a program may have, each element of an array counted.
pub const MAX_CELLS: u32 = MAX_VARIABLES + MAX_ELEMENTS;

/// The same as a length: for how many variables a list has room.
pub const CELLS: usize = MAX_CELLS as usize;

/// A declaration: the label where it is written, and the length of an array.
#[derive(Clone, Copy, Debug, PartialEq, Eq)]
pub struct Decl {
    pub label: Option<Label>,
    pub length: Option<u32>,
}

/// How many variables a declaration declares: an array has one for each element.
fn size_of(decl: Decl) -> u32
    ensures { result ≡ size_of decl }
{
    match decl.length {
        None => 1,
        Some(length) => length,
    }
}

/// The declarations of a program. Variables are numbered from 0 in order of declaration, and each
/// element of an array is a variable.
#[derive(Drop)]
pub struct Variables {
    table: IndexMap<Name, Decl>,
    /// The number of the first variable of each declaration, and then the number of all variables.
    firsts: Vec<u32>,
}

impl Model for Variables {
    ghost use Rattle.std.specs.Prelude.{List};
    ghost use Rattle.mit_syntax.specs.Declarations.{Declaration};

    ghost Value = { List Declaration };

    ghost use Rattle.mit_syntax.specs.Firsts.{entries_of, AreFirsts};

    ghost view = { entries_of };

    ghost invariant = { AreFirsts };
}

fn entry(table: &IndexMap<Name, Decl>, k: usize) -> (Name, Decl)
    requires { k < length table.now.entries }
    ensures { slice_get table.now.entries k ≡ Some result }
{
    match table.get_index(k) {
        Some((name, decl)) => (*name, *decl),
        None => unreachable!(),
    }
}

impl Variables {
    /// The variables of these declarations.
    ///
    /// # Errors
    /// `AllocError` where memory runs out.
    pub fn of(alloc: Global, table: IndexMap<Name, Decl>) -> Result<Variables, AllocError>
        requires { AreFew table.entries }
        ensures { IfOk result (λ v. v ≡ table.entries) }
    {
        let mut firsts = Vec::with_capacity(alloc, table.len() + 1)?;
        let mut next = 0;
        for k in 0..table.len() {
            firsts.push(next)?;
            next += size_of(entry(&table, k).1);
        }
        firsts.push(next)?;
        Ok(Variables { table, firsts })
    }

    /// Says nothing at run time: what is true of all declarations of a program.
    pub fn laws(&self)
        ensures few { AreFew self.now }
        ensures differ { AllDiffer (map (λ d. d.0) self.now) }
    {
        let _ = self.table.len();
    }

    /// How many variables there are, each element of an array counted.
    pub fn count(&self) -> u32
        ensures value { result ≡ variables self.now }
        ensures few { AreFew self.now }
    {
        self.firsts[self.table.len()]
    }

    /// How many declarations there are.
    pub fn len(&self) -> usize
        ensures value { result ≡ length self.now }
        ensures few { AreFew self.now }
    {
        self.table.len()
    }

    /// A declaration, by its place among all.
    pub fn declaration(&self, k: usize) -> (Name, Decl)
        requires { k < length self.now }
        ensures { slice_get self.now k ≡ Some result }
    {
        entry(&self.table, k)
    }

    /// The number of the scalar with a name, or `None` where no scalar has it.
    pub fn find_variable(&self, name: &Name) -> Option<u32>
        ensures { result ≡ find_scalar self.now name.now }
    {
        let k = self.table.get_index_of(name)?;
        match entry(&self.table, k).1.length {
            None => Some(self.firsts[k]),
            Some(_) => None,
        }
    }

    /// The first variable and the length of the array with a name, or `None` where no array has it.
    pub fn find_array(&self, name: &Name) -> Option<(u32, u32)>
        ensures { result ≡ find_array self.now name.now }
    {
        let k = self.table.get_index_of(name)?;
        match entry(&self.table, k).1.length {
            None => None,
            Some(length) => Some((self.firsts[k], length)),
        }
    }

    // The place of the declaration of a variable.
    fn owner(&self, x: u32) -> usize
        requires { x < variables self.now }
        ensures within { result < length self.now }
        ensures from { first_of self.now result ≤ x }
        ensures to { x < first_of self.now (result + 1) }
    {
        let mut low = 0;
        let mut high = self.table.len();
        while high - low > 1 {
            let middle = low + (high - low) / 2;
            if self.firsts[middle] <= x {
                low = middle;
            } else {
                high = middle;
            }
        }
        low
    }

    // The name and the declaration of a variable, and how many of that declaration come before it.
    fn cell(&self, x: u32) -> (Name, Decl, u32)
        requires { x < variables self.now }
        ensures { cell_at self.now x ≡ cell_of result.0 result.1 result.2 }
    {
        let k = self.owner(x);
        let (name, decl) = entry(&self.table, k);
        (name, decl, x - self.firsts[k])
    }

    /// The name of a variable, whose number is below the count. An element has its array's name.
    pub fn name(&self, x: u32) -> Name
        requires { x < variables self.now }
        ensures { result ≡ (cell_at self.now x).name }
    {
        self.cell(x).0
    }

    /// The label of a variable, whose number is below the count, or `None` where none is written.
    pub fn label(&self, x: u32) -> Option<Label>
        requires { x < variables self.now }
        ensures { result ≡ (cell_at self.now x).label }
    {
        self.cell(x).1.label
    }

    /// The place in its array of a variable, whose number is below the count, or `None` for a scalar.
    pub fn element(&self, x: u32) -> Option<u32>
        requires { x < variables self.now }
        ensures { result ≡ (cell_at self.now x).place }
    {
        let (_, decl, place) = self.cell(x);
        match decl.length {
            None => None,
            Some(_) => Some(place),
        }
    }
}
