//! The parser of declarations.

ghost use Rattle.std.specs.Prelude.{◌≡◌, ◌≤◌, ◌<◌, ◌^◌, ◌+◌, ◌++◌, ◌∷◌, [], None, IfOk, MatchResult, is_some, length};
ghost use Rattle.mit_syntax.specs.Declarations.{declared, elements_in, length_in, AreFew};
ghost use Rattle.mit_parser.specs.declared.fault.ParseFault.TheVariants.{Memory};
ghost use Rattle.mit_parser.specs.Machine.{a_shape, a_declaration, declarations};
ghost use Rattle.mit_parser.specs.State.{with_fault};
ghost use Rattle.mit_parser.specs.Scope.{labels_in, kept};
ghost use Rattle.mit_parser.specs.Faults.{length_fault, declaration_fault, decl_of, written_label, written_length, many_fault, is_bad_size};
ghost use Rattle.mit_parser.specs.Reads.{Refused};
ghost use Rattle.mit_parser.specs.Headers.{IsShape, Declares, IsDeclaration, AreDeclarations, AreVariables};

use crate::fault::ParseFault;
use crate::names::{label_fault, label_or_first};
use crate::parser::Parser;
use indexmap::IndexMap;
use label_lattice::label::Label;
use label_lattice::lattice::Lattice;
use label_lattice::name::Name;
use mit_syntax::declarations::{Decl, MAX_ELEMENTS, MAX_VARIABLES, Variables};
use mit_syntax::token::{Keyword, Sign};
use std::alloc::{AllocError, Global};
use std::marker::Model;
use text_base::pos::Pos;

/// The label and the length that a declaration writes, each with its position.
#[derive(Clone, Copy)]
pub struct Shape {
    pub label: Option<(Name, Pos)>,
    pub length: Option<(i64, Pos)>,
}

/// The declarations so far, and the sum of the lengths of their arrays.
#[derive(Drop)]
pub struct Table {
    entries: IndexMap<Name, Decl>,
    elements: u32,
}

impl Model for Table {
    ghost use Rattle.std.specs.Prelude.{List};
    ghost use Rattle.mit_syntax.specs.Declarations.{Declaration};

    ghost Value = { List Declaration };

    ghost use Rattle.mit_parser.specs.Sums.{entries_of, IsSummed};

    ghost view = { entries_of };

    ghost invariant = { IsSummed };
}

// How much a declaration adds to the lengths of arrays.
fn length_of(length: Option<u32>) -> u32
    ensures { result ≡ length_in length }
{
    match length {
        None => 0,
        Some(length) => length,
    }
}

// Whether a length is 0, or too much beside this many elements.
fn is_bad_size(length: i64, elements: u32) -> bool
    requires { elements ≤ MAX_ELEMENTS }
    ensures { result ≡ is_bad_size length elements }
{
    length <= 0 || length > i64::from(MAX_ELEMENTS - elements)
}

impl Table {
    fn new(alloc: Global) -> Table
        ensures { result ≡ [] }
    {
        Table {
            entries: IndexMap::new(alloc),
            elements: 0,
        }
    }

    // Says nothing at run time: what is true of every table.
    fn laws(&self)
        ensures { elements_in self.now ≤ MAX_ELEMENTS }
    {
        let _ = &self.elements;
    }

    fn len(&self) -> usize
        ensures { result ≡ length self.now }
    {
        self.entries.len()
    }

    fn is_declared(&self, name: &Name) -> bool
        ensures { result ≡ is_some (declared self.now name.now) }
    {
        self.entries.get_index_of(name).is_some()
    }

    fn length_fault(&self, length: Option<(i64, Pos)>) -> Option<ParseFault>
        ensures { result ≡ length_fault self.now length }
    {
        match length {
            None => None,
            Some((length, pos)) => {
                if is_bad_size(length, self.elements) {
                    Some(ParseFault::Size(pos))
                } else {
                    None
                }
            }
        }
    }

    // What is wrong with a declaration after these.
    fn fault(
        &self,
        lattice: &Option<Lattice>,
        name: &Name,
        pos: Pos,
        shape: &Shape,
    ) -> Option<ParseFault>
        ensures { result ≡ declaration_fault (labels_in lattice.now) self.now name.now pos shape.now.label shape.now.length }
    {
        if self.is_declared(name) {
            return Some(ParseFault::Twice(pos));
        }
        if let Some(fault) = self.length_fault(shape.length) {
            return Some(fault);
        }
        match &shape.label {
            None => None,
            Some((name, pos)) => label_fault(lattice, name, *pos),
        }
    }

    // A length in which nothing is wrong.
    fn written_length(&self, length: Option<(i64, Pos)>) -> Option<u32>
        requires { length_fault self.now length ≡ None }
        ensures value { result ≡ written_length length }
        ensures few { elements_in self.now + length_in result ≤ MAX_ELEMENTS }
    {
        self.laws();
        match length {
            None => None,
            Some((length, _)) => Some(length as u32),
        }
    }

    fn insert(&mut self, name: Name, decl: Decl) -> Result<(), ParseFault>
        requires absent { declared self.old name ≡ None }
        requires few { elements_in self.old + length_in decl.length ≤ MAX_ELEMENTS }
        ensures { MatchResult result (λ _. self.new ≡ self.old ++ (name, decl) ∷ []) (λ f. f ≡ Memory) }
    {
        self.entries.insert(name, decl)?;
        self.elements += length_of(decl.length);
        Ok(())
    }

    // The declarations, unless there are too many.
    fn into_variables(self, alloc: Global) -> Result<Variables, AllocError>
        ensures { IfOk result (λ v. length self ≤ MAX_VARIABLES → v ≡ self) }
    {
        if self.entries.len() > MAX_VARIABLES as usize {
            return Variables::of(alloc, IndexMap::new(alloc));
        }
        Variables::of(alloc, self.entries)
    }
}

// The label that is written, where one is.
fn written_label(lattice: &Option<Lattice>, label: &Option<(Name, Pos)>) -> Option<Label>
    ensures { result ≡ written_label (labels_in lattice.now) label.now }
{
    match label {
        None => None,
        Some((name, _)) => Some(label_or_first(lattice, name)),
    }
}

impl<'a> Parser<'a> {
    // [ ":" name ] | "[" number "]" ":" name
    fn shape(&mut self) -> Result<Shape, ParseFault>
        ensures { MatchResult result (λ s. IsShape s.label s.length self.old self.new) (Refused a_shape self.old self.new) }
    {
        if self.accept_sign(Sign::LeftSquare)? {
            let length = self.number()?;
            self.sign(Sign::RightSquare)?;
            self.sign(Sign::Colon)?;
            let label = self.name()?;
            return Ok(Shape {
                label: Some(label),
                length: Some(length),
            });
        }
        if !self.accept_sign(Sign::Colon)? {
            return Ok(Shape {
                label: None,
                length: None,
            });
        }
        let label = self.name()?;
        Ok(Shape {
            label: Some(label),
            length: None,
        })
    }

    // Adds a declaration, unless there was a fault of names. What is wrong with it is noted.
    fn declare(
        &mut self,
        lattice: &Option<Lattice>,
        table: &mut Table,
        name: Name,
        pos: Pos,
        shape: Shape,
    ) -> Result<(), ParseFault>
        ensures { MatchResult result (λ _. Declares (labels_in lattice.now) name pos shape.label shape.length table.old table.new self.old self.new)
            (λ f. f ≡ Memory) }
    {
        if self.fault().is_some() {
            return Ok(());
        }
        if let Some(fault) = table.fault(lattice, &name, pos, &shape) {
            self.note(Some(fault));
            return Ok(());
        }
        let decl = Decl {
            label: written_label(lattice, &shape.label),
            length: table.written_length(shape.length),
        };
        table.insert(name, decl)
    }

    // decl = "var" name [ ":" name ] ";" | "var" name "[" number "]" ":" name ";"
    fn declaration(
        &mut self,
        lattice: &Option<Lattice>,
        table: &mut Table,
    ) -> Result<(), ParseFault>
        ensures { MatchResult result (λ _. IsDeclaration (labels_in lattice.now) table.old table.new self.old self.new)
            (Refused a_declaration self.old self.new) }
    {
        self.key(Keyword::Var)?;
        let (name, pos) = self.name()?;
        let shape = self.shape()?;
        self.sign(Sign::Semicolon)?;
        self.declare(lattice, table, name, pos, shape)
    }

    // { decl }
    fn table(&mut self, alloc: Global, lattice: &Option<Lattice>) -> Result<Table, ParseFault>
        ensures { MatchResult result (λ t. AreDeclarations (labels_in lattice.now) t self.old self.new) (Refused declarations self.old self.new) }
    {
        let mut table = Table::new(alloc);
        while self.at_key(Keyword::Var) {
            self.declaration(lattice, &mut table)?;
        }
        Ok(table)
    }

    // That there are more declarations than a program may have is noted.
    fn note_many(&mut self, table: &Table)
        requires { length table.now < 2 ^ 32 }
        ensures { self.new ≡ with_fault self.old (kept self.old.fault (many_fault table.now)) }
    {
        let count = table.len();
        if count > MAX_VARIABLES as usize {
            self.note(Some(ParseFault::TooMany(count as u32)));
        }
    }

    /// { decl }, where these are the labels
    pub fn variables(
        &mut self,
        alloc: Global,
        lattice: &Option<Lattice>,
    ) -> Result<Variables, ParseFault>
        ensures { MatchResult result (λ v. AreVariables (labels_in lattice.now) v self.old self.new) (Refused declarations self.old self.new) }
    {
        self.laws();
        let table = self.table(alloc, lattice)?;
        self.note_many(&table);
        match table.into_variables(alloc) {
            Ok(variables) => Ok(variables),
            Err(_) => Err(ParseFault::Memory),
        }
    }
}
