//! The parser of a header: labels and the pairs that give their order.

ghost use Rattle.std.specs.Prelude.{None, ◌≡◌, ◌≤◌, ◌<◌, ◌^◌, IfOk, IfErr, MatchResult, length, All};
ghost use Rattle.label_lattice.specs.Order.{AllDiffer};
ghost use Rattle.label_lattice.specs.Chains.{Chain, AreBelow, IsFault, IsBuilt};
ghost use Rattle.mit_parser.specs.declared.fault.ParseFault.TheVariants.{Memory};
ghost use Rattle.mit_parser.specs.Machine.{a_name, names, a_pair, pairs, ordering, header};
ghost use Rattle.mit_parser.specs.Faults.{as_labels, AreNumbersBelow, header_labels, header_pairs};
ghost use Rattle.mit_parser.specs.Tree.{no_header};
ghost use Rattle.mit_parser.specs.State.{with_fault};
ghost use Rattle.mit_parser.specs.Reads.{Refused};
ghost use Rattle.mit_parser.specs.Headers.{AddsLabel, AreLabels, IsNumber, IsPair, ArePairs, IsOrdering, Makes, IsHeader};

use crate::fault::ParseFault;
use crate::parser::Parser;
use indexmap::IndexSet;
use label_lattice::fault::LatticeFault;
use label_lattice::label::{Label, MAX_LABELS};
use label_lattice::lattice::Lattice;
use label_lattice::name::Name;
use mit_syntax::token::{Keyword, Sign};
use std::alloc::Global;
use text_base::pos::Pos;

/// The lattice of the labels, where they make one, and the pairs that give their order.
#[derive(Drop)]
pub struct Header {
    pub lattice: Option<Lattice>,
    pub pairs: Vec<(Label, Label)>,
}

/// The labels with these numbers, which are those of labels.
fn as_labels(alloc: Global, numbers: &[(usize, usize)]) -> Result<Vec<(Label, Label)>, ParseFault>
    requires { AreNumbersBelow MAX_LABELS numbers.now }
    ensures { MatchResult result (λ v. v.items ≡ as_labels numbers.now) (λ f. f ≡ Memory) }
{
    let mut pairs = Vec::new(alloc);
    for i in 0..numbers.len() {
        let (low, high) = numbers[i];
        pairs.push((Label::new(low as u8), Label::new(high as u8)))?;
    }
    Ok(pairs)
}

/// The lattice of labels with these names, in which one flows to another where pairs lead there. It is large: what makes
/// it stands on the stack only while it is made.
#[inline(never)]
fn lattice_of(names: &[Name], pairs: &[(Label, Label)]) -> Result<Lattice, LatticeFault>
    requires some { 0 < length names.now }
    requires many { length names.now ≤ 2 ^ 31 }
    requires differ { AllDiffer names.now }
    requires pairs { AreBelow (length names.now) pairs.now }
    ensures built { IfOk result (IsBuilt names.now pairs.now) }
    ensures fault { IfErr result (IsFault (length names.now) (Chain pairs.now)) }
{
    Lattice::build(names, pairs)
}

impl<'a> Parser<'a> {
    // Adds a label, unless there is one with this name.
    fn add_label(
        &mut self,
        labels: &mut IndexSet<Name>,
        name: Name,
        pos: Pos,
    ) -> Result<(), ParseFault>
        ensures { MatchResult result (λ _. AddsLabel name pos labels.old.keys labels.new.keys self.old self.new) (λ f. f ≡ Memory) }
    {
        match labels.get_index_of(&name) {
            Some(_) => {
                self.note(Some(ParseFault::Twice(pos)));
                Ok(())
            }
            None => {
                labels.insert(name)?;
                Ok(())
            }
        }
    }

    // name { "," name }
    fn labels(&mut self, alloc: Global) -> Result<IndexSet<Name>, ParseFault>
        ensures { MatchResult result (λ v. AreLabels v.keys self.old self.new) (Refused names self.old self.new) }
    {
        let mut labels = IndexSet::new(alloc);
        let (name, pos) = self.name()?;
        self.add_label(&mut labels, name, pos)?;
        while self.at_sign(Sign::Comma) {
            self.advance()?;
            let (name, pos) = self.name()?;
            self.add_label(&mut labels, name, pos)?;
        }
        Ok(labels)
    }

    // The number of a label by its name, which is noted where it is no label's.
    fn label_number(&mut self, labels: &IndexSet<Name>) -> Result<usize, ParseFault>
        ensures { MatchResult result (λ n. IsNumber labels.now.keys n self.old self.new) (Refused a_name self.old self.new) }
    {
        let (name, pos) = self.name()?;
        match labels.get_index_of(&name) {
            Some(number) => Ok(number),
            None => {
                self.note(Some(ParseFault::Unknown(pos)));
                Ok(0)
            }
        }
    }

    // pair = name "<" name
    fn pair(&mut self, labels: &IndexSet<Name>) -> Result<(usize, usize), ParseFault>
        ensures { MatchResult result (λ n. IsPair labels.now.keys n self.old self.new) (Refused a_pair self.old self.new) }
    {
        let low = self.label_number(labels)?;
        self.sign(Sign::Less)?;
        let high = self.label_number(labels)?;
        Ok((low, high))
    }

    // pair { "," pair }
    fn pairs(
        &mut self,
        alloc: Global,
        labels: &IndexSet<Name>,
    ) -> Result<Vec<(usize, usize)>, ParseFault>
        ensures { MatchResult result (λ v. ArePairs labels.now.keys v.items self.old self.new) (Refused pairs self.old self.new) }
    {
        let mut list = Vec::new(alloc);
        let first = self.pair(labels)?;
        list.push(first)?;
        while self.at_sign(Sign::Comma) {
            self.advance()?;
            let next = self.pair(labels)?;
            list.push(next)?;
        }
        Ok(list)
    }

    // [ "order" pair { "," pair } ";" ]
    fn ordering(
        &mut self,
        alloc: Global,
        labels: &IndexSet<Name>,
    ) -> Result<Vec<(usize, usize)>, ParseFault>
        ensures { MatchResult result (λ v. IsOrdering labels.now.keys v.items self.old self.new) (Refused ordering self.old self.new) }
    {
        if !self.accept_key(Keyword::Order)? {
            return Ok(Vec::new(alloc));
        }
        let list = self.pairs(alloc, labels)?;
        self.sign(Sign::Semicolon)?;
        Ok(list)
    }

    // The lattice of these labels, unless there was a fault of names. Where they make none, that is noted.
    fn build(
        &mut self,
        alloc: Global,
        labels: &[Name],
        numbers: &[(usize, usize)],
    ) -> Result<Header, ParseFault>
        requires some { 0 < length labels.now }
        requires few { length labels.now ≤ 2 ^ 31 }
        requires differ { AllDiffer labels.now }
        requires numbers { AreNumbersBelow (length labels.now) numbers.now }
        ensures { MatchResult result (λ h. (self.new ≡ with_fault self.old self.new.fault)
            × Makes labels.now (as_labels numbers.now) self.old.fault h.lattice h.pairs.items self.new.fault) (λ f. f ≡ Memory) }
    {
        if self.fault().is_some() {
            return Ok(Header {
                lattice: None,
                pairs: Vec::new(alloc),
            });
        }
        if labels.len() > MAX_LABELS as usize {
            let fault = LatticeFault::TooMany(labels.len() as u32);
            self.note(Some(ParseFault::Lattice(fault)));
            return Ok(Header {
                lattice: None,
                pairs: Vec::new(alloc),
            });
        }
        let pairs = as_labels(alloc, numbers)?;
        match lattice_of(labels, &pairs) {
            Ok(lattice) => Ok(Header {
                lattice: Some(lattice),
                pairs,
            }),
            Err(fault) => {
                self.note(Some(ParseFault::Lattice(fault)));
                Ok(Header {
                    lattice: None,
                    pairs,
                })
            }
        }
    }

    // Without a header the labels are L and H, of which L flows to H.
    fn standard(&mut self, alloc: Global) -> Result<Header, ParseFault>
        ensures { MatchResult result (λ h. (self.new ≡ with_fault self.old self.new.fault)
            × Makes (header_labels no_header).names (header_pairs no_header) self.old.fault h.lattice h.pairs.items self.new.fault) (λ f. f ≡ Memory) }
    {
        let Some(low) = Name::read(b"L") else {
            unreachable!()
        };
        let Some(high) = Name::read(b"H") else {
            unreachable!()
        };
        self.build(alloc, &[low, high], &[(0, 1)])
    }

    /// [ "labels" name { "," name } ";" [ "order" pair { "," pair } ";" ] ], the first part of a program
    #[inline(never)]
    pub fn header(&mut self, alloc: Global) -> Result<Header, ParseFault>
        requires { self.old.fault ≡ None }
        ensures { MatchResult result (λ h. IsHeader h.lattice h.pairs.items self.old self.new) (Refused header self.old self.new) }
    {
        self.laws();
        if !self.accept_key(Keyword::Labels)? {
            return self.standard(alloc);
        }
        let labels = self.labels(alloc)?;
        self.sign(Sign::Semicolon)?;
        let numbers = self.ordering(alloc, &labels)?;
        self.build(alloc, labels.as_slice(), &numbers)
    }
}
