//! Laws of the parser. The functions do nothing at run time: their contracts say what is true.

ghost use Rattle.std.specs.Prelude.{◌≡◌, ◌≢◌, ◌↔◌, ℕ, List, None};
ghost use Rattle.mit_parser.specs.declared.fault.ParseFault.{ParseFault};
ghost use Rattle.mit_parser.specs.declared.fault.ParseFault.TheVariants.{Memory};
ghost use Rattle.mit_parser.specs.Words.{Symbol, Told, told};
ghost use Rattle.mit_parser.specs.Tree.{ProgramTree};
ghost use Rattle.mit_parser.specs.Faults.{header_fault, body_fault};
ghost use Rattle.mit_parser.specs.Named.{IsNamed};
ghost use Rattle.mit_parser.specs.Spells.{Spells, IsProgram, Refuses};
ghost use Rattle.mit_syntax.specs.declared.token.Token.{Token};
ghost use Rattle.mit_syntax.specs.declared.fault.TextFault.{TextFault};
ghost use Rattle.mit_syntax.specs.declared.fault.TextFault.TheVariants as text_fault;
ghost use Rattle.mit_syntax.specs.Cut.{AreTokens, IsFault};
ghost use Rattle.mit_syntax.specs.Program.{Syntax};
ghost use Rattle.mit_syntax.specs.Valid.{IsValid};
ghost use Rattle.mit_syntax.specs.Layout.{canonical};
ghost use Rattle.parse_laws.specs.Spelled.{IsSpelled};
ghost use Rattle.parse_laws.specs.Grammar.{symbols, IsSpelt};
ghost use Rattle.parse_laws.specs.ReadBack.{ReadsBack, Same};
ghost use Rattle.parse_laws.specs.TextWords.{AreWords};

/// One tree at most spells the words.
pub fn one_tree()
    ensures { (words : List Told) (t u : ProgramTree) → Spells t words → Spells u words → t ≡ u }
{}

/// The names of a tree are right exactly where nothing is found that is wrong with them, its lattice aside.
pub fn no_fault_is_named()
    ensures { (t : ProgramTree) → IsNamed t ↔ ((header_fault t.header ≡ None) × (body_fault t ≡ None)) }
{}

/// Words that spell a program within the limits, whose names are right and whose labels make a lattice, are
/// refused for want of memory alone.
pub fn spelled_is_not_refused()
    ensures { (words : List Told) → IsSpelled words → (f : ParseFault) → Refuses words f → f ≡ Memory }
{}

/// Words that are a program are refused for want of memory alone.
pub fn program_is_not_refused()
    ensures { (words : List Told) (s : Syntax) → IsProgram words s → (f : ParseFault) → Refuses words f → f ≡ Memory }
{}

/// A text has one list of tokens at most; where it has one, no fault of the text is told but want of memory; and
/// want of memory aside it has one fault at most.
pub fn one_cut()
    ensures tokens { (text : List ℕ) (a b : List Token) → AreTokens text a → AreTokens text b → a ≡ b }
    ensures no_fault { (text : List ℕ) (tokens : List Token) → AreTokens text tokens → (f : TextFault) → IsFault text f → f ≡ text_fault.Memory }
    ensures fault { (text : List ℕ) (f g : TextFault) → IsFault text f → IsFault text g
        → f ≢ text_fault.Memory → g ≢ text_fault.Memory → f ≡ g }
{}

/// Words are refused for one reason at most, want of memory aside.
pub fn one_refusal()
    ensures { (words : List Told) (f g : ParseFault) → Refuses words f → Refuses words g → f ≢ Memory → g ≢ Memory → f ≡ g }
{}

/// The grammar, which tells of no position and of no tree: words are spelt by it exactly where they are a program, but for the
/// positions of its commands.
pub fn programs_are_spelt()
    ensures { (words : List Told) (p : Syntax) → IsSpelt (symbols words) p ↔ ((q : Syntax) × IsProgram words q × Same q p) }
{}

/// The words of a text, which its pieces say, are what its tokens say.
pub fn words_are_cut()
    ensures { (text : List ℕ) (words : List Symbol)
        → AreWords text words ↔ ((tokens : List Token) × AreTokens text tokens × (words ≡ symbols (told text tokens))) }
{}

/// Words are one program at most.
pub fn one_program()
    ensures { (words : List Told) (s u : Syntax) → IsProgram words s → IsProgram words u → s ≡ u }
{}

/// The canonical text of a program reads back as the program, but for the positions of its commands.
pub fn canonical_reads_back()
    ensures { (s : Syntax) → IsValid s → ReadsBack (canonical s) s }
{}

/// Whatever program the canonical text of a program is, it is that program, but for the positions of its
/// commands.
pub fn canonical_is_one_program()
    ensures { (s : Syntax) → IsValid s → (tokens : List Token) → AreTokens (canonical s) tokens
        → (u : Syntax) → IsProgram (told (canonical s) tokens) u → Same u s }
{}
