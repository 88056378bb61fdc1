//! A first audit: a program with one relevant mitigate, two starts, and what the theorem and the tool say of them. The
//! laws do nothing at run time: their contracts say what is true.

ghost use Rattle.std.specs.Prelude.{◌≡◌, ◌<◌, ◌⊎◌, ◌∷◌, [], ℕ, List, Option, Some, map, string_bytes, codes};
ghost use Rattle.std.specs.Io.KnownBytes.{Appends};
ghost use Rattle.tim_base.specs.Faults.{Rose};
ghost use Rattle.mit_syntax.specs.Program.{Syntax};
ghost use Rattle.made_laws.specs.MadeStarts.{IsMade};
ghost use Rattle.tool_words.specs.declared.words.EnvName.TheVariants.{Part};
ghost use Rattle.tool_words.specs.WordsAsked.{command_of, audit};
ghost use Rattle.tool_texts.specs.Texts.{memory_line};
ghost use Rattle.tool_stages.specs.Content.{Content, NoneRises};
ghost use Rattle.mit_tool.specs.Commands.{IsAnswer};
ghost use Rattle.mit_tool.specs.Complete.{CanBeDone};
ghost use Rattle.tool_laws.specs.FirstAudit.{program_text, starts_text, program_file, starts_file, budget, audit_words, audit_answer, IsMet};

use made_laws::words::made_text_has_words;
use mit_tool::laws::one_answer;
use mit_tool::mitigate_main;
use std::alloc::Global;
use tim_base::shelf::Shelf;
use tim_base::sink::Sink;
use tool_texts::status::Status;

/// The premises of the theorem can be met, and there is something to bound: a file that is told to hold the program
/// holds an accepted one. Two starts of it that differ in the secret alone agree for the observer, halt, and begin one
/// relevant mitigate each, and the observer sees different sequences, in each environment.
pub fn theorem_is_met()
    ensures { (content : Option (Option (List ℕ))) → content ≡ Some (Some program_text) → IsMet content }
{}

/// The words ask for an audit of the two starts for the observer L, under one level of caches, for at most a thousand
/// cycles.
pub fn audit_words_ask_for_the_audit()
    ensures { command_of audit_words ≡ Some (audit program_file starts_file (codes "L") Part budget) }
{}

/// That audit of files that are told to hold the program and its starts can be done.
pub fn first_audit_can_be_done()
    ensures { (content : Content) (file starts : List ℕ) → content file ≡ Some (Some program_text) → content starts ≡ Some (Some starts_text)
        → CanBeDone content (audit file starts (codes "L") Part budget) }
{}

/// The answer is one to it, whatever counts of faults rose.
pub fn first_audit_has_its_answer()
    ensures { (content : Content) (before now : List ℕ → ℕ) (file starts : List ℕ)
        → content file ≡ Some (Some program_text) → content starts ≡ Some (Some starts_text)
        → IsAnswer (λ name. Rose (before name) (now name)) content (audit file starts (codes "L") Part budget) Status.Done audit_answer }
{}

/// Where no count of faults of the two files rose, there is no other.
pub fn first_audit_has_one_answer()
    ensures { (content : Content) (before now : List ℕ → ℕ) (file starts : List ℕ)
        → content file ≡ Some (Some program_text) → content starts ≡ Some (Some starts_text)
        → NoneRises (λ name. Rose (before name) (now name)) (file ∷ starts ∷ [])
        → (s : Status) (t : List ℕ) → IsAnswer (λ name. Rose (before name) (now name)) content (audit file starts (codes "L") Part budget) s t
        → (s ≡ Status.Done) × (t ≡ audit_answer) }
{
    one_answer();
}

/// There is a made program of every size and number: what is said of made programs is said of some.
pub fn made_program_exists(size: u32, number: u32)
    requires { 0 < size }
    ensures { (p : Syntax) × IsMade size number p }
{
    made_text_has_words(size, number);
}

/// Does what words ask for. Where these are the words of the audit, the shelf tells that the two files hold the program
/// and its starts, and no count of faults rose, neither the files' nor the sink's, the audit's answer is written, or the
/// line for memory.
pub fn audit_call<S: Shelf, W: Sink>(
    alloc: Global,
    words: &[String],
    shelf: &mut S,
    out: &mut W,
) -> Status
    ensures { map string_bytes words.now ≡ audit_words → S.content shelf.old program_file ≡ Some (Some program_text)
        → S.content shelf.old starts_file ≡ Some (Some starts_text)
        → (Rose (S.faults shelf.old program_file) (S.faults shelf.new program_file) → ⊥)
        → (Rose (S.faults shelf.old starts_file) (S.faults shelf.new starts_file) → ⊥)
        → (Rose (W.faults out.old) (W.faults out.new) → ⊥)
        → ((result ≡ Status.Done) × Appends (W.taken out.old) (W.taken out.new) audit_answer)
        ⊎ ((result ≡ Status.Memory) × Appends (W.taken out.old) (W.taken out.new) memory_line) }
{
    one_answer();
    mitigate_main(alloc, words, shelf, out)
}
