//! A first run: a command that can be done, and what it answers. The laws do nothing at run time: their contracts say
//! what is true.

ghost use Rattle.std.specs.Prelude.{◌≡◌, ◌≢◌, ◌≤◌, ◌⊎◌, ℕ, List, Option, Some, None, map, string_bytes};
ghost use Rattle.std.specs.Io.KnownBytes.{Appends};
ghost use Rattle.tim_base.specs.Faults.{Rose};
ghost use Rattle.tool_words.specs.declared.words.EnvName.TheVariants.{Flat};
ghost use Rattle.tool_words.specs.WordsAsked.{command_of, run};
ghost use Rattle.tool_texts.specs.Texts.{memory_line};
ghost use Rattle.tool_texts.specs.Ends.{EndsBy};
ghost use Rattle.tool_stages.specs.Content.{Content};
ghost use Rattle.mit_tool.specs.Commands.{IsAnswer, Before};
ghost use Rattle.mit_tool.specs.Complete.{CanBeDone};
ghost use Rattle.tool_laws.specs.FirstRun.{first_file, first_words, first_text, first_answer};

use mit_tool::laws::one_answer;
use mit_tool::mitigate_main;
use std::alloc::Global;
use tim_base::shelf::Shelf;
use tim_base::sink::Sink;
use tool_texts::status::Status;

/// The words ask for a run of the file in the environment without caches, for at most a million cycles, of which all
/// assignments are shown.
pub fn first_words_ask_for_the_run()
    ensures { command_of first_words ≡ Some (run first_file None Flat 1000000 None) }
{}

/// A run of a file that is told to hold the first text can be done, in that environment and with a budget of three
/// cycles or more.
pub fn first_run_can_be_done()
    ensures { (content : Content) (file : List ℕ) (budget : ℕ) → content file ≡ Some (Some first_text) → 3 ≤ budget
        → CanBeDone content (run file None Flat budget None) }
{}

/// The first answer is an answer to it, whatever counts of faults rose.
pub fn first_run_has_its_answer()
    ensures { (content : Content) (before now : List ℕ → ℕ) (file : List ℕ) (budget : ℕ) → content file ≡ Some (Some first_text) → 3 ≤ budget
        → IsAnswer (λ name. Rose (before name) (now name)) content (run file None Flat budget None) Status.Done first_answer }
{}

/// Where the file's count of faults did not rise, a call that asks for the run and meets no fault of the sink ends
/// with the first answer written, or with the line for memory.
pub fn first_run_ends_with_its_answer()
    ensures { (content : Content) (before now : List ℕ → ℕ) (file : List ℕ) (budget : ℕ) → content file ≡ Some (Some first_text) → 3 ≤ budget
        → (Rose (before file) (now file) → ⊥) → (old new : Option (List ℕ)) (s : Status)
        → EndsBy old new (Before content (run file None Flat budget None))
        (IsAnswer (λ name. Rose (before name) (now name)) content (run file None Flat budget None)) s
        → s ≢ Status.WriteFault
        → ((s ≡ Status.Done) × Appends old new first_answer) ⊎ ((s ≡ Status.Memory) × Appends old new memory_line) }
{
    one_answer();
}

/// Does what words ask for. Where these are the first words, the shelf tells that the first file holds the first
/// text, and no count of faults rose, neither the file's nor the sink's, the first answer is written, or the line for
/// memory.
pub fn first_call<S: Shelf, W: Sink>(
    alloc: Global,
    words: &[String],
    shelf: &mut S,
    out: &mut W,
) -> Status
    ensures { map string_bytes words.now ≡ first_words → S.content shelf.old first_file ≡ Some (Some first_text)
        → (Rose (S.faults shelf.old first_file) (S.faults shelf.new first_file) → ⊥) → (Rose (W.faults out.old) (W.faults out.new) → ⊥)
        → ((result ≡ Status.Done) × Appends (W.taken out.old) (W.taken out.new) first_answer)
        ⊎ ((result ≡ Status.Memory) × Appends (W.taken out.old) (W.taken out.new) memory_line) }
{
    one_answer();
    mitigate_main(alloc, words, shelf, out)
}
