//! The top call: from the words of a command line to the text that is written, and a status.

ghost use Rattle.std.specs.Prelude.{◌≡◌, ◌≤◌, ◌⊎◌, ◌∷◌, [], Some, None, IfSome, IsTrue, map, string_bytes};
ghost use Rattle.tim_base.specs.Kept.{KeepsFiles, NoCountFalls};
ghost use Rattle.tim_base.specs.Faults.{Rose};
ghost use Rattle.tool_words.specs.WordsAsked.{IsInRange, asked_of, command_of, check, recheck};
ghost use Rattle.tool_texts.specs.Ends.{EndsBy, Nothing};
ghost use Rattle.tool_stages.specs.Accepted.{is_past_typing, IsAccepted, TypedAreSound};
ghost use Rattle.tool_stages.specs.Content.{NoneRises};
ghost use Rattle.tool_stages.specs.Fetches.{HasFetched, named_by};
ghost use Rattle.mit_tool.specs.Answers.{IsUsage};
ghost use Rattle.mit_tool.specs.Commands.{files_of, IsAnswer, Before, typed_content, HeldTypes, AreWithin};
ghost use Rattle.mit_tool.specs.Complete.{CanBeDone};
ghost use Rattle.mit_tool.specs.Logged.{HasWritten, ArePieces};
ghost use Rattle.mit_tool.specs.Held.{EndsByOne};
ghost use Rattle.mit_tool.specs.Ran.{RunsSoundly};

use crate::commands::audit::audit_text;
use crate::commands::blackbox::blackbox_text;
use crate::commands::certify::certify_text;
use crate::commands::check::check_line;
use crate::commands::compile::compile_text;
use crate::commands::cut::cut_text;
use crate::commands::generate::gen_text;
use crate::commands::infer::infer_text;
use crate::commands::meaning::meaning;
use crate::commands::recheck::recheck_line;
use crate::commands::run::run;
use black_box::laws::few_release_lists;
use std::alloc::Global;
use tim_base::shelf::Shelf;
use tim_base::sink::Sink;
use tool_stages::laws::typed_are_sound;
use tool_stages::setting::NamedSetting;
use tool_texts::finish::{finish, stop, stop_for_memory, tell};
use tool_texts::status::Status;
use tool_texts::stop::Stop;
use tool_words::words::{Command, WordsFault, read_words};

/// Tells whether the program of a file is accepted.
fn check<S: Shelf, W: Sink>(alloc: Global, shelf: &mut S, out: &mut W, file: &str) -> Status
    ensures same { KeepsFiles (S.content shelf.old) (S.content shelf.new) }
    ensures later { NoCountFalls (S.faults shelf.old) (S.faults shelf.new) }
    ensures later_out { W.faults out.old ≤ W.faults out.new }
    ensures answered { EndsBy (W.taken out.old) (W.taken out.new) Nothing
        (IsAnswer (λ name. Rose (S.faults shelf.old name) (S.faults shelf.new name)) (S.content shelf.old) (check file.now)) result }
    ensures write { result ≡ Status.WriteFault → Rose (W.faults out.old) (W.faults out.new) }
    ensures fetched { HasFetched (file.now ∷ []) result (S.log shelf.old) (S.log shelf.new) }
    ensures pieces { HasWritten (ArePieces (Some (check file.now))) result (W.log out.old) (W.log out.new) }
{
    match check_line(alloc, shelf, file) {
        Ok(line) => finish(out, line.bytes(), Status::Done),
        Err(e) => stop(out, e),
    }
}

/// Tells whether a file holds a certificate of the program of another one.
fn recheck<S: Shelf, W: Sink>(
    alloc: Global,
    shelf: &mut S,
    out: &mut W,
    file: &str,
    certificate: &str,
) -> Status
    ensures same { KeepsFiles (S.content shelf.old) (S.content shelf.new) }
    ensures later { NoCountFalls (S.faults shelf.old) (S.faults shelf.new) }
    ensures later_out { W.faults out.old ≤ W.faults out.new }
    ensures answered { EndsBy (W.taken out.old) (W.taken out.new) Nothing
        (IsAnswer (λ name. Rose (S.faults shelf.old name) (S.faults shelf.new name)) (S.content shelf.old) (recheck file.now certificate.now)) result }
    ensures write { result ≡ Status.WriteFault → Rose (W.faults out.old) (W.faults out.new) }
    ensures fetched { HasFetched (file.now ∷ certificate.now ∷ []) result (S.log shelf.old) (S.log shelf.new) }
    ensures pieces { HasWritten (ArePieces (Some (recheck file.now certificate.now))) result (W.log out.old) (W.log out.new) }
{
    match recheck_line(alloc, shelf, file, certificate) {
        Ok(rechecked) => finish(out, rechecked.bytes(), Status::Done),
        Err(e) => stop(out, e),
    }
}

/// Does what words ask for.
fn obey<S: Shelf, W: Sink>(
    alloc: Global,
    shelf: &mut S,
    out: &mut W,
    command: Command<'_>,
) -> Status
    requires { IsInRange (asked_of command) }
    ensures same { KeepsFiles (S.content shelf.old) (S.content shelf.new) }
    ensures later { NoCountFalls (S.faults shelf.old) (S.faults shelf.new) }
    ensures later_out { W.faults out.old ≤ W.faults out.new }
    ensures answered { EndsBy (W.taken out.old) (W.taken out.new) (Before (S.content shelf.old) (asked_of command.entry))
        (IsAnswer (λ name. Rose (S.faults shelf.old name) (S.faults shelf.new name)) (S.content shelf.old) (asked_of command.entry)) result }
    ensures write { result ≡ Status.WriteFault → Rose (W.faults out.old) (W.faults out.new) }
    ensures fetched { HasFetched (files_of (asked_of command.entry)) result (S.log shelf.old) (S.log shelf.new) }
    ensures pieces { HasWritten (ArePieces (Some (asked_of command.entry))) result (W.log out.old) (W.log out.new) }
{
    match command {
        Command::Check { file } => check(alloc, shelf, out, file),
        Command::Run {
            file,
            starts,
            env,
            budget,
            observer,
        } => {
            let setting = NamedSetting { env, budget };
            run(alloc, shelf, out, file, starts, observer, setting)
        }
        Command::Meaning {
            file,
            starts,
            steps,
        } => meaning(alloc, shelf, out, file, starts, steps),
        Command::Infer { file } => tell(out, infer_text(alloc, shelf, file)),
        Command::Compile { file } => tell(out, compile_text(alloc, shelf, file)),
        Command::Audit {
            file,
            starts,
            observer,
            env,
            budget,
        } => {
            let setting = NamedSetting { env, budget };
            let text = audit_text(alloc, shelf, file, starts, observer, setting, &*out);
            tell(out, text)
        }
        Command::Gen { size, number } => {
            let text = gen_text(alloc, size, number, &*out);
            tell(out, text)
        }
        Command::Blackbox {
            ready,
            first,
            budget,
        } => tell(out, blackbox_text(alloc, shelf, ready, first, budget)),
        Command::Cut {
            file,
            starts,
            observer,
            env,
            budget,
        } => {
            let setting = NamedSetting { env, budget };
            let text = cut_text(alloc, shelf, file, starts, observer, setting, &*out);
            tell(out, text)
        }
        Command::Certify { file } => tell(out, certify_text(alloc, shelf, file)),
        Command::Recheck { file, certificate } => recheck(alloc, shelf, out, file, certificate),
    }
}

/// Does what the words of a command line ask for: reads files from a shelf, writes a text, and tells how it
/// ended. The words don't hold the program's name. A run and a run without its time write a line at a time;
/// every other text is written as one.
///
/// `ran`: where `run` is done, or its budget is spent, the file spells a program that its least labelling types, its image
/// is sound, and the text is what the run of this image tells, from the first start up to the budget, as the observer sees it.
///
/// `answered`: the status and the text are the answer to the command that the words ask for, in the order of its
/// refusals, from what the shelf is told to hold; a file may not be read only where the count of its faults rose.
/// Where memory was wanting the text is the line for that, which in a run without its time stands after the
/// lines of some of its steps. After a fault of the sink a prefix of the text is written.
///
/// `usage`: words that ask for nothing get the usage text.
///
/// `sound`: of every program that tokens spell, with each labelling that types it, in each environment the image does
/// what the program does, and shows few different sequences.
///
/// `accepted`: where a command that wants a typed program came past the typing, as `Done`, `Starts`, `Budget`,
/// `Disagree` and `Unfinished` tell, the text of its file, or the made text, spells a program, and the least labelling
/// types it; so it is one that `sound` speaks of.
///
/// `rechecked`: where `recheck` is done, the labelling that the certificate holds types the program, also where it is
/// not the least one; so `sound` speaks of this too.
///
/// `complete`: a command that can be done is done, want of memory aside, where no count of faults rose, neither that
/// of a file that the words name nor that of the sink.
///
/// `one`: there is one content, which has what the shelf tells wherever it tells, of which these four hold together; so
/// the text is the answer by the very bytes whose program is accepted. Only a file that is named twice has to be told,
/// since its two readings may differ.
///
/// `fetched`: of the files that the words name the first ones are fetched, in their order, each once, and none after one
/// that gave no bytes. A read fault is told where the last fetch failed and only there, unless its line could not be
/// written.
///
/// `pieces`: a run and a meaning are written a line a piece, and each other text is one piece; after a write that failed
/// nothing is written.
///
/// `bounded`: the number of different sequences that an audit, a cut or a made audit prints is at most the bound that it
/// prints, and so is the number of different lists of releases.
pub fn mitigate_main<S: Shelf, W: Sink>(
    alloc: Global,
    words: &[String],
    shelf: &mut S,
    out: &mut W,
) -> Status
    ensures answered { IfSome (command_of (map string_bytes words.now)) (λ a.
        EndsBy (W.taken out.old) (W.taken out.new) (Before (S.content shelf.old) a)
        (IsAnswer (λ name. Rose (S.faults shelf.old name) (S.faults shelf.new name)) (S.content shelf.old) a) result) }
    ensures ran { RunsSoundly (S.content shelf.old) (W.taken out.old) (W.taken out.new) (map string_bytes words.now) result }
    ensures usage { command_of (map string_bytes words.now) ≡ None
        → EndsBy (W.taken out.old) (W.taken out.new) Nothing IsUsage result }
    ensures sound { TypedAreSound }
    ensures accepted { IsTrue (is_past_typing result) → IfSome (command_of (map string_bytes words.now)) (λ a.
        IfSome (typed_content (S.content shelf.old) a) IsAccepted) }
    ensures rechecked { IsTrue (is_past_typing result) → IfSome (command_of (map string_bytes words.now)) (HeldTypes (S.content shelf.old)) }
    ensures complete { IfSome (command_of (map string_bytes words.now)) (λ a. CanBeDone (S.content shelf.old) a
        → NoneRises (λ name. Rose (S.faults shelf.old name) (S.faults shelf.new name)) (files_of a) → (Rose (W.faults out.old) (W.faults out.new) → ⊥)
        → (result ≡ Status.Done) ⊎ (result ≡ Status.Memory)) }
    ensures write { result ≡ Status.WriteFault → Rose (W.faults out.old) (W.faults out.new) }
    ensures fetched { HasFetched (named_by files_of (command_of (map string_bytes words.now))) result (S.log shelf.old) (S.log shelf.new) }
    ensures pieces { HasWritten (ArePieces (command_of (map string_bytes words.now))) result (W.log out.old) (W.log out.new) }
    ensures one { IfSome (command_of (map string_bytes words.now)) (λ a.
        EndsByOne (S.content shelf.old) (λ name. Rose (S.faults shelf.old name) (S.faults shelf.new name)) (Rose (W.faults out.old) (W.faults out.new))
        (W.taken out.old) (W.taken out.new) a result) }
    ensures bounded { IfSome (command_of (map string_bytes words.now)) AreWithin }

    // No file changes, and no count of faults falls.
    ensures same { KeepsFiles (S.content shelf.old) (S.content shelf.new) }
    ensures later { NoCountFalls (S.faults shelf.old) (S.faults shelf.new) }
    ensures later_out { W.faults out.old ≤ W.faults out.new }
{
    typed_are_sound();
    few_release_lists();
    match read_words(alloc, words) {
        Ok(command) => obey(alloc, shelf, out, command),
        Err(WordsFault::Usage) => stop(out, Stop::Usage),
        Err(WordsFault::Memory) => stop_for_memory(out),
    }
}
