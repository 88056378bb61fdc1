//! The top call: from the words of a command line to the text that is written, and a status.

ghost use Rattle.std.specs.Prelude.{◌≡◌, ◌≢◌, ◌≤◌, ◌⊎◌, ◌∷◌, None, IfOk, IfSome, map, string_bytes};
ghost use Rattle.tim_base.specs.Kept.{KeepsFiles, NoCountFalls};
ghost use Rattle.tim_base.specs.Faults.{Rose};
ghost use Rattle.tool_texts.specs.Ends.{EndsBy, Nothing};
ghost use Rattle.tool_stages.specs.Content.{NoneRises};
ghost use Rattle.tool_stages.specs.Fetches.{HasFetched, named_by};
ghost use Rattle.lab_words.specs.QuestionAsked.{IsInRange, described, question_of};
ghost use Rattle.lab_words.specs.QuestionViews.{asked_of, machine_of};
ghost use Rattle.lab_tool.specs.Answers.{Before, BeforeIn, IsAnswer, IsAnswerIn, IsUsage};
ghost use Rattle.lab_tool.specs.Complete.{CanEnd, files_of, own_files};
ghost use Rattle.lab_tool.specs.Machines.{BeforeOn, OnMachine, machine_in};
ghost use Rattle.lab_tool.specs.Worth.{AnswersAreWorth};

use crate::laws::answers_are_worth;
use lab_bound::bound::bound;
use lab_check::check::check;
use lab_leak::leak::leak;
use lab_ready::why_audit::why_audit;
use lab_seen::seen::seen;
use lab_steady::steady::steady;
use lab_texts::usage::usage;
use lab_timeline::timeline::timeline;
use lab_tune::tune::tune;
use lab_why::of::why_of;
use lab_why::starts::why_starts;
use lab_why::why::why;
use lab_words::help::{help_text, version_text};
use lab_words::machine::Machine;
use lab_words::question::{Question, read_question};
use lab_words::refusal;
use machine_stage::machine::machine;
use std::alloc::Global;
use text_base::pos::Memory;
use tim_base::shelf::Shelf;
use tim_base::sink::Sink;
use tool_stages::envs::Environment;
use tool_stages::setting::Setting;
use tool_texts::finish::{finish, stop, stop_for_memory};
use tool_texts::status::Status;
use tool_words::words::{EnvName, WordsFault};

// Answers a question in an environment, whatever machine it asks about.
fn obey_in<S: Shelf, W: Sink>(
    alloc: Global,
    shelf: &mut S,
    out: &mut W,
    question: Question<'_>,
    env: Environment,
) -> Status
    requires { IsInRange (asked_of question) }
    ensures same { KeepsFiles (S.content shelf.old) (S.content shelf.new) }
    ensures later { NoCountFalls (S.faults shelf.old) (S.faults shelf.new) }
    ensures later_out { W.faults out.old ≤ W.faults out.new }
    ensures answered { EndsBy (W.taken out.old) (W.taken out.new) (BeforeIn env (S.content shelf.old) (asked_of question.entry))
        (IsAnswerIn env (λ name. Rose (S.faults shelf.old name) (S.faults shelf.new name)) (S.content shelf.old) (asked_of question.entry)) result }
    ensures write { result ≡ Status.WriteFault → Rose (W.faults out.old) (W.faults out.new) }
    ensures fetched { HasFetched (own_files (asked_of question.entry)) result (S.log shelf.old) (S.log shelf.new) }
{
    match question {
        Question::Why { file, of } => match of {
            None => why(alloc, shelf, out, file),
            Some(name) => why_of(alloc, shelf, out, file, name),
        },
        Question::WhyStarts { file, starts } => why_starts(alloc, shelf, out, file, starts),
        Question::WhyAudit {
            file,
            starts,
            observer,
            machine: _,
            budget,
        } => {
            let setting = Setting { env, budget };
            why_audit(alloc, shelf, out, file, starts, observer, setting)
        }
        Question::Seen {
            file,
            starts,
            observer,
            machine: _,
            budget,
            refused,
        } => {
            let setting = Setting { env, budget };
            seen(alloc, shelf, out, file, starts, observer, setting, refused)
        }
        Question::Timeline {
            file,
            starts,
            observer,
            machine: _,
            budget,
            refused,
        } => {
            let setting = Setting { env, budget };
            timeline(alloc, shelf, out, file, starts, observer, setting, refused)
        }
        Question::Bound {
            file,
            starts,
            observer,
            machine: _,
            budget,
        } => {
            let setting = Setting { env, budget };
            bound(alloc, shelf, out, file, starts, observer, setting)
        }
        Question::Steady {
            file,
            observer,
            parts,
            constant,
            whole,
        } => steady(alloc, shelf, out, file, observer, parts, constant, whole),
        Question::Leak {
            file,
            starts,
            observer,
            machine: _,
            budget,
            refused,
        } => {
            let setting = Setting { env, budget };
            leak(alloc, shelf, out, file, starts, observer, setting, refused)
        }
        Question::Tune {
            file,
            starts,
            observer,
            machine: _,
            budget,
            mark,
            bits,
        } => {
            let setting = Setting { env, budget };
            tune(
                alloc, shelf, out, file, starts, observer, setting, mark, bits,
            )
        }
        Question::Check { file } => check(alloc, shelf, out, file),
        Question::Help { command } => finish(out, help_text(command), Status::Done),
        Question::Version => finish(out, version_text(), Status::Done),
    }
}

// Answers a question on the machine that a file describes, which is read first.
fn obey_on<S: Shelf, W: Sink>(
    alloc: Global,
    shelf: &mut S,
    out: &mut W,
    question: Question<'_>,
    file: &str,
) -> Status
    requires { IsInRange (asked_of question) }
    ensures same { KeepsFiles (S.content shelf.old) (S.content shelf.new) }
    ensures later { NoCountFalls (S.faults shelf.old) (S.faults shelf.new) }
    ensures later_out { W.faults out.old ≤ W.faults out.new }
    ensures answered { EndsBy (W.taken out.old) (W.taken out.new)
        (BeforeOn (S.content shelf.old) (described file.now) (λ e. BeforeIn e (S.content shelf.old) (asked_of question.entry)))
        (OnMachine (λ name. Rose (S.faults shelf.old name) (S.faults shelf.new name)) (S.content shelf.old) (described file.now)
        (λ e. IsAnswerIn e (λ name. Rose (S.faults shelf.old name) (S.faults shelf.new name)) (S.content shelf.old) (asked_of question.entry))) result }
    ensures write { result ≡ Status.WriteFault → Rose (W.faults out.old) (W.faults out.new) }
    ensures fetched { HasFetched (file.now ∷ own_files (asked_of question.entry)) result (S.log shelf.old) (S.log shelf.new) }
{
    match machine(alloc, shelf, file) {
        Ok(machine) => obey_in(alloc, shelf, out, question, Environment::Described(machine)),
        Err(e) => stop(out, e),
    }
}

// The machine that a question asks about; the usual one where it asks about no runs.
fn machine_in<'a>(question: Question<'a>) -> Machine<'a>
    ensures { machine_of result ≡ machine_in (asked_of question.entry) }
{
    match question {
        Question::WhyAudit { machine, .. }
        | Question::Seen { machine, .. }
        | Question::Timeline { machine, .. }
        | Question::Bound { machine, .. }
        | Question::Leak { machine, .. }
        | Question::Tune { machine, .. } => machine,
        _ => Machine::Named(EnvName::Part),
    }
}

/// Answers a question.
fn obey<S: Shelf, W: Sink>(
    alloc: Global,
    shelf: &mut S,
    out: &mut W,
    question: Question<'_>,
) -> Status
    requires { IsInRange (asked_of question) }
    ensures same { KeepsFiles (S.content shelf.old) (S.content shelf.new) }
    ensures later { NoCountFalls (S.faults shelf.old) (S.faults shelf.new) }
    ensures later_out { W.faults out.old ≤ W.faults out.new }
    ensures answered { EndsBy (W.taken out.old) (W.taken out.new) (Before (S.content shelf.old) (asked_of question.entry))
        (IsAnswer (λ name. Rose (S.faults shelf.old name) (S.faults shelf.new name)) (S.content shelf.old) (asked_of question.entry)) result }
    ensures write { result ≡ Status.WriteFault → Rose (W.faults out.old) (W.faults out.new) }
    ensures fetched { HasFetched (files_of (asked_of question.entry)) result (S.log shelf.old) (S.log shelf.new) }
{
    match machine_in(question) {
        Machine::Named(name) => obey_in(alloc, shelf, out, question, Environment::Named(name)),
        Machine::Described(file) => obey_on(alloc, shelf, out, question, file),
    }
}

/// The text on words that ask for nothing: a line on the first word that can't be taken, and the usage text.
fn usage_text(alloc: Global, words: &[String]) -> Result<Vec<u8>, Memory>
    ensures { IfOk result (λ v. IsUsage (map string_bytes words.now) Status.Usage v.items) }
{
    let mut text = refusal::line(alloc, words)?;
    text.extend_from_slice(usage())?;
    Ok(text)
}

/// Refuses words that ask for nothing.
fn refuse<W: Sink>(alloc: Global, out: &mut W, words: &[String]) -> Status
    ensures usage { EndsBy (W.taken out.old) (W.taken out.new) Nothing (IsUsage (map string_bytes words.now)) result }
    ensures read { result ≢ Status.ReadFault }
    ensures write { result ≡ Status.WriteFault → Rose (W.faults out.old) (W.faults out.new) }
    ensures later { W.faults out.old ≤ W.faults out.new }
{
    match usage_text(alloc, words) {
        Ok(text) => finish(out, text.as_slice(), Status::Usage),
        Err(Memory) => stop_for_memory(out),
    }
}

/// Answers what the words of a command line ask: reads files from a shelf, writes a text, and tells how it ended. The
/// words don't hold the program's name.
///
/// `answered`: the status and the text are the answer to the question that the words ask, in the order of its refusals,
/// from what the shelf is told to hold; where they name a file that describes a machine, that is read first of all. A file may not be
/// read only where the count of its faults rose. Where memory was
/// wanting the text is the line for that, which may stand after what is told of some of the runs. After a fault of the
/// sink a prefix of the text is written.
///
/// `usage`: words that ask for nothing get a line on the first of them that can't be taken, and the usage text.
///
/// `complete`: a question that can end in some way ends so, want of memory aside, where no count of faults rose, neither
/// that of a file that the words name nor that of the sink.
///
/// `fetched`: of the files that the words name the first ones are fetched, in their order, each once, and none after one
/// that gave no bytes. A read fault is told where the last fetch failed and only there, unless its line could not be
/// written.
///
/// `worth`: on machines with partitions the printed counts bound what starts show that agree, those of a file and others;
/// what `seen` writes is as few; a chain of `why` refutes every labelling; and what `tune` tells of runs is so of the code that has the other number.
pub fn lab_main<S: Shelf, W: Sink>(
    alloc: Global,
    words: &[String],
    shelf: &mut S,
    out: &mut W,
) -> Status
    ensures answered { IfSome (question_of (map string_bytes words.now)) (λ a.
        EndsBy (W.taken out.old) (W.taken out.new) (Before (S.content shelf.old) a)
        (IsAnswer (λ name. Rose (S.faults shelf.old name) (S.faults shelf.new name)) (S.content shelf.old) a) result) }
    ensures usage { question_of (map string_bytes words.now) ≡ None
        → EndsBy (W.taken out.old) (W.taken out.new) Nothing (IsUsage (map string_bytes words.now)) result }
    ensures complete { IfSome (question_of (map string_bytes words.now)) (λ a. (s : Status) → CanEnd (S.content shelf.old) a s
        → NoneRises (λ name. Rose (S.faults shelf.old name) (S.faults shelf.new name)) (files_of a) → (Rose (W.faults out.old) (W.faults out.new) → ⊥)
        → (result ≡ s) ⊎ (result ≡ Status.Memory)) }
    ensures worth { AnswersAreWorth }
    ensures write { result ≡ Status.WriteFault → Rose (W.faults out.old) (W.faults out.new) }
    ensures fetched { HasFetched (named_by files_of (question_of (map string_bytes words.now))) result (S.log shelf.old) (S.log shelf.new) }

    // No file changes, and no count of faults falls.
    ensures same { KeepsFiles (S.content shelf.old) (S.content shelf.new) }
    ensures later { NoCountFalls (S.faults shelf.old) (S.faults shelf.new) }
    ensures later_out { W.faults out.old ≤ W.faults out.new }
{
    answers_are_worth();
    match read_question(alloc, words) {
        Ok(question) => obey(alloc, shelf, out, question),
        Err(WordsFault::Usage) => refuse(alloc, out, words),
        Err(WordsFault::Memory) => stop_for_memory(out),
    }
}
