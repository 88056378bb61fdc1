//! The texts of `lab help` and `lab version`.

ghost use Rattle.std.specs.Prelude.{◌≡◌};
ghost use Rattle.lab_words.specs.Help.{bound_help, check_help, command_text, commands_text, help_help, help_text, leak_help, seen_help, steady_help};
ghost use Rattle.lab_words.specs.Help.{timeline_help, tune_help, version_help, version_text, why_help};

use crate::verbs::Verb;

// A line for each command.
fn commands() -> &'static [u8]
    ensures { result.now ≡ commands_text }
{
    b"lab why       reasons for a refusal or a label
lab seen      what each run shows
lab timeline  when mitigations begin and end
lab bound     an audit, the sharp count
lab steady    whether code is constant in time
lab leak      what these runs tell, exactly
lab tune      which first predictions are best
lab check     what is found, as JSON
lab help      these lines, or the form of one command
lab version   the number of this version
"
}

// The form of `why`.
fn why_help() -> &'static [u8]
    ensures { result.now ≡ why_help }
{
    b"usage: lab why FILE [STARTS] [--of NAME]
       lab why FILE STARTS --observer L [--env flat|part|part2] [--machine M] [--budget T]
reasons for a refusal or a label
  FILE        program
  STARTS      starts
  --of        name: of one name
  --observer  label: who sees
  --env       environment: where costs come from; part where it is left out
  --machine   machine file: a machine in place of an environment
  --budget    cycles: the last cycle; 1000000 where it is left out
"
}

// The form of `seen`.
fn seen_help() -> &'static [u8]
    ensures { result.now ≡ seen_help }
{
    b"usage: lab seen FILE STARTS --observer L [--env flat|part|part2] [--machine M] [--budget T] [--refused]
what each run shows
  FILE        program
  STARTS      starts
  --observer  label: who sees
  --env       environment: where costs come from; part where it is left out
  --machine   machine file: a machine in place of an environment
  --budget    cycles: the last cycle; 1000000 where it is left out
  --refused   runs a refused program too
"
}

// The form of `timeline`.
fn timeline_help() -> &'static [u8]
    ensures { result.now ≡ timeline_help }
{
    b"usage: lab timeline FILE STARTS [--env flat|part|part2] [--machine M] [--budget T] [--observer L] [--refused]
when mitigations begin and end
  FILE        program
  STARTS      starts
  --env       environment: where costs come from; part where it is left out
  --machine   machine file: a machine in place of an environment
  --budget    cycles: the last cycle; 1000000 where it is left out
  --observer  label: who sees; all assignments where it is left out
  --refused   runs a refused program too
"
}

// The form of `bound`.
fn bound_help() -> &'static [u8]
    ensures { result.now ≡ bound_help }
{
    b"usage: lab bound FILE STARTS --observer L [--env flat|part|part2] [--machine M] [--budget T]
an audit, the sharp count
  FILE        program
  STARTS      starts
  --observer  label: who sees
  --env       environment: where costs come from; part where it is left out
  --machine   machine file: a machine in place of an environment
  --budget    cycles: the last cycle; 1000000 where it is left out
"
}

// The form of `steady`.
fn steady_help() -> &'static [u8]
    ensures { result.now ≡ steady_help }
{
    b"usage: lab steady FILE --observer L [--parts P] [--constant NAMES] [--whole]
whether code is constant in time
  FILE        program
  --observer  label: who sees
  --parts     label: what environments agree in; the observer where it is left out
  --constant  names: operators of constant cost; the costs of the machine where it is left out
  --whole     the end too
"
}

// The form of `leak`.
fn leak_help() -> &'static [u8]
    ensures { result.now ≡ leak_help }
{
    b"usage: lab leak FILE STARTS --observer L [--env flat|part|part2] [--machine M] [--budget T] [--refused]
what these runs tell, exactly
  FILE        program
  STARTS      starts
  --observer  label: who sees
  --env       environment: where costs come from; part where it is left out
  --machine   machine file: a machine in place of an environment
  --budget    cycles: the last cycle; 1000000 where it is left out
  --refused   runs a refused program too
"
}

// The form of `tune`.
fn tune_help() -> &'static [u8]
    ensures { result.now ≡ tune_help }
{
    b"usage: lab tune FILE STARTS --observer L [--env flat|part|part2] [--machine M] [--budget T] [--of #K] [--bits B]
which first predictions are best
  FILE        program
  STARTS      starts
  --observer  label: who sees
  --env       environment: where costs come from; part where it is left out
  --machine   machine file: a machine in place of an environment
  --budget    cycles: the last cycle; 1000000 where it is left out
  --of        mark: of one mitigate; #0 where it is left out
  --bits      bits: the cheapest one that tells no more
"
}

// The form of `check`.
fn check_help() -> &'static [u8]
    ensures { result.now ≡ check_help }
{
    b"usage: lab check FILE --json
what is found, as JSON
  FILE        program
  --json      one object
"
}

// The form of `help`.
fn help_help() -> &'static [u8]
    ensures { result.now ≡ help_help }
{
    b"usage: lab help [COMMAND]
these lines, or the form of one command
  COMMAND     command
"
}

// The form of `version`.
fn version_help() -> &'static [u8]
    ensures { result.now ≡ version_help }
{
    b"usage: lab version
the number of this version
"
}

// The form of a command, what it is for, and its words and options.
fn command_text(verb: Verb) -> &'static [u8]
    ensures { result.now ≡ command_text verb }
{
    match verb {
        Verb::Why => why_help(),
        Verb::Seen => seen_help(),
        Verb::Timeline => timeline_help(),
        Verb::Bound => bound_help(),
        Verb::Steady => steady_help(),
        Verb::Leak => leak_help(),
        Verb::Tune => tune_help(),
        Verb::Check => check_help(),
        Verb::Help => help_help(),
        Verb::Version => version_help(),
    }
}

/// What `lab help` tells: a line for each command, or at most twelve lines on one.
pub fn help_text(command: Option<Verb>) -> &'static [u8]
    ensures { result.now ≡ help_text command }
{
    match command {
        Some(verb) => command_text(verb),
        None => commands(),
    }
}

/// What `lab version` tells: the name of the program and the number of its version.
pub fn version_text() -> &'static [u8]
    ensures { result.now ≡ version_text }
{
    b"lab 0.1.0
"
}
