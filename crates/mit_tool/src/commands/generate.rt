//! `gen`: a made program is audited.

ghost use Rattle.std.specs.Prelude.{◌≡◌, ◌≤◌, Some, IfOk, IfErr, [], length, map, codes};
ghost use Rattle.tim_base.specs.Told.{limit};
ghost use Rattle.start_file.specs.Starts.{seen};
ghost use Rattle.mit_gen.specs.Made.{program_text, starts_text};
ghost use Rattle.mit_syntax.specs.Plan.{count};
ghost use Rattle.mit_syntax.specs.Program.{plan_of};
ghost use Rattle.tool_texts.specs.Reports.{made_lines};
ghost use Rattle.tool_texts.specs.Ends.{IsStop};
ghost use Rattle.tool_stages.specs.Begins.{IsPrepared, CanAudit, PrepareStops};
ghost use Rattle.mit_tool.specs.Answers.{HasGenerated, made_content};

use crate::commands::audit::audit_after;
use mit_gen::made::{Made, make};
use run_limits::MAX_CYCLES;
use run_watch::Watch;
use std::alloc::{AllocError, Global};
use tool_stages::compiled::compile_program;
use tool_stages::prepared::Prepared;
use tool_stages::program::program_of;
use tool_stages::setting::NamedSetting;
use tool_stages::starts::starts_of;
use tool_texts::pieces::audits::put_made;
use tool_texts::status::Status;
use tool_texts::stop::{Stop, no_memory};
use tool_words::words::EnvName;

/// The environment and the budget of the audit of a made program.
const SETTING: NamedSetting = NamedSetting {
    env: EnvName::Part,
    budget: MAX_CYCLES,
};

// What the audit of a made program begins with.
fn prepare_made(alloc: Global, made: &Made, size: u32, number: u32) -> Result<Prepared, Stop>
    requires program { made.now.program.items ≡ program_text size number }
    requires starts { made.now.starts.items ≡ starts_text }
    requires short { (length made.now.program.items ≤ limit) × (length made.now.starts.items ≤ limit) }
    ensures ok { IfOk result (λ r. IsPrepared (made_content size number) [] (codes "L") (Some (Some starts_text)) r.compiled.typed.labelled r.observer
        r.compiled.image (map seen r.starts.items)) }
    ensures fit { IfOk result (λ r. CanAudit r.compiled.typed.labelled r.observer r.compiled.image (map seen r.starts.items)) }
    ensures stop { IfErr result (IsStop (PrepareStops (λ name. ⊥) (made_content size number) [] (codes "L") ⊥ (Some (Some starts_text)))) }
{
    let program = match program_of(alloc, made.program.as_slice()) {
        Ok(program) => program,
        Err(stop) => return Err(stop),
    };
    let compiled = match compile_program(alloc, program, Some("L")) {
        Ok(compiled) => compiled,
        Err(stop) => return Err(stop),
    };
    let observer = compiled.observer.unwrap();
    match starts_of(
        alloc,
        made.starts.as_slice(),
        compiled.typed.labelled().program(),
    ) {
        Ok(starts) => Ok(Prepared {
            compiled,
            observer,
            starts,
        }),
        Err(stop) => Err(stop),
    }
}

// What is told of a made program before its audit.
fn made_text(
    alloc: Global,
    made: &Made,
    p: &Prepared,
    size: u32,
    number: u32,
) -> Result<Vec<u8>, AllocError>
    requires { made.now.program.items ≡ program_text size number }
    ensures { IfOk result (λ v. v.items ≡ made_lines size number (count (plan_of p.now.compiled.typed.labelled.program)) (length p.now.compiled.image.instrs)) }
{
    let mut text = Vec::new(alloc);
    let commands = p.compiled.typed.labelled().program().commands();
    let instructions = p.compiled.image.len();
    let program = made.program.as_slice();
    put_made(&mut text, size, number, program, commands, instructions)?;
    Ok(text)
}

/// The text of the audit of a made program, after what is told of the program. The size is from 1 to 10,000
/// units, and the number at most 2,147,483,647. A watch is told how far each run has come.
///
/// # Errors
/// Stops with the first refusal, or with `Memory`.
pub fn gen_text<W: Watch>(alloc: Global, size: u32, number: u32, watch: &W) -> Result<Vec<u8>, Stop>
    requires some { 1 ≤ size }
    requires few { size ≤ 10000 }
    requires number { number ≤ 2147483647 }
    ensures text { IfOk result (λ v. HasGenerated size number Status.Done v.items) }
    ensures stop { IfErr result (IsStop (HasGenerated size number)) }
{
    let Ok(made) = make(alloc, size, number) else {
        return Err(no_memory());
    };
    let prepared = match prepare_made(alloc, &made, size, number) {
        Ok(prepared) => prepared,
        Err(stop) => return Err(stop),
    };
    let text = match made_text(alloc, &made, &prepared, size, number) {
        Ok(text) => text,
        Err(_) => return Err(no_memory()),
    };
    match audit_after(alloc, text, &prepared, SETTING, watch) {
        Ok(text) => Ok(text),
        Err(stop) => Err(stop),
    }
}
