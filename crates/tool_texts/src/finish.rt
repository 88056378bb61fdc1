//! The end of a call: a text is written, and gives a status.

ghost use Rattle.std.specs.Prelude.{◌≡◌, ◌≢◌, ◌≤◌, ◌∷◌, [], codes};
ghost use Rattle.std.specs.Io.KnownBytes.{Appends};
ghost use Rattle.tim_base.specs.Faults.{Rose};
ghost use Rattle.tim_base.specs.Logs.{HasSent, HasBroken};
ghost use Rattle.tim_base.specs.Sinks.{AppendsPrefix};
ghost use Rattle.tool_texts.specs.Texts.{usage_text, memory_line};
ghost use Rattle.tool_texts.specs.Ends.{status_of, stop_text, told_status, told_text};

use crate::status::Status;
use crate::stop::{Stop, no_memory};
use tim_base::sink::{Sink, write_all};

/// The usage text.
pub fn usage() -> &'static [u8]
    ensures { result.now ≡ usage_text }
{
    b"usage: mitigate check FILE
       mitigate infer FILE
       mitigate compile FILE
       mitigate run FILE [STARTS] [--env flat|part|part2] [--budget T] [--observer L]
       mitigate meaning FILE [STARTS] --steps N
       mitigate audit FILE STARTS --observer L [--env flat|part|part2] [--budget T]
       mitigate gen SIZE NUMBER
       mitigate cut FILE STARTS --observer L [--env flat|part|part2] [--budget T]
       mitigate blackbox READY --first Q [--budget T]
       mitigate certify FILE
       mitigate recheck FILE CERTIFICATE
"
}

/// Writes a text and gives its status, or says that the write failed.
pub fn finish<W: Sink>(out: &mut W, text: &[u8], status: Status) -> Status
    requires { status ≢ Status.WriteFault }
    ensures told { result ≢ Status.WriteFault → (result ≡ status) × Appends (W.taken out.old) (W.taken out.new) text.now }
    ensures prefix { result ≡ Status.WriteFault → AppendsPrefix (W.taken out.old) (W.taken out.new) text.now }
    ensures sent { result ≢ Status.WriteFault → HasSent (W.log out.old) (W.log out.new) (text.now ∷ []) }
    ensures broken { result ≡ Status.WriteFault → HasBroken (W.log out.old) (W.log out.new) (text.now ∷ []) }
    ensures fault { result ≡ Status.WriteFault → Rose (W.faults out.old) (W.faults out.new) }
    ensures later { W.faults out.old ≤ W.faults out.new }
{
    match write_all(out, text) {
        Ok(()) => status,
        Err(_) => Status::WriteFault,
    }
}

/// Writes the text of a stop and gives its status, or says that the write failed.
pub fn stop<W: Sink>(out: &mut W, stop: Stop) -> Status
    requires { status_of stop ≢ Status.WriteFault }
    ensures told { result ≢ Status.WriteFault → (result ≡ status_of stop) × Appends (W.taken out.old) (W.taken out.new) (stop_text stop) }
    ensures prefix { result ≡ Status.WriteFault → AppendsPrefix (W.taken out.old) (W.taken out.new) (stop_text stop) }
    ensures sent { result ≢ Status.WriteFault → HasSent (W.log out.old) (W.log out.new) (stop_text stop ∷ []) }
    ensures broken { result ≡ Status.WriteFault → HasBroken (W.log out.old) (W.log out.new) (stop_text stop ∷ []) }
    ensures fault { result ≡ Status.WriteFault → Rose (W.faults out.old) (W.faults out.new) }
    ensures later { W.faults out.old ≤ W.faults out.new }
{
    match stop {
        Stop::Usage => finish(out, usage(), Status::Usage),
        Stop::Misnamed(lines) => finish(out, lines.as_slice(), Status::Usage),
        Stop::With { status, line } => finish(out, line.bytes(), status),
    }
}

/// Writes the line where memory was wanting and gives its status, or says that the write failed.
pub fn stop_for_memory<W: Sink>(out: &mut W) -> Status
    ensures told { result ≢ Status.WriteFault → (result ≡ Status.Memory) × Appends (W.taken out.old) (W.taken out.new) memory_line }
    ensures prefix { result ≡ Status.WriteFault → AppendsPrefix (W.taken out.old) (W.taken out.new) memory_line }
    ensures sent { result ≢ Status.WriteFault → HasSent (W.log out.old) (W.log out.new) (memory_line ∷ []) }
    ensures broken { result ≡ Status.WriteFault → HasBroken (W.log out.old) (W.log out.new) (memory_line ∷ []) }
    ensures fault { result ≡ Status.WriteFault → Rose (W.faults out.old) (W.faults out.new) }
    ensures later { W.faults out.old ≤ W.faults out.new }
{
    stop(out, no_memory())
}

/// Writes the text of a command that is done, or the text of a stop, and gives its status, or says that the write
/// failed.
pub fn tell<W: Sink>(out: &mut W, made: Result<Vec<u8>, Stop>) -> Status
    requires { told_status made ≢ Status.WriteFault }
    ensures told { result ≢ Status.WriteFault → (result ≡ told_status made) × Appends (W.taken out.old) (W.taken out.new) (told_text made) }
    ensures prefix { result ≡ Status.WriteFault → AppendsPrefix (W.taken out.old) (W.taken out.new) (told_text made) }
    ensures sent { result ≢ Status.WriteFault → HasSent (W.log out.old) (W.log out.new) (told_text made ∷ []) }
    ensures broken { result ≡ Status.WriteFault → HasBroken (W.log out.old) (W.log out.new) (told_text made ∷ []) }
    ensures fault { result ≡ Status.WriteFault → Rose (W.faults out.old) (W.faults out.new) }
    ensures later { W.faults out.old ≤ W.faults out.new }
{
    match made {
        Ok(text) => finish(out, text.as_slice(), Status::Done),
        Err(e) => stop(out, e),
    }
}
