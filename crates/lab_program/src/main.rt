// The program `lab`: the top call over the system's files and standard output.
#![tactic(auto)]

use lab_tool::lab_main;
use run_watch::Watch;
use std::process::ExitCode;
use tim_base::shelf::FileShelf;
use tim_base::sink::OutSink;
use tool_main::output::{Outlet, target_of};
use tool_main::progress::ProgressLine;
use tool_main::words::words;
use tool_texts::status::Status;

fn main(rt: HostRuntime) -> ExitCode {
    let alloc = rt.alloc();
    let progress = ProgressLine::new(&rt, rt.stderr());
    let words = match words(&rt, alloc) {
        Ok(words) => words,
        Err(refused) => return ExitCode::from(refused.number()),
    };
    let mut shelf = FileShelf::new(alloc, &rt);
    let target = target_of(&rt, &rt.stdout());
    let outlet = Outlet::new(alloc, &rt, &progress, rt.stdout(), target);
    let mut out = OutSink::new(&outlet, &outlet);
    let status = lab_main(alloc, words.as_slice(), &mut shelf, &mut out);
    let status = match status {
        Status::WriteFault => status,
        _ => match out.finish().1 {
            Ok(()) => status,
            Err(_) => Status::WriteFault,
        },
    };
    progress.clear();
    ExitCode::from(status.number())
}
