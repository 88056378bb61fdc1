// The program `mitigate`: the call of the tool over the system's files and standard output.
#![tactic(auto)]

use mit_call::call;
use run_watch::Watch;
use std::process::ExitCode;
use tim_base::shelf::FileShelf;
use tool_main::output::{Outlet, target_of};
use tool_main::progress::ProgressLine;
use tool_main::words::words;

fn main(rt: HostRuntime) -> ExitCode {
    let alloc = rt.alloc();
    let progress = ProgressLine::new(&rt, rt.stderr());
    let words = match words(&rt, alloc) {
        Ok(words) => words,
        Err(refused) => return ExitCode::from(refused.number()),
    };
    let mut shelf = FileShelf::new(alloc, &rt);
    let target = target_of(&rt, &rt.stdout());
    let outlet = Outlet::new(alloc, &rt, &progress, rt.stdout(), target);
    let (number, _out) = call(alloc, words.as_slice(), &mut shelf, &outlet, &outlet);
    progress.clear();
    ExitCode::from(number)
}
