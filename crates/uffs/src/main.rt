//! `uffs`: a file system with undo, on image files.
#![tactic(auto)]

use shell::run_process;
use std::process::ExitCode;

fn main(rt: HostRuntime) -> ExitCode {
    let mut err = rt.stderr();
    ExitCode::from(run_process(&rt, &mut err))
}
