//! Answers the script on standard input, a line each, on standard output.
#![tactic(auto)]

use std::process::ExitCode;
use tinyvec_io::Counted;
use tinyvec_script::run;

fn main(rt: HostRuntime) -> ExitCode {
    let mut reader = Counted::new(rt.stdin());
    let mut writer = Counted::new(rt.stdout());
    match run(rt.alloc(), &mut reader, &mut writer) {
        Ok(()) => ExitCode::SUCCESS,
        Err(_) => ExitCode::FAILURE,
    }
}
