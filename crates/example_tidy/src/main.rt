//! Puts each line of standard input in its normal form, and writes it to standard output.
#![tactic(auto)]

mod line;
mod stream;
mod text;
mod words;

use std::process::ExitCode;
use stream::tidy;
use tinyvec_io::Counted;

fn main(rt: HostRuntime) -> ExitCode {
    let mut reader = Counted::new(rt.stdin());
    let mut writer = Counted::new(rt.stdout());
    let Err(error) = tidy(rt.alloc(), &mut reader, &mut writer) else {
        return ExitCode::SUCCESS;
    };
    if !error.is_closed_pipe() {
        // If standard error fails too, there is nowhere left to say so.
        let _ = eprintln!(rt; "example_tidy: {error}");
    }
    ExitCode::FAILURE
}
