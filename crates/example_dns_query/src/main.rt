//! Writes the DNS query that each line of standard input asks for, in hexadecimal.
#![tactic(auto)]

mod answer;
pub mod line;
pub mod parts;
pub mod query;
pub mod record_type;

use answer::Encoder;
use example_lines::{Failure, answer_lines};
use std::process::ExitCode;
use tinyvec_io::Counted;

fn main(rt: HostRuntime) -> ExitCode {
    let Err(failure) = answer_input(&rt) else {
        return ExitCode::SUCCESS;
    };
    if !failure.is_closed_pipe() {
        // If standard error fails too, there is nowhere left to say so.
        let _ = eprintln!(rt; "example_dns_query: {failure}");
    }
    ExitCode::FAILURE
}

// Answers standard input on standard output.
fn answer_input(rt: &HostRuntime) -> Result<(), Failure> {
    let mut reader = Counted::new(rt.stdin());
    answer_lines(
        rt.alloc(),
        &mut Encoder::new(),
        &mut reader,
        &mut Counted::new(rt.stdout()),
    )
}
