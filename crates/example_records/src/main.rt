//! Keeps a stream of records in memory: adds to it, cuts it and reads it, by commands on standard input.
#![tactic(auto)]

mod answer;
mod command;
mod command_error;
mod hex;

use answer::Records;
use example_lines::{Failure, answer_lines};
use std::io::BufWriter;
use std::process::ExitCode;
use tinyvec_io::Counted;

fn main(rt: HostRuntime) -> ExitCode {
    let Err(failure) = answer_input(&rt) else {
        return ExitCode::SUCCESS;
    };
    if !failure.is_closed_pipe() {
        // If standard error fails too, there is nowhere left to say so.
        let _ = eprintln!(rt; "example_records: {failure}");
    }
    ExitCode::FAILURE
}

// Answers standard input on standard output.
fn answer_input(rt: &HostRuntime) -> Result<(), Failure> {
    let mut reader = Counted::new(rt.stdin());
    let writer = BufWriter::new(rt.alloc(), rt.stdout()).map_err(Failure::Output)?;
    let mut records = Records {
        stream: Vec::new(rt.alloc()),
        shown: Vec::new(rt.alloc()),
        piece: String::new(rt.alloc()),
    };
    answer_lines(
        rt.alloc(),
        &mut records,
        &mut reader,
        &mut Counted::new(writer),
    )
}
