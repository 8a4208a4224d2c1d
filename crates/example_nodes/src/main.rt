//! Reads numbers and lists of numbers and lists, or squares, a line each, and prints them anew with the number of nodes or
//! squares, or says what is wrong, and where.
#![tactic(auto)]

mod answer;
mod count;
mod flatten;
mod node;
mod parse;
mod parse_error;
mod print;
mod squares;

use answer::Reader;
use example_lines::{Failure, answer_lines};
use std::io::BufWriter;
use std::process::ExitCode;
use tinyvec_io::Counted;

fn main(rt: HostRuntime) -> ExitCode {
    let Err(failure) = answer_input(&rt) else {
        return ExitCode::SUCCESS;
    };
    if !failure.is_closed_pipe() {
        // If standard error fails too, there is nowhere left to say so.
        let _ = eprintln!(rt; "example_nodes: {failure}");
    }
    ExitCode::FAILURE
}

// Answers standard input on standard output.
fn answer_input(rt: &HostRuntime) -> Result<(), Failure> {
    let mut input = Counted::new(rt.stdin());
    let writer = BufWriter::new(rt.alloc(), rt.stdout()).map_err(Failure::Output)?;
    answer_lines(
        rt.alloc(),
        &mut Reader {
            line: 0,
            said: String::new(rt.alloc()),
        },
        &mut input,
        &mut Counted::new(writer),
    )
}
