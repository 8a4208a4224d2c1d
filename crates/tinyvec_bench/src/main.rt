//! Benchmarks of the vectors. Each runs for few rounds, and one checksum is printed. With the words `rows ROUNDS` each prints its
//! name, length, rounds and checksum. With `graph` or `editor` it is a program that answers lines.
#![tactic(auto)]

mod all;
mod arrays;
mod calls;
mod form;
mod graph;
mod items;
mod looks;
mod programs;
mod report;
mod texts;
mod tiny;

use crate::all::all_rows;
use crate::programs::{answer_edits, answer_graphs};
use crate::report::Printer;
use std::{env, io};

fn main(rt: HostRuntime) -> io::Result<()> {
    let mut args = env::args(&rt)?;
    let _program = args.next();
    if let Some(word) = args.next() {
        match word.as_str() {
            "graph" => return answer_graphs(&rt, rt.alloc()),
            "editor" => return answer_edits(&rt, rt.alloc()),
            _ => (),
        }
    }
    let rounds = match args.next() {
        None => None,
        Some(word) => match word.as_str().parse::<u64>() {
            Ok(rounds) => Some(rounds),
            Err(_) => return Err(io::Error::from(io::ErrorKind::InvalidInput)),
        },
    };
    let mut report = Printer::new(&rt, rounds);
    all_rows(&mut report, rt.alloc());
    report.finish()
}
