//! The rounds of a row, and what is printed of them.

use std::io;
use std::rt::Runtime;

/// Where the lines of the rows go. The rows know it by this trait alone, or each would be proved for what a runtime has
/// besides.
pub trait Report {
    /// Has the names of the rows that follow begin with `prefix`.
    fn set_prefix(&mut self, prefix: &'static str);

    /// Begins a row of lists of `len` items, and returns how many rounds it has. Neither it nor `end_rounds` is inlined, so
    /// that the instructions between the two can be counted.
    fn begin_rounds(&mut self, len: usize) -> u64;

    /// Ends the row.
    fn end_rounds(&mut self, name: &str, len: usize, rounds: u64, sum: u64);
}

/// What the rows of one kind work on. A row names its benchmark by a constant and both functions are inlined, so each
/// round calls the benchmark's function. One loop serves all rows, since a loop or a closure for each would be proved
/// for each.
pub trait Bench<B: Copy> {
    /// Runs the benchmark once, with the number of the round.
    fn round(&mut self, benchmark: B, x: u64) -> u64;
}

/// Runs a benchmark as often as the row has rounds, with the number of each.
#[inline(always)]
pub fn run<R: Report, B: Copy, S: Bench<B>>(
    report: &mut R,
    name: &str,
    len: usize,
    benchmark: B,
    bench: &mut S,
) {
    let rounds = report.begin_rounds(len);
    let mut sum: u64 = 0;
    for x in 0..rounds {
        sum = sum.rotate_left(5) ^ bench.round(benchmark, x);
    }
    report.end_rounds(name, len, rounds, sum);
}

// Runs each row.
macro_rules! rows {
    ($report:ident, $n:ident, $list:ident: $($name:literal $benchmark:expr,)+) => {
        $($crate::report::run($report, $name, $n, $benchmark, $list);)+
    };
}

pub(crate) use rows;

/// Prints a line for each row, or one checksum of all. If a line cannot be printed, none follows.
#[derive(Drop)]
pub struct Printer<'r, R: Runtime> {
    rt: &'r R,
    prefix: &'static str,
    // Those of a short list, where each row has a line.
    rounds: Option<u64>,
    // The checksums so far.
    whole: u64,
    printed: io::Result<()>,
}

impl<'r, R: Runtime> Printer<'r, R> {
    pub fn new(rt: &'r R, rounds: Option<u64>) -> Self {
        Printer {
            rt,
            prefix: "",
            rounds,
            whole: 0,
            printed: Ok(()),
        }
    }

    /// Prints what is left, and returns whether all was printed.
    pub fn finish(self) -> io::Result<()> {
        let Printer {
            rt,
            rounds,
            whole,
            printed,
            ..
        } = self;
        match rounds {
            None => println!(rt; "{whole}"),
            Some(_) => printed,
        }
    }
}

impl<R: Runtime> Report for Printer<'_, R> {
    fn set_prefix(&mut self, prefix: &'static str) {
        self.prefix = prefix;
    }

    // So that a row of long lists takes about as long as one of short ones. Of the longest there are some more, or a run of
    // twice as many rounds would count as many. For a checksum, few are enough.
    #[inline(never)]
    fn begin_rounds(&mut self, len: usize) -> u64 {
        let share = (len / 16) as u64;
        match self.rounds {
            None if len > 1024 => 2,
            None => 20,
            Some(rounds) if share < 2 => rounds,
            Some(rounds) => (rounds / share)
                .max((rounds / 32).min(24))
                .saturating_add(1),
        }
    }

    #[inline(never)]
    fn end_rounds(&mut self, name: &str, len: usize, rounds: u64, sum: u64) {
        self.whole = self.whole.rotate_left(5) ^ sum;
        if self.rounds.is_some() && self.printed.is_ok() {
            let prefix = self.prefix;
            self.printed = println!(self.rt; "{prefix}{name} {len} {rounds} {sum}");
        }
    }
}
