//! Sorts the whole numbers on standard input, one a line. Up to eight of them are kept without the heap.
#![tactic(auto)]

use std::io;
use tinyvec::TinyVec;

fn main(rt: HostRuntime) -> io::Result<()> {
    let mut numbers: TinyVec<[i64; 8]> = TinyVec::new(rt.alloc());
    for line in rt.lines(rt.alloc()) {
        match line?.trim().parse() {
            Ok(number) => numbers.push(number)?,
            Err(_) => println!(rt; "not a number")?,
        }
    }
    numbers.as_mut_slice().sort_unstable();
    println!(rt; "{numbers:?}")
}
