//! Two programs: each line of standard input is a number, and is answered by one.

use crate::graph::{edges_of, graph};
use crate::items::runs_of;
use crate::tiny::editor;
use std::alloc::Global;
use std::io;
use std::rt::Runtime;
use tinyvec::TinyVec;

/// A graph has so many nodes, and a list up to so many items.
const MOST: usize = 1000;

/// Answers each line by the walk through a graph with three times as many edges.
pub fn answer_graphs<R: Runtime>(rt: &R, alloc: Global) -> io::Result<()> {
    let edges = edges_of(alloc, MOST)?;
    for line in rt.lines(rt.alloc()) {
        let count = line?
            .as_str()
            .parse::<usize>()
            .unwrap_or(1)
            .saturating_mul(3);
        let some = &edges.as_slice()[..count.min(edges.len())];
        println!(rt; "{}", graph(alloc, some, MOST, 0)?)?;
    }
    Ok(())
}

/// Answers each line by an edit of a list of so many items. One list serves all lines.
pub fn answer_edits<R: Runtime>(rt: &R, alloc: Global) -> io::Result<()> {
    let source = runs_of::<u64>(alloc, MOST);
    let mut list = TinyVec::<[u64; 4]>::new(alloc);
    for line in rt.lines(rt.alloc()) {
        let count = line?.as_str().parse::<usize>().unwrap_or(1);
        let some = &source.as_slice()[..count.min(source.len())];
        println!(rt; "{}", editor(&mut list, some, count as u64))?;
    }
    Ok(())
}
