//! A graph that is built, pruned and walked. Its nodes list those that follow them: most in the array, some on the heap.

use crate::items::Item;
use std::alloc::{AllocError, Global};
use tinyvec::TinyVec;

/// An edge, by the numbers of its nodes.
#[derive(Clone, Copy)]
pub struct Edge {
    from: usize,
    to: u32,
}

/// Three edges for each node, from any to any.
pub fn edges_of(alloc: Global, count: usize) -> Result<Vec<Edge>, AllocError> {
    let mut edges = Vec::new(alloc);
    let nodes = count.max(1) as u64;
    let mut state: u64 = 1;
    for _i in 0..count.saturating_mul(3) {
        // A step of Knuth's linear congruential generator.
        state = state
            .wrapping_mul(6364136223846793005)
            .wrapping_add(1442695040888963407);
        let number = state / 4294967296;
        edges.push(Edge {
            from: (number % nodes) as usize,
            to: Item::of(number / nodes % nodes),
        })?;
    }
    Ok(edges)
}

/// Builds a graph of so many nodes, drops some of its edges, and adds up what is reached.
#[inline(never)]
pub fn graph(alloc: Global, edges: &[Edge], count: usize, x: u64) -> Result<u64, AllocError> {
    let mut nodes = built(alloc, edges, count)?;
    prune(nodes.as_mut_slice());
    walk(alloc, nodes.as_slice(), x)
}

#[inline(never)]
fn built(
    alloc: Global,
    edges: &[Edge],
    count: usize,
) -> Result<Vec<TinyVec<[u32; 4]>>, AllocError> {
    let mut nodes = Vec::new(alloc);
    nodes.resize_with(count, || TinyVec::new(alloc))?;
    for edge in edges {
        if let Some(node) = nodes.get_mut(edge.from) {
            node.push(edge.to)?;
        }
    }
    Ok(nodes)
}

// Drops the edges to every fourth node, and the first of those that are left of a node with more than two.
#[inline(never)]
fn prune(nodes: &mut [TinyVec<[u32; 4]>]) {
    for node in nodes.iter_mut() {
        node.retain(|to| *to % 4 != 0);
        if node.len() > 2 {
            node.swap_remove(0);
        }
    }
}

// Goes from a node to those that follow it, and on from these, each once, and mixes their numbers in that order.
#[inline(never)]
fn walk(alloc: Global, nodes: &[TinyVec<[u32; 4]>], x: u64) -> Result<u64, AllocError> {
    let mut marks = Vec::from_elem(alloc, false, nodes.len())?;
    let mut reached = Vec::with_capacity(alloc, nodes.len())?;
    reached.push(Item::of(x % 64))?;
    let mut sum = x;
    for at in 0..nodes.len() {
        let Some(node) = reached.get(at) else {
            break;
        };
        sum = sum.rotate_left(5) ^ *node as u64;
        let Some(follow) = nodes.get(*node as usize) else {
            break;
        };
        for to in follow.as_slice() {
            if is_first(marks.as_mut_slice(), *to) {
                reached.push(*to)?;
            }
        }
    }
    Ok(sum)
}

// Whether the node has no mark, which it then gets.
fn is_first(marks: &mut [bool], node: u32) -> bool {
    match marks.get_mut(node as usize) {
        Some(mark) if !*mark => {
            *mark = true;
            true
        }
        _ => false,
    }
}
