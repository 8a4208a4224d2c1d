//! The lists of a sum, brought to one level.
ghost use Rattle.std.specs.Prelude.{◌≡◌, ◌<◌, ◌^◌, All, IfOk, IfErr, OnOk};
ghost use Rattle.tinyvec.specs.TinyVec.{tiny_items};
ghost use Rattle.example_nodes.specs.Answer.{nodes_outcome};
ghost use Rattle.example_nodes.specs.Faults.{IsSaid};
ghost use Rattle.example_nodes.specs.Machine.{right};
ghost use Rattle.example_nodes.specs.Nodes.{views, IsNumber};
ghost use Rattle.example_nodes.specs.Parsers.{nodes_words};
ghost use Rattle.example_nodes.specs.Tree.{all_nodes};
ghost use Rattle.example_nodes.specs.Words.{leaves};

use crate::node::{Node, Nodes};
use crate::parse::parse;
use crate::parse_error::ParseError;
use std::alloc::{AllocError, Global};
use std::mem::{replace, take};
use tinyvec::TinyVec;

/// Reads a line as trees. One that ends with a plus is a sum, of which only the numbers are left.
pub fn parse_nodes(alloc: Global, line: &[u8]) -> Result<Nodes, ParseError>
    ensures right { IfOk result (λ nodes. nodes_outcome line.now ≡ right (nodes_words nodes)) }
    ensures fits { IfOk result (λ nodes. all_nodes (views (tiny_items nodes)) < 2 ^ 64) }
    ensures wrong { IfErr result (IsSaid (nodes_outcome line.now)) }
{
    if !line.ends_with(b"+") {
        return parse(alloc, line);
    }
    let mut nodes = parse(alloc, &line[..line.len() - 1])?;
    flatten(alloc, &mut nodes)?;
    Ok(nodes)
}

/// Puts the nodes of each list in its place, until only numbers are left.
pub fn flatten(alloc: Global, nodes: &mut Nodes) -> Result<(), AllocError>
    ensures same_leaves { OnOk result (nodes_words nodes.new ≡ leaves (nodes_words nodes.old)) }
    ensures no_lists { OnOk result (All IsNumber (tiny_items nodes.new)) }
{
    // From the last node to the first: a splice at the end moves no other node.
    let mut flat = TinyVec::new(alloc);
    while let Some(last) = nodes.len().checked_sub(1) {
        match take(&mut nodes[last]) {
            Node::List(items) => nodes.splice_all(last.., Box::into_inner(items))?,
            Node::Number(number) => {
                nodes.truncate(last);
                flat.push(Node::Number(number))?;
            }
        }
    }
    flat.as_mut_slice().reverse();
    let _none_left = replace(nodes, flat);
    Ok(())
}
