//! How many nodes a tree has.
ghost use Rattle.std.specs.Prelude.{◌≡◌, ◌<◌, ◌^◌};
ghost use Rattle.example_nodes.specs.Nodes.{view, views};
ghost use Rattle.example_nodes.specs.Tree.{nodes, all_nodes};

use crate::node::Node;

/// How many nodes some trees have.
#[cycle(count)]
pub fn count(trees: &[Node]) -> usize
    requires fits { all_nodes (views trees.now) < 2 ^ 64 }
    ensures { result ≡ all_nodes (views trees.now) }
{
    let mut counted = 0;
    for tree in trees {
        counted += count_node(tree);
    }
    counted
}

#[cycle(count)]
fn count_node(node: &Node) -> usize
    requires fits { nodes (view node.now) < 2 ^ 64 }
    ensures { result ≡ nodes (view node.now) }
{
    match node {
        Node::Number(_) => 1,
        Node::List(items) => 1 + count(items.as_slice()),
    }
}
