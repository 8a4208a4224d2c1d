//! Trees, written as text.
ghost use Rattle.std.specs.Prelude.{◌≡◌, ◌++◌, OnOk, false, string_bytes};
ghost use Rattle.example_nodes.specs.Nodes.{view, views};
ghost use Rattle.example_nodes.specs.Tree.{tree_words, words_of};
ghost use Rattle.example_nodes.specs.Words.{blank_if, words_text_after};

use crate::node::Node;
use std::alloc::AllocError;

/// Writes some trees, with a blank between.
#[cycle(print)]
pub fn push_trees(text: &mut String, trees: &[Node]) -> Result<(), AllocError>
    ensures { OnOk result (string_bytes text.new
        ≡ string_bytes text.old ++ words_text_after false (words_of (views trees.now))) }
{
    for (at, tree) in trees.iter().enumerate() {
        push_blank(text, at > 0)?;
        push_node(text, tree)?;
    }
    Ok(())
}

#[cycle(print)]
fn push_node(text: &mut String, node: &Node) -> Result<(), AllocError>
    ensures { OnOk result (string_bytes text.new
        ≡ string_bytes text.old ++ words_text_after false (tree_words (view node.now))) }
{
    match node {
        Node::Number(number) => write!(text, "{number}"),
        Node::List(items) => {
            text.push_str("(")?;
            push_trees(text, items.as_slice())?;
            text.push_str(")")
        }
    }
}

// Writes a blank, or nothing.
fn push_blank(text: &mut String, wanted: bool) -> Result<(), AllocError>
    ensures { OnOk result (string_bytes text.new ≡ string_bytes text.old ++ blank_if wanted) }
{
    if wanted {
        text.push_str(" ")?;
    }
    Ok(())
}
