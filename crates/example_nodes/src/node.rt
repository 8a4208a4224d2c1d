//! The nodes of a tree that holds itself.
ghost use Rattle.std.specs.Prelude.{◌≡◌};
ghost use Rattle.example_nodes.specs.Nodes.{view, views};
ghost use Rattle.example_nodes.specs.Tree.{same, all_same};

use tinyvec::TinyVec;

/// A number, or a list of nodes.
#[derive(Drop, Debug)]
pub enum Node {
    Number(u64),
    List(Box<Nodes>),
}

/// Some nodes, of which two fit the value.
pub type Nodes = TinyVec<[Node; 2]>;

impl Default for Node {
    ghost use Rattle.example_nodes.specs.declared.node.Node.TheVariants.{Number};

    ghost is_default = { λ node. node ≡ Number 0 };

    fn default() -> Node {
        Node::Number(0)
    }
}

impl PartialEq for Node {
    ghost use Rattle.std.specs.Ordering.{on};
    ghost use Rattle.std.specs.Cmp.{on_per};
    ghost use Rattle.example_nodes.specs.Same.{same_laws};

    ghost eq = { on view same };

    ghost laws = { on_per view same_laws };

    fn eq(&self, other: &Node) -> bool {
        is_same(self, other)
    }
}

// Whether two trees have the same numbers and lists.
#[cycle(same)]
fn is_same(one: &Node, other: &Node) -> bool
    ensures { result ≡ same (view one.now) (view other.now) }
{
    match (one, other) {
        (Node::Number(one), Node::Number(other)) => one == other,
        (Node::List(some), Node::List(others)) => are_same(some.as_slice(), others.as_slice()),
        _ => false,
    }
}

#[cycle(same)]
fn are_same(some: &[Node], others: &[Node]) -> bool
    ensures { result ≡ all_same (views some.now) (views others.now) }
{
    if some.len() != others.len() {
        return false;
    }
    for (at, node) in some.iter().enumerate() {
        if !is_same(node, &others[at]) {
            return false;
        }
    }
    true
}
