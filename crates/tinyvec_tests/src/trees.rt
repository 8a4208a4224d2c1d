//! A tree of which a block is lost, or dropped twice, would pass the check: the logic has no drops. Trees that hold themselves,
//! by a `TinyVec` and by an `ArrayVec`, are cut in each way that leaves something to drop. `tests/refuse` counts the blocks,
//! also where each request is refused, and what was built so far is dropped.
ghost use Rattle.std.specs.Prelude.{◌≡◌};

use crate::steps::{granted_steps, is_debugged};
use std::alloc::Global;
use std::test::Fail;
use tinyvec::{ArrayVec, TinyVec};

#[derive(Drop, Debug)]
enum Node {
    Number(u64),
    List(Box<Nodes>),
}

type Nodes = TinyVec<[Node; 2]>;

impl Default for Node {
    ghost use Rattle.tinyvec_tests.specs.declared.trees.Node.TheVariants.{Number};

    ghost is_default = { λ node. node ≡ Number 0 };

    fn default() -> Node {
        Node::Number(0)
    }
}

#[derive(Drop, Debug)]
enum Square {
    Plain(bool),
    Parts(Box<Parts>),
}

type Parts = ArrayVec<[Option<Box<Square>>; 4]>;

// Makes trees, and notes whether a request was refused. A `?` in the tests would drop all that is alive at each.
#[derive(Drop)]
struct Maker {
    alloc: Global,
    is_refused: bool,
}

impl Maker {
    fn new(alloc: Global) -> Maker {
        Maker {
            alloc,
            is_refused: false,
        }
    }

    fn boxed<T: Drop>(&mut self, x: T) -> Option<Box<T>> {
        let boxed = Box::new(self.alloc, x).ok();
        self.is_refused |= boxed.is_none();
        boxed
    }

    fn push(&mut self, items: &mut Nodes, node: Node) {
        self.is_refused |= items.push(node).is_err();
    }

    // A list in a list, and so on, with so many numbers after each.
    fn nested(&mut self, depth: u8, numbers: u64) -> Node {
        let mut node = Node::Number(7);
        for _level in 0..depth {
            node = self.around(node, numbers);
        }
        node
    }

    fn around(&mut self, node: Node, numbers: u64) -> Node {
        let mut items = TinyVec::new(self.alloc);
        self.push(&mut items, node);
        for number in 0..numbers {
            self.push(&mut items, Node::Number(number));
        }
        match self.boxed(items) {
            Some(items) => Node::List(items),
            None => Node::default(),
        }
    }

    fn push_nested(&mut self, items: &mut Nodes, depth: u8, numbers: u64) {
        let node = self.nested(depth, numbers);
        self.push(items, node);
    }

    // Three lists in the array or on the heap.
    fn three(&mut self, numbers: u64) -> Nodes {
        let mut items = TinyVec::new(self.alloc);
        for depth in 1..4 {
            self.push_nested(&mut items, depth, numbers);
        }
        items
    }

    // A square in a square, and so on, with two more beside each.
    fn divided(&mut self, depth: u8) -> Square {
        let mut square = Square::Plain(true);
        for _level in 0..depth {
            square = self.beside(square);
        }
        square
    }

    fn beside(&mut self, square: Square) -> Square {
        let (square, other) = (self.boxed(square), self.boxed(Square::Plain(false)));
        match self.boxed(ArrayVec::from_array_len([square, None, other, None], 3)) {
            Some(parts) => Square::Parts(parts),
            None => Square::Plain(true),
        }
    }

    fn boxed_square(&mut self, depth: u8) -> Option<Box<Square>> {
        let square = self.divided(depth);
        self.boxed(square)
    }

    // Four squares, of these depths.
    fn four(&mut self, depths: [u8; 4]) -> Parts {
        let [a, b, c, d] = depths;
        let squares = [
            self.boxed_square(a),
            self.boxed_square(b),
            self.boxed_square(c),
            self.boxed_square(d),
        ];
        ArrayVec::from_array(squares)
    }

    fn all_steps(&self, steps: &[bool]) -> Result<(), Fail> {
        granted_steps(self.is_refused, steps)
    }
}

#[test]
fn lists_that_are_cut(rt: HostRuntime) -> Result<(), Fail> {
    let mut maker = Maker::new(rt.alloc());
    let mut items = maker.three(1);
    items.truncate(1);
    let is_cut = items.len() == 1;
    maker.push_nested(&mut items, 2, 3);
    items.clear();
    let is_cleared = items.is_empty();
    maker.push_nested(&mut items, 1, 2);
    maker.push_nested(&mut items, 3, 0);
    let is_popped = matches!(items.pop(), Some(Node::List(_)));
    maker.all_steps(&[is_cut, is_cleared, is_popped, items.len() == 1])
}

#[test]
fn lists_that_lose_an_item(rt: HostRuntime) -> Result<(), Fail> {
    let mut maker = Maker::new(rt.alloc());
    let mut items = maker.three(3);
    let is_drained = items.drain(..).next().is_some();
    let is_left = items.is_empty();
    let is_inserted = items.insert(0, maker.nested(2, 1)).is_ok();
    maker.is_refused |= !is_inserted;
    items.retain(|node| matches!(node, Node::Number(_)));
    let is_emptied = items.is_empty();
    let mut left = maker.three(2).into_iter();
    maker.all_steps(&[is_drained, is_left, is_emptied, left.next_back().is_some()])
}

// A drain that loses what precedes its range or follows it, or drops twice what was taken, would pass the check.
#[test]
fn lists_that_lose_their_middle(rt: HostRuntime) -> Result<(), Fail> {
    let mut maker = Maker::new(rt.alloc());
    let mut heap = maker.three(0);
    maker.push_nested(&mut heap, 1, 1);
    let is_taken = heap.len() == 4 && matches!(heap.drain(1..3).next(), Some(Node::List(_)));
    maker.all_steps(&[
        is_taken,
        !heap.is_inline(),
        is_debugged(&heap, "[List([Number(7)]), List([Number(7), Number(0)])]"),
    ])
}

// The same of squares, whose slots hold an option each: a slot that is left has to hold none.
#[test]
fn squares_that_lose_their_middle(rt: HostRuntime) -> Result<(), Fail> {
    let mut maker = Maker::new(rt.alloc());
    let mut parts = maker.four([1, 2, 1, 0]);
    let is_taken = parts.len() == 4 && matches!(parts.drain(1..3).next(), Some(Some(_)));
    let kept = is_debugged(
        &parts,
        "[Some(Parts([Some(Plain(true)), None, Some(Plain(false))])), Some(Plain(true))]",
    );
    let is_pushed = parts.try_push(None).is_none();
    let is_none = !parts.is_empty() && matches!(parts.drain(1..).next_back(), Some(None));
    maker.all_steps(&[is_taken, kept, is_pushed & is_none, parts.len() == 1])
}
