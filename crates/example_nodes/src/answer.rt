//! The answer to a line.
ghost use Rattle.std.specs.Prelude.{◌≡◌, IfErr, OnOk, string_bytes};
ghost use Rattle.example_nodes.specs.Squares.{squares_outcome};
ghost use Rattle.example_nodes.specs.Faults.{IsSaid};
ghost use Rattle.example_nodes.specs.Answer.{AnswersLine, AppendsSaid, later, line_outcome, nodes_outcome};
ghost use Rattle.example_nodes.specs.Answer.{said_of, nodes_said, squares_said};

use crate::count::count;
use crate::flatten::parse_nodes;
use crate::parse_error::ParseError;
use crate::print::push_trees;
use crate::squares::{count_squares, parse_squares, push_squares};
use example_lines::Answer;
use std::alloc::{AllocError, Global};

/// Answers lines, and knows how many there were.
#[derive(Drop)]
pub struct Reader {
    pub line: u64,
    /// The last answer. The next takes its memory.
    pub said: String,
}

impl Answer for Reader {
    ghost IsAnswer = { λ old line text new. (new.line ≡ later old.line) × AnswersLine new.line line text };

    fn answer(&mut self, alloc: Global, line: &[u8], text: &mut Vec<u8>) -> Result<(), AllocError> {
        let number = self.line.saturating_add(1);
        answer_to(alloc, number, line, &mut self.said)?;
        text.extend_from_slice(self.said.as_bytes())?;
        // A line that memory is refused for does not count.
        self.line = number;
        Ok(())
    }
}

// The text becomes what a line has, or what is wrong with it.
fn answer_to(alloc: Global, number: u64, line: &[u8], text: &mut String) -> Result<(), AllocError>
    ensures { OnOk result (AnswersLine number line.now (string_bytes text.new)) }
{
    text.clear();
    match push_line(alloc, line, text) {
        Ok(()) => Ok(()),
        Err(ParseError::Syntax { column, fault }) => {
            text.clear();
            let fault = fault.text();
            write!(text, "line {number}, column {column}: {fault}\n")
        }
        Err(ParseError::Memory) => {
            text.clear();
            write!(text, "line {number}: out of memory\n")
        }
    }
}

// Appends what a line has. A line of squares begins with a bracket of theirs.
fn push_line(alloc: Global, line: &[u8], text: &mut String) -> Result<(), ParseError>
    ensures right { OnOk result (AppendsSaid (line_outcome line.now) (string_bytes text.old) (string_bytes text.new)) }
    ensures wrong { IfErr result (IsSaid (line_outcome line.now)) }
{
    if line.starts_with(b"[") {
        return push_squares_line(alloc, line, text);
    }
    push_nodes_line(alloc, line, text)
}

// Appends the number of nodes and the trees of a line.
fn push_nodes_line(alloc: Global, line: &[u8], text: &mut String) -> Result<(), ParseError>
    ensures right { OnOk result (AppendsSaid (said_of nodes_said (nodes_outcome line.now)) (string_bytes text.old)
        (string_bytes text.new)) }
    ensures wrong { IfErr result (IsSaid (nodes_outcome line.now)) }
{
    let trees = parse_nodes(alloc, line)?;
    let count = count(trees.as_slice());
    write!(text, "{count}: ")?;
    push_trees(text, trees.as_slice())?;
    text.push('\n')?;
    Ok(())
}

// Appends the number of squares and the squares of a line.
fn push_squares_line(alloc: Global, line: &[u8], text: &mut String) -> Result<(), ParseError>
    ensures right { OnOk result (AppendsSaid (said_of squares_said (squares_outcome line.now)) (string_bytes text.old)
        (string_bytes text.new)) }
    ensures wrong { IfErr result (IsSaid (squares_outcome line.now)) }
{
    let parts = parse_squares(alloc, line)?;
    let count = count_squares(parts.as_slice());
    write!(text, "{count}: ")?;
    push_squares(text, parts.as_slice())?;
    text.push('\n')?;
    Ok(())
}
