//! A line of text, read as trees.
ghost use Rattle.std.specs.Prelude.{◌≡◌, ◌<◌, ◌+◌, ◌*◌, ◌^◌, ◌↔◌, ◌++◌, ◌∷◌, [], true, IfOk, IfErr, OnOk, IfSome, IsSome};
ghost use Rattle.std.specs.Char.{is_ascii_digit};
ghost use Rattle.example_nodes.specs.Words.{opening, closing};
ghost use Rattle.tinyvec.specs.TinyVec.{tiny_items};
ghost use Rattle.example_nodes.specs.Nodes.{views};
ghost use Rattle.example_nodes.specs.Tree.{all_nodes};
ghost use Rattle.example_nodes.specs.Machine.{right};
ghost use Rattle.example_nodes.specs.Outcome.{outcome, start, next, ended, with_digit, sign, opened, closed};
ghost use Rattle.example_nodes.specs.Outcome.{fault, number_fault, sign_fault, open_fault, close_fault, end_fault};
ghost use Rattle.example_nodes.specs.Faults.{Answers, Gives, IsAt, IsSaid};
ghost use Rattle.example_nodes.specs.Parsers.{nodes_words, state_of};

use crate::node::{Node, Nodes};
use crate::parse_error::{Fault, ParseError, demand};
use std::alloc::{AllocError, Global};
use std::mem::replace;
use tinyvec::TinyVec;

/// How many brackets may be open at a time. What walks a tree calls itself once for each.
pub const MOST_OPEN: usize = 128;

/// A line that was read in part: what precedes each open bracket, and what follows the last.
#[derive(Drop)]
pub struct Parser {
    pub outer: Vec<Nodes>,
    pub nodes: Nodes,
}

/// Reads a line as trees.
pub fn parse(alloc: Global, line: &[u8]) -> Result<Nodes, ParseError>
    ensures right { IfOk result (λ nodes. outcome line.now ≡ right (nodes_words nodes)) }
    ensures fits { IfOk result (λ nodes. all_nodes (views (tiny_items nodes)) < 2 ^ 64) }
    ensures wrong { IfErr result (IsSaid (outcome line.now)) }
{
    let mut parser = Parser::new(alloc);
    // A number that may go on is no part of the parser, so that it stays in a register.
    let mut number = None;
    for (at, byte) in line.iter().enumerate() {
        number = parser.step(alloc, number, *byte, at + 1)?;
    }
    parser.finish(number, line.len() + 1)
}

impl Parser {
    // Nothing was read.
    fn new(alloc: Global) -> Parser
        ensures { state_of result None ≡ start }
    {
        Parser {
            outer: Vec::new(alloc),
            nodes: TinyVec::new(alloc),
        }
    }

    // Reads one byte, behind a number that may go on. Returns that of which the byte is the last digit.
    fn step(
        &mut self,
        alloc: Global,
        number: Option<u64>,
        byte: u8,
        column: usize,
    ) -> Result<Option<u64>, ParseError>
        ensures { Gives result column (fault (state_of self.old number) byte) (state_of self.new)
            (next (state_of self.old number) byte) }
    {
        if byte.is_ascii_digit() {
            return Ok(Some(read_digit(number, byte, column)?));
        }
        self.end_number(number)?;
        self.sign(alloc, byte, column)?;
        Ok(None)
    }

    // A number ends, and is a node.
    fn end_number(&mut self, number: Option<u64>) -> Result<(), AllocError>
        ensures { OnOk result (state_of self.new None ≡ ended (state_of self.old number)) }
    {
        if let Some(number) = number {
            self.nodes.push(Node::Number(number))?;
        }
        Ok(())
    }

    // Reads a byte that is no digit.
    fn sign(&mut self, alloc: Global, byte: u8, column: usize) -> Result<(), ParseError>
        ensures { Answers result column (sign_fault (state_of self.old None) byte) (state_of self.new None)
            (sign (state_of self.old None) byte) }
    {
        match byte {
            b' ' => Ok(()),
            b'(' => self.open(alloc, column),
            b')' => self.close(alloc, column),
            _ => Err(ParseError::Syntax {
                column,
                fault: Fault::Byte,
            }),
        }
    }

    // An opening bracket.
    fn open(&mut self, alloc: Global, column: usize) -> Result<(), ParseError>
        ensures { Answers result column (open_fault (state_of self.old None)) (state_of self.new None)
            (opened (state_of self.old None)) }
    {
        demand(self.outer.len() < MOST_OPEN, column, Fault::TooDeep)?;
        let before = replace(&mut self.nodes, TinyVec::new(alloc));
        self.outer.push(before).map_err(|_| ParseError::Memory)?;
        Ok(())
    }

    // A closing bracket: what is in the brackets is one node.
    fn close(&mut self, alloc: Global, column: usize) -> Result<(), ParseError>
        ensures { Answers result column (close_fault (state_of self.old None)) (state_of self.new None)
            (closed (state_of self.old None)) }
    {
        let Some(before) = self.outer.pop() else {
            return Err(ParseError::Syntax {
                column,
                fault: Fault::NotOpen,
            });
        };
        let items = replace(&mut self.nodes, before);
        Ok(push_list(alloc, &mut self.nodes, items)?)
    }

    // The line ends here: its trees.
    fn finish(mut self, number: Option<u64>, column: usize) -> Result<Nodes, ParseError>
        ensures right { IfOk result (λ nodes. nodes_words nodes ≡ (ended (state_of self number)).words) }
        ensures open { OnOk result (end_fault (state_of self number) ≡ None) }
        ensures err { IfErr result (λ error. IsAt error column (end_fault (state_of self number))) }
    {
        self.end_number(number)?;
        demand(self.outer.is_empty(), column, Fault::NotClosed)?;
        Ok(self.nodes)
    }
}

// One node more: a list.
fn push_list(alloc: Global, nodes: &mut Nodes, items: Nodes) -> Result<(), AllocError>
    ensures { OnOk result (nodes_words nodes.new
        ≡ nodes_words nodes.old ++ opening ∷ (nodes_words items ++ closing ∷ [])) }
{
    nodes.push(Node::List(Box::new(alloc, items)?))?;
    Ok(())
}

// A number that may go on, with one digit more.
fn read_digit(number: Option<u64>, byte: u8, column: usize) -> Result<u64, ParseError>
    requires { is_ascii_digit byte ≡ true }
    ensures { Gives result column (number_fault number byte) (λ longer. longer) (with_digit number byte) }
{
    let longer = appended(number.unwrap_or(0), u64::from(byte - b'0'));
    longer.ok_or(ParseError::Syntax {
        column,
        fault: Fault::Number,
    })
}

// The number with one digit more, if it fits.
fn appended(number: u64, digit: u64) -> Option<u64>
    ensures fits { IsSome result ↔ (number * 10 + digit < 2 ^ 64) }
    ensures value { IfSome result (λ longer. longer ≡ number * 10 + digit) }
{
    number.checked_mul(10)?.checked_add(digit)
}
