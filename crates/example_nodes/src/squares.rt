//! A line of text, read as squares of at most four parts. Each part is filled in where it ends.
ghost use Rattle.std.specs.Prelude.{◌≡◌, ◌<◌, ◌^◌, ◌++◌, ◌∷◌, [], None, IfOk, IfErr, OnOk, string_bytes};
ghost use Rattle.tinyvec_array.specs.ArrayVec.{items};
ghost use Rattle.example_nodes.specs.Machine.{right};
ghost use Rattle.example_nodes.specs.Faults.{Answers, IsSaid};
ghost use Rattle.example_nodes.specs.Squares.{squares_outcome, square_next, square_fault, unread};
ghost use Rattle.example_nodes.specs.Squares.{placed, place_fault, unfolded, open_fault, folded, close_fault, squares_in};
ghost use Rattle.example_nodes.specs.Parts.{text_of, part_text, parts_text, reading_of};

use crate::parse::MOST_OPEN;
use crate::parse_error::{Fault, ParseError, demand};
use std::alloc::{AllocError, Global};
use std::mem::replace;
use tinyvec::ArrayVec;

/// A square of one colour, or one that has parts.
#[derive(Drop, Debug)]
pub enum Square {
    Plain(bool),
    Parts(Box<Parts>),
}

/// A part of a square may be missing.
pub type Part = Option<Box<Square>>;

/// At most four parts.
pub type Parts = ArrayVec<[Part; 4]>;

/// A line that was read in part: what precedes each open bracket, and what follows the last.
#[derive(Drop)]
pub struct SquareParser {
    pub outer: Vec<Parts>,
    pub parts: Parts,
}

/// Reads a line as squares: `#` is a dark one, `.` a light one, `_` none, and one that has parts has them in brackets.
pub fn parse_squares(alloc: Global, line: &[u8]) -> Result<Parts, ParseError>
    ensures right { IfOk result (λ parts. squares_outcome line.now ≡ right (parts_text (items parts))) }
    ensures spells { IfOk result (λ parts. parts_text (items parts) ≡ line.now) }
    ensures wrong { IfErr result (IsSaid (squares_outcome line.now)) }
{
    let mut parser = SquareParser::new(alloc);
    for (at, byte) in line.iter().enumerate() {
        parser.step(alloc, *byte, at + 1)?;
    }
    demand(parser.outer.is_empty(), line.len() + 1, Fault::NotClosed)?;
    Ok(parser.parts)
}

impl SquareParser {
    // Nothing was read.
    fn new(alloc: Global) -> SquareParser
        ensures { reading_of result ≡ unread }
    {
        SquareParser {
            outer: Vec::new(alloc),
            parts: ArrayVec::new(),
        }
    }

    // Reads one byte.
    fn step(&mut self, alloc: Global, byte: u8, column: usize) -> Result<(), ParseError>
        ensures { Answers result column (square_fault (reading_of self.old) byte) (reading_of self.new)
            (square_next (reading_of self.old) byte) }
    {
        match byte {
            b'[' => self.open(column),
            b']' => self.close(alloc, column),
            b'#' => self.place(part_of(alloc, Square::Plain(true))?, column),
            b'.' => self.place(part_of(alloc, Square::Plain(false))?, column),
            b'_' => self.place(None, column),
            _ => Err(ParseError::Syntax {
                column,
                fault: Fault::Byte,
            }),
        }
    }

    // One part more.
    fn place(&mut self, part: Part, column: usize) -> Result<(), ParseError>
        ensures { Answers result column (place_fault (reading_of self.old)) (reading_of self.new)
            (placed (reading_of self.old) (part_text part)) }
    {
        demand(!self.parts.is_full(), column, Fault::Full)?;
        self.parts.push(part);
        Ok(())
    }

    // An opening bracket.
    fn open(&mut self, column: usize) -> Result<(), ParseError>
        ensures { Answers result column (open_fault (reading_of self.old)) (reading_of self.new)
            (unfolded (reading_of self.old)) }
    {
        demand(self.outer.len() < MOST_OPEN, column, Fault::TooDeep)?;
        let before = replace(&mut self.parts, ArrayVec::new());
        self.outer.push(before).map_err(|_| ParseError::Memory)?;
        Ok(())
    }

    // A closing bracket: what is in the brackets is one part.
    fn close(&mut self, alloc: Global, column: usize) -> Result<(), ParseError>
        ensures { Answers result column (close_fault (reading_of self.old)) (reading_of self.new)
            (folded (reading_of self.old)) }
    {
        let Some(before) = self.outer.pop() else {
            return Err(ParseError::Syntax {
                column,
                fault: Fault::NotOpen,
            });
        };
        let parts = replace(&mut self.parts, before);
        self.place(whole(alloc, parts)?, column)
    }
}

// A square as a part.
fn part_of(alloc: Global, square: Square) -> Result<Part, AllocError>
    ensures { IfOk result (λ part. part_text part ≡ text_of square) }
{
    Ok(Some(Box::new(alloc, square)?))
}

// A square that has some parts, as a part.
fn whole(alloc: Global, parts: Parts) -> Result<Part, AllocError>
    ensures { IfOk result (λ part. part_text part ≡ 91 ∷ (parts_text (items parts) ++ 93 ∷ [])) }
{
    part_of(alloc, Square::Parts(Box::new(alloc, parts)?))
}

/// How many squares some parts have, those within them counted too.
#[cycle(count_squares)]
pub fn count_squares(parts: &[Part]) -> usize
    requires fits { squares_in (parts_text parts.now) < 2 ^ 64 }
    ensures { result ≡ squares_in (parts_text parts.now) }
{
    let mut counted = 0;
    for part in parts {
        counted += count_part(part);
    }
    counted
}

#[cycle(count_squares)]
fn count_part(part: &Part) -> usize
    requires fits { squares_in (part_text part.now) < 2 ^ 64 }
    ensures { result ≡ squares_in (part_text part.now) }
{
    match part {
        Some(square) => count_square(square),
        None => 0,
    }
}

#[cycle(count_squares)]
fn count_square(square: &Square) -> usize
    requires fits { squares_in (text_of square.now) < 2 ^ 64 }
    ensures { result ≡ squares_in (text_of square.now) }
{
    match square {
        Square::Plain(_) => 1,
        Square::Parts(parts) => 1 + count_squares(parts.as_slice()),
    }
}

/// Writes some parts.
#[cycle(push_squares)]
pub fn push_squares(text: &mut String, parts: &[Part]) -> Result<(), AllocError>
    ensures { OnOk result (string_bytes text.new ≡ string_bytes text.old ++ parts_text parts.now) }
{
    for part in parts {
        match part {
            Some(square) => push_square(text, square)?,
            None => text.push_str("_")?,
        }
    }
    Ok(())
}

#[cycle(push_squares)]
fn push_square(text: &mut String, square: &Square) -> Result<(), AllocError>
    ensures { OnOk result (string_bytes text.new ≡ string_bytes text.old ++ text_of square.now) }
{
    match square {
        Square::Plain(true) => text.push_str("#"),
        Square::Plain(false) => text.push_str("."),
        Square::Parts(parts) => {
            text.push_str("[")?;
            push_squares(text, parts.as_slice())?;
            text.push_str("]")
        }
    }
}
