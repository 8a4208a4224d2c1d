//! The answer to a line.
ghost use Rattle.std.specs.Prelude.{◌≡◌, ◌<◌, ◌++◌, ◌∷◌, [], OnOk, OnErr, codes};
ghost use Rattle.example_dns_query.specs.Answer.{digit_of, hex_of, line_error_text};

use crate::line::{LineError, answer_line};
use example_lines::Answer;
use std::alloc::{AllocError, Global};
use std::mem;

/// Answers each line by the query that it asks for, in hexadecimal, or says why there is none.
#[derive(Drop)]
pub struct Encoder {
    // Where each message is built.
    slots: [u8; 512],
}

impl Encoder {
    pub fn new() -> Self {
        Encoder { slots: [0; 512] }
    }
}

impl Answer for Encoder {
    ghost use Rattle.example_dns_query.specs.Answer.{AnswersLine};

    ghost IsAnswer = { λ _ line text _. AnswersLine line text };

    fn answer(&mut self, alloc: Global, line: &[u8], text: &mut Vec<u8>) -> Result<(), AllocError> {
        match answer_line(&mut self.slots, line) {
            Ok(len) => push_hex(alloc, text, &self.slots[..len]),
            Err(error) => push_error(text, error),
        }
    }
}

// Appends two digits for each byte, and a line feed.
fn push_hex(alloc: Global, text: &mut Vec<u8>, bytes: &[u8]) -> Result<(), AllocError>
    ensures ok { OnOk result (text.new.items ≡ text.old.items ++ (hex_of bytes.now ++ 10 ∷ [])) }
    ensures refused { OnErr result (text.new.items ≡ text.old.items) }
{
    text.reserve(2 * bytes.len() + 1)?;
    // The length of a vector that is not lent stays in a register.
    let mut digits = mem::replace(text, Vec::new(alloc));
    for byte in bytes {
        digits.push_reserved(hex_digit(*byte / 16));
        digits.push_reserved(hex_digit(*byte % 16));
    }
    digits.push_reserved(b'\n');
    *text = digits;
    Ok(())
}

// Appends what is wrong with a line, and a line feed.
fn push_error(text: &mut Vec<u8>, error: LineError) -> Result<(), AllocError>
    ensures ok { OnOk result
        (text.new.items ≡ text.old.items ++ (codes "error: " ++ (line_error_text error ++ 10 ∷ []))) }
    ensures refused { OnErr result (text.new.items ≡ text.old.items) }
{
    let fault = error.text().as_bytes();
    text.reserve(fault.len() + 8)?;
    text.extend_from_slice(b"error: ")?;
    text.extend_from_slice(fault)?;
    Ok(text.push(b'\n')?)
}

// The hexadecimal digit of a number below 16.
fn hex_digit(number: u8) -> u8
    requires { number < 16 }
    ensures { result ≡ digit_of number }
{
    if number < 10 {
        b'0' + number
    } else {
        b'a' - 10 + number
    }
}
