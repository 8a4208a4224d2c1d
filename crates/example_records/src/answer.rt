//! The answer to a line.
ghost use Rattle.std.specs.Prelude.{◌≡◌, ◌+◌, ◌≤◌, ◌++◌, ◌∷◌, [], ℕ, List, OnErr, OnOk, codes, length, map};
ghost use Rattle.std.specs.Prelude.{vec_capacity, vec_len};
ghost use Rattle.std.specs.Fmt.{decimal};
ghost use Rattle.example_stream.specs.Readings.{said};
ghost use Rattle.example_records.specs.Errors.{command_error_text};
ghost use Rattle.example_records.specs.Shown.{IsAnswered, IsShown, len_text};

use crate::command::{push_shown, run};
use crate::command_error::CommandError;
use example_lines::Answer;
use example_stream::Recovered;
use std::alloc::{AllocError, Global};

// How many bytes say how long a stream is: 20 digits, a word and a line feed.
const LEN_BYTES: usize = 27;

/// The stream of records, which the commands on lines change.
#[derive(Drop)]
pub struct Records {
    pub stream: Vec<u8>,
    /// The records that were shown last. The next take their memory, as a piece of them takes that of the last.
    pub shown: Vec<u8>,
    pub piece: String,
}

impl Answer for Records {
    ghost IsAnswer = { λ old line text new. IsAnswered line old.stream.items new.stream.items text };

    fn answer(&mut self, alloc: Global, line: &[u8], text: &mut Vec<u8>) -> Result<(), AllocError> {
        // Room first, so that each change of the stream is answered.
        text.reserve(LEN_BYTES)?;
        match run(alloc, line, &mut self.stream) {
            Ok(None) => {
                push_len(text, self.stream.len());
                Ok(())
            }
            Ok(Some(recovered)) => {
                push_recovered(&recovered, &mut self.piece, &mut self.shown, text)
            }
            Err(error) => push_refusal(text, error),
        }
    }
}

// Appends how long the stream is.
fn push_len(text: &mut Vec<u8>, len: usize)
    requires { vec_len text.old + 27 ≤ vec_capacity text.old }
    ensures { text.new.items ≡ text.old.items ++ (len_text len ++ 10 ∷ []) }
{
    if len == 1 {
        let _done = text.extend_from_slice(b"1 byte\n");
        return;
    }
    push_digits(text, len);
    let _done = text.extend_from_slice(b" bytes\n");
}

// Appends the digits of a number to a text that has room for them, which `write!` does not state that it uses.
fn push_digits(text: &mut Vec<u8>, number: usize)
    requires { vec_len text.old + length (decimal number) ≤ vec_capacity text.old }
    ensures items { text.new.items ≡ text.old.items ++ decimal number }
    ensures capacity { vec_capacity text.new ≡ vec_capacity text.old }
{
    if number < 10 {
        text.push_reserved(b'0' + number as u8);
        return;
    }
    push_digits(text, number / 10);
    text.push_reserved(b'0' + (number % 10) as u8);
}

// Appends the records and where they end. They are shown apart first.
fn push_recovered(
    recovered: &Recovered,
    piece: &mut String,
    shown: &mut Vec<u8>,
    text: &mut Vec<u8>,
) -> Result<(), AllocError>
    ensures ok { OnOk result ((lines : List ℕ) × IsShown (map said recovered.now.records.items) recovered.now.end lines
        × (text.new.items ≡ text.old.items ++ (lines ++ 10 ∷ []))) }
    ensures refused { OnErr result (text.new.items ≡ text.old.items) }
{
    shown.clear();
    push_shown(shown, piece, recovered)?;
    shown.push(b'\n')?;
    text.extend_from_slice(shown.as_slice())
}

// Appends why a command is refused.
fn push_refusal(text: &mut Vec<u8>, error: CommandError) -> Result<(), AllocError>
    ensures ok { OnOk result
        (text.new.items ≡ text.old.items ++ (codes "refused: " ++ (command_error_text error ++ 10 ∷ []))) }
    ensures refused { OnErr result (text.new.items ≡ text.old.items) }
{
    let reason = error.text().as_bytes();
    text.reserve(reason.len() + 10)?;
    text.extend_from_slice(b"refused: ")?;
    text.extend_from_slice(reason)?;
    Ok(text.push(b'\n')?)
}
