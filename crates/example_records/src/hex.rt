//! Bytes in hex.
ghost use Rattle.std.specs.Prelude.{◌≡◌, ◌⊎◌, None, Some, IfErr, IfOk};
ghost use Rattle.example_records.specs.Hex.{HasByte, byte_of, bytes_of, hex_value};
ghost use Rattle.example_records.specs.declared.command_error.CommandError.TheVariants.{Hex, Memory};

use crate::command_error::CommandError;
use std::alloc::Global;

/// The bytes that pairs of digits spell, in either case. Allocates as soon as there is a pair.
pub fn bytes_of_hex(alloc: Global, text: &[u8]) -> Result<Vec<u8>, CommandError>
    ensures ok { IfOk result (λ bytes. bytes_of text.now ≡ Some bytes.items) }
    ensures err { IfErr result (λ e. ((e ≡ Memory) × HasByte text.now) ⊎ ((e ≡ Hex) × (bytes_of text.now ≡ None))) }
{
    let mut bytes = Vec::new(alloc);
    let mut rest = text;
    while let [high, low, more @ ..] = rest {
        let Some(byte) = byte_of(*high, *low) else {
            return Err(CommandError::Hex);
        };
        if bytes.push(byte).is_err() {
            return Err(CommandError::Memory);
        }
        rest = more;
    }
    if rest.is_empty() {
        Ok(bytes)
    } else {
        Err(CommandError::Hex)
    }
}

fn byte_of(high: u8, low: u8) -> Option<u8>
    ensures { result ≡ byte_of high low }
{
    Some(hex_value(high)? * 16 + hex_value(low)?)
}

fn hex_value(digit: u8) -> Option<u8>
    ensures { result ≡ hex_value digit }
{
    match digit {
        b'0'..=b'9' => Some(digit - b'0'),
        b'A'..=b'F' => Some(digit - b'A' + 10),
        b'a'..=b'f' => Some(digit - b'a' + 10),
        _ => None,
    }
}
