//! The command that a line spells.
ghost use Rattle.std.specs.Prelude.{◌≡◌, ◌≢◌, ◌<◌, ◌≤◌, ◌^◌, ◌++◌, ◌∷◌, List, ℕ, ℤ, length, codes, MatchOption, IfSome};
ghost use Rattle.std.specs.Prelude.{IfNone, All};
ghost use Rattle.std.specs.Fmt.{decimal};
ghost use Rattle.tinyvec_script.specs.Command.{IsCall, IsNoSplice, Has, HasSplice};
ghost use Rattle.tinyvec_script.specs.Spelled.{Spells, SpellsFor};
ghost use Rattle.tinyvec_script.specs.declared.command.Name.TheVariants.{A, S, T};
ghost use Rattle.tinyvec_script.specs.declared.call.Call.{Call};

use crate::Call;
use crate::number::{parse_index, parse_number};
use crate::splice_text::{Numbers, letters, parse_splice};
use crate::text_command::{TextCall, parse_text_line};
use std::alloc::Global;

/// The name of a vector in a script. No call takes one: it is a word of the script's theorem.
#[derive(Clone, Copy, PartialEq, Debug, Drop)]
pub enum Name {
    /// A vector in an array.
    A,
    /// A vector in a lent slice.
    S,
    /// A vector in an array or on the heap.
    T,
}

// What a line spells.
#[derive(Drop)]
pub(crate) enum Command<'a> {
    /// A call of the vector.
    Vector(Name, Call<i32>),
    /// A call of the text.
    Text(TextCall<'a>),
    /// No call.
    Bad,
    /// A splice of the vector, for whose letters or numbers memory was refused.
    Memory(Name),
}

// Allocates only for a line that spells a splice.
pub(crate) fn parse_line(alloc: Global, line: &[u8]) -> Command<'_>
    ensures { Spells line.now result }
{
    if line.len() > 128 {
        return Command::Bad;
    }
    if let Some(text) = line.strip_prefix(b"A ") {
        return parse_vector_call(alloc, Name::A, text);
    }
    if let Some(text) = line.strip_prefix(b"S ") {
        return parse_vector_call(alloc, Name::S, text);
    }
    if let Some(text) = line.strip_prefix(b"T ") {
        return parse_vector_call(alloc, Name::T, text);
    }
    match parse_text_line(line) {
        Some(call) => Command::Text(call),
        None => Command::Bad,
    }
}

fn parse_vector_call(alloc: Global, name: Name, text: &[u8]) -> Command<'_>
    requires { length text.now ≤ 126 }
    ensures { SpellsFor name text.now result }
{
    if name != Name::S {
        if let Some(rest) = text.strip_prefix(b"splice ") {
            return parse_splice_call(alloc, name, rest);
        }
    }
    match parse_named_call(name, text) {
        Some(call) => Command::Vector(name, call),
        None => Command::Bad,
    }
}

fn parse_splice_call(alloc: Global, name: Name, rest: &[u8]) -> Command<'_>
    requires short { length rest.now ≤ 119 }
    requires has { HasSplice name }
    ensures { SpellsFor name (codes "splice " ++ rest.now) result }
{
    let mut numbers = Numbers::new();
    let Some((start, end, word)) = parse_splice(rest, &mut numbers) else {
        return Command::Bad;
    };
    let Ok(word) = letters(alloc, word) else {
        return Command::Memory(name);
    };
    let Ok(numbers) = numbers.drain_to_vec(alloc) else {
        return Command::Memory(name);
    };
    Command::Vector(name, Call::Splice(start, end, word, numbers))
}

// The call of the vector that the text after its name spells, unless it is a splice.
fn parse_named_call(name: Name, text: &[u8]) -> Option<Call<i32>>
    ensures { MatchOption result ((call : Call ℤ) → Has name call → IsNoSplice call → IsCall text.now call → ⊥)
        (λ call. IsCall text.now call × Has name call) }
{
    match name {
        Name::A | Name::S => parse_slots_call(text),
        Name::T => parse_tiny_call(text),
    }
}

// The call of `A` or `S` that the text after the vector's name spells, unless it is a splice.
fn parse_slots_call(text: &[u8]) -> Option<Call<i32>>
    ensures { MatchOption result ((call : Call ℤ) → Has S call → IsCall text.now call → ⊥)
        (λ call. IsCall text.now call × Has S call) }
{
    if let Some(index) = text.strip_prefix(b"setlen ") {
        return Some(Call::SetLen(parse_index(index)?));
    }
    parse_call(text)
}

// The call of `T` that the text after the vector's name spells, unless it is a splice.
fn parse_tiny_call(text: &[u8]) -> Option<Call<i32>>
    ensures { MatchOption result ((call : Call ℤ) → Has T call → IsNoSplice call → IsCall text.now call → ⊥)
        (λ call. IsCall text.now call × Has T call) }
{
    if text == b"heap".as_slice() {
        return Some(Call::Heap);
    }
    if text == b"shrink".as_slice() {
        return Some(Call::Shrink);
    }
    if let Some(index) = text.strip_prefix(b"reserve ") {
        return Some(Call::Reserve(parse_index(index)?));
    }
    parse_call(text)
}

// The call that the text spells after the name of any vector.
fn parse_call(text: &[u8]) -> Option<Call<i32>>
    ensures { MatchOption result ((call : Call ℤ) → Has S call → Has T call → IsCall text.now call → ⊥)
        (λ call. IsCall text.now call × Has S call × Has T call) }
{
    if text == b"pop".as_slice() {
        return Some(Call::Pop);
    }
    if let Some(number) = text.strip_prefix(b"push ") {
        return Some(Call::Push(parse_number(number)?));
    }
    if let Some(rest) = text.strip_prefix(b"insert ") {
        let (index, number) = parse_first_index(rest)?;
        return Some(Call::Insert(index, parse_number(number)?));
    }
    if let Some(index) = text.strip_prefix(b"remove ") {
        return Some(Call::Remove(parse_index(index)?));
    }
    if let Some(index) = text.strip_prefix(b"swap ") {
        return Some(Call::SwapRemove(parse_index(index)?));
    }
    if let Some(index) = text.strip_prefix(b"truncate ") {
        return Some(Call::Truncate(parse_index(index)?));
    }
    let (start, end) = parse_first_index(text.strip_prefix(b"drain ")?)?;
    Some(Call::Drain(start, parse_index(end)?))
}

// The index that the text begins with, before a blank, and the text after that.
pub(crate) fn parse_first_index(text: &[u8]) -> Option<(usize, &[u8])>
    ensures { MatchOption result ((index : ℕ) (rest : List ℕ) → index < 2 ^ 64 → text.now ≢ decimal index ++ 32 ∷ rest)
        (λ parts. text.now ≡ decimal parts.0 ++ 32 ∷ parts.1.now) }
{
    let (index, rest) = split_at_byte(text, b' ')?;
    Some((parse_index(index)?, rest))
}

// The text before the first such byte, and the text after it.
pub(crate) fn split_at_byte(text: &[u8], byte: u8) -> Option<(&[u8], &[u8])>
    ensures some { IfSome result (λ parts. text.now ≡ parts.0.now ++ byte ∷ parts.1.now) }
    ensures front { IfSome result (λ parts. All (λ b. b ≢ byte) parts.0.now) }
    ensures none { IfNone result (All (λ b. b ≢ byte) text.now) }
{
    for (index, b) in text.iter().enumerate() {
        if *b == byte {
            return Some((&text[..index], &text[index + 1..]));
        }
    }
    None
}
