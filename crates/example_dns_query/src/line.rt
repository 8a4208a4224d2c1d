//! A line that asks for a query.
ghost use Rattle.std.specs.Prelude.{◌≡◌, ◌≢◌, ◌<◌, ◌≤◌, ◌^◌, ◌↔◌, ◌∷◌, [], ℕ, List, length, slice_index_or, IfSome};
ghost use Rattle.std.specs.Prelude.{IfNone, IfOk, IsOk, OnErr, Err};
ghost use Rattle.example_dns_query.specs.Line.{words, word_of, IsDecimal, IsId, Asks, AsksFaulty, Answers};
ghost use Rattle.example_dns_query.specs.Message.{query};
ghost use Rattle.example_dns_query.specs.Name.{IsName, labels_of};
ghost use Rattle.example_dns_query.specs.declared.record_type.RecordType.{RecordType as AnyType};
ghost use Rattle.example_dns_query.specs.declared.query.QueryError.{QueryError as AnyError};
ghost use Rattle.example_dns_query.specs.declared.line.LineError.TheVariants.{Words, Number, UnknownType, Query};

use crate::parts::first_part;
use crate::query::{QueryError, write_query};
use crate::record_type::RecordType;
use std::str;

/// Why there is no query for a line.
#[derive(Clone, Copy, PartialEq, Debug)]
pub enum LineError {
    /// The line does not have three words.
    Words,
    /// The first word is no number from 0 to 65535.
    Number,
    /// The third word is no type of record.
    UnknownType,
    /// The name, or the message for it, has a fault.
    Query(QueryError),
}

impl LineError {
    ghost use Rattle.example_dns_query.specs.Answer.{line_error_text};

    /// What the error says.
    pub fn text(&self) -> &'static str
        ensures { result.now ≡ line_error_text self.now }
    {
        match self {
            LineError::Words => "a line is a number, a name and a type, with one blank between two",
            LineError::Number => "the first word is no number from 0 to 65535",
            LineError::UnknownType => {
                "the third word is none of A, NS, CNAME, SOA, PTR, MX, TXT and AAAA"
            }
            LineError::Query(error) => error.text(),
        }
    }
}

/// What a line asks for.
#[derive(Clone, Copy)]
pub struct Question<'a> {
    pub id: u16,
    pub name: &'a [u8],
    pub record_type: RecordType,
}

// The number that a word spells.
fn parse_id(word: &[u8]) -> Option<u16>
    ensures some { IfSome result (IsDecimal word.now) }
    ensures none { IfNone result ((id : ℕ) → id < 2 ^ 16 → IsDecimal word.now id → ⊥) }
{
    let Ok(text) = str::from_utf8(word) else {
        return None;
    };
    let Ok(id) = text.parse::<u16>() else {
        return None;
    };
    Some(id)
}

// The type that a word stands for.
fn parse_type(word: &[u8]) -> Option<RecordType>
    ensures some { IfSome result (λ record_type. word.now ≡ word_of record_type) }
    ensures none { IfNone result ((record_type : AnyType) → word.now ≢ word_of record_type) }
{
    match word {
        b"A" => Some(RecordType::A),
        b"NS" => Some(RecordType::Ns),
        b"CNAME" => Some(RecordType::Cname),
        b"SOA" => Some(RecordType::Soa),
        b"PTR" => Some(RecordType::Ptr),
        b"MX" => Some(RecordType::Mx),
        b"TXT" => Some(RecordType::Txt),
        b"AAAA" => Some(RecordType::Aaaa),
        _ => None,
    }
}

// The three words of a line.
fn three_words(line: &[u8]) -> Option<(&[u8], &[u8], &[u8])>
    ensures some { IfSome result (λ three. words line.now ≡ three.0.now ∷ three.1.now ∷ three.2.now ∷ []) }
    ensures none { IfNone result (length (words line.now) ≢ 3) }
{
    let (first, rest) = first_part(line, b' ');
    let (second, rest) = first_part(rest?, b' ');
    let (third, rest) = first_part(rest?, b' ');
    if rest.is_some() {
        return None;
    }
    Some((first, second, third))
}

/// What a line asks for.
pub fn parse_line(line: &[u8]) -> Result<Question<'_>, LineError>
    ensures asks { IfOk result (λ question. Asks line.now question.id question.name.now question.record_type) }
    ensures refused { OnErr result ((id : ℕ) (name : List ℕ) (record_type : AnyType)
        → id < 2 ^ 16 → Asks line.now id name record_type → ⊥) }

    // When each error comes.
    ensures of_the_line { (fault : AnyError) → result ≢ Err (Query fault) }
    ensures words { (result ≡ Err Words) ↔ (length (words line.now) ≢ 3) }
    ensures number { (result ≡ Err Number)
        ↔ ((length (words line.now) ≡ 3) × (IsId (slice_index_or (words line.now) 0 []) → ⊥)) }
    ensures unknown_type { (result ≡ Err UnknownType)
        ↔ ((length (words line.now) ≡ 3) × IsId (slice_index_or (words line.now) 0 [])
        × ((record_type : AnyType) → slice_index_or (words line.now) 2 [] ≢ word_of record_type)) }
{
    let Some((number, name, word)) = three_words(line) else {
        return Err(LineError::Words);
    };
    let Some(id) = parse_id(number) else {
        return Err(LineError::Number);
    };
    let Some(record_type) = parse_type(word) else {
        return Err(LineError::UnknownType);
    };
    Ok(Question {
        id,
        name,
        record_type,
    })
}

/// Writes the query that a line asks for at the start of the slice, and answers how long it is.
pub fn answer_line(slice: &mut [u8], line: &[u8]) -> Result<usize, LineError>
    ensures answers { IfOk result (Answers line.now slice.old slice.new) }
    ensures unchanged { OnErr result (slice.new ≡ slice.old) }
    ensures succeeds { (id : ℕ) (name : List ℕ) (record_type : AnyType) → id < 2 ^ 16
        → Asks line.now id name record_type → IsName name
        → length (query id (labels_of name) record_type) ≤ length slice.old → IsOk result }

    // When each error comes: of the query that the line asks for, and of the line itself.
    ensures query { (fault : AnyError)
        → (result ≡ Err (Query fault)) ↔ AsksFaulty line.now (length slice.old) fault }
    ensures words { (result ≡ Err Words) ↔ (length (words line.now) ≢ 3) }
    ensures number { (result ≡ Err Number)
        ↔ ((length (words line.now) ≡ 3) × (IsId (slice_index_or (words line.now) 0 []) → ⊥)) }
    ensures unknown_type { (result ≡ Err UnknownType)
        ↔ ((length (words line.now) ≡ 3) × IsId (slice_index_or (words line.now) 0 [])
        × ((record_type : AnyType) → slice_index_or (words line.now) 2 [] ≢ word_of record_type)) }
{
    let question = parse_line(line)?;
    match write_query(slice, question.id, question.name, question.record_type) {
        Ok(len) => Ok(len),
        Err(error) => Err(LineError::Query(error)),
    }
}
