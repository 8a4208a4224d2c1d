//! A query in a lent slice.
ghost use Rattle.std.specs.Prelude.{◌≡◌, ◌≢◌, ◌+◌, ◌<◌, ◌≤◌, ◌↔◌, ◌++◌, length, drop, ◌==◌, All, IsTrue, OnOk, IfOk};
ghost use Rattle.std.specs.Prelude.{IsOk, OnErr, Some, None, Err};
ghost use Rattle.std.specs.List.{flat_map};
ghost use Rattle.std.specs.Option.{option_copied};
ghost use Rattle.tinyvec_array.specs.SliceVec.{slice_spare};
ghost use Rattle.tinyvec_array.specs.Appends.{Appends};
ghost use Rattle.example_dns_query.specs.Message.{two_bytes, header, type_and_class, query};
ghost use Rattle.example_dns_query.specs.Name.{IsPrinted, IsLabel, IsName, SpellsOnly, body_of as body_in, labels_in};
ghost use Rattle.example_dns_query.specs.Name.{labels_of, first_fault, label_wire, name_wire};
ghost use Rattle.example_dns_query.specs.declared.query.QueryError.TheVariants.{BadByte, EmptyLabel, LongLabel};
ghost use Rattle.example_dns_query.specs.declared.query.QueryError.TheVariants.{LongName, Full};

use crate::parts::first_part;
use crate::record_type::{RecordType, code};
use tinyvec_array::SliceVec;

// Recursion is desired. There is one question, and no record in the three other sections.
const FLAGS_AND_COUNTS: [u8; 10] = [1, 0, 0, 1, 0, 0, 0, 0, 0, 0];

const CLASS_INTERNET: u16 = 1;

const HEADER_LEN: usize = 12;

const TYPE_AND_CLASS_LEN: usize = 4;

/// Why there is no query.
#[derive(Clone, Copy, PartialEq, Debug)]
pub enum QueryError {
    /// The name has a byte that is no printed ASCII character.
    BadByte,
    /// The name has a label with no byte.
    EmptyLabel,
    /// The name has a label with more than 63 bytes.
    LongLabel,
    /// The name has more than 255 bytes on the wire.
    LongName,
    /// The message does not fit the slice.
    Full,
}

impl QueryError {
    ghost use Rattle.example_dns_query.specs.Answer.{query_error_text};

    /// What the error says.
    pub fn text(&self) -> &'static str
        ensures { result.now ≡ query_error_text self.now }
    {
        match self {
            QueryError::BadByte => "the name has a byte that is no printed ASCII character",
            QueryError::EmptyLabel => "the name has a label with no byte",
            QueryError::LongLabel => "the name has a label with more than 63 bytes",
            QueryError::LongName => "the name has more than 255 bytes on the wire",
            QueryError::Full => "the message does not fit the slice",
        }
    }
}

// Appends the bytes.
fn push_bytes(message: &mut SliceVec<'_, u8>, bytes: &[u8])
    requires { length bytes.now ≤ length (slice_spare message.old) }
    ensures { Appends bytes.now message.old message.new }
{
    let _done = message.extend_from_slice(bytes);
}

// Appends a number of two bytes.
fn push_number(message: &mut SliceVec<'_, u8>, number: u16)
    requires { 2 ≤ length (slice_spare message.old) }
    ensures { Appends (two_bytes number) message.old message.new }
{
    push_bytes(message, &[(number / 256) as u8, (number % 256) as u8]);
}

// Appends a label.
fn push_label(message: &mut SliceVec<'_, u8>, label: &[u8])
    requires is_label { IsLabel label.now }
    requires room { length label.now < length (slice_spare message.old) }
    ensures { Appends (label_wire label.now) message.old message.new }
{
    message.push(label.len() as u8);
    push_bytes(message, label);
}

// Appends the labels of a text.
fn push_labels(message: &mut SliceVec<'_, u8>, body: Option<&[u8]>)
    requires are_labels { All IsLabel (labels_in (option_copied body)) }
    requires room { length (flat_map label_wire (labels_in (option_copied body))) ≤ length (slice_spare message.old) }
    ensures { Appends (flat_map label_wire (labels_in (option_copied body.entry))) message.old message.new }
{
    let mut rest = body;
    while let Some(text) = rest {
        let (label, more) = first_part(text, b'.');
        push_label(message, label);
        rest = more;
    }
}

// The text of a name's labels, with a dot between two, or none for the root.
fn body_of(name: &[u8]) -> Option<&[u8]>
    ensures { option_copied result ≡ body_in name.now }
{
    let Some(last) = name.last() else {
        return Some(name);
    };
    if *last != b'.' {
        return Some(name);
    }
    if name.len() == 1 {
        return None;
    }
    Some(&name[..name.len() - 1])
}

// Whether each byte is a printed character of ASCII, and no blank.
fn are_printed(name: &[u8]) -> bool
    ensures { IsTrue result ↔ All IsPrinted name.now }
{
    let mut are = true;
    for byte in name {
        if !byte.is_ascii_graphic() {
            are = false;
        }
    }
    are
}

// What is wrong with the first label that has no byte or more than 63.
fn label_fault(body: Option<&[u8]>) -> Option<QueryError>
    ensures { result ≡ first_fault (labels_in (option_copied body.entry)) }
{
    let mut rest = body;
    while let Some(text) = rest {
        let (label, more) = first_part(text, b'.');
        if label.is_empty() {
            return Some(QueryError::EmptyLabel);
        }
        if label.len() > 63 {
            return Some(QueryError::LongLabel);
        }
        rest = more;
    }
    None
}

// How many bytes the name has on the wire.
fn name_len(body: Option<&[u8]>) -> usize
    ensures { result ≡ length (name_wire (labels_in (option_copied body.entry))) }
{
    match body {
        Some(text) => text.len() + 2,
        None => 1,
    }
}

// Appends the header of a query.
fn push_header(message: &mut SliceVec<'_, u8>, id: u16)
    requires { 12 ≤ length (slice_spare message.old) }
    ensures { Appends (header id) message.old message.new }
{
    push_number(message, id);
    push_bytes(message, &FLAGS_AND_COUNTS);
}

// Appends a name.
fn push_name(message: &mut SliceVec<'_, u8>, body: Option<&[u8]>)
    requires are_labels { All IsLabel (labels_in (option_copied body)) }
    requires room { length (name_wire (labels_in (option_copied body))) ≤ length (slice_spare message.old) }
    ensures { Appends (name_wire (labels_in (option_copied body.entry))) message.old message.new }
{
    push_labels(message, body);
    message.push(0);
}

// Appends a type and the class.
fn push_type(message: &mut SliceVec<'_, u8>, record_type: RecordType)
    requires { 4 ≤ length (slice_spare message.old) }
    ensures { Appends (type_and_class record_type) message.old message.new }
{
    push_number(message, code(record_type));
    push_number(message, CLASS_INTERNET);
}

// Appends a query.
fn push_query(message: &mut SliceVec<'_, u8>, id: u16, body: Option<&[u8]>, record_type: RecordType)
    requires are_labels { All IsLabel (labels_in (option_copied body)) }
    requires room { length (query id (labels_in (option_copied body)) record_type) ≤ length (slice_spare message.old) }
    ensures { Appends (query id (labels_in (option_copied body.entry)) record_type) message.old message.new }
{
    push_header(message, id);
    push_name(message, body);
    push_type(message, record_type);
}

// Whether the text spells a name, and why not.
fn check_name(name: &[u8]) -> Result<(), QueryError>
    ensures is_name { OnOk result (IsName name.now) }
    ensures bad_byte { (result ≡ Err BadByte) ↔ (All IsPrinted name.now → ⊥) }
    ensures empty_label { (result ≡ Err EmptyLabel)
        ↔ (All IsPrinted name.now × (first_fault (labels_of name.now) ≡ Some EmptyLabel)) }
    ensures long_label { (result ≡ Err LongLabel)
        ↔ (All IsPrinted name.now × (first_fault (labels_of name.now) ≡ Some LongLabel)) }
    ensures long_name { (result ≡ Err LongName)
        ↔ (All IsPrinted name.now × All IsLabel (labels_of name.now) × (255 < length (name_wire (labels_of name.now)))) }
    ensures refused { OnErr result (IsName name.now → ⊥) }
    ensures not_full { result ≢ Err Full }
{
    if !are_printed(name) {
        return Err(QueryError::BadByte);
    }
    let body = body_of(name);
    if let Some(fault) = label_fault(body) {
        return Err(fault);
    }
    if name_len(body) > 255 {
        return Err(QueryError::LongName);
    }
    Ok(())
}

/// Writes a query at the start of the slice, and answers how long it is. The name is given as text, as `example.com`.
pub fn write_query(
    slice: &mut [u8],
    id: u16,
    name: &[u8],
    record_type: RecordType,
) -> Result<usize, QueryError>
    ensures written { IfOk result (λ len. slice.new ≡ query id (labels_of name.now) record_type ++ drop len slice.old) }
    ensures len { IfOk result (λ len. len ≡ length (query id (labels_of name.now) record_type)) }
    ensures is_name { OnOk result (IsName name.now) }
    ensures spelling { SpellsOnly name.now (labels_of name.now) }
    ensures unchanged { OnErr result (slice.new ≡ slice.old) }
    ensures succeeds { IsName name.now
        → length (query id (labels_of name.now) record_type) ≤ length slice.old → IsOk result }

    // When each error comes.
    ensures bad_byte { (result ≡ Err BadByte) ↔ (All IsPrinted name.now → ⊥) }
    ensures empty_label { (result ≡ Err EmptyLabel)
        ↔ (All IsPrinted name.now × (first_fault (labels_of name.now) ≡ Some EmptyLabel)) }
    ensures long_label { (result ≡ Err LongLabel)
        ↔ (All IsPrinted name.now × (first_fault (labels_of name.now) ≡ Some LongLabel)) }
    ensures long_name { (result ≡ Err LongName)
        ↔ (All IsPrinted name.now × All IsLabel (labels_of name.now) × (255 < length (name_wire (labels_of name.now)))) }
    ensures full { (result ≡ Err Full)
        ↔ (IsName name.now × (length slice.old < length (query id (labels_of name.now) record_type))) }
{
    check_name(name)?;
    let body = body_of(name);
    let len = HEADER_LEN + name_len(body) + TYPE_AND_CLASS_LEN;
    if slice.len() < len {
        return Err(QueryError::Full);
    }
    let mut message = SliceVec::from_slice_len(slice, 0);
    push_query(&mut message, id, body, record_type);
    Ok(len)
}
