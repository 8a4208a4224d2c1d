//! A line of bytes, split into fields.
#![tactic(auto)]

ghost use Rattle.std.specs.Prelude.{◌≡◌, ◌≢◌, ◌<◌, ◌↔◌, ◌++◌, ◌∷◌, [], map, length, All, IfSome, IsNone};
ghost use Rattle.tinyvec_array.specs.ArrayVec.{items};
ghost use Rattle.example_fields.specs.Fields.{bytes_of, parts, IsIn};

use tinyvec_array::ArrayVec;

/// A field of a line: the bytes from `start` up to `end`.
#[derive(Clone, Copy, Default)]
pub struct Field {
    pub start: usize,
    pub end: usize,
}

/// Splits a line at each separator, or returns `None` if it has more than eight fields.
pub fn split(line: &[u8], separator: u8) -> Option<ArrayVec<[Field; 8]>>
    ensures fields { IfSome result (λ fields. map (bytes_of line.now) (items fields) ≡ parts separator line.now) }
    ensures in_line { IfSome result (λ fields. All (IsIn line.now) (items fields)) }
    ensures refused { IsNone result ↔ (8 < length (parts separator line.now)) }
{
    let mut fields = ArrayVec::new();
    let mut start = 0;
    for (index, byte) in line.iter().enumerate() {
        if *byte == separator {
            if fields.is_full() {
                return None;
            }
            fields.push(Field { start, end: index });
            start = index + 1;
        }
    }
    if fields.is_full() {
        return None;
    }
    fields.push(Field {
        start,
        end: line.len(),
    });
    Some(fields)
}

/// The two sides of a line like `key=value`, or `None` if it has no `=` or more than one.
pub fn key_and_value(line: &[u8]) -> Option<(&[u8], &[u8])>
    ensures parts { IfSome result (λ sides. parts 61 line.now ≡ sides.0.now ∷ sides.1.now ∷ []) }
    ensures joined { IfSome result (λ sides. line.now ≡ sides.0.now ++ 61 ∷ sides.1.now) }
    ensures none { IsNone result ↔ (length (parts 61 line.now) ≢ 2) }
{
    let fields = split(line, b'=')?;
    if fields.len() != 2 {
        return None;
    }
    let key = fields[0];
    let value = fields[1];
    Some((&line[key.start..key.end], &line[value.start..value.end]))
}
