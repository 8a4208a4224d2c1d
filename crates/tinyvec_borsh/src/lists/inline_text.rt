//! An `InlineText`: the list of its bytes.
ghost use Rattle.std.specs.Prelude.{◌≡◌, ◌*◌, ◌≤◌, ◌↔◌, ℕ, List, max, IsTrue, IfErr, IfOk};
ghost use Rattle.tinyvec_text.specs.InlineText.{text_len};
ghost use Rattle.tinyvec_borsh.specs.Reading.{FailsFor, ReadsSpelling};
ghost use Rattle.tinyvec_borsh.specs.Text.{AreNoText, SpellsText, TextFits, TextReason};
ghost use Rattle.tinyvec_borsh.specs.TextLaws.{text_apart, text_code, text_spelled};

use super::write_list;
use crate::{BorshDeserialize, BorshError, BorshForm, BorshSerialize};
use std::alloc::Global;
use std::io::{Read, Write};
use tinyvec::TinyVec;
use tinyvec_io::Counted;
use tinyvec_text::InlineText;

impl<const N: usize> BorshForm for InlineText<N> {
    ghost Content = { List ℕ };

    ghost content_of = { λ t. t.bytes };

    ghost Spells = { SpellsText };

    ghost Fits = { TextFits };

    ghost code = { text_code };

    ghost spelled = { text_spelled };
}

impl<const N: usize> BorshSerialize for InlineText<N> {
    fn serialize<W: Write>(&self, writer: &mut Counted<W>) -> Result<(), BorshError> {
        write_list(self.len(), self.as_bytes(), writer)
    }
}

impl<const N: usize> BorshDeserialize for InlineText<N> {
    ghost Reason = { TextReason N };

    ghost apart = { text_apart N };

    fn deserialize_reader<R: Read>(
        alloc: Global,
        reader: &mut Counted<R>,
    ) -> Result<Self, BorshError>
        ensures ok { IfOk result (λ t. ReadsSpelling (SpellsText t.bytes)
            (R.remaining reader.old.inner) (R.remaining reader.new.inner)) }
        ensures valid { IfOk result (λ t. TextFits t.bytes) }
        ensures fails { FailsFor R.remaining (TextReason N) reader.old reader.new result }
        ensures place { IfOk result (λ t. IsTrue t.place.inline ↔ (text_len t ≤ N)) }
        ensures capacity { IfOk result (λ t. t.place.capacity ≤ max N (2 * text_len t)) }
        ensures fits { IfOk result (λ t. text_len t ≤ t.place.capacity) }
        ensures inline_capacity { IfOk result (λ t. IsTrue t.place.inline → t.place.capacity ≡ N) }

        // Of what is no text just its bytes were taken.
        ensures rest { IfErr result (λ e. e ≡ BorshError.InvalidUtf8 → (bytes : List ℕ) × AreNoText bytes
            × ReadsSpelling (SpellsText bytes) (R.remaining reader.old.inner) (R.remaining reader.new.inner)) }
    {
        let bytes = TinyVec::<[u8; N]>::deserialize_reader(alloc, reader)?;
        match InlineText::from_utf8_or_none(bytes) {
            Some(text) => Ok(text),
            None => Err(BorshError::InvalidUtf8),
        }
    }
}
