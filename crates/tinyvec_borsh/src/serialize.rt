//! Writing.
ghost use Rattle.std.specs.Prelude.{map, OnOk};
ghost use Rattle.std.specs.List.{AllByRecursion};
ghost use Rattle.tinyvec_borsh.specs.Items.{SpellsItems};
ghost use Rattle.tinyvec_borsh.specs.Writing.{WritesValue};

use crate::{BorshError, BorshForm};
use std::io::Write;
use tinyvec_io::Counted;

/// What can be written.
pub trait BorshSerialize: BorshForm {
    /// Writes the encoding of the value's content.
    fn serialize<W: Write>(&self, writer: &mut Counted<W>) -> Result<(), BorshError>
        ensures writes { WritesValue W.contents (Self.Spells (Self.content_of self.now)) writer.old writer.new result }
        ensures valid { OnOk result (Self.Fits (Self.content_of self.now)) };

    /// Writes the items one after the other.
    fn serialize_items<W: Write>(items: &[Self], writer: &mut Counted<W>) -> Result<(), BorshError>
    where
        Self: Sized,
        ensures writes { WritesValue W.contents (SpellsItems Self.Spells (map Self.content_of items.now))
            writer.old writer.new result }
        ensures valid { OnOk result (AllByRecursion Self.Fits (map Self.content_of items.now)) }
    {
        for item in items {
            item.serialize(writer)?;
        }
        Ok(())
    }
}
