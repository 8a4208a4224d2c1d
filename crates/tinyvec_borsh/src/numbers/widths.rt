//! The types of whole numbers.
ghost use Rattle.std.specs.Prelude.{refl, true};
ghost use Rattle.std.specs.Int.{w8, w16, w32, w64, w128};
ghost use Rattle.tinyvec_borsh.specs.NumberLaws.{signed, unsigned};

use super::number::{FixedWidth, InBlocks, Number};
use crate::BorshError;
use crate::bytes::{read_bytes, write_bytes};
use std::io::{Read, Write};
use tinyvec_io::Counted;

// A list of bytes is written and read as it is.
impl Number for u8 {
    ghost in_place = { true };

    ghost lost = { 0 };

    fn write_all<W: Write>(items: &[Self], writer: &mut Counted<W>) -> Result<(), BorshError> {
        write_bytes(writer, items)
    }

    fn read_all<R: Read>(slots: &mut [Self], reader: &mut Counted<R>) -> Result<(), BorshError> {
        read_bytes(reader, slots)
    }
}

impl InBlocks for u16 {}

impl InBlocks for u32 {}

impl InBlocks for u64 {}

impl InBlocks for u128 {}

impl InBlocks for i8 {}

impl InBlocks for i16 {}

impl InBlocks for i32 {}

impl InBlocks for i64 {}

impl InBlocks for i128 {}

impl FixedWidth for u8 {
    type Bytes = [u8; 1];

    ghost form = { unsigned w8 };

    fn to_bytes(self) -> [u8; 1] {
        u8::to_le_bytes(self)
    }

    fn from_bytes(bytes: [u8; 1]) -> u8 {
        u8::from_le_bytes(bytes)
    }

    ghost sized = { refl };
}

impl FixedWidth for u16 {
    type Bytes = [u8; 2];

    ghost form = { unsigned w16 };

    fn to_bytes(self) -> [u8; 2] {
        u16::to_le_bytes(self)
    }

    fn from_bytes(bytes: [u8; 2]) -> u16 {
        u16::from_le_bytes(bytes)
    }

    ghost sized = { refl };
}

impl FixedWidth for u32 {
    type Bytes = [u8; 4];

    ghost form = { unsigned w32 };

    fn to_bytes(self) -> [u8; 4] {
        u32::to_le_bytes(self)
    }

    fn from_bytes(bytes: [u8; 4]) -> u32 {
        u32::from_le_bytes(bytes)
    }

    ghost sized = { refl };
}

impl FixedWidth for u64 {
    type Bytes = [u8; 8];

    ghost form = { unsigned w64 };

    fn to_bytes(self) -> [u8; 8] {
        u64::to_le_bytes(self)
    }

    fn from_bytes(bytes: [u8; 8]) -> u64 {
        u64::from_le_bytes(bytes)
    }

    ghost sized = { refl };
}

impl FixedWidth for u128 {
    type Bytes = [u8; 16];

    ghost form = { unsigned w128 };

    fn to_bytes(self) -> [u8; 16] {
        u128::to_le_bytes(self)
    }

    fn from_bytes(bytes: [u8; 16]) -> u128 {
        u128::from_le_bytes(bytes)
    }

    ghost sized = { refl };
}

impl FixedWidth for i8 {
    type Bytes = [u8; 1];

    ghost form = { signed w8 };

    fn to_bytes(self) -> [u8; 1] {
        i8::to_le_bytes(self)
    }

    fn from_bytes(bytes: [u8; 1]) -> i8 {
        i8::from_le_bytes(bytes)
    }

    ghost sized = { refl };
}

impl FixedWidth for i16 {
    type Bytes = [u8; 2];

    ghost form = { signed w16 };

    fn to_bytes(self) -> [u8; 2] {
        i16::to_le_bytes(self)
    }

    fn from_bytes(bytes: [u8; 2]) -> i16 {
        i16::from_le_bytes(bytes)
    }

    ghost sized = { refl };
}

impl FixedWidth for i32 {
    type Bytes = [u8; 4];

    ghost form = { signed w32 };

    fn to_bytes(self) -> [u8; 4] {
        i32::to_le_bytes(self)
    }

    fn from_bytes(bytes: [u8; 4]) -> i32 {
        i32::from_le_bytes(bytes)
    }

    ghost sized = { refl };
}

impl FixedWidth for i64 {
    type Bytes = [u8; 8];

    ghost form = { signed w64 };

    fn to_bytes(self) -> [u8; 8] {
        i64::to_le_bytes(self)
    }

    fn from_bytes(bytes: [u8; 8]) -> i64 {
        i64::from_le_bytes(bytes)
    }

    ghost sized = { refl };
}

impl FixedWidth for i128 {
    type Bytes = [u8; 16];

    ghost form = { signed w128 };

    fn to_bytes(self) -> [u8; 16] {
        i128::to_le_bytes(self)
    }

    fn from_bytes(bytes: [u8; 16]) -> i128 {
        i128::from_le_bytes(bytes)
    }

    ghost sized = { refl };
}
