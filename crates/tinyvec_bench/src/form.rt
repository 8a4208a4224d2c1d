//! Lists and texts, written and read in the Borsh form.
ghost use Rattle.std.specs.Prelude.{◌*◌, ◌^◌, ◌<◌};

use crate::items::Item;
use crate::report::{Bench, Report, run};
use std::alloc::Global;
use tinyvec::TinyVec;
use tinyvec_array::ArrayVec;
use tinyvec_borsh::{BorshDeserialize, BorshSerialize};
use tinyvec_io::Counted;
use tinyvec_text::InlineText;

/// What is done with the value.
#[derive(Clone, Copy)]
pub enum Form {
    Write,
    Read,
}

/// The value, and its bytes.
#[derive(Drop)]
pub struct FormBench<'a, V> {
    pub alloc: Global,
    pub value: V,
    pub form: &'a mut Vec<u8>,
}

impl<V: BorshSerialize + BorshDeserialize + Drop> Bench<Form> for FormBench<'_, V> {
    #[inline(always)]
    fn round(&mut self, benchmark: Form, x: u64) -> u64 {
        match benchmark {
            Form::Write => written(&self.value, self.form, x),
            Form::Read => read(self.alloc, &mut self.value, self.form, x),
        }
    }
}

/// Lists of numbers in an array, and a `TinyVec` and a text of bytes, on the heap if there are more than 64.
pub fn of_forms<R: Report, const N: usize>(report: &mut R, alloc: Global)
    requires { N * 64 < 2 ^ 63 }
{
    let mut numbers: ArrayVec<[u32; N]> = ArrayVec::new();
    for i in 0..N {
        let _full = numbers.try_push(Item::of(i as u64));
    }
    forms(
        report,
        alloc,
        "borsh_write_u32",
        "borsh_read_u32",
        N,
        numbers,
    );
    let mut bytes: TinyVec<[u8; 64]> = TinyVec::new(alloc);
    let _refused = bytes.resize(N, b'a');
    forms(
        report,
        alloc,
        "borsh_write_tiny",
        "borsh_read_tiny",
        N,
        bytes,
    );
    let mut text: InlineText<64> = InlineText::new(alloc);
    for _i in 0..N {
        let _refused = text.push('a');
    }
    forms(
        report,
        alloc,
        "borsh_write_text",
        "borsh_read_text",
        N,
        text,
    );
}

fn forms<R: Report, V: BorshSerialize + BorshDeserialize + Drop>(
    report: &mut R,
    alloc: Global,
    write: &str,
    read: &str,
    n: usize,
    value: V,
) {
    let mut form = Vec::new(alloc);
    let mut list = FormBench {
        alloc,
        value,
        form: &mut form,
    };
    run(report, write, n, Form::Write, &mut list);
    run(report, read, n, Form::Read, &mut list);
}

// Writes the value, and answers how many bytes there are.
#[inline(never)]
fn written<V: BorshSerialize>(value: &V, form: &mut Vec<u8>, x: u64) -> u64 {
    form.clear();
    let _refused = value.serialize(&mut Counted::new(&mut *form));
    x.wrapping_add(form.len() as u64)
}

// Reads the value from its bytes.
#[inline(never)]
fn read<V: BorshDeserialize + Drop>(alloc: Global, value: &mut V, form: &[u8], x: u64) -> u64 {
    let Ok(made) = V::deserialize_reader(alloc, &mut Counted::new(form)) else {
        return 0;
    };
    *value = made;
    x
}
