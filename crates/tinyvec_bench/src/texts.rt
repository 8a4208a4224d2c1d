//! The calls of a text, in its array or on the heap. Those that change it leave it as it was.

use crate::items::look_at;
use crate::looks::of_looks;
use crate::report::{Bench, Report, rows};
use std::alloc::{AllocError, Global};
use tinyvec_text::InlineText;

/// What is done with a text.
#[derive(Clone, Copy)]
pub enum TextCall {
    PushStr,
    Push,
    Refill,
    PushAndPop,
    InsertStr,
    ReplaceRange,
    RetainHalf,
    SplitOff,
    Clone,
    AsStr,
    MailDate,
}

/// A text, another, and the letters of both.
#[derive(Drop)]
pub struct Texts<'a, const N: usize> {
    alloc: Global,
    text: InlineText<N>,
    other: InlineText<N>,
    letters: &'a str,
}

impl<'a, const N: usize> Texts<'a, N> {
    /// A text of so many letters.
    pub fn new(alloc: Global, letters: &'a str, n: usize) -> Self {
        let letters = match letters.get(..n) {
            Some(front) => front,
            None => letters,
        };
        let mut text: InlineText<N> = InlineText::new(alloc);
        let mut other: InlineText<N> = InlineText::new(alloc);
        refill::<N>(&mut text, letters);
        refill::<N>(&mut other, letters);
        Texts {
            alloc,
            text,
            other,
            letters,
        }
    }
}

impl<const N: usize> Bench<TextCall> for Texts<'_, N> {
    #[inline(always)]
    fn round(&mut self, benchmark: TextCall, x: u64) -> u64 {
        let text = &mut self.text;
        match benchmark {
            TextCall::PushStr => push_str::<N>(self.alloc, &mut self.other, self.letters, x),
            TextCall::Push => push::<N>(self.alloc, &mut self.other, self.letters, x),
            TextCall::Refill => refill::<N>(text, self.letters),
            TextCall::PushAndPop => push_and_pop::<N>(text),
            TextCall::InsertStr => insert_str::<N>(text),
            TextCall::ReplaceRange => replace_range::<N>(text),
            TextCall::RetainHalf => retain_half::<N>(text, self.letters),
            TextCall::SplitOff => split_off::<N>(text, self.letters),
            TextCall::Clone => cloned::<N>(text, x),
            TextCall::AsStr => as_str::<N>(text, x),
            TextCall::MailDate => {
                let _refused = mail_date::<N>(self.alloc, &mut self.other, (x % 8) as u8);
                look_at(self.other.as_bytes(), x)
            }
        }
    }
}

/// The rows of a text.
pub fn of_text<R: Report, const N: usize>(report: &mut R, texts: &mut Texts<'_, N>) {
    let n = texts.letters.len();
    rows!(report, n, texts:
        "refill" TextCall::Refill,
        "push_and_pop" TextCall::PushAndPop,
        "insert_str" TextCall::InsertStr,
        "replace_range" TextCall::ReplaceRange,
        "retain_half" TextCall::RetainHalf,
        "split_off" TextCall::SplitOff,
        "clone" TextCall::Clone,
        "as_str" TextCall::AsStr,
        "push" TextCall::Push,
        "push_str" TextCall::PushStr,
    );
    of_looks(report, n, &texts.text, &texts.other);
}

/// At least `n` letters, each of a byte.
pub fn letters_of(alloc: Global, n: usize) -> String {
    let mut letters = String::new(alloc);
    for _i in 0..n / 64 {
        let _refused = letters.push_str(
            "abcdefghijklmnopqrstuvwxyzABCDEFGHIJKLMNOPQRSTUVWXYZ0123456789-_",
        );
    }
    letters
}

// Makes a new text of the letters.
#[inline(never)]
fn push_str<const N: usize>(alloc: Global, made: &mut InlineText<N>, letters: &str, x: u64) -> u64 {
    *made = InlineText::new(alloc);
    let _refused = made.push_str(letters);
    look_at(made.as_bytes(), x)
}

// The same, letter by letter.
#[inline(never)]
fn push<const N: usize>(alloc: Global, made: &mut InlineText<N>, letters: &str, x: u64) -> u64 {
    *made = InlineText::new(alloc);
    for letter in letters.chars() {
        let _refused = made.push(letter);
    }
    look_at(made.as_bytes(), x)
}

#[inline(never)]
fn refill<const N: usize>(text: &mut InlineText<N>, letters: &str) -> u64 {
    text.clear();
    let _refused = text.push_str(letters);
    text.len() as u64
}

#[inline(never)]
fn push_and_pop<const N: usize>(text: &mut InlineText<N>) -> u64 {
    let _refused = text.push('€');
    match text.pop() {
        Some(letter) => letter as u64,
        None => 0,
    }
}

// Inserts six letters, and cuts off as many.
#[inline(never)]
fn insert_str<const N: usize>(text: &mut InlineText<N>) -> u64 {
    let len = text.len();
    if text.insert_str(0, "abcdef").is_err() || !text.is_char_boundary(len) {
        return 0;
    }
    text.truncate(len);
    len as u64
}

// Puts eight letters in the place of three, and three in the place of eight.
#[inline(never)]
fn replace_range<const N: usize>(text: &mut InlineText<N>) -> u64 {
    if text.is_char_boundary(3) {
        let _refused = text.replace_range(0..3, "stuvwxyz");
    }
    if text.is_char_boundary(8) {
        let _refused = text.replace_range(0..8, "abc");
    }
    text.len() as u64
}

// Keeps every other letter.
#[inline(never)]
fn retain_half<const N: usize>(text: &mut InlineText<N>, letters: &str) -> u64 {
    text.retain(|letter| letter as u32 % 2 == 1);
    let kept = text.len() as u64;
    refill::<N>(text, letters);
    kept
}

#[inline(never)]
fn split_off<const N: usize>(text: &mut InlineText<N>, letters: &str) -> u64 {
    let middle = text.len() / 2;
    if !text.is_char_boundary(middle) {
        return 0;
    }
    let Ok(tail) = text.split_off(middle) else {
        return 0;
    };
    refill::<N>(text, letters);
    tail.len() as u64
}

#[inline(never)]
fn cloned<const N: usize>(text: &InlineText<N>, x: u64) -> u64 {
    let Ok(made) = text.clone() else {
        return 0;
    };
    look_at(made.as_bytes(), x)
}

#[inline(never)]
fn as_str<const N: usize>(text: &InlineText<N>, x: u64) -> u64 {
    look_at(text.as_str().as_bytes(), x)
}

// Makes a new text, and prints a date as `Sat, 13 Jul 2024 15:09:59 +0000`.
#[inline(never)]
fn mail_date<const N: usize>(
    alloc: Global,
    made: &mut InlineText<N>,
    n: u8,
) -> Result<(), AllocError> {
    *made = InlineText::new(alloc);
    made.push_str("Sat, ")?;
    push_two::<N>(made, n)?;
    made.push_str(" Jul ")?;
    push_two::<N>(made, 20)?;
    push_two::<N>(made, n)?;
    made.push(' ')?;
    push_two::<N>(made, n)?;
    made.push(':')?;
    push_two::<N>(made, n)?;
    made.push(':')?;
    push_two::<N>(made, n)?;
    made.push_str(" +0000")?;
    Ok(())
}

// The last two digits of `n`.
fn push_two<const N: usize>(made: &mut InlineText<N>, n: u8) -> Result<(), AllocError> {
    made.push((b'0' + n / 10 % 10) as char)?;
    made.push((b'0' + n % 10) as char)?;
    Ok(())
}
