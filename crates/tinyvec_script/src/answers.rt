//! The text of answers and of vectors, written in pieces. It allocates nothing.
ghost use Rattle.std.specs.Prelude.{◌≡◌, ◌+◌, ◌*◌, ◌<◌, ◌≤◌, ◌/◌, ◌%◌, ◌++◌, codes};
ghost use Rattle.std.specs.List.{flat_map};
ghost use Rattle.std.specs.Fmt.{decimal, signed_decimal};
ghost use Rattle.tinyvec_script.specs.Writes.{Gathers};
ghost use Rattle.tinyvec_script.specs.Text.{digit_pair, list_text, answer_text, state_text, place_text, place_state_text};
ghost use Rattle.tinyvec_script.specs.Text.{text_state_text};

use crate::Answer;
use crate::gathered::Gathered;
use std::io::Write;
use tinyvec_io::Counted;

pub(crate) fn write_answer<W: Write>(
    gathered: &mut Gathered,
    writer: &mut Counted<W>,
    answer: &Answer<i32>,
)
    ensures { Gathers W.contents writer.old gathered.old writer.new gathered.new (answer_text answer.now) }
{
    match answer {
        Answer::Done => gathered.put(writer, b"ok"),
        Answer::Some(number) => {
            gathered.put(writer, b"some ");
            write_number(gathered, writer, *number)
        }
        Answer::None => gathered.put(writer, b"none"),
        Answer::Items(numbers) => {
            gathered.put(writer, b"items ");
            write_list(gathered, writer, numbers.as_slice())
        }
        Answer::Spliced(numbers, rest) => {
            gathered.put(writer, b"items ");
            write_list(gathered, writer, numbers.as_slice());
            gathered.put(writer, b" rest ");
            write_list(gathered, writer, rest.as_slice())
        }
        Answer::Full => gathered.put(writer, b"full"),
        Answer::Range => gathered.put(writer, b"range"),
        Answer::Memory => gathered.put(writer, b"memory"),
        Answer::Unfit => gathered.put(writer, b"unfit"),
    }
}

// Writes the list, a blank and the spare slots.
#[tactic(auto, unfolding(crate::specs::Text::state_text))]
pub(crate) fn write_state<W: Write>(
    gathered: &mut Gathered,
    writer: &mut Counted<W>,
    items: &[i32],
    spare: &[i32],
)
    ensures { Gathers W.contents writer.old gathered.old writer.new gathered.new (state_text items.now spare.now) }
{
    write_list(gathered, writer, items);
    gathered.put(writer, b" ");
    write_list(gathered, writer, spare);
}

// Writes the list, a blank and the place.
#[tactic(auto, unfolding(crate::specs::Text::place_state_text))]
pub(crate) fn write_place_state<W: Write>(
    gathered: &mut Gathered,
    writer: &mut Counted<W>,
    items: &[i32],
    inline: bool,
)
    ensures { Gathers W.contents writer.old gathered.old writer.new gathered.new (place_state_text items.now inline) }
{
    write_list(gathered, writer, items);
    gathered.put(writer, b" ");
    write_place(gathered, writer, inline);
}

// Writes the bytes in brackets, a blank and the place.
#[tactic(auto, unfolding(crate::specs::Text::text_state_text))]
pub(crate) fn write_text_state<W: Write>(
    gathered: &mut Gathered,
    writer: &mut Counted<W>,
    bytes: &[u8],
    inline: bool,
)
    ensures { Gathers W.contents writer.old gathered.old writer.new gathered.new (text_state_text bytes.now inline) }
{
    gathered.put(writer, b"[");
    gathered.put(writer, bytes);
    gathered.put(writer, b"] ");
    write_place(gathered, writer, inline);
}

fn write_place<W: Write>(gathered: &mut Gathered, writer: &mut Counted<W>, inline: bool)
    ensures { Gathers W.contents writer.old gathered.old writer.new gathered.new (place_text inline) }
{
    if inline {
        gathered.put(writer, b"inline");
    } else {
        gathered.put(writer, b"heap");
    }
}

// Writes a list in brackets.
#[tactic(auto, unfolding(crate::specs::Text::list_text))]
fn write_list<W: Write>(gathered: &mut Gathered, writer: &mut Counted<W>, numbers: &[i32])
    ensures { Gathers W.contents writer.old gathered.old writer.new gathered.new (list_text numbers.now) }
{
    gathered.put(writer, b"[");
    if let Some((first, others)) = numbers.split_first() {
        write_number(gathered, writer, *first);
        write_more(gathered, writer, others);
    }
    gathered.put(writer, b"]");
}

// Writes numbers, each after a comma and a blank.
fn write_more<W: Write>(gathered: &mut Gathered, writer: &mut Counted<W>, numbers: &[i32])
    ensures { Gathers W.contents writer.old gathered.old writer.new gathered.new
        (flat_map (λ number. codes ", " ++ signed_decimal number) numbers.now) }
{
    for number in numbers {
        gathered.put_few(writer, &[b',', b' ']);
        write_number(gathered, writer, *number);
    }
}

fn write_number<W: Write>(gathered: &mut Gathered, writer: &mut Counted<W>, number: i32)
    ensures { Gathers W.contents writer.old gathered.old writer.new gathered.new (signed_decimal number) }
{
    if number >= 0 {
        write_decimal(gathered, writer, number as u32);
        return;
    }
    gathered.put(writer, b"-");
    write_decimal(gathered, writer, number.unsigned_abs());
}

// Writes the digits of the number. Those of one of at most eight are put at once.
fn write_decimal<W: Write>(gathered: &mut Gathered, writer: &mut Counted<W>, number: u32)
    ensures { Gathers W.contents writer.old gathered.old writer.new gathered.new (decimal number) }
{
    if number < 10000 {
        write_up_to_four(gathered, writer, number);
        return;
    }
    if number < 100000000 {
        write_up_to_eight(gathered, writer, number / 10000, number % 10000);
        return;
    }
    write_long(gathered, writer, number);
}

// Writes the digits of a number that has more than eight. A call of its own, since most have fewer.
#[inline(never)]
fn write_long<W: Write>(gathered: &mut Gathered, writer: &mut Counted<W>, number: u32)
    requires { 100000000 ≤ number }
    ensures { Gathers W.contents writer.old gathered.old writer.new gathered.new (decimal number) }
{
    write_up_to_four(gathered, writer, number / 100000000);
    gathered.put_few(writer, &four(number / 10000 % 10000));
    gathered.put_few(writer, &four(number % 10000));
}

// Writes the digits of `front`, and four of `back`.
#[inline(always)]
fn write_up_to_eight<W: Write>(
    gathered: &mut Gathered,
    writer: &mut Counted<W>,
    front: u32,
    back: u32,
)
    requires front_fits { front < 10000 }
    requires back_fits { back < 10000 }
    ensures { Gathers W.contents writer.old gathered.old writer.new gathered.new
        (decimal front ++ (digit_pair (back / 100) ++ digit_pair (back % 100))) }
{
    let [e, f, g, h] = four(back);
    if front < 10 {
        gathered.put_few(writer, &[b'0' + front as u8, e, f, g, h]);
        return;
    }
    if front < 100 {
        let [c, d] = pair(front);
        gathered.put_few(writer, &[c, d, e, f, g, h]);
        return;
    }
    if front < 1000 {
        let [c, d] = pair(front % 100);
        gathered.put_few(writer, &[b'0' + (front / 100) as u8, c, d, e, f, g, h]);
        return;
    }
    let [a, b, c, d] = four(front);
    gathered.put_few(writer, &[a, b, c, d, e, f, g, h]);
}

// Writes the digits of a number that has at most four.
#[inline(always)]
fn write_up_to_four<W: Write>(gathered: &mut Gathered, writer: &mut Counted<W>, number: u32)
    requires { number < 10000 }
    ensures { Gathers W.contents writer.old gathered.old writer.new gathered.new (decimal number) }
{
    if number < 10 {
        gathered.put_few(writer, &[b'0' + number as u8]);
        return;
    }
    if number < 100 {
        gathered.put_few(writer, &pair(number));
        return;
    }
    if number < 1000 {
        let [b, c] = pair(number % 100);
        gathered.put_few(writer, &[b'0' + (number / 100) as u8, b, c]);
        return;
    }
    gathered.put_few(writer, &four(number));
}

// Two digits, each in a byte, the first the low one: so LLVM stores them at once.
#[inline(always)]
fn pair_word(number: u32) -> u32
    requires { number < 100 }
    ensures { result ≡ number / 10 + number % 10 * 256 }
{
    number / 10 + number % 10 * 256
}

// Two digits.
#[inline(always)]
fn pair(number: u32) -> [u8; 2]
    requires { number < 100 }
    ensures { result ≡ digit_pair number }
{
    let word = pair_word(number) + 0x3030;
    [(word % 256) as u8, (word / 256) as u8]
}

// Four digits.
#[inline(always)]
fn four(number: u32) -> [u8; 4]
    requires { number < 10000 }
    ensures { result ≡ digit_pair (number / 100) ++ digit_pair (number % 100) }
{
    let word = pair_word(number / 100) + pair_word(number % 100) * 65536 + 0x3030_3030;
    [
        (word % 256) as u8,
        (word / 256 % 256) as u8,
        (word / 65536 % 256) as u8,
        (word / 16777216) as u8,
    ]
}
