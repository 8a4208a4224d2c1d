//! A text with other characters, or in another place, by a contract with the same mistake, would pass the check, and so would one
//! that gives up where memory is granted.
use crate::steps::{all_steps, granted_steps, is_debugged};
use std::test::Fail;
use tinyvec_text::InlineText;

#[test]
fn of_a_character_of_four_bytes(rt: HostRuntime) -> Result<(), Fail> {
    let mut text = InlineText::<4>::new(rt.alloc());
    let is_pushed = text.push('\u{1f600}').is_ok();
    let is_there = (text.as_bytes() == [0xf0, 0x9f, 0x98, 0x80].as_slice()) & text.is_inline();
    let mut are_boundaries = text.len() == 4;
    for at in 0..=5 {
        are_boundaries &= text.is_char_boundary(at) == (at == 0 || at == 4);
    }
    let is_granted = text.push('a').is_ok();
    let (wanted, inline) = if is_granted {
        ("\u{1f600}a", false)
    } else {
        ("\u{1f600}", true)
    };
    let is_right = (text.as_str() == wanted) & (text.is_inline() == inline);
    granted_steps(
        !is_granted & is_right,
        &[is_pushed & is_there, are_boundaries, is_right],
    )
}

#[test]
fn longer_than_the_array(rt: HostRuntime) -> Result<(), Fail> {
    let Ok(made) = InlineText::<4>::from_str(rt.alloc(), "hello") else {
        return granted_steps(true, &[]);
    };
    let mut joined = InlineText::<4>::new(rt.alloc());
    let is_granted = joined.push_str("hello").is_ok();
    granted_steps(
        !is_granted,
        &[
            !made.is_inline() & (made.as_str() == "hello"),
            !joined.is_inline() & (joined.as_str() == "hello"),
        ],
    )
}

// No clause says how `{:?}` writes a text that is not ASCII.
#[test]
fn debugged(rt: HostRuntime) -> Result<(), Fail> {
    let mut text = InlineText::<8>::new(rt.alloc());
    let is_pushed = text.push_str("\"é\n€").is_ok();
    let is_shown = is_debugged(&text, "\"\\\"é\\n€\"");
    let mut drained = false;
    if text.is_char_boundary(1) && text.is_char_boundary(3) {
        drained = match text.drain(1..3) {
            Ok(drain) => is_debugged(&drain, "InlineTextDrain(\"é\")"),
            Err(_) => false,
        };
    }
    all_steps(&[is_pushed, is_shown, drained])
}
