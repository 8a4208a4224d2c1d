//! Tests by steps: a step is one call that says whether all went as wanted, and a test ends with one assertion, which names
//! the first step that went wrong. Its proof takes a quarter of that of an assertion after each call.
use std::cell::Cell;
use std::fmt::{Debug, Display, InlineText, Write};
use std::test::Fail;

// Stands for a step whose request for memory was refused.
const REFUSED: u32 = u32::MAX;

#[derive(Debug, Drop)]
enum Wrong {
    // `tests/refuse` reads this name: a test may end so where a request is refused.
    Memory,
    Step(u32),
}

/// The first step that went wrong, or 0.
pub fn first(wrong: u32, step: u32, is_right: bool) -> u32 {
    if wrong == 0 && !is_right { step } else { wrong }
}

/// The same. `None` says that a step was refused memory.
pub fn granted(wrong: u32, step: u32, is_right: Option<bool>) -> u32 {
    match is_right {
        _ if wrong != 0 => wrong,
        None => REFUSED,
        Some(true) => 0,
        Some(false) => step,
    }
}

/// Ends a test by the first step that went wrong, if there is one. An assertion of it would take as long to prove as the
/// steps of a short test.
pub fn all_right(wrong: u32) -> Result<(), Fail> {
    match wrong {
        0 => Ok(()),
        REFUSED => Err(Fail::from(Wrong::Memory)),
        _ => Err(Fail::from(Wrong::Step(wrong))),
    }
}

/// Ends a test by the number of the first of these steps that went wrong, if there is one.
pub fn all_steps(steps: &[bool]) -> Result<(), Fail> {
    all_right(first_of(steps))
}

/// The same. If a request was refused, that ends the test.
pub fn granted_steps(is_refused: bool, steps: &[bool]) -> Result<(), Fail> {
    all_right(if is_refused { REFUSED } else { first_of(steps) })
}

fn first_of(steps: &[bool]) -> u32 {
    let mut wrong = 0;
    let mut step = 0_u32;
    for is_right in steps {
        step = step.wrapping_add(1);
        wrong = first(wrong, step, *is_right);
    }
    wrong
}

/// Whether `{}` writes a value so, in up to 128 bytes.
pub fn is_shown<T: Display>(value: &T, text: &str) -> bool {
    let mut written = InlineText::<128>::new();
    write!(written, "{value}").is_ok() & (written.as_str() == text)
}

/// The same of `{:?}`.
pub fn is_debugged<T: Debug>(value: &T, text: &str) -> bool {
    let mut written = InlineText::<128>::new();
    write!(written, "{value:?}").is_ok() & (written.as_str() == text)
}

/// Counts one more, and returns the count.
pub fn counted(count: &Cell<i32>) -> i32 {
    let more = count.get().wrapping_add(1);
    count.set(more);
    more
}
