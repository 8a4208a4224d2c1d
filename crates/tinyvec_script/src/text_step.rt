//! One call of the text, answered.
ghost use Rattle.tinyvec_script.specs.TextCalls.{TextStep, call_of};

use crate::Answer;
use crate::text_command::TextCall;
use tinyvec_text::InlineText;

// Makes the call.
pub(crate) fn answer_text<const N: usize>(
    text: &mut InlineText<N>,
    call: TextCall<'_>,
) -> Answer<i32>
    ensures { TextStep text.old (call_of call.entry) result text.new }
{
    match call {
        TextCall::Add(added) => match text.push_str(added) {
            Ok(()) => Answer::Done,
            Err(_) => Answer::Memory,
        },
        TextCall::Cut(index) => {
            if !text.is_char_boundary(index) {
                return Answer::Range;
            }
            text.truncate(index);
            Answer::Done
        }
    }
}
