//! The vectors of a script.
ghost use Rattle.std.specs.Prelude.{◌++◌, ◌∷◌, [], codes};
ghost use Rattle.tinyvec_script.specs.Script.{Steps, TextSteps, text_of};
ghost use Rattle.tinyvec_script.specs.Text.{answer_text, inline_text_text};
ghost use Rattle.tinyvec_script.specs.TextCalls.{call_of};
ghost use Rattle.tinyvec_script.specs.Writes.{Gathers};

use crate::answers::{write_answer, write_place_state, write_state, write_text_state};
use crate::command::Name;
use crate::gathered::Gathered;
use crate::slots_step::{answer_array, answer_slice};
use crate::text_command::TextCall;
use crate::text_step::answer_text;
use crate::tiny_step::answer_tiny;
use crate::{Answer, Call};
use std::alloc::Global;
use std::io::Write;
use tinyvec::{ArrayVec, Slots, TinyVec};
use tinyvec_io::Counted;
use tinyvec_text::InlineText;

// The vectors of a script, each under its name.
#[derive(Drop)]
pub(crate) struct Vectors<B: Slots<Item = i32>> {
    pub a: ArrayVec<[i32; 4]>,
    pub s: ArrayVec<B>,
    pub t: TinyVec<[i32; 4]>,
    pub x: InlineText<4>,
}

impl<B: Slots<Item = i32>> Vectors<B> {
    ghost use Rattle.tinyvec_script.specs.State.{state_of};

    // Makes the call of the vector of that name.
    pub(crate) fn answer(&mut self, alloc: Global, name: Name, call: Call<i32>) -> Answer<i32>
        ensures { Steps name (state_of B.Slots self.old) call result (state_of B.Slots self.new) }
    {
        match name {
            Name::A => {
                // Tells the proof how many slots there are.
                let _slots = self.a.capacity();
                answer_array(alloc, &mut self.a, call)
            }
            Name::S => answer_slice(alloc, &mut self.s, call),
            Name::T => answer_tiny(alloc, &mut self.t, call),
        }
    }

    // Makes the call of the text.
    pub(crate) fn answer_text(&mut self, call: TextCall<'_>) -> Answer<i32>
        ensures { TextSteps (state_of B.Slots self.old) (call_of call.entry) result (state_of B.Slots self.new) }
    {
        answer_text(&mut self.x, call)
    }

    // Writes an answer line: the answer and the text.
    pub(crate) fn write_text_line<W: Write>(
        &self,
        gathered: &mut Gathered,
        writer: &mut Counted<W>,
        answer: &Answer<i32>,
    )
        ensures { Gathers W.contents writer.old gathered.old writer.new gathered.new
            (answer_text answer.now ++ codes " " ++ inline_text_text self.now.x ++ 10 ∷ []) }
    {
        write_answer(gathered, writer, answer);
        gathered.put(writer, b" ");
        write_text_state(gathered, writer, self.x.as_bytes(), self.x.is_inline());
        gathered.put(writer, b"\n");
    }

    // Writes an answer line: the answer and the vector of that name.
    pub(crate) fn write_line<W: Write>(
        &self,
        gathered: &mut Gathered,
        writer: &mut Counted<W>,
        answer: &Answer<i32>,
        name: Name,
    )
        ensures { Gathers W.contents writer.old gathered.old writer.new gathered.new
            (answer_text answer.now ++ codes " " ++ text_of name (state_of B.Slots self.now) ++ 10 ∷ []) }
    {
        write_answer(gathered, writer, answer);
        gathered.put(writer, b" ");
        self.write_vector(gathered, writer, name);
        gathered.put(writer, b"\n");
    }

    fn write_vector<W: Write>(&self, gathered: &mut Gathered, writer: &mut Counted<W>, name: Name)
        ensures { Gathers W.contents writer.old gathered.old writer.new gathered.new
            (text_of name (state_of B.Slots self.now)) }
    {
        match name {
            Name::A => write_state(
                gathered,
                writer,
                self.a.as_slice(),
                self.a.grab_spare_slice(),
            ),
            Name::S => write_state(
                gathered,
                writer,
                self.s.as_slice(),
                self.s.grab_spare_slice(),
            ),
            Name::T => write_place_state(gathered, writer, self.t.as_slice(), self.t.is_inline()),
        }
    }
}
