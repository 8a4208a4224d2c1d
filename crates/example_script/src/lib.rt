//! What scripts write, from the theorem of `run` alone.
#![tactic(auto)]

pub mod runs;

ghost use Rattle.std.specs.Prelude.{◌≡◌, ◌⊎◌, IfOk};
ghost use Rattle.tinyvec_io.specs.Lines.{ended};
ghost use Rattle.tinyvec_script.specs.Script.{Script};
ghost use Rattle.example_script.specs.Scripts.{three, three_answers, bad_and_text, bad_and_text_answers, spliced};
ghost use Rattle.example_script.specs.Scripts.{spliced_answers, refused_answers};

use std::alloc::Global;
use tinyvec_io::Counted;
use tinyvec_script::{RunError, run};

/// Answers a script in memory. The contract says which bytes three scripts write.
pub fn answers(alloc: Global, input: &[u8]) -> Result<Vec<u8>, RunError>
    ensures script { IfOk result (λ written. Script input.now written.items) }
    ensures three_lines { IfOk result (λ written. input.now ≡ ended three → written.items ≡ ended three_answers) }
    ensures bad_and_text { IfOk result (λ written. input.now ≡ ended bad_and_text
        → written.items ≡ ended bad_and_text_answers) }
    ensures spliced { IfOk result (λ written. input.now ≡ ended spliced
        → (written.items ≡ ended spliced_answers) ⊎ (written.items ≡ ended refused_answers)) }
{
    let mut reader = Counted::new(input);
    let mut writer = Counted::new(Vec::new(alloc));
    run(alloc, &mut reader, &mut writer)?;
    Ok(writer.into_inner())
}
