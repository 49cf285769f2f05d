//! The answers of a day as text, in their turns.
ghost use Rattle.std.specs.Prelude.{◌≡◌, IfOk, string_bytes};
ghost use Rattle.transcript.specs.Scripts.{told};

use crate::script::Turn;
use answer_text::AnswerText;
use runs::answer::Answer;
use std::alloc::{AllocError, Global};
use std::fmt::Write;

// The text of the answers, with a line for each card between them.
pub(crate) fn told(turns: &[Turn], answers: &[Answer], heap: Global) -> Result<String, AllocError>
    ensures { IfOk result (λ t. string_bytes t ≡ told turns.now answers.now) }
{
    let mut text = String::new(heap);
    let mut left = answers;
    for turn in turns {
        match (turn, left) {
            (Turn::Call, [answer, later @ ..]) => {
                write!(text, "{}", AnswerText(answer))?;
                left = later;
            }
            // Does not come: a run has one answer a call.
            (Turn::Call, []) => {}
            (Turn::Card, _) => text.push_str("CARD\n")?,
        }
    }
    Ok(text)
}
