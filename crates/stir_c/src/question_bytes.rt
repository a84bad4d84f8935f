//! Questions as they are handed to C.
ghost use Rattle.std.specs.Prelude.{◌≡◌, ◌++◌, IfOk, OnOk, map};
ghost use Rattle.cert_store.specs.Questions.{seen};
ghost use Rattle.stir_c.specs.QuestionBytes.{question_bytes, questions_bytes};

use cert_store::Question;
use std::alloc::{AllocError, Global};

/// The bytes of questions, in their order. `AllocError` is the only error.
pub(crate) fn questions_bytes(
    alloc: Global,
    questions: &[Question<'_>],
) -> Result<Vec<u8>, AllocError>
    ensures { IfOk result (λ bytes. bytes.items ≡ questions_bytes (map seen questions.now)) }
{
    let mut bytes = Vec::new(alloc);
    'questions: for question in questions {
        add_question(question, &mut bytes)?;
    }
    Ok(bytes)
}

/// Adds those of one question. `AllocError` is the only error.
#[tactic(auto, using(crate::proofs::QuestionLaws::three_added))]
fn add_question(question: &Question<'_>, bytes: &mut Vec<u8>) -> Result<(), AllocError>
    ensures { OnOk result (bytes.new.items ≡ bytes.old.items ++ question_bytes (seen question.now)) }
{
    bytes.extend_from_slice(question.key.as_slice())?;
    bytes.extend_from_slice(question.digest.as_slice())?;
    bytes.extend_from_slice(question.signature.as_slice())?;
    Ok(())
}
