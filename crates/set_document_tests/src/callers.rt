//! What a caller learns of an answer that is read again.
ghost use Rattle.std.specs.Prelude.{◌≡◌, IfOk};
ghost use Rattle.set_document.specs.Answer.{answer};

use set_document::laws::answer_reads_back;
use set_document::{AlgebraError, evaluate_document};
use std::alloc::Global;

/// Returns the answer of the answer of a text, which is that answer again.
pub fn answered_again(alloc: Global, text: &[u8]) -> Result<Vec<u8>, AlgebraError>
    ensures { IfOk result (λ bytes. bytes.items ≡ answer text.now) }
{
    answer_reads_back();
    let once = evaluate_document(alloc, text)?;
    evaluate_document(alloc, once.as_slice())
}
