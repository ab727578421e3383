// The answer of a call, in the registers and to the kernel.

ghost use Rattle.std.specs.Prelude.{◌≡◌, ◌≤◌, [], ◌∷◌, length, Some};
ghost use Rattle.bk_state.specs.Answers.{with_values};
ghost use Rattle.bk_state.specs.Causes.{answer_number, cause_number};
ghost use Rattle.bk_calls.specs.Made.{answer_of};

use crate::reply::{Answer, Reply};
use bk_process::Process;
use bk_state::CallCause;

// The caller finds the answer in R0 and the cause in R1, and nothing else changes.
pub(crate) fn refuse(process: &mut Process, cause: CallCause) -> Reply
    ensures process { process.new ≡ with_values (answer_number cause ∷ cause_number cause ∷ []) process.old }
    ensures reply { result ≡ record { answer = answer_of (Some cause); sent = None; level = None } }
{
    let values = [u16::from(cause.answer()), u16::from(cause.number())];
    set_values(process, &values);
    Reply {
        answer: answer_for(cause),
        sent: None,
        level: None,
    }
}

// No or `?`, with the number of the cause.
fn answer_for(cause: CallCause) -> Answer
    ensures { result ≡ answer_of (Some cause) }
{
    if cause.is_no() {
        Answer::No(cause.number())
    } else {
        Answer::Unknown(cause.number())
    }
}

// The caller finds these values in R0 and the registers after it.
pub(crate) fn agree(process: &mut Process, values: &[u16]) -> Reply
    requires { length values.now ≤ 6 }
    ensures process { process.new ≡ with_values values.now process.old }
    ensures reply { result ≡ record { answer = Answer.Yes; sent = None; level = None } }
{
    set_values(process, values);
    Reply {
        answer: Answer::Yes,
        sent: None,
        level: None,
    }
}

// R0 and the registers after it take these values.
fn set_values(process: &mut Process, values: &[u16])
    requires { length values.now ≤ 6 }
    ensures { process.new ≡ with_values values.now process.old }
{
    for (n, value) in values.iter().enumerate() {
        process.registers.general[n] = *value;
    }
}
