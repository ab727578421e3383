ghost use Rattle.std.specs.Prelude.{◌≡◌};
ghost use Rattle.bk_cpu.specs.Reached.{result_of};

use bk_exec::Ending;
use bk_space::Cause;

/// How an instruction ends, or the cause that cuts it off: a `Result<Ending, Cause>` so small that it is handed on in
/// registers.
#[derive(Clone, Copy)]
pub(crate) enum Outcome {
    Completed,
    Returned,
    Called(u8),
    Broke,
    Interrupted,
    Trapped,
    CutOff(Cause),
}

/// The outcome of a result.
#[inline(always)]
pub(crate) fn outcome_of(how: Result<Ending, Cause>) -> Outcome
    ensures { result_of result ≡ how }
{
    match how {
        Ok(Ending::Completed) => Outcome::Completed,
        Ok(Ending::Returned) => Outcome::Returned,
        Ok(Ending::Called(n)) => Outcome::Called(n),
        Ok(Ending::Broke) => Outcome::Broke,
        Ok(Ending::Interrupted) => Outcome::Interrupted,
        Ok(Ending::Trapped) => Outcome::Trapped,
        Err(cause) => Outcome::CutOff(cause),
    }
}
