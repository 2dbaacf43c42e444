// Which raw numbers a single float holds.
ghost use Rattle.std.specs.Prelude.{◌≡◌};
ghost use Rattle.numbers.specs.Paper.Raw.{Raw};
ghost use Rattle.numbers.specs.Paper.Single.{fits_single};
ghost use Rattle.numbers.specs.Paper.Answers.{AnswersFits};

use super::raw;
use digits::refusal::Refusal;

// Whether a single float holds the raw number.
pub fn fits(raw: i64) -> Result<bool, Refusal>
    ensures { AnswersFits raw result }
{
    if !raw::in_range(raw) {
        return Err(Refusal::OutOfLimits);
    }
    Ok(in_range_fits(raw))
}

// The same of a number in range: of its 32 bits, the zeros before the first one and behind the last leave 24 at most.
pub(crate) fn in_range_fits(raw: i64) -> bool
    requires { Raw raw }
    ensures { result ≡ fits_single raw }
{
    let n = raw::magnitude(raw);
    8 <= u32::leading_zeros(n) + u32::trailing_zeros(n)
}
