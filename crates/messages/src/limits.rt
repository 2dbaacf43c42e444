// The answer of a test of limits.
ghost use Rattle.std.specs.Prelude.{◌≡◌};
ghost use Rattle.messages.specs.Work.Answers.{standing_of};

use digits::refusal::Refusal;

// How a message stands whose content no message above it has: it is one of the table if its limits hold.
pub(crate) fn standing(hold: bool) -> Result<(), Refusal>
    ensures { result ≡ standing_of hold }
{
    if hold {
        return Ok(());
    }
    Err(Refusal::OutOfLimits)
}
