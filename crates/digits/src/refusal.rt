// The refusal numbers.
ghost use Rattle.std.specs.Prelude.{◌≡◌};
ghost use Rattle.digits.specs.Paper.Refusals.{refusal_number};

// Why a call was refused: a name for each number of the tables of documents 01 and 02, in their order.
#[derive(Clone, Copy, Debug, PartialEq, Eq)]
pub enum Refusal {
    NoFrame,
    NoKind,
    NoPlace,
    NoRoom,
    OutOfLimits,
    ContentAbove,
    BadForm,
    NoBook,
    NoRegister,
    BadSheet,
    NotInGrammar,
    BadMembers,
}

// The number that the documents give it.
pub fn number(why: Refusal) -> u8
    ensures { result ≡ refusal_number why }
{
    match why {
        Refusal::NoFrame => 1,
        Refusal::NoKind => 2,
        Refusal::NoPlace => 3,
        Refusal::NoRoom => 4,
        Refusal::OutOfLimits => 5,
        Refusal::ContentAbove => 6,
        Refusal::BadForm => 7,
        Refusal::NoBook => 8,
        Refusal::NoRegister => 9,
        Refusal::BadSheet => 10,
        Refusal::NotInGrammar => 11,
        Refusal::BadMembers => 12,
    }
}
