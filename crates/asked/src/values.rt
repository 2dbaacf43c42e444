// The values of a command's members, each read from its text. A reader answers what it read, or why there is nothing to answer; of several
// reasons the worst counts.
ghost use Rattle.std.specs.Prelude.{◌≡◌, ◌≤◌};
ghost use Rattle.shapes.specs.Paper.Fields.{plain, truth};
ghost use Rattle.shapes.specs.Paper.Shapes.{bool};
ghost use Rattle.asked.specs.Work.Got.{mapped, Reads, any, ValueIn, worse, joined, firm_of, exact_of, is_spelt};

use digits::slices;
use jsontext::members;

// Why a value is not answered; the worse one stands last.
#[derive(Clone, Copy, Debug, PartialEq, Eq, PartialOrd, Ord)]
pub enum Reason {
    // It is spelt rightly, and the code does not hold it.
    Large,
    // It is no value of the sort.
    NoValue,
}

// The text of the value of the first member with a name; an empty text if there is none, which spells no value: so no reader needs to ask.
pub(crate) fn value<'a>(text: &'a [u8], name: &[u8]) -> &'a [u8]
    ensures { ValueIn text.now name.now result.now }
{
    match members::value_of(text, name) {
        Ok(found) => &text[found.from..found.to],
        Err(why) => &text[0..0],
    }
}

// The worse of two reasons.
fn worse(a: Reason, b: Reason) -> Reason
    ensures { result ≡ worse a b }
{
    if a < b { b } else { a }
}

// What both answer, or the worst of their reasons.
pub(crate) fn both<A: Copy, B: Copy>(
    a: Result<A, Reason>,
    b: Result<B, Reason>,
) -> Result<(A, B), Reason>
    ensures { result ≡ joined a b }
{
    match (a, b) {
        (Ok(x), Ok(y)) => Ok((x, y)),
        (Ok(x), Err(why)) => Err(why),
        (Err(why), Ok(y)) => Err(why),
        (Err(why), Err(other)) => Err(worse(why, other)),
    }
}

// An answer for which a large value is none.
pub(crate) fn firm<T: Copy>(read: Result<T, Reason>) -> Result<T, Reason>
    ensures { result ≡ firm_of read }
{
    read.or(Err(Reason::NoValue))
}

// A list has to have so many elements: any other is no value.
pub(crate) fn exact(read: Result<usize, Reason>, n: usize) -> Result<(), Reason>
    ensures { result ≡ exact_of read n }
{
    if read != Ok(n) {
        return Err(Reason::NoValue);
    }
    Ok(())
}

// Whether a value of the sort stands there, held or not.
pub(crate) fn is_spelt<T: Copy>(read: Result<T, Reason>) -> bool
    ensures { result ≡ is_spelt read }
{
    match read {
        Err(Reason::NoValue) => false,
        _ => true,
    }
}

// True or false.
pub(crate) fn truth(v: &[u8]) -> Result<bool, Reason>
    ensures { Reads v.now bool any (mapped (λ b. plain (truth b)) result) }
{
    if slices::same(v, b"true") {
        return Ok(true);
    }
    if slices::same(v, b"false") {
        return Ok(false);
    }
    Err(Reason::NoValue)
}
