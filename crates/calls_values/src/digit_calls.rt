// The functions of `digits`.
use super::answer::Answer;
use super::request::Request;
use digits::refusal::Refusal;
use digits::{decimal, hex, low_first, refusal, slices};

pub(crate) fn call(r: Request<'_>, room: &mut [u8]) -> Result<Answer, Refusal> {
    let n = match r.function {
        103 => puts::bytes(&hex::two_digits(r.x.u8()), room, 0),
        105 => puts::bytes(&hex::four_digits(r.x.u16()), room, 0),
        107 => decimal_digits(r.x.0, room),
        109 => puts::bytes(&low_first::one(r.x.u8()), room, 0),
        110 => puts::bytes(&low_first::two(r.x.u16()), room, 0),
        111 => puts::bytes(&low_first::four(r.x.u32()), room, 0),
        115 => puts::bytes(&low_first::eight(r.x.0), room, 0),
        _ => return in_words(r),
    };
    Ok(Answer::Bytes(n))
}

fn decimal_digits(n: u64, room: &mut [u8]) -> usize {
    let d = decimal::digits(n);
    puts::bytes(d.chars.get(d.from..).unwrap_or_default(), room, 0)
}

// What answers no bytes.
fn in_words(r: Request<'_>) -> Result<Answer, Refusal> {
    match r.function {
        101 => Ok(Answer::Number(hex::digit(r.x.u8()) as u64)),
        102 => number(hex::value(r.x.u8()), Refusal::OutOfLimits),
        104 => number(hex::byte_of(r.x.u8(), r.y.u8()), Refusal::OutOfLimits),
        106 => word(r.s),
        108 => number(decimal::number_of(r.s), Refusal::BadForm),
        112 => number(low_first::number_of(r.s), Refusal::BadForm),
        113 => Ok(Answer::Truth(slices::same(r.first, r.s))),
        _ => Ok(Answer::Number(refusal::number(named(r.x.0)) as u64)),
    }
}

// A number, or else a refusal.
fn number<T>(n: Option<T>, why: Refusal) -> Result<Answer, Refusal>
where
    T: Into<u64> + Drop,
{
    Ok(Answer::Number(n.ok_or(why)?.into()))
}

// A request has four bytes here.
fn word(s: &[u8]) -> Result<Answer, Refusal> {
    match s.as_array::<4>() {
        Some(four) => number(hex::word_of(*four), Refusal::OutOfLimits),
        None => Ok(Answer::NoRequest),
    }
}

// By the number that the request's word has in the list of names.
fn named(n: u64) -> Refusal {
    match n {
        0 => Refusal::NoFrame,
        1 => Refusal::NoKind,
        2 => Refusal::NoPlace,
        3 => Refusal::NoRoom,
        4 => Refusal::OutOfLimits,
        5 => Refusal::ContentAbove,
        6 => Refusal::BadForm,
        7 => Refusal::NoBook,
        8 => Refusal::NoRegister,
        9 => Refusal::BadSheet,
        10 => Refusal::NotInGrammar,
        _ => Refusal::BadMembers,
    }
}
