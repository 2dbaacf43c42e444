// The functions of `asked` and `shapes`.
use super::answer::Answer;
use super::request::Request;
use asked::lacks;
use digits::refusal::Refusal;

pub(crate) fn call(r: &Request<'_>, room: &mut [u8]) -> Result<Answer, Refusal> {
    let (row, member) = (r.numbers[0].u8(), r.numbers[1].u8());
    let answer = match r.function {
        1601 => Answer::Number(asked::encode(r.s, room)? as u64),
        1602 => Answer::Asked(asked::read(r.s, room)?),
        1603 => Answer::Lack(lacks::first(r.s)),
        1701 => Answer::Number(shapes::name_of(row, member, room)? as u64),
        _ => Answer::Sort(shapes::sort_of(row, member)),
    };
    Ok(answer)
}
