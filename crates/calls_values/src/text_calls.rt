// The functions of `jsontext`.
use super::answer::Answer;
use super::request::Request;
use digits::refusal::Refusal;
use jsontext::members;

pub(crate) fn call(r: Request<'_>, room: &mut [u8]) -> Result<Answer, Refusal> {
    let answer = match r.function {
        1501 => Answer::Truth(jsontext::accepts(r.s)),
        1502 => Answer::Number(members::count(r.s)? as u64),
        1503 => {
            let value = members::value_of(r.first, r.s)?;
            Answer::Part {
                from: value.from,
                to: value.to,
            }
        }
        1505 => Answer::TextFault(jsontext::fault(r.s)),
        _ => Answer::Number(members::characters(r.s, room)? as u64),
    };
    Ok(answer)
}
