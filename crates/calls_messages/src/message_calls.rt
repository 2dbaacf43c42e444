// The functions of `messages`.
use super::answer::Answer;
use super::message;
use super::request::Request;
use digits::refusal::Refusal;
use messages::{homiq, nest};

pub(crate) fn call(r: &Request<'_>, room: &mut [u8]) -> Result<Answer, Refusal> {
    let answer = match r.function {
        901 => Answer::Decoded(messages::decode(r.kind(), r.s)?),
        902 => Answer::Found(messages::find(r.kind(), r.s, r.place())?),
        903 => Answer::Bytes(puts::bytes(messages::content(r.kind(), r.s), room, 0)),
        904 => Answer::Message(messages::of(message::tag(r), r.s)?),
        905 => {
            messages::allowed(message::of(r), r.s)?;
            Answer::Done
        }
        906 => for_panel(r)?,
        907 => Answer::Volts(nest::voltages(r.s)?),
        908 => Answer::Bytes(puts::bytes(homiq::field(r.s, r.numbers[0].usize()), room, 0)),
        _ => Answer::Number(homiq::next_id(r.numbers[0].u16())? as u64),
    };
    Ok(answer)
}

// Of the rows 8 to 13, which are the responses.
fn for_panel(r: &Request<'_>) -> Result<Answer, Refusal> {
    match r.numbers[1].0 {
        8..=13 => Ok(Answer::Climate(nest::for_panel(message::response(r))?)),
        _ => Ok(Answer::NoRequest),
    }
}
