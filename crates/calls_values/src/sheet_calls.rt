// The functions of `sheet`.
use super::answer::Answer;
use super::request::Request;
use digits::refusal::Refusal;

pub(crate) fn call(r: Request<'_>, room: &mut [u8]) -> Result<Answer, Refusal> {
    let answer = match r.function {
        1401 => Answer::Number(sheet::open(r.s)? as u64),
        1402 => Answer::SheetFault(sheet::fault(r.s)),
        1403 => Answer::Type(sheet::type_of(r.s, r.x.u16())?),
        1404 => Answer::Number(sheet::split(r.x.u8(), r.first, r.s, room)? as u64),
        1405 => Answer::Number(sheet::join(r.x.u8(), r.first, r.s, room)? as u64),
        1406 => Answer::Number(sheet::map(r.s, room)? as u64),
        1407 => Answer::Type(sheet::type_in(r.s, r.x.u16())?),
        1409 => Answer::Truth(sheet::unsolicited(r.x.u8())),
        _ => Answer::Truth(sheet::splits(r.first, r.s)),
    };
    Ok(answer)
}
