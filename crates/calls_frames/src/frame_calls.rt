// The functions of `builds` and `frames`.
use super::answer::Answer;
use super::request::Request;
use digits::refusal::Refusal;
use frames::kinds;
use frames::kinds::Kind;
use puts::Written;

pub(crate) fn build(r: Request<'_>, room: &mut [u8]) -> Result<Answer, Refusal> {
    Ok(Answer::Number(built(r, room)? as u64))
}

fn built(r: Request<'_>, room: &mut [u8]) -> Written {
    match r.function {
        701 => builds::nikobus::link(r.s, room),
        702 => builds::nikobus::press(r.s, room),
        703 => builds::homiq::frame(r.s, room),
        704 => builds::nikobus::tail(room),
        705 => builds::nest::frame(r.x.direction(), r.y.u16(), r.s, room),
        _ => builds::nibe::frame(r.x.u8(), r.s, room),
    }
}

pub(crate) fn call(r: Request<'_>, room: &mut [u8]) -> Result<Answer, Refusal> {
    let kind = r.x.u8();
    let place = r.y.usize();
    let answer = match r.function {
        801 => Answer::Truth(kinds::known(kind)),
        802 => Answer::Kind(kinds::of(kind).ok_or(Refusal::NoKind)?),
        803 => Answer::Number(kinds::number(named(r.x.0)) as u64),
        804 => Answer::Found(frames::search(kind, r.s, place)?),
        805 => Answer::Bytes(puts::bytes(frames::frame(kind, r.s, place), room, 0)),
        806 => Answer::Bytes(puts::bytes(frames::payload(kind, r.s, place), room, 0)),
        807 => Answer::Payload(frames::one_frame(kind, r.s)?),
        _ => Answer::Why(frames::why(kind, r.s, place)?),
    };
    Ok(answer)
}

// By the place that the request's word has in the list of names.
fn named(n: u64) -> Kind {
    match n {
        0 => Kind::Nikobus,
        1 => Kind::NestCommand,
        2 => Kind::NestResponse,
        3 => Kind::Nibe,
        _ => Kind::Homiq,
    }
}
