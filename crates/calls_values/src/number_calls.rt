// The functions of `numbers`.
use super::answer::Answer;
use super::request::Request;
use digits::refusal::Refusal;
use numbers::{byte_values, panel, single, text};

pub(crate) fn call(r: Request<'_>, room: &mut [u8]) -> Result<Answer, Refusal> {
    let answer = match r.function {
        501 => Answer::Number(text::write(r.x.i64(), r.y.u32(), room)? as u64),
        502 => Answer::Reading(text::read(r.s)?),
        503 => Answer::Number(
            byte_values::write(r.x.i64(), r.y.usize(), r.z.truth(), room)? as u64,
        ),
        504 => Answer::Signed(byte_values::read(r.s, r.x.usize(), r.y.truth())?),
        505 => Answer::Truth(single::fits(r.x.i64())?),
        506 => Answer::Shown(panel::of(r.x.i64())?),
        _ => Answer::Climate(panel::pair(r.x.i16(), r.y.u16())),
    };
    Ok(answer)
}
