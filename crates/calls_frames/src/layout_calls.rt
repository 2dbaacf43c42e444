// The functions of `layouts`.
use super::answer::Answer;
use super::request::Request;
use layouts::{homiq, nest, nibe, nikobus};

pub(crate) fn call(r: Request<'_>) -> Answer {
    match r.function {
        601 => Answer::AtHead(nikobus::frame(r.s)),
        602 => Answer::AtHead(nibe::frame(r.s)),
        603 => Answer::AtHead(homiq::frame(r.s)),
        ..=604 => Answer::AtHead(nest::frame(r.x.direction(), r.s)),
        605 => Answer::Number(homiq::crc(r.s) as u64),
        606 => Answer::Truth(nikobus::may_start(r.s)),
        607 => Answer::Truth(nibe::may_start(r.s)),
        608 => Answer::Truth(homiq::may_start(r.s)),
        609 => Answer::Truth(nest::may_start(r.x.direction(), r.s)),
        610 => Answer::Truth(nikobus::all_digits(r.s)),
        611 => Answer::Truth(homiq::is_payload(r.s)),
        _ => Answer::Truth(nibe::is_command(r.x.u8())),
    }
}
