// The functions of `checks`: of each check its constants, the value of bytes, and the same in pieces.
use super::answer::Answer;
use super::request::Request;
use checks::{homiq, nest, nibe, nikobus};

pub(crate) fn call(r: Request<'_>) -> Answer {
    match r.function {
        201 => Answer::Rule(nikobus::Crc16::rule()),
        202 => Answer::Rule(nikobus::Crc8::rule()),
        203 => Answer::Rule(nest::Crc::rule()),
        204 => Answer::Rule(nibe::Xor::rule()),
        ..=205 => Answer::Rule(homiq::Crc::rule()),
        206..=210 => Answer::Number(of(r)),
        _ => Answer::Number(fed(r)),
    }
}

fn of(r: Request<'_>) -> u64 {
    match r.function {
        206 => nikobus::Crc16::of(r.s) as u64,
        207 => nikobus::Crc8::of(r.s) as u64,
        208 => nest::Crc::of(r.s) as u64,
        209 => nibe::Xor::of(r.s) as u64,
        _ => homiq::Crc::of(r.s) as u64,
    }
}

fn fed(r: Request<'_>) -> u64 {
    let (s, b, t) = (r.first, r.x.u8(), r.s);
    match r.function {
        211 => nikobus::Crc16::new().bytes(s).byte(b).bytes(t).value as u64,
        212 => nikobus::Crc8::new().bytes(s).byte(b).bytes(t).value as u64,
        213 => nest::Crc::new().bytes(s).byte(b).bytes(t).value as u64,
        214 => nibe::Xor::new().bytes(s).byte(b).bytes(t).value as u64,
        _ => homiq::Crc::new().bytes(s).byte(b).bytes(t).value as u64,
    }
}
