// The functions of `puts` and `json_values`: a place in the room, but for `puts::front`.
use super::answer::Answer;
use super::request::Request;
use digits::refusal::Refusal;
use json_values::Decimals;

pub(crate) fn call(r: Request<'_>, room: &mut [u8]) -> Result<Answer, Refusal> {
    let n = match r.function {
        301 => puts::front(r.s, room)?,
        _ => put(r, room),
    };
    Ok(Answer::Number(n as u64))
}

fn put(r: Request<'_>, room: &mut [u8]) -> usize {
    match r.function {
        302 => puts::bytes(r.s, room, r.x.usize()),
        303 => puts::hex(r.s, room, r.x.usize()),
        304 => puts::byte(r.x.u8(), room, r.y.usize()),
        305 => puts::whole(r.x.0, room, r.y.usize()),
        401 => json_values::hex(r.s, room, r.x.usize()),
        402 => json_values::chars(r.s, room, r.x.usize()),
        403 => json_values::truth(r.x.truth(), room, r.y.usize()),
        404 => json_values::signed(r.x.i32(), decimals(r.y.0), room, r.z.usize()),
        _ => json_values::unsigned(r.x.u32(), decimals(r.y.0), room, r.z.usize()),
    }
}

fn decimals(n: u64) -> Decimals {
    match n {
        0 => Decimals::Zero,
        1 => Decimals::One,
        2 => Decimals::Two,
        _ => Decimals::Three,
    }
}
