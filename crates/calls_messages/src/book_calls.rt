// The functions of `book` and `list`.
use super::answer::Answer;
use super::request::Request;
use digits::refusal::Refusal;
use puts::Written;

pub(crate) fn call(r: &Request<'_>, room: &mut [u8]) -> Result<Answer, Refusal> {
    let number = r.numbers[0].usize();
    let answer = match r.function {
        1201 => Answer::Number(book::open(r.s)? as u64),
        1202 => Answer::Located(book::entry(r.s, number)?),
        1203 => Answer::Bytes(puts::bytes(book::frame(r.s, number), room, 0)),
        _ => Answer::Number(write(r, number, room)? as u64),
    };
    Ok(answer)
}

// What answers how many bytes it wrote. By a sheet or by a map, these are the last bytes.
fn write(r: &Request<'_>, number: usize, room: &mut [u8]) -> Written {
    match r.function {
        1204 => book::line(r.s, number, room),
        1205 => book::list(r.s, room),
        1206 => book::add(r.first, r.kind(), r.s, room),
        1207 => book::line_with(r.first, number, r.s, room),
        1208 => book::line_mapped(r.first, number, r.s, room),
        1209 => book::list_with(r.first, r.s, room),
        1210 => book::list_mapped(r.first, r.s, room),
        1301 => list::write(r.s, room),
        1302 => list::write_with(r.first, r.s, room),
        _ => list::write_mapped(r.first, r.s, room),
    }
}
