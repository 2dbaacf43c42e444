// The functions of `commands` and `lines`.
use super::answer::Answer;
use super::message;
use super::request::Request;
use digits::refusal::Refusal;
use puts::Written;

pub(crate) fn call(r: &Request<'_>, room: &mut [u8]) -> Result<Answer, Refusal> {
    let answer = match r.function {
        1102 => Answer::Listed(lines::next(
            r.kind(),
            r.first,
            r.place(),
            r.s,
            room,
            r.numbers[2].usize(),
        )?),
        1103 => Answer::Measured(lines::measure(r.kind(), r.first, r.place(), r.s)?),
        _ => Answer::Number(write(r, room)? as u64),
    };
    Ok(answer)
}

// What answers how many bytes it wrote, or the place behind them.
fn write(r: &Request<'_>, room: &mut [u8]) -> Written {
    let at = r.numbers[5].usize();
    let len = r.numbers[6].usize();
    let to = r.numbers[7].usize();
    match r.function {
        1001 => commands::encode(r.kind(), message::of(r), r.s, room),
        1002 => commands::acknowledge(r.s, room),
        1101 => lines::write(r.kind(), r.s, r.place(), room),
        1105 => lines::put_content(message::tag(r), r.first, at, len, r.s, room, to),
        1106 => lines::write_with(r.kind(), r.first, r.place(), r.s, room),
        1107 => lines::write_mapped(r.kind(), r.first, r.place(), r.s, room),
        _ => lines::of(message::of(r), r.s, at, len, room, to),
    }
}
