// Answers the records that ask for a function of `messages`, `commands`, `lines`, `book`, `list`, `asked` or `shapes`, and passes all records on.
// crates/calls_read/src/request.rt says what a record is.
#![tactic(auto)]

mod answer;
mod asked_calls;
mod book_calls;
mod line_calls;
mod message;
mod message_calls;
mod record;
mod request;

use answer::Answer;
use request::Request;
use std::io;
use std::io::{Read, Write};

fn main(rt: HostRuntime) {
    let mut record = [0u8; 131184];
    let mut room = [0u8; 2097202];
    pass_all(&mut rt.stdin(), &mut rt.stdout(), &mut record, &mut room);
}

// The words and the bytes of the longest record, and its room. They are lent by their types, so that no proof has to count them.
fn pass_all(
    from: &mut impl Read,
    to: &mut impl Write,
    record: &mut [u8; 131184],
    room: &mut [u8; 2097202],
) {
    for _ in 0..u64::MAX {
        if pass(from, to, record, room).is_err() {
            return;
        }
    }
}

// Reads a record, answers it if it is for this program, and passes it on. It fails if there is none.
fn pass(
    from: &mut impl Read,
    to: &mut impl Write,
    record: &mut [u8],
    room: &mut [u8],
) -> io::Result<()> {
    let mut words = record::read(from, record, room)?;
    if let Some(lent) = room.get_mut(..words[12] as usize) {
        if let Some(answer) = answered(request::of(&words, record), lent) {
            // of the room those bytes follow that are answered, or as many as before
            if let Answer::Bytes(n) = answer {
                words[13] = n as u64;
            }
            for (word, value) in words.iter_mut().zip(answer.words()) {
                *word = value;
            }
        }
    }
    record::write(&words, to, record, room)
}

// The answer, if the function is of a library that this program has.
fn answered(r: Request<'_>, room: &mut [u8]) -> Option<Answer> {
    let answer = match r.function / 100 {
        9 => message_calls::call(&r, room),
        10 | 11 => line_calls::call(&r, room),
        12 | 13 => book_calls::call(&r, room),
        16 | 17 => asked_calls::call(&r, room),
        _ => return None,
    };
    Some(answer.unwrap_or_else(Answer::Refused))
}
