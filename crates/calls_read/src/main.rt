// Reads requests, a line each, and writes a record for each: request.rt says what a record is, functions.rt which functions there are. The
// programs `calls_values`, `calls_frames` and `calls_messages` answer records, and `calls_write` writes the answers.
#![tactic(auto)]

mod functions;
mod request;
mod types;
mod word;

ghost use Rattle.std.specs.Prelude.{◌≤◌, length, IfOk, IfSome};

use request::Request;
use std::io;
use std::io::{Read, Write};

fn main(rt: HostRuntime) {
    let mut input = [0u8; 300001];
    let mut record = [0u8; 131184];
    let room = [0xEEu8; 2097202];
    with_rooms(
        &mut rt.stdin(),
        &mut rt.stdout(),
        &mut input,
        &mut record,
        &room,
    );
}

// The longest line and its LF, the words and the bytes of one request, and the longest room that is lent, as it is lent. They are taken by
// their types, so that no proof has to count them. The status tells nothing: a record that could not be written is the last.
fn with_rooms(
    source: &mut impl Read,
    to: &mut impl Write,
    input: &mut [u8; 300001],
    record: &mut [u8; 131184],
    room: &[u8; 2097202],
) {
    let _ = read_all(source, &mut Records { to, record, room }, input);
}

// How far the reading is. The front of the input has the first bytes of a line that is not complete: how many, and whether the line began
// before them and is too long.
#[derive(Clone, Copy)]
struct Reading {
    have: usize,
    over: bool,
}

fn read_all(
    source: &mut impl Read,
    records: &mut Records<'_, impl Write>,
    input: &mut [u8],
) -> io::Result<()> {
    let mut reading = Reading {
        have: 0,
        over: false,
    };
    for _ in 0..u64::MAX {
        let Some(end) = read_behind(reading.have, source, input) else {
            return last(reading, records, input);
        };
        reading = complete(end, reading.over, records, input)?;
    }
    Ok(())
}

// How many bytes there are with those that are read now, if any are. A read that fails is the end of the input.
fn read_behind(have: usize, source: &mut impl Read, input: &mut [u8]) -> Option<usize>
    requires { have ≤ length input.old }
    ensures { IfSome result (λ end. end ≤ length input.new) }
{
    match source.read(&mut input[have..]) {
        Ok(0) | Err(_) => None,
        Ok(n) => Some(have + n),
    }
}

// The last line needs no LF.
fn last(reading: Reading, records: &mut Records<'_, impl Write>, input: &[u8]) -> io::Result<()>
    requires { reading.have ≤ length input.now }
{
    if reading.over {
        return records.refuse();
    }
    if reading.have == 0 {
        return Ok(());
    }
    records.line(&input[..reading.have])
}

// Takes each complete line, and moves what is left to the front. If that fills the input, it is of a line that is too long.
fn complete(
    end: usize,
    over: bool,
    records: &mut Records<'_, impl Write>,
    input: &mut [u8],
) -> io::Result<Reading>
    requires { end ≤ length input.old }
    ensures { IfOk result (λ reading. reading.have ≤ length input.new) }
{
    let Some(last) = input[..end].iter().rposition(|b| *b == b'\n') else {
        let full = end == input.len();
        return Ok(Reading {
            have: if full { 0 } else { end },
            over: over || full,
        });
    };
    each(over, records, &input[..last])?;
    input.copy_within(last + 1..end, 0);
    Ok(Reading {
        have: end - (last + 1),
        over: false,
    })
}

// Takes lines, of which the first may be too long.
fn each(over: bool, records: &mut Records<'_, impl Write>, text: &[u8]) -> io::Result<()> {
    let mut lines = text.split(|b| *b == b'\n');
    if over {
        lines.next();
        records.refuse()?;
    }
    for line in lines {
        records.line(line)?;
    }
    Ok(())
}

// Where records are written to, one after the other, in one place; and the room that is lent.
#[derive(Drop)]
struct Records<'a, W> {
    to: &'a mut W,
    record: &'a mut [u8],
    room: &'a [u8],
}

impl<W: Write> Records<'_, W> {
    // Writes the record of a line.
    fn line(&mut self, line: &[u8]) -> io::Result<()> {
        let store = self.record.get_mut(112..).unwrap_or_default();
        let request = request::read(line, store);
        self.write(request)
    }

    // Writes the record of a line that is too long.
    fn refuse(&mut self) -> io::Result<()> {
        self.write(Request::none())
    }

    fn write(&mut self, request: Request) -> io::Result<()> {
        let record = &mut *self.record;
        let to = &mut *self.to;
        let (head, _) = record.as_chunks_mut::<8>();
        for (place, word) in head.iter_mut().zip(request.words()) {
            *place = word.to_le_bytes();
        }
        to.write_all(front(record, request.size()))?;
        to.write_all(front(self.room, request.follow()))
    }
}

// The first n bytes.
fn front(s: &[u8], n: usize) -> &[u8] {
    s.get(..n).unwrap_or_default()
}
