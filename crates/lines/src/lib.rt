// A frame's message as a line of JSON, by the installer's register sheet if there is one: a `map` is what `sheet::map` writes, and the
// empty map is no sheet.
#![tactic(auto)]

mod homiq;
mod members;
mod nest;
mod nibe;
mod nikobus;
mod values;

ghost use Rattle.std.proofs.Math.Option.{none};
ghost use Rattle.std.specs.Prelude.{◌≡◌, ◌-◌, leb, length};
ghost use Rattle.puts.specs.Paper.Put.{Put};
ghost use Rattle.messages.specs.Paper.Says.{Says};
ghost use Rattle.sheet.specs.Paper.Map.{sheet_in};
ghost use Rattle.lines.specs.Paper.Answers.{WritesLine, WritesLineByText, WritesSaid, PutsContent, PutsNext, Measures};
ghost use Rattle.lines.specs.Work.Put.{name_and_members, put, Bounded, AllOrNone};
ghost use Rattle.lines.specs.Work.Tried.{Tries, Surely};

use digits::refusal::Refusal;
use messages::{Decoded, FoundMessage, Message, Tag};
use puts::Written;

// The bound on a line's length: `MOST` bytes, and `MOST_A_BYTE` more for each byte that stands beside its message; by a sheet, more.
const MOST: usize = 352;

const MOST_A_BYTE: usize = 8;

const MOST_BY_A_SHEET: usize = 26;

// What stands next in a capture: a frame's start and length, and the place in the room behind its line.
#[derive(Clone, Copy, Debug, PartialEq, Eq)]
pub struct Listed {
    pub start: usize,
    pub len: usize,
    pub behind: usize,
}

// What stands next in a capture: a frame's start and length, and the size of its line.
#[derive(Clone, Copy, Debug, PartialEq, Eq)]
pub struct Measured {
    pub start: usize,
    pub len: usize,
    pub size: usize,
}

// What comes of trying to put the next line: where it ends; or the start of its frame, if it might not fit and is not put.
#[derive(Clone, Copy, Debug, PartialEq, Eq)]
enum Tried {
    At(Listed),
    Unsure(usize),
}

// Writes the line of one frame, which stands at a place of a capture, from the front of the room. Refusals: 2 for a kind that is not
// known, 5 for anything else than one frame, 4 for a room that is too short.
pub fn write(kind: u8, frame: &[u8], at: usize, room: &mut [u8]) -> Written
    ensures { WritesLine none kind frame.now at room.old result room.new }
{
    write_mapped(kind, frame, at, &[], room)
}

// Writes the line of one frame by the sheet that a map is. Refusals: those of `write`.
pub fn write_mapped(kind: u8, frame: &[u8], at: usize, map: &[u8], room: &mut [u8]) -> Written
    ensures { WritesLine (sheet_in map.now) kind frame.now at room.old result room.new }
{
    let Decoded { message, from, to } = messages::decode(kind, frame)?;
    placed(message, &frame[from..to], at, frame.len(), map, room, 0)
}

// Writes the line of one frame by a sheet. Refusals: those of `write`, and before 4, 10 for a text that is no sheet.
pub fn write_with(kind: u8, frame: &[u8], at: usize, text: &[u8], room: &mut [u8]) -> Written
    ensures { WritesLineByText kind frame.now at text.now room.old result room.new }
{
    let mut map = [0u8; 65536];
    write_opened(kind, frame, at, text, room, &mut map)
}

// The map is lent by its type, so that no proof has to count it.
fn write_opened(
    kind: u8,
    frame: &[u8],
    at: usize,
    text: &[u8],
    room: &mut [u8],
    opened: &mut [u8; 65536],
) -> Written
    ensures { WritesLineByText kind frame.now at text.now room.old result room.new }
{
    let Decoded { message, from, to } = messages::decode(kind, frame)?;
    let Ok(_) = sheet::map(text, opened) else {
        return Err(Refusal::BadSheet);
    };
    placed(message, &frame[from..to], at, frame.len(), opened, room, 0)
}

// Puts the line of a message, with its content beside it, at a place of the room: all of it, or none if too little of the room is left
// behind that place. Refusals: 5 if message and content say no message of the table, 4 for a room that is too short.
pub fn of(
    message: Message,
    content: &[u8],
    at: usize,
    len: usize,
    room: &mut [u8],
    to: usize,
) -> Written
    ensures { WritesSaid none (Says message content.now) at len room.old to result room.new }
{
    match messages::allowed(message, content) {
        Ok(()) => placed(message, content, at, len, &[], room, to),
        Err(_) => Err(Refusal::OutOfLimits),
    }
}

// Puts the line of a content, of which nothing has been tested, at a place of the room, as far as the room goes, and answers the place
// behind it, as the writers of `puts` do. So the same call measures, in a room too short, and writes. Refusals: 5 for a field outside
// its limits.
pub fn put_content(
    tag: Tag,
    payload: &[u8],
    at: usize,
    len: usize,
    map: &[u8],
    room: &mut [u8],
    to: usize,
) -> Result<usize, Refusal>
    ensures { PutsContent (sheet_in map.now) tag payload.now at len room.old to result room.new }
{
    let Ok(message) = messages::of(tag, payload) else {
        return Err(Refusal::OutOfLimits);
    };
    Ok(line(message, payload, at, len, map, room, to))
}

// Finds the frame with the smallest start at or after a place of the capture, and puts its line at a place of the room: all of it, or
// none if too little of the room is left there. So a capture is listed line by line, each frame tested once. Refusals: those of the
// search, 4 for a room that is too short.
pub fn next(
    kind: u8,
    capture: &[u8],
    place: usize,
    map: &[u8],
    room: &mut [u8],
    to: usize,
) -> Result<Listed, Refusal>
    ensures { PutsNext (sheet_in map.now) kind capture.now place room.old to result room.new }
{
    match attempt(kind, capture, place, false, map, room, to)? {
        Tried::At(listed) => Ok(listed),
        Tried::Unsure(start) => after_measuring(kind, capture, start, map, room, to),
    }
}

// How long the line is that `next` puts, with the start and the length of its frame: a caller can lend a room of the
// right length. Refusals: those of the search.
pub fn measure(kind: u8, capture: &[u8], place: usize, map: &[u8]) -> Result<Measured, Refusal>
    ensures { Measures (sheet_in map.now) kind capture.now place result }
{
    let mut none = [0u8; 1];
    match attempt(kind, capture, place, true, map, &mut none, 0) {
        Ok(Tried::At(listed)) => Ok(Measured {
            start: listed.start,
            len: listed.len,
            size: listed.behind,
        }),
        // never: a line that is put whatever the room is leaves no doubt
        Ok(Tried::Unsure(_)) => Err(Refusal::NoRoom),
        Err(why) => Err(why),
    }
}

// Puts the next line as `next` does, and measures it first.
fn after_measuring(
    kind: u8,
    capture: &[u8],
    place: usize,
    map: &[u8],
    room: &mut [u8],
    to: usize,
) -> Result<Listed, Refusal>
    ensures { PutsNext (sheet_in map.now) kind capture.now place room.old to result room.new }
{
    let Measured { start, len, size } = measure(kind, capture, place, map)?;
    if left(room.len(), to) < size {
        return Err(Refusal::NoRoom);
    }
    let _ = attempt(kind, capture, place, true, map, room, to);
    Ok(Listed {
        start,
        len,
        behind: to + size,
    })
}

// Puts the next line as far as the room goes, if `sure` asks for that, or if no line with a content of this length is longer than what is
// left of the room. There is one call of the search and one of the writer for `next` and `measure` together, and so the compiler makes
// one function of all three.
fn attempt(
    kind: u8,
    capture: &[u8],
    place: usize,
    sure: bool,
    map: &[u8],
    room: &mut [u8],
    to: usize,
) -> Result<Tried, Refusal>
    ensures { Tries (sheet_in map.now) kind capture.now place sure room.old to result room.new }
{
    let FoundMessage {
        start,
        len,
        from,
        to: end,
        message,
    } = messages::find(kind, capture, place)?;
    if !surely(map, sure, end - from, left(room.len(), to)) {
        return Ok(Tried::Unsure(start));
    }
    Ok(Tried::At(Listed {
        start,
        len,
        behind: line(message, &capture[from..end], start, len, map, room, to),
    }))
}

// Whether a line is put if `beside` bytes stand beside its message and `bytes` bytes of the room are left.
fn surely(map: &[u8], sure: bool, beside: usize, bytes: usize) -> bool
    ensures { Surely (sheet_in map.now) sure beside bytes result }
{
    if sure {
        return true;
    }
    if bytes < MOST {
        return false;
    }
    if map.len() == 0 {
        return beside <= (bytes - MOST) / MOST_A_BYTE;
    }
    beside <= (bytes - MOST) / MOST_BY_A_SHEET
}

// Puts a line at a place of the room: all of it, or none if too little of the room is left.
fn placed(
    message: Message,
    content: &[u8],
    at: usize,
    len: usize,
    map: &[u8],
    room: &mut [u8],
    to: usize,
) -> Written
    requires { Bounded (sheet_in map.now) (put (sheet_in map.now) message content.now at len) (length content.now) }
    ensures { AllOrNone (put (sheet_in map.now) message content.now at len) room.old to result room.new }
{
    if fits(message, content, at, len, map, left(room.len(), to)) {
        Ok(line(message, content, at, len, map, room, to) - to)
    } else {
        Err(Refusal::NoRoom)
    }
}

// How much of a room of `room` bytes is left behind a place.
fn left(room: usize, to: usize) -> usize
    ensures { result ≡ room - to }
{
    room.saturating_sub(to)
}

// Whether a line fits into `bytes` bytes. It is measured only if it might not.
fn fits(message: Message, content: &[u8], at: usize, len: usize, map: &[u8], bytes: usize) -> bool
    requires { Bounded (sheet_in map.now) (put (sheet_in map.now) message content.now at len) (length content.now) }
    ensures { result ≡ leb (length (put (sheet_in map.now) message content.now at len)) bytes }
{
    if surely(map, false, content.len(), bytes) {
        return true;
    }
    size(message, content, at, len, map) <= bytes
}

// How long a line is: the writer measures it in a room of one byte.
fn size(message: Message, content: &[u8], at: usize, len: usize, map: &[u8]) -> usize
    requires { Bounded (sheet_in map.now) (put (sheet_in map.now) message content.now at len) (length content.now) }
    ensures { result ≡ length (put (sheet_in map.now) message content.now at len) }
{
    let mut none = [0u8; 1];
    line(message, content, at, len, map, &mut none, 0)
}

// Puts the line of a message, with the content beside it, of a frame that stands at `at` and is `len` bytes long.
fn line(
    message: Message,
    content: &[u8],
    at: usize,
    len: usize,
    map: &[u8],
    room: &mut [u8],
    to: usize,
) -> usize
    ensures { Put room.old room.new to result (put (sheet_in map.now) message content.now at len) }
{
    let a = puts::bytes(b"{\"at\":", room, to);
    let b = puts::whole(at as u64, room, a);
    let c = puts::bytes(b",\"len\":", room, b);
    let d = puts::whole(len as u64, room, c);
    let e = puts::bytes(b",\"msg\":\"", room, d);
    let f = name_and_members(message, content, map, room, e);
    puts::bytes(b"}\n", room, f)
}

// Puts a line from the message's name to its last member.
fn name_and_members(
    message: Message,
    content: &[u8],
    map: &[u8],
    room: &mut [u8],
    at: usize,
) -> usize
    ensures { Put room.old room.new at result (name_and_members (sheet_in map.now) message content.now) }
{
    match message {
        Message::Nikobus(m) => nikobus::name_and_members(m, content, room, at),
        Message::Command { id } => nest::command(id, content, room, at),
        Message::Response(m) => nest::name_and_members(m, content, room, at),
        Message::Nibe(m) => nibe::name_and_members(m, content, map, room, at),
        Message::Homiq(m) => homiq::name_and_members(m, content, room, at),
    }
}
