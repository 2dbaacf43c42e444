// The lines of all entries of a book, by the sheet that a map is; the empty map is no sheet.
ghost use Rattle.frames.specs.Paper.OneFrame.{OneFrame};
ghost use Rattle.sheet.specs.Paper.Map.{sheet_in};
ghost use Rattle.book.specs.Paper.Answers.{Counts, WritesBookLines};
ghost use Rattle.book.specs.Work.Reading.{Noting};
ghost use Rattle.book.specs.Work.Writing.{Lists, PutsOne, Most, SizedLines, Fits};

use super::opening::Places;
use super::{contents, layout};
use digits::refusal::Refusal;
use frames::kinds;
use puts::Written;

// The bound on the lines' length: `MOST_A_BYTE` bytes for each byte of the book and `MOST_AN_ENTRY` for each entry; by a sheet, more.
const MOST_A_BYTE: usize = 8;

const MOST_AN_ENTRY: usize = 40;

const MOST_BY_A_SHEET: usize = 26;

// Writes the lines of a valid book with `count` entries, whose payloads' places have been noted.
pub(crate) fn write(
    book: &[u8],
    count: usize,
    places: &Places,
    map: &[u8],
    room: &mut [u8],
) -> Written
    requires { Noting book.now count places.now }
    ensures { WritesBookLines (sheet_in map.now) book.now room.old result room.new }
{
    if !fits(book, count, places, map, room.len()) {
        return Err(Refusal::NoRoom);
    }
    Ok(put(book, count, places, map, room))
}

// Whether a room of this length has room for the lines. They are measured only if it might not.
fn fits(book: &[u8], count: usize, places: &Places, map: &[u8], room: usize) -> bool
    requires { Noting book.now count places.now }
    ensures { Fits (sheet_in map.now) book.now room result }
{
    if most(book, count, map) <= room {
        return true;
    }
    size(book, count, places, map) <= room
}

// A bound on the lines' length.
fn most(book: &[u8], count: usize, map: &[u8]) -> usize
    requires { Counts book.now count }
    ensures { Most (sheet_in map.now) book.now result }
{
    if map.len() == 0 {
        return MOST_A_BYTE * book.len() + MOST_AN_ENTRY * count;
    }
    MOST_BY_A_SHEET * book.len()
}

// How long the lines are: the writer in a room too short.
fn size(book: &[u8], count: usize, places: &Places, map: &[u8]) -> usize
    requires { Noting book.now count places.now }
    ensures { SizedLines (sheet_in map.now) book.now result }
{
    let mut none = [0u8; 1];
    put(book, count, places, map, &mut none)
}

// Puts the lines, entry after entry, as far as the room goes, and answers the place behind them.
fn put(book: &[u8], count: usize, places: &Places, map: &[u8], room: &mut [u8]) -> usize
    requires { Noting book.now count places.now }
    ensures { Lists (sheet_in map.now) book.now room.old room.new result }
{
    let mut at = 0;
    let mut next = 0;
    for i in 0..count {
        let head = layout::head_at(book, at);
        let kind = head.kind;
        let from = head.from;
        let behind = head.to;
        let start = places.starts[i];
        let stop = places.stops[i];
        next = put_line(kind, &book[from..behind], start, stop, at, map, room, next);
        at = behind;
    }
    next
}

// Puts the line of one frame, which stands at `at` of the book and whose payload goes from the one place to the other. Answers the place
// behind the line: the frame was tested, so its kind is known, and its line is never refused.
fn put_line(
    kind: u8,
    frame: &[u8],
    start: usize,
    stop: usize,
    at: usize,
    map: &[u8],
    room: &mut [u8],
    to: usize,
) -> usize
    requires { OneFrame kind frame.now (record { from = start; to = stop }) }
    ensures { PutsOne (sheet_in map.now) kind frame.now at room.old room.new to result }
{
    let known = kinds::of(kind).unwrap();
    let tag = contents::tag(known, frame);
    lines::put_content(tag, &frame[start..stop], at, frame.len(), map, room, to).unwrap()
}
