// The capture book: frames kept in one string of bytes, each entry with its kind, and a trailer that says where they stand. Its lines go
// by the installer's register sheet if there is one: a `map` is what `sheet::map` writes, and the empty map is no sheet.
#![tactic(auto)]

mod adding;
mod contents;
mod layout;
mod listing;
mod opening;

ghost use Rattle.std.proofs.Math.Option.{none};
ghost use Rattle.std.specs.Prelude.{Ok, ◌<◌};
ghost use Rattle.sheet.specs.Paper.Map.{sheet_in};
ghost use Rattle.book.specs.Paper.Answers.{Opens, Counts, LocatesEntry, HandsFrame, WritesAdded};
ghost use Rattle.book.specs.Paper.Answers.{WritesEntryLine, WritesEntryLineByText, WritesBookLines, WritesBookLinesByText};
ghost use Rattle.book.specs.Work.Reading.{Noting};

use digits::refusal::Refusal;
use opening::Places;
use puts::Written;

// What is reported of an entry: its kind, its offset, and the places in the book where its frame begins and ends.
#[derive(Clone, Copy, Debug, PartialEq, Eq)]
pub struct Located {
    pub kind: u8,
    pub offset: usize,
    pub from: usize,
    pub to: usize,
}

// How many entries a book has. Refusals: 8 for anything else than a valid book.
pub fn open(book: &[u8]) -> Result<usize, Refusal>
    ensures { Opens book.now result }
{
    let mut places = Places {
        starts: [0; layout::MOST_ENTRIES],
        stops: [0; layout::MOST_ENTRIES],
    };
    opening::opened(book, &mut places)
}

// The entry of a number, counted from 0. Refusals: 8 for anything else than a valid book, 3 for a number that is not below the count.
pub fn entry(book: &[u8], number: usize) -> Result<Located, Refusal>
    ensures { LocatesEntry book.now number result }
{
    let count = open(book)?;
    if count <= number {
        return Err(Refusal::NoPlace);
    }
    Ok(locate(book, count, number))
}

// That entry's frame, as a part of the book; empty for a refusal.
pub fn frame(book: &[u8], number: usize) -> &[u8]
    ensures { HandsFrame book.entry number result }
{
    match entry(book, number) {
        Ok(located) => &book[located.from..located.to],
        Err(_) => &book[0..0],
    }
}

// Writes that entry's line from the front of the room, `at` being the entry's offset. Refusals: 8 for anything else than a valid book,
// 3 for a number that is not below the count, 4 for a room that is too short.
pub fn line(book: &[u8], number: usize, room: &mut [u8]) -> Written
    ensures { WritesEntryLine none book.now number room.old result room.new }
{
    line_mapped(book, number, &[], room)
}

// Writes that entry's line by the sheet that a map is. Refusals: those of `line`.
pub fn line_mapped(book: &[u8], number: usize, map: &[u8], room: &mut [u8]) -> Written
    ensures { WritesEntryLine (sheet_in map.now) book.now number room.old result room.new }
{
    let at = entry(book, number)?;
    lines::write_mapped(at.kind, &book[at.from..at.to], at.offset, map, room)
}

// Writes that entry's line by a sheet. Refusals: those of `line`, and before 4, 10 for a text that is no sheet.
pub fn line_with(book: &[u8], number: usize, text: &[u8], room: &mut [u8]) -> Written
    ensures { WritesEntryLineByText book.now number text.now room.old result room.new }
{
    let at = entry(book, number)?;
    lines::write_with(at.kind, &book[at.from..at.to], at.offset, text, room)
}

// Writes the lines of all entries from the front of the room: the book is opened once, and each frame tested once. Refusals: 8 for
// anything else than a valid book, 4 for a room that is too short.
pub fn list(book: &[u8], room: &mut [u8]) -> Written
    ensures { WritesBookLines none book.now room.old result room.new }
{
    list_mapped(book, &[], room)
}

// Writes the lines of all entries by the sheet that a map is. Refusals: those of `list`.
pub fn list_mapped(book: &[u8], map: &[u8], room: &mut [u8]) -> Written
    ensures { WritesBookLines (sheet_in map.now) book.now room.old result room.new }
{
    let mut places = Places {
        starts: [0; layout::MOST_ENTRIES],
        stops: [0; layout::MOST_ENTRIES],
    };
    let count = opening::opened(book, &mut places)?;
    listing::write(book, count, &places, map, room)
}

// Writes the lines of all entries by a sheet. Refusals: those of `list`, and before 4, 10 for a text that is no sheet.
pub fn list_with(book: &[u8], text: &[u8], room: &mut [u8]) -> Written
    ensures { WritesBookLinesByText book.now text.now room.old result room.new }
{
    let mut places = Places {
        starts: [0; layout::MOST_ENTRIES],
        stops: [0; layout::MOST_ENTRIES],
    };
    let count = opening::opened(book, &mut places)?;
    let mut map = [0u8; 65536];
    list_opened(book, count, &places, text, room, &mut map)
}

// The lines of a valid book whose payloads' places have been noted. The map is lent by its type, so that no proof has to count it.
fn list_opened(
    book: &[u8],
    count: usize,
    places: &Places,
    text: &[u8],
    room: &mut [u8],
    map: &mut [u8; 65536],
) -> Written
    requires { Noting book.now count places.now }
    ensures { WritesBookLinesByText book.now text.now room.old result room.new }
{
    let Ok(_) = sheet::map(text, map) else {
        return Err(Refusal::BadSheet);
    };
    listing::write(book, count, places, map, room)
}

// Writes the whole new book, with an entry more, from the front of the room; the book itself is only read. Refusals: 8 for anything else
// than a valid book. 2 for a kind that is not known. 5 for anything else than one frame, or for a new book that is outside the limits. 4
// for a room that is too short.
pub fn add(book: &[u8], kind: u8, frame: &[u8], room: &mut [u8]) -> Written
    ensures { WritesAdded book.now (record { kind = kind; frame = frame.now }) room.old result room.new }
{
    let count = open(book)?;
    adding::write(book, count, kind, frame, room)
}

// The entry of a number below the count, which stands where the trailer says.
fn locate(book: &[u8], count: usize, number: usize) -> Located
    requires counts { Counts book.now count }
    requires number_lt_count { number < count }
    ensures { LocatesEntry book.now number (Ok result) }
{
    let offset = layout::offset(book, count, number);
    let head = layout::head_at(book, offset);
    Located {
        kind: head.kind,
        offset,
        from: head.from,
        to: head.to,
    }
}
