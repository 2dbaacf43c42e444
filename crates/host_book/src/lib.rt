// What a program in C calls for the capture book: its entries, their lines, and a book with an entry more.
#![tactic(auto)]

ghost use Rattle.std.proofs.Math.Option.{none};
ghost use Rattle.std.specs.Prelude.{length};
ghost use Rattle.digits.specs.Paper.Refusals.{Answers};
ghost use Rattle.puts.specs.Paper.Right.{WroteRight};
ghost use Rattle.sheet.specs.Paper.Map.{sheet_in};
ghost use Rattle.book.specs.Paper.Answers.{OpenCause, Counts, zero_location, EntryCause, EntryOf, EntryLineCause, EntryLine, ListCause, BookLines, AddCause, Adds};
ghost use Rattle.host_book.specs.Paper.Answers.{location_in};

use host::answers;
use host::answers::Count;

// How many entries a book has.
#[repr(C)]
#[derive(Clone, Copy, Debug, PartialEq, Eq)]
pub struct Entries {
    pub refusal: u32,
    pub count: usize,
}

// An entry of a book: its kind and offset, where its frame begins, and how long the frame is.
#[repr(C)]
#[derive(Clone, Copy, Debug, PartialEq, Eq)]
pub struct Entry {
    pub refusal: u32,
    pub kind: u32,
    pub offset: usize,
    pub frame_start: usize,
    pub frame_length: usize,
}

// How many entries a book has: `book::open`.
#[unsafe(no_mangle)]
pub extern "C" fn bolsterweft_book_open(book: &[u8]) -> Entries
    ensures { Answers 0 (OpenCause book.now) (Counts book.now) result.refusal result.count }
{
    match book::open(book) {
        Ok(count) => Entries { refusal: 0, count },
        Err(why) => Entries {
            refusal: answers::refusal_number(why),
            count: 0,
        },
    }
}

// The entry of a number, counted from 0: `book::entry`.
#[unsafe(no_mangle)]
pub extern "C" fn bolsterweft_book_entry(book: &[u8], number: u32) -> Entry
    ensures { Answers zero_location (EntryCause book.now number) (EntryOf book.now number) result.refusal (location_in result) }
{
    match book::entry(book, number as usize) {
        Ok(located) => Entry {
            refusal: 0,
            kind: located.kind as u32,
            offset: located.offset,
            frame_start: located.from,
            frame_length: located.to - located.from,
        },
        Err(why) => Entry {
            refusal: answers::refusal_number(why),
            kind: 0,
            offset: 0,
            frame_start: 0,
            frame_length: 0,
        },
    }
}

// Writes that entry's line from the front of the room: `book::line`.
#[unsafe(no_mangle)]
pub extern "C" fn bolsterweft_book_line(book: &[u8], number: u32, room: &mut [u8]) -> Count
    ensures { WroteRight (EntryLineCause none book.now number (length room.old)) (EntryLine none book.now number) room.old result.refusal result.length room.new }
{
    let line = book::line(book, number as usize, room);
    answers::counted(line)
}

// The same by the sheet that a map is, the empty map being no sheet: `book::line_mapped`.
#[unsafe(no_mangle)]
pub extern "C" fn bolsterweft_book_line_with(
    book: &[u8],
    number: u32,
    map: &[u8],
    room: &mut [u8],
) -> Count
    ensures { WroteRight (EntryLineCause (sheet_in map.now) book.now number (length room.old)) (EntryLine (sheet_in map.now) book.now number) room.old result.refusal result.length room.new }
{
    let by_map = book::line_mapped(book, number as usize, map, room);
    answers::counted(by_map)
}

// Writes the lines of all entries from the front of the room: `book::list`.
#[unsafe(no_mangle)]
pub extern "C" fn bolsterweft_book_list(book: &[u8], room: &mut [u8]) -> Count
    ensures { WroteRight (ListCause none book.now (length room.old)) (BookLines none book.now) room.old result.refusal result.length room.new }
{
    let lines = book::list(book, room);
    answers::counted(lines)
}

// The same by the sheet that a map is, the empty map being no sheet: `book::list_mapped`.
#[unsafe(no_mangle)]
pub extern "C" fn bolsterweft_book_list_with(book: &[u8], map: &[u8], room: &mut [u8]) -> Count
    ensures { WroteRight (ListCause (sheet_in map.now) book.now (length room.old)) (BookLines (sheet_in map.now) book.now) room.old result.refusal result.length room.new }
{
    let all_by_map = book::list_mapped(book, map, room);
    answers::counted(all_by_map)
}

// Writes the whole new book, with an entry more, from the front of the room: `book::add`.
#[unsafe(no_mangle)]
pub extern "C" fn bolsterweft_book_add(
    book: &[u8],
    kind: u32,
    frame: &[u8],
    room: &mut [u8],
) -> Count
    ensures { WroteRight (AddCause book.now (record { kind = kind; frame = frame.now }) (length room.old)) (Adds book.now (record { kind = kind; frame = frame.now })) room.old result.refusal result.length room.new }
{
    answers::counted(book::add(book, answers::kind_byte(kind), frame, room))
}
