// The calls of `host_book` for a program in C, exported under the same names: each function here is one call of the function there, and has its
// contract.
#![tactic(auto)]

ghost use Rattle.std.proofs.Math.Option.{none};
ghost use Rattle.std.specs.Prelude.{length};
ghost use Rattle.digits.specs.Paper.Refusals.{Answers};
ghost use Rattle.puts.specs.Paper.Right.{WroteRight};
ghost use Rattle.sheet.specs.Paper.Map.{sheet_in};
ghost use Rattle.book.specs.Paper.Answers.{OpenCause, Counts, zero_location, EntryCause, EntryOf, EntryLineCause, EntryLine, ListCause, BookLines, AddCause, Adds};
ghost use Rattle.host_book.specs.Paper.Answers.{location_in};

use host::answers::Count;
use host_book::{Entries, Entry};

// How many entries a book has: `book::open`.
#[unsafe(no_mangle)]
pub extern "C" fn bolsterweft_book_open(book: &[u8]) -> Entries
    ensures { Answers 0 (OpenCause book.now) (Counts book.now) result.refusal result.count }
{
    host_book::bolsterweft_book_open(book)
}

// The entry of a number, counted from 0: `book::entry`.
#[unsafe(no_mangle)]
pub extern "C" fn bolsterweft_book_entry(book: &[u8], number: u32) -> Entry
    ensures { Answers zero_location (EntryCause book.now number) (EntryOf book.now number) result.refusal (location_in result) }
{
    host_book::bolsterweft_book_entry(book, number)
}

// Writes that entry's line from the front of the room: `book::line`.
#[unsafe(no_mangle)]
pub extern "C" fn bolsterweft_book_line(book: &[u8], number: u32, room: &mut [u8]) -> Count
    ensures { WroteRight (EntryLineCause none book.now number (length room.old)) (EntryLine none book.now number) room.old result.refusal result.length room.new }
{
    host_book::bolsterweft_book_line(book, number, room)
}

// The same by the sheet that a map is, the empty map being no sheet: `book::line_mapped`.
#[unsafe(no_mangle)]
pub extern "C" fn bolsterweft_book_line_with(
    book: &[u8],
    number: u32,
    map: &[u8],
    room: &mut [u8],
) -> Count
    ensures { WroteRight (EntryLineCause (sheet_in map.now) book.now number (length room.old)) (EntryLine (sheet_in map.now) book.now number) room.old result.refusal result.length room.new }
{
    host_book::bolsterweft_book_line_with(book, number, map, room)
}

// Writes the lines of all entries from the front of the room: `book::list`.
#[unsafe(no_mangle)]
pub extern "C" fn bolsterweft_book_list(book: &[u8], room: &mut [u8]) -> Count
    ensures { WroteRight (ListCause none book.now (length room.old)) (BookLines none book.now) room.old result.refusal result.length room.new }
{
    host_book::bolsterweft_book_list(book, room)
}

// The same by the sheet that a map is, the empty map being no sheet: `book::list_mapped`.
#[unsafe(no_mangle)]
pub extern "C" fn bolsterweft_book_list_with(book: &[u8], map: &[u8], room: &mut [u8]) -> Count
    ensures { WroteRight (ListCause (sheet_in map.now) book.now (length room.old)) (BookLines (sheet_in map.now) book.now) room.old result.refusal result.length room.new }
{
    host_book::bolsterweft_book_list_with(book, map, room)
}

// Writes the whole new book, with an entry more, from the front of the room: `book::add`.
#[unsafe(no_mangle)]
pub extern "C" fn bolsterweft_book_add(
    book: &[u8],
    kind: u32,
    frame: &[u8],
    room: &mut [u8],
) -> Count
    ensures { WroteRight (AddCause book.now (record { kind = kind; frame = frame.now }) (length room.old)) (Adds book.now (record { kind = kind; frame = frame.now })) room.old result.refusal result.length room.new }
{
    host_book::bolsterweft_book_add(book, kind, frame, room)
}
