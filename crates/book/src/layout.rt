// The layout of a book, in one place: its limits, what stands before an entry's frame, and the trailer.
ghost use Rattle.std.specs.Prelude.{◌++◌, ◌≡◌, ◌+◌, ◌-◌, ◌*◌, ◌≤◌, ◌<◌, length};
ghost use Rattle.digits.specs.Paper.LowFirst.{low_byte_first};
ghost use Rattle.puts.specs.Paper.Put.{Put};
ghost use Rattle.book.specs.Paper.Book.{entry_bytes};
ghost use Rattle.book.specs.Work.Reading.{NumberAt, Heads};

use digits::low_first;

// The limits of a book: its entries, and its bytes.
pub(crate) const MOST_ENTRIES: usize = 1000;

pub(crate) const MOST_BYTES: usize = 65536;

// How many bytes stand before an entry's frame: the kind (1) and the frame's length (2).
pub(crate) const HEAD: usize = 3;

// How many bytes an entry's offset has in the trailer.
pub(crate) const OFFSET: usize = 4;

// How many bytes the distance back has, at the book's end.
pub(crate) const BACK: usize = 4;

// How many bytes stand behind the offsets: the count (2) and the distance back.
pub(crate) const ENDING: usize = 6;

// How many bytes an entry adds to a book beside its frame: its head and its offset.
pub(crate) const ADDED: usize = 7;

// What stands before an entry's frame says: the entry's kind, and the places in the book where the frame begins and ends.
#[derive(Clone, Copy)]
pub(crate) struct Head {
    pub(crate) kind: u8,
    pub(crate) from: usize,
    pub(crate) to: usize,
}

// The head of the entry at a place.
pub(crate) fn head_at(book: &[u8], at: usize) -> Head
    requires at_in_bounds { at + 3 ≤ length book.now }
    requires book_len_bound { length book.now ≤ 65536 }
    ensures { Heads book.now at result.kind result.from result.to }
{
    let from = at + HEAD;
    Head {
        kind: book[at],
        from: from,
        to: from + two(book, at + 1),
    }
}

// Puts an entry: its kind, its frame's length, and its frame.
pub(crate) fn put_entry(kind: u8, frame: &[u8], room: &mut [u8], at: usize) -> usize
    requires { length frame.now < 65536 }
    ensures { Put room.old room.new at result (entry_bytes (record { kind = kind; frame = frame.now })) }
{
    let size = low_first::two(frame.len() as u16);
    let a = puts::byte(kind, room, at);
    let b = puts::bytes(&size, room, a);
    puts::bytes(frame, room, b)
}

// How long the trailer of `count` entries is, which is its distance back.
pub(crate) fn trailer_size(count: usize) -> usize
    requires { count < 65536 }
    ensures { result ≡ 4 * count + 6 }
{
    OFFSET * count + ENDING
}

// The count in the trailer.
pub(crate) fn count(book: &[u8]) -> usize
    requires { 6 ≤ length book.now }
    ensures { (result < 65536) × NumberAt book.now (length book.now - 6) 2 result }
{
    two(book, book.len() - ENDING)
}

// The offset of one entry, as the trailer of `count` entries has it.
pub(crate) fn offset(book: &[u8], count: usize, number: usize) -> usize
    requires number_lt_count { number < count }
    requires count_in_bounds { 4 * count + 6 ≤ length book.now }
    requires book_len_bound { length book.now ≤ 65536 }
    ensures { (result < 4294967296) × NumberAt book.now (length book.now - (4 * count + 6) + 4 * number) 4 result }
{
    four(book, book.len() - trailer_size(count) + OFFSET * number)
}

// Puts the end of the trailer of `count` entries: the count, and the distance back.
pub(crate) fn put_end(count: usize, room: &mut [u8], at: usize) -> usize
    requires { count < 65536 }
    ensures { Put room.old room.new at result (low_byte_first 2 count ++ low_byte_first 4 (4 * count + 6)) }
{
    let counted = low_first::two(count as u16);
    let back = low_first::four(trailer_size(count) as u32);
    let a = puts::bytes(&counted, room, at);
    puts::bytes(&back, room, a)
}

// The number of two bytes at a place.
pub(crate) fn two(s: &[u8], at: usize) -> usize
    requires { at + 2 ≤ length s.now }
    ensures { (result < 65536) × NumberAt s.now at 2 result }
{
    u16::from_le_bytes([s[at], s[at + 1]]) as usize
}

// The number of four bytes at a place.
pub(crate) fn four(s: &[u8], at: usize) -> usize
    requires { at + 4 ≤ length s.now }
    ensures { (result < 4294967296) × NumberAt s.now at 4 result }
{
    u32::from_le_bytes([s[at], s[at + 1], s[at + 2], s[at + 3]]) as usize
}
