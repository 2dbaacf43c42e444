// Adding an entry: the whole new book.
ghost use Rattle.std.specs.Prelude.{◌≤◌, length};
ghost use Rattle.digits.specs.Paper.Read.{Decides};
ghost use Rattle.book.specs.Paper.Answers.{Counts, WritesAdded};
ghost use Rattle.book.specs.Work.Writing.{HasPlace, PutsAdded};

use super::layout;
use digits::low_first;
use digits::refusal::Refusal;
use puts::Written;

// Writes the new book of a valid one, which has `count` entries.
pub(crate) fn write(book: &[u8], count: usize, kind: u8, frame: &[u8], room: &mut [u8]) -> Written
    requires { Counts book.now count }
    ensures { WritesAdded book.now (record { kind = kind; frame = frame.now }) room.old result room.new }
{
    frames::one_frame(kind, frame)?;
    if !has_place(count, book.len(), frame.len()) {
        return Err(Refusal::OutOfLimits);
    }
    if room.len() < book.len() + (frame.len() + layout::ADDED) {
        return Err(Refusal::NoRoom);
    }
    Ok(put(book, count, kind, frame, room))
}

// Whether a book of `count` entries and `size` bytes has place for one more, with a frame of `frame` bytes.
fn has_place(count: usize, size: usize, frame: usize) -> bool
    requires { size ≤ 65536 }
    ensures { Decides (HasPlace count size frame) result }
{
    if layout::MOST_ENTRIES <= count {
        return false;
    }
    let free = layout::MOST_BYTES - size;
    if free < layout::ADDED {
        return false;
    }
    frame <= free - layout::ADDED
}

// Puts the new book: the old entries and the new one, the old offsets and the new one, and the end of the trailer.
fn put(book: &[u8], count: usize, kind: u8, frame: &[u8], room: &mut [u8]) -> usize
    requires counts { Counts book.now count }
    requires has_place { HasPlace count (length book.now) (length frame.now) }
    ensures { PutsAdded book.now (record { kind = kind; frame = frame.now }) room.old room.new result }
{
    let end = book.len() - layout::trailer_size(count);
    let offset = low_first::four(end as u32);
    let a = puts::bytes(&book[0..end], room, 0);
    let b = layout::put_entry(kind, frame, room, a);
    let c = puts::bytes(&book[end..end + layout::OFFSET * count], room, b);
    let d = puts::bytes(&offset, room, c);
    layout::put_end(count + 1, room, d)
}
