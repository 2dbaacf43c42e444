// Opening a book: all of it is tested.
ghost use Rattle.std.specs.Prelude.{◌≡◌, ℕ, ◌+◌, ◌*◌, ◌≤◌, length};
ghost use Rattle.digits.specs.Paper.Bytes.{part};
ghost use Rattle.digits.specs.Paper.LowFirst.{low_byte_first};
ghost use Rattle.digits.specs.Paper.Read.{Decides};
ghost use Rattle.book.specs.Work.Reading.{Trailed, Slots, FillsNoting, OpensNoting};

use super::layout;
use digits::refusal::Refusal;
use frames::FramePayload;

// What stands at a place of a book, if it is an entry: the place behind it, and the payload of its frame.
#[derive(Clone, Copy, Debug, PartialEq, Eq)]
struct Slot {
    to: usize,
    payload: FramePayload,
}

// Where the payload of each entry begins in its frame, and where it ends. The two do not stand side by side: a compiler would then move both
// at once, in one read of what has just been written in two, and the processor waits for that.
#[derive(Drop)]
pub(crate) struct Places {
    pub(crate) starts: [usize; layout::MOST_ENTRIES],
    pub(crate) stops: [usize; layout::MOST_ENTRIES],
}

// How many entries a book has; and in `places`, where their payloads stand.
pub(crate) fn opened(book: &[u8], places: &mut Places) -> Result<usize, Refusal>
    ensures { OpensNoting book.now places.new result }
{
    if !trailed(book) {
        return Err(Refusal::NoBook);
    }
    let count = layout::count(book);
    let end = book.len() - layout::trailer_size(count);
    if !filled(book, count, end, places) {
        return Err(Refusal::NoBook);
    }
    Ok(count)
}

// Whether s ends as a book does, and is not too long: the count and the distance back.
fn trailed(s: &[u8]) -> bool
    ensures { Decides ((count : ℕ) × Trailed s.now count) result }
{
    let n = s.len();
    if n < layout::ENDING {
        return false;
    }
    if layout::MOST_BYTES < n {
        return false;
    }
    let count = layout::count(s);
    if layout::MOST_ENTRIES < count {
        return false;
    }
    let size = layout::trailer_size(count);
    if n < size {
        return false;
    }
    layout::four(s, n - layout::BACK) == size
}

// Whether `count` entries fill the book up to the trailer, from offset 0 without gaps, and the trailer has their offsets. Where their
// payloads stand is noted in `places`, so that no frame has to be tested twice.
fn filled(s: &[u8], count: usize, end: usize, places: &mut Places) -> bool
    requires count_in_bounds { end + 4 * count ≤ length s.now }
    requires s_len_bound { length s.now ≤ 65536 }
    requires count_bound { count ≤ 1000 }
    ensures { FillsNoting s.now count end places.new result }
{
    let mut at = 0;
    for i in 0..count {
        if !is_offset(s, end + layout::OFFSET * i, at) {
            return false;
        }
        let Some(slot) = entry_at(s, at, end) else {
            return false;
        };
        places.starts[i] = slot.payload.from;
        places.stops[i] = slot.payload.to;
        at = slot.to;
    }
    at == end
}

// Whether an offset of the trailer is that place. (Compared as a number: two slices are compared by a call, and books of short frames would open
// a third slower.)
fn is_offset(s: &[u8], from: usize, place: usize) -> bool
    requires from_in_bounds { from + 4 ≤ length s.now }
    requires place_bound { place ≤ 65536 }
    ensures { Decides (part from (from + 4) s.now ≡ low_byte_first 4 place) result }
{
    layout::four(s, from) == place
}

// The entry at a place before the trailer.
fn entry_at(s: &[u8], at: usize, end: usize) -> Option<Slot>
    requires at_le_end { at ≤ end }
    requires end_in_bounds { end ≤ length s.now }
    requires s_len_bound { length s.now ≤ 65536 }
    ensures { Slots s.now at end result }
{
    if end - at < layout::HEAD {
        return None;
    }
    let head = layout::head_at(s, at);
    let to = head.to;
    if end < to {
        return None;
    }
    match frames::one_frame(head.kind, &s[head.from..to]) {
        Ok(payload) => Some(Slot { to, payload }),
        Err(_) => None,
    }
}
