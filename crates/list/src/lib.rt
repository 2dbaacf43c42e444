// The whole listing of a capture, by the installer's register sheet if there is one: a `map` is what `sheet::map` writes, and the empty map
// is no sheet.
#![tactic(auto)]

ghost use Rattle.std.specs.Prelude.{◌≡◌, ◌+◌, min, length};
ghost use Rattle.digits.specs.Paper.Read.{Decides};
ghost use Rattle.puts.specs.Paper.Put.{Put, largest_place};
ghost use Rattle.sheet.specs.Paper.Map.{sheet_in};
ghost use Rattle.list.specs.Paper.Answers.{WritesListing};
ghost use Rattle.list.specs.Paper.Listing.{Input, NoSheet, OfMap, OfText, last_line};
ghost use Rattle.list.specs.Work.Remaining.{NoSheetIn, Listable, WritesLists, Fits, SizedListing, Roomy, PutsLists};

use digits::refusal::Refusal;
use frames::kinds;
use puts::Written;

// The bound on a listing's length: `MOST` bytes, and `MOST_A_BYTE` more for each byte of the capture.
const MOST: usize = 50;

const MOST_A_BYTE: usize = 32;

// Writes the listing of an input from the front of the room. Refusals: 4 for a room that is too short; one of 2,097,202 bytes never is.
pub fn write(input: &[u8], room: &mut [u8]) -> Written
    ensures { WritesListing NoSheet input.now room.old result room.new }
{
    write_mapped(input, &[], room)
}

// Writes the listing of an input by the sheet that a map is. Refusals: those of `write`.
pub fn write_mapped(input: &[u8], map: &[u8], room: &mut [u8]) -> Written
    ensures { WritesListing (OfMap map.now) input.now room.old result room.new }
{
    if !begins(input) {
        return puts::front(b"{\"refused\":2}\n", room);
    }
    if 65536 < input.len() {
        return puts::front(b"{\"refused\":5}\n", room);
    }
    capture(input[0] - b'0', &input[2..], map, room)
}

// Writes the listing of an input by a sheet; a text that is no sheet is refused in the listing, with 10. Refusals: those of `write`.
pub fn write_with(input: &[u8], text: &[u8], room: &mut [u8]) -> Written
    ensures { WritesListing (OfText text.now) input.now room.old result room.new }
{
    let mut map = [0u8; 65536];
    write_opened(input, text, room, &mut map)
}

// The map is lent by its type, so that no proof has to count it.
fn write_opened(input: &[u8], text: &[u8], room: &mut [u8], map: &mut [u8; 65536]) -> Written
    ensures { WritesListing (OfText text.now) input.now room.old result room.new }
{
    match sheet::map(text, map) {
        Ok(_) => write_mapped(input, map, room),
        Err(_) => write_refused(input, text, room),
    }
}

// Writes the listing of an input if the text is no sheet.
fn write_refused(input: &[u8], text: &[u8], room: &mut [u8]) -> Written
    requires { NoSheetIn text.now }
    ensures { WritesListing (OfText text.now) input.now room.old result room.new }
{
    if begins(input) {
        if input.len() <= 65536 {
            return puts::front(b"{\"refused\":10}\n", room);
        }
        return puts::front(b"{\"refused\":5}\n", room);
    }
    puts::front(b"{\"refused\":2}\n", room)
}

// Whether an input begins with a kind's digit and LF.
fn begins(input: &[u8]) -> bool
    ensures { Decides (Input input.now) result }
{
    if input.len() < 2 {
        return false;
    }
    if input[0] < b'0' {
        return false;
    }
    kinds::known(input[0] - b'0') && input[1] == b'\n'
}

// Writes the listing of a capture: all of it, or nothing if the room is too short.
fn capture(kind: u8, s: &[u8], map: &[u8], room: &mut [u8]) -> Written
    requires { Listable kind s.now }
    ensures { WritesLists (sheet_in map.now) kind s.now room.old result room.new }
{
    if !fits(kind, s, map, room.len()) {
        return Err(Refusal::NoRoom);
    }
    Ok(put(kind, s, map, room))
}

// Whether a room of `room` bytes has room for the listing. The listing is measured only if it might not.
fn fits(kind: u8, s: &[u8], map: &[u8], room: usize) -> bool
    requires { Listable kind s.now }
    ensures { Fits (sheet_in map.now) kind s.now room result }
{
    if MOST <= room {
        if s.len() <= (room - MOST) / MOST_A_BYTE {
            return true;
        }
    }
    size(kind, s, map) <= room
}

// How long the listing is, line by line.
fn size(kind: u8, s: &[u8], map: &[u8]) -> usize
    requires { Listable kind s.now }
    ensures { SizedListing (sheet_in map.now) kind s.now result }
{
    let mut place = 0;
    let mut frames = 0;
    let mut inside = 0;
    let mut sum = 0;
    while let Ok(line) = lines::measure(kind, s, place, map) {
        place = line.start + line.len;
        sum += line.size;
        frames += 1;
        inside += line.len;
    }
    behind(frames, s.len() - inside, sum)
}

// Puts a line a frame of the capture, and the last line, in a room that has room for them.
fn put(kind: u8, s: &[u8], map: &[u8], room: &mut [u8]) -> usize
    requires listable { Listable kind s.now }
    requires roomy { Roomy (sheet_in map.now) kind s.now (length room.old) }
    ensures { PutsLists (sheet_in map.now) kind s.now room.old room.new result }
{
    let mut place = 0;
    let mut frames = 0;
    let mut inside = 0;
    let mut next = 0;
    while let Ok(line) = lines::next(kind, s, place, map, room, next) {
        place = line.start + line.len;
        next = line.behind;
        frames += 1;
        inside += line.len;
    }
    ending(frames, s.len() - inside, room, next)
}

// The place behind the last line if that is put at a place.
fn behind(frames: usize, skipped: usize, at: usize) -> usize
    ensures { result ≡ min (at + length (last_line frames skipped)) largest_place }
{
    let mut none = [0u8; 1];
    ending(frames, skipped, &mut none, at)
}

// Puts the last line: the frames, and the bytes in no frame.
fn ending(frames: usize, skipped: usize, room: &mut [u8], at: usize) -> usize
    ensures { Put room.old room.new at result (last_line frames skipped) }
{
    let a = puts::bytes(b"{\"frames\":", room, at);
    let b = puts::whole(frames as u64, room, a);
    let c = puts::bytes(b",\"skipped\":", room, b);
    let d = puts::whole(skipped as u64, room, c);
    puts::bytes(b"}\n", room, d)
}
