// Says why no frame stands at a place of a capture, in words. Standard input has a kind's digit; a blank and a place, if one place is asked
// for; LF; and the capture. Standard output has a line for that place, or for each place outside of frames that has a start mark and no
// frame; and a last line, `end`, or `refused` and a number. All that is said of a verdict is proved of `frames::why`.
#![tactic(auto)]

mod room;
mod words;

ghost use Rattle.std.specs.Prelude.{◌≤◌, ◌<◌, length};

use digits::refusal::Refusal;
use digits::{decimal, refusal};
use frames::kinds;
use frames::kinds::Kind;
use layouts::Test;
use room::Room;
use std::io::{Read, Write};
use words::Failed;

// No capture that is read is longer.
const MOST: usize = 65534;

fn main(rt: HostRuntime) {
    let mut input = [0u8; 65600];
    let mut room = [0u8; 8192];
    with_rooms(&mut rt.stdin(), &mut rt.stdout(), &mut input, &mut room);
}

// A head, and a byte more than a capture may have, so that a longer one shows; and room for many lines. They are lent by their types, so
// that no proof has to count them.
fn with_rooms(
    source: &mut impl Read,
    to: &mut impl Write,
    input: &mut [u8; 65600],
    room: &mut [u8; 8192],
) {
    let n = read_full(source, input);
    let mut room = Room::new(room);
    answer(input.get(..n).unwrap_or_default(), to, &mut room);
    room.print(to);
}

// Reads until the room is full or the input ends; how many bytes. A read that fails is the end of the input.
fn read_full(source: &mut impl Read, s: &mut [u8]) -> usize {
    let mut done = 0;
    // (A `while`, as in `through`: a step is as long as what was read.)
    while done < s.len() {
        match source.read(&mut s[done..]) {
            Ok(0) | Err(_) => break,
            Ok(n) => done += n,
        }
    }
    done
}

fn answer(input: &[u8], to: &mut impl Write, room: &mut Room<'_>) {
    let mut parts = input.splitn(2, |b| *b == b'\n');
    let head = parts.next().unwrap_or_default();
    let capture = parts.next().unwrap_or_default();
    match asked(head, capture, to, room) {
        Ok(()) => room.put(b"end\n"),
        Err(why) => {
            room.put(b"refused ");
            room.put_whole(refusal::number(why) as u64);
            room.put(b"\n");
        }
    }
}

// Answers for one place if the head names one, else for the whole capture.
fn asked(
    head: &[u8],
    capture: &[u8],
    to: &mut impl Write,
    room: &mut Room<'_>,
) -> Result<(), Refusal> {
    let kind = kind_of(head).ok_or(Refusal::NoKind)?;
    if MOST < capture.len() {
        return Err(Refusal::OutOfLimits);
    }
    if head.len() == 1 {
        return through(kind, capture, to, room);
    }
    let place = place_of(head).ok_or(Refusal::NoPlace)?;
    at(kind, capture, place, room)
}

// The kind whose digit a head begins with.
fn kind_of(head: &[u8]) -> Option<Kind> {
    let number = head.first()?.checked_sub(b'0')?;
    kinds::of(number)
}

// The place that a head names behind its blank, if it names one and that has 32 bits: others lie beyond every capture.
fn place_of(head: &[u8]) -> Option<usize> {
    let place = decimal::number_of(head.get(2..)?)?;
    Some(place as usize)
}

// Says what stands at one place.
fn at(kind: Kind, capture: &[u8], place: usize, room: &mut Room<'_>) -> Result<(), Refusal> {
    match frames::why(kinds::number(kind), capture, place)? {
        Some(failure) => Failed { kind, failure }.put(room),
        None => {
            let len = frame_len(kind, capture, place);
            room.put(b"none: a frame of ");
            room.put_whole(len as u64);
            room.put(b" bytes stands here");
        }
    }
    room.put(b"\n");
    Ok(())
}

// Goes through a capture from its start: past each frame, and else place by place. A place that has a start mark and no frame gets a line.
fn through(
    kind: Kind,
    capture: &[u8],
    to: &mut impl Write,
    room: &mut Room<'_>,
) -> Result<(), Refusal> {
    let mut place = 0;
    while place < capture.len() {
        let len = match frames::why(kinds::number(kind), capture, place)? {
            Some(failure) => {
                if failure.test != Test::Start {
                    room.put_whole(place as u64);
                    room.put(b": ");
                    Failed { kind, failure }.put(room);
                    room.put(b"\n");
                    room.make_room(to);
                }
                1
            }
            None => frame_len(kind, capture, place),
        };
        place = behind(place, len, capture.len());
    }
    Ok(())
}

// The place behind so many bytes, one at least.
fn behind(place: usize, len: usize, end: usize) -> usize
    requires { place < end }
    ensures lower_bound { place < result }
    ensures upper_bound { result ≤ end }
{
    place.saturating_add(len.max(1)).min(end)
}

// How many bytes the first frame from a place on has.
fn frame_len(kind: Kind, capture: &[u8], place: usize) -> usize {
    frames::frame(kinds::number(kind), capture, place).len()
}
