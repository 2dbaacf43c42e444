// The search: one loop for all kinds, over the places where a frame can begin.
ghost use Rattle.std.specs.Prelude.{true, false, ◌≡◌, ◌+◌, ◌^◌, ◌≤◌, ◌<◌, length};
ghost use Rattle.layouts.specs.Paper.Judged.{frame_in};
ghost use Rattle.frames.specs.Work.Frames.{frame_at};
ghost use Rattle.frames.specs.Work.Seek.{seek, found_at, Passed};

use super::kinds::Kind;
use super::{Found, kinds};
use digits::refusal::Refusal;
use layouts::{Failure, Frame};

// This many places are tested at a time, with no branch between them: the compiler makes vector instructions of that.
const BLOCK: usize = 64;

// Behind a false start, this many places are tested one by one before blocks are passed: starts often stand close together.
const NEAR: usize = 8;

// The first frame from a place on. The kind is handed on by its name, so that the compiler makes a loop for each kind of the one below. What
// stands at the place itself is looked at here: in a run of frames it is one, and the loop's preparations are not needed.
pub(crate) fn first(kind: Kind, buffer: &[u8], place: usize) -> Result<Found, Refusal>
    requires { place ≤ length buffer.now }
    ensures { result ≡ seek kind buffer.now place }
{
    match kind {
        Kind::Nikobus => first_of(
            Kind::Nikobus,
            kinds::at(Kind::Nikobus, buffer, place),
            buffer,
            place,
        ),
        Kind::NestCommand => first_of(
            Kind::NestCommand,
            kinds::at(Kind::NestCommand, buffer, place),
            buffer,
            place,
        ),
        Kind::NestResponse => first_of(
            Kind::NestResponse,
            kinds::at(Kind::NestResponse, buffer, place),
            buffer,
            place,
        ),
        Kind::Nibe => first_of(
            Kind::Nibe,
            kinds::at(Kind::Nibe, buffer, place),
            buffer,
            place,
        ),
        Kind::Homiq => first_of(
            Kind::Homiq,
            kinds::at(Kind::Homiq, buffer, place),
            buffer,
            place,
        ),
    }
}

// The same, where `here` is what stands at the place. (No `for`: `skip` answers the next place.)
fn first_of(
    kind: Kind,
    here: Result<Frame, Failure>,
    buffer: &[u8],
    place: usize,
) -> Result<Found, Refusal>
    requires place_in_bounds { place ≤ length buffer.now }
    requires framed { frame_in here ≡ frame_at kind buffer.now place }
    ensures { result ≡ seek kind buffer.now place }
{
    if let Ok(frame) = here {
        return Ok(found(place, frame));
    }
    let mut at = skip(kind, buffer, place, 1);
    while at < buffer.len() {
        if let Ok(frame) = kinds::at(kind, buffer, at) {
            return Ok(found(at, frame));
        }
        at = skip(kind, buffer, at + 1, 0);
    }
    Err(Refusal::NoFrame)
}

// The next place where a frame can begin, or the buffer's end: what is found from there on is what is found from the place on. Blocks are
// passed when the count of tested places, modulo NEAR, is `when`: at 1 at once, at 0 behind the near ones. (No `for`: `next` answers the
// next place.)
fn skip(kind: Kind, buffer: &[u8], place: usize, when: usize) -> usize
    requires { place ≤ length buffer.now }
    ensures { Passed kind buffer.now place result }
{
    // no frame is shorter than four bytes
    if buffer.len() < 3 {
        return buffer.len();
    }
    let end = buffer.len() - 3;
    let mut at = place;
    while at < end {
        if kinds::may_start(kind, buffer, at) {
            return at;
        }
        at = next(kind, buffer, at + 1, at + 1 - place, when);
    }
    buffer.len()
}

// The next place to be tested, when `count` have been: this one, or one behind the blocks that can be passed from here on.
fn next(kind: Kind, buffer: &[u8], place: usize, count: usize, when: usize) -> usize
    requires { place + 3 ≤ length buffer.now }
    ensures { Passed kind buffer.now place result }
{
    if count % NEAR == when {
        return pass(kind, buffer, place);
    }
    place
}

// Passes blocks in which no place looks like a start, and of the first other one the places before the first that does. (No `chunks`: a
// block's last places are tested by bytes behind it.)
fn pass(kind: Kind, buffer: &[u8], place: usize) -> usize
    requires { place + 3 ≤ length buffer.now }
    ensures { Passed kind buffer.now place result }
{
    let end = buffer.len() - 3;
    let mut at = place;
    while at + BLOCK <= end {
        if may_start_in(kind, buffer, at) {
            return at + first_in(kind, buffer, at) as usize;
        }
        at += BLOCK;
    }
    at
}

// Whether a place of the block at a place looks like a start. Each is tested, also behind one that does. If none does, the block is passed.
fn may_start_in(kind: Kind, buffer: &[u8], place: usize) -> bool
    requires { place + 67 ≤ length buffer.now }
    ensures { result ≡ false → Passed kind buffer.now place (place + 64) }
{
    let mut any = false;
    for i in 0..BLOCK {
        any = any | kinds::looks_like_start(kind, buffer, place + i);
    }
    any
}

// How many places of the block stand before the first that looks like a start; all of them if there is none.
fn first_in(kind: Kind, buffer: &[u8], place: usize) -> u8
    requires { place + 67 ≤ length buffer.now }
    ensures { Passed kind buffer.now place (place + result) }
{
    let mut first = 64;
    for i in 0..64 {
        first = least(
            first,
            index_if(kinds::looks_like_start(kind, buffer, place + i), i as u8),
        );
    }
    first
}

// An index in the block if its place looks like a start, and else the block's length. (`least` and this stay beside the library's `min`: the
// must-fail edit `last_start_of_a_block_taken` changes what they compare.)
fn index_if(may: bool, i: u8) -> u8
    ensures { (may ≡ true → result ≡ i) × (may ≡ false → result ≡ 64) }
{
    if may {
        return i;
    }
    64
}

fn least(a: u8, b: u8) -> u8
    ensures { (a ≤ b → result ≡ a) × (b ≤ a → result ≡ b) }
{
    if a < b {
        return a;
    }
    b
}

// The frame at a place.
fn found(at: usize, frame: Frame) -> Found
    requires from_bound { at + frame.from < 2 ^ 64 }
    requires to_bound { at + frame.to < 2 ^ 64 }
    ensures { result ≡ found_at at frame }
{
    Found {
        start: at,
        len: frame.len,
        from: at + frame.from,
        to: at + frame.to,
    }
}
