// Frames of the five kinds in a buffer: the search, and the parts that it hands back.
#![tactic(auto)]

pub mod kinds;
mod seek;

ghost use Rattle.std.specs.Prelude.{◌≡◌};
ghost use Rattle.digits.specs.Paper.Part.{zero_ends, IsPart};
ghost use Rattle.frames.specs.Paper.Kinds.{number_of};
ghost use Rattle.frames.specs.Paper.Search.{Searches, Hands, frame_ends, payload_ends};
ghost use Rattle.frames.specs.Paper.OneFrame.{TestsOneFrame};
ghost use Rattle.frames.specs.Paper.Why.{Whys};

use digits::refusal::Refusal;
use kinds::Kind;
use layouts::Failure;

// What a search finds: the frame's start and length, and the places where its payload begins and ends.
#[derive(Clone, Copy, Debug, PartialEq, Eq)]
pub struct Found {
    pub start: usize,
    pub len: usize,
    pub from: usize,
    pub to: usize,
}

// The places in one frame where its payload begins and ends.
#[derive(Clone, Copy, Debug, PartialEq, Eq)]
pub struct FramePayload {
    pub from: usize,
    pub to: usize,
}

// The frame with the smallest start at or after the place. Refusals: 2 for a kind that is not known, 3 for a place beyond the
// buffer's length, 1 for no frame from there on.
pub fn search(kind: u8, buffer: &[u8], place: usize) -> Result<Found, Refusal>
    ensures { Searches kind buffer.now place result }
{
    let known = kinds::of(kind).ok_or(Refusal::NoKind)?;
    if buffer.len() < place {
        return Err(Refusal::NoPlace);
    }
    seek::first(known, buffer, place)
}

// That frame, as a part of the buffer; empty for a refusal.
pub fn frame(kind: u8, buffer: &[u8], place: usize) -> &[u8]
    ensures { Hands kind buffer.entry place frame_ends result }
{
    match search(kind, buffer, place) {
        Ok(found) => &buffer[found.start..found.start + found.len],
        Err(_) => nothing(buffer),
    }
}

// Its payload, as a part of the buffer; empty for a refusal.
pub fn payload(kind: u8, buffer: &[u8], place: usize) -> &[u8]
    ensures { Hands kind buffer.entry place payload_ends result }
{
    match search(kind, buffer, place) {
        Ok(found) => &buffer[found.from..found.to],
        Err(_) => nothing(buffer),
    }
}

// A refused part: it is empty, and stands at the buffer's front.
fn nothing(buffer: &[u8]) -> &[u8]
    ensures { IsPart buffer.entry zero_ends result }
{
    &buffer[0..0]
}

// Whether s is one frame and no byte more. Refusals: 2 for a kind that is not known, 5 for anything else than one frame.
pub fn one_frame(kind: u8, s: &[u8]) -> Result<FramePayload, Refusal>
    ensures { TestsOneFrame kind s.now result }
{
    one_of_kind(kinds::of(kind).ok_or(Refusal::NoKind)?, s)
}

// The same for a kind that there is.
fn one_of_kind(kind: Kind, s: &[u8]) -> Result<FramePayload, Refusal>
    ensures { TestsOneFrame (number_of kind) s.now result }
{
    let Ok(frame) = kinds::head(kind, s) else {
        return Err(Refusal::OutOfLimits);
    };
    if frame.len != s.len() {
        return Err(Refusal::OutOfLimits);
    }
    Ok(FramePayload {
        from: frame.from,
        to: frame.to,
    })
}

// The first test that a frame at the place fails; `None` if one stands there. Refusals: 2 for a kind that is not known, 3 for a place
// beyond the buffer's length.
pub fn why(kind: u8, buffer: &[u8], place: usize) -> Result<Option<Failure>, Refusal>
    ensures { Whys kind buffer.now place result }
{
    let kind = kinds::of(kind).ok_or(Refusal::NoKind)?;
    if buffer.len() < place {
        Err(Refusal::NoPlace)
    } else {
        match kinds::at(kind, buffer, place) {
            Ok(_) => Ok(None),
            Err(failure) => Ok(Some(failure)),
        }
    }
}
