// Messages of frames: the table of document 01, read.
#![tactic(auto)]

pub mod homiq;
mod limits;
pub mod nest;
pub mod nibe;
pub mod nikobus;
mod words;

ghost use Rattle.frames.specs.Paper.Kinds.{number_of};
ghost use Rattle.messages.specs.Paper.Allowed.{Allows};
ghost use Rattle.messages.specs.Paper.Answers.{Decodes, Said, Contents, Finds};
ghost use Rattle.messages.specs.Paper.Meant.{ContentWith, Means};
ghost use Rattle.messages.specs.Work.Answers.{Payloaded};

use digits::refusal::Refusal;
use frames::kinds;
use frames::kinds::Kind;
use homiq::Homiq;
use nest::Response;
use nibe::Nibe;
use nikobus::Nikobus;

// A message. Its bytes of free length stand beside it, as its frame's payload has them: a link's digits, Nest's payload, Nibe's
// data, Homiq's CMD to TYPE. A message without such bytes takes nothing from there, whatever stands there.
#[derive(Clone, Copy, Debug, PartialEq, Eq)]
pub enum Message {
    Nikobus(Nikobus),
    Command { id: u16 },
    Response(Response),
    Nibe(Nibe),
    Homiq(Homiq),
}

// What a frame is decoded to: its message, and the places where its payload begins and ends.
#[derive(Clone, Copy, Debug, PartialEq, Eq)]
pub struct Decoded {
    pub message: Message,
    pub from: usize,
    pub to: usize,
}

// What a search finds, decoded: the frame's start and length, the places in the buffer where its payload begins and ends, and its
// message.
#[derive(Clone, Copy, Debug, PartialEq, Eq)]
pub struct FoundMessage {
    pub start: usize,
    pub len: usize,
    pub from: usize,
    pub to: usize,
    pub message: Message,
}

// What a frame says, its content, is a tag and a payload: the digits of a link or a press, Nest's payload, Nibe's data, Homiq's CMD to
// TYPE. A tail takes nothing from the payload.
#[derive(Clone, Copy, Debug, PartialEq, Eq)]
pub enum Tag {
    Link,
    Press,
    Tail,
    Command { id: u16 },
    Response { id: u16 },
    Nibe { command: u8 },
    Homiq,
}

// The message of one frame. Refusals: 2 for a kind that is not known, 5 for anything else than one frame.
pub fn decode(kind: u8, frame: &[u8]) -> Result<Decoded, Refusal>
    ensures { Decodes kind frame.now result }
{
    decode_as(kinds::of(kind).ok_or(Refusal::NoKind)?, frame)
}

fn decode_as(kind: Kind, frame: &[u8]) -> Result<Decoded, Refusal>
    ensures { Decodes (number_of kind) frame.now result }
{
    let payload = frames::one_frame(kinds::number(kind), frame)?;
    Ok(Decoded {
        message: message_in(kind, frame, payload.from, payload.to),
        from: payload.from,
        to: payload.to,
    })
}

// The frame with the smallest start at or after the place, and its message: search and decoder in one pass. Refusals: those of the
// search.
pub fn find(kind: u8, buffer: &[u8], place: usize) -> Result<FoundMessage, Refusal>
    ensures { Finds kind buffer.now place result }
{
    find_as(kinds::of(kind).ok_or(Refusal::NoKind)?, buffer, place)
}

fn find_as(kind: Kind, buffer: &[u8], place: usize) -> Result<FoundMessage, Refusal>
    ensures { Finds (number_of kind) buffer.now place result }
{
    let found = frames::search(kinds::number(kind), buffer, place)?;
    let start = found.start;
    let frame = &buffer[start..start + found.len];
    Ok(FoundMessage {
        start: start,
        len: found.len,
        from: found.from,
        to: found.to,
        message: message_in(kind, frame, found.from - start, found.to - start),
    })
}

// What stands beside the message of one frame, as a part of it; empty for a refusal.
pub fn content(kind: u8, frame: &[u8]) -> &[u8]
    ensures { Contents kind frame.entry result }
{
    match frames::one_frame(kind, frame) {
        Ok(payload) => &frame[payload.from..payload.to],
        Err(_) => &frame[0..0],
    }
}

// The message of one frame whose payload goes from the one place to the other, as it was tested: nothing is tested again.
fn message_in(kind: Kind, frame: &[u8], from: usize, to: usize) -> Message
    requires { Payloaded (number_of kind) frame.now from to }
    ensures { Said (number_of kind) frame.now result from to }
{
    let payload = &frame[from..to];
    match kind {
        Kind::Nikobus => Message::Nikobus(nikobus::message(frame, payload)),
        Kind::NestCommand => Message::Command {
            id: words::word(frame, 3),
        },
        Kind::NestResponse => Message::Response(nest::message(words::word(frame, 4), payload)),
        Kind::Nibe => Message::Nibe(nibe::message(frame[1], payload)),
        Kind::Homiq => Message::Homiq(homiq::message_of(payload)),
    }
}

// The message of a content. Refusal: 5 for a field outside its limits.
pub fn of(tag: Tag, payload: &[u8]) -> Result<Message, Refusal>
    ensures { Means (ContentWith tag payload.now) result }
{
    match tag {
        Tag::Link => nikobus::of_link(payload),
        Tag::Press => nikobus::of_press(payload),
        Tag::Tail => Ok(Message::Nikobus(Nikobus::Tail)),
        Tag::Command { id } => nest::of_command(id, payload),
        Tag::Response { id } => nest::of_response(id, payload),
        Tag::Nibe { command } => nibe::of(command, payload),
        Tag::Homiq => homiq::of(payload),
    }
}

// Whether a message, with what stands beside it, is one of the table. Refusals: 5 for a field outside its limits, 6 for the content of a
// message above it.
pub fn allowed(message: Message, content: &[u8]) -> Result<(), Refusal>
    ensures { Allows message content.now result }
{
    match message {
        Message::Nikobus(m) => nikobus::allowed(m, content),
        // (A field that is not read is named here: the proof knows the range of a field only by its name.)
        Message::Command { id } => limits::standing(nest::is_short(content)),
        Message::Response(m) => nest::allowed(m, content),
        Message::Nibe(m) => nibe::allowed(m, content),
        Message::Homiq(m) => homiq::allowed(m, content),
    }
}
