// Nest: the messages of responses, what the panel is shown of them, and a state's voltages.
ghost use Rattle.std.specs.Prelude.{◌≡◌, ◌+◌, ◌≤◌, length};
ghost use Rattle.digits.specs.Paper.Read.{Decides};
ghost use Rattle.layouts.specs.Paper.Chars.{one_of};
ghost use Rattle.messages.specs.Paper.Allowed.{StandsSo};
ghost use Rattle.messages.specs.Paper.Meant.{Means, CommandWith, ResponseWith};
ghost use Rattle.messages.specs.Paper.Message.{state, text, response};
ghost use Rattle.messages.specs.Paper.Panel.{ShowsPair, ReadsVolts};
ghost use Rattle.messages.specs.Paper.Says.{of_response};
ghost use Rattle.messages.specs.Paper.Table.{text_ids};
ghost use Rattle.messages.specs.Work.Answers.{Only};
ghost use Rattle.messages.specs.Work.Look.{signed_at, is_climate, is_state, is_break, is_end, look_response};

use super::{Message, words};
use digits::refusal::Refusal;
use digits::slices;
use numbers::panel;
use numbers::panel::Climate;

// Beside a state, a text and a response stands the payload.
#[derive(Clone, Copy, Debug, PartialEq, Eq)]
pub enum Response {
    Climate { temperature: i16, humidity: u16 },
    State,
    Break,
    End,
    Text { id: u16 },
    Other { id: u16 },
}

// A state's voltages: Vin in hundredths, Vop and Vbat as they stand in the payload.
#[derive(Clone, Copy, Debug, PartialEq, Eq)]
pub struct Volts {
    pub vin: u16,
    pub vop: u16,
    pub vbat: u16,
}

// The message of a command with this id and payload; 5 if the payload is longer than 1,024 bytes.
pub(crate) fn of_command(id: u16, payload: &[u8]) -> Result<Message, Refusal>
    ensures { Means (CommandWith id payload.now) result }
{
    if !is_short(payload) {
        return Err(Refusal::OutOfLimits);
    }
    Ok(Message::Command { id: id })
}

// The message of a response with this id and payload; 5 if the payload is longer than 1,024 bytes.
pub(crate) fn of_response(id: u16, payload: &[u8]) -> Result<Message, Refusal>
    ensures { Means (ResponseWith id payload.now) result }
{
    if !is_short(payload) {
        return Err(Refusal::OutOfLimits);
    }
    Ok(Message::Response(message(id, payload)))
}

// Whether a response, with this payload beside it, is one of the table.
pub(crate) fn allowed(message: Response, payload: &[u8]) -> Result<(), Refusal>
    ensures { StandsSo (Only (of_response message payload.now)) result }
{
    match message {
        // (Fields that are not read are named here: the proof knows the range of a field only by its name.)
        Response::Climate {
            temperature,
            humidity,
        } => Ok(()),
        Response::State => state_allowed(payload),
        Response::Break => Ok(()),
        Response::End => Ok(()),
        Response::Text { id } => text_allowed(id, payload),
        Response::Other { id } => response_allowed(id, payload),
    }
}

fn state_allowed(payload: &[u8]) -> Result<(), Refusal>
    ensures { StandsSo (Only (state payload.now)) result }
{
    if payload.len() < 16 {
        return Err(Refusal::OutOfLimits);
    }
    if !is_short(payload) {
        return Err(Refusal::OutOfLimits);
    }
    Ok(())
}

// Whether a text is one of the table: no message above it has its id and payload.
fn text_allowed(id: u16, payload: &[u8]) -> Result<(), Refusal>
    ensures { StandsSo (Only (text id payload.now)) result }
{
    if !is_text(id) {
        return Err(Refusal::OutOfLimits);
    }
    if !is_short(payload) {
        return Err(Refusal::OutOfLimits);
    }
    match message(id, payload) {
        Response::Text { .. } | Response::Other { .. } => Ok(()),
        _ => Err(Refusal::ContentAbove),
    }
}

// Whether any other response is one of the table: no message above it has its id and payload.
fn response_allowed(id: u16, payload: &[u8]) -> Result<(), Refusal>
    ensures { StandsSo (Only (response id payload.now)) result }
{
    if !is_short(payload) {
        return Err(Refusal::OutOfLimits);
    }
    match message(id, payload) {
        Response::Other { .. } => Ok(()),
        _ => Err(Refusal::ContentAbove),
    }
}

// A climate message's counts for the panel; 5 for another message.
pub fn for_panel(message: Response) -> Result<Climate, Refusal>
    ensures { ShowsPair message result }
{
    match message {
        Response::Climate {
            temperature,
            humidity,
        } => Ok(panel::pair(temperature, humidity)),
        // (A state has voltages, and no counts.)
        Response::State => Err(Refusal::OutOfLimits),
        _ => Err(Refusal::OutOfLimits),
    }
}

// The voltages in a state's payload; 5 for one of fewer than 16 bytes.
pub fn voltages(payload: &[u8]) -> Result<Volts, Refusal>
    ensures { ReadsVolts payload.now result }
{
    if payload.len() < 16 {
        return Err(Refusal::OutOfLimits);
    }
    Ok(Volts {
        vin: words::word(payload, 8),
        vop: words::word(payload, 10),
        vbat: words::word(payload, 12),
    })
}

// The message of a response with this id and payload.
pub(crate) fn message(id: u16, payload: &[u8]) -> Response
    ensures { of_response result payload.now ≡ look_response id payload.now }
{
    if is_climate(id, payload) {
        return Response::Climate {
            temperature: signed_at(payload, 0),
            humidity: words::word(payload, 2),
        };
    }
    if is_state(id, payload) {
        return Response::State;
    }
    if is_break(id, payload) {
        return Response::Break;
    }
    if is_end(id, payload) {
        return Response::End;
    }
    if is_text(id) {
        return Response::Text { id: id };
    }
    Response::Other { id: id }
}

// Whether a payload is no longer than it may be.
pub(crate) fn is_short(payload: &[u8]) -> bool
    ensures { Decides (length payload.now ≤ 1024) result }
{
    payload.len() <= 1024
}

fn is_climate(id: u16, payload: &[u8]) -> bool
    ensures { result ≡ is_climate id payload.now }
{
    id == 0x0002 && payload.len() == 4
}

fn is_state(id: u16, payload: &[u8]) -> bool
    ensures { result ≡ is_state id payload.now }
{
    id == 0x000B && 16 <= payload.len()
}

fn is_break(id: u16, payload: &[u8]) -> bool
    ensures { result ≡ is_break id payload.now }
{
    id == 0x0001 && slices::same(payload, b"BRK")
}

fn is_end(id: u16, payload: &[u8]) -> bool
    ensures { result ≡ is_end id payload.now }
{
    id == 0x002F && payload.len() == 0
}

fn is_text(id: u16) -> bool
    ensures { result ≡ one_of text_ids id }
{
    id == 0x0001 || (id == 0x0018 || id == 0x0019)
}

// The number of 16 bits at a place, two's complement.
fn signed_at(s: &[u8], at: usize) -> i16
    requires { at + 2 ≤ length s.now }
    ensures { result ≡ signed_at at s.now }
{
    words::word(s, at).cast_signed()
}
