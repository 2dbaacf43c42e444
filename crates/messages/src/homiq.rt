// Homiq: the messages of a payload CMD to TYPE, and its fields.
ghost use Rattle.std.specs.Prelude.{◌≡◌, ◌+◌, ◌≤◌, length, drop};
ghost use Rattle.digits.specs.Paper.Ascii.{ascii};
ghost use Rattle.digits.specs.Paper.Part.{IsPart};
ghost use Rattle.digits.specs.Paper.Read.{Decides};
ghost use Rattle.messages.specs.Paper.Allowed.{StandsSo};
ghost use Rattle.messages.specs.Paper.Homiq.{up_to, field_at, field_ends};
ghost use Rattle.messages.specs.Paper.Meant.{Means, HomiqWith};
ghost use Rattle.messages.specs.Paper.NextId.{Follows};
ghost use Rattle.messages.specs.Paper.Says.{SaysHomiq};
ghost use Rattle.messages.specs.Paper.Table.{MarkedNumber, Letter};
ghost use Rattle.messages.specs.Work.Homiq.{which_of};

use super::Message;
use digits::refusal::Refusal;
use digits::{decimal, slices};
use layouts::homiq;

// Beside each stands CMD to TYPE.
#[derive(Clone, Copy, Debug, PartialEq, Eq)]
pub enum Homiq {
    Output,
    Input,
    Shutter,
    Beat,
    Other,
}

// The message of CMD to TYPE; 5 if they are not six fields within their limits.
pub(crate) fn of(payload: &[u8]) -> Result<Message, Refusal>
    ensures { Means (HomiqWith payload.now) result }
{
    if !homiq::is_payload(payload) {
        return Err(Refusal::OutOfLimits);
    }
    Ok(Message::Homiq(message_of(payload)))
}

// Whether a message, with CMD to TYPE beside it, is one of the table: the one that they are.
pub(crate) fn allowed(message: Homiq, payload: &[u8]) -> Result<(), Refusal>
    ensures { StandsSo (SaysHomiq message payload.now) result }
{
    if !homiq::is_payload(payload) {
        return Err(Refusal::OutOfLimits);
    }
    if message == message_of(payload) {
        return Ok(());
    }
    if message == Homiq::Other {
        return Err(Refusal::ContentAbove);
    }
    Err(Refusal::OutOfLimits)
}

// A field of CMD to TYPE, by its number from 0, as a part of them; if there is none, the empty part at their end.
pub fn field(content: &[u8], number: usize) -> &[u8]
    ensures { IsPart content.entry (field_ends number content.now) result }
{
    let mut from = 0;
    for _ in 0..number {
        let end = field_end(content, from);
        if end == content.len() {
            return &content[end..end];
        }
        from = end + 1;
    }
    &content[from..field_end(content, from)]
}

// The ID of the frame after one with this ID, for whoever numbers frames; 5 if this is no ID.
pub fn next_id(id: u16) -> Result<u16, Refusal>
    ensures { Follows id result }
{
    if homiq::LAST_ID < id {
        return Err(Refusal::OutOfLimits);
    }
    Ok((id + 1) % (homiq::LAST_ID + 1))
}

// Where the field that begins at a place ends: at the next `;`, or at the end.
fn field_end(s: &[u8], from: usize) -> usize
    requires { from ≤ length s.now }
    ensures { (result ≡ from + length (up_to (drop from s.now))) × (result ≤ length s.now) }
{
    match s[from..].iter().position(|c| *c == b';') {
        Some(n) => from + n,
        None => s.len(),
    }
}

// The message of a frame with this payload.
pub(crate) fn message_of(payload: &[u8]) -> Homiq
    ensures { result ≡ which_of (field_at 0 payload.now) (field_at 1 payload.now) }
{
    which(field(payload, 0), field(payload, 1))
}

// The message with this command and value.
fn which(cmd: &[u8], val: &[u8]) -> Homiq
    ensures { result ≡ which_of cmd.now val.now }
{
    if is_output(cmd, val) {
        return Homiq::Output;
    }
    if is_input(cmd, val) {
        return Homiq::Input;
    }
    if is_shutter(cmd, val) {
        return Homiq::Shutter;
    }
    if is_beat(cmd, val) {
        return Homiq::Beat;
    }
    Homiq::Other
}

fn is_output(cmd: &[u8], val: &[u8]) -> bool
    ensures { Decides (MarkedNumber (ascii "O.") 9 cmd.now × Letter (ascii "01") val.now) result }
{
    is_marked_number(b"O.", 9, cmd) && is_letter(b"01", val)
}

fn is_input(cmd: &[u8], val: &[u8]) -> bool
    ensures { Decides (MarkedNumber (ascii "I.") 15 cmd.now × Letter (ascii "01") val.now) result }
{
    is_marked_number(b"I.", 15, cmd) && is_letter(b"01", val)
}

fn is_shutter(cmd: &[u8], val: &[u8]) -> bool
    ensures { Decides ((cmd.now ≡ ascii "UD") × Letter (ascii "uds") val.now) result }
{
    slices::same(cmd, b"UD") && is_letter(b"uds", val)
}

fn is_beat(cmd: &[u8], val: &[u8]) -> bool
    ensures { Decides ((cmd.now ≡ ascii "HB") × Letter (ascii "1") val.now) result }
{
    slices::same(cmd, b"HB") && is_letter(b"1", val)
}

// Whether a command is a mark and behind it a number, at most `most`.
fn is_marked_number(mark: &[u8], most: u32, cmd: &[u8]) -> bool
    ensures { Decides (MarkedNumber mark.now most cmd.now) result }
{
    if !cmd.starts_with(mark) {
        return false;
    }
    match decimal::number_of(&cmd[mark.len()..]) {
        Some(n) => n <= most,
        None => false,
    }
}

// Whether a value is one character, one of these.
fn is_letter(letters: &[u8], val: &[u8]) -> bool
    ensures { Decides (Letter letters.now val.now) result }
{
    val.len() == 1 && letters.contains(&val[0])
}
