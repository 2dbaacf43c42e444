// Nikobus: the messages of links, presses and tails.
ghost use Rattle.std.specs.Prelude.{◌≡◌, ◌+◌, ◌*◌, ◌≤◌, T, length};
ghost use Rattle.digits.specs.Paper.Read.{Decides};
ghost use Rattle.layouts.specs.Paper.Chars.{all, is_hex};
ghost use Rattle.messages.specs.Paper.Allowed.{StandsSo};
ghost use Rattle.messages.specs.Paper.Meant.{Means, LinkWith, PressWith};
ghost use Rattle.messages.specs.Paper.Message.{press};
ghost use Rattle.messages.specs.Paper.Says.{six, SaysNikobus};
ghost use Rattle.messages.specs.Paper.Table.{Group};
ghost use Rattle.messages.specs.Work.Answers.{Only};
ghost use Rattle.messages.specs.Work.Look.{group_of};
ghost use Rattle.messages.specs.declared.nikobus.Nikobus.TheVariants.{Link};
ghost use Rattle.messages.specs.Work.Nikobus.{NikobusFrame, NikobusSaid, LinkDigits, LinkSaid, ByteAt, WordAt, SixAt};

use super::{Message, limits};
use digits::hex;
use digits::refusal::Refusal;
use layouts::nikobus;

// Six bytes: the values of a module's outputs, or a press's digits.
#[derive(Clone, Copy, Debug, PartialEq, Eq)]
pub struct Six {
    pub a: u8,
    pub b: u8,
    pub c: u8,
    pub d: u8,
    pub e: u8,
    pub f: u8,
}

// A module's address is the number that its two bytes are, low byte first. Beside a link stand its digits.
#[derive(Clone, Copy, Debug, PartialEq, Eq)]
pub enum Nikobus {
    Read { group: u8, address: u16 },
    Set { group: u8, address: u16, out: Six },
    Answer { address: u16, third: u8, out: Six },
    Press(Six),
    Tail,
    Link,
}

// The message of a link with these digits; 5 if they are not those of 1 to 122 bytes.
pub(crate) fn of_link(digits: &[u8]) -> Result<Message, Refusal>
    ensures { Means (LinkWith digits.now) result }
{
    if !is_link(digits) {
        return Err(Refusal::OutOfLimits);
    }
    Ok(Message::Nikobus(linked(digits)))
}

// The message of a press with these digits; 5 if they are not six.
pub(crate) fn of_press(digits: &[u8]) -> Result<Message, Refusal>
    ensures { Means (PressWith digits.now) result }
{
    if !is_press(digits) {
        return Err(Refusal::OutOfLimits);
    }
    Ok(Message::Nikobus(Nikobus::Press(pressed(digits))))
}

// Whether a message, with a link's digits beside it, is one of the table.
pub(crate) fn allowed(message: Nikobus, digits: &[u8]) -> Result<(), Refusal>
    ensures { StandsSo (SaysNikobus message digits.now) result }
{
    match message {
        // (Fields that are not read are named here: the proof knows the range of a field only by its name.)
        Nikobus::Read { group, address } => limits::standing(is_group(group)),
        Nikobus::Set {
            group,
            address,
            out,
        } => limits::standing(is_group(group)),
        Nikobus::Answer {
            address,
            third,
            out,
        } => Ok(()),
        Nikobus::Press(six) => press_allowed(six),
        Nikobus::Tail => Ok(()),
        Nikobus::Link => link_allowed(digits),
    }
}

fn press_allowed(digits: Six) -> Result<(), Refusal>
    ensures { StandsSo (Only (press (six digits))) result }
{
    let chars = [digits.a, digits.b, digits.c, digits.d, digits.e, digits.f];
    limits::standing(is_press(&chars))
}

// Whether a link is one of the table: no message above it has its payload.
fn link_allowed(digits: &[u8]) -> Result<(), Refusal>
    ensures { StandsSo (SaysNikobus Link digits.now) result }
{
    if !is_link(digits) {
        return Err(Refusal::OutOfLimits);
    }
    match linked(digits) {
        Nikobus::Link => Ok(()),
        _ => Err(Refusal::ContentAbove),
    }
}

// Whether these are the digits of a link's payload: of 1 to 122 bytes.
fn is_link(digits: &[u8]) -> bool
    ensures { Decides (LinkDigits digits.now) result }
{
    let n = digits.len();
    if n < 2 || 244 < n || n % 2 != 0 {
        return false;
    }
    nikobus::all_digits(digits)
}

// Whether these are the digits of a press: six.
fn is_press(digits: &[u8]) -> bool
    ensures { Decides ((length digits.now ≡ 6) × T (all is_hex digits.now)) result }
{
    digits.len() == 6 && nikobus::all_digits(digits)
}

// Whether a module has this group.
fn is_group(group: u8) -> bool
    ensures { Decides (Group group) result }
{
    group == 1 || group == 2
}

// The message of a frame with this payload.
pub(crate) fn message(frame: &[u8], payload: &[u8]) -> Nikobus
    requires { NikobusFrame frame.now payload.now }
    ensures { NikobusSaid frame.now payload.now result }
{
    if frame[0] == b'$' {
        return linked(payload);
    }
    if frame[1] == b'N' {
        return Nikobus::Press(pressed(payload));
    }
    Nikobus::Tail
}

// The six digits of a press.
fn pressed(d: &[u8]) -> Six
    requires { length d.now ≡ 6 }
    ensures { six result ≡ d.now }
{
    Six {
        a: d[0],
        b: d[1],
        c: d[2],
        d: d[3],
        e: d[4],
        f: d[5],
    }
}

// The message of a link with these digits.
fn linked(digits: &[u8]) -> Nikobus
    requires { LinkDigits digits.now }
    ensures { LinkSaid digits.now result }
{
    let code = byte_at(digits, 0);
    match digits.len() / 2 {
        3 if code == 0x12 || code == 0x17 => Nikobus::Read {
            group: group_of(code, 0x12),
            address: word_at(digits, 1),
        },
        9 => Nikobus::Answer {
            address: word_at(digits, 0),
            third: byte_at(digits, 2),
            out: six_at(digits),
        },
        10 if (code == 0x15 || code == 0x16) && byte_at(digits, 9) == 0xFF => Nikobus::Set {
            group: group_of(code, 0x15),
            address: word_at(digits, 1),
            out: six_at(digits),
        },
        _ => Nikobus::Link,
    }
}

// The byte with this number that digits are.
fn byte_at(digits: &[u8], i: usize) -> u8
    requires { i * 2 + 2 ≤ length digits.now }
    ensures { ByteAt digits.now i result }
{
    hex::byte_of(digits[i * 2], digits[i * 2 + 1]).unwrap_or(0)
}

// The number of two bytes from a place on, low byte first.
fn word_at(digits: &[u8], i: usize) -> u16
    requires { i * 2 + 4 ≤ length digits.now }
    ensures { WordAt digits.now i result }
{
    u16::from_le_bytes([byte_at(digits, i), byte_at(digits, i + 1)])
}

// The six values behind the first three bytes.
fn six_at(digits: &[u8]) -> Six
    requires { 18 ≤ length digits.now }
    ensures { SixAt digits.now result }
{
    Six {
        a: byte_at(digits, 3),
        b: byte_at(digits, 4),
        c: byte_at(digits, 5),
        d: byte_at(digits, 6),
        e: byte_at(digits, 7),
        f: byte_at(digits, 8),
    }
}

// The group of a code; `first` is the code of group 1.
fn group_of(code: u8, first: u8) -> u8
    ensures { result ≡ group_of first code }
{
    if code == first { 1 } else { 2 }
}
