// Nibe: the messages of the heat pump's bus.
ghost use Rattle.std.specs.Prelude.{◌≡◌, ◌-◌, ◌≤◌, length};
ghost use Rattle.digits.specs.Paper.LowFirst.{Width, Held};
ghost use Rattle.digits.specs.Paper.Read.{Decides};
ghost use Rattle.digits.specs.Paper.LowFirst.{low_value};
ghost use Rattle.messages.specs.Paper.Allowed.{StandsSo};
ghost use Rattle.messages.specs.Paper.Meant.{Means, NibeWith};
ghost use Rattle.messages.specs.Paper.Message.{nibe};
ghost use Rattle.messages.specs.Paper.Says.{of_nibe};
ghost use Rattle.messages.specs.Work.Answers.{Only};
ghost use Rattle.messages.specs.Work.Look.{is_ask, is_valued, is_done, ValuedIn, look_nibe};

use super::{Message, limits, words};
use digits::low_first;
use digits::refusal::Refusal;
use layouts::nibe;

// The most data: their length is one byte.
const MOST: usize = 255;

// A register, and a value of `width` bytes.
#[derive(Clone, Copy, Debug, PartialEq, Eq)]
pub struct Valued {
    pub register: u16,
    pub width: u8,
    pub value: u32,
}

// Beside `Other` stand its data.
#[derive(Clone, Copy, Debug, PartialEq, Eq)]
pub enum Nibe {
    Ask { register: u16 },
    Reply(Valued),
    Put(Valued),
    Done { ok: bool },
    Other { command: u8 },
}

// The message of a command with these data; 5 if there is no such command, or the data are longer than 255 bytes.
pub(crate) fn of(command: u8, content: &[u8]) -> Result<Message, Refusal>
    ensures { Means (NibeWith command content.now) result }
{
    if !nibe::is_command(command) {
        return Err(Refusal::OutOfLimits);
    }
    if MOST < content.len() {
        return Err(Refusal::OutOfLimits);
    }
    Ok(Message::Nibe(message(command, content)))
}

// Whether a message, with these data beside it, is one of the table.
pub(crate) fn allowed(message: Nibe, content: &[u8]) -> Result<(), Refusal>
    ensures { StandsSo (Only (of_nibe message content.now)) result }
{
    match message {
        // (Fields that are not read are named here: the proof knows the range of a field only by its name.)
        Nibe::Ask { register } => Ok(()),
        Nibe::Reply(v) => limits::standing(holds(v.width, v.value)),
        Nibe::Put(v) => limits::standing(holds(v.width, v.value)),
        Nibe::Done { .. } => Ok(()),
        Nibe::Other { command } => plain_allowed(command, content),
    }
}

// Whether any other command with these data is one of the table: no message above has them.
fn plain_allowed(command: u8, content: &[u8]) -> Result<(), Refusal>
    ensures { StandsSo (Only (nibe command content.now)) result }
{
    if !nibe::is_command(command) {
        return Err(Refusal::OutOfLimits);
    }
    if MOST < content.len() {
        return Err(Refusal::OutOfLimits);
    }
    match message(command, content) {
        Nibe::Other { .. } => Ok(()),
        _ => Err(Refusal::ContentAbove),
    }
}

// Whether a width is 1, 2 or 4, and that many bytes hold the value.
fn holds(width: u8, value: u32) -> bool
    ensures { Decides (Held width value) result }
{
    match width {
        1 => value < 256,
        2 => value < 65536,
        _ => width == 4,
    }
}

// The message of a frame with this command and these data.
pub(crate) fn message(command: u8, content: &[u8]) -> Nibe
    ensures { of_nibe result content.now ≡ look_nibe command content.now }
{
    if is_ask(command, content) {
        return Nibe::Ask {
            register: words::word(content, 0),
        };
    }
    if is_valued(0x6A, command, content) {
        return Nibe::Reply(valued_in(content));
    }
    if is_valued(0x6B, command, content) {
        return Nibe::Put(valued_in(content));
    }
    if is_done(command, content) {
        return Nibe::Done {
            ok: content[0] == 1,
        };
    }
    Nibe::Other { command: command }
}

fn is_ask(command: u8, content: &[u8]) -> bool
    ensures { result ≡ is_ask command content.now }
{
    command == 0x69 && content.len() == 2
}

// The command is the one asked for, and the data are a register and a value of 1, 2 or 4 bytes.
fn is_valued(want: u8, command: u8, content: &[u8]) -> bool
    ensures { result ≡ is_valued want command content.now }
{
    let n = content.len();
    command == want && (n == 3 || (n == 4 || n == 6))
}

fn is_done(command: u8, content: &[u8]) -> bool
    ensures { result ≡ is_done command content.now }
{
    command == 0x6C && (content.len() == 1 && content[0] <= 1)
}

// The register and the value that data are.
fn valued_in(content: &[u8]) -> Valued
    requires { (2 ≤ length content.now) × Width (length content.now - 2) }
    ensures { ValuedIn content.now result }
{
    Valued {
        register: words::word(content, 0),
        width: (content.len() - 2) as u8,
        value: value_of(&content[2..content.len()]),
    }
}

// The number that 1, 2 or 4 bytes are.
fn value_of(s: &[u8]) -> u32
    requires { Width (length s.now) }
    ensures { result ≡ low_value s.now }
{
    low_first::number_of(s).unwrap_or(0)
}
