// The answers, and how a refusal or a count of bytes becomes one. In C a struct's name is `bolsterweft_` and its name here in small letters:
// `PanelValue` is `bolsterweft_panel_value`.
ghost use Rattle.std.specs.Prelude.{◌≡◌};
ghost use Rattle.digits.specs.Paper.Refusals.{refusal_number};
ghost use Rattle.puts.specs.Paper.Wrote.{written_refusal, written_count};
ghost use Rattle.host.specs.Paper.Kind.{KindByte};

use digits::refusal;
use digits::refusal::Refusal;
use puts::Written;

// A frame that is found in a buffer, and its payload: where each begins, and how long it is.
#[repr(C)]
#[derive(Clone, Copy, Debug, PartialEq, Eq)]
pub struct Found {
    pub refusal: u32,
    pub start: usize,
    pub length: usize,
    pub payload_start: usize,
    pub payload_length: usize,
}

// Where the payload of a frame begins, and how long it is.
#[repr(C)]
#[derive(Clone, Copy, Debug, PartialEq, Eq)]
pub struct Payload {
    pub refusal: u32,
    pub payload_start: usize,
    pub payload_length: usize,
}

// The test that a frame at a place failed first, by its number, and the values of a failed check.
#[repr(C)]
#[derive(Clone, Copy, Debug, PartialEq, Eq)]
pub struct Verdict {
    pub refusal: u32,
    pub test: u32,
    pub found: u32,
    pub expected: u32,
}

// How many bytes were written.
#[repr(C)]
#[derive(Clone, Copy, Debug, PartialEq, Eq)]
pub struct Count {
    pub refusal: u32,
    pub length: usize,
}

// A raw number and its decimals.
#[repr(C)]
#[derive(Clone, Copy, Debug, PartialEq, Eq)]
pub struct Reading {
    pub refusal: u32,
    pub decimals: u32,
    pub raw: i64,
}

// A raw number.
#[repr(C)]
#[derive(Clone, Copy, Debug, PartialEq, Eq)]
pub struct Raw {
    pub refusal: u32,
    pub raw: i64,
}

// Whether a single float holds a number: 1 or 0.
#[repr(C)]
#[derive(Clone, Copy, Debug, PartialEq, Eq)]
pub struct Fit {
    pub refusal: u32,
    pub fits: u32,
}

// What the panel is shown: of size 4 it is `single`, of size 8 `wide`, and the other is 0.
#[repr(C)]
#[derive(Clone, Copy, Debug, PartialEq)]
pub struct PanelValue {
    pub refusal: u32,
    pub size: u32,
    pub single: f32,
    pub wide: f64,
}

// What the panel is shown of a climate message.
#[repr(C)]
#[derive(Clone, Copy, Debug, PartialEq)]
pub struct Climate {
    pub refusal: u32,
    pub temperature: f32,
    pub humidity: f32,
}

// The number that document 01 gives a refusal, as an answer has it.
pub fn refusal_number(why: Refusal) -> u32
    ensures { result ≡ refusal_number why }
{
    refusal::number(why) as u32
}

// What was written, as an answer.
pub fn counted(w: Written) -> Count
    ensures { (result.refusal ≡ written_refusal w) × (result.length ≡ written_count w) }
{
    match w {
        Ok(n) => Count {
            refusal: 0,
            length: n,
        },
        Err(why) => Count {
            refusal: refusal_number(why),
            length: 0,
        },
    }
}

// The byte of a kind. A kind that no byte holds is unknown, and so is 0, which stands for it.
pub fn kind_byte(kind: u32) -> u8
    ensures { KindByte kind result }
{
    u8::try_from(kind).unwrap_or(0)
}
