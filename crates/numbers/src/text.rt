// A raw number's decimal text, there and back.
ghost use Rattle.std.specs.Prelude.{◌≡◌, ◌^◌, ◌≤◌, ◌<◌, ltb, length};
ghost use Rattle.digits.specs.Paper.Read.{Decides};
ghost use Rattle.puts.specs.Paper.Put.{Put};
ghost use Rattle.puts.specs.Paper.Wrote.{Writes};
ghost use Rattle.numbers.specs.Paper.Raw.{Raw};
ghost use Rattle.numbers.specs.Paper.Text.{sign, fraction, text_of, text};
ghost use Rattle.numbers.specs.Paper.Answers.{TextCause, ReadsText};
ghost use Rattle.numbers.specs.Work.Text.{Front, step, value, behind, minus_first};

use super::raw;
use digits::refusal::Refusal;
use digits::{decimal, slices};
use puts::Written;

// What a text is read as: a number and its decimals.
#[derive(Clone, Copy, Debug, PartialEq, Eq)]
pub struct Reading {
    pub raw: i64,
    pub decimals: u32,
}

// A text at the front of twelve characters. (A buffer with its length, not a String: the library uses no heap.)
#[derive(Clone, Copy, Debug, PartialEq, Eq)]
struct Text {
    chars: [u8; 12],
    len: usize,
}

// Writes the text of a raw number from the front of the room.
pub fn write(raw: i64, decimals: u32, room: &mut [u8]) -> Written
    ensures { Writes (TextCause raw decimals (length room.old)) (text raw decimals) room.old result room.new }
{
    let few = decimals <= 3;
    let in_range = raw::in_range(raw);
    if !few {
        return Err(Refusal::BadForm);
    }
    if !in_range {
        return Err(Refusal::OutOfLimits);
    }
    let t = text_of(raw, decimals);
    let chars = t.chars;
    let len = t.len;
    puts::front(&chars[0..len], room)
}

// The number whose text t is, with its decimals.
pub fn read(t: &[u8]) -> Result<Reading, Refusal>
    ensures { ReadsText t.now result }
{
    if 12 < t.len() {
        return Err(Refusal::BadForm);
    }
    let decimals = after_point(t);
    if 3 < decimals {
        return Err(Refusal::BadForm);
    }
    let raw = raw::with_sign(minus_first(t), number_in(t));
    if !raw::in_range(raw) {
        return Err(Refusal::BadForm);
    }
    if is_text(raw, decimals as u32, t) {
        return Ok(Reading {
            raw,
            decimals: decimals as u32,
        });
    }
    Err(Refusal::BadForm)
}

// The text of a raw number.
fn text_of(raw: i64, decimals: u32) -> Text
    requires { Raw raw × (decimals ≤ 3) }
    ensures { Front (text raw decimals) result.chars result.len }
{
    let mut chars = [0u8; 12];
    let len = put(
        raw::below_zero(raw),
        raw::magnitude(raw),
        decimals,
        &mut chars,
    );
    Text { chars, len }
}

// Puts the text of the number of that sign and magnitude at the front of the room.
fn put(minus: bool, n: u32, decimals: u32, room: &mut [u8]) -> usize
    requires { decimals ≤ 3 }
    ensures { Put room.old room.new 0 result (text_of minus n decimals) }
{
    let whole = n / unit(decimals);
    let a = put_sign(minus, room, 0);
    let b = puts::whole(whole as u64, room, a);
    put_fraction(n, decimals, room, b)
}

fn put_sign(minus: bool, room: &mut [u8], at: usize) -> usize
    ensures { Put room.old room.new at result (sign minus) }
{
    if minus {
        return puts::byte(b'-', room, at);
    }
    at
}

// Puts the point and the digits behind it. Those of a 1 and the fraction are a `1` and then as many as there are decimals.
fn put_fraction(n: u32, decimals: u32, room: &mut [u8], at: usize) -> usize
    requires { decimals ≤ 3 }
    ensures { Put room.old room.new at result (fraction decimals n) }
{
    if decimals == 0 {
        return at;
    }
    let one = unit(decimals);
    let d = decimal::digits((one + n % one) as u64);
    let chars = d.chars;
    let from = 20 - decimals as usize;
    let next = puts::byte(b'.', room, at);
    puts::bytes(&chars[from..20], room, next)
}

// How many units a 1 has.
fn unit(decimals: u32) -> u32
    requires { decimals ≤ 3 }
    ensures { result ≡ 10 ^ decimals }
{
    if decimals < 1 {
        return 1;
    }
    if decimals < 2 {
        return 10;
    }
    if decimals < 3 {
        return 100;
    }
    1000
}

// Whether t is the text of a raw number.
fn is_text(raw: i64, decimals: u32, t: &[u8]) -> bool
    requires { Raw raw × (decimals ≤ 3) }
    ensures { Decides (text raw decimals ≡ t.now) result }
{
    let own = text_of(raw, decimals);
    let chars = own.chars;
    let len = own.len;
    slices::same(&chars[0..len], t)
}

// How many characters follow the first point, if there is one.
fn after_point(t: &[u8]) -> usize
    ensures { result ≡ behind t.now }
{
    for i in 0..t.len() {
        if t[i] == b'.' {
            return t.len() - (i + 1);
        }
    }
    0
}

fn minus_first(t: &[u8]) -> bool
    ensures { result ≡ minus_first t.now }
{
    if 0 < t.len() {
        return t[0] == b'-';
    }
    false
}

// The number that the digits of a short text make.
fn number_in(t: &[u8]) -> u64
    requires { length t.now ≤ 12 }
    ensures { (result ≡ value 0 t.now) × (result < 2 ^ 48) }
{
    let mut n: u64 = 0;
    for c in t {
        n = stepped(n, *c);
    }
    n
}

// The number n with the digit c behind it. (A minus and a point come before `0`.)
fn stepped(n: u64, c: u8) -> u64
    requires { n < 2 ^ 60 }
    ensures { result ≡ step (ltb c 48) n c }
{
    if c < b'0' {
        return n;
    }
    n * 10 + (c % 16) as u64
}
