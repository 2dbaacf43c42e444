// The JSON values of a line, each put at a place of a lent room as the writers of `puts` do: as far as the room goes.
#![tactic(auto)]

ghost use Rattle.std.specs.Prelude.{true, ◌≡◌, [], ◌∷◌, ◌++◌, ◌≤◌, length, take, pos};
ghost use Rattle.digits.specs.Paper.Ascii.{ascii};
ghost use Rattle.digits.specs.Paper.Hex.{hex_byte};
ghost use Rattle.numbers.specs.Paper.Raw.{Raw};
ghost use Rattle.numbers.specs.Paper.Single.{fits_single};
ghost use Rattle.numbers.specs.Paper.Text.{text};
ghost use Rattle.puts.specs.Paper.Put.{Put};
ghost use Rattle.json_values.specs.Paper.Json as paper;
ghost use Rattle.json_values.specs.Paper.Decimals.{decimals_of};

use digits::hex;
use numbers::{single, text};

// How many decimals a reading has.
#[derive(Clone, Copy, Debug, PartialEq, Eq)]
pub enum Decimals {
    Zero,
    One,
    Two,
    Three,
}

// Puts a string of upper-case hex, two digits a byte.
pub fn hex(s: &[u8], room: &mut [u8], at: usize) -> usize
    ensures { Put room.old room.new at result (paper.hex s.now) }
{
    let first = puts::byte(b'"', room, at);
    let end = puts::hex(s, room, first);
    puts::byte(b'"', room, end)
}

// Puts a string, one character a byte. What needs no escape at its head is copied at once: a field of Homiq is nothing else, and so are most texts.
pub fn chars(s: &[u8], room: &mut [u8], at: usize) -> usize
    ensures { Put room.old room.new at result (paper.chars s.now) }
{
    let from = puts::byte(b'"', room, at);
    let n = plain(s);
    let next = puts::bytes(&s[0..n], room, from);
    let end = escaped_bytes(&s[n..], room, next);
    puts::byte(b'"', room, end)
}

// How many bytes at the head of s are spelt as themselves.
fn plain(s: &[u8]) -> usize
    ensures upper_bound { result ≤ length s.now }
    ensures s_value { paper.each_escaped (take result s.now) ≡ take result s.now }
{
    for (i, b) in s.iter().enumerate() {
        if !is_plain(*b) {
            return i;
        }
    }
    s.len()
}

fn is_plain(b: u8) -> bool
    ensures { result ≡ true → b ∷ [] ≡ paper.escaped b }
{
    if b == b'"' {
        return false;
    }
    if b == b'\\' {
        return false;
    }
    if b < 0x20 {
        return false;
    }
    b <= 0x7E
}

fn escaped_bytes(s: &[u8], room: &mut [u8], at: usize) -> usize
    ensures { Put room.old room.new at result (paper.each_escaped s.now) }
{
    let mut next = at;
    for b in s {
        next = escaped(*b, room, next);
    }
    next
}

fn escaped(b: u8, room: &mut [u8], at: usize) -> usize
    ensures { Put room.old room.new at result (paper.escaped b) }
{
    if b == b'"' {
        return puts::bytes(b"\\\"", room, at);
    }
    if b == b'\\' {
        return puts::bytes(b"\\\\", room, at);
    }
    if b < 0x20 {
        return code(b, room, at);
    }
    if 0x7E < b {
        return code(b, room, at);
    }
    puts::byte(b, room, at)
}

// Puts a character that is spelt by its number: six characters at once, so that the room's end is tested once for them.
fn code(b: u8, room: &mut [u8], at: usize) -> usize
    ensures { Put room.old room.new at result (ascii "\\u00" ++ hex_byte b) }
{
    let six = [b'\\', b'u', b'0', b'0', hex::digit(b / 16), hex::digit(b)];
    puts::bytes(&six, room, at)
}

// Puts `true` or `false`.
pub fn truth(b: bool, room: &mut [u8], at: usize) -> usize
    ensures { Put room.old room.new at result (paper.truth b) }
{
    if b {
        return puts::bytes(b"true", room, at);
    }
    puts::bytes(b"false", room, at)
}

// Puts the reading of a raw number, with a sign or without.
pub fn signed(raw: i32, decimals: Decimals, room: &mut [u8], at: usize) -> usize
    ensures { Put room.old room.new at result (paper.reading raw (decimals_of decimals)) }
{
    reading(raw as i64, places(decimals), room, at)
}

pub fn unsigned(raw: u32, decimals: Decimals, room: &mut [u8], at: usize) -> usize
    ensures { Put room.old room.new at result (paper.reading (pos raw) (decimals_of decimals)) }
{
    reading(raw as i64, places(decimals), room, at)
}

fn places(d: Decimals) -> u32
    ensures { result ≡ decimals_of d }
{
    d as u32
}

fn reading(raw: i64, decimals: u32, room: &mut [u8], at: usize) -> usize
    requires { Raw raw × (decimals ≤ 3) }
    ensures { Put room.old room.new at result (paper.reading raw decimals) }
{
    let a = puts::bytes(b"{\"raw\":", room, at);
    let b = whole(raw, room, a);
    let c = puts::bytes(b",\"dec\":", room, b);
    let d = puts::whole(decimals as u64, room, c);
    let e = puts::bytes(b",\"text\":\"", room, d);
    let f = number(raw, decimals, room, e);
    let g = puts::bytes(b"\",\"f32\":", room, f);
    let h = truth(fits(raw), room, g);
    puts::byte(b'}', room, h)
}

// Whether a single holds a raw number.
fn fits(raw: i64) -> bool
    requires { Raw raw }
    ensures { result ≡ fits_single raw }
{
    single::fits(raw).unwrap_or(false)
}

// Puts a raw number with no decimals.
fn whole(raw: i64, room: &mut [u8], at: usize) -> usize
    requires { Raw raw }
    ensures { Put room.old room.new at result (text raw 0) }
{
    if raw < 0 {
        let a = puts::byte(b'-', room, at);
        return puts::whole((0 - raw) as u64, room, a);
    }
    puts::whole(raw as u64, room, at)
}

// Puts the text of a raw number.
fn number(raw: i64, decimals: u32, room: &mut [u8], at: usize) -> usize
    requires { Raw raw × (decimals ≤ 3) }
    ensures { Put room.old room.new at result (text raw decimals) }
{
    let mut t = [0u8; 12];
    match text::write(raw, decimals, &mut t) {
        Ok(n) => puts::bytes(&t[0..n], room, at),
        Err(_) => at,
    }
}
