// Strings: characters of one byte each, bytes in hex, and fields of Homiq.
ghost use Rattle.std.specs.Prelude.{◌≡◌, ◌≤◌, T, length, take, IfOk};
ghost use Rattle.digits.specs.Paper.Read.{Decides};
ghost use Rattle.digits.specs.Paper.Refusals.{refusal_number};
ghost use Rattle.layouts.specs.Paper.Homiq as homiqs;
ghost use Rattle.layouts.specs.Paper.Chars.{all, is_hex};
ghost use Rattle.shapes.specs.Paper.Fields.{plain, hex, chars};
ghost use Rattle.shapes.specs.Paper.Shapes.{content, string};
ghost use Rattle.asked.specs.Work.Got.{mapped, Reads, up_to, wire-field, Unhexes, unwritten_of};

use crate::values::Reason;
use digits::refusal::Refusal;
use digits::{hex, refusal};
use jsontext::members;

// The most characters that a string of a text has: as many as the text has bytes.
pub(crate) const MOST: usize = 8192;

// The characters of a string, put into the room: how many there are.
pub(crate) fn chars(v: &[u8], room: &mut [u8]) -> Result<usize, Reason>
    ensures reads { Reads v.now string (up_to (length room.old)) (mapped (λ n. plain (chars (take n room.new))) result) }
    ensures len_in_bounds { IfOk result (λ n. n ≤ length room.old) × (length room.new ≡ length room.old) }
{
    match members::characters(v, room) {
        Ok(n) => Ok(n),
        Err(why) => Err(unwritten(why)),
    }
}

// Why characters were not written: the room is too short for them, or there are none.
fn unwritten(why: Refusal) -> Reason
    ensures { result ≡ unwritten_of (refusal_number why) }
{
    if refusal::number(why) == 4 {
        Reason::Large
    } else {
        Reason::NoValue
    }
}

// The bytes of a string of hex digits, put into the room: how many there are. Its digits go to the other room.
pub(crate) fn hex(v: &[u8], digits: &mut [u8; MOST], room: &mut [u8]) -> Result<usize, Reason>
    ensures reads { Reads v.now content (up_to (length room.old)) (mapped (λ n. plain (hex (take n room.new))) result) }
    ensures len_in_bounds { IfOk result (λ n. n ≤ length room.old) × (length room.new ≡ length room.old) }
{
    let Ok(n) = members::characters(v, digits) else {
        return Err(Reason::NoValue);
    };
    let all = &digits[..];
    unhexed(&all[0..n], room)
}

// The bytes that digits are, put into the room as far as it goes: how many there are.
fn unhexed(digits: &[u8], room: &mut [u8]) -> Result<usize, Reason>
    ensures { Unhexes digits.now room.old room.new result }
{
    if digits.len() % 2 != 0 {
        return Err(Reason::NoValue);
    }
    let n = digits.len() / 2;
    for i in 0..n {
        let Some(b) = hex::byte_of(digits[i * 2], digits[i * 2 + 1]) else {
            return Err(Reason::NoValue);
        };
        puts::byte(b, room, i);
    }
    if room.len() < n {
        return Err(Reason::Large);
    }
    Ok(n)
}

// Whether all characters are hex digits.
pub(crate) fn are_digits(s: &[u8]) -> bool
    ensures { Decides (T (all is_hex s.now)) result }
{
    for c in s {
        if hex::value(*c).is_none() {
            return false;
        }
    }
    true
}

// The characters of a field of Homiq, put into the room, which is as long as the field may be: how many there are.
pub(crate) fn wire_field(v: &[u8], room: &mut [u8]) -> Result<usize, Reason>
    ensures reads { Reads v.now string (wire-field (length room.old)) (mapped (λ n. plain (chars (take n room.new))) result) }
    ensures len_in_bounds { IfOk result (λ n. n ≤ length room.old) × (length room.new ≡ length room.old) }
{
    let n = chars(v, room)?;
    if n == 0 {
        return Err(Reason::Large);
    }
    if !are_field_chars(&room[0..n]) {
        return Err(Reason::Large);
    }
    Ok(n)
}

// Whether all characters may stand in a field of Homiq.
fn are_field_chars(s: &[u8]) -> bool
    ensures { Decides (T (all homiqs.field_char s.now)) result }
{
    for c in s {
        if !is_field_char(*c) {
            return false;
        }
    }
    true
}

fn is_field_char(c: u8) -> bool
    ensures { result ≡ homiqs.field_char c }
{
    if c < 0x21 {
        return false;
    }
    if 0x7E < c {
        return false;
    }
    (c != b';') & (c != b'<') & (c != b'>')
}
