// Writers into a lent room: each puts its bytes at a place of the room, as far as the room goes, and answers the place behind them. So no
// writer asks anything of the room, and a writer measures its text if it is lent a room that is too short.
#![tactic(auto)]

ghost use Rattle.std.specs.Prelude.{◌≡◌, cond, [], ◌∷◌, leb, ◌+◌, ◌*◌, ◌%◌, ◌≤◌, length};
ghost use Rattle.std.proofs.lemmas.List.Edits.{sets};
ghost use Rattle.digits.specs.Paper.Decimal.{decimal_digit, decimal};
ghost use Rattle.digits.specs.Paper.Hex.{hex_bytes};
ghost use Rattle.puts.specs.Paper.Put.{Put};
ghost use Rattle.puts.specs.Paper.Wrote.{RoomCause, Writes};

use digits::refusal::Refusal;
use digits::{decimal, hex};

// What a call answers that writes into a lent room: how many bytes it wrote, or why it wrote none.
pub type Written = Result<usize, Refusal>;

// Writes the bytes of s from the front of the room: all of them, or none if the room is too short.
pub fn front(s: &[u8], room: &mut [u8]) -> Written
    ensures { Writes (RoomCause (length room.old) (length s.now)) s.now room.old result room.new }
{
    let n = all_or_none(s.len(), room.len());
    bytes(&s[0..n], room, 0);
    if n < s.len() {
        return Err(Refusal::NoRoom);
    }
    Ok(n)
}

// How many of n bytes are written.
fn all_or_none(n: usize, room: usize) -> usize
    ensures { result ≡ cond (leb n room) n 0 }
{
    if room < n {
        return 0;
    }
    n
}

// Puts one byte.
pub fn byte(b: u8, room: &mut [u8], at: usize) -> usize
    ensures { Put room.old room.new at result (b ∷ []) }
{
    if at < room.len() {
        room[at] = b;
        return at + 1;
    }
    if at < usize::MAX {
        return at + 1;
    }
    at
}

// Puts the bytes of s. If the room has room for all of them, its end is tested once, and not for each byte.
pub fn bytes(s: &[u8], room: &mut [u8], at: usize) -> usize
    ensures { Put room.old room.new at result s.now }
{
    let n = s.len();
    if at < room.len() {
        if n <= room.len() - at {
            copy(s, room, at);
            return at + n;
        }
    }
    clipped(s, room, at)
}

// Copies the bytes of s to a place of a room that has room for them there. (Not by `copy_from_slice`: the objects for C would need `memmove`.)
fn copy(s: &[u8], room: &mut [u8], at: usize)
    requires { at + length s.now ≤ length room.old }
    ensures { room.new ≡ sets room.old at s.now }
{
    for i in 0..s.len() {
        room[at + i] = s[i];
    }
}

// Puts the bytes of s one by one, as far as the room goes.
fn clipped(s: &[u8], room: &mut [u8], at: usize) -> usize
    ensures { Put room.old room.new at result s.now }
{
    let mut next = at;
    for b in s {
        next = byte(*b, room, next);
    }
    next
}

// Puts the decimal digits of n. Up to five, as many as a place in a capture has, are put at once.
pub fn whole(n: u64, room: &mut [u8], at: usize) -> usize
    ensures { Put room.old room.new at result (decimal n) }
{
    if n < 10 {
        return byte(figure(n), room, at);
    }
    if n < 100 {
        let two = [figure(n / 10), figure(n)];
        return bytes(&two, room, at);
    }
    if n < 1000 {
        let three = [figure(n / 100), figure(n / 10), figure(n)];
        return bytes(&three, room, at);
    }
    if n < 10000 {
        let four = [figure(n / 1000), figure(n / 100), figure(n / 10), figure(n)];
        return bytes(&four, room, at);
    }
    if n < 100000 {
        let five = [
            figure(n / 10000),
            figure(n / 1000),
            figure(n / 100),
            figure(n / 10),
            figure(n),
        ];
        return bytes(&five, room, at);
    }
    long(n, room, at)
}

// The last decimal digit of n.
fn figure(n: u64) -> u8
    ensures { result ≡ decimal_digit (n % 10) }
{
    b'0' + (n % 10) as u8
}

// Puts the decimal digits of any number.
fn long(n: u64, room: &mut [u8], at: usize) -> usize
    ensures { Put room.old room.new at result (decimal n) }
{
    let d = decimal::digits(n);
    let chars = d.chars;
    let from = d.from;
    clipped(&chars[from..20], room, at)
}

// Puts two hex digits for each byte of s. If the room has room for all of them, its end is tested once, and not for each byte.
pub fn hex(s: &[u8], room: &mut [u8], at: usize) -> usize
    ensures { Put room.old room.new at result (hex_bytes s.now) }
{
    let n = s.len();
    if at < room.len() {
        if n <= (room.len() - at) / 2 {
            spell(s, room, at);
            return at + 2 * n;
        }
    }
    hex_clipped(s, room, at)
}

// Stores two digits a byte at a place of a room that has room for them there.
fn spell(s: &[u8], room: &mut [u8], at: usize)
    requires { at + 2 * length s.now ≤ length room.old }
    ensures { room.new ≡ sets room.old at (hex_bytes s.now) }
{
    for i in 0..s.len() {
        let pair = hex::two_digits(s[i]);
        room[at + 2 * i] = pair[0];
        room[at + 2 * i + 1] = pair[1];
    }
}

// Puts two digits a byte, as far as the room goes.
fn hex_clipped(s: &[u8], room: &mut [u8], at: usize) -> usize
    ensures { Put room.old room.new at result (hex_bytes s.now) }
{
    let mut next = at;
    for b in s {
        next = bytes(&hex::two_digits(*b), room, next);
    }
    next
}
