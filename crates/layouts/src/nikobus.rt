// Nikobus: link, press and tail.
ghost use Rattle.std.specs.Prelude.{true, ◌≡◌, ◌&&◌, ◌-◌, ◌≤◌, ◌<◌, T, eqb, length, get_or};
ghost use Rattle.digits.specs.Paper.Ascii.{ascii};
ghost use Rattle.digits.specs.Paper.Bytes.{part};
ghost use Rattle.digits.specs.Work.Hex.{place_of};
ghost use Rattle.checks.specs.Paper.Check.{check};
ghost use Rattle.checks.specs.Paper.Buses.{nikobus_crc16};
ghost use Rattle.layouts.specs.Paper.Chars.{all, is_hex, CR};
ghost use Rattle.layouts.specs.Paper.Judged.{Recognises};
ghost use Rattle.layouts.specs.Paper.Nikobus.{nikobus};
ghost use Rattle.layouts.specs.Paper.Starts.{nikobus_starts};
ghost use Rattle.layouts.specs.Work.Heads.{Lasts, starts};
ghost use Rattle.layouts.specs.Work.Nikobus.{hex_pair, bytes_of, ll_of, link_form_len, pair16, pair8};

use super::{Compared, Failure, Frame, Test, words};
use checks::nikobus::{Crc8, Crc16};
use digits::hex;

// This many characters are tested at a time, with no branch between them: the compiler makes vector instructions of that.
const BLOCK: usize = 32;

// What stands at the head of s, by its start mark; a frame's payload is a link's digits or a press's, and a tail has none.
pub fn frame(s: &[u8]) -> Result<Frame, Failure>
    ensures { Recognises nikobus s.now result }
{
    if words::starts_with(s, b"$") {
        return link(s);
    }
    if words::starts_with(s, b"#N") {
        return press(s);
    }
    if words::starts_with(s, b"#E1") {
        return tail(s);
    }
    Err(Failure::from(Test::Start))
}

// Whether a frame can begin with the first three bytes of s: `$` or `#`, and then a digit or a letter.
pub fn may_start(s: &[u8]) -> bool
    ensures { result ≡ nikobus_starts s.now }
{
    if s.len() < 3 {
        return false;
    }
    ((s[0] == b'$') | (s[0] == b'#')) & (b'0' <= s[1])
}

// A link. Tested in this order: LL and the count of bytes, the digits and CR, CRC16, CRC8.
fn link(s: &[u8]) -> Result<Frame, Failure>
    requires { starts (ascii "$") s.now ≡ true }
    ensures { Recognises nikobus s.now result }
{
    let Some(n) = ll(s) else {
        return Err(Failure::from(Test::Length));
    };
    if s.len() < n {
        return Err(Failure::from(Test::Length));
    }
    if !digits_to(s, 3, n - 1) {
        return Err(Failure::from(Test::Fields));
    }
    checked(s, n)
}

// A press: nine bytes, and then the digits and CR.
fn press(s: &[u8]) -> Result<Frame, Failure>
    requires { starts (ascii "#N") s.now ≡ true }
    ensures { Recognises nikobus s.now result }
{
    if s.len() < 9 {
        return Err(Failure::from(Test::Length));
    }
    if !digits_to(s, 2, 8) {
        return Err(Failure::from(Test::Fields));
    }
    Ok(Frame {
        len: 9,
        from: 2,
        to: 8,
    })
}

// A tail: four bytes, and then CR.
fn tail(s: &[u8]) -> Result<Frame, Failure>
    requires { starts (ascii "#E1") s.now ≡ true }
    ensures { Recognises nikobus s.now result }
{
    if s.len() < 4 {
        return Err(Failure::from(Test::Length));
    }
    if s[3] != b'\r' {
        return Err(Failure::from(Test::Fields));
    }
    Ok(Frame {
        len: 4,
        from: 4,
        to: 4,
    })
}

// The checks of what is laid out as a link of n bytes.
fn checked(s: &[u8], n: usize) -> Result<Frame, Failure>
    requires n_value { n ≡ link_form_len s.now }
    requires n_nonzero { 0 < n }
    ensures { Recognises nikobus s.now result }
{
    let first = compared16(&s[0..n]);
    if first.found != first.expected {
        return Err(first.failing(Test::First));
    }
    let second = compared8(&s[0..n]);
    if second.found != second.expected {
        return Err(second.failing(Test::Second));
    }
    Ok(Frame {
        len: n,
        from: 3,
        to: n - 7,
    })
}

// LL, if `$` and an allowed LL are at the head of s.
fn ll(s: &[u8]) -> Option<usize>
    ensures { Lasts (ll_of s.now) result }
{
    if s.len() < 3 {
        return None;
    }
    if s[0] != b'$' {
        return None;
    }
    let n = hex::byte_of(s[1], s[2])?;
    if n < 0x0C {
        return None;
    }
    if n % 2 != 0 {
        return None;
    }
    Some(n as usize)
}

// Whether digits stand from one place up to another, and CR there.
fn digits_to(s: &[u8], from: usize, to: usize) -> bool
    requires in_order { from ≤ to }
    requires in_bounds { to < length s.now }
    ensures { result ≡ (all is_hex (part from to s.now) && eqb (get_or s.now to 0) CR) }
{
    all_digits(&s[from..to]) && s[to] == b'\r'
}

// Whether all characters of s are digits.
pub fn all_digits(s: &[u8]) -> bool
    ensures { result ≡ all is_hex s.now }
{
    // of a head with another behind it, the first character shows it: no block is read for that
    if s.len() != 0 {
        if !is_digit(s[0]) {
            return false;
        }
    }
    let mut i = 0;
    while BLOCK <= s.len() - i {
        if !block_is_digits(&s[i..i + BLOCK]) {
            return false;
        }
        i += BLOCK;
    }
    block_is_digits(&s[i..])
}

// Whether all characters of a block are digits: each is tested, also behind one that is none, so that no branch stands in the loop.
fn block_is_digits(block: &[u8]) -> bool
    ensures { result ≡ all is_hex block.now }
{
    let mut so_far = true;
    for c in block {
        so_far = so_far & is_digit(*c);
    }
    so_far
}

// Whether c is a hex digit, upper case.
fn is_digit(c: u8) -> bool
    ensures { result ≡ is_hex c }
{
    if c < b'0' {
        return false;
    }
    if c <= b'9' {
        return true;
    }
    if c < b'A' {
        return false;
    }
    c <= b'F'
}

// The number that the four digits before CRC8 are, and the CRC16 of the payload's bytes.
fn compared16(f: &[u8]) -> Compared
    requires in_bounds { 10 ≤ length f.now }
    requires t { T (all is_hex (part 3 (length f.now - 1) f.now)) }
    ensures { result ≡ pair16 f.now }
{
    let n = f.len() - 7;
    Compared {
        found: pair(f[n], f[n + 1]) as u16 * 256 + pair(f[n + 2], f[n + 3]) as u16,
        expected: payload_crc(&f[3..n]),
    }
}

// The number that the two digits before CR are, and the CRC8 of the characters before them.
fn compared8(f: &[u8]) -> Compared
    requires in_bounds { 10 ≤ length f.now }
    requires t { T (all is_hex (part 3 (length f.now - 1) f.now)) }
    ensures { result ≡ pair8 f.now }
{
    let n = f.len() - 3;
    Compared {
        found: pair(f[n], f[n + 1]) as u16,
        expected: Crc8::of(&f[0..n]) as u16,
    }
}

// The CRC16 of the bytes that the digits of d are.
fn payload_crc(d: &[u8]) -> u16
    requires { T (all is_hex d.now) }
    ensures { result ≡ check nikobus_crc16 (bytes_of d.now) }
{
    let mut crc = Crc16::new();
    let mut i = 0;
    while i + 1 < d.len() {
        crc = crc.byte(pair(d[i], d[i + 1]));
        i += 2;
    }
    crc.value
}

// The byte that two digits are.
fn pair(high: u8, low: u8) -> u8
    requires t { T (is_hex high) }
    requires t_2 { T (is_hex low) }
    ensures { result ≡ hex_pair high low }
{
    place(high) * 16 + place(low)
}

// The value of a character that is a digit, which is known of it: the formula alone, without a branch. Links have any digits, and a branch
// on which range a digit is of would be guessed wrongly half of the time.
fn place(c: u8) -> u8
    ensures { result ≡ place_of c }
{
    if c < b'A' {
        return c % 16;
    }
    (c % 16 + 9) % 16
}
