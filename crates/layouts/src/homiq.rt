// Homiq: `<;CMD;VAL;SRC;DST;ID;TYPE;CRC;>` CR LF.
ghost use Rattle.std.specs.Prelude.{true, ◌≡◌, [], ◌∷◌, ◌≤◌, ◌<◌, ◌^◌, length, take};
ghost use Rattle.digits.specs.Paper.Ascii.{ascii};
ghost use Rattle.digits.specs.Paper.Decimal.{decimal};
ghost use Rattle.digits.specs.Paper.Read.{Decides};
ghost use Rattle.digits.specs.Work.Decimal.{guess};
ghost use Rattle.checks.specs.Paper.Check.{feed, check};
ghost use Rattle.checks.specs.Paper.Buses.{homiq_crc};
ghost use Rattle.layouts.specs.Paper.Chars.{one_of};
ghost use Rattle.layouts.specs.Paper.Judged.{Recognises};
ghost use Rattle.layouts.specs.Paper.Homiq.{homiq, field_char, without_separators};
ghost use Rattle.layouts.specs.Paper.Starts.{homiq_starts};
ghost use Rattle.layouts.specs.Paper.Made.{Wire, Payload};
ghost use Rattle.layouts.specs.Work.Heads.{Ends, starts, leading};
ghost use Rattle.layouts.specs.Work.Homiq.{field_len, is_figure, NumberAt, FormAt, head_len, five_within};

use super::{Compared, Failure, Frame, Test, words};
use checks::homiq::Crc;

// IDs are 0 to this one, and 0 follows it.
pub const LAST_ID: u16 = 511;

// What stands at the head of s; a frame's payload is CMD to TYPE. Tested in this order: `<;`, the fields with CR LF, the CRC.
pub fn frame(s: &[u8]) -> Result<Frame, Failure>
    ensures { Recognises homiq s.now result }
{
    if !words::starts_with(s, b"<;") {
        return Err(Failure::from(Test::Start));
    }
    let Some(form) = laid_out(s) else {
        return Err(Failure::from(Test::Fields));
    };
    let check = Compared {
        found: form.crc,
        expected: crc(&s[2..form.before]) as u16,
    };
    if check.found != check.expected {
        return Err(check.failing(Test::First));
    }
    Ok(Frame {
        len: form.len,
        from: 2,
        to: form.before - 1,
    })
}

// What is laid out as a frame: where TYPE's `;` ends, the CRC that stands there, and how long the whole is.
#[derive(Clone, Copy)]
struct Form {
    before: usize,
    crc: u16,
    len: usize,
}

// What is laid out so behind `<;`.
fn laid_out(s: &[u8]) -> Option<Form>
    requires { starts (ascii "<;") s.now ≡ true }
    ensures { FormAt s.now result }
{
    let before = head(s)?;
    let claimed = number(&s[before..], 255)?;
    let len = words::word_at(s, before + claimed.end, b">\r\n")?;
    Some(Form {
        before,
        crc: claimed.value,
        len,
    })
}

// Whether a frame can begin with the first three bytes of s: `<;`.
pub fn may_start(s: &[u8]) -> bool
    ensures { result ≡ homiq_starts s.now }
{
    if s.len() < 3 {
        return false;
    }
    (s[0] == b'<') & (s[1] == b';')
}

// The CRC that closes a payload, CMD to TYPE: over its characters without the separators.
pub fn crc(s: &[u8]) -> u8
    ensures { result ≡ check homiq_crc (without_separators s.now) }
{
    let mut sum = Crc::new();
    for c in s {
        sum = crc_on(sum, *c);
    }
    sum.value
}

// Whether p is CMD;VAL;SRC;DST;ID;TYPE of fields within their limits: five fields with their `;`, and then TYPE, with which it ends.
pub fn is_payload(p: &[u8]) -> bool
    ensures { Decides ((w : Wire) × Payload p.now w) result }
{
    let Some(last) = five(p, LAST_ID) else {
        return false;
    };
    if p.len() != last + 1 {
        return false;
    }
    is_type(p[last])
}

// The end of CMD to ID, each with its `;`, where an ID is at most `last`.
fn five(p: &[u8], last: u16) -> Option<usize>
    requires { last < 1000 }
    ensures { Ends (five_within last) p.now result }
{
    let cmd = field(p, 8)?;
    let val = cmd + field(&p[cmd..], 16)?;
    let src = val + field(&p[val..], 4)?;
    let dst = src + field(&p[src..], 4)?;
    let id = number(&p[dst..], last)?;
    Some(dst + id.end)
}

fn is_type(c: u8) -> bool
    ensures { result ≡ one_of (ascii "sa") c }
{
    if c == b's' {
        return true;
    }
    c == b'a'
}

// The end of `<;` and six fields, each with its `;`.
fn head(s: &[u8]) -> Option<usize>
    requires { starts (ascii "<;") s.now ≡ true }
    ensures { Ends head_len s.now result }
{
    let id = 2 + five(&s[2..], LAST_ID)?;
    words::word_at(s, id, b"s;").or(words::word_at(s, id, b"a;"))
}

// The end of a field of at most `most` characters, with its `;`.
fn field(s: &[u8], most: usize) -> Option<usize>
    requires { most < 2 ^ 32 }
    ensures { Ends (field_len most) s.now result }
{
    let n = characters(words::first(s, most + 1));
    if n == 0 {
        return None;
    }
    if most < n {
        return None;
    }
    if s.len() <= n {
        return None;
    }
    if s[n] != b';' {
        return None;
    }
    Some(n + 1)
}

// How many characters of a field are at the head of s.
fn characters(s: &[u8]) -> usize
    ensures { result ≡ leading field_char s.now }
{
    for i in 0..s.len() {
        if !is_character(s[i]) {
            return i;
        }
    }
    s.len()
}

fn is_character(c: u8) -> bool
    ensures { result ≡ field_char c }
{
    if c < 0x21 {
        return false;
    }
    if 0x7E < c {
        return false;
    }
    if c == b';' {
        return false;
    }
    if c == b'<' {
        return false;
    }
    c != b'>'
}

// A number that has been read: where it ends, and what it is. Its digits are read once, for both.
#[derive(Clone, Copy)]
struct Numeral {
    end: usize,
    value: u16,
}

// The number of at most `most` at the head of s; its end is that of its `;`. (A part of its callers: by a call, an answer with a number and its end
// would go through memory, and short frames would cost the search a quarter more.)
#[inline(always)]
fn number(s: &[u8], most: u16) -> Option<Numeral>
    requires { most < 1000 }
    ensures { NumberAt most s.now result }
{
    let digits = figures(words::first(s, 4));
    let n = digits.end;
    let v = digits.value;
    if most < v {
        return None;
    }
    // none at all, or leading zeros
    if n != width(v) {
        return None;
    }
    if s.len() <= n {
        return None;
    }
    if s[n] != b';' {
        return None;
    }
    Some(Numeral {
        end: n + 1,
        value: v,
    })
}

// How many decimal digits a number below 1,000 has.
fn width(v: u16) -> usize
    requires { v < 1000 }
    ensures { result ≡ length (decimal v) }
{
    if v < 10 {
        return 1;
    }
    if v < 100 {
        return 2;
    }
    3
}

// The decimal digits at the head of s: how many there are, and the number that they are. `0` is 48, so that a digit's character
// ends in its value. (The loop ends with the slice. One that ends at 4 becomes four steps, and short frames cost a twentieth more.)
fn figures(s: &[u8]) -> Numeral
    requires { length s.now ≤ 4 }
    ensures end_value { result.end ≡ leading is_figure s.now }
    ensures value_value { result.value ≡ guess 0 (take result.end s.now) }
{
    let mut v: u16 = 0;
    for i in 0..s.len() {
        if !is_figure(s[i]) {
            return Numeral { end: i, value: v };
        }
        v = v * 10 + (s[i] % 16) as u16;
    }
    Numeral {
        end: s.len(),
        value: v,
    }
}

fn is_figure(c: u8) -> bool
    ensures { result ≡ is_figure c }
{
    if c < b'0' {
        return false;
    }
    c <= b'9'
}

// The CRC after a character, if that is not `;`.
fn crc_on(crc: Crc, c: u8) -> Crc
    ensures { result.value ≡ feed homiq_crc crc.value (without_separators (c ∷ [])) }
{
    if c != b';' {
        return crc.byte(c);
    }
    crc
}
