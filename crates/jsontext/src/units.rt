// The code units of a string, read one by one from its bytes: escapes are read, and UTF-8 becomes UTF-16. A string that is read here has been
// tested before, so nothing is tested again: of bytes that are no string, some units come out.
ghost use Rattle.std.specs.Prelude.{cond, ◌≡◌, ◌≤◌, ◌<◌, eqb, get_or, drop};
ghost use Rattle.std.specs.Iterator.{YieldsFirst, item_count};
ghost use Rattle.digits.specs.Paper.Read.{Decides};
ghost use Rattle.jsontext.specs.Work.Names.{left};
ghost use Rattle.jsontext.specs.Work.Units.{hex_value, short_value, size_of, escape_of, code_of, two_of, three_of, four_of, name_in};

// What is left of a string. A character of four bytes has two units: `low` is the second of them until it is taken.
#[derive(Drop)]
pub(crate) struct Units<'a> {
    rest: &'a [u8],
    low: Option<u32>,
}

impl<'a> Units<'a> {
    // The units of the string whose quotation mark stands at a place; none for a place that is not in the text.
    pub(crate) fn of(s: &'a [u8], p: usize) -> Units<'a>
        ensures { left result.low result.rest.now ≡ name_in (drop p s.now) }
    {
        Units {
            rest: behind(s, p),
            low: None,
        }
    }
}

impl<'a> Iterator for Units<'a> {
    type Item = u32;

    ghost next_gives = { YieldsFirst (λ u. left u.low u.rest.now) };

    ghost remaining = { item_count (λ u. left u.low u.rest.now) };

    fn next(&mut self) -> Option<u32> {
        if let Some(low) = self.low {
            self.low = None;
            return Some(low);
        }
        let t = self.rest;
        if t.is_empty() {
            return None;
        }
        if t[0] == b'"' {
            return None;
        }
        self.rest = &t[size_of(t).min(t.len())..];
        if 0xF0 <= t[0] {
            let code = four_of(t);
            self.low = Some(0xDC00 + code % 0x400);
            return Some(0xD7C0 + code / 0x400);
        }
        Some(code_of(t))
    }
}

// Whether the strings whose quotation marks stand at two places have the same units.
pub(crate) fn same_name(s: &[u8], a: usize, b: usize) -> bool
    ensures { Decides (name_in (drop a s.now) ≡ name_in (drop b s.now)) result }
{
    let mut others = Units::of(s, b);
    for u in Units::of(s, a) {
        let Some(other) = others.next() else {
            return false;
        };
        if u != other {
            return false;
        }
    }
    others.next().is_none()
}

// What stands behind the byte at a place; nothing for a place that is not in the text.
fn behind(s: &[u8], p: usize) -> &[u8]
    ensures { result.now ≡ drop 1 (drop p s.now) }
{
    if p < s.len() {
        return &s[p + 1..];
    }
    &[]
}

// How many bytes the character at the head of t has.
fn size_of(t: &[u8]) -> usize
    ensures { result ≡ size_of t.now }
{
    let b = byte_at(t, 0);
    if b == 0x5C {
        return escape_size(byte_at(t, 1));
    }
    if b < 0x80 {
        return 1;
    }
    if b < 0xE0 {
        return 2;
    }
    if b < 0xF0 {
        return 3;
    }
    4
}

// The same of an escaped character, by what stands behind `\`.
fn escape_size(b: u32) -> usize
    ensures { result ≡ cond (eqb b 0x75) 6 2 }
{
    if b == 0x75 {
        return 6;
    }
    2
}

// The unit of a character of less than four bytes, or of an escaped one.
fn code_of(t: &[u8]) -> u32
    ensures { result ≡ code_of t.now }
{
    let b = byte_at(t, 0);
    if b == 0x5C {
        return escape_of(t);
    }
    if b < 0x80 {
        return b;
    }
    if b < 0xE0 {
        return two_of(t);
    }
    three_of(t)
}

// Behind `\`: `u` and four digits, or one character.
fn escape_of(t: &[u8]) -> u32
    ensures { result ≡ escape_of t.now }
{
    let b = byte_at(t, 1);
    if b != 0x75 {
        return short_value(b);
    }
    let high = hex_value(byte_at(t, 2)) * 16 + hex_value(byte_at(t, 3));
    let low = hex_value(byte_at(t, 4));
    (high * 16 + low) * 16 + hex_value(byte_at(t, 5))
}

// UTF-8 of two, three and four bytes.
fn two_of(t: &[u8]) -> u32
    ensures { result ≡ two_of t.now }
{
    byte_at(t, 0) % 32 * 64 + byte_at(t, 1) % 64
}

fn three_of(t: &[u8]) -> u32
    ensures { result ≡ three_of t.now }
{
    byte_at(t, 0) % 16 * 4096 + byte_at(t, 1) % 64 * 64 + byte_at(t, 2) % 64
}

fn four_of(t: &[u8]) -> u32
    ensures { (result ≡ four_of t.now) × (result < 2097152) }
{
    byte_at(t, 0) % 8 * 262144
        + byte_at(t, 1) % 64 * 4096
        + byte_at(t, 2) % 64 * 64
        + byte_at(t, 3) % 64
}

// A byte; 0 behind the end.
fn byte_at(t: &[u8], i: usize) -> u32
    ensures { (result ≡ get_or t.now i 0) × (result < 256) }
{
    if i < t.len() {
        return t[i] as u32;
    }
    0
}

// The value of a hex digit. (Not `digits::hex::value`: of a byte that is no digit the definition has a value too.)
fn hex_value(c: u32) -> u32
    ensures { (result ≡ hex_value c) × (result ≤ 24) }
{
    if c < 0x40 {
        return c % 16;
    }
    c % 16 + 9
}

// What a character behind `\` means.
fn short_value(c: u32) -> u32
    ensures { result ≡ short_value c }
{
    match c {
        0x62 => 0x08,
        0x66 => 0x0C,
        0x6E => 0x0A,
        0x72 => 0x0D,
        0x74 => 0x09,
        _ => c,
    }
}
