// Strings, in UTF-8.
ghost use Rattle.std.specs.Prelude.{◌≡◌};
ghost use Rattle.jsontext.specs.Paper.Abnf.{range};
ghost use Rattle.jsontext.specs.Paper.Json.{string, HEXDIG};
ghost use Rattle.jsontext.specs.Work.Tight.{Char, Lead, escapes, is_short, IsHex, four, two, three};
ghost use Rattle.digits.specs.Paper.Read.{Decides};
ghost use Rattle.jsontext.specs.Work.Found.{Found};

// The end of the string that stands at a place.
pub(crate) fn string(s: &[u8], p: usize) -> Option<usize>
    ensures { Found string s.now p result }
{
    if s.len() <= p {
        return None;
    }
    if s[p] != b'"' {
        return None;
    }
    let mut i = p + 1;
    // (A `while`: a step is as long as the character that was read.)
    while i < s.len() {
        if s[i] == b'"' {
            return Some(i + 1);
        }
        // (No `?` here, nor at the members of an object: with it a text of strings takes up to three times as long.)
        let Some(e) = character(s, i) else {
            return None;
        };
        i = e;
    }
    None
}

// The end of the character, escaped or not, that stands at a place.
fn character(s: &[u8], p: usize) -> Option<usize>
    ensures { Found Char s.now p result }
{
    if s.len() <= p {
        return None;
    }
    let b = s[p];
    if b == b'\\' {
        return escaped(s, p + 1);
    }
    if b < 0x20 {
        return None;
    }
    if b == b'"' {
        return None;
    }
    if b < 0x80 {
        return Some(p + 1);
    }
    if b < 0xC2 {
        return None;
    }
    if b < 0xE0 {
        return within(s, p + 1, 0x80, 0xBF);
    }
    if b == 0xE0 {
        return two_more(s, p + 1, 0xA0, 0xBF);
    }
    if b == 0xED {
        return two_more(s, p + 1, 0x80, 0x9F);
    }
    if b < 0xF0 {
        return two_more(s, p + 1, 0x80, 0xBF);
    }
    if b == 0xF0 {
        return three_more(s, p + 1, 0x90, 0xBF);
    }
    if b < 0xF4 {
        return three_more(s, p + 1, 0x80, 0xBF);
    }
    if b == 0xF4 {
        return three_more(s, p + 1, 0x80, 0x8F);
    }
    None
}

fn escaped(s: &[u8], p: usize) -> Option<usize>
    ensures { Found (Lead escapes) s.now p result }
{
    if s.len() <= p {
        return None;
    }
    let b = s[p];
    if b == b'u' {
        return four_digits(s, p + 1);
    }
    if is_short(b) {
        return Some(p + 1);
    }
    None
}

fn is_short(b: u8) -> bool
    ensures { result ≡ is_short b }
{
    if b == 0x22 {
        return true;
    }
    if b == 0x5C {
        return true;
    }
    if b == 0x2F {
        return true;
    }
    if b == 0x62 {
        return true;
    }
    if b == 0x66 {
        return true;
    }
    if b == 0x6E {
        return true;
    }
    if b == 0x72 {
        return true;
    }
    if b == 0x74 {
        return true;
    }
    false
}

fn four_digits(s: &[u8], p: usize) -> Option<usize>
    ensures { Found four s.now p result }
{
    let a = digit(s, p)?;
    let b = digit(s, a)?;
    let c = digit(s, b)?;
    digit(s, c)
}

fn digit(s: &[u8], p: usize) -> Option<usize>
    ensures { Found HEXDIG s.now p result }
{
    if s.len() <= p {
        return None;
    }
    if !is_hex(s[p]) {
        return None;
    }
    Some(p + 1)
}

fn is_hex(b: u8) -> bool
    ensures { Decides (IsHex b) result }
{
    if b < 0x30 {
        return false;
    }
    if b <= 0x39 {
        return true;
    }
    if b < 0x41 {
        return false;
    }
    if b <= 0x46 {
        return true;
    }
    if b < 0x61 {
        return false;
    }
    if b <= 0x66 {
        return true;
    }
    false
}

// The end of a byte in a range.
fn within(s: &[u8], p: usize, low: u8, high: u8) -> Option<usize>
    ensures { Found (range low high) s.now p result }
{
    if s.len() <= p {
        return None;
    }
    if s[p] < low {
        return None;
    }
    if high < s[p] {
        return None;
    }
    Some(p + 1)
}

// The same, and one or two bytes of a character's tail.
fn two_more(s: &[u8], p: usize, low: u8, high: u8) -> Option<usize>
    ensures { Found (two low high) s.now p result }
{
    let a = within(s, p, low, high)?;
    within(s, a, 0x80, 0xBF)
}

fn three_more(s: &[u8], p: usize, low: u8, high: u8) -> Option<usize>
    ensures { Found (three low high) s.now p result }
{
    let a = within(s, p, low, high)?;
    two_more(s, a, 0x80, 0xBF)
}
