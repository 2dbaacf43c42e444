// The lines of a sheet, and the tests that each has to pass.
ghost use Rattle.std.specs.Prelude.{◌≡◌, ◌≤◌, ◌<◌, length};
ghost use Rattle.sheet.specs.Paper.Fault.{up_to};
ghost use Rattle.sheet.specs.Work.Lines.{Scans, ReadsLine, FirstLine, FieldsAre, NumberBelow, TypeNumbered, comma_at};

use super::faults::{Fault, Test};
use digits::slices;

// The first line of a text that passes the tests: its register, its type's byte in a map, and its length with its LF.
#[derive(Clone, Copy)]
pub(crate) struct Line {
    pub register: u32,
    pub byte: u8,
    pub length: usize,
}

// How many rows a sheet has; or what is wrong with a text that is no sheet.
pub(crate) fn scan(text: &[u8]) -> Result<usize, Fault>
    ensures { Scans text.now result }
{
    let mut left = text;
    let mut least: u32 = 0;
    let mut number: usize = 1;
    // (A `while`, as in `maps::fill`: a step is as long as the line that was read.)
    while !left.is_empty() {
        match first(left, least, number) {
            Ok(line) => {
                left = &left[line.length..];
                least = line.register + 1;
                number += 1;
            }
            Err(test) => {
                return Err(Fault { line: number, test });
            }
        }
    }
    Ok(number - 1)
}

// The first line of s, which is the line of that number; registers below `least` do not rise.
pub(crate) fn first(s: &[u8], least: u32, number: usize) -> Result<Line, Test>
    ensures { ReadsLine least number s.now result }
{
    let line = fields(s)?;
    let register = line.register;
    if register < least {
        return Err(Test::NotRising);
    }
    if 500 < number {
        return Err(Test::Over500);
    }
    if line.length == s.len() {
        return Err(Test::NoLastLF);
    }
    Ok(Line {
        length: line.length + 1,
        ..line
    })
}

// The fields of the first line of s: the tests of its form, register, type and decimals; and its length, here without its LF. A line is
// looked through once.
fn fields(s: &[u8]) -> Result<Line, Test>
    ensures { FirstLine s.now result }
{
    let a = comma(s).ok_or(Test::Form)?;
    let rest = &s[a + 1..];
    let b = comma(rest).ok_or(Test::Form)?;
    let behind = &rest[b + 1..];
    let c = up_to(b'\n', behind);
    let third = &behind[..c];
    if third.contains(&b',') {
        return Err(Test::Form);
    }
    let (register, byte) = of_fields(&s[..a], &rest[..b], third)?;
    Ok(Line {
        register,
        byte,
        length: a + b + c + 2,
    })
}

// The register and the type's byte that three fields say.
fn of_fields(register: &[u8], name: &[u8], decimals: &[u8]) -> Result<(u32, u8), Test>
    ensures { FieldsAre register.now name.now decimals.now result }
{
    let n = number_below(register, 65536).ok_or(Test::Register)?;
    let t = type_number(name).ok_or(Test::TypeName)?;
    let d = number_below(decimals, 4).ok_or(Test::Decimals)?;
    Ok((n, 1 + 4 * t + d as u8))
}

// The number below `most` whose digits s is, if there is one. (`decimal::number_of` would do, but the must-fail edit
// `leading_zero_taken` changes the line that refuses one.)
fn number_below(s: &[u8], most: u32) -> Option<u32>
    requires { (0 < most) × (most ≤ 65536) }
    ensures { NumberBelow most s.now result }
{
    if s.is_empty() {
        return None;
    }
    if 5 < s.len() {
        return None;
    }
    if s[0] == b'0' {
        if s.len() == 1 {
            return Some(0);
        }
        return None;
    }
    let mut n: u32 = 0;
    for c in s {
        if *c < b'0' {
            return None;
        }
        if b'9' < *c {
            return None;
        }
        n = 10 * n + (*c - b'0') as u32;
    }
    if n < most {
        return Some(n);
    }
    None
}

// The number of the type of that name, if there is one. (A chain of tests: a match on byte strings tells the proof their lengths alone.)
fn type_number(name: &[u8]) -> Option<u8>
    ensures { TypeNumbered name.now result }
{
    if slices::same(name, b"u8") {
        return Some(0);
    }
    if slices::same(name, b"s8") {
        return Some(1);
    }
    if slices::same(name, b"u16") {
        return Some(2);
    }
    if slices::same(name, b"s16") {
        return Some(3);
    }
    if slices::same(name, b"u32") {
        return Some(4);
    }
    if slices::same(name, b"s32") {
        return Some(5);
    }
    None
}

// How many bytes of s stand before the first c.
fn up_to(c: u8, s: &[u8]) -> usize
    ensures { result ≡ length (up_to c s.now) }
{
    s.iter().position(|x| *x == c).unwrap_or(s.len())
}

// Where the first line of s has its first comma, if it has one.
fn comma(s: &[u8]) -> Option<usize>
    ensures { result ≡ comma_at s.now }
{
    for (i, x) in s.iter().enumerate() {
        if *x == b',' {
            return Some(i);
        }
        if *x == b'\n' {
            return None;
        }
    }
    None
}
