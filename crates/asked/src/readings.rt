// Readings: a raw number with its decimals, its text, and whether a single holds it, all of which must agree.
ghost use Rattle.std.specs.Prelude.{cond, ◌≡◌, ◌-◌, ◌≤◌, pos};
ghost use Rattle.digits.specs.Paper.Ascii.{ascii};
ghost use Rattle.digits.specs.Paper.Read.{Decides};
ghost use Rattle.numbers.specs.Paper.Raw.{Raw};
ghost use Rattle.numbers.specs.Paper.Single.{fits_single};
ghost use Rattle.numbers.specs.Paper.Text as numerals;
ghost use Rattle.jsontext.specs.Paper.Members.{IsString};
ghost use Rattle.shapes.specs.Paper.Fields.{◌∶◌, plain, whole, reading};
ghost use Rattle.asked.specs.Paper.Field.{Spells, Has};
ghost use Rattle.shapes.specs.Paper.Shapes.{measured};
ghost use Rattle.asked.specs.Work.Got.{mapped, Reads, between, FourMembers, pointed, beyond_of};

use crate::values::Reason;
use crate::{strings, values, wholes};
use digits::slices;
use numbers::{single, text};

// 01's raw numbers.
const LEAST_RAW: i64 = -2147483648;

const MOST_RAW: i64 = 4294967295;

// How many members a reading has.
const MEMBERS: usize = 4;

// A reading with so many decimals, whose raw number is from `least` to `most`. The room is for the digits of its text.
pub(crate) fn reading(
    v: &[u8],
    decimals: u32,
    least: i64,
    most: i64,
    digits: &mut [u8; strings::MOST],
) -> Result<i64, Reason>
    requires { (decimals ≤ 3) × Raw least × Raw most }
    ensures { Reads v.now (measured decimals) (between least most) (mapped (λ z. reading z decimals) result) }
{
    if !has_four(v) {
        return Err(Reason::NoValue);
    }
    if !has_decimals(v, decimals) {
        return Err(Reason::NoValue);
    }
    let single = values::truth(values::value(v, b"f32"))?;
    let written = values::value(v, b"text");
    let raw = match wholes::whole(values::value(v, b"raw"), LEAST_RAW, MOST_RAW) {
        Ok(raw) => raw,
        Err(Reason::NoValue) => return Err(Reason::NoValue),
        Err(Reason::Large) => {
            let agrees = is_pointed(values::value(v, b"raw"), decimals, written, digits);
            return Err(beyond(agrees));
        }
    };
    if !fits_so(raw, single) {
        return Err(Reason::NoValue);
    }
    if !is_text(raw, decimals, written) {
        return Err(Reason::NoValue);
    }
    wholes::within(raw, least, most)
}

// Why a raw number out of 01's range is not answered: it is read, and not held, if its text agrees.
fn beyond(agrees: bool) -> Reason
    ensures { result ≡ beyond_of agrees }
{
    if agrees {
        Reason::Large
    } else {
        Reason::NoValue
    }
}

// Whether a text is an object of four members, by the grammar.
fn has_four(v: &[u8]) -> bool
    ensures { Decides (FourMembers v.now) result }
{
    if !jsontext::accepts(v) {
        return false;
    }
    crate::has_so_many(v, MEMBERS)
}

// Whether the member `dec` of an object is this number.
fn has_decimals(v: &[u8], decimals: u32) -> bool
    requires { decimals ≤ 3 }
    ensures { Decides (Has Spells v.now (ascii "dec" ∶ plain (whole (pos decimals)))) result }
{
    let Ok(dec) = wholes::whole(values::value(v, b"dec"), 0, 3) else {
        return false;
    };
    dec == decimals as i64
}

// Whether f32 is said as it is of a raw number.
fn fits_so(raw: i64, is: bool) -> bool
    requires { Raw raw }
    ensures { Decides (is ≡ fits_single raw) result }
{
    single::fits(raw).unwrap_or(false) == is
}

// Whether a value is the string of the text of a raw number.
fn is_text(raw: i64, decimals: u32, v: &[u8]) -> bool
    requires { Raw raw × (decimals ≤ 3) }
    ensures { Decides (IsString v.now (numerals.text raw decimals)) result }
{
    let mut spelt = [0u8; 12];
    let Ok(len) = strings::chars(v, &mut spelt) else {
        return false;
    };
    let mut right = [0u8; 12];
    let Ok(n) = text::write(raw, decimals, &mut right) else {
        return false;
    };
    slices::same(&spelt[0..len], &right[0..n])
}

// Whether a value is the string of a whole number's digits with a point before the last of them.
fn is_pointed(whole: &[u8], decimals: u32, v: &[u8], digits: &mut [u8; strings::MOST]) -> bool
    requires { decimals ≤ 3 }
    ensures { Decides (IsString v.now (pointed decimals whole.now)) result }
{
    let Ok(len) = strings::chars(v, digits) else {
        return false;
    };
    let all = &digits[..];
    is_pointed_so(whole, decimals as usize, &all[0..len])
}

// Whether characters are digits with a point before the last of them.
fn is_pointed_so(whole: &[u8], decimals: usize, s: &[u8]) -> bool
    ensures { Decides (s.now ≡ pointed decimals whole.now) result }
{
    if decimals == 0 {
        return slices::same(s, whole);
    }
    let at = front(whole.len(), decimals);
    if s.len() != whole.len() + 1 {
        return false;
    }
    if !slices::same(&s[0..at], &whole[0..at]) {
        return false;
    }
    if s[at] != b'.' {
        return false;
    }
    slices::same(&s[at + 1..], &whole[at..])
}

// How many of so many characters stand before the last n.
fn front(len: usize, n: usize) -> usize
    ensures { result ≡ len - n }
{
    if len < n {
        return 0;
    }
    len - n
}
