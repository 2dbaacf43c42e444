// Whole numbers, as 01 spells them.
ghost use Rattle.std.specs.Prelude.{◌≡◌, pos};
ghost use Rattle.digits.specs.Paper.Read.{Decides};
ghost use Rattle.numbers.specs.Paper.Raw.{Raw};
ghost use Rattle.shapes.specs.Paper.Fields.{plain, whole};
ghost use Rattle.shapes.specs.Paper.Shapes.{number};
ghost use Rattle.asked.specs.Work.Got.{mapped, Reads, between, Within, SpellsWhole, SpellsPositive};

use crate::values::Reason;
use numbers::text;

// A whole number from `least` to `most`.
pub(crate) fn whole(v: &[u8], least: i64, most: i64) -> Result<i64, Reason>
    requires { Raw least × Raw most }
    ensures { Reads v.now number (between least most) (mapped (λ z. plain (whole z)) result) }
{
    match text::read(v) {
        Ok(read) => {
            if read.decimals != 0 {
                return Err(Reason::NoValue);
            }
            within(read.raw, least, most)
        }
        Err(why) => {
            if is_whole(v) {
                Err(Reason::Large)
            } else {
                Err(Reason::NoValue)
            }
        }
    }
}

// A number, if it is in the range.
pub(crate) fn within(raw: i64, least: i64, most: i64) -> Result<i64, Reason>
    ensures { Within raw least most result }
{
    if raw < least {
        return Err(Reason::Large);
    }
    if most < raw {
        return Err(Reason::Large);
    }
    Ok(raw)
}

// Whether a text is a whole number of any size.
fn is_whole(v: &[u8]) -> bool
    ensures { Decides (SpellsWhole v.now) result }
{
    if v.len() == 0 {
        return false;
    }
    if v[0] == b'0' {
        return v.len() == 1;
    }
    if v[0] == b'-' {
        return is_positive(&v[1..]);
    }
    is_positive(v)
}

// Whether a text is the digits of a number above zero.
fn is_positive(d: &[u8]) -> bool
    ensures { Decides (SpellsPositive d.now) result }
{
    if d.len() == 0 {
        return false;
    }
    if d[0] < b'1' {
        return false;
    }
    for c in d {
        if *c < b'0' {
            return false;
        }
        if b'9' < *c {
            return false;
        }
    }
    true
}
