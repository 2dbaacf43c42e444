// Numbers as 1, 2 or 4 bytes, low byte first, signed (two's complement) or not, there and back.
ghost use Rattle.std.specs.Prelude.{◌≡◌, true, ◌^◌, ◌≤◌, ◌<◌, nat_abs, length};
ghost use Rattle.digits.specs.Paper.LowFirst.{Width};
ghost use Rattle.digits.specs.Paper.Read.{Decides};
ghost use Rattle.puts.specs.Paper.Wrote.{Writes};
ghost use Rattle.numbers.specs.Paper.Raw.{Raw};
ghost use Rattle.numbers.specs.Paper.ByteValues.{least, most, HeldBy, twos, value_bytes};
ghost use Rattle.numbers.specs.Paper.Answers.{ValueCause, AnswersValue};
ghost use Rattle.numbers.specs.Paper.ByteValues.{stands_below, of_twos};

use super::raw;
use digits::low_first;
use digits::refusal::Refusal;
use puts::Written;

// Writes a number as `width` bytes from the front of the room.
pub fn write(raw: i64, width: usize, signed: bool, room: &mut [u8]) -> Written
    ensures { Writes (ValueCause width signed raw (length room.old)) (value_bytes width raw) room.old result room.new }
{
    if !is_width(width) {
        return Err(Refusal::BadForm);
    }
    if !holds(raw, width, signed) {
        return Err(Refusal::OutOfLimits);
    }
    let four = low_first::four(in_twos(raw, width));
    puts::front(&four[0..width], room)
}

// The number that `width` bytes are.
pub fn read(s: &[u8], width: usize, signed: bool) -> Result<i64, Refusal>
    ensures { AnswersValue width signed s.now result }
{
    if !is_width(width) {
        return Err(Refusal::BadForm);
    }
    if s.len() != width {
        return Err(Refusal::OutOfLimits);
    }
    let Some(n) = low_first::number_of(s) else {
        return Err(Refusal::OutOfLimits);
    };
    Ok(of_twos(n, width, signed))
}

fn is_width(width: usize) -> bool
    ensures { Decides (Width width) result }
{
    if width == 1 {
        return true;
    }
    if width == 2 {
        return true;
    }
    if width == 4 {
        return true;
    }
    false
}

// Whether `width` bytes hold a number.
fn holds(raw: i64, width: usize, signed: bool) -> bool
    requires { Width width }
    ensures { Decides (HeldBy width signed raw) result }
{
    raw::between(smallest(width, signed), largest(width, signed), raw)
}

fn smallest(width: usize, signed: bool) -> i64
    requires { Width width }
    ensures { result ≡ least width signed }
{
    if !signed {
        return 0;
    }
    if width == 1 {
        return -128;
    }
    if width == 2 {
        return -32_768;
    }
    -2_147_483_648
}

fn largest(width: usize, signed: bool) -> i64
    requires { Width width }
    ensures { result ≡ most width signed }
{
    if signed {
        if width == 1 {
            return 127;
        }
        if width == 2 {
            return 32_767;
        }
        return 2_147_483_647;
    }
    if width == 1 {
        return 255;
    }
    if width == 2 {
        return 65_535;
    }
    4_294_967_295
}

// How many different numbers `width` bytes can be.
fn all(width: usize) -> u64
    requires { Width width }
    ensures { result ≡ 256 ^ width }
{
    if width == 1 {
        return 256;
    }
    if width == 2 {
        return 65_536;
    }
    4_294_967_296
}

// Two's complement: the number of `width` bytes that stands for a raw number which they hold.
fn in_twos(raw: i64, width: usize) -> u32
    requires { Width width × Raw raw × (nat_abs raw ≤ 256 ^ width) }
    ensures { result ≡ twos width raw }
{
    let n = raw::magnitude(raw);
    if raw::below_zero(raw) {
        return (all(width) - n as u64) as u32;
    }
    n
}

// The raw number for which a number of `width` bytes stands.
fn of_twos(n: u32, width: usize, signed: bool) -> i64
    requires { Width width × (n < 256 ^ width) }
    ensures { result ≡ of_twos width signed n }
{
    if stands_below_zero(n, width, signed) {
        return raw::with_sign(true, all(width) - n as u64);
    }
    raw::with_sign(false, n as u64)
}

fn stands_below_zero(n: u32, width: usize, signed: bool) -> bool
    requires { Width width }
    ensures { result ≡ stands_below width signed n }
{
    if signed {
        return all(width) <= 2 * n as u64;
    }
    false
}
