// Decimal digits without leading zeros, and back.
ghost use Rattle.std.specs.Prelude.{◌≡◌, ◌≤◌, ◌<◌, length};
ghost use Rattle.digits.specs.Paper.Decimal.{decimal};
ghost use Rattle.digits.specs.Paper.Answers.{AtEnd, ReadsDecimal};
ghost use Rattle.digits.specs.Work.Decimal.{guess};

use super::slices;

// The digits of a number: they are the characters from `from` on, and the characters before are 0. (An array with a place
// in it, not a String: the library uses no heap.)
#[derive(Clone, Copy, Debug, PartialEq, Eq)]
pub struct Decimal {
    pub chars: [u8; 20],
    pub from: usize,
}

// The digits of n. (A loop by its condition, since how many digits there are shows only as they are made.)
pub fn digits(n: u64) -> Decimal
    ensures { AtEnd 20 (decimal n) result.chars result.from }
{
    let mut chars = [0u8; 20];
    let mut from: usize = 19;
    let mut rest = n;
    while 9 < rest {
        chars[from] = b'0' + (rest % 10) as u8;
        rest = rest / 10;
        from -= 1;
    }
    chars[from] = b'0' + rest as u8;
    Decimal { chars, from }
}

// The number whose digits are the characters of s.
pub fn number_of(s: &[u8]) -> Option<u32>
    ensures { ReadsDecimal s.now result }
{
    if 10 < s.len() {
        return None;
    }
    let n = guessed(s);
    if 0xFFFF_FFFF < n {
        return None;
    }
    let d = digits(n);
    let chars = d.chars;
    let from = d.from;
    if slices::same(&chars[from..20], s) {
        return Some(n as u32);
    }
    None
}

// The number that the characters of s make if each is taken for a digit. (`0` is 48, so adding 2 makes the character of a digit end in
// its value.)
fn guessed(s: &[u8]) -> u64
    requires { length s.now ≤ 10 }
    ensures { result ≡ guess 0 s.now }
{
    let mut n: u64 = 0;
    for c in s {
        n = n * 10 + (*c as u64 + 2) % 10;
    }
    n
}
