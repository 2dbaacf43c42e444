// Hex digits, upper case only: a lower-case letter is no digit. The digits are two ranges of characters, `0` to `9` and `A` to `F`.
ghost use Rattle.std.specs.Prelude.{◌≡◌, ◌%◌};
ghost use Rattle.digits.specs.Paper.Hex.{hex_digit, hex_byte, hex_word};
ghost use Rattle.digits.specs.Paper.Answers.{ReadsDigit, ReadsByte, ReadsWord};

// The digit of the low four bits of v.
pub fn digit(v: u8) -> u8
    ensures { result ≡ hex_digit (v % 16) }
{
    let n = v % 16;
    if n < 10 {
        return b'0' + n;
    }
    b'A' + (n - 10)
}

// The value of a digit. The tests go from the last character down: in this order the search is smallest and quickest (docs/DECISIONS.md).
pub fn value(c: u8) -> Option<u8>
    ensures { ReadsDigit c result }
{
    if b'F' < c {
        return None;
    }
    if b'A' <= c {
        return Some(c - b'A' + 10);
    }
    if b'9' < c {
        return None;
    }
    if b'0' <= c {
        return Some(c - b'0');
    }
    None
}

// A byte as two digits, the high one first.
pub fn two_digits(b: u8) -> [u8; 2]
    ensures { result ≡ hex_byte b }
{
    [digit(b / 16), digit(b)]
}

// The byte that two digits are.
pub fn byte_of(high: u8, low: u8) -> Option<u8>
    ensures { ReadsByte high low result }
{
    Some(value(high)? * 16 + value(low)?)
}

// A number of 16 bits as four digits.
pub fn four_digits(n: u16) -> [u8; 4]
    ensures { result ≡ hex_word n }
{
    let high = two_digits((n / 256) as u8);
    let low = two_digits((n % 256) as u8);
    [high[0], high[1], low[0], low[1]]
}

// The number that four digits are.
pub fn word_of(d: [u8; 4]) -> Option<u16>
    ensures { ReadsWord d result }
{
    let high = byte_of(d[0], d[1])?;
    let low = byte_of(d[2], d[3])?;
    Some((high as u16) * 256 + low as u16)
}
