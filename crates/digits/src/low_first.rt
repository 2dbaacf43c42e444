// Numbers as 1, 2, 4 or 8 bytes, low byte first, and back from 1, 2 or 4.
ghost use Rattle.std.specs.Prelude.{◌≡◌, ◌≤◌, length};
ghost use Rattle.digits.specs.Paper.LowFirst.{low_byte_first};
ghost use Rattle.digits.specs.Paper.Answers.{ReadsNumber};
ghost use Rattle.digits.specs.Paper.LowFirst.{low_value};

pub fn one(n: u8) -> [u8; 1]
    ensures { result ≡ low_byte_first 1 n }
{
    [n]
}

pub fn two(n: u16) -> [u8; 2]
    ensures { result ≡ low_byte_first 2 n }
{
    u16::to_le_bytes(n)
}

pub fn four(n: u32) -> [u8; 4]
    ensures { result ≡ low_byte_first 4 n }
{
    u32::to_le_bytes(n)
}

pub fn eight(v: u64) -> [u8; 8]
    ensures { result ≡ low_byte_first 8 v }
{
    u64::to_le_bytes(v)
}

// The number that the bytes of s are.
pub fn number_of(s: &[u8]) -> Option<u32>
    ensures { ReadsNumber s.now result }
{
    let n = s.len();
    if n == 1 {
        return Some(value(s));
    }
    if n == 2 {
        return Some(value(s));
    }
    if n == 4 {
        return Some(value(s));
    }
    None
}

// The number that at most four bytes are.
fn value(s: &[u8]) -> u32
    requires { length s.now ≤ 4 }
    ensures { result ≡ low_value s.now }
{
    let mut n: u64 = 0;
    for i in (0..s.len()).rev() {
        n = s[i] as u64 + n * 256;
    }
    n as u32
}
