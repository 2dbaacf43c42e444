// Nibe: C0, command, length, data, check.
ghost use Rattle.std.specs.Prelude.{◌≡◌, ◌≤◌, length};
ghost use Rattle.layouts.specs.Paper.Chars.{one_of};
ghost use Rattle.layouts.specs.Paper.Judged.{Recognises};
ghost use Rattle.layouts.specs.Paper.Nibe.{nibe, commands};
ghost use Rattle.layouts.specs.Paper.Starts.{nibe_starts};
ghost use Rattle.layouts.specs.Work.Heads.{Lasts};
ghost use Rattle.layouts.specs.Work.Nibe.{claimed_len, nibe_pair};

use super::{Compared, Failure, Frame, Test};
use checks::nibe::Xor;

// What stands at the head of s; a frame's payload is the data. Tested in this order: the start mark, the count of bytes, the command, the check.
pub fn frame(s: &[u8]) -> Result<Frame, Failure>
    ensures { Recognises nibe s.now result }
{
    if s.len() == 0 {
        return Err(Failure::from(Test::Start));
    }
    if s[0] != 0xC0 {
        return Err(Failure::from(Test::Start));
    }
    let Some(n) = claimed(s) else {
        return Err(Failure::from(Test::Length));
    };
    if !is_command(s[1]) {
        return Err(Failure::from(Test::Fields));
    }
    let check = compared(&s[0..n]);
    if check.found != check.expected {
        return Err(check.failing(Test::First));
    }
    Ok(Frame {
        len: n,
        from: 3,
        to: n - 1,
    })
}

// Whether a frame can begin with the first three bytes of s: C0, and then a command, all of which begin with 6.
pub fn may_start(s: &[u8]) -> bool
    ensures { result ≡ nibe_starts s.now }
{
    if s.len() < 3 {
        return false;
    }
    (s[0] == 0xC0) & (s[1] / 16 == 6)
}

// How long a frame with the length at the head of s is, if the length and as many bytes are there.
fn claimed(s: &[u8]) -> Option<usize>
    ensures { Lasts (claimed_len s.now) result }
{
    if s.len() < 4 {
        return None;
    }
    let n = s[2] as usize + 4;
    if s.len() < n {
        return None;
    }
    Some(n)
}

// Whether a command is one of the seven.
pub fn is_command(c: u8) -> bool
    ensures { result ≡ one_of commands c }
{
    if c == 0x60 {
        return true;
    }
    if c == 0x62 {
        return true;
    }
    if c == 0x68 {
        return true;
    }
    if c == 0x69 {
        return true;
    }
    if c == 0x6A {
        return true;
    }
    if c == 0x6B {
        return true;
    }
    c == 0x6C
}

// The last byte of f, and the XOR of the length and the data.
fn compared(f: &[u8]) -> Compared
    requires { 4 ≤ length f.now }
    ensures { result ≡ nibe_pair f.now }
{
    let last = f.len() - 1;
    Compared {
        found: f[last] as u16,
        expected: Xor::of(&f[2..last]) as u16,
    }
}
