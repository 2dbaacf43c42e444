// Nest: preamble; id, length, payload; CRC.
ghost use Rattle.std.specs.Prelude.{◌≡◌, ◌&&◌, ◌≤◌, ◌<◌, eqb, length};
ghost use Rattle.layouts.specs.Paper.Judged.{Recognises};
ghost use Rattle.layouts.specs.Paper.Nest.{nest, nest_with};
ghost use Rattle.layouts.specs.Paper.Starts.{first_three, nest_starts};
ghost use Rattle.layouts.specs.Work.Heads.{Lasts};
ghost use Rattle.layouts.specs.Work.Nest.{body_len, crc_pair};

use super::{Compared, Failure, Frame, Test, words};
use checks::nest::Crc;

// Commands go to the backplate, responses come from it.
#[derive(Clone, Copy)]
pub enum Direction {
    Command,
    Response,
}

// What stands at the head of s.
pub fn frame(direction: Direction, s: &[u8]) -> Result<Frame, Failure>
    ensures { Recognises (nest direction) s.now result }
{
    match direction {
        Direction::Command => framed(s, b"\xD5\xAA\x96"),
        Direction::Response => framed(s, b"\xD5\xD5\xAA\x96"),
    }
}

// Whether a frame can begin with the first three bytes of s.
pub fn may_start(direction: Direction, s: &[u8]) -> bool
    ensures { result ≡ nest_starts direction s.now }
{
    match direction {
        Direction::Command => three(s, 0xD5, 0xAA, 0x96),
        Direction::Response => three(s, 0xD5, 0xD5, 0xAA),
    }
}

// These three bytes.
fn three(s: &[u8], first: u8, second: u8, third: u8) -> bool
    ensures { result ≡ first_three (λ a b c. eqb a first && (eqb b second && eqb c third)) s.now }
{
    if s.len() < 3 {
        return false;
    }
    (s[0] == first) & ((s[1] == second) & (s[2] == third))
}

// What stands there with this preamble. Tested in this order: the preamble, the length and the count of bytes, the CRC. (Any bytes are an
// id and a payload, so that no field fails.)
fn framed(s: &[u8], preamble: &[u8]) -> Result<Frame, Failure>
    requires { 0 < length preamble.now }
    ensures { Recognises (nest_with preamble.now) s.now result }
{
    if !words::starts_with(s, preamble) {
        return Err(Failure::from(Test::Start));
    }
    let before = preamble.len();
    let Some(n) = body(&s[before..]) else {
        return Err(Failure::from(Test::Length));
    };
    let end = before + n;
    let check = compared(&s[before..end]);
    if check.found != check.expected {
        return Err(check.failing(Test::First));
    }
    Ok(Frame {
        len: end,
        from: before + 4,
        to: end - 2,
    })
}

// How many bytes id, length, payload and CRC are, if they are there and the length is at most 1,024.
fn body(s: &[u8]) -> Option<usize>
    ensures { Lasts (body_len s.now) result }
{
    if s.len() < 6 {
        return None;
    }
    let n = s[2] as usize + s[3] as usize * 256;
    if 1024 < n {
        return None;
    }
    if s.len() < n + 6 {
        return None;
    }
    Some(n + 6)
}

// The number that the last two bytes of u are, low byte first, and the CRC of those before them.
fn compared(u: &[u8]) -> Compared
    requires { 2 ≤ length u.now }
    ensures { result ≡ crc_pair u.now }
{
    let n = u.len() - 2;
    Compared {
        found: u[n] as u16 + u[n + 1] as u16 * 256,
        expected: Crc::of(&u[0..n]),
    }
}
