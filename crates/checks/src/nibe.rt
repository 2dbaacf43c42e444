// The check of a Nibe frame: the exclusive or of the bytes, which is the check of polynomial x^8 + 1.
ghost use Rattle.std.specs.Prelude.{◌≡◌, [], ◌∷◌};
ghost use Rattle.checks.specs.Paper.Check.{feed, check};
ghost use Rattle.checks.specs.Paper.Buses.{nibe_xor};
ghost use Rattle.checks.specs.Paper.Rules.{check_of};

use super::rule::{BitOrder, Rule};

// The state of the XOR, over the length and the data; the start mark and the command are not covered.
#[derive(Clone, Copy, Debug, PartialEq, Eq)]
pub struct Xor {
    pub value: u8,
}

impl Xor {
    pub const WIDTH: u8 = 8;

    pub const POLY: u8 = 0x01;

    pub const START: u8 = 0;

    pub const ORDER: BitOrder = BitOrder::HighBitFirst;

    // The check's constants.
    pub fn rule() -> Rule
        ensures { check_of result ≡ nibe_xor }
    {
        Rule {
            width: Self::WIDTH,
            poly: Self::POLY as u16,
            start: Self::START as u16,
            order: Self::ORDER,
        }
    }

    // The state before any byte.
    pub fn new() -> Self
        ensures { result.value ≡ nibe_xor.start }
    {
        Self { value: Self::START }
    }

    // The state after one byte more.
    pub fn byte(self, b: u8) -> Self
        ensures { result.value ≡ feed nibe_xor self.value (b ∷ []) }
    {
        Self {
            value: self.value ^ b,
        }
    }

    // The state after the bytes of s.
    pub fn bytes(self, s: &[u8]) -> Self
        ensures { result.value ≡ feed nibe_xor self.value s.now }
    {
        Self {
            value: over(self.value, s),
        }
    }

    // The check value of the bytes of s.
    pub fn of(s: &[u8]) -> u8
        ensures { result ≡ check nibe_xor s.now }
    {
        Self::new().bytes(s).value
    }
}

// The exclusive or of v and the bytes of s.
fn over(v: u8, s: &[u8]) -> u8
    ensures { result ≡ feed nibe_xor v s.now }
{
    let mut r = v;
    for b in s {
        r = r ^ *b;
    }
    r
}
