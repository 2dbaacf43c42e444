// The check of a Nest frame.
ghost use Rattle.std.specs.Prelude.{◌≡◌, [], ◌∷◌};
ghost use Rattle.checks.specs.Paper.Check.{feed, check};
ghost use Rattle.checks.specs.Paper.Buses.{nest_crc};
ghost use Rattle.checks.specs.Paper.Rules.{check_of};

use super::bitwise;
use super::bitwise::High16;
use super::rule::{BitOrder, Rule};

// The state of the CRC, over id, length and payload.
#[derive(Clone, Copy, Debug, PartialEq, Eq)]
pub struct Crc {
    pub value: u16,
}

impl Crc {
    pub const WIDTH: u8 = 16;

    pub const POLY: u16 = 0x1021;

    pub const START: u16 = 0;

    pub const ORDER: BitOrder = BitOrder::HighBitFirst;

    // The check's constants.
    pub fn rule() -> Rule
        ensures { check_of result ≡ nest_crc }
    {
        Rule {
            width: Self::WIDTH,
            poly: Self::POLY,
            start: Self::START,
            order: Self::ORDER,
        }
    }

    // The state before any byte.
    pub fn new() -> Self
        ensures { result.value ≡ nest_crc.start }
    {
        Self { value: Self::START }
    }

    // The state after one byte more.
    pub fn byte(self, b: u8) -> Self
        ensures { result.value ≡ feed nest_crc self.value (b ∷ []) }
    {
        Self {
            value: bitwise::byte(High16(self.value), High16(Self::POLY), b).0,
        }
    }

    // The state after the bytes of s.
    pub fn bytes(self, s: &[u8]) -> Self
        ensures { result.value ≡ feed nest_crc self.value s.now }
    {
        Self {
            value: bitwise::bytes(High16(self.value), High16(Self::POLY), s).0,
        }
    }

    // The check value of the bytes of s.
    pub fn of(s: &[u8]) -> u16
        ensures { result ≡ check nest_crc s.now }
    {
        Self::new().bytes(s).value
    }
}
