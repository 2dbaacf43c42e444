// The check of a Homiq frame.
ghost use Rattle.std.specs.Prelude.{◌≡◌, [], ◌∷◌};
ghost use Rattle.checks.specs.Paper.Check.{feed, check};
ghost use Rattle.checks.specs.Paper.Buses.{homiq_crc};
ghost use Rattle.checks.specs.Paper.Rules.{check_of};

use super::bitwise;
use super::bitwise::Low8;
use super::rule::{BitOrder, Rule};

// The state of the CRC, over the six fields joined without separators.
#[derive(Clone, Copy, Debug, PartialEq, Eq)]
pub struct Crc {
    pub value: u8,
}

impl Crc {
    pub const WIDTH: u8 = 8;

    pub const POLY: u8 = 0x8C;

    pub const START: u8 = 0;

    pub const ORDER: BitOrder = BitOrder::LowBitFirst;

    // The check's constants.
    pub fn rule() -> Rule
        ensures { check_of result ≡ homiq_crc }
    {
        Rule {
            width: Self::WIDTH,
            poly: Self::POLY as u16,
            start: Self::START as u16,
            order: Self::ORDER,
        }
    }

    // The state before any byte.
    pub fn new() -> Self
        ensures { result.value ≡ homiq_crc.start }
    {
        Self { value: Self::START }
    }

    // The state after one byte more.
    pub fn byte(self, b: u8) -> Self
        ensures { result.value ≡ feed homiq_crc self.value (b ∷ []) }
    {
        Self {
            value: bitwise::byte(Low8(self.value), Low8(Self::POLY), b).0,
        }
    }

    // The state after the bytes of s.
    pub fn bytes(self, s: &[u8]) -> Self
        ensures { result.value ≡ feed homiq_crc self.value s.now }
    {
        Self {
            value: bitwise::bytes(Low8(self.value), Low8(Self::POLY), s).0,
        }
    }

    // The check value of the bytes of s.
    pub fn of(s: &[u8]) -> u8
        ensures { result ≡ check homiq_crc s.now }
    {
        Self::new().bytes(s).value
    }
}
