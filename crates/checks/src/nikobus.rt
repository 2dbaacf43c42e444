// The two checks of a Nikobus link.
ghost use Rattle.std.specs.Prelude.{◌≡◌, [], ◌∷◌};
ghost use Rattle.checks.specs.Paper.Check.{feed, check};
ghost use Rattle.checks.specs.Paper.Buses.{nikobus_crc16, nikobus_crc8};
ghost use Rattle.checks.specs.Paper.Rules.{check_of};

use super::bitwise;
use super::bitwise::{High8, High16};
use super::rule::{BitOrder, Rule};

// The state of CRC16, over the payload's bytes.
#[derive(Clone, Copy, Debug, PartialEq, Eq)]
pub struct Crc16 {
    pub value: u16,
}

impl Crc16 {
    pub const WIDTH: u8 = 16;

    pub const POLY: u16 = 0x1021;

    pub const START: u16 = 0xFFFF;

    pub const ORDER: BitOrder = BitOrder::HighBitFirst;

    // The check's constants.
    pub fn rule() -> Rule
        ensures { check_of result ≡ nikobus_crc16 }
    {
        Rule {
            width: Self::WIDTH,
            poly: Self::POLY,
            start: Self::START,
            order: Self::ORDER,
        }
    }

    // The state before any byte.
    pub fn new() -> Self
        ensures { result.value ≡ nikobus_crc16.start }
    {
        Self { value: Self::START }
    }

    // The state after one byte more.
    pub fn byte(self, b: u8) -> Self
        ensures { result.value ≡ feed nikobus_crc16 self.value (b ∷ []) }
    {
        Self {
            value: bitwise::byte(High16(self.value), High16(Self::POLY), b).0,
        }
    }

    // The state after the bytes of s.
    pub fn bytes(self, s: &[u8]) -> Self
        ensures { result.value ≡ feed nikobus_crc16 self.value s.now }
    {
        Self {
            value: bitwise::bytes(High16(self.value), High16(Self::POLY), s).0,
        }
    }

    // The check value of the bytes of s.
    pub fn of(s: &[u8]) -> u16
        ensures { result ≡ check nikobus_crc16 s.now }
    {
        Self::new().bytes(s).value
    }
}

// The state of CRC8, over the characters from `$` to the end of the CRC16.
#[derive(Clone, Copy, Debug, PartialEq, Eq)]
pub struct Crc8 {
    pub value: u8,
}

impl Crc8 {
    pub const WIDTH: u8 = 8;

    pub const POLY: u8 = 0x99;

    pub const START: u8 = 0;

    pub const ORDER: BitOrder = BitOrder::HighBitFirst;

    // The check's constants.
    pub fn rule() -> Rule
        ensures { check_of result ≡ nikobus_crc8 }
    {
        Rule {
            width: Self::WIDTH,
            poly: Self::POLY as u16,
            start: Self::START as u16,
            order: Self::ORDER,
        }
    }

    // The state before any byte.
    pub fn new() -> Self
        ensures { result.value ≡ nikobus_crc8.start }
    {
        Self { value: Self::START }
    }

    // The state after one byte more.
    pub fn byte(self, b: u8) -> Self
        ensures { result.value ≡ feed nikobus_crc8 self.value (b ∷ []) }
    {
        Self {
            value: bitwise::byte(High8(self.value), High8(Self::POLY), b).0,
        }
    }

    // The state after the bytes of s.
    pub fn bytes(self, s: &[u8]) -> Self
        ensures { result.value ≡ feed nikobus_crc8 self.value s.now }
    {
        Self {
            value: bitwise::bytes(High8(self.value), High8(Self::POLY), s).0,
        }
    }

    // The check value of the bytes of s.
    pub fn of(s: &[u8]) -> u8
        ensures { result ≡ check nikobus_crc8 s.now }
    {
        Self::new().bytes(s).value
    }
}
