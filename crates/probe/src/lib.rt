// The checks, hex digits into a room, and the test of a JSON text, by C's calling convention, for the tests and benchmarks that are written
// in C. Not part of the product. A check's promise is an equation, so that two answers which keep it are the same (`equation` of `digits`);
// that of `probe_hex` is that of `puts::hex`, and that of `probe_jsontext` that of `jsontext::accepts`.
#![tactic(auto)]

ghost use Rattle.std.specs.Prelude.{◌≡◌};
ghost use Rattle.digits.specs.Paper.Hex.{hex_bytes};
ghost use Rattle.digits.specs.Paper.Read.{Decides};
ghost use Rattle.jsontext.specs.Paper.Names.{InGrammar};
ghost use Rattle.puts.specs.Paper.Put.{Put};
ghost use Rattle.checks.specs.Paper.Check.{feed, check};
ghost use Rattle.checks.specs.Paper.Buses.{nikobus_crc16, nikobus_crc8, nest_crc, nibe_xor, homiq_crc};

use checks::{homiq, nest, nibe, nikobus};

// The check value of s, and the state after s if it was v before.
#[unsafe(no_mangle)]
pub extern "C" fn probe_nikobus_crc16(s: &[u8]) -> u16
    ensures { result ≡ check nikobus_crc16 s.now }
{
    nikobus::Crc16::of(s)
}

#[unsafe(no_mangle)]
pub extern "C" fn probe_nikobus_crc16_after(v: u16, s: &[u8]) -> u16
    ensures { result ≡ feed nikobus_crc16 v s.now }
{
    nikobus::Crc16 { value: v }.bytes(s).value
}

// The check value of s, and the state after s if it was v before.
#[unsafe(no_mangle)]
pub extern "C" fn probe_nikobus_crc8(s: &[u8]) -> u8
    ensures { result ≡ check nikobus_crc8 s.now }
{
    nikobus::Crc8::of(s)
}

#[unsafe(no_mangle)]
pub extern "C" fn probe_nikobus_crc8_after(v: u8, s: &[u8]) -> u8
    ensures { result ≡ feed nikobus_crc8 v s.now }
{
    nikobus::Crc8 { value: v }.bytes(s).value
}

// The check value of s, and the state after s if it was v before.
#[unsafe(no_mangle)]
pub extern "C" fn probe_nest_crc(s: &[u8]) -> u16
    ensures { result ≡ check nest_crc s.now }
{
    nest::Crc::of(s)
}

#[unsafe(no_mangle)]
pub extern "C" fn probe_nest_crc_after(v: u16, s: &[u8]) -> u16
    ensures { result ≡ feed nest_crc v s.now }
{
    nest::Crc { value: v }.bytes(s).value
}

// The check value of s, and the state after s if it was v before.
#[unsafe(no_mangle)]
pub extern "C" fn probe_nibe_xor(s: &[u8]) -> u8
    ensures { result ≡ check nibe_xor s.now }
{
    nibe::Xor::of(s)
}

#[unsafe(no_mangle)]
pub extern "C" fn probe_nibe_xor_after(v: u8, s: &[u8]) -> u8
    ensures { result ≡ feed nibe_xor v s.now }
{
    nibe::Xor { value: v }.bytes(s).value
}

// The check value of s, and the state after s if it was v before.
#[unsafe(no_mangle)]
pub extern "C" fn probe_homiq_crc(s: &[u8]) -> u8
    ensures { result ≡ check homiq_crc s.now }
{
    homiq::Crc::of(s)
}

#[unsafe(no_mangle)]
pub extern "C" fn probe_homiq_crc_after(v: u8, s: &[u8]) -> u8
    ensures { result ≡ feed homiq_crc v s.now }
{
    homiq::Crc { value: v }.bytes(s).value
}

// Puts two digits a byte from a place of the room on, as far as it goes; where the rest would end.
#[unsafe(no_mangle)]
pub extern "C" fn probe_hex(s: &[u8], room: &mut [u8], at: usize) -> usize
    ensures { Put room.old room.new at result (hex_bytes s.now) }
{
    puts::hex(s, room, at)
}

// Whether s is a JSON text.
#[unsafe(no_mangle)]
pub extern "C" fn probe_jsontext(s: &[u8]) -> bool
    ensures { Decides (InGrammar s.now) result }
{
    jsontext::accepts(s)
}
