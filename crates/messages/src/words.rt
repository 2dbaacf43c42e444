// Numbers of 16 bits in a slice.
ghost use Rattle.std.specs.Prelude.{◌≡◌, ◌+◌, ◌≤◌, length};
ghost use Rattle.messages.specs.Paper.Table.{u16_at};

// The number at a place, low byte first.
pub(crate) fn word(s: &[u8], at: usize) -> u16
    requires { at + 2 ≤ length s.now }
    ensures { result ≡ u16_at at s.now }
{
    u16::from_le_bytes([s[at], s[at + 1]])
}
