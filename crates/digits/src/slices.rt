// Slices of bytes.
ghost use Rattle.std.specs.Prelude.{◌≡◌};
ghost use Rattle.digits.specs.Paper.Read.{Decides};

// Whether two slices have the same bytes.
pub fn same(a: &[u8], b: &[u8]) -> bool
    ensures { Decides (a.now ≡ b.now) result }
{
    a == b
}
