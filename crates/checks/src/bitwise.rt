// The engine: bit by bit, at each width and bit order.
ghost use Rattle.std.specs.Prelude.{◌≡◌, ◌≤◌, ◌<◌, ◌^◌, ℕ, [], ◌∷◌, refl};
ghost use Rattle.std.proofs.Common.{lit≤};
ghost use Rattle.checks.specs.Paper.Bits.{BitOrder, high_bit_first, low_bit_first, bits};
ghost use Rattle.checks.specs.Paper.Check.{mix, shift, feed};
ghost use Rattle.checks.specs.Work.Engines.{engine};

// A register: a byte is laid at its head, and it moves one place on.
pub(crate) trait Register: Copy {
    ghost value: { Self → ℕ };

    ghost width: { ℕ };

    ghost order: { BitOrder };

    fn laid(self, b: u8) -> Self
        ensures fits { value result < 2 ^ width }
        ensures mixed { bits order width (value result) ≡ mix (bits order width (value self)) (bits order 8 b) };

    fn shifted(self, poly: Self) -> Self
        ensures fits { value result < 2 ^ width }
        ensures moved { bits order width (value result) ≡ shift (bits order width (value poly)) (bits order width (value self)) };

    ghost wide: { 8 ≤ width };
}

// The register after the bytes of s.
pub(crate) fn bytes<R: Register>(v: R, poly: R, s: &[u8]) -> R
    requires { R.value v < 2 ^ R.width }
    ensures { R.value result ≡ feed (engine R.width R.order (R.value poly)) (R.value v) s.now }
{
    let mut r = v;
    for b in s {
        r = byte(r, poly, *b);
    }
    r
}

// The register after a byte: eight places on.
pub(crate) fn byte<R: Register>(v: R, poly: R, b: u8) -> R
    ensures { R.value result ≡ feed (engine R.width R.order (R.value poly)) (R.value v) (b ∷ []) }
{
    let mut r = v.laid(b);
    for _k in 0..8u8 {
        r = r.shifted(poly);
    }
    r
}

#[derive(Clone, Copy)]
pub(crate) struct High16(pub(crate) u16);

impl Register for High16 {
    ghost value = { λ r. r.0 };

    ghost width = { 16 };

    ghost order = { high_bit_first };

    ghost wide = { lit≤ tt };

    fn laid(self, b: u8) -> High16 {
        High16(self.0 ^ ((b as u16) * 256))
    }

    fn shifted(self, poly: High16) -> High16 {
        if self.0 < 0x8000 {
            High16(self.0 * 2)
        } else {
            High16(((self.0 - 0x8000) * 2) ^ poly.0)
        }
    }
}

#[derive(Clone, Copy)]
pub(crate) struct High8(pub(crate) u8);

impl Register for High8 {
    ghost value = { λ r. r.0 };

    ghost width = { 8 };

    ghost order = { high_bit_first };

    ghost wide = { lit≤ tt };

    fn laid(self, b: u8) -> High8 {
        High8(self.0 ^ b)
    }

    fn shifted(self, poly: High8) -> High8 {
        if self.0 < 0x80 {
            High8(self.0 * 2)
        } else {
            High8(((self.0 - 0x80) * 2) ^ poly.0)
        }
    }
}

#[derive(Clone, Copy)]
pub(crate) struct Low8(pub(crate) u8);

impl Register for Low8 {
    ghost value = { λ r. r.0 };

    ghost width = { 8 };

    ghost order = { low_bit_first };

    ghost wide = { lit≤ tt };

    fn laid(self, b: u8) -> Low8 {
        Low8(self.0 ^ b)
    }

    fn shifted(self, poly: Low8) -> Low8 {
        if self.0 % 2 == 0 {
            Low8(self.0 / 2)
        } else {
            Low8((self.0 / 2) ^ poly.0)
        }
    }
}
