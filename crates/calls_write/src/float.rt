// The whole numbers that floats are, by their bits: a sign, eleven digits of the exponent, and the digits behind the highest.

// Puts the number. The negative zero shows too, as `-0`.
pub(crate) fn put(bits: u64, out: &mut [u8], at: usize) -> usize {
    let sign = 1 << 63;
    if bits < sign {
        return puts::whole(shown(bits), out, at);
    }
    let next = puts::byte(b'-', out, at);
    puts::whole(shown(bits - sign), out, next)
}

// The largest number of 64 bits stands for a float that is no whole number of at most 53 digits.
fn shown(bits: u64) -> u64 {
    whole(bits).unwrap_or(u64::MAX)
}

fn whole(bits: u64) -> Option<u64> {
    if bits == 0 {
        return Some(0);
    }
    let exponent = bits >> 52;
    if exponent < 1023 || 1075 < exponent {
        return None;
    }
    let digits = (bits & 0xF_FFFF_FFFF_FFFF) | 0x10_0000_0000_0000;
    let behind = 1075 - exponent;
    let n = digits >> behind;
    if n << behind == digits { Some(n) } else { None }
}
