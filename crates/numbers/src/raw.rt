// Raw numbers, by sign and magnitude. Whatever the machine does with a signed number is done here.
ghost use Rattle.std.specs.Prelude.{◌≡◌, ◌^◌, ◌<◌, nat_abs};
ghost use Rattle.digits.specs.Paper.Read.{Decides};
ghost use Rattle.numbers.specs.Paper.Raw.{Between, Raw};
ghost use Rattle.numbers.specs.Paper.Text.{below_zero};
ghost use Rattle.numbers.specs.Work.Text.{signed};

// Whether z is from `least` to `most`.
pub(crate) fn between(least: i64, most: i64, z: i64) -> bool
    ensures { Decides (Between least most z) result }
{
    if z < least {
        return false;
    }
    if most < z {
        return false;
    }
    true
}

// Whether z is a raw number.
pub(crate) fn in_range(z: i64) -> bool
    ensures { Decides (Raw z) result }
{
    between(-2_147_483_648, 4_294_967_295, z)
}

pub(crate) fn below_zero(z: i64) -> bool
    ensures { result ≡ below_zero z }
{
    z < 0
}

// How far a raw number is from zero.
pub(crate) fn magnitude(z: i64) -> u32
    requires { Raw z }
    ensures { result ≡ nat_abs z }
{
    if z < 0 {
        return (0 - z) as u32;
    }
    z as u32
}

// The number of that sign and magnitude.
pub(crate) fn with_sign(minus: bool, n: u64) -> i64
    requires { n < 2 ^ 48 }
    ensures { result ≡ signed minus n }
{
    let z = n as i64;
    if minus {
        return 0 - z;
    }
    z
}
