// What the wall panel is shown: raw numbers as floats, exactly.
ghost use Rattle.std.specs.Prelude.{◌≡◌, pos};
ghost use Rattle.numbers.specs.Paper.Raw.{Raw};
ghost use Rattle.numbers.specs.Paper.Panel.{Panel, ClimatePair};
ghost use Rattle.numbers.specs.Paper.Answers.{AnswersPanel};

use super::{raw, single};
use digits::refusal::Refusal;

// A raw number, as a single float if it fits and as a double otherwise.
#[derive(Clone, Copy, Debug, PartialEq)]
pub enum Value {
    Single(f32),
    Double(f64),
}

// A climate message's counts.
#[derive(Clone, Copy, Debug, PartialEq)]
pub struct Climate {
    pub temperature: f32,
    pub humidity: f32,
}

// The raw number for the panel.
pub fn of(raw: i64) -> Result<Value, Refusal>
    ensures { AnswersPanel raw result }
{
    if !raw::in_range(raw) {
        return Err(Refusal::OutOfLimits);
    }
    Ok(in_range_of(raw))
}

// A climate message's counts for the panel. (A single holds every number of 16 bits.)
pub fn pair(temperature: i16, humidity: u16) -> Climate
    ensures { ClimatePair temperature (pos humidity) result.temperature result.humidity }
{
    Climate {
        temperature: temperature as f32,
        humidity: humidity as f32,
    }
}

// The raw number of a number in range. (The double is exact; if the number fits a single, so is the cast to one.)
fn in_range_of(raw: i64) -> Value
    requires { Raw raw }
    ensures { Panel raw result }
{
    let x = raw as f64;
    if single::in_range_fits(raw) {
        return Value::Single(x as f32);
    }
    Value::Double(x)
}
