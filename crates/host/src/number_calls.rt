// Numbers: their text, their bytes, and what the wall panel is shown of them.
ghost use Rattle.std.specs.Prelude.{◌≡◌, not, eqb, pos, length};
ghost use Rattle.digits.specs.Paper.Read.{Reads};
ghost use Rattle.digits.specs.Paper.Refusals.{Answers};
ghost use Rattle.puts.specs.Paper.Wrote.{Wrote};
ghost use Rattle.numbers.specs.Paper.ByteValues.{value_bytes};
ghost use Rattle.numbers.specs.Paper.Single.{fits_single};
ghost use Rattle.numbers.specs.Paper.Text as T;
ghost use Rattle.numbers.specs.Paper.Answers.{TextCause, zero_number, ValueCause, BytesCause, ValueIn, RangeCause};
ghost use Rattle.host.specs.Paper.Answers.{number_in, flag};
ghost use Rattle.host.specs.Paper.Panel.{zero_shown, ShownOf, shown_in, zero_climate, ClimateCause, ClimateOf, climate_in};

use super::answers;
use super::answers::{Climate, Count, Fit, PanelValue, Raw, Reading};
use digits::refusal::Refusal;
use numbers::{byte_values, panel, single, text};

// Writes the text of a raw number from the front of the room: `text::write`.
#[unsafe(no_mangle)]
pub extern "C" fn bolsterweft_text(raw: i64, decimals: u32, room: &mut [u8]) -> Count
    ensures { Wrote (TextCause raw decimals (length room.old)) (T.text raw decimals) room.old result.refusal result.length room.new }
{
    answers::counted(text::write(raw, decimals, room))
}

// The raw number whose text it is, with its decimals: `text::read`.
#[unsafe(no_mangle)]
pub extern "C" fn bolsterweft_number(text: &[u8]) -> Reading
    ensures { Reads zero_number T.InLimits (λ n. T.text n.raw n.decimals) 7 text.now result.refusal (number_in result) }
{
    match text::read(text) {
        Ok(number) => Reading {
            refusal: 0,
            decimals: number.decimals,
            raw: number.raw,
        },
        Err(why) => Reading {
            refusal: answers::refusal_number(why),
            decimals: 0,
            raw: 0,
        },
    }
}

// Writes a number as `width` bytes from the front of the room, low byte first, signed unless `is_signed` is 0: `byte_values::write`.
#[unsafe(no_mangle)]
pub extern "C" fn bolsterweft_value(raw: i64, width: u32, is_signed: u32, room: &mut [u8]) -> Count
    ensures { Wrote (ValueCause width (not (eqb is_signed 0)) raw (length room.old)) (value_bytes width raw) room.old result.refusal result.length room.new }
{
    answers::counted(byte_values::write(raw, width as usize, is_signed != 0, room))
}

// The number that `width` bytes are: `byte_values::read`.
#[unsafe(no_mangle)]
pub extern "C" fn bolsterweft_value_read(bytes: &[u8], width: u32, is_signed: u32) -> Raw
    ensures { Answers (pos 0) (BytesCause width bytes.now) (ValueIn width (not (eqb is_signed 0)) bytes.now) result.refusal result.raw }
{
    match byte_values::read(bytes, width as usize, is_signed != 0) {
        Ok(raw) => Raw { refusal: 0, raw },
        Err(why) => Raw {
            refusal: answers::refusal_number(why),
            raw: 0,
        },
    }
}

// Whether a single float holds the raw number: `single::fits`.
#[unsafe(no_mangle)]
pub extern "C" fn bolsterweft_fits(raw: i64) -> Fit
    ensures { Answers 0 (RangeCause raw) (λ n. n ≡ flag (fits_single raw)) result.refusal result.fits }
{
    match single::fits(raw) {
        Ok(holds) => Fit {
            refusal: 0,
            fits: holds as u32,
        },
        Err(why) => Fit {
            refusal: answers::refusal_number(why),
            fits: 0,
        },
    }
}

// The raw number for the panel: `panel::of`.
#[unsafe(no_mangle)]
pub extern "C" fn bolsterweft_panel(raw: i64) -> PanelValue
    ensures { Answers zero_shown (RangeCause raw) (ShownOf raw) result.refusal (shown_in result) }
{
    match panel::of(raw) {
        Ok(value) => match value {
            panel::Value::Single(x) => PanelValue {
                refusal: 0,
                size: 4,
                single: x,
                wide: 0.0,
            },
            panel::Value::Double(x) => PanelValue {
                refusal: 0,
                size: 8,
                single: 0.0,
                wide: x,
            },
        },
        Err(why) => PanelValue {
            refusal: answers::refusal_number(why),
            size: 0,
            single: 0.0,
            wide: 0.0,
        },
    }
}

// A climate message's counts for the panel: `panel::pair`. The message has 16 bits for each.
#[unsafe(no_mangle)]
pub extern "C" fn bolsterweft_climate(temperature: i32, humidity: u32) -> Climate
    ensures { Answers zero_climate (ClimateCause temperature (pos humidity)) (ClimateOf temperature (pos humidity)) result.refusal (climate_in result) }
{
    let Ok(temperature) = i16::try_from(temperature) else {
        return no_climate();
    };
    let Ok(humidity) = u16::try_from(humidity) else {
        return no_climate();
    };
    let c = panel::pair(temperature, humidity);
    Climate {
        refusal: 0,
        temperature: c.temperature,
        humidity: c.humidity,
    }
}

// The refusal of counts that a climate message has no bits for.
fn no_climate() -> Climate
    ensures refusal_value { result.refusal ≡ 5 }
    ensures result_value { climate_in result ≡ zero_climate }
{
    Climate {
        refusal: answers::refusal_number(Refusal::OutOfLimits),
        temperature: 0.0,
        humidity: 0.0,
    }
}
