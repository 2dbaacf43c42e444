// Numbers: their text, their bytes, and what the wall panel is shown of them.
ghost use Rattle.std.specs.Prelude.{◌≡◌, not, eqb, pos, length};
ghost use Rattle.digits.specs.Paper.Read.{Reads};
ghost use Rattle.digits.specs.Paper.Refusals.{Answers};
ghost use Rattle.puts.specs.Paper.Wrote.{Wrote};
ghost use Rattle.numbers.specs.Paper.ByteValues.{value_bytes};
ghost use Rattle.numbers.specs.Paper.Single.{fits_single};
ghost use Rattle.numbers.specs.Paper.Text as T;
ghost use Rattle.numbers.specs.Paper.Answers.{TextCause, zero_number, ValueCause, BytesCause, ValueIn, RangeCause};
ghost use Rattle.host.specs.Paper.Answers.{number_in, flag};
ghost use Rattle.host.specs.Paper.Panel.{zero_shown, ShownOf, shown_in, zero_climate, ClimateCause, ClimateOf, climate_in};

use host::answers::{Climate, Count, Fit, PanelValue, Raw, Reading};

// Writes the text of a raw number from the front of the room: `text::write`.
#[unsafe(no_mangle)]
pub extern "C" fn bolsterweft_text(raw: i64, decimals: u32, room: &mut [u8]) -> Count
    ensures { Wrote (TextCause raw decimals (length room.old)) (T.text raw decimals) room.old result.refusal result.length room.new }
{
    host::number_calls::bolsterweft_text(raw, decimals, room)
}

// The raw number whose text it is, with its decimals: `text::read`.
#[unsafe(no_mangle)]
pub extern "C" fn bolsterweft_number(text: &[u8]) -> Reading
    ensures { Reads zero_number T.InLimits (λ n. T.text n.raw n.decimals) 7 text.now result.refusal (number_in result) }
{
    host::number_calls::bolsterweft_number(text)
}

// Writes a number as `width` bytes from the front of the room, low byte first, signed unless `is_signed` is 0: `byte_values::write`.
#[unsafe(no_mangle)]
pub extern "C" fn bolsterweft_value(raw: i64, width: u32, is_signed: u32, room: &mut [u8]) -> Count
    ensures { Wrote (ValueCause width (not (eqb is_signed 0)) raw (length room.old)) (value_bytes width raw) room.old result.refusal result.length room.new }
{
    host::number_calls::bolsterweft_value(raw, width, is_signed, room)
}

// The number that `width` bytes are: `byte_values::read`.
#[unsafe(no_mangle)]
pub extern "C" fn bolsterweft_value_read(bytes: &[u8], width: u32, is_signed: u32) -> Raw
    ensures { Answers (pos 0) (BytesCause width bytes.now) (ValueIn width (not (eqb is_signed 0)) bytes.now) result.refusal result.raw }
{
    host::number_calls::bolsterweft_value_read(bytes, width, is_signed)
}

// Whether a single float holds the raw number: `single::fits`.
#[unsafe(no_mangle)]
pub extern "C" fn bolsterweft_fits(raw: i64) -> Fit
    ensures { Answers 0 (RangeCause raw) (λ n. n ≡ flag (fits_single raw)) result.refusal result.fits }
{
    host::number_calls::bolsterweft_fits(raw)
}

// The raw number for the panel: `panel::of`.
#[unsafe(no_mangle)]
pub extern "C" fn bolsterweft_panel(raw: i64) -> PanelValue
    ensures { Answers zero_shown (RangeCause raw) (ShownOf raw) result.refusal (shown_in result) }
{
    host::number_calls::bolsterweft_panel(raw)
}

// A climate message's counts for the panel: `panel::pair`. The message has 16 bits for each.
#[unsafe(no_mangle)]
pub extern "C" fn bolsterweft_climate(temperature: i32, humidity: u32) -> Climate
    ensures { Answers zero_climate (ClimateCause temperature (pos humidity)) (ClimateOf temperature (pos humidity)) result.refusal (climate_in result) }
{
    host::number_calls::bolsterweft_climate(temperature, humidity)
}
