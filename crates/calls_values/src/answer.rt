// Answers, of the forms in crates/calls_write/src/forms.rt.
use checks::rule::{BitOrder, Rule};
use digits::refusal;
use digits::refusal::Refusal;
use jsontext::faults as text_faults;
use numbers::panel;
use numbers::text::Reading;
use sheet::{Typed, faults as sheet_faults};
use std::num;

#[derive(Clone, Copy, Debug, PartialEq)]
pub(crate) enum Answer {
    // not one: the record asks for nothing that there is
    NoRequest,
    Refused(Refusal),
    Number(u64),
    // two places
    Part { from: usize, to: usize },
    // so many bytes at the front of the room
    Bytes(usize),
    Truth(bool),
    Signed(i64),
    Reading(Reading),
    Shown(panel::Value),
    Climate(panel::Climate),
    Rule(Rule),
    Type(Typed),
    SheetFault(Option<sheet_faults::Fault>),
    TextFault(Option<text_faults::Fault>),
}

impl From<u64> for Answer {
    fn from(n: u64) -> Answer {
        Answer::Number(n)
    }
}

impl Answer {
    // The number of the form, and the values. A test of a sheet and what a text lacks are given by their places in the lists of forms.rt, which
    // are in the order of their enums, behind `none`, and behind `long`.
    pub(crate) fn words(self) -> [u64; 4] {
        match self {
            Answer::NoRequest => [0; 4],
            Answer::Refused(why) => [1, refusal::number(why) as u64, 0, 0],
            Answer::Number(n) => [3, n, 0, 0],
            Answer::Part { from, to } => [4, from as u64, to as u64, 0],
            Answer::Bytes(n) => [7, n as u64, 0, 0],
            Answer::Truth(true) => [8, 0, 0, 0],
            Answer::Truth(false) => [9, 0, 0, 0],
            Answer::Signed(n) => [10, signed(n), 0, 0],
            Answer::Reading(r) => [11, signed(r.raw), r.decimals as u64, 0],
            Answer::Shown(panel::Value::Single(x)) => [12, single(x), 0, 0],
            Answer::Shown(panel::Value::Double(x)) => [13, bits(x), 0, 0],
            Answer::Climate(c) => [14, single(c.temperature), single(c.humidity), 0],
            Answer::Rule(r) => [
                order(r.order),
                r.width as u64,
                r.poly as u64,
                r.start as u64,
            ],
            Answer::Type(t) => [22, t.width as u64, t.signed as u64, t.decimals as u64],
            Answer::SheetFault(None) => [94, 0, 0, 0],
            Answer::SheetFault(Some(f)) => [94, f.line as u64, f.test as u64 + 1, 0],
            Answer::TextFault(None) => [118, 0, 0, 0],
            Answer::TextFault(Some(text_faults::Fault::Long)) => [118, 0, 1, 0],
            Answer::TextFault(Some(text_faults::Fault::At { lack, at })) => {
                [118, at as u64, lack as u64 + 2, 0]
            }
        }
    }
}

fn order(order: BitOrder) -> u64 {
    match order {
        BitOrder::HighBitFirst => 15,
        BitOrder::LowBitFirst => 16,
    }
}

// A signed number is written as the float that it is: 53 digits are more than any has.
fn signed(n: i64) -> u64 {
    bits(num::nearest_i64_to_f64(n))
}

// A double holds every single.
fn single(x: f32) -> u64 {
    bits(num::f32_to_f64_with_nan(x))
}

fn bits(x: f64) -> u64 {
    if x == x { f64::to_bits(x) } else { 0 }
}
