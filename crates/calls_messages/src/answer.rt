// Answers, of the forms in crates/calls_write/src/forms.rt.
use super::message;
use asked::Asked;
use asked::lacks::Lack;
use book::Located;
use digits::refusal;
use digits::refusal::Refusal;
use lines::{Listed, Measured};
use messages::nest::Volts;
use messages::{Decoded, FoundMessage, Message};
use numbers::panel::Climate;
use shapes::Sort;
use std::num;

#[derive(Clone, Copy, Debug, PartialEq)]
pub(crate) enum Answer {
    // not one: the record asks for nothing that there is
    NoRequest,
    Refused(Refusal),
    Done,
    Number(u64),
    Volts(Volts),
    Listed(Listed),
    Measured(Measured),
    Located(Located),
    // so many bytes at the front of the room
    Bytes(usize),
    Climate(Climate),
    Message(Message),
    Decoded(Decoded),
    Found(FoundMessage),
    Asked(Asked),
    Lack(Option<Lack>),
    Sort(Sort),
}

pub(crate) type Values = [u64; 8];

impl Answer {
    // The number of the form, and the values.
    pub(crate) fn words(self) -> Values {
        match self {
            Answer::NoRequest => of(0, &[]),
            Answer::Refused(why) => of(1, &[refusal::number(why) as u64]),
            Answer::Done => of(2, &[]),
            Answer::Number(n) => of(3, &[n]),
            Answer::Volts(v) => of(5, &[v.vin as u64, v.vop as u64, v.vbat as u64]),
            Answer::Listed(l) => of(5, &[l.start as u64, l.len as u64, l.behind as u64]),
            Answer::Measured(m) => of(5, &[m.start as u64, m.len as u64, m.size as u64]),
            Answer::Located(l) => of(
                6,
                &[l.kind as u64, l.offset as u64, l.from as u64, l.to as u64],
            ),
            Answer::Bytes(n) => of(7, &[n as u64]),
            Answer::Climate(c) => of(14, &[single(c.temperature), single(c.humidity)]),
            Answer::Message(m) => said(22, m, [0; 4]),
            Answer::Decoded(d) => said(45, d.message, [d.from as u64, d.to as u64, 0, 0]),
            Answer::Found(f) => said(
                68,
                f.message,
                [f.start as u64, f.len as u64, f.from as u64, f.to as u64],
            ),
            Answer::Asked(a) => said(94, a.message, [a.kind as u64, a.len as u64, 0, 0]),
            Answer::Lack(lack) => lacking(lack),
            Answer::Sort(sort) => sorted(sort),
        }
    }
}

// An answer of a form with so many values.
fn of(form: u64, values: &[u64]) -> Values {
    let mut words = [form, 0, 0, 0, 0, 0, 0, 0];
    for (word, value) in words.iter_mut().skip(1).zip(values) {
        *word = *value;
    }
    words
}

// A message, and what may stand beside it: the form of its row, counted from the one before the first.
fn said(before: u64, m: Message, beside: [u64; 4]) -> Values {
    let [row, a, b, c] = message::said(m);
    let [d, e, f, g] = beside;
    [before.wrapping_add(row), a, b, c, d, e, f, g]
}

// What a command lacks.
fn lacking(lack: Option<Lack>) -> Values {
    match lack {
        None => of(119, &[]),
        Some(Lack::Text) => of(120, &[]),
        Some(Lack::Object) => of(121, &[]),
        Some(Lack::Kind { there }) => of(122, &[there as u64]),
        Some(Lack::Msg { there }) => of(123, &[there as u64]),
        Some(Lack::Member { row, member, there }) => {
            of(124, &[row as u64, member as u64, there as u64])
        }
        Some(Lack::Extra) => of(125, &[]),
        Some(Lack::Volts) => of(126, &[]),
    }
}

// The sort of a member's value.
fn sorted(sort: Sort) -> Values {
    match sort {
        Sort::Nothing => of(119, &[]),
        Sort::Number => of(127, &[]),
        Sort::Bytes(n) => of(128, &[n as u64]),
        Sort::Digits(n) => of(129, &[n as u64]),
        Sort::Content => of(130, &[]),
        Sort::Text => of(120, &[]),
        Sort::Truth => of(131, &[]),
        Sort::Reading(decimals) => of(132, &[decimals as u64]),
    }
}

// A float's bits. A double holds every single.
fn single(x: f32) -> u64 {
    bits(num::f32_to_f64_with_nan(x))
}

pub(crate) fn bits(x: f64) -> u64 {
    if x == x { f64::to_bits(x) } else { 0 }
}
