// Messages, out of the numbers of a request and into those of an answer, and the tags of contents, out of the numbers of a request.
use super::answer;
use super::request::Request;
use messages::homiq::Homiq;
use messages::nest::Response;
use messages::nibe::{Nibe, Valued};
use messages::nikobus::{Nikobus, Six};
use messages::{Message, Tag};

// The message whose row is the second of the numbers, and whose fields stand behind it; a row is its number in the table of
// crates/calls_read/src/request.rt.
pub(crate) fn of(r: &Request<'_>) -> Message {
    match r.numbers[1].0 {
        0..=6 => Message::Nikobus(nikobus(r)),
        7 => Message::Command {
            id: r.numbers[2].u16(),
        },
        8..=13 => Message::Response(response(r)),
        14..=18 => Message::Nibe(nibe(r)),
        _ => Message::Homiq(homiq(r)),
    }
}

fn nikobus(r: &Request<'_>) -> Nikobus {
    match r.numbers[1].0 {
        1 => Nikobus::Read {
            group: r.numbers[2].u8(),
            address: r.numbers[3].u16(),
        },
        2 => Nikobus::Set {
            group: r.numbers[2].u8(),
            address: r.numbers[3].u16(),
            out: six(r.first),
        },
        3 => Nikobus::Answer {
            address: r.numbers[2].u16(),
            third: r.numbers[3].u8(),
            out: six(r.first),
        },
        4 => Nikobus::Press(six(r.first)),
        5 => Nikobus::Tail,
        _ => Nikobus::Link,
    }
}

// A message has six bytes where it has any.
fn six(s: &[u8]) -> Six {
    let [a, b, c, d, e, f] = s.as_array::<6>().copied().unwrap_or_default();
    Six { a, b, c, d, e, f }
}

pub(crate) fn response(r: &Request<'_>) -> Response {
    match r.numbers[1].0 {
        8 => Response::Climate {
            temperature: r.numbers[2].i16(),
            humidity: r.numbers[3].u16(),
        },
        9 => Response::State,
        10 => Response::Break,
        11 => Response::End,
        12 => Response::Text {
            id: r.numbers[2].u16(),
        },
        _ => Response::Other {
            id: r.numbers[2].u16(),
        },
    }
}

fn nibe(r: &Request<'_>) -> Nibe {
    match r.numbers[1].0 {
        14 => Nibe::Ask {
            register: r.numbers[2].u16(),
        },
        15 => Nibe::Reply(valued(r)),
        16 => Nibe::Put(valued(r)),
        17 => Nibe::Done {
            ok: r.numbers[2].truth(),
        },
        _ => Nibe::Other {
            command: r.numbers[2].u8(),
        },
    }
}

fn valued(r: &Request<'_>) -> Valued {
    Valued {
        register: r.numbers[2].u16(),
        width: r.numbers[3].u8(),
        value: r.numbers[4].u32(),
    }
}

fn homiq(r: &Request<'_>) -> Homiq {
    match r.numbers[1].0 {
        19 => Homiq::Output,
        20 => Homiq::Input,
        21 => Homiq::Shutter,
        22 => Homiq::Beat,
        _ => Homiq::Other,
    }
}

// The tag whose row is the second of the numbers, and whose field is the third; a row is its number in the table there.
pub(crate) fn tag(r: &Request<'_>) -> Tag {
    match r.numbers[1].0 {
        1 => Tag::Link,
        2 => Tag::Press,
        3 => Tag::Tail,
        4 => Tag::Command {
            id: r.numbers[2].u16(),
        },
        5 => Tag::Response {
            id: r.numbers[2].u16(),
        },
        6 => Tag::Nibe {
            command: r.numbers[2].u8(),
        },
        _ => Tag::Homiq,
    }
}

// What is said of a message: its row, and up to three fields.
pub(crate) fn said(message: Message) -> [u64; 4] {
    match message {
        Message::Nikobus(m) => said_nikobus(m),
        Message::Command { id } => [7, id as u64, 0, 0],
        Message::Response(m) => said_response(m),
        Message::Nibe(m) => said_nibe(m),
        Message::Homiq(m) => [homiq_row(m), 0, 0, 0],
    }
}

fn said_nikobus(message: Nikobus) -> [u64; 4] {
    match message {
        Nikobus::Read { group, address } => [1, group as u64, address as u64, 0],
        Nikobus::Set {
            group,
            address,
            out,
        } => [2, group as u64, address as u64, said_six(out)],
        Nikobus::Answer {
            address,
            third,
            out,
        } => [3, address as u64, third as u64, said_six(out)],
        Nikobus::Press(digits) => [4, said_six(digits), 0, 0],
        Nikobus::Tail => [5, 0, 0, 0],
        Nikobus::Link => [6, 0, 0, 0],
    }
}

// Six bytes as a number, low byte first.
fn said_six(s: Six) -> u64 {
    u64::from_le_bytes([s.a, s.b, s.c, s.d, s.e, s.f, 0, 0])
}

fn said_response(message: Response) -> [u64; 4] {
    match message {
        Response::Climate {
            temperature,
            humidity,
        } => [8, answer::bits(temperature as f64), humidity as u64, 0],
        Response::State => [9, 0, 0, 0],
        Response::Break => [10, 0, 0, 0],
        Response::End => [11, 0, 0, 0],
        Response::Text { id } => [12, id as u64, 0, 0],
        Response::Other { id } => [13, id as u64, 0, 0],
    }
}

fn said_nibe(message: Nibe) -> [u64; 4] {
    match message {
        Nibe::Ask { register } => [14, register as u64, 0, 0],
        Nibe::Reply(v) => said_valued(15, v),
        Nibe::Put(v) => said_valued(16, v),
        Nibe::Done { ok } => [17, ok as u64, 0, 0],
        Nibe::Other { command } => [18, command as u64, 0, 0],
    }
}

fn said_valued(row: u64, v: Valued) -> [u64; 4] {
    [row, v.register as u64, v.width as u64, v.value as u64]
}

fn homiq_row(message: Homiq) -> u64 {
    match message {
        Homiq::Output => 19,
        Homiq::Input => 20,
        Homiq::Shutter => 21,
        Homiq::Beat => 22,
        Homiq::Other => 23,
    }
}
