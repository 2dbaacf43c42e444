// Answers, of the forms in crates/calls_write/src/forms.rt.
use digits::refusal;
use digits::refusal::Refusal;
use frames::kinds::Kind;
use frames::{Found, FramePayload};
use layouts::{Failure, Frame};

#[derive(Clone, Copy, Debug, PartialEq, Eq)]
pub(crate) enum Answer {
    Refused(Refusal),
    Number(u64),
    Payload(FramePayload),
    Found(Found),
    // so many bytes at the front of the room
    Bytes(usize),
    Truth(bool),
    Kind(Kind),
    Why(Option<Failure>),
    AtHead(Result<Frame, Failure>),
}

impl Answer {
    // The number of the form, and the values. A kind, a direction and a test are given by their places in the lists of forms.rt, which are in the
    // order of their enums, behind `none`.
    pub(crate) fn words(self) -> [u64; 7] {
        match self {
            Answer::Refused(why) => [1, refusal::number(why) as u64, 0, 0, 0, 0, 0],
            Answer::Number(n) => [3, n, 0, 0, 0, 0, 0],
            Answer::Payload(p) => [4, p.from as u64, p.to as u64, 0, 0, 0, 0],
            Answer::Found(f) => [
                6,
                f.start as u64,
                f.len as u64,
                f.from as u64,
                f.to as u64,
                0,
                0,
            ],
            Answer::Bytes(n) => [7, n as u64, 0, 0, 0, 0, 0],
            Answer::Truth(true) => [8, 0, 0, 0, 0, 0, 0],
            Answer::Truth(false) => [9, 0, 0, 0, 0, 0, 0],
            Answer::Kind(kind) => [kind as u64 + 17, 0, 0, 0, 0, 0, 0],
            Answer::Why(None) => [92, 0, 0, 0, 0, 0, 0],
            Answer::Why(Some(f)) => {
                let [test, found, expected] = failed(f);
                [92, test, found, expected, 0, 0, 0]
            }
            Answer::AtHead(Ok(f)) => [93, f.len as u64, f.from as u64, f.to as u64, 0, 0, 0],
            Answer::AtHead(Err(f)) => {
                let [test, found, expected] = failed(f);
                [93, 0, 0, 0, test, found, expected]
            }
        }
    }
}

fn failed(f: Failure) -> [u64; 3] {
    [f.test as u64 + 1, f.found as u64, f.expected as u64]
}
