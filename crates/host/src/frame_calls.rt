// Frames: the search, the test of one frame, and why none stands at a place.
ghost use Rattle.std.specs.Prelude.{◌≡◌};
ghost use Rattle.digits.specs.Paper.Part.{zero_ends};
ghost use Rattle.digits.specs.Paper.Refusals.{Answers};
ghost use Rattle.frames.specs.Paper.Search.{zero_hit, SearchCause, Leftmost};
ghost use Rattle.frames.specs.Paper.OneFrame.{OneFrameCause, OneFrame};
ghost use Rattle.frames.specs.Paper.Why.{WhyCause, test_number};
ghost use Rattle.host.specs.Paper.Answers.{hit_in, ends_in};
ghost use Rattle.host.specs.Paper.Why.{zero_judgement, JudgementAt, judgement_in};

use super::answers;
use super::answers::{Found, Payload, Verdict};
use layouts::Test;

// The frame with the smallest start at or after the place: `frames::search`.
#[unsafe(no_mangle)]
pub extern "C" fn bolsterweft_search(kind: u32, buffer: &[u8], place: usize) -> Found
    ensures { Answers zero_hit (SearchCause kind buffer.now place) (Leftmost kind buffer.now place) result.refusal (hit_in result) }
{
    match frames::search(answers::kind_byte(kind), buffer, place) {
        Ok(found) => Found {
            refusal: 0,
            start: found.start,
            length: found.len,
            payload_start: found.from,
            payload_length: found.to - found.from,
        },
        Err(why) => Found {
            refusal: answers::refusal_number(why),
            start: 0,
            length: 0,
            payload_start: 0,
            payload_length: 0,
        },
    }
}

// Whether bytes are one frame and no byte more: `frames::one_frame`.
#[unsafe(no_mangle)]
pub extern "C" fn bolsterweft_one_frame(kind: u32, frame: &[u8]) -> Payload
    ensures { Answers zero_ends (OneFrameCause kind frame.now) (OneFrame kind frame.now) result.refusal (ends_in result) }
{
    match frames::one_frame(answers::kind_byte(kind), frame) {
        Ok(payload) => Payload {
            refusal: 0,
            payload_start: payload.from,
            payload_length: payload.to - payload.from,
        },
        Err(why) => Payload {
            refusal: answers::refusal_number(why),
            payload_start: 0,
            payload_length: 0,
        },
    }
}

// The first test that a frame at the place fails: `frames::why`.
#[unsafe(no_mangle)]
pub extern "C" fn bolsterweft_why(kind: u32, buffer: &[u8], place: usize) -> Verdict
    ensures { Answers zero_judgement (WhyCause kind buffer.now place) (JudgementAt kind buffer.now place) result.refusal (judgement_in result) }
{
    match frames::why(answers::kind_byte(kind), buffer, place) {
        Ok(None) => Verdict {
            refusal: 0,
            test: 0,
            found: 0,
            expected: 0,
        },
        Ok(Some(failure)) => Verdict {
            refusal: 0,
            test: test_number(failure.test),
            found: failure.found as u32,
            expected: failure.expected as u32,
        },
        Err(why) => Verdict {
            refusal: answers::refusal_number(why),
            test: 0,
            found: 0,
            expected: 0,
        },
    }
}

// The number of a test.
fn test_number(test: Test) -> u32
    ensures { result ≡ test_number test }
{
    match test {
        Test::Start => 1,
        Test::Length => 2,
        Test::Fields => 3,
        Test::First => 4,
        Test::Second => 5,
    }
}
