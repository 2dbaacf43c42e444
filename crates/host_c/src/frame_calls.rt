// Frames: the search, the test of one frame, and why none stands at a place.
ghost use Rattle.digits.specs.Paper.Part.{zero_ends};
ghost use Rattle.digits.specs.Paper.Refusals.{Answers};
ghost use Rattle.frames.specs.Paper.Search.{zero_hit, SearchCause, Leftmost};
ghost use Rattle.frames.specs.Paper.OneFrame.{OneFrameCause, OneFrame};
ghost use Rattle.frames.specs.Paper.Why.{WhyCause};
ghost use Rattle.host.specs.Paper.Answers.{hit_in, ends_in};
ghost use Rattle.host.specs.Paper.Why.{zero_judgement, JudgementAt, judgement_in};

use host::answers::{Found, Payload, Verdict};

// The frame with the smallest start at or after the place: `frames::search`.
#[unsafe(no_mangle)]
pub extern "C" fn bolsterweft_search(kind: u32, buffer: &[u8], place: usize) -> Found
    ensures { Answers zero_hit (SearchCause kind buffer.now place) (Leftmost kind buffer.now place) result.refusal (hit_in result) }
{
    host::frame_calls::bolsterweft_search(kind, buffer, place)
}

// Whether bytes are one frame and no byte more: `frames::one_frame`.
#[unsafe(no_mangle)]
pub extern "C" fn bolsterweft_one_frame(kind: u32, frame: &[u8]) -> Payload
    ensures { Answers zero_ends (OneFrameCause kind frame.now) (OneFrame kind frame.now) result.refusal (ends_in result) }
{
    host::frame_calls::bolsterweft_one_frame(kind, frame)
}

// The first test that a frame at the place fails: `frames::why`.
#[unsafe(no_mangle)]
pub extern "C" fn bolsterweft_why(kind: u32, buffer: &[u8], place: usize) -> Verdict
    ensures { Answers zero_judgement (WhyCause kind buffer.now place) (JudgementAt kind buffer.now place) result.refusal (judgement_in result) }
{
    host::frame_calls::bolsterweft_why(kind, buffer, place)
}
