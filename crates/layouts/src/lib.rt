// The layouts of the buses' frames: what stands at the head of a slice.
#![tactic(auto)]

pub mod homiq;
pub mod nest;
pub mod nibe;
pub mod nikobus;
mod words;

ghost use Rattle.std.specs.Prelude.{◌≡◌};
ghost use Rattle.layouts.specs.Paper.Judged.{without, differing};

// The tests of a frame, in their order. A frame fails at the first that does not hold.
#[derive(Clone, Copy, Debug, PartialEq, Eq)]
pub enum Test {
    Start,
    Length,
    Fields,
    First,
    Second,
}

// A check's two values: the one that stands in the frame, and the one that is worked out.
#[derive(Clone, Copy, Debug, PartialEq, Eq)]
pub struct Compared {
    pub found: u16,
    pub expected: u16,
}

// A frame at the head of a slice: how long it is, and where in it its payload begins and ends.
#[derive(Clone, Copy, Debug, PartialEq, Eq)]
pub struct Frame {
    pub len: usize,
    pub from: usize,
    pub to: usize,
}

// Why no frame stands at the head of a slice: the test that it failed, with the values of a failed check, else zeros.
#[derive(Clone, Copy, Debug, PartialEq, Eq)]
pub struct Failure {
    pub test: Test,
    pub found: u16,
    pub expected: u16,
}

// A test that compares nothing failed.
impl From<Test> for Failure {
    ghost from_gives = { λ test failure. failure ≡ without test };

    fn from(test: Test) -> Failure {
        Failure {
            test,
            found: 0,
            expected: 0,
        }
    }
}

impl Compared {
    // A check failed: these values differ.
    fn failing(self, test: Test) -> Failure
        ensures { result ≡ differing test self }
    {
        Failure {
            test,
            found: self.found,
            expected: self.expected,
        }
    }
}
