// What is wrong with a sheet.

// The tests of a sheet's line, in their order.
#[derive(Clone, Copy, Debug, PartialEq, Eq)]
pub enum Test {
    Form,
    Register,
    TypeName,
    Decimals,
    NotRising,
    Over500,
    NoLastLF,
}

// The first line that is wrong, counted from 1, and the first test that it fails.
#[derive(Clone, Copy, Debug, PartialEq, Eq)]
pub struct Fault {
    pub line: usize,
    pub test: Test,
}
