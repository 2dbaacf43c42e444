// What is wrong with a sheet, in words: its first wrong line, and the first test that this line fails.
use sheet::faults::Test;

// Says it on standard error; of a good sheet nothing.
pub(crate) fn say(rt: &impl Eprint, text: &[u8]) {
    if let Some(fault) = sheet::fault(text) {
        let line = fault.line;
        let reason = reason(fault.test);
        let _ = eprint!(rt; "listing: sheet.txt, line {line}: {reason}\n");
    }
}

fn reason(test: Test) -> &'static str {
    match test {
        Test::Form => "it is not register,type,decimals",
        Test::Register => "the register is not 0 to 65535 without leading zeros",
        Test::TypeName => "the type is none of u8 s8 u16 s16 u32 s32",
        Test::Decimals => "the decimals are not 0 to 3",
        Test::NotRising => "the register does not rise",
        Test::Over500 => "a sheet has at most 500 lines",
        Test::NoLastLF => "its LF is missing",
    }
}
