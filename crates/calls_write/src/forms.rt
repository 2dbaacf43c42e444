// Answers as lines. An answer's form is a row of the tables below, and in it a mark stands for each value, in the order of the record:
// `#` for a number, `~` for a signed one, as the bits of the float that it is, `?` for `true` (1) or `false`. `&` stands for the six
// bytes that a number is, low byte first, `!` for a test of a frame, `$` for one of a sheet, `*` for what a text of JSON lacks, and `%` for
// that many bytes of the room.
ghost use Rattle.std.specs.Prelude.{◌<◌};

use super::float;

// Forms 1 to 22.
static PLAIN: [&str; 22] = [
    "refused #",
    "ok",
    "ok #",
    "ok # #",
    "ok # # #",
    "ok # # # #",
    "ok %",
    "ok true",
    "ok false",
    "ok ~",
    "ok ~ #",
    "ok single ~",
    "ok double ~",
    "ok single ~ single ~",
    "ok # # # high",
    "ok # # # low",
    "ok nikobus",
    "ok nest-command",
    "ok nest-response",
    "ok nibe",
    "ok homiq",
    "ok # ? #",
];

// The messages. Of the forms 23 to 45 each is a message, of the 23 behind them a message and two numbers, and of the 23 behind those four
// numbers and a message. Of the forms 95 to 117 each is a number, a message and a number.
static MESSAGES: [&str; 23] = [
    "read # #",
    "set # # &",
    "answer # # &",
    "press &",
    "tail",
    "link",
    "command #",
    "climate ~ #",
    "state",
    "break",
    "end",
    "text #",
    "response #",
    "ask #",
    "reply # # #",
    "put # # #",
    "done ?",
    "nibe #",
    "output",
    "input",
    "shutter",
    "beat",
    "homiq",
];

// Forms 92 to 94: the test that failed and its values, alone or behind the three places of a frame; a line of a sheet, and the test that
// failed.
static VERDICTS: [&str; 3] = ["ok ! # #", "ok # # # ! # #", "ok # $"];

// Forms 118 to 132: a place in a text of JSON, and what must stand there; what a command lacks; the sort of a member's value.
static TEXTS: [&str; 15] = [
    "ok # *",
    "ok nothing",
    "ok text",
    "ok object",
    "ok kind ?",
    "ok msg ?",
    "ok member # # ?",
    "ok extra",
    "ok volts",
    "ok number",
    "ok bytes #",
    "ok digits #",
    "ok content",
    "ok truth",
    "ok reading #",
];

// The names of a frame's tests.
static TESTS: [&str; 6] = ["none", "start", "length", "fields", "first", "second"];

// The names of a sheet's tests.
static SHEET_TESTS: [&str; 8] = [
    "none",
    "form",
    "register",
    "type",
    "decimals",
    "not-rising",
    "over-500",
    "no-last-LF",
];

// What a text of JSON lacks.
static LACKS: [&str; 9] = [
    "none",
    "long",
    "value",
    "depth",
    "name",
    "other-name",
    "colon",
    "comma",
    "end",
];

// The line of an answer; how many bytes it has. What no program has answered is no request.
pub(crate) fn line(words: &[u64; 14], room: &[u8], out: &mut [u8]) -> usize {
    let mut line = Answer {
        words,
        room,
        out,
        at: 0,
        next: 1,
    };
    line.say();
    line.byte(b'\n');
    line.at
}

// The line of a record: how far it is, and the word of the record that is the next value.
#[derive(Drop)]
struct Answer<'a> {
    words: &'a [u64; 14],
    room: &'a [u8],
    out: &'a mut [u8],
    at: usize,
    next: usize,
}

impl Answer<'_> {
    fn say(&mut self) {
        let form = self.words[0] as usize;
        match form {
            1..=22 => self.spell(PLAIN[form - 1]),
            23..=45 => self.message(form - 23, "ok", ""),
            46..=68 => self.message(form - 46, "ok", " # #"),
            69..=91 => self.message(form - 69, "ok # # # #", ""),
            92..=94 => self.spell(VERDICTS[form - 92]),
            95..=117 => self.message(form - 95, "ok #", " #"),
            118..=132 => self.spell(TEXTS[form - 118]),
            _ => return self.text("request?"),
        }
        self.shown();
    }

    // A message, and what stands before it and behind it. Its own values come first, and those beside it from the fourth on.
    fn message(&mut self, row: usize, before: &str, behind: &str)
        requires { row < 23 }
    {
        self.next = 4;
        self.spell(before);
        self.byte(b' ');
        let beside = self.next;
        self.next = 1;
        self.spell(MESSAGES[row]);
        self.next = beside;
        self.spell(behind);
    }

    fn spell(&mut self, row: &str) {
        for mark in row.bytes() {
            self.mark(mark);
        }
    }

    // A character that is no mark stands for itself.
    fn mark(&mut self, mark: u8) {
        match mark {
            b'#' => self.number(),
            b'~' => self.float(),
            b'?' => self.truth(),
            b'&' => self.six(),
            b'!' => self.name(&TESTS),
            b'$' => self.name(&SHEET_TESTS),
            b'*' => self.name(&LACKS),
            b'%' => self.answered(),
            _ => self.byte(mark),
        }
    }

    // Takes the next value.
    fn value(&mut self) -> u64 {
        let words = self.words;
        let value = words.get(self.next).copied().unwrap_or(0);
        self.next = self.next.saturating_add(1);
        value
    }

    fn number(&mut self) {
        let n = self.value();
        self.whole(n);
    }

    fn float(&mut self) {
        let bits = self.value();
        let at = self.at;
        let out = &mut *self.out;
        self.at = float::put(bits, out, at);
    }

    fn truth(&mut self) {
        match self.value() {
            1 => self.text("true"),
            _ => self.text("false"),
        }
    }

    // A name, by its place in the list of them; the last one for a place behind them.
    fn name(&mut self, names: &[&str]) {
        let n = self.value() as usize;
        self.text(names.get(n).or(names.last()).copied().unwrap_or_default());
    }

    fn six(&mut self) {
        let bytes = self.value().to_le_bytes();
        self.hex(&bytes[..6]);
    }

    // So many bytes of the room.
    fn answered(&mut self) {
        let n = self.value() as usize;
        let room = self.room;
        self.bytes(room.get(..n).unwrap_or_default());
    }

    // The whole room, if all of it has come: the bytes up to the last one that is not EE, and how many follow.
    fn shown(&mut self) {
        let room = self.room;
        if room.len() as u64 != self.words[12] {
            return;
        }
        let written = room.iter().rposition(|b| *b != 0xEE).map_or(0, |n| n + 1);
        let (written, rest) = room.split_at(written);
        self.text(" room ");
        self.bytes(written);
        self.byte(b'+');
        self.whole(rest.len() as u64);
    }

    // Bytes in hex; `-` for none.
    fn bytes(&mut self, s: &[u8]) {
        if s.is_empty() {
            self.byte(b'-');
        } else {
            self.hex(s);
        }
    }

    fn hex(&mut self, s: &[u8]) {
        let at = self.at;
        let out = &mut *self.out;
        self.at = puts::hex(s, out, at);
    }

    fn whole(&mut self, n: u64) {
        let at = self.at;
        let out = &mut *self.out;
        self.at = puts::whole(n, out, at);
    }

    fn text(&mut self, s: &str) {
        let at = self.at;
        let out = &mut *self.out;
        self.at = puts::bytes(s.as_bytes(), out, at);
    }

    fn byte(&mut self, b: u8) {
        let at = self.at;
        let out = &mut *self.out;
        self.at = puts::byte(b, out, at);
    }
}
