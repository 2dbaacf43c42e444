// A request's arguments, read as its function says, into a record.
//
// A record is fourteen words of eight bytes, low byte first; then the bytes of the request; then the room. The words are
//
//     0         the number of the function, 0 for no request; of an answer the number of its form
//     1 to 8    numbers of the request; of an answer its values
//     9         the length of the record without the room, 256 at least: so much can be read at once
//     10, 11    where the last bytes that were given begin, and where they end
//     12        the length of the room that is lent: one that is not shown has room for any part of a request's bytes
//     13        how many bytes of it follow: all, or those of an answer, or none
//
// Each number has the next of the eight words. A message or a tag is its row, always in the second of them, and its fields, from the third
// on; what follows it stands from the sixth on. Bytes stand in the record: at most two arguments are bytes, and most often the last alone.
use super::types::Type;
use super::word::Words;
use super::{functions, word};

// What stands in a record: the function, its numbers, where the last bytes that were given begin and end, counted from the first byte of the
// request, and the length of the room, if one is shown.
#[derive(Clone, Copy)]
pub(crate) struct Request {
    function: u64,
    numbers: [u64; 8],
    last: usize,
    used: usize,
    room: Option<usize>,
}

impl Request {
    pub(crate) fn none() -> Request {
        Request {
            function: 0,
            numbers: [0; 8],
            last: 0,
            used: 0,
            room: None,
        }
    }

    // The length of the record without the room.
    pub(crate) fn size(&self) -> usize {
        self.end().max(256)
    }

    // How many bytes of the room follow.
    pub(crate) fn follow(&self) -> usize {
        self.room.unwrap_or(0)
    }

    pub(crate) fn words(&self) -> [u64; 14] {
        let n = self.numbers;
        [
            self.function,
            n[0],
            n[1],
            n[2],
            n[3],
            n[4],
            n[5],
            n[6],
            n[7],
            self.size() as u64,
            112u64.saturating_add(self.last as u64),
            self.end() as u64,
            self.room.unwrap_or(200_000) as u64,
            self.follow() as u64,
        ]
    }

    fn end(&self) -> usize {
        self.used.saturating_add(112)
    }
}

// Reads a request, and its bytes to the front of the store. A line that is none is function 0 with what stands before its wrong word.
pub(crate) fn read(line: &[u8], store: &mut [u8]) -> Request {
    let mut reading = Reading {
        request: Request::none(),
        next: 0,
        used: 0,
    };
    match reading.line(line, store) {
        Some(function) => Request {
            function,
            used: reading.used,
            ..reading.request
        },
        None => reading.request,
    }
}

// The messages, a row each: the name, and the types of the fields.
static MESSAGES: [(&str, &[Type]); 23] = [
    ("read", &[Type::U8, Type::U16]),
    ("set", &[Type::U8, Type::U16, Type::Six]),
    ("answer", &[Type::U16, Type::U8, Type::Six]),
    ("press", &[Type::Six]),
    ("tail", &[]),
    ("link", &[]),
    ("command", &[Type::U16]),
    ("climate", &[Type::I16, Type::U16]),
    ("state", &[]),
    ("break", &[]),
    ("end", &[]),
    ("text", &[Type::U16]),
    ("response", &[Type::U16]),
    ("ask", &[Type::U16]),
    ("reply", &[Type::U16, Type::U8, Type::U32]),
    ("put", &[Type::U16, Type::U8, Type::U32]),
    ("done", &[Type::Bool]),
    ("nibe", &[Type::U8]),
    ("output", &[]),
    ("input", &[]),
    ("shutter", &[]),
    ("beat", &[]),
    ("homiq", &[]),
];

// The tags of contents, likewise.
static TAGS: [(&str, &[Type]); 7] = [
    ("link", &[]),
    ("press", &[]),
    ("tail", &[]),
    ("command", &[Type::U16]),
    ("response", &[Type::U16]),
    ("nibe", &[Type::U8]),
    ("homiq", &[]),
];

// How far the reading is: what has been read, the place of the next number, and how many bytes of the store are taken.
#[derive(Clone, Copy)]
struct Reading {
    request: Request,
    next: usize,
    used: usize,
}

impl Reading {
    // Takes a line; the number of its function, if it is a request.
    fn line(&mut self, line: &[u8], store: &mut [u8]) -> Option<u64> {
        let mut words = Words::of(line);
        let function = functions::find(words.next()?)?;
        for t in function.types() {
            self.argument(*t, &mut words, store)?;
        }
        match words.next() {
            Some(_) => None,
            None => Some(function.number()),
        }
    }

    // Takes an argument of a type.
    fn argument(&mut self, t: Type, words: &mut Words<'_>, store: &mut [u8]) -> Option<()> {
        match t {
            Type::Message => self.named(&MESSAGES, words, store),
            Type::Tag => self.named(&TAGS, words, store),
            _ => self.plain(t, words, store),
        }
    }

    // Takes a message or a tag, whose rows these are.
    fn named(
        &mut self,
        rows: &[(&str, &[Type])],
        words: &mut Words<'_>,
        store: &mut [u8],
    ) -> Option<()> {
        let name = words.next()?;
        let row = rows.iter().position(|r| r.0.as_bytes() == name)?;
        let (_, types) = rows[row];
        self.next = 1;
        self.number(row as u64 + 1)?;
        for t in types {
            self.plain(*t, words, store)?;
        }
        self.next = 5;
        Some(())
    }

    // Takes a word as a value of a type that needs no other. One that is missing is empty, as no value is.
    fn plain(&mut self, t: Type, words: &mut Words<'_>, store: &mut [u8]) -> Option<()> {
        let word = words.next().unwrap_or_default();
        match t {
            Type::U8 => self.number(word::unsigned(word, 255)?),
            Type::U16 => self.number(word::unsigned(word, 65_535)?),
            Type::U32 => self.number(word::unsigned(word, 4_294_967_295)?),
            Type::U64 | Type::Usize => self.number(word::unsigned(word, u64::MAX)?),
            Type::I16 => self.number(word::signed(word, 1 << 15)?),
            Type::I32 => self.number(word::signed(word, 1 << 31)?),
            Type::I64 => self.number(word::signed(word, 1 << 63)?),
            Type::Bool => self.number(word::place(word, &["false", "true"])?),
            Type::Direction => self.number(word::place(word, &["command", "response"])?),
            Type::Decimals => self.number(word::place(word, &["0", "1", "2", "3"])?),
            Type::Refusal => self.number(word::place(word, &REFUSALS)?),
            Type::Kind => self.number(word::place(word, &KINDS)?),
            Type::Room => self.room(word),
            Type::Bytes => {
                self.bytes(word, store)?;
                Some(())
            }
            Type::Four => self.so_many(4, word, store),
            Type::Six => self.so_many(6, word, store),
            Type::Message | Type::Tag => None,
        }
    }

    fn number(&mut self, n: u64) -> Option<()> {
        let place = self.request.numbers.get_mut(self.next)?;
        *place = n;
        self.next += 1;
        Some(())
    }

    fn room(&mut self, word: &[u8]) -> Option<()> {
        let n = word::unsigned(word, 2_097_202)?;
        self.request.room = Some(n as usize);
        Some(())
    }

    // Takes bytes, to the store behind those that are there; how many they are.
    fn bytes(&mut self, word: &[u8], store: &mut [u8]) -> Option<usize> {
        let from = self.used;
        self.request.last = from;
        let n = word::bytes(word, store.get_mut(from..)?)?;
        self.used = from.checked_add(n)?;
        Some(n)
    }

    // Takes so many bytes.
    fn so_many(&mut self, n: usize, word: &[u8], store: &mut [u8]) -> Option<()> {
        if self.bytes(word, store)? == n {
            Some(())
        } else {
            None
        }
    }
}

static REFUSALS: [&str; 12] = [
    "NoFrame",
    "Kind",
    "Place",
    "Room",
    "Limits",
    "Above",
    "Form",
    "Book",
    "NoRegister",
    "BadSheet",
    "NotInGrammar",
    "BadMembers",
];

static KINDS: [&str; 5] = ["nikobus", "nest-command", "nest-response", "nibe", "homiq"];
