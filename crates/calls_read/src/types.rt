// The types of parameters.

// `Four` and `Six` are so many bytes.
#[derive(Clone, Copy)]
pub(crate) enum Type {
    U8,
    U16,
    U32,
    U64,
    Usize,
    I16,
    I32,
    I64,
    Bool,
    Direction,
    Decimals,
    Refusal,
    Kind,
    Room,
    Bytes,
    Four,
    Six,
    Message,
    Tag,
}
