// The constants of a check.

// In which order a check takes the bits of each byte.
#[derive(Clone, Copy, Debug, PartialEq, Eq)]
pub enum BitOrder {
    HighBitFirst,
    LowBitFirst,
}

// A check's constants: the polynomial's bits stand in the check's order, without the highest term.
#[derive(Clone, Copy, Debug, PartialEq, Eq)]
pub struct Rule {
    pub width: u8,
    pub poly: u16,
    pub start: u16,
    pub order: BitOrder,
}
