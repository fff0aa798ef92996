//! Tokens.

/// The kind of a token.
#[derive(Clone, Copy, PartialEq, Eq)]
pub enum Kind {
    Word,
    Number,
    Text,
    Variable,
    Symbol,
    /// A block with a closing line.
    Block,
    /// A block without a closing line. It extends to the end of the input.
    OpenBlock,
}

/// A token: its kind, the position of its first byte, from 0, and its length in bytes.
#[derive(Clone, Copy, PartialEq, Eq)]
pub struct Token {
    pub kind: Kind,
    pub at: u32,
    pub len: u32,
}
