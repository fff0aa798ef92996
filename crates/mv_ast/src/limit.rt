//! The limits of the language.

/// A limit of the language. If two limits are passed at one token, the one listed first counts.
#[derive(Clone, Copy, PartialEq, Eq)]
pub enum Which {
    /// The nesting depth of parentheses, IF, FOR and BEGIN: at most 32.
    Depth,
    /// The number of successive tokens without `;`, `,` or a block: at most 1,000.
    Stretch,
    /// The length of a name in bytes, without the colon of a variable: at most 64.
    Name,
    /// A number: at most 9,223,372,036,854,775,807.
    Literal,
    /// The length of a text in bytes: at most 4,000. Also the number in the parentheses of TEXT: from 1 to 4,000.
    Text,
    /// The tables of a script: at most 64.
    Tables,
    /// The procedures of a script: at most 256.
    Procedures,
    /// The columns of a table or of a ROWS parameter, and the items in a list of a statement or in a literal row: at
    /// most 32.
    Columns,
    /// The key columns of a table: at most 8.
    Key,
    /// The parameters of a procedure: at most 16.
    Parameters,
    /// The declared variables of a procedure: at most 64.
    Variables,
    /// The statements of a procedure, nested ones included: at most 1,000.
    Statements,
    /// The calls of a script: at most 1,000,000.
    Calls,
    /// The rows of one ROWS argument: at most 1,000.
    Rows,
}

/// A limit, and the number of the first token that passes it, counted from 1.
#[derive(Clone, Copy)]
pub struct PassedLimit {
    pub which: Which,
    pub token: u32,
}
