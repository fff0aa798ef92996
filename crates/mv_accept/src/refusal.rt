//! The reasons why a script is refused, with a number and a line for each.

ghost use Rattle.std.specs.Prelude.{◌≡◌, ◌++◌, IfOk, All, codes, decimal};
ghost use Rattle.mv_values.specs.Printable.{IsPrintable};
ghost use Rattle.mv_accept.specs.Refusals.{number_of, line_of, limit_name};

use mv_ast::limit::Which;
use mv_values::memory::NoMemory;
use mv_values::txt::Txt;
use std::alloc::Global;

/// Why a script is refused. Bytes are counted from 0; tokens, rows and columns from 1.
#[derive(Drop)]
pub enum ScriptRefusal {
    /// The script has more than 2^24 bytes.
    TooLong,
    /// No script contains this byte. It is the first such byte.
    Byte { at: u32 },
    /// No token begins at this position. It is the first such position.
    Token { at: u32 },
    /// No script continues with this token. It is the first such token, or one past the last.
    Syntax { token: u32 },
    /// This limit is exceeded, and this is the first token at which it is.
    Limit { which: Which, token: u32 },
    /// There is no table, column, procedure, variable, loop or key column of this name.
    UnknownName { token: u32 },
    /// The name is already taken.
    DoubleName { token: u32 },
    /// The part doesn't have the required type or length, or it is set and isn't a declared variable.
    WrongType { token: u32 },
    /// An update sets a key column.
    KeyAssigned { token: u32 },
    /// An item comes after one of a later kind, or it is a second journal.
    Late { token: u32 },
    /// A READ ONLY procedure changes this table.
    Writes { token: u32 },
    /// The field of a copy isn't a value of its column's type.
    Field { table: Txt, row: u32, column: u32 },
    /// The record of a copy doesn't have one field for each column of its table.
    Width { table: Txt, row: u32 },
    /// The table already has a row with this row's key. The row is counted within VALUES or within the copy's block.
    Duplicate { table: Txt, row: u32 },
    /// The block of a copy or of the journal isn't closed.
    OpenBlock,
    /// A column with REFERENCES holds a value that is the key of no row of its parent table. The row is counted in key
    /// order.
    MissingParent { table: Txt, row: u32, column: u32 },
}

impl ScriptRefusal {
    /// Returns the number of the refusal: from 1 to 14, 23 or 24.
    pub fn number(&self) -> u32
        ensures { result ≡ number_of self.now }
    {
        match self {
            ScriptRefusal::TooLong => 1,
            ScriptRefusal::Byte { .. } => 2,
            ScriptRefusal::Token { .. } => 3,
            ScriptRefusal::Syntax { .. } => 4,
            ScriptRefusal::Limit { .. } => 5,
            ScriptRefusal::UnknownName { .. } => 6,
            ScriptRefusal::DoubleName { .. } => 7,
            ScriptRefusal::WrongType { .. } => 8,
            ScriptRefusal::KeyAssigned { .. } => 9,
            ScriptRefusal::Late { .. } => 10,
            ScriptRefusal::Writes { .. } => 24,
            ScriptRefusal::Field { .. } => 11,
            ScriptRefusal::Width { .. } => 12,
            ScriptRefusal::Duplicate { .. } => 13,
            ScriptRefusal::OpenBlock => 14,
            ScriptRefusal::MissingParent { .. } => 23,
        }
    }

    /// Returns the line that reports the refusal, without a line end.
    ///
    /// # Errors
    /// `NoMemory` if memory runs out.
    pub fn line(&self, alloc: Global) -> Result<Txt, NoMemory>
        ensures { IfOk result (λ line. line ≡ line_of self.now) }
    {
        match self {
            ScriptRefusal::TooLong => Txt::of(alloc, b"refused 1 too long"),
            ScriptRefusal::Byte { at } => numbered(alloc, b"refused 2 byte ", *at),
            ScriptRefusal::Token { at } => numbered(alloc, b"refused 3 token at ", *at),
            ScriptRefusal::Syntax { token } => numbered(
                alloc,
                b"refused 4 syntax at token ",
                *token,
            ),
            ScriptRefusal::Limit { which, token } => limit_line(alloc, *which, *token),
            ScriptRefusal::UnknownName { token } => {
                numbered(alloc, b"refused 6 unknown name at token ", *token)
            }
            ScriptRefusal::DoubleName { token } => {
                numbered(alloc, b"refused 7 double name at token ", *token)
            }
            ScriptRefusal::WrongType { token } => {
                numbered(alloc, b"refused 8 wrong type at token ", *token)
            }
            ScriptRefusal::KeyAssigned { token } => {
                numbered(alloc, b"refused 9 key assigned at token ", *token)
            }
            ScriptRefusal::Late { token } => numbered(alloc, b"refused 10 late at token ", *token),
            ScriptRefusal::Writes { token } => numbered(
                alloc,
                b"refused 24 write at token ",
                *token,
            ),
            ScriptRefusal::Field { table, row, column } => {
                column_line(alloc, b"refused 11 table ", table, *row, *column)
            }
            ScriptRefusal::Width { table, row } => row_line(
                alloc,
                b"refused 12 table ",
                table,
                *row,
            ),
            ScriptRefusal::Duplicate { table, row } => row_line(
                alloc,
                b"refused 13 table ",
                table,
                *row,
            ),
            ScriptRefusal::OpenBlock => Txt::of(alloc, b"refused 14 open block"),
            ScriptRefusal::MissingParent { table, row, column } => {
                column_line(alloc, b"refused 23 table ", table, *row, *column)
            }
        }
    }
}

/// Returns a text followed by a number.
fn numbered(alloc: Global, front: &[u8], number: u32) -> Result<Txt, NoMemory>
    requires { All IsPrintable front.now }
    ensures { IfOk result (λ text. text ≡ front.now ++ decimal number) }
{
    let mut text = Txt::of(alloc, front)?;
    text.append(number.to_string(alloc)?.as_bytes())?;
    Ok(text)
}

/// Returns a text followed by a table and a row.
fn row_line(alloc: Global, front: &[u8], table: &Txt, row: u32) -> Result<Txt, NoMemory>
    requires { All IsPrintable front.now }
    ensures { IfOk result (λ text. text ≡ front.now ++ table.now ++ codes " row " ++ decimal row) }
{
    let mut text = Txt::of(alloc, front)?;
    text.append(table.as_slice())?;
    text.append(b" row ")?;
    text.append(row.to_string(alloc)?.as_bytes())?;
    Ok(text)
}

/// Returns a text followed by a table, a row and a column.
fn column_line(
    alloc: Global,
    front: &[u8],
    table: &Txt,
    row: u32,
    column: u32,
) -> Result<Txt, NoMemory>
    requires { All IsPrintable front.now }
    ensures { IfOk result (λ line. line ≡ front.now ++ table.now ++ codes " row " ++ decimal row ++ codes " column " ++ decimal column) }
{
    let mut line = row_line(alloc, front, table, row)?;
    line.append(b" column ")?;
    line.append(column.to_string(alloc)?.as_bytes())?;
    Ok(line)
}

/// Returns the line of `Limit`.
fn limit_line(alloc: Global, which: Which, token: u32) -> Result<Txt, NoMemory>
    ensures { IfOk result (λ line. line ≡ codes "refused 5 limit " ++ limit_name which ++ codes " at token " ++ decimal token) }
{
    let mut line = Txt::of(alloc, b"refused 5 limit ")?;
    line.append(limit_name(which))?;
    line.append(b" at token ")?;
    line.append(token.to_string(alloc)?.as_bytes())?;
    Ok(line)
}

/// Returns the printed name of a limit.
fn limit_name(which: Which) -> &'static [u8]
    ensures name { result.now ≡ limit_name which }
    ensures printable { All IsPrintable result.now }
{
    match which {
        Which::Depth => b"depth",
        Which::Stretch => b"stretch",
        Which::Name => b"name",
        Which::Literal => b"literal",
        Which::Text => b"text",
        Which::Tables => b"tables",
        Which::Procedures => b"procedures",
        Which::Columns => b"columns",
        Which::Key => b"key",
        Which::Parameters => b"parameters",
        Which::Variables => b"variables",
        Which::Statements => b"statements",
        Which::Calls => b"calls",
        Which::Rows => b"rows",
    }
}
