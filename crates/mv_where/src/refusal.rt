//! What a refusal names.

ghost use Rattle.std.specs.Prelude.{◌≡◌};
ghost use Rattle.mv_where.specs.Refusal.{is_refusal};

/// What a refusal names in a script. Bytes and calls count from 0; tokens, rows, columns and lines count from 1.
#[derive(Clone, Copy)]
pub enum Target<'a> {
    /// The script is too long to be looked at.
    All,
    /// What comes before the script in an input of `audit`.
    Head,
    Byte(u32),
    Token(u32),
    /// A row of VALUES or a record of a copy of this table, and where it is a field's fault its column.
    Row {
        table: &'a str,
        row: u32,
        column: u32,
    },
    /// A column of a row of this table that has no parent. Rows count in the order of their keys.
    Orphan {
        table: &'a str,
        row: u32,
        column: u32,
    },
    OpenBlock,
    /// A line of the journal.
    Line(u32),
    Call(u32),
}

/// A line of mv3c that refuses a script.
#[derive(Clone, Copy)]
pub struct Refusal<'a> {
    pub number: u32,
    /// What comes after the number.
    pub what: &'a str,
    pub target: Target<'a>,
}

/// Whether a text starts as a refusal does.
pub fn is_refusal(text: &[u8]) -> bool
    ensures { result ≡ is_refusal text.now }
{
    text.starts_with(b"refused ")
}

/// Returns the refusal that a line is. `None` if it names nothing or isn't such a line.
pub(crate) fn refusal_in(line: &str) -> Option<Refusal<'_>> {
    let (digits, what) = line.strip_prefix("refused ")?.split_once(' ')?;
    let number = number_in(digits)?;
    let target = target_of(number, what)?;
    Some(Refusal {
        number,
        what,
        target,
    })
}

fn target_of(number: u32, what: &str) -> Option<Target<'_>> {
    match number {
        1 => Some(Target::All),
        26 => Some(Target::Head),
        2 => Some(Target::Byte(number_in(what.strip_prefix("byte ")?)?)),
        3 => Some(Target::Byte(number_in(what.strip_prefix("token at ")?)?)),
        11 | 12 | 13 => row_of(what),
        23 => orphan_of(what),
        14 => Some(Target::OpenBlock),
        15..=20 | 25 => Some(Target::Line(number_in(what.strip_prefix("journal line ")?)?)),
        21 => Some(Target::Call(number_in(what.strip_prefix("call ")?)?)),
        _ => {
            let (_, token) = what.split_once(" at token ")?;
            Some(Target::Token(number_in(token)?))
        }
    }
}

pub(crate) fn number_in(digits: &str) -> Option<u32> {
    digits.parse::<u32>().ok()
}

/// Returns the row and the column that are named, where rows count in the order of their keys.
fn orphan_of(what: &str) -> Option<Target<'_>> {
    match row_of(what)? {
        Target::Row { table, row, column } => Some(Target::Orphan { table, row, column }),
        _ => None,
    }
}

/// Returns the row that is named as `table <name> row <r>`, which ` column <c>` may follow.
fn row_of(what: &str) -> Option<Target<'_>> {
    let (table, rest) = what.strip_prefix("table ")?.split_once(" row ")?;
    let (digits, column) = match rest.split_once(" column ") {
        Some((digits, column)) => (digits, number_in(column)?),
        None => (rest, 1),
    };
    Some(Target::Row {
        table,
        row: number_in(digits)?,
        column,
    })
}
