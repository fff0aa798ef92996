//! Accepts a script: turns its bytes into a program, step by step.

ghost use Rattle.std.specs.Prelude.{◌≡◌, ◌≤◌, length, IfOk, All};
ghost use Rattle.mv_lex.specs.Tokens.{IsSpelledIn};
ghost use Rattle.mv_catalog.specs.Text.{FitsText};
ghost use Rattle.mv_record.specs.Databases.{IsProgram};
ghost use Rattle.mv_accept.specs.Exact.{Exact};
ghost use Rattle.mv_accept.specs.Accepting.{HasTokens, HasNoTokens, Spells, SpellsNothing, StandsFor, StandsForNothing, Loads, LoadsNothing, Accepts, Refuses, TellsOfRows, TellsOfParents, most_calls, table_name};
ghost use Rattle.mv_accept.specs.Telling.{OfOpening, OfParents};

use crate::refusal::ScriptRefusal;
use mv_ast::tree::Script;
use mv_catalog::resolved::{Program, Resolved};
use mv_lex::lexer::{LexFault, lex};
use mv_lex::token::Token;
use mv_opening::fault::{OpeningFault, ParentFault};
use mv_opening::opening::opening;
use mv_opening::parents::parents;
use mv_parser::fault::ParseFault;
use mv_parser::parse::parse;
use mv_resolve::refused::NameFault;
use mv_resolve::resolve::resolve;
use mv_values::copied::Copied;
use mv_values::list::List;
use mv_values::memory::NoMemory;
use mv_values::txt::Txt;
use std::alloc::Global;

/// The greatest number of bytes that a script may have: 2^24.
pub const MOST_BYTES: usize = 16_777_216;

/// Why a script wasn't accepted.
#[derive(Drop)]
pub enum NotAccepted {
    Refused(ScriptRefusal),
    NoMemory,
}

impl From<NoMemory> for NotAccepted {
    ghost use Rattle.std.specs.Prelude.{◌≡◌};
    ghost use Rattle.mv_accept.specs.declared.accept.NotAccepted.TheVariants as failure;

    ghost from_gives = { λ _ e. e ≡ failure.NoMemory };

    fn from(_error: NoMemory) -> NotAccepted {
        NotAccepted::NoMemory
    }
}

impl From<LexFault> for NotAccepted {
    ghost use Rattle.std.specs.Prelude.{◌≡◌};
    ghost use Rattle.mv_accept.specs.Telling.{of_lexing};

    ghost from_gives = { λ fault e. e ≡ of_lexing fault };

    fn from(fault: LexFault) -> NotAccepted {
        match fault {
            LexFault::BadByte { at } => NotAccepted::Refused(ScriptRefusal::Byte { at }),
            LexFault::BadToken { at } => NotAccepted::Refused(ScriptRefusal::Token { at }),
            LexFault::NoMemory => NotAccepted::NoMemory,
        }
    }
}

impl From<ParseFault> for NotAccepted {
    ghost use Rattle.std.specs.Prelude.{◌≡◌};
    ghost use Rattle.mv_accept.specs.Telling.{of_parsing};

    ghost from_gives = { λ fault e. e ≡ of_parsing fault };

    fn from(fault: ParseFault) -> NotAccepted {
        match fault {
            ParseFault::Syntax { token } => NotAccepted::Refused(ScriptRefusal::Syntax { token }),
            ParseFault::Limit { which, token } => NotAccepted::Refused(ScriptRefusal::Limit {
                which,
                token,
            }),
            ParseFault::NoMemory => NotAccepted::NoMemory,
        }
    }
}

impl From<NameFault> for NotAccepted {
    ghost use Rattle.std.specs.Prelude.{◌≡◌};
    ghost use Rattle.mv_accept.specs.Telling.{of_naming};

    ghost from_gives = { λ fault e. e ≡ of_naming fault };

    fn from(fault: NameFault) -> NotAccepted {
        match fault {
            NameFault::UnknownName { token } => NotAccepted::Refused(ScriptRefusal::UnknownName {
                token,
            }),
            NameFault::DoubleName { token } => NotAccepted::Refused(ScriptRefusal::DoubleName {
                token,
            }),
            NameFault::WrongType { token } => NotAccepted::Refused(ScriptRefusal::WrongType {
                token,
            }),
            NameFault::KeyAssigned { token } => NotAccepted::Refused(ScriptRefusal::KeyAssigned {
                token,
            }),
            NameFault::Late { token } => NotAccepted::Refused(ScriptRefusal::Late { token }),
            NameFault::Writes { token } => NotAccepted::Refused(ScriptRefusal::Writes { token }),
            NameFault::NoMemory => NotAccepted::NoMemory,
        }
    }
}

/// Returns the program of these bytes: the resolved script, and the database that its calls begin with. Takes time
/// linear in the number of bytes, and n log n for n rows.
///
/// # Errors
/// `Refused` with the first check that fails. The checks run in this order:
/// 1. the number of bytes,
/// 2. bytes that no script contains,
/// 3. positions at which no token begins,
/// 4. the limits of depth and stretch,
/// 5. the grammar,
/// 6. the other limits,
/// 7. names and types,
/// 8. the rows of VALUES, table by table,
/// 9. the copies, in the order of the text,
/// 10. the journal's block,
/// 11. the parents of the rows, table by table.
///
/// `NoMemory` is returned if memory runs out.
pub fn accept(alloc: Global, bytes: &[u8]) -> Result<Program, NotAccepted>
    ensures exact { Exact (Accepts bytes.now) (Refuses bytes.now) result }
    // An accepted program is consistent, and its calls begin with a database of its tables.
    ensures whole { IfOk result IsProgram }
    ensures few { IfOk result (λ program. length program.resolved.calls ≤ most_calls) }
{
    let program = program_of(alloc, bytes)?;
    match parents(alloc, &program.resolved.tables, &program.opening) {
        Ok(()) => Ok(program),
        Err(fault) => Err(of_parents(alloc, &program.resolved, fault)),
    }
}

/// Returns the program of these bytes, whose rows may lack parents.
fn program_of(alloc: Global, bytes: &[u8]) -> Result<Program, NotAccepted>
    ensures exact { Exact (Loads bytes.now) (LoadsNothing bytes.now) result }
    ensures whole { IfOk result IsProgram }
    ensures few { IfOk result (λ program. length program.resolved.calls ≤ most_calls) }
{
    let resolved = resolved_of(alloc, bytes)?;
    match opening(alloc, &resolved, bytes) {
        Ok(opening) => Ok(Program { resolved, opening }),
        Err(fault) => Err(of_opening(alloc, &resolved, fault)),
    }
}

/// Returns the resolved script of the bytes.
fn resolved_of(alloc: Global, bytes: &[u8]) -> Result<Resolved, NotAccepted>
    ensures exact { Exact (StandsFor bytes.now) (StandsForNothing bytes.now) result }
    ensures whole { IfOk result FitsText }
{
    let script = script_of(alloc, bytes)?;
    Ok(resolve(alloc, script)?)
}

/// Returns the script that the bytes spell.
fn script_of(alloc: Global, bytes: &[u8]) -> Result<Script, NotAccepted>
    ensures { Exact (Spells bytes.now) (SpellsNothing bytes.now) result }
{
    let tokens = tokens_of(alloc, bytes)?;
    Ok(parse(alloc, &tokens, bytes)?)
}

/// Returns the tokens of the bytes.
fn tokens_of(alloc: Global, bytes: &[u8]) -> Result<List<Token>, NotAccepted>
    ensures exact { Exact (HasTokens bytes.now) (HasNoTokens bytes.now) result }
    ensures spelled { IfOk result (All (IsSpelledIn bytes.now)) }
{
    if MOST_BYTES < bytes.len() {
        return Err(NotAccepted::Refused(ScriptRefusal::TooLong));
    }
    Ok(lex(alloc, bytes)?)
}

fn of_opening(alloc: Global, resolved: &Resolved, fault: OpeningFault) -> NotAccepted
    ensures { OfOpening resolved.now fault result }
{
    match refusal_of(alloc, resolved, fault) {
        Ok(refusal) => NotAccepted::Refused(refusal),
        Err(_) => NotAccepted::NoMemory,
    }
}

/// Returns the refusal for an error of the opening, with the name of the table.
fn refusal_of(
    alloc: Global,
    resolved: &Resolved,
    fault: OpeningFault,
) -> Result<ScriptRefusal, NoMemory>
    ensures { IfOk result (TellsOfRows resolved.now fault) }
{
    match fault {
        OpeningFault::Field { table, row, column } => Ok(ScriptRefusal::Field {
            table: table_name(alloc, resolved, table as usize)?,
            row,
            column,
        }),
        OpeningFault::Width { table, row } => Ok(ScriptRefusal::Width {
            table: table_name(alloc, resolved, table as usize)?,
            row,
        }),
        OpeningFault::Duplicate { table, row } => Ok(ScriptRefusal::Duplicate {
            table: table_name(alloc, resolved, table as usize)?,
            row,
        }),
        OpeningFault::OpenBlock => Ok(ScriptRefusal::OpenBlock),
        OpeningFault::NoMemory => Err(NoMemory),
    }
}

fn of_parents(alloc: Global, resolved: &Resolved, fault: ParentFault) -> NotAccepted
    ensures { OfParents resolved.now fault result }
{
    match refusal_of_parents(alloc, resolved, fault) {
        Ok(refusal) => NotAccepted::Refused(refusal),
        Err(_) => NotAccepted::NoMemory,
    }
}

/// Returns the refusal for a row without its parent, with the name of the table.
fn refusal_of_parents(
    alloc: Global,
    resolved: &Resolved,
    fault: ParentFault,
) -> Result<ScriptRefusal, NoMemory>
    ensures { IfOk result (TellsOfParents resolved.now fault) }
{
    match fault {
        ParentFault::Missing { table, row, column } => Ok(ScriptRefusal::MissingParent {
            table: table_name(alloc, resolved, table as usize)?,
            row,
            column,
        }),
        ParentFault::NoMemory => Err(NoMemory),
    }
}

/// Returns the name of the table with this number.
fn table_name(alloc: Global, resolved: &Resolved, table: usize) -> Result<Txt, NoMemory>
    ensures { IfOk result (λ name. name ≡ table_name resolved.now table) }
{
    match resolved.tables.as_slice().get(table) {
        Some(table) => table.name.copy(alloc),
        None => Ok(Txt::new(alloc)),
    }
}
