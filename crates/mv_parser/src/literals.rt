//! Parses literals and the types of columns.

ghost use Rattle.std.specs.Prelude.{◌≡◌, ℕ, drop, IsTrue, min, length};
ghost use Rattle.mv_ast.specs.Parts.{give, one};
ghost use Rattle.mv_ast.specs.declared.lexeme.Terminal.TheVariants as word;
ghost use Rattle.mv_ast.specs.Grammar.{◌▸◌, commas, optional, or_none, in_parens, name, literal, lit_row, lit_rows, row_col, col_def, column_type, opening_rows, number_of};
ghost use Rattle.mv_parser.specs.Fitting.{fits};
ghost use Rattle.mv_parser.specs.Reading.{inside, read};
ghost use Rattle.mv_parser.specs.Answers.{ReadsPart};

use crate::fault::Failure;
use crate::lists::Parse;
use crate::reader::Reader;
use mv_ast::lexeme::{Lexeme, Terminal};
use mv_ast::tree::{ColDef, Lit, LitRow, LitRows, Name};
use mv_values::list::List;
use mv_values::schema::ColType;
use mv_values::value::Value;

impl Parse for Name {
    ghost reading = { λ bytes depth ts. read (inside bytes depth) (name bytes) ts };

    fn parse(reader: &Reader, at: usize) -> Result<(Name, usize), Failure> {
        reader.name(at)
    }
}

impl Parse for Lit {
    ghost reading = { λ bytes depth ts. read (inside bytes depth) (literal bytes) ts };

    fn parse(reader: &Reader, at: usize) -> Result<(Lit, usize), Failure> {
        reader.literal(at)
    }
}

impl Parse for LitRow {
    ghost reading = { λ bytes depth ts. read (inside bytes depth) (lit_row bytes) ts };

    fn parse(reader: &Reader, at: usize) -> Result<(LitRow, usize), Failure> {
        reader.lit_row(at)
    }
}

impl Parse for ColDef {
    ghost reading = { λ bytes depth ts. read (inside bytes depth) (row_col bytes) ts };

    fn parse(reader: &Reader, at: usize) -> Result<(ColDef, usize), Failure> {
        reader.row_col(at)
    }
}

impl Reader<'_> {
    /// Parses a literal.
    #[tactic(auto, unfolding(mv_ast::specs::Grammar::literal))]
    pub(crate) fn literal(&self, at: usize) -> Result<(Lit, usize), Failure>
        ensures { ReadsPart self.now at literal result }
    {
        if self.has(at, Terminal::Minus) {
            let (token, at) = self.place(at, Terminal::Minus)?;
            let (lexeme, at) = self.one(at, Terminal::Number)?;
            let value = Value::Int(0 - self.number_of(lexeme));
            return Ok((Lit { value, token }, at));
        }
        if self.has(at, Terminal::Number) {
            let (lexeme, at) = self.one(at, Terminal::Number)?;
            let value = Value::Int(self.number_of(lexeme));
            let token = lexeme.number;
            return Ok((Lit { value, token }, at));
        }
        let (lexeme, at) = self.one(at, Terminal::Quoted)?;
        let value = Value::Text(self.text_of(lexeme)?);
        let token = lexeme.number;
        Ok((Lit { value, token }, at))
    }

    /// Parses a row of literals.
    #[tactic(auto, unfolding(mv_ast::specs::Grammar::lit_row))]
    pub(crate) fn lit_row(&self, at: usize) -> Result<(LitRow, usize), Failure>
        ensures { ReadsPart self.now at lit_row result }
    {
        let (token, at) = self.place(at, Terminal::Open)?;
        let (values, at) = self.separated(at, Terminal::Comma)?;
        self.followed(LitRow { token, values }, at, Terminal::Close)
    }

    /// Parses an argument that is a list of rows.
    #[tactic(auto, unfolding(mv_ast::specs::Grammar::lit_rows))]
    pub(crate) fn lit_rows(&self, at: usize) -> Result<(LitRows, usize), Failure>
        ensures { ReadsPart self.now at lit_rows result }
    {
        let (token, at) = self.place(at, Terminal::Rows)?;
        let (_, at) = self.one(at, Terminal::Open)?;
        let (rows, at) = self.rows_inside(at)?;
        let (rows, at) = self.followed(rows, at, Terminal::Close)?;
        Ok((LitRows { token, rows }, at))
    }

    /// Parses the rows between the parentheses of an argument.
    #[tactic(auto, unfolding(mv_ast::specs::Grammar::lit_row))]
    fn rows_inside(&self, at: usize) -> Result<(List<LitRow>, usize), Failure>
        ensures { ReadsPart self.now at (λ bytes. or_none (commas (lit_row bytes))) result }
    {
        if !self.has(at, Terminal::Open) {
            return Ok((List::new(self.alloc), at));
        }
        self.separated(at, Terminal::Comma)
    }

    /// Parses the initial rows of a table.
    #[tactic(auto, unfolding(mv_ast::specs::Grammar::opening_rows))]
    pub(crate) fn opening_rows(&self, at: usize) -> Result<(List<LitRow>, usize), Failure>
        ensures { ReadsPart self.now at opening_rows result }
    {
        if !self.has(at, Terminal::Values) {
            return Ok((List::new(self.alloc), at));
        }
        let (_, at) = self.one(at, Terminal::Values)?;
        self.separated(at, Terminal::Comma)
    }

    /// Parses a column of a ROWS parameter: its name and its type.
    #[tactic(auto, unfolding(mv_ast::specs::Grammar::row_col))]
    fn row_col(&self, at: usize) -> Result<(ColDef, usize), Failure>
        ensures { ReadsPart self.now at row_col result }
    {
        let (name, at) = self.name(at)?;
        let (kind, at) = self.column_type(at)?;
        let column = ColDef {
            name,
            kind,
            refers: None,
        };
        Ok((column, at))
    }

    /// Parses a column of a table: its name, its type, and its parent table if it has one.
    #[tactic(auto, unfolding(mv_ast::specs::Grammar::col_def))]
    pub(crate) fn col_def(&self, at: usize) -> Result<(ColDef, usize), Failure>
        ensures { ReadsPart self.now at col_def result }
    {
        let (name, at) = self.name(at)?;
        let (kind, at) = self.column_type(at)?;
        let (refers, at) = self.reference(at)?;
        Ok((ColDef { name, kind, refers }, at))
    }

    /// Parses REFERENCES and a parent table, if they are there.
    fn reference(&self, at: usize) -> Result<(Option<Name>, usize), Failure>
        ensures { ReadsPart self.now at (λ bytes. optional (one word.References ▸ name bytes)) result }
    {
        if !self.has(at, Terminal::References) {
            return Ok((None, at));
        }
        let (_, at) = self.one(at, Terminal::References)?;
        let (parent, at) = self.name(at)?;
        Ok((Some(parent), at))
    }

    /// Parses the type of a column.
    #[tactic(auto, unfolding(mv_ast::specs::Grammar::column_type))]
    pub(crate) fn column_type(&self, at: usize) -> Result<(ColType, usize), Failure>
        ensures { ReadsPart self.now at column_type result }
    {
        if self.has(at, Terminal::Int) {
            let (_, at) = self.one(at, Terminal::Int)?;
            return Ok((ColType::Int, at));
        }
        let (_, at) = self.one(at, Terminal::Text)?;
        let (_, at) = self.one(at, Terminal::Open)?;
        let (lexeme, at) = self.one(at, Terminal::Number)?;
        let (_, at) = self.one(at, Terminal::Close)?;
        Ok((ColType::Text(self.width(lexeme)), at))
    }

    /// Returns the width of a text column, or 65535 if it is greater.
    fn width(&self, lexeme: Lexeme) -> u16
        requires { IsTrue (fits self.now.bytes.now lexeme) }
        ensures { result ≡ min (number_of self.now.bytes.now lexeme) 65535 }
    {
        self.number_of(lexeme).min(65535) as u16
    }
}
