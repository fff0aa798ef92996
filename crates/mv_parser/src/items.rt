//! Parses the items of a script: tables, procedures, copies, calls and the journal.

ghost use Rattle.std.specs.Prelude.{◌≡◌, drop};
ghost use Rattle.mv_ast.specs.declared.lexeme.Terminal.TheVariants as word;
ghost use Rattle.mv_ast.specs.Parts.{one};
ghost use Rattle.mv_ast.specs.Grammar.{◌◂◌, in_parens, col_def, many, or_none, commas, columns, table, param, param_kind, read_only, declaration, procedure, arg, create, copy, call, journal, an_item};
ghost use Rattle.mv_parser.specs.Reading.{inside, read};
ghost use Rattle.mv_parser.specs.Answers.{ReadsPart};

use crate::fault::Failure;
use crate::lists::Parse;
use crate::reader::Reader;
use mv_ast::lexeme::Terminal;
use mv_ast::tree::{
    Arg, CallDef, ColDef, CopyDef, Item, ItemKind, Param, ParamKind, ProcDef, TableDef, VarDef,
};
use mv_values::list::List;

impl Parse for Param {
    ghost reading = { λ bytes depth ts. read (inside bytes depth) (param bytes) ts };

    fn parse(reader: &Reader, at: usize) -> Result<(Param, usize), Failure> {
        reader.param(at)
    }
}

impl Parse for Arg {
    ghost reading = { λ bytes depth ts. read (inside bytes depth) (arg bytes) ts };

    fn parse(reader: &Reader, at: usize) -> Result<(Arg, usize), Failure> {
        reader.arg(at)
    }
}

impl Reader<'_> {
    /// Parses a column and the comma after it.
    fn column(&self, at: usize) -> Result<(ColDef, usize), Failure>
        ensures { ReadsPart self.now at (λ bytes. col_def bytes ◂ one word.Comma) result }
    {
        let (column, at) = self.col_def(at)?;
        self.followed(column, at, Terminal::Comma)
    }

    /// Parses the columns of a table, each followed by a comma.
    #[tactic(auto, using(crate::proofs::Turns::more_turn, crate::proofs::Turns::more_stop, crate::proofs::Firsts::first_column), unfolding(mv_ast::specs::Grammar::columns))]
    fn columns(&self, at: usize) -> Result<(List<ColDef>, usize), Failure>
        ensures { ReadsPart self.now at columns result }
    {
        let (first, at) = self.column(at)?;
        let mut all = List::new(self.alloc);
        all.push(first)?;
        let mut here = at;
        for _turn in 0..self.left(at) {
            if !self.has(here, Terminal::Name) {
                return Ok((all, here));
            }
            let (next, behind) = self.column(here)?;
            all.push(next)?;
            here = behind;
        }
        Ok((all, here))
    }

    /// Parses a table, after CREATE.
    #[tactic(auto, unfolding(mv_ast::specs::Grammar::table))]
    fn table(&self, at: usize) -> Result<(ItemKind, usize), Failure>
        ensures { ReadsPart self.now at table result }
    {
        let (_, at) = self.one(at, Terminal::Table)?;
        let (name, at) = self.name(at)?;
        let (_, at) = self.one(at, Terminal::Open)?;
        let (columns, at) = self.columns(at)?;
        let (_, at) = self.one(at, Terminal::Primary)?;
        let (_, at) = self.one(at, Terminal::Key)?;
        let (key, at) = self.in_parens(at)?;
        let (_, at) = self.one(at, Terminal::Close)?;
        let (rows, at) = self.opening_rows(at)?;
        let table = TableDef {
            name,
            columns,
            key,
            rows,
        };
        self.followed(ItemKind::Table(table), at, Terminal::Semicolon)
    }

    /// Parses the kind of a parameter.
    #[tactic(auto, unfolding(mv_ast::specs::Grammar::param_kind))]
    fn param_kind(&self, at: usize) -> Result<(ParamKind, usize), Failure>
        ensures { ReadsPart self.now at param_kind result }
    {
        if !self.has(at, Terminal::Rows) {
            let (kind, at) = self.column_type(at)?;
            return Ok((ParamKind::One(kind), at));
        }
        let (_, at) = self.one(at, Terminal::Rows)?;
        let (columns, at) = self.in_parens(at)?;
        Ok((ParamKind::Many(columns), at))
    }

    /// Parses a parameter.
    #[tactic(auto, unfolding(mv_ast::specs::Grammar::param))]
    fn param(&self, at: usize) -> Result<(Param, usize), Failure>
        ensures { ReadsPart self.now at param result }
    {
        let (name, at) = self.variable(at)?;
        let (kind, at) = self.param_kind(at)?;
        Ok((Param { name, kind }, at))
    }

    /// Parses zero or more parameters, separated by commas.
    #[tactic(auto, unfolding(mv_ast::specs::Grammar::param, mv_ast::specs::Grammar::variable))]
    fn params(&self, at: usize) -> Result<(List<Param>, usize), Failure>
        ensures { ReadsPart self.now at (λ bytes. or_none (commas (param bytes))) result }
    {
        if !self.has(at, Terminal::Variable) {
            return Ok((List::new(self.alloc), at));
        }
        self.separated(at, Terminal::Comma)
    }

    /// Parses zero or more parameters in parentheses.
    fn params_in_parens(&self, at: usize) -> Result<(List<Param>, usize), Failure>
        ensures { ReadsPart self.now at (λ bytes. in_parens (or_none (commas (param bytes)))) result }
    {
        let (_, at) = self.one(at, Terminal::Open)?;
        let (params, at) = self.params(at)?;
        self.followed(params, at, Terminal::Close)
    }

    /// Parses an optional READ ONLY. Returns whether it is there.
    #[tactic(auto, unfolding(mv_ast::specs::Grammar::read_only))]
    fn read_only(&self, at: usize) -> Result<(bool, usize), Failure>
        ensures { ReadsPart self.now at read_only result }
    {
        if !self.has(at, Terminal::Read) {
            return Ok((false, at));
        }
        let (_, at) = self.one(at, Terminal::Read)?;
        let (_, at) = self.one(at, Terminal::Only)?;
        Ok((true, at))
    }

    /// Parses DECLARE.
    #[tactic(auto, unfolding(mv_ast::specs::Grammar::declaration))]
    fn declaration(&self, at: usize) -> Result<(VarDef, usize), Failure>
        ensures { ReadsPart self.now at declaration result }
    {
        let (_, at) = self.one(at, Terminal::Declare)?;
        let (name, at) = self.variable(at)?;
        let (_, at) = self.one(at, Terminal::Equal)?;
        let (initial, at) = self.literal(at)?;
        self.followed(VarDef { name, initial }, at, Terminal::Semicolon)
    }

    /// Parses zero or more declarations.
    #[tactic(auto, using(crate::proofs::Turns::more_turn, crate::proofs::Turns::more_stop, crate::proofs::Firsts::first_declaration))]
    fn declarations(&self, at: usize) -> Result<(List<VarDef>, usize), Failure>
        ensures { ReadsPart self.now at (λ bytes. many (declaration bytes)) result }
    {
        let mut all = List::new(self.alloc);
        let mut here = at;
        for _turn in 0..self.left(at) {
            if !self.has(here, Terminal::Declare) {
                return Ok((all, here));
            }
            let (next, behind) = self.declaration(here)?;
            all.push(next)?;
            here = behind;
        }
        Ok((all, here))
    }

    /// Parses a procedure, after CREATE.
    #[tactic(auto, unfolding(mv_ast::specs::Grammar::procedure))]
    fn procedure(&self, at: usize) -> Result<(ItemKind, usize), Failure>
        ensures { ReadsPart self.now at procedure result }
    {
        let (_, at) = self.one(at, Terminal::Procedure)?;
        let (name, at) = self.name(at)?;
        let (params, at) = self.params_in_parens(at)?;
        let (read_only, at) = self.read_only(at)?;
        let (vars, at) = self.declarations(at)?;
        let (_, at) = self.one(at, Terminal::Begin)?;
        let (body, at) = self.statements(at)?;
        let procedure = ProcDef {
            name,
            params,
            read_only,
            vars,
            body,
        };
        let (kind, at) = self.followed(ItemKind::Proc(procedure), at, Terminal::End)?;
        self.followed(kind, at, Terminal::Semicolon)
    }

    /// Parses CREATE.
    #[tactic(auto, using(crate::proofs::Firsts::first_table), unfolding(mv_ast::specs::Grammar::create))]
    fn create(&self, at: usize) -> Result<(Item, usize), Failure>
        ensures { ReadsPart self.now at create result }
    {
        let (token, at) = self.place(at, Terminal::Create)?;
        if self.has(at, Terminal::Table) {
            let (kind, at) = self.table(at)?;
            return Ok((Item { token, kind }, at));
        }
        let (kind, at) = self.procedure(at)?;
        Ok((Item { token, kind }, at))
    }

    /// Parses COPY.
    #[tactic(auto, unfolding(mv_ast::specs::Grammar::copy))]
    fn copy(&self, at: usize) -> Result<(Item, usize), Failure>
        ensures { ReadsPart self.now at copy result }
    {
        let (token, at) = self.place(at, Terminal::Copy)?;
        let (table, at) = self.name(at)?;
        let (block, at) = self.block(at)?;
        let kind = ItemKind::Copy(CopyDef { table, block });
        Ok((Item { token, kind }, at))
    }

    /// Parses one argument of a call.
    #[tactic(auto, using(crate::proofs::Firsts::first_lit_rows), unfolding(mv_ast::specs::Grammar::arg))]
    fn arg(&self, at: usize) -> Result<(Arg, usize), Failure>
        ensures { ReadsPart self.now at arg result }
    {
        if self.has(at, Terminal::Rows) {
            let (rows, at) = self.lit_rows(at)?;
            return Ok((Arg::Many(rows), at));
        }
        let (literal, at) = self.literal(at)?;
        Ok((Arg::One(literal), at))
    }

    /// Parses zero or more arguments, separated by commas.
    #[tactic(auto, using(crate::proofs::Firsts::first_args))]
    fn args(&self, at: usize) -> Result<(List<Arg>, usize), Failure>
        ensures { ReadsPart self.now at (λ bytes. or_none (commas (arg bytes))) result }
    {
        if !self.has_any(at, &ARGUMENT_WORDS) {
            return Ok((List::new(self.alloc), at));
        }
        self.separated(at, Terminal::Comma)
    }

    /// Parses zero or more arguments in parentheses.
    fn args_in_parens(&self, at: usize) -> Result<(List<Arg>, usize), Failure>
        ensures { ReadsPart self.now at (λ bytes. in_parens (or_none (commas (arg bytes)))) result }
    {
        let (_, at) = self.one(at, Terminal::Open)?;
        let (arguments, at) = self.args(at)?;
        self.followed(arguments, at, Terminal::Close)
    }

    /// Parses CALL.
    #[tactic(auto, unfolding(mv_ast::specs::Grammar::call))]
    fn call(&self, at: usize) -> Result<(Item, usize), Failure>
        ensures { ReadsPart self.now at call result }
    {
        let (token, at) = self.place(at, Terminal::Call)?;
        let (name, at) = self.name(at)?;
        let (arguments, at) = self.args_in_parens(at)?;
        let kind = ItemKind::Call(CallDef { name, arguments });
        self.followed(Item { token, kind }, at, Terminal::Semicolon)
    }

    /// Parses JOURNAL.
    #[tactic(auto, unfolding(mv_ast::specs::Grammar::journal))]
    fn journal(&self, at: usize) -> Result<(Item, usize), Failure>
        ensures { ReadsPart self.now at journal result }
    {
        let (token, at) = self.place(at, Terminal::Journal)?;
        let (block, at) = self.block(at)?;
        let kind = ItemKind::Journal(block);
        Ok((Item { token, kind }, at))
    }

    /// Parses one item of a script.
    #[tactic(auto, using(crate::proofs::Firsts::first_create, crate::proofs::Firsts::first_copy, crate::proofs::Firsts::first_call), unfolding(mv_ast::specs::Grammar::an_item))]
    pub(crate) fn item(&self, at: usize) -> Result<(Item, usize), Failure>
        ensures { ReadsPart self.now at an_item result }
    {
        if self.has(at, Terminal::Create) {
            return self.create(at);
        }
        if self.has(at, Terminal::Copy) {
            return self.copy(at);
        }
        if self.has(at, Terminal::Call) {
            return self.call(at);
        }
        self.journal(at)
    }

    /// Parses zero or more items.
    #[tactic(auto, using(crate::proofs::Turns::more_turn, crate::proofs::Turns::more_stop, crate::proofs::Firsts::first_an_item))]
    pub(crate) fn items(&self, at: usize) -> Result<(List<Item>, usize), Failure>
        ensures { ReadsPart self.now at (λ bytes. many (an_item bytes)) result }
    {
        let mut all = List::new(self.alloc);
        let mut here = at;
        for _turn in 0..self.left(at) {
            if !self.has_any(here, &ITEM_WORDS) {
                return Ok((all, here));
            }
            let (next, behind) = self.item(here)?;
            all.push(next)?;
            here = behind;
        }
        Ok((all, here))
    }
}

const ARGUMENT_WORDS: [Terminal; 4] = [
    Terminal::Rows,
    Terminal::Minus,
    Terminal::Number,
    Terminal::Quoted,
];

const ITEM_WORDS: [Terminal; 4] = [
    Terminal::Create,
    Terminal::Copy,
    Terminal::Call,
    Terminal::Journal,
];
