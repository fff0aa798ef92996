//! The lists in which the records of a log have their parts.

ghost use Rattle.std.specs.Prelude.{◌≡◌, ◌∷◌, ◌++◌, IfOk, IsTrue, OnErr, length};
ghost use Rattle.mv_log.specs.Fitting.{marks_of, IsBelow, SideFits, AreSound};
ghost use Rattle.mv_log.specs.Heads.{side_of};
ghost use Rattle.mv_log.specs.Cutting.{nothing, unasked_from, unchanged_from, kept_to, side_between, HasNothing, HasSide};

use crate::flat::Flat;
use crate::head::{Asked, Marks, Range, Side};
use crate::var_read::VarRead;
use mv_record::record::Slot;
use mv_values::calls::End;
use mv_values::memory::NoMemory;
use mv_values::patch::Write;
use mv_values::pred::Test;
use mv_values::txt::Txt;
use mv_values::value::Row;
use std::alloc::Global;

/// The items of all records, kind by kind.
pub(crate) struct Lists {
    pub(crate) turns: Flat<u32>,
    pub(crate) reads: Flat<VarRead>,
    pub(crate) sets: Flat<Slot>,
    pub(crate) sides: Flat<Side>,
    pub(crate) preds: Flat<Asked>,
    pub(crate) tests: Flat<Test>,
    pub(crate) columns: Flat<u8>,
    pub(crate) rows: Flat<Row>,
    pub(crate) writes: Flat<Write>,
    pub(crate) lines: Flat<Txt>,
    pub(crate) ends: Flat<End>,
}

impl Drop for Lists {
    /// Drops each list.
    fn drop(self) {
        let Lists {
            turns: _,
            reads: _,
            sets: _,
            sides: _,
            preds: _,
            tests: _,
            columns: _,
            rows: _,
            writes: _,
            lines: _,
            ends: _,
        } = self;
    }
}

/// Returns the marks before all items.
pub(crate) fn start() -> Marks
    ensures { result ≡ marks_of nothing }
{
    Marks {
        turns: 0,
        reads: 0,
        sets: 0,
        preds: 0,
        tests: 0,
        columns: 0,
        rows: 0,
        writes: 0,
        lines: 0,
        ends: 0,
    }
}

/// Returns an empty range.
fn no_range() -> Range
    ensures { result ≡ record { from = 0; to = 0 } }
{
    Range { from: 0, to: 0 }
}

/// Returns a side, or a blank one for none.
#[tactic(auto, using(crate::proofs::Sides::side_got))]
fn side_in(sides: &[Side], at: Option<u32>) -> Side
    requires { IsBelow (length sides.now) at }
    ensures { result ≡ side_of sides.now at }
{
    match at {
        Some(at) => sides[at as usize],
        None => Side {
            preds: no_range(),
            rows: no_range(),
            writes: no_range(),
            lines: no_range(),
            ends: no_range(),
        },
    }
}

/// Whether no predicate, row, write, line or end stands between the marks.
fn is_nothing(from: Marks, to: Marks) -> bool
    ensures { IsTrue result → HasNothing from to }
{
    from.preds == to.preds
        && from.rows == to.rows
        && from.writes == to.writes
        && from.lines == to.lines
        && from.ends == to.ends
}

impl Lists {
    /// Returns empty lists. It allocates nothing.
    pub(crate) fn new(alloc: Global) -> Lists
        ensures { result ≡ nothing }
    {
        Lists {
            turns: Flat::new(alloc),
            reads: Flat::new(alloc),
            sets: Flat::new(alloc),
            sides: Flat::new(alloc),
            preds: Flat::new(alloc),
            tests: Flat::new(alloc),
            columns: Flat::new(alloc),
            rows: Flat::new(alloc),
            writes: Flat::new(alloc),
            lines: Flat::new(alloc),
            ends: Flat::new(alloc),
        }
    }

    /// Returns the ends of the lists.
    pub(crate) fn marks(&self) -> Marks
        ensures { result ≡ marks_of self.now }
    {
        Marks {
            turns: self.turns.len(),
            reads: self.reads.len(),
            sets: self.sets.len(),
            preds: self.preds.len(),
            tests: self.tests.len(),
            columns: self.columns.len(),
            rows: self.rows.len(),
            writes: self.writes.len(),
            lines: self.lines.len(),
            ends: self.ends.len(),
        }
    }

    /// Drops the predicates, tests and columns from these marks on. All room is kept.
    pub(crate) fn drop_asked(&mut self, from: Marks)
        ensures { self.new ≡ unasked_from from self.old }
    {
        self.preds.truncate(from.preds);
        self.tests.truncate(from.tests);
        self.columns.truncate(from.columns);
    }

    /// Drops the sets, rows, writes, lines and ends from these marks on. All room is kept.
    pub(crate) fn drop_changes(&mut self, from: Marks)
        ensures { self.new ≡ unchanged_from from self.old }
    {
        self.sets.truncate(from.sets);
        self.rows.truncate(from.rows);
        self.writes.truncate(from.writes);
        self.lines.truncate(from.lines);
        self.ends.truncate(from.ends);
    }

    /// Drops the items from these marks on. All room is kept.
    pub(crate) fn keep_to(&mut self, to: Marks)
        ensures { self.new ≡ kept_to to self.old }
    {
        self.turns.truncate(to.turns);
        self.reads.truncate(to.reads);
        self.drop_asked(to);
        self.drop_changes(to);
    }

    /// Drops all items. All room is kept.
    pub(crate) fn clear(&mut self)
        ensures { self.new ≡ nothing }
    {
        self.keep_to(start());
        self.sides.truncate(0);
    }

    /// Returns a side of a record, or a blank one for none.
    #[tactic(auto, using(crate::proofs::Sides::side_fits))]
    pub(crate) fn side(&self, at: Option<u32>) -> Side
        requires there { IsBelow (length self.now.sides) at }
        requires sound { AreSound self.now }
        ensures is { result ≡ side_of self.now.sides at }
        ensures fits { SideFits (marks_of self.now) result }
    {
        side_in(self.sides.as_slice(), at)
    }

    /// Adds the side of a record whose items stand between these marks, unless it has nothing there. Returns its
    /// number. On `NoMemory` the lists are unchanged.
    pub(crate) fn push_side(&mut self, from: Marks, to: Marks) -> Result<Option<u32>, NoMemory>
        ensures ok { IfOk result (λ at. HasSide from to self.old self.new at) }
        ensures err { OnErr result (self.new ≡ self.old) }
    {
        if is_nothing(from, to) {
            return Ok(None);
        }
        let at = self.sides.len();
        self.sides.push(side_between(from, to))?;
        Ok(Some(at))
    }
}

/// Returns the side whose items stand between these marks.
fn side_between(from: Marks, to: Marks) -> Side
    ensures { result ≡ side_between from to }
{
    Side {
        preds: Range {
            from: from.preds,
            to: to.preds,
        },
        rows: Range {
            from: from.rows,
            to: to.rows,
        },
        writes: Range {
            from: from.writes,
            to: to.writes,
        },
        lines: Range {
            from: from.lines,
            to: to.lines,
        },
        ends: Range {
            from: from.ends,
            to: to.ends,
        },
    }
}
