//! The records of a running call.

ghost use Rattle.std.specs.Prelude.{◌≡◌, ◌==◌, ◌<◌, ◌≤◌, ◌+◌, [], ◌∷◌, ◌++◌, All, List as Seq, Some, None, length, OnOk, OnErr, take, drop, map, slice_get};
ghost use Rattle.std.specs.List.{list_any};
ghost use Rattle.mv_values.specs.declared.pred.Pred.{Pred};
ghost use Rattle.mv_record.specs.declared.record.Record.{Record};
ghost use Rattle.mv_record.specs.Effects.{record_of};
ghost use Rattle.mv_undo.specs.Owned.{owned_by};
ghost use Rattle.mv_undo.specs.Owning.{undo_of};
ghost use Rattle.mv_undo.specs.Indexed.{IsIndexOf};
ghost use Rattle.mv_log.specs.Parts.{Fits};
ghost use Rattle.mv_log.specs.Fitting.{marks_of, AskedFit};
ghost use Rattle.mv_log.specs.Heads.{pred_of};
ghost use Rattle.mv_log.specs.Logged.{no_effect, empty, once_more, owned};
ghost use Rattle.mv_log.specs.Cutting.{head_between};

use crate::flat::Flat;
use crate::head::{Asked, Head, Marks, Range};
use crate::lists::{Lists, start};
use crate::pred_ref::Preds;
use crate::records::Records;
use crate::var_read::VarRead;
use mv_record::record::Slot;
use mv_undo::own_index::OwnIndex;
use mv_undo::undo::Undo;
use mv_values::calls::End;
use mv_values::memory::NoMemory;
use mv_values::patch::Write;
use mv_values::pred::Test;
use mv_values::pred_ref::PredRef;
use mv_values::txt::Txt;
use mv_values::value::Row;
use std::alloc::Global;
use std::marker::Model;
use std::mem;

/// The records of a running call, those of its run before a repair, and the effect of the statement that it executes.
/// A record is a small head, which names its parts of lists that all records share. So a repair keeps a record without
/// moving any of its items, and the next call uses the room again. An index finds the writes of the records by table and
/// key.
pub struct Log {
    heads: Flat<Head>,
    past: Flat<Head>,
    /// The past records from this number on may still be kept.
    kept: usize,
    lists: Lists,
    /// Where the items of the open statement begin.
    from: Marks,
    /// Where the writes of the records are.
    own: OwnIndex,
}

impl Drop for Log {
    /// Drops the lists. A drop of its own is one step for who drops a log; a derived one is a step for each list.
    fn drop(self) {
        let Log {
            heads: _,
            past: _,
            kept: _,
            lists: _,
            from: _,
            own: _,
        } = self;
    }
}

impl Model for Log {
    ghost use Rattle.mv_log.specs.Logged.{Logged};

    ghost Value = { Logged };

    ghost use Rattle.mv_log.specs.Expanding.{expanded, IsWhole};

    ghost view = { expanded };

    ghost invariant = { IsWhole };
}

/// Returns the head at this place.
#[tactic(auto, using(crate::proofs::Lending::get_at))]
fn head_at(heads: &[Head], at: u32) -> Head
    requires { at < length heads.now }
    ensures { slice_get heads.now at ≡ Some result }
{
    heads[at as usize]
}

/// Returns the head of a statement whose items stand between these marks.
fn head_between(
    from: Marks,
    to: Marks,
    statement: u16,
    parent: Option<u32>,
    side: Option<u32>,
) -> Head
    ensures { result ≡ head_between from to statement parent side }
{
    Head {
        statement,
        parent,
        turns: Range {
            from: from.turns,
            to: to.turns,
        },
        reads: Range {
            from: from.reads,
            to: to.reads,
        },
        sets: Range {
            from: from.sets,
            to: to.sets,
        },
        side,
    }
}

/// Adds a record's head, and its writes to the index: those of a part of these. On `NoMemory` neither has them.
fn push_head(
    heads: &mut Flat<Head>,
    own: &mut OwnIndex,
    head: Head,
    part: Range,
    writes: &[Write],
) -> Result<(), NoMemory>
    requires index { IsIndexOf own.old writes.now }
    requires within { Fits (length writes.now) part }
    requires last { All (λ p. p.number < length heads.old) own.old.places }
    ensures index { IsIndexOf own.new writes.now }
    ensures heads { OnOk result (heads.new ≡ heads.old ++ head ∷ []) }
    ensures own { OnOk result (owned_by own.new.places writes.now ≡ owned_by own.old.places writes.now ++ undo_of (length heads.old) (drop part.from (take part.to writes.now))) }
    ensures err { OnErr result ((heads.new ≡ heads.old) × (own.new.places ≡ own.old.places)) }
{
    let number = heads.len();
    heads.push(head)?;
    if let Err(error) = own.push_all(number, part.from, part.to, writes) {
        heads.truncate(number);
        return Err(error);
    }
    Ok(())
}

/// Lends the predicates from this number on.
#[tactic(auto, using(crate::proofs::Parts::part_rest, crate::proofs::Sides::asked_part))]
fn preds_from(lists: &Lists, from: u32) -> Preds<'_>
    requires within { from ≤ length lists.now.preds }
    requires fit { AskedFit (marks_of lists.now) lists.now.preds }
    ensures { result ≡ map (pred_of lists.now) (drop from lists.now.preds) }
{
    let range = Range {
        from,
        to: lists.preds.len(),
    };
    Preds::of(lists.preds.part(range), lists)
}

/// Whether the column is among these.
fn is_among(columns: &[u8], column: u8) -> bool
    ensures { result ≡ list_any (λ d. d == column) columns.now }
{
    columns.iter().any(|c| *c == column)
}

impl Log {
    /// Returns an empty log. It allocates nothing.
    #[tactic(auto, using(crate::proofs::Cutting::empty_whole))]
    pub fn new(alloc: Global) -> Log
        ensures { result ≡ empty }
    {
        Log {
            heads: Flat::new(alloc),
            past: Flat::new(alloc),
            kept: 0,
            lists: Lists::new(alloc),
            from: start(),
            own: OwnIndex::new(alloc),
        }
    }

    /// Forgets all records. All room is kept.
    #[tactic(auto, using(crate::proofs::Cutting::empty_whole))]
    pub fn clear(&mut self)
        ensures { self.new ≡ empty }
    {
        self.heads.truncate(0);
        self.past.truncate(0);
        self.kept = 0;
        self.lists.clear();
        self.from = start();
        self.own.clear();
    }

    /// Returns the number of records.
    #[tactic(auto, using(crate::proofs::Lending::length_map))]
    pub fn len(&self) -> u32
        ensures { result ≡ length self.now.records }
    {
        self.heads.len()
    }

    /// Lends the records.
    #[tactic(auto, using(crate::proofs::Growing::whole_sound, crate::proofs::Growing::whole_heads))]
    pub fn records(&self) -> Records<'_>
        ensures { result ≡ self.now.records }
    {
        Records::of(self.heads.as_slice(), &self.lists)
    }

    /// Lends the records of the run before the repair.
    #[tactic(auto, using(crate::proofs::Growing::whole_sound, crate::proofs::Growing::whole_heads))]
    pub fn past(&self) -> Records<'_>
        ensures { result ≡ self.now.past }
    {
        Records::of(self.past.as_slice(), &self.lists)
    }

    /// Returns the number from which on past records may still be kept.
    pub fn kept(&self) -> usize
        ensures { result ≡ self.now.kept }
    {
        self.kept
    }

    /// Lends the writes of the records, each with the number of its record. Costs nothing.
    pub fn undo(&self) -> Undo<'_>
        ensures { result ≡ owned self.now }
    {
        Undo::of(&self.own, self.lists.writes.first(self.from.writes))
    }

    /// Lends the predicates of the open effect.
    #[tactic(auto, using(crate::proofs::Growing::whole_sound))]
    pub fn preds(&self) -> Preds<'_>
        ensures { result ≡ self.now.effect.preds }
    {
        preds_from(&self.lists, self.from.preds)
    }

    /// Lends the last predicate of the open effect.
    pub fn last_pred(&self) -> PredRef<'_>
        requires { 0 < length self.now.effect.preds }
        ensures { (front : Seq Pred) (pred : Pred) → self.now.effect.preds ≡ front ++ pred ∷ [] → result ≡ pred }
    {
        let preds = self.preds();
        preds.get(preds.len() - 1)
    }

    /// Adds an iteration of a FOR around the open statement. On `NoMemory` the log is unchanged.
    #[tactic(auto, using(crate::proofs::Pushing::more_turns, crate::proofs::Pushing::whole_turns))]
    pub fn push_turn(&mut self, turn: u32) -> Result<(), NoMemory>
        ensures ok { OnOk result (self.new ≡ (let was = self.old in record was { turns = was.turns ++ turn ∷ [] })) }
        ensures err { OnErr result (self.new ≡ self.old) }
    {
        self.lists.turns.push(turn)
    }

    /// Adds a variable that the open statement reads. On `NoMemory` the log is unchanged.
    #[tactic(auto, using(crate::proofs::Pushing::more_reads, crate::proofs::Pushing::whole_reads))]
    pub fn push_read(&mut self, read: VarRead) -> Result<(), NoMemory>
        ensures ok { OnOk result (self.new ≡ (let was = self.old in record was { reads = was.reads ++ read ∷ [] })) }
        ensures err { OnErr result (self.new ≡ self.old) }
    {
        self.lists.reads.push(read)
    }

    /// Adds a test of the next predicate. On `NoMemory` the log is unchanged.
    #[tactic(auto, using(crate::proofs::Pushing::more_tests, crate::proofs::Pushing::whole_tests))]
    pub fn push_test(&mut self, test: Test) -> Result<(), NoMemory>
        ensures ok { OnOk result (self.new ≡ (let was = self.old in record was { tests = was.tests ++ test ∷ [] })) }
        ensures err { OnErr result (self.new ≡ self.old) }
    {
        self.lists.tests.push(test)
    }

    /// Adds a column that the next predicate selects. On `NoMemory` the log is unchanged.
    #[tactic(auto, using(crate::proofs::Pushing::more_columns, crate::proofs::Pushing::whole_columns))]
    pub fn push_column(&mut self, column: u8) -> Result<(), NoMemory>
        ensures ok { OnOk result (self.new ≡ (let was = self.old in record was { columns = was.columns ++ column ∷ [] })) }
        ensures err { OnErr result (self.new ≡ self.old) }
    {
        self.lists.columns.push(column)
    }

    /// Whether the next predicate selects the column so far.
    #[tactic(auto, using(crate::proofs::Parts::part_rest))]
    fn selects(&self, column: u8) -> bool
        ensures { result ≡ list_any (λ d. d == column) self.now.columns }
    {
        let range = Range {
            from: self.from.columns,
            to: self.lists.columns.len(),
        };
        is_among(self.lists.columns.part(range), column)
    }

    /// Adds a column that the next predicate selects, unless it has been added. On `NoMemory` the log is unchanged.
    pub fn push_column_once(&mut self, column: u8) -> Result<(), NoMemory>
        ensures ok { OnOk result (self.new ≡ (let was = self.old in record was { columns = once_more was.columns column })) }
        ensures err { OnErr result (self.new ≡ self.old) }
    {
        if self.selects(column) {
            return Ok(());
        }
        self.push_column(column)
    }

    /// Adds columns that the next predicate selects. On `NoMemory` the log is unchanged.
    #[tactic(auto, using(crate::proofs::Pushing::more_columns, crate::proofs::Pushing::whole_columns))]
    pub fn push_columns(&mut self, columns: &[u8]) -> Result<(), NoMemory>
        ensures ok { OnOk result (self.new ≡ (let was = self.old in record was { columns = was.columns ++ columns.now })) }
        ensures err { OnErr result (self.new ≡ self.old) }
    {
        self.lists.columns.append(columns)
    }

    /// Adds a predicate on the table to the open effect: that with the tests and columns that were added since the last
    /// one. On `NoMemory` the log is unchanged.
    #[tactic(auto, using(crate::proofs::Closing::asking, crate::proofs::Closing::asking_whole))]
    pub fn push_pred(&mut self, table: u8) -> Result<(), NoMemory>
        ensures ok { OnOk result (self.new ≡ (let was = self.old in let o = was.effect in record was { effect = record o { preds = o.preds ++ record { table = table; tests = was.tests; columns = was.columns } ∷ [] }; tests = []; columns = [] })) }
        ensures err { OnErr result (self.new ≡ self.old) }
    {
        let tests = Range {
            from: self.from.tests,
            to: self.lists.tests.len(),
        };
        let columns = Range {
            from: self.from.columns,
            to: self.lists.columns.len(),
        };
        self.lists.preds.push(Asked {
            table,
            tests,
            columns,
        })?;
        self.from.tests = tests.to;
        self.from.columns = columns.to;
        Ok(())
    }

    /// Adds a variable and its value to what the open effect sets. On `NoMemory` the log is unchanged.
    #[tactic(auto, using(crate::proofs::Pushing::more_sets, crate::proofs::Pushing::whole_sets))]
    pub fn push_set(&mut self, slot: Slot) -> Result<(), NoMemory>
        ensures ok { OnOk result (self.new ≡ (let was = self.old in let o = was.effect in record was { effect = record o { sets = o.sets ++ slot ∷ [] } })) }
        ensures err { OnErr result (self.new ≡ self.old) }
    {
        self.lists.sets.push(slot)
    }

    /// Adds a row that the open FOR iterates over. On `NoMemory` the log is unchanged.
    #[tactic(auto, using(crate::proofs::Pushing::more_rows, crate::proofs::Pushing::whole_rows))]
    pub fn push_row(&mut self, row: Row) -> Result<(), NoMemory>
        ensures ok { OnOk result (self.new ≡ (let was = self.old in let o = was.effect in record was { effect = record o { rows = o.rows ++ row ∷ [] } })) }
        ensures err { OnErr result (self.new ≡ self.old) }
    {
        self.lists.rows.push(row)
    }

    /// Adds a write of the open effect. On `NoMemory` the log is unchanged.
    #[tactic(auto, using(crate::proofs::Pushing::more_writes))]
    pub fn push_write(&mut self, write: Write) -> Result<(), NoMemory>
        ensures ok { OnOk result (self.new ≡ (let was = self.old in let o = was.effect in record was { effect = record o { writes = o.writes ++ write ∷ [] } })) }
        ensures err { OnErr result (self.new ≡ self.old) }
    {
        self.lists.writes.push(write)
    }

    /// Sets the line of the open effect, which has none yet. On `NoMemory` the log is unchanged.
    #[tactic(auto, using(crate::proofs::Pushing::more_lines, crate::proofs::Pushing::whole_lines))]
    pub fn push_line(&mut self, line: Txt) -> Result<(), NoMemory>
        requires { self.old.effect.line ≡ None }
        ensures ok { OnOk result (self.new ≡ (let was = self.old in let o = was.effect in record was { effect = record o { line = Some line } })) }
        ensures err { OnErr result (self.new ≡ self.old) }
    {
        self.lists.lines.push(line)
    }

    /// Sets the end of the open effect, which has none yet. On `NoMemory` the log is unchanged.
    #[tactic(auto, using(crate::proofs::Pushing::more_ends, crate::proofs::Pushing::whole_ends))]
    pub fn push_end(&mut self, end: End) -> Result<(), NoMemory>
        requires { self.old.effect.end ≡ None }
        ensures ok { OnOk result (self.new ≡ (let was = self.old in let o = was.effect in record was { effect = record o { end = Some end } })) }
        ensures err { OnErr result (self.new ≡ self.old) }
    {
        self.lists.ends.push(end)
    }

    /// Forgets the open effect, and the tests and columns of its next predicate. It keeps the turns and the reads.
    #[tactic(auto, using(crate::proofs::Cutting::dropped, crate::proofs::Cutting::dropped_whole))]
    pub fn drop_effect(&mut self)
        ensures { self.new ≡ (let was = self.old in record was { effect = no_effect; tests = []; columns = [] }) }
    {
        self.lists.drop_asked(self.from);
        self.lists.drop_changes(self.from);
    }

    /// Forgets the open effect but for its predicates, as a statement does that ends the call after it looked at rows.
    #[tactic(auto, using(crate::proofs::Cutting::unchanged, crate::proofs::Cutting::unchanged_whole))]
    pub fn keep_preds(&mut self)
        ensures { self.new ≡ (let was = self.old in record was { effect = record no_effect { preds = was.effect.preds } }) }
    {
        self.lists.drop_changes(self.from);
    }

    /// Adds the record of the open statement, with its turns, reads and effect, and begins the next one. On `NoMemory`
    /// the log is unchanged.
    pub fn close(&mut self, statement: u16, parent: Option<u32>) -> Result<(), NoMemory>
        ensures ok { OnOk result (self.new ≡ (let was = self.old in record was { records = was.records ++ record_of (record { statement = statement; turns = was.turns }) parent was.reads was.effect ∷ []; turns = []; reads = []; effect = no_effect; tests = []; columns = [] })) }
        ensures err { OnErr result (self.new ≡ self.old) }
    {
        let from = self.from;
        let to = self.lists.marks();
        let sides = self.lists.sides.len();
        let side = self.lists.push_side(from, to)?;
        let head = head_between(from, to, statement, parent, side);
        let writes = Range {
            from: from.writes,
            to: to.writes,
        };
        let all = self.lists.writes.as_slice();
        if let Err(error) = push_head(&mut self.heads, &mut self.own, head, writes, all) {
            self.lists.sides.truncate(sides);
            return Err(error);
        }
        self.from = to;
        Ok(())
    }

    /// Adds a record of the run before the repair, with the position, controller and reads of the open statement. It
    /// names the items of the old record, and moves none. Old records are kept in their order. On `NoMemory` the log is
    /// unchanged.
    pub fn adopt(&mut self, old: u32, statement: u16, parent: Option<u32>) -> Result<(), NoMemory>
        requires within { old < length self.old.past }
        requires rises { self.old.kept ≤ old }
        ensures ok { OnOk result ((given : Record) → slice_get self.old.past old ≡ Some given → self.new ≡ (let was = self.old in record was { records = was.records ++ record given { spot = record { statement = statement; turns = was.turns }; parent = parent; reads = was.reads } ∷ []; turns = []; reads = []; kept = old + 1 })) }
        ensures err { OnErr result (self.new ≡ self.old) }
    {
        let kept = head_at(self.past.as_slice(), old);
        let turns = Range {
            from: self.from.turns,
            to: self.lists.turns.len(),
        };
        let reads = Range {
            from: self.from.reads,
            to: self.lists.reads.len(),
        };
        let head = Head {
            statement,
            parent,
            turns,
            reads,
            sets: kept.sets,
            side: kept.side,
        };
        let side = self.lists.side(kept.side);
        let closed = self.lists.writes.first(self.from.writes);
        push_head(&mut self.heads, &mut self.own, head, side.writes, closed)?;
        self.from.turns = turns.to;
        self.from.reads = reads.to;
        self.kept = old as usize + 1;
        Ok(())
    }

    /// Keeps the first records, so many, or all of them, and begins an empty statement. All room is kept; that of items
    /// of dropped records is used again after `clear`.
    pub fn truncate(&mut self, len: u32)
        ensures { self.new ≡ (let was = self.old in record was { records = take len was.records; turns = []; reads = []; effect = no_effect; tests = []; columns = [] }) }
    {
        let closed = self.lists.writes.first(self.from.writes);
        self.own.drop_from(len as usize, closed);
        self.heads.truncate(len);
        self.lists.keep_to(self.from);
    }

    /// Makes the records those of the run before the repair, and begins an empty run. It allocates nothing, and moves no
    /// record.
    #[tactic(auto, using(crate::proofs::Cutting::repaired_whole))]
    pub fn begin_repair(&mut self)
        ensures { self.new ≡ (let was = self.old in record was { records = []; past = was.records; kept = 0 }) }
    {
        self.past.truncate(0);
        self.kept = 0;
        mem::swap(&mut self.heads, &mut self.past);
        self.own.clear();
    }

    /// Forgets the records of the run before the repair.
    #[tactic(auto, using(crate::proofs::Cutting::ended_whole))]
    pub fn end_repair(&mut self)
        ensures { self.new ≡ (let was = self.old in record was { past = []; kept = 0 }) }
    {
        self.past.truncate(0);
        self.kept = 0;
    }
}
