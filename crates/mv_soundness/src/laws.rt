//! The laws of two full runs of one call, on an old database and on a new one.

ghost use Rattle.mv_soundness.specs.Laws.{KeptRecordsAreAlike, NextRecordIsAlike, UnhitPredicatesSeeAlike, UnhitRunsAreEqual};

/// If no change hits a record, its predicates find rows with the same keys and the same selected columns on both databases,
/// each with the writes of its own call before it.
pub fn unhit_predicates_see_alike()
    ensures { UnhitPredicatesSeeAlike }
{}

/// Validation is sound: if no change hits a record of the old run, the new run has equal records, so an equal reply.
/// Unless they end the call, their writes lead from the new database to the one that the whole-table machine leaves.
pub fn unhit_runs_are_equal()
    ensures { UnhitRunsAreEqual }
{}

/// Each record of the new run that a repair keeps is alike to the record of the old run with the same path. They have
/// equal predicates, sets, rows, writes, line and end. They read the same variables, and their controllers and definers
/// have the same paths.
pub fn kept_records_are_alike()
    ensures { KeptRecordsAreAlike }
{}

/// The same for one step. Whether the next record of the new run stays depends only on its path, its controller and its
/// definers, which are known before it is executed. If it stays, the old run's record with its path has all the rest.
pub fn next_record_is_alike()
    ensures { NextRecordIsAlike }
{}
