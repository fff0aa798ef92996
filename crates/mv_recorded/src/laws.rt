//! Laws of the records of a full run. They apply to every procedure, call and database.

ghost use Rattle.mv_recorded.specs.Parents.{EndsAreFaults, ReferencesKept, NoOrphanStands, CallsKeepReferences};
ghost use Rattle.mv_recorded.specs.ReferenceExamples.{Shuts, Hires, Joins, Leaves, Bosses};
ghost use Rattle.mv_recorded.specs.Examples.{AddsFive, AddOverflows, UpdateOverflows, LooksInVain, Transfers, TransferRollsBack, AddsUp, Closes, ReadsTwice, DividesByZero};
ghost use Rattle.mv_recorded.specs.Laws.{MeaningsTell, NamesEarlierOnes, PathsAreInOrder, EffectsTold, ColumnsThere, KeysKept, DatabaseKept, FrontsAreDatabases, TablesAfterAre, ReadersChangeNothing, RecordsAreOwn, EffectsRest, OnePlaceOnePath};

/// On a database with rising keys, the records determine the reply of the call, its lines or its end, and the database
/// after it.
#[tactic(auto, using(crate::proofs::Meant::meaning_tells))]
pub fn records_tell_all()
    ensures { MeaningsTell }
{}

/// The controller of each record and the definers of its reads are earlier records.
#[tactic(auto, using(crate::proofs::Naming::recorded_names))]
pub fn records_name_earlier_ones()
    ensures { NamesEarlierOnes }
{}

/// Each record has a smaller path than the records after it. Hence all paths differ.
#[tactic(auto, using(crate::proofs::Rising::recorded_rises))]
pub fn paths_rise()
    ensures { PathsAreInOrder }
{}

/// On a database with rising keys, a record has the whole effect of its statement: the values, writes and line that
/// lead from the state before it to the state after it, or the end of the call. The law requires a column for each
/// target of a SELECT, which a well-formed statement has.
pub fn effects_are_told()
    ensures effect { EffectsTold }
    ensures well { ColumnsThere }
{}

/// A statement keeps each row stored under its own values of its table's key columns.
#[tactic(auto, using(crate::proofs::Standing::itself_stands))]
pub fn keys_are_kept()
    ensures { KeysKept }
{}

/// On a database of its tables, a well-formed statement, each first part of a full run and each call of a program lead
/// to a database of these tables: one with the same number of tables, rising keys, and each row stored under its own
/// key with the values that its table requires.
pub fn databases_are_kept()
    ensures statement { DatabaseKept }
    ensures fronts { FrontsAreDatabases }
    ensures calls { TablesAfterAre }
{}

/// A call of a READ ONLY procedure leaves each database as it is.
pub fn readers_change_nothing()
    ensures { ReadersChangeNothing }
{}

/// Each record of a full run is the own record of a statement of the procedure, executed in the state after the records
/// before it.
pub fn records_are_their_statements()
    ensures { RecordsAreOwn }
{}

/// The effect of a statement depends only on what it reads: the variables in its expressions, the parameter that a FOR
/// iterates over, and the keys and selected columns of the rows that its predicates find.
#[tactic(auto, using(crate::proofs::Congruent::congruent))]
pub fn effects_rest_on_what_is_read()
    ensures { EffectsRest }
{}

/// Two records of one run, or of two runs of a procedure, have equal paths if and only if their positions are equal.
/// Then the paths of their controllers are equal too.
pub fn one_place_has_one_path()
    ensures { OnePlaceOnePath }
{}

/// The records of small procedures, computed by hand.
pub fn worked_examples()
    ensures add { AddsFive }
    ensures overflow { AddOverflows }
    ensures update_overflow { UpdateOverflows }
    ensures no_row { LooksInVain }
    ensures transfer { Transfers }
    ensures rollback { TransferRollsBack }
    ensures turns { AddsUp }
    ensures table { Closes }
    ensures twice { ReadsTwice }
    ensures fault { DividesByZero }
{}

/// A statement that changes rows ends with the first fault of what it checks: of its predicates up to that of the fault.
/// No statement leaves a row without its parent. So if no opening row lacks its parent, which refusal 23 sees to, no row
/// does after any calls, in any order.
pub fn parents_are_kept()
    ensures ends { EndsAreFaults }
    ensures parents { ReferencesKept }
    ensures opening { NoOrphanStands }
    ensures calls { CallsKeepReferences }
{}

/// What small statements with REFERENCES check, worked out by hand.
pub fn reference_examples()
    ensures shut { Shuts }
    ensures hire { Hires }
    ensures own_parent { Joins }
    ensures leave { Leaves }
    ensures update { Bosses }
{}
