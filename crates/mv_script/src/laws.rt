//! The law of scripts of one piece.

ghost use Rattle.mv_script.specs.Laws.{CallsKeepDatabases, TablesAreDatabases, ReadersAreQuiet};

/// Each call of a script of one piece leads from a database of the script's tables to one of these tables. So after any
/// calls there is such a database: it has as many tables as the first one, and the keys of each rise.
pub fn databases_are_kept()
    ensures calls { CallsKeepDatabases }
    ensures tables { TablesAreDatabases }
{}

/// A call of a READ ONLY procedure, in a script of one piece, leaves each database as it is.
pub fn readers_are_quiet()
    ensures { ReadersAreQuiet }
{}
