//! The fixed parts of records: which items of the shared lists are theirs.

/// A part of a shared list: the items from index `from` up to `to`.
#[derive(Clone, Copy)]
pub struct Range {
    pub from: u32,
    pub to: u32,
}

/// The fixed part of a record.
#[derive(Clone, Copy)]
pub struct Head {
    pub statement: u16,
    /// The number of the record of the innermost enclosing IF or FOR.
    pub parent: Option<u32>,
    pub turns: Range,
    pub reads: Range,
    pub sets: Range,
    /// The number of its side, which only a statement has that asks, writes, prints, ends the call or goes over rows.
    pub side: Option<u32>,
}

/// What most records lack: predicates, rows, writes, a line and an end.
#[derive(Clone, Copy)]
pub struct Side {
    pub preds: Range,
    pub rows: Range,
    pub writes: Range,
    pub lines: Range,
    pub ends: Range,
}

/// The fixed part of a predicate.
#[derive(Clone, Copy)]
pub struct Asked {
    pub table: u8,
    pub tests: Range,
    pub columns: Range,
}

/// A place in each of the shared lists.
#[derive(Clone, Copy)]
pub struct Marks {
    pub turns: u32,
    pub reads: u32,
    pub sets: u32,
    pub preds: u32,
    pub tests: u32,
    pub columns: u32,
    pub rows: u32,
    pub writes: u32,
    pub lines: u32,
    pub ends: u32,
}
