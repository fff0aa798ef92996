//! The records of a block.

ghost use Rattle.std.specs.Prelude.{◌<◌, ◌≤◌, length, IfSome};

/// Where in a field a byte of a block is.
#[derive(Clone, Copy, PartialEq, Eq)]
pub(crate) enum Inside {
    /// Before the first byte of a record.
    Nothing,
    /// Before the first byte of a field.
    Field,
    Plain,
    Quoted,
    /// After a quote in a quoted field. It ends the quotes unless another follows.
    Quote,
}

/// Returns where the next byte is.
pub(crate) fn step(inside: Inside, byte: u8) -> Inside {
    match (inside, byte) {
        (Inside::Quoted, b'"') => Inside::Quote,
        (Inside::Quoted, _) => Inside::Quoted,
        (Inside::Quote, b'"') => Inside::Quoted,
        (Inside::Nothing | Inside::Field, b'"') => Inside::Quoted,
        (_, b'\n' | b'\r') => Inside::Nothing,
        (_, b',') => Inside::Field,
        _ => Inside::Plain,
    }
}

/// Returns the place in a block of the record with a number, from 1, if there are so many. Empty lines aren't records.
pub fn record_at(block: &[u8], row: u32) -> Option<usize>
    ensures { IfSome result (λ at. at < length block.now) }
{
    let mut inside = Inside::Nothing;
    let mut records = 0u32;
    for (at, byte) in block.iter().enumerate() {
        let next = step(inside, *byte);
        if inside == Inside::Nothing && next != Inside::Nothing {
            if records >= row {
                return None;
            }
            records += 1;
            if records == row {
                return Some(at);
            }
        }
        inside = next;
    }
    None
}

/// Returns the place in a record of the field with a number, from 1, or the record's end if it has fewer.
pub fn field_at(record: &[u8], column: u32) -> usize
    ensures { result ≤ length record.now }
{
    let mut inside = Inside::Nothing;
    let mut fields = 1u32;
    for (at, byte) in record.iter().enumerate() {
        if fields >= column {
            return at;
        }
        inside = step(inside, *byte);
        match inside {
            Inside::Nothing => return at,
            Inside::Field => fields = fields.saturating_add(1),
            _ => {}
        }
    }
    record.len()
}
