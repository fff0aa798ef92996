//! Reads the text.

ghost use Rattle.std.specs.Prelude.{◌≡◌, IfOk};
ghost use Rattle.std.specs.Option.{ForSome};

use crate::failure::Failure;
use mv_edge::edge::Source;
use mv_values::list::List;
use std::alloc::Global;

/// The most bytes that are read at once.
const PIECE: usize = 4096;

/// Reads all bytes that are left in a source.
pub fn read_text<S: Source>(alloc: Global, source: &mut S) -> Result<List<u8>, Failure>
    ensures { IfOk result (λ text. ForSome (S.left source.old) (λ all. text ≡ all)) }
{
    let mut text = List::new(alloc);
    let mut buffer = [0u8; PIECE];
    'pieces: for _ in 0..u64::MAX {
        let Ok(n) = source.read(&mut buffer) else {
            return Err(Failure::Unread);
        };
        if n == 0 {
            return Ok(text);
        }
        text.append(&buffer[..n])?;
    }
    Err(Failure::Unread)
}
