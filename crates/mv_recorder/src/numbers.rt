//! Numbers of tables and columns in one byte.

ghost use Rattle.std.specs.Prelude.{◌≡◌, ◌<◌, IfOk, All};

use mv_values::list::List;
use mv_values::memory::NoMemory;
use std::alloc::Global;

/// Returns the number of a table or a column in one byte. There are no more than 256 of them.
pub(crate) fn narrow(number: u16) -> u8
    requires { number < 256 }
    ensures { result ≡ number }
{
    number as u8
}

/// Returns the numbers in one byte each.
pub(crate) fn narrow_all(alloc: Global, numbers: &[u16]) -> Result<List<u8>, NoMemory>
    requires { All (λ n. n < 256) numbers.now }
    ensures { IfOk result (λ all. all ≡ numbers.now) }
{
    let mut all = List::with_room(alloc, numbers.len())?;
    for number in numbers {
        all.push(narrow(*number))?;
    }
    Ok(all)
}
