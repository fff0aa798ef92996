//! Numbers with a text before them.

ghost use Rattle.std.specs.Prelude.{◌≡◌, ◌++◌, OnOk};

use itoa::{Buffer, Integer};
use mv_values::list::List;
use mv_values::memory::NoMemory;

/// Adds a text, and a number in decimal.
pub(crate) fn write_named<I: Integer>(
    name: &str,
    number: I,
    text: &mut List<u8>,
) -> Result<(), NoMemory>
    ensures { OnOk result (text.new ≡ text.old ++ (name.now ++ I.text number)) }
{
    let mut digits = Buffer::new();
    text.append(name.as_bytes())?;
    text.append(digits.format(number).as_bytes())
}
