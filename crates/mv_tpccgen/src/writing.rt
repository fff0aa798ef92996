//! Numbers in decimal.

ghost use Rattle.std.specs.Prelude.{◌≡◌, ◌++◌, OnOk, decimal};
ghost use Rattle.std.specs.List.{flat_map};

use itoa::Buffer;
use mv_values::list::List;
use mv_values::memory::NoMemory;

/// Adds a number.
pub(crate) fn write_number(number: u32, text: &mut List<u8>) -> Result<(), NoMemory>
    ensures { OnOk result (text.new ≡ text.old ++ decimal number) }
{
    let mut digits = Buffer::new();
    text.append(digits.format(number).as_bytes())
}

/// Adds numbers, each with the separator after it.
pub(crate) fn write_each(
    numbers: &[u32],
    separator: &[u8],
    text: &mut List<u8>,
) -> Result<(), NoMemory>
    ensures { OnOk result (text.new ≡ text.old ++ flat_map (λ number. decimal number ++ separator.now) numbers.now) }
{
    for number in numbers {
        write_number(*number, text)?;
        text.append(separator)?;
    }
    Ok(())
}
