//! Words that are put together.

ghost use Rattle.std.specs.Prelude.{◌≡◌, ◌++◌, decimal, OnOk};

use itoa::Buffer;
use mv_values::list::List;
use mv_values::memory::NoMemory;

/// Adds a number in decimal.
pub fn add_number(text: &mut List<u8>, number: usize) -> Result<(), NoMemory>
    ensures { OnOk result (text.new ≡ text.old ++ decimal number) }
{
    let mut digits = Buffer::new();
    text.append(digits.format(number).as_bytes())
}

/// Adds words, and a number after them.
pub fn add_count(text: &mut List<u8>, words: &[u8], number: usize) -> Result<(), NoMemory>
    ensures { OnOk result (text.new ≡ text.old ++ (words.now ++ decimal number)) }
{
    text.append(words)?;
    add_number(text, number)
}

/// Adds how large a part is of a whole, in percent with one decimal place. Nothing is a part of 0 percent.
pub fn add_share(text: &mut List<u8>, part: usize, whole: usize) -> Result<(), NoMemory> {
    let mills = part.saturating_mul(1000) / whole.max(1);
    add_number(text, mills / 10)?;
    add_count(text, b".", mills % 10)?;
    text.append(b" %")
}
