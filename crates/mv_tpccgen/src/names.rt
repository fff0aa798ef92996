//! Last names.

ghost use Rattle.std.specs.Prelude.{◌≡◌, ◌++◌, OnOk};
ghost use Rattle.mv_tpccgen.specs.Names.{syllable, last_name};

use mv_values::list::List;
use mv_values::memory::NoMemory;

/// Adds the last name of a number below 1000.
pub(crate) fn write_last_name(number: u32, text: &mut List<u8>) -> Result<(), NoMemory>
    ensures { OnOk result (text.new ≡ text.old ++ last_name number) }
{
    text.append(syllable(number / 100))?;
    text.append(syllable(number / 10 % 10))?;
    text.append(syllable(number % 10))
}

#[tactic(auto, unfolding(crate::specs::Names::syllable))]
fn syllable(digit: u32) -> &'static [u8]
    ensures { result.now ≡ syllable digit }
{
    match digit {
        0 => b"BAR",
        1 => b"OUGHT",
        2 => b"ABLE",
        3 => b"PRI",
        4 => b"PRES",
        5 => b"ESE",
        6 => b"ANTI",
        7 => b"CALLY",
        8 => b"ATION",
        _ => b"EING",
    }
}
