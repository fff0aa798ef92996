//! Words in XML.

ghost use Rattle.std.specs.Prelude.{◌≡◌, ◌++◌, OnOk};
ghost use Rattle.mv_svg.specs.Escapes.{reference, escaped_byte, escaped};

use mv_values::list::List;
use mv_values::memory::NoMemory;

/// Adds words. A byte that XML gives a meaning of its own is written as a reference, and one that isn't an LF or printable as `?`.
pub(crate) fn write_escaped(words: &[u8], text: &mut List<u8>) -> Result<(), NoMemory>
    ensures { OnOk result (text.new ≡ text.old ++ escaped words.now) }
{
    for byte in words {
        write_byte(*byte, text)?;
    }
    Ok(())
}

fn write_byte(byte: u8, text: &mut List<u8>) -> Result<(), NoMemory>
    ensures { OnOk result (text.new ≡ text.old ++ escaped_byte byte) }
{
    match byte {
        b'<' | b'>' | b'&' | b'"' | b'\'' => text.append(reference_to(byte)),
        b'\n' | b' '..=b'~' => text.push(byte),
        _ => text.push(b'?'),
    }
}

/// Returns the reference that stands for a byte with a meaning of its own.
fn reference_to(byte: u8) -> &'static [u8]
    ensures { result.now ≡ reference byte }
{
    match byte {
        b'<' => b"&lt;",
        b'>' => b"&gt;",
        b'&' => b"&amp;",
        b'"' => b"&quot;",
        _ => b"&apos;",
    }
}
