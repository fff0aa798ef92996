//! Prints single tokens.

ghost use Rattle.std.specs.Prelude.{◌≡◌, ◌++◌, ◌∷◌, [], ℕ, pos, codes, decimal, slice_range, OnOk};
ghost use Rattle.mv_values.specs.Texts.{doubled, quoted};
ghost use Rattle.mv_print.specs.Printing.{key, line_end, name_piece, variable_piece, number_piece, text_piece, block_piece, put, written, value_pieces, spelled};

use crate::words::spelled;
use itoa::Buffer;
use mv_ast::lexeme::Terminal;
use mv_ast::tree::Name;
use mv_values::list::List;
use mv_values::memory::NoMemory;
use mv_values::value::Value;

/// Adds a keyword or a symbol.
#[tactic(auto, unfolding(crate::specs::Printing::put))]
pub(crate) fn write_key(kind: Terminal, text: &mut List<u8>) -> Result<(), NoMemory>
    ensures { OnOk result (text.new ≡ put text.old (key kind)) }
{
    text.append(spelled(kind))?;
    text.push(b' ')
}

/// Adds the `;` that ends a line.
#[tactic(auto, unfolding(crate::specs::Printing::put))]
pub(crate) fn write_end(text: &mut List<u8>) -> Result<(), NoMemory>
    ensures { OnOk result (text.new ≡ put text.old line_end) }
{
    text.append(b";\n")
}

#[tactic(auto, unfolding(crate::specs::Printing::put))]
pub(crate) fn write_name(name: &Name, text: &mut List<u8>) -> Result<(), NoMemory>
    ensures { OnOk result (text.new ≡ put text.old (name_piece name.now)) }
{
    text.append(name.text.as_slice())?;
    text.push(b' ')
}

#[tactic(auto, unfolding(crate::specs::Printing::put))]
pub(crate) fn write_variable(name: &Name, text: &mut List<u8>) -> Result<(), NoMemory>
    ensures { OnOk result (text.new ≡ put text.old (variable_piece name.now)) }
{
    text.push(b':')?;
    text.append(name.text.as_slice())?;
    text.push(b' ')
}

#[tactic(auto, unfolding(crate::specs::Printing::put))]
pub(crate) fn write_number(number: u64, text: &mut List<u8>) -> Result<(), NoMemory>
    ensures { OnOk result (text.new ≡ put text.old (number_piece number)) }
{
    let mut digits = Buffer::new();
    text.append(digits.format(number).as_bytes())?;
    text.push(b' ')
}

/// Adds the bytes of a text, with each quote doubled.
fn write_doubled(content: &[u8], text: &mut List<u8>) -> Result<(), NoMemory>
    ensures { OnOk result (text.new ≡ text.old ++ doubled content.now) }
{
    for byte in content {
        if *byte == b'\'' {
            text.push(b'\'')?;
        }
        text.push(*byte)?;
    }
    Ok(())
}

#[tactic(auto, unfolding(crate::specs::Printing::put))]
pub(crate) fn write_text(content: &[u8], text: &mut List<u8>) -> Result<(), NoMemory>
    ensures { OnOk result (text.new ≡ put text.old (text_piece content.now)) }
{
    text.append(b"'")?;
    write_doubled(content, text)?;
    text.append(b"' ")
}

/// Adds a block with these bytes. An open block has no closing line.
#[tactic(auto, unfolding(crate::specs::Printing::put))]
pub(crate) fn write_block(content: &[u8], closed: bool, text: &mut List<u8>) -> Result<(), NoMemory>
    ensures { OnOk result (text.new ≡ put text.old (block_piece content.now closed)) }
{
    text.append(b"<<\n")?;
    text.append(content)?;
    if !closed {
        return Ok(());
    }
    text.append(b">>\n")
}

/// Adds a number or a text. The `-` of a negative number is a token of its own.
#[tactic(auto, unfolding(crate::specs::Printing::written))]
pub(crate) fn write_value(value: &Value, text: &mut List<u8>) -> Result<(), NoMemory>
    ensures { OnOk result (text.new ≡ written text.old (value_pieces value.now)) }
{
    match value {
        Value::Int(number) => write_int(*number, text),
        Value::Text(content) => write_text(content.as_slice(), text),
    }
}

#[tactic(auto, unfolding(crate::specs::Printing::written))]
fn write_int(number: i64, text: &mut List<u8>) -> Result<(), NoMemory>
    ensures { OnOk result (text.new ≡ written text.old (value_pieces (Value.Int number))) }
{
    if number < 0 {
        write_key(Terminal::Minus, text)?;
    }
    write_number(number.unsigned_abs(), text)
}
