//! Part 1 of a run's text: the reply of each call.

ghost use Rattle.std.specs.Prelude.{◌≡◌, ◌++◌, ◌∷◌, [], codes, OnOk};
ghost use Rattle.std.specs.List.{flat_map};
ghost use Rattle.mv_values.specs.Texts.{line};
ghost use Rattle.mv_report.specs.Text.{in_quotes, reason_text, answer_text, reply_text, replies_text};

use crate::number::write_number;
use mv_values::calls::{End, Reply};
use mv_values::list::List;
use mv_values::memory::NoMemory;
use mv_values::txt::Txt;

/// Adds the replies, by call number.
pub(crate) fn write_replies(replies: &[Reply], text: &mut List<u8>) -> Result<(), NoMemory>
    ensures { OnOk result (text.new ≡ text.old ++ replies_text replies.now) }
{
    for (call, reply) in replies.iter().enumerate() {
        write_reply(call, reply, text)?;
    }
    Ok(())
}

fn write_reply(call: usize, reply: &Reply, text: &mut List<u8>) -> Result<(), NoMemory>
    ensures { OnOk result (text.new ≡ text.old ++ reply_text call reply.now) }
{
    text.append(b"reply ")?;
    write_number(call, text)?;
    write_answer(reply, text)
}

fn write_answer(reply: &Reply, text: &mut List<u8>) -> Result<(), NoMemory>
    ensures { OnOk result (text.new ≡ text.old ++ answer_text reply.now.lines reply.now.end) }
{
    match &reply.end {
        None => {
            text.append(b" done\n")?;
            write_lines(reply.lines.as_slice(), text)
        }
        Some(end) => write_rollback(end, text),
    }
}

fn write_rollback(end: &End, text: &mut List<u8>) -> Result<(), NoMemory>
    ensures { OnOk result (text.new ≡ text.old ++ line (codes " rolled back " ++ reason_text end.now)) }
{
    text.append(b" rolled back ")?;
    write_reason(end, text)?;
    text.push(b'\n')
}

fn write_lines(lines: &[Txt], text: &mut List<u8>) -> Result<(), NoMemory>
    ensures { OnOk result (text.new ≡ text.old ++ flat_map line lines.now) }
{
    for line in lines {
        text.append(line.as_slice())?;
        text.push(b'\n')?;
    }
    Ok(())
}

fn write_reason(end: &End, text: &mut List<u8>) -> Result<(), NoMemory>
    ensures { OnOk result (text.new ≡ text.old ++ reason_text end.now) }
{
    match end {
        End::Own(reason) => write_quoted(reason.as_slice(), text),
        End::Duplicate => text.append(b"duplicate key"),
        End::Overflow => text.append(b"overflow"),
        End::ZeroDivisor => text.append(b"division by zero"),
        End::TooLong => text.append(b"text too long"),
        End::MissingParent => text.append(b"missing parent"),
        End::HasChildren => text.append(b"has children"),
    }
}

fn write_quoted(reason: &[u8], text: &mut List<u8>) -> Result<(), NoMemory>
    ensures { OnOk result (text.new ≡ text.old ++ codes "'" ++ flat_map in_quotes reason.now ++ codes "'") }
{
    text.push(b'\'')?;
    for byte in reason {
        write_in_quotes(*byte, text)?;
    }
    text.push(b'\'')
}

fn write_in_quotes(byte: u8, text: &mut List<u8>) -> Result<(), NoMemory>
    ensures { OnOk result (text.new ≡ text.old ++ in_quotes byte) }
{
    if byte == b'\'' {
        text.append(b"''")
    } else {
        text.push(byte)
    }
}
