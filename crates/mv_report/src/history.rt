//! Part 2 of a run's text: the calls in their order.

ghost use Rattle.std.specs.Prelude.{◌≡◌, ◌++◌, codes, decimal, OnOk};
ghost use Rattle.std.specs.List.{join_by};
ghost use Rattle.mv_report.specs.Text.{mark_text, count_text, starts_text, counts_text, rounds_text, place_text, line_text, history_text};
ghost use Rattle.mv_lawful.specs.Rounds.{last_start};

use crate::number::write_number;
use mv_journal::outcome::{HistoryLine, Mark, Round};
use mv_values::list::List;
use mv_values::memory::NoMemory;

/// Adds a line for each call.
pub(crate) fn write_history(history: &[HistoryLine], text: &mut List<u8>) -> Result<(), NoMemory>
    ensures { OnOk result (text.new ≡ text.old ++ history_text history.now) }
{
    for line in history {
        write_line(line, text)?;
    }
    Ok(())
}

fn write_line(line: &HistoryLine, text: &mut List<u8>) -> Result<(), NoMemory>
    ensures { OnOk result (text.new ≡ text.old ++ line_text line.now) }
{
    write_place(line.commit, line.rounds.as_slice(), text)?;
    text.push(b' ')?;
    write_number(line.call, text)?;
    write_rounds(line.rounds.as_slice(), text)?;
    text.push(b'\n')
}

/// Adds the number of a commit, or the last start of an answered call.
fn write_place(commit: Option<u32>, rounds: &[Round], text: &mut List<u8>) -> Result<(), NoMemory>
    ensures { OnOk result (text.new ≡ text.old ++ place_text commit rounds.now) }
{
    match commit {
        Some(number) => write_number(number, text),
        None => {
            text.push(b'r')?;
            write_number(last_start(rounds), text)
        }
    }
}

/// Returns the start of the last round.
fn last_start(rounds: &[Round]) -> u32
    ensures { result ≡ last_start rounds.now }
{
    match rounds {
        [] => 0,
        [.., last] => last.start,
    }
}

fn write_rounds(rounds: &[Round], text: &mut List<u8>) -> Result<(), NoMemory>
    ensures { OnOk result (text.new ≡ text.old ++ rounds_text rounds.now) }
{
    text.append(b" starts ")?;
    write_starts(rounds, text)?;
    text.append(b" runs ")?;
    write_counts(rounds, text)
}

fn write_starts(rounds: &[Round], text: &mut List<u8>) -> Result<(), NoMemory>
    ensures { OnOk result (text.new ≡ text.old ++ starts_text rounds.now) }
{
    let [first, rest @ ..] = rounds else {
        return Ok(());
    };
    write_number(first.start, text)?;
    for round in rest {
        text.push(b',')?;
        write_number(round.start, text)?;
    }
    Ok(())
}

fn write_counts(rounds: &[Round], text: &mut List<u8>) -> Result<(), NoMemory>
    ensures { OnOk result (text.new ≡ text.old ++ counts_text rounds.now) }
{
    let [first, rest @ ..] = rounds else {
        return Ok(());
    };
    write_count(*first, text)?;
    for round in rest {
        text.push(b'+')?;
        write_count(*round, text)?;
    }
    Ok(())
}

fn write_count(round: Round, text: &mut List<u8>) -> Result<(), NoMemory>
    ensures { OnOk result (text.new ≡ text.old ++ count_text round.count round.mark) }
{
    let Some(count) = round.count else {
        return text.push(b'-');
    };
    write_number(count, text)?;
    match round.mark {
        Mark::Plain => Ok(()),
        Mark::Exclusive => text.push(b'x'),
        Mark::Moved => text.push(b'm'),
    }
}
