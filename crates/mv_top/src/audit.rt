//! The verdict on a report.

ghost use Rattle.std.specs.Prelude.{◌≡◌, ◌<◌, ◌^◌, length, IfOk};
ghost use Rattle.mv_record.specs.Databases.{IsProgram};
ghost use Rattle.mv_values.specs.Texts.{line};
ghost use Rattle.mv_top.specs.Audits.{verdict_line, verdict_text};

use crate::parts::report_in;
use mv_audit::audit::audit;
use mv_audit::verdict::Verdict;
use mv_catalog::resolved::Program;
use mv_values::list::List;
use mv_values::memory::NoMemory;
use std::alloc::Global;

/// Returns the line of a verdict.
fn line_of(alloc: Global, verdict: Verdict) -> Result<List<u8>, NoMemory>
    ensures { IfOk result (λ text. text ≡ line (verdict_line verdict)) }
{
    let mut text = List::new(alloc);
    match verdict {
        Verdict::Yes => text.append(b"audit yes")?,
        Verdict::NoJournal => text.append(b"audit no journal")?,
        Verdict::Line { n } => {
            text.append(b"audit no line ")?;
            text.append(n.to_string(alloc)?.as_bytes())?;
        }
    }
    text.push(b'\n')?;
    Ok(text)
}

/// Returns the line of the verdict on the report in these bytes. Costs the work of the report's journal.
pub(crate) fn verdict_text(
    alloc: Global,
    rounds: u32,
    bytes: &[u8],
    program: &Program,
) -> Result<List<u8>, NoMemory>
    requires whole { IsProgram program.now }
    requires size { length bytes.now < 2 ^ 31 }
    ensures { IfOk result (λ text. text ≡ verdict_text rounds bytes.now program.now) }
{
    let verdict = audit(alloc, program, rounds, report_in(bytes))?;
    line_of(alloc, verdict)
}
