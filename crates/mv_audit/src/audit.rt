//! Says whether a report is the text of a lawful run.

ghost use Rattle.std.specs.Prelude.{◌≡◌, ◌<◌, ◌^◌, IfOk, length};
ghost use Rattle.mv_record.specs.Databases.{IsProgram};
ghost use Rattle.mv_report.specs.Text.{text_of};
ghost use Rattle.mv_audit.specs.Verdicts.{difference, audit_verdict};

use crate::differing::difference;
use crate::judge::{Judged, judge};
use crate::lines::{find_journal, read_events};
use crate::verdict::Verdict;
use mv_catalog::resolved::Program;
use mv_journal::outcome::Outcome;
use mv_report::render::render;
use mv_values::memory::NoMemory;
use std::alloc::Global;

/// Compares a report with the text of an outcome.
fn compared(
    alloc: Global,
    program: &Program,
    outcome: &Outcome,
    report: &[u8],
) -> Result<Option<u32>, NoMemory>
    requires { length report.now < 2 ^ 31 }
    ensures { IfOk result (λ n. n ≡ difference 1 report.now (text_of program.now.resolved.tables outcome.now)) }
{
    let text = render(alloc, &program.resolved.tables, outcome)?;
    Ok(difference(report, text.as_slice()))
}

/// Returns the verdict on a report of this program's calls, run with this many rounds. It executes each call alone, with
/// the tables after the commits before it, as often as the journal says, and knows nothing of versions. A report gets yes
/// exactly if it is the text of a lawful journal. Fails if memory runs out.
pub fn audit(
    alloc: Global,
    program: &Program,
    rounds: u32,
    report: &[u8],
) -> Result<Verdict, NoMemory>
    requires whole { IsProgram program.now }
    requires few { length report.now < 2 ^ 31 }
    ensures { IfOk result (λ v. v ≡ audit_verdict program.now rounds report.now) }
{
    let Some(start) = find_journal(report) else {
        return Ok(Verdict::NoJournal);
    };
    let read = read_events(alloc, start.rest)?;
    let events = read.events.as_slice();
    let judged = judge(alloc, program, rounds, events)?;
    let after = start.at + (events.len() as u32 + 1);
    match judged {
        Judged::Refused { n } => Ok(Verdict::Line { n: start.at + n }),
        Judged::Open => Ok(Verdict::Line { n: after }),
        Judged::Lawful(outcome) => {
            if !read.whole {
                return Ok(Verdict::Line { n: after });
            }
            match compared(alloc, program, &outcome, report)? {
                Some(n) => Ok(Verdict::Line { n }),
                None => Ok(Verdict::Yes),
            }
        }
    }
}
