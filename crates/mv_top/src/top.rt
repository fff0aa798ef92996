//! The top call: words, a source, a sink.

ghost use Rattle.std.specs.Prelude.{◌≡◌, ◌⊎◌, ℕ, List as Seq, Some, drop, IfOk};
ghost use Rattle.std.specs.Option.{ForSome};
ghost use Rattle.mv_values.specs.Counts.{Rose};
ghost use Rattle.mv_values.specs.Texts.{line};
ghost use Rattle.mv_catalog.specs.declared.resolved.Program.{Program};
ghost use Rattle.mv_words.specs.declared.command.Command.{Command as Task};
ghost use Rattle.mv_top.specs.declared.refusal.Refusal.{Refusal as Why};
ghost use Rattle.mv_top.specs.Refusals.{line_of};
ghost use Rattle.mv_top.specs.Inputs.{IsReader, input_of};
ghost use Rattle.mv_top.specs.Answers.{IsAnswered, Puts, Wrote, WroteOr, StandFor, TakesBytes, IsNoCommand, IsNoReader, IsTextOf, IsRefusedBy, words_of, usage_line};
ghost use Rattle.mv_top.specs.Headline.{IsSerializable};
ghost use Rattle.mv_top.specs.Audits.{IsAudited};
ghost use Rattle.mv_top.specs.Whys.{IsExplained};

use crate::answer::answer;
use crate::input::take_input;
use crate::status::{Fault, Status};
use mv_edge::edge::{Sink, Source};
use mv_edge::pace::Pace;
use mv_edge::reading::{MOST, ReadFault};
use mv_edge::writing::write_all;
use mv_values::list::List;
use mv_values::memory::NoMemory;
use mv_words::command::{Command, WordsFault};
use mv_words::reading::read_words;
use std::alloc::Global;
use std::sync::Wait;
use std::thread::Threads;

const USAGE_LINE: &[u8] = b"usage: mv3c run|replay|serial|graph|tpcc [options]\n";

/// Answers the words of a command line. For a command it reads the source to its end, or to byte 16,777,217. Only `tpcc`
/// doesn't read it: its input is the script that it generates. It writes the answer to the sink. The whole answer is built
/// before the first write.
pub fn top<R: Threads + Wait + Sync, S: Source, K: Sink, P: Pace>(
    rt: &R,
    alloc: Global,
    words: &[String],
    source: &mut S,
    sink: &mut K,
    pace: &P,
) -> Status
    // What was written, for each status: Done has a text of the command, Refused and Usage their line.
    ensures wrote { Wrote (words_of words.now) (S.left source.old) (K.written sink.old) (K.written sink.new) result }
    // The headline: `run` with any number of workers, and `replay`, have written a text by which the calls are
    // serializable.
    ensures serializable { IsSerializable (words_of words.now) (S.left source.old) (K.written sink.old) (K.written sink.new) result }
    // AUDIT: `audit` has written the line of the verdict on the report of its input.
    ensures audited { IsAudited (words_of words.now) (S.left source.old) (K.written sink.old) (K.written sink.new) result }
    // CAUSES: `why` has written the records that each repair of the script's own journal executed, with their causes.
    ensures explained { IsExplained (words_of words.now) (S.left source.old) (K.written sink.old) (K.written sink.new) result }
    // Words that name no command get the usage line, unless the sink fails or memory runs out. Neither for them nor for
    // `tpcc` is the source read.
    ensures words { IsNoCommand (words_of words.now) → (result ≡ Status.Usage) ⊎ ((result ≡ Status.WriteFault) ⊎ (result ≡ Status.NoMemory)) }
    ensures unread { IsNoReader (words_of words.now) → S.left source.new ≡ S.left source.old }
    ensures untried { IsNoReader (words_of words.now) → result ≡ Status.ReadFault → ⊥ }
    // Another command reads the source to its end or to byte 16,777,217, and no byte more.
    ensures rest { (command : Task) → StandFor (words_of words.now) command → IsReader command → (result ≡ Status.ReadFault → ⊥) → (result ≡ Status.NoMemory → ⊥)
        → ForSome (S.left source.old) (λ all. S.left source.new ≡ Some (drop MOST all)) }
    // A count of faults rises exactly if the status says so.
    ensures reading { result ≡ Status.ReadFault → Rose (S.faults source.old) (S.faults source.new) }
    ensures read { (result ≡ Status.ReadFault → ⊥) → S.faults source.new ≡ S.faults source.old }
    ensures writing { result ≡ Status.WriteFault → Rose (K.faults sink.old) (K.faults sink.new) }
    ensures written { (result ≡ Status.WriteFault → ⊥) → K.faults sink.new ≡ K.faults sink.old }
    // An accepted script, for `replay` and `why` one with a lawful journal, for `audit` one after a head, gets a text of the command, unless the source or the
    // sink fails or memory runs out.
    ensures complete { (command : Task) (all : Seq ℕ) (program : Program) → StandFor (words_of words.now) command → input_of command (S.left source.old) ≡ Some all → TakesBytes command all program
        → (Rose (S.faults source.old) (S.faults source.new) → ⊥) → (Rose (K.faults sink.old) (K.faults sink.new) → ⊥)
        → WroteOr Status.Done (IsTextOf command all program) (K.written sink.old) (K.written sink.new) result }
    // An input with the cause of a refusal gets the refusal's line, unless the source or the sink fails or memory runs
    // out.
    ensures refuses { (command : Task) (all : Seq ℕ) (refusal : Why) → StandFor (words_of words.now) command → input_of command (S.left source.old) ≡ Some all → IsRefusedBy command all refusal
        → (Rose (S.faults source.old) (S.faults source.new) → ⊥) → (Rose (K.faults sink.old) (K.faults sink.new) → ⊥)
        → WroteOr Status.Refused (λ answer. answer ≡ line (line_of refusal)) (K.written sink.old) (K.written sink.new) result }
{
    let command = match read_words(alloc, words) {
        Ok(command) => command,
        Err(WordsFault::Usage) => return put(sink, Status::Usage, USAGE_LINE),
        Err(WordsFault::NoMemory) => return Status::NoMemory,
    };
    let bytes = match take_input(alloc, &command, source) {
        Ok(bytes) => bytes,
        Err(ReadFault::NoMemory) => return Status::NoMemory,
        Err(ReadFault::Failed) => return Status::ReadFault,
    };
    match answered(rt, alloc, &command, bytes.as_slice(), pace) {
        Ok((status, text)) => put(sink, status, text.as_slice()),
        Err(_) => Status::NoMemory,
    }
}

/// Returns the status for the bytes, and the text to write.
fn answered<R: Threads + Wait + Sync, P: Pace>(
    rt: &R,
    alloc: Global,
    command: &Command,
    bytes: &[u8],
    pace: &P,
) -> Result<(Status, List<u8>), NoMemory>
    ensures found { IfOk result (λ answer. IsAnswered command.now bytes.now answer.0 answer.1) }
    ensures only { (program : Program) → TakesBytes command.now bytes.now program → IfOk result (λ answer. (answer.0 ≡ Status.Done) × IsTextOf command.now bytes.now program answer.1) }
    ensures told { (refusal : Why) → IsRefusedBy command.now bytes.now refusal → IfOk result (λ answer. (answer.0 ≡ Status.Refused) × (answer.1 ≡ line (line_of refusal))) }
{
    match answer(rt, alloc, command, bytes, pace) {
        Ok(text) => Ok((Status::Done, text)),
        Err(Fault::NoMemory) => Err(NoMemory),
        Err(Fault::Refused { line, .. }) => Ok((Status::Refused, ended(alloc, line.as_slice())?)),
    }
}

/// Returns a line with its LF.
fn ended(alloc: Global, bytes: &[u8]) -> Result<List<u8>, NoMemory>
    ensures { IfOk result (λ text. text ≡ line bytes.now) }
{
    let mut text = List::new(alloc);
    text.append(bytes)?;
    text.push(b'\n')?;
    Ok(text)
}

/// Writes a text. Returns `status` if the whole text was written, and `WriteFault` otherwise.
fn put<K: Sink>(sink: &mut K, status: Status, text: &[u8]) -> Status
    ensures { Puts (K.written sink.old) (K.written sink.new) (K.faults sink.old) (K.faults sink.new) status text.now result }
{
    match write_all(sink, text) {
        Ok(()) => status,
        Err(_) => Status::WriteFault,
    }
}
