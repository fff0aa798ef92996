//! Why a text is refused.

use crate::words::add_count;
use mv_lex::lexer::LexFault;
use mv_values::list::List;
use mv_values::memory::NoMemory;

/// Why a text or its script is refused.
#[derive(Clone, Copy)]
pub enum TextFault {
    /// This line of the text, from 1, isn't one that `run`, `replay` or `graph` writes there.
    Line(usize),
    /// From this byte of the script on, from 1, no token begins.
    Byte(usize),
    /// The script has other calls than the text.
    Calls { text: usize, script: usize },
    /// The script has other statements than the text.
    Statements { text: usize, script: usize },
    NoMemory,
}

impl TextFault {
    /// Adds a sentence on the fault and its place. If memory ran out, nothing is added.
    pub fn add_sentence(self, text: &mut List<u8>) -> Result<(), NoMemory> {
        match self {
            TextFault::Line(line) => {
                add_count(text, b"show: line ", line)?;
                text.append(b" of the input isn't what mv3c run, replay or graph writes there\n")
            }
            TextFault::Byte(byte) => {
                add_count(text, b"show: the script can't be read from byte ", byte)?;
                text.append(b" on\n")
            }
            TextFault::Calls { text: ours, script } => add_difference(text, b"calls", ours, script),
            TextFault::Statements { text: ours, script } => {
                add_difference(text, b"statements", ours, script)
            }
            TextFault::NoMemory => Ok(()),
        }
    }
}

/// Adds how many things are in the text and in the script.
fn add_difference(
    text: &mut List<u8>,
    things: &[u8],
    ours: usize,
    script: usize,
) -> Result<(), NoMemory> {
    text.append(b"show: ")?;
    text.append(things)?;
    add_count(text, b" in the text: ", ours)?;
    add_count(text, b", in the script: ", script)?;
    text.push(b'\n')
}

impl From<NoMemory> for TextFault {
    fn from(_error: NoMemory) -> TextFault {
        TextFault::NoMemory
    }
}

impl From<LexFault> for TextFault {
    fn from(error: LexFault) -> TextFault {
        match error {
            LexFault::BadByte { at } | LexFault::BadToken { at } => {
                TextFault::Byte((at as usize).saturating_add(1))
            }
            LexFault::NoMemory => TextFault::NoMemory,
        }
    }
}
