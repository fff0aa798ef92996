//! What the text of a graph says.

use crate::fault::TextFault;
use mv_values::list::List;
use mv_values::memory::NoMemory;
use std::alloc::Global;
use std::str;

/// Why a statement may depend on another one.
#[derive(Clone, Copy, PartialEq, Eq)]
pub enum Kind {
    /// The other one holds it.
    Control,
    /// The other one sets a variable that it reads.
    Variable,
    /// The other one changes the table that it asks.
    Table,
}

/// An edge between two statements of a procedure. They count from 1.
#[derive(Clone, Copy)]
pub struct Edge {
    pub kind: Kind,
    pub from: usize,
    pub to: usize,
}

/// A procedure: the number of its statements, and its edges.
#[derive(Drop)]
pub struct Procedure<'a> {
    pub name: &'a [u8],
    pub statements: usize,
    pub edges: List<Edge>,
}

/// Whether a text is one of graphs.
pub fn is_graph(text: &[u8]) -> bool {
    text.starts_with(b"procedure ") || text == b"end\n".as_slice()
}

/// Reads the text of graphs, procedure by procedure.
pub fn read_graph(alloc: Global, text: &[u8]) -> Result<List<Procedure<'_>>, TextFault> {
    let mut procedures: List<Procedure> = List::new(alloc);
    let mut number = 0usize;
    for line in text.split(|byte| *byte == b'\n') {
        number = number.saturating_add(1);
        if line == b"end".as_slice() {
            return Ok(procedures);
        }
        if !read_line(alloc, &mut procedures, line)? {
            return Err(TextFault::Line(number));
        }
    }
    Err(TextFault::Line(number))
}

/// Reads a line: one of a procedure, or one of a statement of the last procedure. Returns whether it is such a line.
fn read_line<'a>(
    alloc: Global,
    procedures: &mut List<Procedure<'a>>,
    line: &'a [u8],
) -> Result<bool, NoMemory> {
    if let Some(name) = line.strip_prefix(b"procedure ".as_slice()) {
        procedures.push(Procedure {
            name,
            statements: 0,
            edges: List::new(alloc),
        })?;
        return Ok(true);
    }
    let Some(mut procedure) = procedures.pop() else {
        return Ok(false);
    };
    let is_read = match str::from_utf8(line) {
        Ok(line) => procedure.read_statement(line)?,
        Err(_) => false,
    };
    procedures.push(procedure)?;
    Ok(is_read)
}

impl Procedure<'_> {
    /// Reads the line of the next statement: its number, its keyword and its edges. Returns whether it is such a line.
    fn read_statement(&mut self, line: &str) -> Result<bool, NoMemory> {
        self.statements = self.statements.saturating_add(1);
        let mut words = 0usize;
        for word in line.split(' ') {
            words = words.saturating_add(1);
            if words == 1 && word.parse::<usize>() != Ok(self.statements) {
                return Ok(false);
            }
            if words > 2 {
                match edge_in(word, self.statements) {
                    Some(edge) => self.edges.push(edge)?,
                    None => return Ok(false),
                }
            }
        }
        Ok(words > 1)
    }
}

/// Returns the edge to a statement that a word names.
fn edge_in(word: &str, to: usize) -> Option<Edge> {
    let (kind, digits) = if let Some(digits) = word.strip_prefix('c') {
        (Kind::Control, digits)
    } else if let Some(digits) = word.strip_prefix('v') {
        (Kind::Variable, digits)
    } else {
        (Kind::Table, word.strip_prefix('t')?)
    };
    let from = digits.parse::<usize>().ok()?;
    Some(Edge { kind, from, to })
}
