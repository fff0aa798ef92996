//! The picture of graphs: the statements of each procedure as lines, with an arc for each edge.

ghost use Rattle.std.specs.Prelude.{IfOk};
ghost use Rattle.mv_svg.specs.Xml.{IsDocument};

use crate::pixels::pixels;
use mv_svg::content::Content;
use mv_svg::look::Look;
use mv_svg::picture::picture;
use mv_svg::shape::Shape;
use mv_trace::fault::TextFault;
use mv_trace::graph::{Edge, Kind, Procedure};
use mv_trace::statements::Statement;
use mv_trace::words::{add_count, add_number};
use mv_values::list::List;
use mv_values::memory::NoMemory;
use std::alloc::Global;

/// The width of a byte of program text.
const BYTE: u32 = 8;

/// The width of an indent.
const INDENT: u32 = 14;

/// The room for the number of a statement.
const NUMBER: u32 = 42;

/// How far arcs reach at most.
const REACH: u32 = 200;

/// The height of a line.
const ROW: u32 = 18;

/// Where the first procedure begins.
const TOP: u32 = 64;

/// Returns the picture of the graphs of a script's procedures. Fails if the script has other statements.
pub fn draw_diagram(
    alloc: Global,
    procedures: &[Procedure],
    statements: &[Statement],
) -> Result<List<u8>, TextFault>
    ensures { IfOk result (λ text. ∥ IsDocument text ∥₁) }
{
    let left = reach_of(procedures, false).saturating_add(20);
    let text = left.saturating_add(NUMBER);
    let right = text.saturating_add(width_of(statements));
    let mut diagram = Diagram {
        alloc,
        left,
        text,
        right,
        y: TOP,
        content: Content::titled(alloc, b"Which statement may depend on which")?,
    };
    diagram.add_legend()?;
    let mut at = 0usize;
    for procedure in procedures {
        let end = at.saturating_add(procedure.statements);
        let Some(lines) = statements.get(at..end) else {
            return Err(difference(procedures, statements));
        };
        diagram.add_procedure(procedure, lines)?;
        at = end;
    }
    if at != statements.len() {
        return Err(difference(procedures, statements));
    }
    let width = right
        .saturating_add(reach_of(procedures, true))
        .saturating_add(20);
    let height = diagram.y.saturating_add(8);
    Ok(picture(alloc, width.max(1060), height, &diagram.content)?)
}

/// Returns how the text and the script differ.
fn difference(procedures: &[Procedure], statements: &[Statement]) -> TextFault {
    let mut text = 0usize;
    for procedure in procedures {
        text = text.saturating_add(procedure.statements);
    }
    TextFault::Statements {
        text,
        script: statements.len(),
    }
}

/// Returns how far the arc of an edge reaches.
fn reach(edge: &Edge) -> u32 {
    let apart = edge
        .from
        .saturating_sub(edge.to)
        .max(edge.to.saturating_sub(edge.from));
    pixels(apart)
        .saturating_mul(ROW / 2)
        .saturating_add(14)
        .min(REACH)
}

/// Returns how far the arcs on one side reach: those of tables on the right, the others on the left.
fn reach_of(procedures: &[Procedure], is_right: bool) -> u32 {
    let mut most = 0u32;
    for procedure in procedures {
        for edge in procedure.edges.as_slice() {
            if (edge.kind == Kind::Table) == is_right {
                most = most.max(reach(edge));
            }
        }
    }
    most
}

/// Returns the width of the widest line.
fn width_of(statements: &[Statement]) -> u32 {
    let mut most = 0u32;
    for statement in statements {
        let indent = pixels(statement.depth).saturating_mul(INDENT);
        let width = pixels(statement.line.len()).saturating_mul(BYTE);
        most = most.max(indent.saturating_add(width));
    }
    most.saturating_add(16)
}

/// A picture of graphs that is being drawn.
#[derive(Drop)]
struct Diagram {
    alloc: Global,
    /// Where the arcs on the left end.
    left: u32,
    /// Where the lines begin.
    text: u32,
    /// Where the arcs on the right begin.
    right: u32,
    /// The top of the next line.
    y: u32,
    content: Content,
}

impl Diagram {
    fn add_words(&mut self, look: Look, x: u32, y: u32, words: &[u8]) -> Result<(), NoMemory> {
        self.content.add_words(self.alloc, look, x, y, words)
    }

    /// Adds what the arcs mean.
    fn add_legend(&mut self) -> Result<(), NoMemory> {
        self.add_words(Look::Head, 20, 26, b"Which statement may depend on which")?;
        self.add_sample(20, Look::Control, b"the IF or FOR that holds it")?;
        self.add_sample(240, Look::Variable, b"sets a variable that it reads")?;
        self.add_sample(470, Look::Table, b"changes the table that it asks")?;
        self.add_words(
            Look::Side,
            710,
            50,
            b"A dot is at the statement that depends on the other one.",
        )
    }

    fn add_sample(&mut self, x: u32, look: Look, words: &[u8]) -> Result<(), NoMemory> {
        let line = Shape::Line {
            x1: x,
            y1: 46,
            x2: x.saturating_add(30),
            y2: 46,
        };
        self.content
            .add_shape(self.alloc, look, line, &Content::new(self.alloc))?;
        self.add_words(Look::Side, x.saturating_add(36), 50, words)
    }

    /// Adds a procedure: its name, its lines and its arcs.
    fn add_procedure(
        &mut self,
        procedure: &Procedure,
        lines: &[Statement],
    ) -> Result<(), NoMemory> {
        let mut name = List::new(self.alloc);
        name.append(b"procedure ")?;
        name.append(procedure.name)?;
        self.y = self.y.saturating_add(2 * ROW);
        self.add_words(
            Look::Strong,
            self.text.saturating_sub(20),
            self.y.saturating_sub(ROW / 2),
            name.as_slice(),
        )?;
        for edge in procedure.edges.as_slice() {
            self.add_edge(edge)?;
        }
        for (before, statement) in lines.iter().enumerate() {
            self.add_line(before, statement)?;
        }
        self.y = self
            .y
            .saturating_add(pixels(lines.len()).saturating_mul(ROW));
        Ok(())
    }

    /// Returns the middle of a statement's line.
    fn middle(&self, number: usize) -> u32 {
        pixels(number.saturating_sub(1))
            .saturating_mul(ROW)
            .saturating_add(self.y)
            .saturating_add(ROW / 2)
    }

    fn add_line(&mut self, before: usize, statement: &Statement) -> Result<(), NoMemory> {
        let number = before.saturating_add(1);
        let y = self.middle(number).saturating_add(4);
        let mut label = List::new(self.alloc);
        add_number(&mut label, number)?;
        self.add_words(
            Look::Label,
            self.text.saturating_sub(10),
            y,
            label.as_slice(),
        )?;
        let indent = pixels(statement.depth).saturating_mul(INDENT);
        self.add_words(
            Look::Code,
            indent.saturating_add(self.text),
            y,
            statement.line.as_slice(),
        )
    }

    /// Adds the arc of an edge, and a dot at the statement that depends on the other one. Tables are on the right.
    fn add_edge(&mut self, edge: &Edge) -> Result<(), NoMemory> {
        let (from, to) = (self.middle(edge.from), self.middle(edge.to));
        let (from, to) = if edge.from == edge.to {
            (from.saturating_sub(5), to.saturating_add(5))
        } else {
            (from, to)
        };
        let reach = reach(edge);
        let (look, x, bend) = match edge.kind {
            Kind::Control => (Look::Control, self.left, self.left.saturating_sub(reach)),
            Kind::Variable => (Look::Variable, self.left, self.left.saturating_sub(reach)),
            Kind::Table => (Look::Table, self.right, self.right.saturating_add(reach)),
        };
        let mut story = List::new(self.alloc);
        add_story(&mut story, edge)?;
        let title = Content::titled(self.alloc, story.as_slice())?;
        self.content
            .add_shape(self.alloc, look, Shape::Arc { x, from, to, bend }, &title)?;
        let dot = Shape::Rect {
            x: x.saturating_sub(2),
            y: to.saturating_sub(2),
            width: 4,
            height: 4,
        };
        self.content
            .add_shape(self.alloc, Look::Mark, dot, &Content::new(self.alloc))
    }
}

/// Adds what an edge says.
fn add_story(text: &mut List<u8>, edge: &Edge) -> Result<(), NoMemory> {
    add_count(text, b"statement ", edge.from)?;
    text.append(match edge.kind {
        Kind::Control => b" holds statement ".as_slice(),
        Kind::Variable => b" sets a variable that is read by statement ",
        Kind::Table => b" changes the table that is asked by statement ",
    })?;
    add_number(text, edge.to)
}
