//! The time line of a run with few calls: a bar for each call, over the events of its journal from left to right.

ghost use Rattle.std.specs.Prelude.{length, IfOk};
ghost use Rattle.mv_svg.specs.Xml.{IsDocument};
ghost use Rattle.mv_draw.specs.Rows.{ShowsRows};

use crate::legend::{add_bars, add_marks, square};
use crate::rows::rows_of;
use crate::scale::{LEFT, Scale, TOP, row};
use mv_journal::event::Event;
use mv_svg::content::Content;
use mv_svg::look::Look;
use mv_svg::picture::picture;
use mv_svg::shape::Shape;
use mv_trace::calls::Call;
use mv_trace::totals::{add_heading, add_sentence, totals_of};
use mv_trace::words::{add_count, add_number};
use mv_values::list::List;
use mv_values::memory::NoMemory;
use std::alloc::Global;

/// Returns the time line of a run.
pub(crate) fn draw_time_line(
    alloc: Global,
    events: &[Event],
    calls: &[Call],
) -> Result<List<u8>, NoMemory>
    ensures document { IfOk result (λ text. ∥ IsDocument text ∥₁) }
    ensures rows { IfOk result (ShowsRows (length calls.now)) }
{
    let scale = Scale::new(events.len(), calls);
    let rows = rows_of(alloc, &scale, calls)?;
    let marks = marks_of(alloc, &scale, events)?;
    let mut content = head_of(alloc, calls)?;
    add_grid(alloc, &mut content, &scale, events.len())?;
    content.add_group(alloc, &rows)?;
    content.add_group(alloc, &marks)?;
    picture(alloc, scale.width(), scale.height(), &content)
}

/// Returns the heading, the totals and the legend.
fn head_of(alloc: Global, calls: &[Call]) -> Result<Content, NoMemory> {
    let totals = totals_of(calls);
    let mut heading = List::new(alloc);
    add_heading(&mut heading, &totals)?;
    let mut sentence = List::new(alloc);
    add_sentence(&mut sentence, &totals)?;
    let mut head = Content::titled(alloc, heading.as_slice())?;
    head.add_words(alloc, Look::Head, LEFT, 24, heading.as_slice())?;
    head.add_words(alloc, Look::Note, LEFT, 46, sentence.as_slice())?;
    let words = [
        b"executed at first".as_slice(),
        b"executed again",
        b"rolled back",
    ];
    add_bars(alloc, &mut head, words)?;
    add_marks(alloc, &mut head)?;
    Ok(head)
}

/// Adds a line and a number at each of some events.
fn add_grid(
    alloc: Global,
    content: &mut Content,
    scale: &Scale,
    events: usize,
) -> Result<(), NoMemory> {
    let gap = scale.gap();
    content.add_words(alloc, Look::Side, LEFT, TOP - 22, b"events of the journal")?;
    let words = b"executed statements";
    content.add_words(alloc, Look::Side, scale.right(), TOP - 8, words)?;
    for at in 0..events.saturating_add(1) {
        if at % gap == 0 {
            add_tick(alloc, content, scale, at)?;
        }
    }
    Ok(())
}

fn add_tick(
    alloc: Global,
    content: &mut Content,
    scale: &Scale,
    at: usize,
) -> Result<(), NoMemory> {
    let x = scale.x(at);
    let line = Shape::Line {
        x1: x,
        y1: TOP - 4,
        x2: x,
        y2: scale.bottom(),
    };
    content.add_shape(alloc, Look::Grid, line, &Content::new(alloc))?;
    let mut number = List::new(alloc);
    add_number(&mut number, at)?;
    content.add_words(alloc, Look::Tick, x, TOP - 8, number.as_slice())
}

/// Returns the marks of the repairs and the moves.
fn marks_of(alloc: Global, scale: &Scale, events: &[Event]) -> Result<Content, NoMemory> {
    let mut marks = Content::new(alloc);
    for (at, event) in events.iter().enumerate() {
        let x = scale.x(at);
        match *event {
            Event::A(call) => {
                let y = row(call as usize).saturating_add(2);
                add_mark(alloc, &mut marks, Shape::Triangle { x, y }, at, call)?;
            }
            Event::M(call) => {
                let y = row(call as usize).saturating_add(3);
                add_mark(alloc, &mut marks, square(x.saturating_sub(4), y), at, call)?;
            }
            Event::X(call) => {
                let y = row(call as usize).saturating_add(2);
                add_mark(alloc, &mut marks, Shape::Diamond { x, y }, at, call)?;
            }
            Event::B(_) | Event::S(_) | Event::C(_) | Event::R(_) | Event::G => {}
        }
    }
    Ok(marks)
}

/// Adds the mark of an event of a call.
fn add_mark(
    alloc: Global,
    marks: &mut Content,
    shape: Shape,
    at: usize,
    call: u32,
) -> Result<(), NoMemory> {
    let mut title = List::new(alloc);
    add_count(&mut title, b"event ", at)?;
    add_count(&mut title, b", of call ", call as usize)?;
    let title = Content::titled(alloc, title.as_slice())?;
    marks.add_shape(alloc, Look::Mark, shape, &title)
}
