//! The rows of a time line, one for each call.

ghost use Rattle.std.specs.Prelude.{length, IfOk};
ghost use Rattle.mv_draw.specs.Rows.{IsTitle, IsRect, IsRow, AreRows};

use crate::scale::{LEFT, Scale, row};
use mv_svg::content::Content;
use mv_svg::look::Look;
use mv_svg::shape::Shape;
use mv_trace::calls::Call;
use mv_trace::run::End;
use mv_trace::words::{add_count, add_number};
use mv_values::list::List;
use mv_values::memory::NoMemory;
use std::alloc::Global;

/// Returns the rows of the calls, by their numbers.
pub(crate) fn rows_of(alloc: Global, scale: &Scale, calls: &[Call]) -> Result<Content, NoMemory>
    ensures { IfOk result (λ rows. AreRows (length calls.now) rows.text) }
{
    let mut rows = Content::new(alloc);
    for number in 0..calls.len() {
        let row = row_of(alloc, scale, number, &calls[number])?;
        rows.add_group(alloc, &row)?;
    }
    Ok(rows)
}

/// Returns the row of a call: its title, its bar, and the rest.
fn row_of(alloc: Global, scale: &Scale, number: usize, call: &Call) -> Result<Content, NoMemory>
    ensures { IfOk result (λ row. IsRow number row.text) }
{
    let title = title_of(alloc, number, call)?;
    let rest = rest_of(alloc, scale, number, call)?;
    let none = Content::new(alloc);
    let mut row = Content::titled(alloc, title.as_slice())?;
    row.add_shape(alloc, look_of(call), bar_of(scale, number, call), &none)?;
    row.add_group(alloc, &rest)?;
    Ok(row)
}

/// Returns what the title of a row says: the number of the call, and all that is known of it.
fn title_of(alloc: Global, number: usize, call: &Call) -> Result<List<u8>, NoMemory>
    ensures { IfOk result (IsTitle number) }
{
    let story = story_of(alloc, call)?;
    let mut title = List::new(alloc);
    add_count(&mut title, b"call ", number)?;
    title.push(b'\n')?;
    title.append(story.as_slice())?;
    Ok(title)
}

/// Returns all that is known of a call.
fn story_of(alloc: Global, call: &Call) -> Result<List<u8>, NoMemory> {
    let mut text = List::new(alloc);
    if !call.name.is_empty() {
        text.append(call.name)?;
        text.push(b'\n')?;
    }
    add_count(&mut text, b"events ", call.bar.from)?;
    add_count(&mut text, b" to ", call.bar.to)?;
    match call.commit {
        Some(number) => add_count(&mut text, b", commit ", number as usize)?,
        None => add_count(&mut text, b", answered at ", call.start as usize)?,
    }
    text.append(b"\nstatements at first: ")?;
    call.cost.add_first(&mut text)?;
    if call.is_again() {
        add_count(&mut text, b"\nagain: ", call.cost.again)?;
        add_count(&mut text, b"\nrepairs: ", call.bar.repairs)?;
        add_count(&mut text, b", moves: ", call.bar.moves)?;
    }
    if let End::RolledBack(reason) = call.end {
        text.append(b"\nrolled back: ")?;
        text.append(reason)?;
    }
    Ok(text)
}

fn look_of(call: &Call) -> Look {
    if call.is_undone() {
        Look::Undone
    } else {
        Look::First
    }
}

/// Returns the bar of a call. It reaches from its begin to its commit or its answer.
fn bar_of(scale: &Scale, number: usize, call: &Call) -> Shape
    ensures { IsRect result }
{
    bar(scale.x(call.bar.from), scale.x(call.bar.to), row(number))
}

/// Returns a bar in the row with this top. It's at least two pixels long.
fn bar(from: u32, to: u32, y: u32) -> Shape
    ensures { IsRect result }
{
    Shape::Rect {
        x: from,
        y: y.saturating_add(2),
        width: to.saturating_sub(from).max(2),
        height: 10,
    }
}

/// Returns the rest of a row: the number of the call, what was executed again, and what it cost.
fn rest_of(alloc: Global, scale: &Scale, number: usize, call: &Call) -> Result<Content, NoMemory> {
    let mut rest = Content::new(alloc);
    let mut label = List::new(alloc);
    add_number(&mut label, number)?;
    let y = row(number);
    let below = y.saturating_add(10);
    rest.add_words(alloc, Look::Label, LEFT - 8, below, label.as_slice())?;
    let lead = lead(scale.x(call.bar.from), y);
    rest.add_shape(alloc, Look::Guide, lead, &Content::new(alloc))?;
    if call.is_again() {
        let again = bar(scale.x(call.bar.again), scale.x(call.bar.to), y);
        rest.add_shape(alloc, Look::Again, again, &Content::new(alloc))?;
    }
    let x = scale.x(call.bar.to).saturating_add(8);
    add_cost(alloc, &mut rest, x, below, call)?;
    add_statements(alloc, &mut rest, scale, y, call)?;
    Ok(rest)
}

/// Returns the line that leads from the number of a call to its bar.
fn lead(to: u32, y: u32) -> Shape {
    let y = y.saturating_add(7);
    Shape::Line {
        x1: LEFT,
        y1: y,
        x2: to,
        y2: y,
    }
}

/// Adds the procedure of a call and what it executed, as words.
fn add_cost(
    alloc: Global,
    rest: &mut Content,
    x: u32,
    y: u32,
    call: &Call,
) -> Result<(), NoMemory> {
    let mut text = List::new(alloc);
    if !call.name.is_empty() {
        text.append(call.name)?;
        text.push(b' ')?;
    }
    call.cost.add_first(&mut text)?;
    if call.is_again() {
        add_count(&mut text, b" + ", call.cost.again)?;
    }
    if call.is_undone() {
        text.append(b", rolled back")?;
    }
    let look = if call.is_again() {
        Look::Strong
    } else {
        Look::Side
    };
    rest.add_words(alloc, look, x, y, text.as_slice())
}

/// Adds the bars of the statements of a call.
fn add_statements(
    alloc: Global,
    rest: &mut Content,
    scale: &Scale,
    y: u32,
    call: &Call,
) -> Result<(), NoMemory> {
    let none = Content::new(alloc);
    let begin = scale.right();
    let middle = begin.saturating_add(scale.length(call.cost.at_first()));
    let end = middle.saturating_add(scale.length(call.cost.again));
    if call.cost.at_first() > 0 {
        rest.add_shape(alloc, Look::First, bar(begin, middle, y), &none)?;
    }
    if call.cost.again > 0 {
        rest.add_shape(alloc, Look::Again, bar(middle, end, y), &none)?;
    }
    Ok(())
}
