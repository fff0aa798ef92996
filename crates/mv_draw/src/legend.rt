//! The legends of pictures.

use mv_svg::content::Content;
use mv_svg::look::Look;
use mv_svg::shape::Shape;
use mv_values::memory::NoMemory;
use std::alloc::Global;

/// The height of a legend's words.
pub(crate) const LEGEND: u32 = 70;

/// Adds what the bars of a picture mean.
pub(crate) fn add_bars(
    alloc: Global,
    content: &mut Content,
    words: [&[u8]; 3],
) -> Result<(), NoMemory> {
    let [first, again, undone] = words;
    add_bar(alloc, content, 56, Look::First, first)?;
    add_bar(alloc, content, 196, Look::Again, again)?;
    add_bar(alloc, content, 336, Look::Undone, undone)
}

/// Adds what a bar means.
fn add_bar(
    alloc: Global,
    content: &mut Content,
    x: u32,
    look: Look,
    words: &[u8],
) -> Result<(), NoMemory> {
    let sample = Shape::Rect {
        x,
        y: LEGEND - 9,
        width: 18,
        height: 10,
    };
    content.add_shape(alloc, look, sample, &Content::new(alloc))?;
    content.add_words(alloc, Look::Side, x.saturating_add(23), LEGEND, words)
}

/// Adds what the marks of a time line mean.
pub(crate) fn add_marks(alloc: Global, content: &mut Content) -> Result<(), NoMemory> {
    let none = Content::new(alloc);
    let y = LEGEND - 9;
    content.add_shape(alloc, Look::Mark, Shape::Triangle { x: 445, y }, &none)?;
    content.add_words(alloc, Look::Side, 454, LEGEND, b"A: repaired")?;
    content.add_shape(alloc, Look::Mark, square(540, y), &none)?;
    content.add_words(alloc, Look::Side, 554, LEGEND, b"M: moved")?;
    content.add_shape(alloc, Look::Mark, Shape::Diamond { x: 628, y }, &none)?;
    content.add_words(
        alloc,
        Look::Side,
        638,
        LEGEND,
        b"X: repaired and committed in one step",
    )
}

/// Returns the mark of a move.
pub(crate) fn square(x: u32, y: u32) -> Shape {
    Shape::Rect {
        x,
        y,
        width: 8,
        height: 8,
    }
}
