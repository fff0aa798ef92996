//! The picture of a run with many calls: counts in bins over the events of its journal from left to right.

ghost use Rattle.std.specs.Prelude.{IfOk};
ghost use Rattle.mv_svg.specs.Xml.{IsDocument};

use crate::bins::{Bin, bins_of, size_of};
use crate::legend::{LEGEND, add_bars};
use crate::pixels::pixels;
use mv_journal::event::Event;
use mv_svg::content::Content;
use mv_svg::look::Look;
use mv_svg::picture::picture;
use mv_svg::shape::Shape;
use mv_trace::calls::Call;
use mv_trace::totals::{add_heading, add_sentence, totals_of};
use mv_trace::words::{add_count, add_number};
use mv_values::list::List;
use mv_values::memory::NoMemory;
use std::alloc::Global;

/// Where the bins begin.
const LEFT: u32 = 56;

/// The width of a bin.
const WIDTH: u32 = 10;

/// The height of a panel's highest column.
const HEIGHT: u32 = 130;

/// The bottoms of the panels.
const CALLS: u32 = 250;

const STATEMENTS: u32 = 430;

const LIVE: u32 = 610;

/// Returns the picture of a run.
pub(crate) fn draw_histogram(
    alloc: Global,
    events: &[Event],
    calls: &[Call],
) -> Result<List<u8>, NoMemory>
    ensures { IfOk result (λ text. ∥ IsDocument text ∥₁) }
{
    let mut heading = List::new(alloc);
    add_heading(&mut heading, &totals_of(calls))?;
    let bins = bins_of(alloc, events, calls)?;
    let mut panels = Panels {
        alloc,
        size: size_of(events.len()),
        width: pixels(bins.len()).saturating_mul(WIDTH),
        content: Content::titled(alloc, heading.as_slice())?,
    };
    panels.add_head(heading.as_slice(), calls)?;
    panels.add_panels(bins.as_slice())?;
    let width = panels.width.saturating_add(LEFT + 24).max(720);
    picture(alloc, width, LIVE + 40, &panels.content)
}

/// Panels that are being drawn.
#[derive(Drop)]
struct Panels {
    alloc: Global,
    /// How many events a bin has.
    size: usize,
    width: u32,
    content: Content,
}

/// How high the columns of the panels are.
#[derive(Clone, Copy)]
struct Most {
    calls: usize,
    statements: usize,
    live: usize,
}

impl Panels {
    /// Adds the heading, the totals and the legend.
    fn add_head(&mut self, heading: &[u8], calls: &[Call]) -> Result<(), NoMemory> {
        let mut sentence = List::new(self.alloc);
        add_sentence(&mut sentence, &totals_of(calls))?;
        self.add_words(Look::Head, LEFT, 24, heading)?;
        self.add_words(Look::Note, LEFT, 46, sentence.as_slice())?;
        let words = [b"at first".as_slice(), b"repaired, again", b"rolled back"];
        add_bars(self.alloc, &mut self.content, words)?;
        let mut size = List::new(self.alloc);
        add_count(&mut size, b"A column is ", self.size)?;
        size.append(b" events of the journal.")?;
        self.add_words(Look::Side, 445, LEGEND, size.as_slice())
    }

    fn add_words(&mut self, look: Look, x: u32, y: u32, words: &[u8]) -> Result<(), NoMemory> {
        self.content.add_words(self.alloc, look, x, y, words)
    }

    fn add_panels(&mut self, bins: &[Bin]) -> Result<(), NoMemory> {
        let most = most_of(bins);
        self.add_axis(CALLS, b"calls, by their ends", most.calls)?;
        self.add_axis(
            STATEMENTS,
            b"statements that these calls executed",
            most.statements,
        )?;
        self.add_axis(LIVE, b"calls that were live at once", most.live)?;
        for (number, bin) in bins.iter().enumerate() {
            self.add_bin(number, bin, &most)?;
        }
        for number in 0..bins.len().saturating_add(1) {
            if number % 12 == 0 {
                self.add_tick(number)?;
            }
        }
        Ok(())
    }

    /// Adds the lines and the words of a panel.
    fn add_axis(&mut self, bottom: u32, words: &[u8], most: usize) -> Result<(), NoMemory> {
        let top = bottom.saturating_sub(HEIGHT);
        self.add_words(Look::Note, LEFT, top.saturating_sub(8), words)?;
        self.add_level(bottom, 0)?;
        self.add_level(top, most)
    }

    /// Adds a line of the grid, and its number on the left.
    fn add_level(&mut self, y: u32, number: usize) -> Result<(), NoMemory> {
        let line = Shape::Line {
            x1: LEFT,
            y1: y,
            x2: self.width.saturating_add(LEFT),
            y2: y,
        };
        self.content
            .add_shape(self.alloc, Look::Grid, line, &Content::new(self.alloc))?;
        let mut text = List::new(self.alloc);
        add_number(&mut text, number)?;
        self.add_words(Look::Label, LEFT - 8, y.saturating_add(4), text.as_slice())
    }

    fn add_tick(&mut self, number: usize) -> Result<(), NoMemory> {
        let mut text = List::new(self.alloc);
        add_number(&mut text, number.saturating_mul(self.size))?;
        self.add_words(Look::Tick, x(number), LIVE + 18, text.as_slice())
    }

    /// Adds the columns of a bin.
    fn add_bin(&mut self, number: usize, bin: &Bin, most: &Most) -> Result<(), NoMemory> {
        let alloc = self.alloc;
        let mut story = List::new(alloc);
        add_story(&mut story, number.saturating_mul(self.size), self.size, bin)?;
        let mut group = Content::titled(alloc, story.as_slice())?;
        let x = x(number);
        let mut calls = Column::new(x, CALLS, most.calls);
        calls.add(alloc, &mut group, Look::First, bin.plain)?;
        calls.add(alloc, &mut group, Look::Undone, bin.undone)?;
        calls.add(alloc, &mut group, Look::Again, bin.again)?;
        let mut statements = Column::new(x, STATEMENTS, most.statements);
        statements.add(alloc, &mut group, Look::First, bin.first)?;
        statements.add(alloc, &mut group, Look::Again, bin.more)?;
        let mut live = Column::new(x, LIVE, most.live);
        live.add(alloc, &mut group, Look::Live, bin.live)?;
        self.content.add_group(alloc, &group)
    }
}

/// A column that grows from its bottom.
#[derive(Drop)]
struct Column {
    x: u32,
    bottom: u32,
    below: usize,
    most: usize,
}

impl Column {
    fn new(x: u32, bottom: u32, most: usize) -> Column {
        Column {
            x,
            bottom,
            below: 0,
            most,
        }
    }

    /// Returns the top of so many.
    fn top(&self, number: usize) -> u32 {
        let height = number.saturating_mul(HEIGHT as usize) / self.most.max(1);
        self.bottom.saturating_sub(pixels(height))
    }

    /// Adds so many on top of the column.
    fn add(
        &mut self,
        alloc: Global,
        group: &mut Content,
        look: Look,
        number: usize,
    ) -> Result<(), NoMemory> {
        if number == 0 {
            return Ok(());
        }
        let below = self.top(self.below);
        self.below = self.below.saturating_add(number);
        let above = self.top(self.below);
        let piece = Shape::Rect {
            x: self.x.saturating_add(1),
            y: above,
            width: WIDTH - 2,
            height: below.saturating_sub(above).max(1),
        };
        group.add_shape(alloc, look, piece, &Content::new(alloc))
    }
}

/// Returns the left side of a bin.
fn x(number: usize) -> u32 {
    pixels(number).saturating_mul(WIDTH).saturating_add(LEFT)
}

fn most_of(bins: &[Bin]) -> Most {
    let mut most = Most {
        calls: 1,
        statements: 1,
        live: 1,
    };
    for bin in bins {
        most = Most {
            calls: most.calls.max(bin.calls()),
            statements: most.statements.max(bin.statements()),
            live: most.live.max(bin.live),
        };
    }
    most
}

/// Adds all that is known of a bin.
fn add_story(text: &mut List<u8>, from: usize, size: usize, bin: &Bin) -> Result<(), NoMemory> {
    add_count(text, b"events from ", from)?;
    add_count(text, b" to ", from.saturating_add(size).saturating_sub(1))?;
    add_count(text, b"\nended calls: ", bin.calls())?;
    add_count(text, b"\nof these repaired or moved: ", bin.again)?;
    add_count(text, b"\nrolled back at once: ", bin.undone)?;
    add_count(text, b"\nstatements at first: ", bin.first)?;
    add_count(text, b", again: ", bin.more)?;
    add_count(text, b"\nlive calls, at most: ", bin.live)
}
