//! The sites of statements in a run.

ghost use Rattle.std.specs.Prelude.{◌≡◌, IfOk};
ghost use Rattle.mv_recorded.specs.Recorded.{outside, within, within_loop, in_turn};
ghost use Rattle.mv_recorder.specs.Sites.{site_of};

use mv_values::copied::Copied;
use mv_values::list::List;
use mv_values::memory::NoMemory;
use std::alloc::Global;

/// A FOR around a statement: the variable of its row, and the number of its record.
#[derive(Clone, Copy)]
pub(crate) struct Loop {
    pub row: u16,
    pub number: usize,
}

/// The site of statements in a run: the number of the record of the innermost IF or FOR around them, the loops around
/// them, innermost first, and the iterations of these, outermost first.
#[derive(Drop)]
pub(crate) struct Site {
    pub parent: Option<usize>,
    pub loops: List<Loop>,
    pub turns: List<usize>,
}

/// Returns copies of loops.
fn copy_loops(alloc: Global, loops: &[Loop]) -> Result<List<Loop>, NoMemory>
    ensures { IfOk result (λ all. all ≡ loops.now) }
{
    let mut all = List::new(alloc);
    all.append(loops)?;
    Ok(all)
}

impl Site {
    /// Returns the site outside all statements.
    pub fn outside(alloc: Global) -> Site
        ensures { site_of result ≡ outside }
    {
        Site {
            parent: None,
            loops: List::new(alloc),
            turns: List::new(alloc),
        }
    }

    /// Returns the site in an IF here, whose record has this number.
    pub fn within(&self, alloc: Global, number: usize) -> Result<Site, NoMemory>
        ensures { IfOk result (λ site. site_of site ≡ within number (site_of self.now)) }
    {
        let loops = copy_loops(alloc, self.loops.as_slice())?;
        let turns = self.turns.copy(alloc)?;
        Ok(Site {
            parent: Some(number),
            loops,
            turns,
        })
    }

    /// Returns the site in a FOR here with this row, whose record has this number.
    pub fn within_loop(&self, alloc: Global, row: u16, number: usize) -> Result<Site, NoMemory>
        ensures { IfOk result (λ site. site_of site ≡ within_loop row number (site_of self.now)) }
    {
        let mut loops = List::of(alloc, Loop { row, number })?;
        loops.append(self.loops.as_slice())?;
        let turns = self.turns.copy(alloc)?;
        Ok(Site {
            parent: Some(number),
            loops,
            turns,
        })
    }

    /// Returns the site in this iteration of the FOR here.
    pub fn in_turn(&self, alloc: Global, turn: usize) -> Result<Site, NoMemory>
        ensures { IfOk result (λ site. site_of site ≡ in_turn turn (site_of self.now)) }
    {
        let loops = copy_loops(alloc, self.loops.as_slice())?;
        let mut turns = self.turns.copy(alloc)?;
        turns.push(turn)?;
        Ok(Site {
            parent: self.parent,
            loops,
            turns,
        })
    }
}
