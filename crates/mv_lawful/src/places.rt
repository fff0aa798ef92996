//! The places of the calls of a journal.

ghost use Rattle.std.specs.Prelude.{◌≡◌, ◌<◌, ◌≤◌, ◌+◌, ◌++◌, ◌==◌, ◌^◌, [], All, IfOk, OnOk, length, map};
ghost use Rattle.std.specs.List.{filter};
ghost use Rattle.mv_values.specs.Counts.{first_numbers};
ghost use Rattle.mv_lawful.specs.Lawful.{begin};
ghost use Rattle.mv_lawful.specs.Places.{start_in, answer_place, places_by};

use mv_values::list::List;
use mv_values::memory::NoMemory;
use std::alloc::Global;

/// A call in its place.
#[derive(Clone, Copy)]
pub struct Place {
    /// The number of its commit; `None` if it was answered.
    pub commit: Option<u32>,
    pub call: u32,
}

/// Returns this many empty lists.
fn empty_lists(alloc: Global, count: usize) -> Result<List<List<u32>>, NoMemory>
    ensures { IfOk result (λ lists. lists ≡ map (λ n. []) (first_numbers count)) }
{
    let mut lists = List::new(alloc);
    for _n in 0..count {
        lists.push(List::new(alloc))?;
    }
    Ok(lists)
}

/// Returns the answered calls for each start below this number. Those of one start are in the order of their answers.
fn by_start(
    alloc: Global,
    starts: &[u32],
    answered: &[u32],
    count: usize,
) -> Result<List<List<u32>>, NoMemory>
    requires there { All (λ c. c < length starts.now) answered.now }
    requires past { All (λ c. start_in (map begin starts.now) c < count) answered.now }
    ensures { IfOk result (λ lists. lists ≡ map (λ n. filter (λ c. start_in (map begin starts.now) c == n) answered.now) (first_numbers count)) }
{
    let mut lists = empty_lists(alloc, count)?;
    for call in answered {
        let start = starts[*call as usize] as usize;
        let mut list = lists.replace(start, List::new(alloc));
        list.push(*call)?;
        lists.set(start, list);
    }
    Ok(lists)
}

/// Adds answered calls.
fn add_answered(places: &mut List<Place>, answered: &[u32]) -> Result<(), NoMemory>
    ensures { OnOk result (places.new ≡ places.old ++ map answer_place answered.now) }
{
    for call in answered {
        places.push(Place {
            commit: None,
            call: *call,
        })?;
    }
    Ok(())
}

/// Returns the places of calls: of those that have committed, in this order, and of those that were answered. An answered
/// call stands after the commits up to its start, and before the next one. `starts` has the start of each call. Takes time
/// linear in the number of calls.
pub fn places_of(
    alloc: Global,
    order: &[u32],
    starts: &[u32],
    answered: &[u32],
) -> Result<List<Place>, NoMemory>
    requires few { length order.now < 2 ^ 32 }
    requires there { All (λ c. c < length starts.now) answered.now }
    requires past { All (λ c. start_in (map begin starts.now) c ≤ length order.now) answered.now }
    ensures { IfOk result (λ places. places ≡ places_by order.now starts.now answered.now) }
{
    let lists = by_start(alloc, starts, answered, order.len() + 1)?;
    let answers = lists.as_slice();
    let mut places = List::new(alloc);
    for i in 0..order.len() {
        add_answered(&mut places, answers[i].as_slice())?;
        places.push(Place {
            commit: Some(i as u32 + 1),
            call: order[i],
        })?;
    }
    add_answered(&mut places, answers[order.len()].as_slice())?;
    Ok(places)
}
