//! Drops the frames at which nothing is left.

ghost use Rattle.std.specs.Prelude.{◌≡◌, None, false};
ghost use Rattle.mv_graph.specs.Nodes.{IsGraph};
ghost use Rattle.mv_exec.specs.Frames.{AreFilled, AreNumbered};
ghost use Rattle.mv_exec.specs.Tasks.{IsTrimmed};

use crate::frames::staying;
use crate::task::Task;
use mv_graph::graph::Graph;

/// Drops the frames at which nothing is left. The call has ended if none stays.
pub(crate) fn trim(graph: &Graph, task: &mut Task)
    requires graph { IsGraph graph.now }
    requires filled { AreFilled graph.now.procedure None task.old.frames }
    requires numbers { AreNumbered graph.now.procedure None task.old.frames }
    ensures { task.old.ended ≡ false → IsTrimmed graph.now.procedure task.old task.new }
{
    let stay = staying(graph, &task.log.records(), task.frames.as_slice());
    if stay == 0 {
        task.ended = true;
    } else {
        task.frames.truncate(stay);
    }
}
