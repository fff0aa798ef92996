//! The log of a call that has ended, for the next call.

ghost use Rattle.std.specs.Prelude.{◌≡◌};
ghost use Rattle.mv_log.specs.Logged.{empty as no_records};

use mv_exec::task::Task;
use mv_log::log::Log;
use std::alloc::Global;
use std::marker::Model;

/// The log of a call that has ended, empty and with its room, for the next call. So records take new memory only while
/// logs grow. Contracts see nothing of it.
#[derive(Drop)]
pub struct Spare {
    log: Option<Log>,
}

impl Model for Spare {
    ghost use Rattle.std.specs.Prelude.{◌≡◌, IfSome};
    ghost use Rattle.mv_log.specs.Logged.{empty as no_records};

    ghost Value = { Unit {0} };

    ghost view = { λ _. tt };

    ghost invariant = { λ s. IfSome s.log (λ log. log ≡ no_records) };
}

impl Spare {
    /// Returns a spare without a log. It allocates no memory.
    pub fn new() -> Spare {
        Spare { log: None }
    }

    /// Takes the log. If there is none, returns a new one. It allocates no memory.
    pub(crate) fn take(&mut self, alloc: Global) -> Log
        ensures { result ≡ no_records }
    {
        match self.log.take() {
            Some(log) => log,
            None => Log::new(alloc),
        }
    }

    /// Keeps the log of a call that has ended.
    pub fn keep(&mut self, task: Task) {
        self.log = Some(task.into_log());
    }
}
