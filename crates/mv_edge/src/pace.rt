//! Callbacks between events.

use std::sync::Wait;

/// The stage that a worker has reached.
#[derive(Clone, Copy)]
pub enum Moment {
    /// After a begin.
    Begun,
    /// After a statement.
    Ran,
    /// Before each attempt to commit.
    Before,
    /// After a commit.
    Answered,
}

/// A worker, the call that it executes, and the stage that it has reached.
#[derive(Clone, Copy)]
pub struct Point {
    pub worker: u32,
    pub call: u32,
    pub moment: Moment,
}

/// A callback between events. No lock is held while it runs. It has no access to the engine, and may wait.
pub trait Pace: Sync {
    fn at<R: Wait>(&self, rt: &R, point: Point);
}

/// A pace that does nothing.
pub struct NoPace;

impl Pace for NoPace {
    fn at<R: Wait>(&self, _rt: &R, _point: Point) {}
}
