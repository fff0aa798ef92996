//! Shapes.

/// A shape, in pixels from the left and the top.
#[derive(Clone, Copy, PartialEq, Eq)]
pub enum Shape {
    Rect {
        x: u32,
        y: u32,
        width: u32,
        height: u32,
    },
    Line {
        x1: u32,
        y1: u32,
        x2: u32,
        y2: u32,
    },
    /// A triangle. The place is its top.
    Triangle {
        x: u32,
        y: u32,
    },
    /// A diamond. The place is its top.
    Diamond {
        x: u32,
        y: u32,
    },
    /// An arc from a height to another one at the same distance from the left. It bends as far as `bend`.
    Arc {
        x: u32,
        from: u32,
        to: u32,
        bend: u32,
    },
}
