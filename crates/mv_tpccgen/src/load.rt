//! The size of a generated script.

/// A script for this many warehouses, with this many calls. The seed tells which calls they are.
#[derive(Clone, Copy)]
pub struct Load {
    /// 1 to 16.
    pub warehouses: u32,
    /// At most 40000.
    pub calls: u32,
    pub seed: u32,
}
