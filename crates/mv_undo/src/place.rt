//! Where the log of a call has its writes.

/// Where the log of a call has a write, and the number of the write's record.
#[derive(Clone, Copy)]
pub struct Place {
    pub number: u32,
    pub at: u32,
}
