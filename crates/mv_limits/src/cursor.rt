//! The search for the token at an index of a list.

/// How many tokens are left before the wanted one, and the wanted one once it is found.
#[derive(Clone, Copy)]
pub(crate) struct Cursor {
    pub(crate) left: usize,
    pub(crate) found: Option<u32>,
}
