//! Links between the entries of a store.

/// A link by `role` from one element to another.
#[derive(Clone, Copy, PartialEq, Eq, Debug)]
pub struct Link {
    pub from: u32,
    pub role: u8,
    pub to: u32,
}
