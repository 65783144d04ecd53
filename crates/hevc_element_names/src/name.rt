//! The name of an element.

/// An element of H.265, and which one of its kind it is.
#[derive(Clone, Copy)]
pub struct ElementName {
    /// Its name in H.265, without indices.
    pub name: &'static [u8],
    pub indices: Indices,
}

/// The indices of an element.
#[derive(Clone, Copy, PartialEq, Eq)]
pub enum Indices {
    Without,
    One(u64),
    Two(u64, u64),
}
