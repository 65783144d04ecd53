//! Points of a picture.

/// A point of a picture, by its distance from the upper left corner.
#[derive(Clone, Copy, PartialEq, Eq)]
pub struct Point<T> {
    /// How far to the right.
    pub x: T,
    /// How far down.
    pub y: T,
}
