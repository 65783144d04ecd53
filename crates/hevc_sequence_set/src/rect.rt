//! Rectangles of a picture.
use crate::point::Point;

/// A rectangle of a picture, by two points.
#[derive(Clone, Copy, PartialEq, Eq)]
pub struct Rect<T> {
    /// Its upper left corner.
    pub min: Point<T>,
    /// Its lower right corner, which lies outside, or what the call that gives it says.
    pub max: Point<T>,
}
