//! How a picture is marked.

/// How a picture is marked (8.3.2).
#[derive(Clone, Copy, Default, PartialEq, Eq)]
pub enum Reference {
    /// As unused for reference.
    #[default]
    None,
    /// As used for short-term reference.
    ShortTerm,
    /// As used for long-term reference.
    LongTerm,
}
