//! Places in a text.

/// A place in a text, for messages.
///
/// Lines end at a line feed, and columns count bytes. Both are counted from 1.
#[derive(Clone, Copy, Debug, PartialEq, Eq, PartialOrd, Ord, Hash)]
pub struct Place {
    /// The line, from 1.
    pub line: u32,
    /// The byte's column in its line, from 1.
    pub column: u32,
}
