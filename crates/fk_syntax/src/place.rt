//! Places in a text.

/// A place in a source text. Lines and columns count from 1, a column counts bytes, and a
/// newline byte ends a line.
#[derive(Clone, Copy, PartialEq, Eq, Debug)]
pub struct Place {
    pub line: u32,
    pub column: u32,
}

/// A token of a text: its index among all tokens, from 0, and its place.
#[derive(Clone, Copy, PartialEq, Eq)]
pub struct Spot {
    pub at: u32,
    pub place: Place,
}

/// A name, which borrows the text: its bytes, the index of its token among all tokens, from 0, and
/// its place.
#[derive(Clone, Copy)]
pub struct Name<'a> {
    pub bytes: &'a [u8],
    pub at: u32,
    pub place: Place,
}
