//! Types.

/// A type without its pointers and its length.
#[derive(Clone, Copy, PartialEq, Eq)]
pub enum Root {
    Int,
    Unsigned,
    Void,
    /// A struct, by the index of its declaration among all structs of the text, from 0.
    Struct(u32),
}

/// A type: an integer, `void`, a struct, a pointer or an array. `struct S **v[3]` has the struct as
/// its root, two stars and the length 3.
#[derive(Clone, Copy, PartialEq, Eq)]
pub struct DataType {
    pub root: Root,
    /// The number of pointers to the root.
    pub stars: u32,
    /// The length of an array. Arrays of arrays and pointers to arrays aren't types.
    pub length: Option<u32>,
}
