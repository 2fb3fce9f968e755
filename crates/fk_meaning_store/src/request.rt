//! Requests.

/// What a processor requests of the shared state. Addresses are in bytes.
#[derive(Clone, Copy)]
pub enum Request {
    /// Reads the word at an address.
    Read(u32),
    /// Writes a value to the word at an address.
    Write(u32, u32),
    /// A multiprefix, by its operation kind from 15 to 18, on the word at an address and a value.
    Multi(u8, u32, u32),
    /// Prints the signed value of a word in decimal, and a newline.
    Print(u32),
    /// Prints the low byte of a word.
    Byte(u32),
    /// Takes a block of this number of bytes from the global heap.
    Heap(u32),
    /// Checks whether an address may be used; with `true` for a multiprefix.
    Check(u32, bool),
    /// Checks whether a function at this depth may begin a call.
    Depth(u32),
}
