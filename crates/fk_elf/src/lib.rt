//! Images as ELF files, which the tools of RISC-V read.
//!
//! A file is a header of 52 bytes, three program headers of 32 bytes, the code, the globals, the
//! numbers of sites and of commits, the sites and the commits. All words are little-endian. The
//! three program headers are those of the code, the globals, and the counts and entries, which no
//! tool loads. The tables have the form that they have in an image's own file.
#![tactic(auto)]

mod fault;
mod header;
pub mod laws;
mod reading;
mod writing;

pub use fault::ElfFault;
pub use reading::read_elf;
pub use writing::write_elf;
