//! The token indices that identify a program's nodes.

ghost use Rattle.std.specs.Prelude.{◌≡◌};
ghost use Rattle.fk_syntax.specs.WellFormed.{token};

/// The index of a token that a tree contains.
#[derive(Clone, Copy)]
pub enum Index {
    /// The index of a node.
    Node(u32),
    /// The index of the name of a struct in a type, which isn't a node.
    StructName(u32),
}

impl Index {
    /// The index itself.
    pub fn token(self) -> u32
        ensures { result ≡ token self }
    {
        match self {
            Index::Node(at) | Index::StructName(at) => at,
        }
    }
}
