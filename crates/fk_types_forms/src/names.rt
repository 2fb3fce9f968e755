//! What names denote.

ghost use Rattle.std.specs.Prelude.{◌≡◌, slice_get};
ghost use Rattle.fk_syntax.specs.View.{named};
ghost use Rattle.fk_types_judgments.specs.Names as n;
ghost use Rattle.fk_types_judgments.specs.Names.{predeclared_meant};
ghost use Rattle.fk_types_forms.specs.Scope.{meant_of, known_meant, env_in};

use fk_syntax::Name;
use fk_types_names::{Meaning, Names};
use fk_types_operators::{ExpressionType, Value};
use fk_types_structs::{DataType, Root, Structs};

/// The types of the parameters and the result of a function. There is none if its declaration
/// breaks a rule.
#[derive(Drop)]
pub struct Signature {
    pub parameters: Vec<Option<DataType>>,
    pub result: Option<ExpressionType>,
}

/// What a declaration declares.
#[derive(Drop)]
pub enum Entity {
    /// A variable or parameter, with its type unless its declaration breaks a rule.
    Variable(Option<DataType>),
    /// A function other than `main`.
    Function(Signature),
    /// The function `main`.
    Main,
}

/// The facts about a program that its expressions need.
#[derive(Drop)]
pub struct Scope<'c, 'p, 'a> {
    pub structs: &'c Structs<'p, 'a>,
    pub names: &'c Names<'p, 'a>,
    /// What each declaration declares, by its number.
    pub known: &'c [Entity],
    /// The types of members, by the index of the struct and the position of the member in it. There
    /// is none if the declaration breaks a rule.
    pub members: &'c [Vec<Option<DataType>>],
}

/// What a name denotes.
#[derive(Clone, Copy)]
pub enum Thing<'c> {
    /// A variable, with its type unless its declaration breaks a rule.
    Kept(Option<DataType>),
    /// A predeclared value.
    Constant(Value),
    /// A function that the text declares.
    Function(&'c Signature),
    /// `mpadd`, `mpmax`, `mpand` or `mpor`.
    Multiprefix,
    /// `malloc`, `shmalloc` or `shalloc`.
    Request,
    /// `putint` and `putchar`.
    Output,
    /// `groupsize`
    GroupSize,
    Main,
    Undeclared,
}

const INPUT: DataType = DataType {
    root: Root::Int,
    stars: 0,
    length: Some(65_536),
};

// Whether a name is that of a multiprefix.
fn is_multiprefix(name: &[u8]) -> bool
    ensures { result ≡ n.is_multiprefix name.now }
{
    name == b"mpadd".as_slice()
        || name == b"mpmax".as_slice()
        || name == b"mpand".as_slice()
        || name == b"mpor".as_slice()
}

// Whether a name is that of a function that allocates memory.
fn is_request(name: &[u8]) -> bool
    ensures { result ≡ n.is_request name.now }
{
    name == b"shmalloc".as_slice() || name == b"shalloc".as_slice() || name == b"malloc".as_slice()
}

fn is_output(name: &[u8]) -> bool
    ensures { result ≡ n.is_output name.now }
{
    name == b"putint".as_slice() || name == b"putchar".as_slice()
}

// What a predeclared name denotes.
fn predeclared(name: &[u8]) -> Thing<'static>
    ensures { meant_of result ≡ predeclared_meant name.now }
{
    if is_multiprefix(name) {
        return Thing::Multiprefix;
    }
    if is_request(name) {
        return Thing::Request;
    }
    if is_output(name) {
        return Thing::Output;
    }
    if name == b"groupsize".as_slice() {
        return Thing::GroupSize;
    }
    if name == b"__input".as_slice() {
        return Thing::Kept(Some(INPUT));
    }
    Thing::Constant(Value::Int)
}

impl<'c, 'p, 'a> Scope<'c, 'p, 'a> {
    // What the declaration with this number declares.
    fn declared(&self, number: u32) -> Thing<'c>
        ensures { meant_of result ≡ known_meant (slice_get self.now.known.now number) }
    {
        match self.known.get(number as usize) {
            Some(Entity::Variable(kind)) => Thing::Kept(*kind),
            Some(Entity::Function(signature)) => Thing::Function(signature),
            Some(Entity::Main) => Thing::Main,
            None => Thing::Kept(None),
        }
    }

    /// What a name in an expression denotes.
    pub fn look_up(&self, name: &Name) -> Thing<'c>
        ensures { meant_of result ≡ (env_in self.now).meant (named name.now) }
    {
        match self.names.meanings.get(name.at as usize).copied().flatten() {
            Some(Meaning::Declared(number)) => self.declared(number),
            Some(Meaning::Predeclared) => predeclared(name.bytes),
            Some(Meaning::Undeclared) => Thing::Undeclared,
            None => Thing::Kept(None),
        }
    }

    /// The type of the member at this position of a struct.
    pub fn member_type(&self, index: usize, place: usize) -> Option<DataType>
        ensures { result ≡ (env_in self.now).member_type index place }
    {
        let members = self.members.get(index)?;
        members.get(place).copied().flatten()
    }
}
