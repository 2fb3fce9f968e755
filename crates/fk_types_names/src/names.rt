//! What names denote.

ghost use Rattle.std.specs.Prelude.{◌≡◌, ℕ, ◌+◌, ◌<◌, Some, IfOk, MatchOption, map, length};
ghost use Rattle.std.specs.Prelude.{IsTrue, ◌↔◌, Contains, slice_get};
ghost use Rattle.fk_syntax.specs.ProgramView.{program_of};
ghost use Rattle.fk_syntax.specs.WellFormed.{IsWellFormed};
ghost use Rattle.fk_types_names.specs.Names.{AreNames};
ghost use Rattle.fk_types_names.specs.Outline.{DeclarationTree, Declares};
ghost use Rattle.fk_types_names.specs.View.{mark_of};
ghost use Rattle.fk_types_names.specs.Visible.{IsHidden, IsInnermost};
ghost use Rattle.fk_types_names.specs.Means.{is_initial, predeclared, Denotes, MeansAt};
ghost use Rattle.fk_types_names.specs.Filling.{AreApart, AreFound, IsSurvey};
ghost use Rattle.fk_types_names.specs.Scoped.{AreScoped, AreSound, all_marks};

use crate::outline::{Declaration, Mark};
use crate::scoped::ScopedMarks;
use crate::survey::{declarations, definitions, numbers};
use crate::table::Table;
use fk_syntax::Program;
use std::alloc::{AllocError, Global};

/// What a name denotes.
#[derive(Clone, Copy, PartialEq, Eq)]
pub enum Meaning {
    /// The declaration with this number, which is its index in `Names::declarations`.
    Declared(u32),
    /// A predeclared value or function.
    Predeclared,
    /// Nothing.
    Undeclared,
}

/// The names of a program.
#[derive(Drop)]
pub struct Names<'p, 'a> {
    /// The variables, parameters and functions of the text, in the order of their names in it. Each
    /// header of a function counts.
    pub declarations: Vec<Declaration<'p, 'a>>,
    /// What the token with this index denotes, if it is a name in an expression.
    pub meanings: Vec<Option<Meaning>>,
}

impl<'p, 'a> Names<'p, 'a> {
    /// The declarations, by their numbers.
    pub fn declared(&self) -> &[Declaration<'p, 'a>]
        ensures { result.now ≡ self.now.declarations.items }
    {
        &self.declarations
    }
}

const PREDECLARED: [&[u8]; 14] = [
    b"mpadd",
    b"mpmax",
    b"mpand",
    b"mpor",
    b"shmalloc",
    b"shalloc",
    b"malloc",
    b"putint",
    b"putchar",
    b"groupsize",
    b"__PROC_NR__",
    b"__STARTED_PROCS__",
    b"__input",
    b"__inputs",
];

// Whether predeclared names begin with this byte.
fn is_initial(byte: u8) -> bool
    ensures { result ≡ is_initial byte }
{
    matches!(byte, b'_' | b'g' | b'm' | b'p' | b's')
}

/// Whether a name is predeclared.
pub fn is_predeclared(name: &[u8]) -> bool
    ensures { IsTrue result ↔ Contains predeclared name.now }
{
    // Most names have another first byte.
    if name.is_empty() {
        return false;
    }
    if !is_initial(name[0]) {
        return false;
    }
    PREDECLARED.contains(&name)
}

// Tables of the declarations in an outline.
#[derive(Drop)]
struct Survey<'a> {
    // The number of declarations before each mark.
    numbers: Vec<u32>,
    // The mark of the first header with a body of each function.
    definitions: Table<'a>,
}

impl<'a> Survey<'a> {
    fn of(alloc: Global, marks: &[Mark<'_, 'a>]) -> Result<Self, AllocError>
        ensures { IfOk result (λ survey. IsSurvey (map mark_of marks.now) survey) }
    {
        Ok(Survey {
            numbers: numbers(alloc, marks)?,
            definitions: definitions(alloc, marks)?,
        })
    }

    // The mark of the declaration that a name denotes, whose innermost declaration is at `at`.
    fn meant(scoped: &ScopedMarks, at: usize, name: &[u8], survey: &Self) -> usize
        requires known { IsSurvey (all_marks scoped.now) survey.now }
        requires within { at < length (all_marks scoped.now) }
        ensures within { result < length (all_marks scoped.now) }
        ensures stands { (d : DeclarationTree)
            → slice_get (all_marks scoped.now) at ≡ Some (Declares d)
            → Denotes (all_marks scoped.now) name.now at d result }
    {
        if !scoped.mark(at).is_header() {
            return at;
        }
        match survey.definitions.get(name) {
            Some(definition) => definition,
            None => at,
        }
    }

    // What a name denotes, where `innermost` is the mark of its innermost declaration.
    fn meaning(
        scoped: &ScopedMarks,
        innermost: Option<usize>,
        name: &[u8],
        survey: &Self,
    ) -> Meaning
        requires known { IsSurvey (all_marks scoped.now) survey.now }
        requires within { (o : ℕ) → innermost ≡ Some o → o < length (all_marks scoped.now) }
        ensures { (from : ℕ) → MatchOption innermost
            (IsHidden (all_marks scoped.now) name.now from)
            (IsInnermost (all_marks scoped.now) name.now from)
            → MeansAt (all_marks scoped.now) name.now from result }
    {
        match innermost {
            Some(at) => Meaning::Declared(survey.numbers[Self::meant(scoped, at, name, survey)]),
            None if is_predeclared(name) => Meaning::Predeclared,
            None => Meaning::Undeclared,
        }
    }
}

// Finds what the mark with this index denotes, if it is a name in an expression.
fn find_at(scoped: &ScopedMarks, at: usize, survey: &Survey, meanings: &mut [Option<Meaning>])
    requires sound { AreSound scoped.now }
    requires within { at < length (all_marks scoped.now) }
    requires known { IsSurvey (all_marks scoped.now) survey.now }
    requires apart { AreApart (all_marks scoped.now) (length meanings.old) }
    requires before { AreFound (all_marks scoped.now) (length meanings.old) meanings.old at }
    ensures { AreFound (all_marks scoped.now) (length meanings.old) meanings.new (at + 1) }
{
    if let Mark::Uses(name) = scoped.mark(at) {
        let innermost = scoped.innermost(at);
        let meaning = Survey::meaning(scoped, innermost, name.bytes, survey);
        meanings[name.at as usize] = Some(meaning);
    }
}

// Finds what each name in an expression denotes.
fn find_all(scoped: &ScopedMarks, survey: &Survey, meanings: &mut [Option<Meaning>])
    requires sound { AreSound scoped.now }
    requires known { IsSurvey (all_marks scoped.now) survey.now }
    requires apart { AreApart (all_marks scoped.now) (length meanings.old) }
    requires before { AreFound (all_marks scoped.now) (length meanings.old) meanings.old 0 }
    ensures { AreFound (all_marks scoped.now) (length meanings.old) meanings.new
        (length (all_marks scoped.now)) }
{
    for at in 0..scoped.len() {
        find_at(scoped, at, survey, meanings);
    }
}

// What each name in an expression denotes, by the index of its token.
fn meanings(
    alloc: Global,
    scoped: &ScopedMarks,
    tokens: u32,
) -> Result<Vec<Option<Meaning>>, AllocError>
    requires sound { AreSound scoped.now }
    requires apart { AreApart (all_marks scoped.now) tokens }
    ensures { IfOk result (λ found. AreFound (all_marks scoped.now) tokens found.items
        (length (all_marks scoped.now))) }
{
    let survey = Survey::of(alloc, scoped.list())?;
    let mut meanings = vec![in alloc; None; tokens as usize]?;
    find_all(scoped, &survey, &mut meanings);
    Ok(meanings)
}

/// The declarations of a program, and what each name in its expressions denotes, by its marks, in
/// linear time. It fails only if there isn't enough memory.
pub fn resolve<'p, 'a>(
    alloc: Global,
    program: &'p Program<'a>,
    scoped: &ScopedMarks<'p, 'a>,
) -> Result<Names<'p, 'a>, AllocError>
    requires well_formed { IsWellFormed (program_of program.now) }
    requires scoped { AreScoped (program_of program.now) scoped.now }
    ensures { IfOk result (AreNames (program_of program.now)) }
{
    Ok(Names {
        declarations: declarations(alloc, scoped.list())?,
        meanings: meanings(alloc, scoped, program.tokens)?,
    })
}
