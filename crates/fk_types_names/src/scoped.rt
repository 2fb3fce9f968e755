//! The marks of a program, with what is visible at each.

ghost use Rattle.std.specs.Prelude.{◌≡◌, ◌<◌, ◌≤◌, ℕ, List, Some, IfOk, MatchOption, length, map};
ghost use Rattle.std.specs.Prelude.{slice_get};
ghost use Rattle.fk_syntax.specs.ProgramView.{program_of};
ghost use Rattle.fk_types_names.specs.View.{mark_of};
ghost use Rattle.fk_types_names.specs.Visible.{IsHidden, IsInnermost, depth};
ghost use Rattle.fk_types_names.specs.Reading.{AreDepths, IsAt, marks_of};
ghost use Rattle.fk_types_names.specs.Scoped.{AreInnermost, AreScoped, AreSound, NamesAt};
ghost use Rattle.fk_types_names.specs.Scoped.{all_marks, found_at};

use crate::outline::{Mark, Outline};
use crate::reader::Reader;
use fk_syntax::Program;
use std::alloc::{AllocError, Global};

/// The marks of a program, with the innermost declaration of the name at each.
#[derive(Drop)]
pub struct ScopedMarks<'p, 'a> {
    outline: Outline<'p, 'a>,
    // The number of scopes around each mark, and after the last one.
    depths: Vec<usize>,
    // For each mark that declares or uses a name, the mark of the innermost declaration of that
    // name.
    innermost: Vec<Option<usize>>,
}

// The innermost declaration of the name at the mark at which a reader is.
fn innermost_at(reader: &Reader, at: usize) -> Option<usize>
    requires here { IsAt reader.now at }
    requires within { at < length (marks_of reader.now) }
    ensures { (bytes : List ℕ) → NamesAt (marks_of reader.now) bytes at → MatchOption result
        (IsHidden (marks_of reader.now) bytes at) (IsInnermost (marks_of reader.now) bytes at) }
{
    match reader.mark(at) {
        Mark::Declares(declaration) => reader.innermost(declaration.name()),
        Mark::Uses(name) => reader.innermost(name.bytes),
        Mark::Opens | Mark::Closes => None,
    }
}

// For each mark the innermost declaration of its name and the number of scopes around it. About
// `room` names are declared at file scope.
fn visible(
    alloc: Global,
    marks: &[Mark],
    room: usize,
) -> Result<(Vec<Option<usize>>, Vec<usize>), AllocError>
    ensures innermost { IfOk result (λ found.
        AreInnermost (map mark_of marks.now) found.0.items (length (map mark_of marks.now))) }
    ensures depths { IfOk result (λ found. AreDepths (map mark_of marks.now) found.1.items) }
{
    let mut reader = Reader::new(alloc, marks, room)?;
    let mut innermost = Vec::with_capacity(alloc, marks.len())?;
    for at in 0..marks.len() {
        innermost.push(innermost_at(&reader, at))?;
        reader.pass(at)?;
    }
    Ok((innermost, reader.into_depths()))
}

impl<'p, 'a> ScopedMarks<'p, 'a> {
    /// The marks of a program, in linear time. It fails only if there isn't enough memory.
    pub fn of(alloc: Global, program: &'p Program<'a>) -> Result<Self, AllocError>
        ensures { IfOk result (AreScoped (program_of program.now)) }
    {
        let outline = Outline::of(alloc, &program.items)?;
        let (innermost, depths) = visible(alloc, outline.marks(), program.items.len())?;
        Ok(ScopedMarks {
            outline,
            depths,
            innermost,
        })
    }

    /// The marks, in order.
    pub(crate) fn list(&self) -> &[Mark<'p, 'a>]
        ensures { map mark_of result.now ≡ all_marks self.now }
    {
        self.outline.marks()
    }

    /// The number of marks.
    pub fn len(&self) -> usize
        ensures { result ≡ length (all_marks self.now) }
    {
        self.list().len()
    }

    /// The mark with this index.
    pub fn mark(&self, at: usize) -> &Mark<'p, 'a>
        requires { at < length (all_marks self.now) }
        ensures { slice_get (all_marks self.now) at ≡ Some (mark_of result.now) }
    {
        let marks = self.list();
        &marks[at]
    }

    // What was found for the mark with this index.
    fn found(&self, at: usize) -> Option<usize>
        ensures { result ≡ found_at self.now.innermost.items at }
    {
        self.innermost.get(at).copied().flatten()
    }

    /// The mark of the innermost declaration of the name at the mark with this index.
    pub fn innermost(&self, at: usize) -> Option<usize>
        requires { AreSound self.now }
        ensures { (bytes : List ℕ) → NamesAt (all_marks self.now) bytes at → MatchOption result
            (IsHidden (all_marks self.now) bytes at) (IsInnermost (all_marks self.now) bytes at) }
    {
        self.found(at)
    }

    /// The number of scopes around the mark with this index.
    pub fn depth(&self, at: usize) -> usize
        requires sound { AreSound self.now }
        requires within { at ≤ length (all_marks self.now) }
        ensures { result ≡ depth (all_marks self.now) at }
    {
        self.depths[at]
    }
}
