//! The declarations that are visible while a text is read.

ghost use Rattle.std.specs.Prelude.{◌≡◌, ◌≢◌, ◌+◌, ◌<◌, ◌≤◌, ◌++◌, ◌∷◌, [], ℕ, IfOk, OnOk, IsNone};
ghost use Rattle.std.specs.Prelude.{IfSome, MatchOption, length, List, Some, false, IsTrue};
ghost use Rattle.std.specs.Prelude.{slice_get, slice_index};
ghost use Rattle.fk_types_names.specs.View.{mark_of};
ghost use Rattle.fk_types_names.specs.Visible.{DeclaresAt, IsHidden, IsInnermost, IsVisible, depth};
ghost use Rattle.fk_types_names.specs.Reading.{IsAt, IsPast, marks_of};
ghost use Rattle.fk_types_names.specs.Locals.{Each};
ghost use Rattle.fk_types_names.specs.declared.reader.Local.{Local};

use crate::outline::Mark;
use crate::survey::{depths, file_scope};
use crate::table::Table;
use std::alloc::{AllocError, Global};

/// A declaration in an inner scope that is open.
#[derive(Clone, Copy)]
struct Local<'a> {
    name: &'a [u8],
    /// Its mark.
    mark: usize,
    /// The mark of the declaration of the name outside its scope.
    hides: Option<usize>,
}

/// A reader of an outline, which knows the innermost declaration of each name.
#[derive(Drop)]
pub(crate) struct Reader<'m, 'p, 'a> {
    marks: &'m [Mark<'p, 'a>],
    // The number of scopes around each mark, and after the last one.
    depths: Vec<usize>,
    // The mark of the innermost declaration of each name.
    visible: Table<'a>,
    // The first declaration of each name in each open scope, from the outer scopes to the inner
    // ones.
    locals: Vec<Local<'a>>,
}

impl<'m, 'p, 'a> Reader<'m, 'p, 'a> {
    /// A reader before the first mark. Its table begins with room for `room` names of file scope.
    /// It fails only if there isn't enough memory.
    pub(crate) fn new(
        alloc: Global,
        marks: &'m [Mark<'p, 'a>],
        room: usize,
    ) -> Result<Self, AllocError>
        ensures start { IfOk result (λ reader. IsAt reader 0) }
        ensures marks { IfOk result (λ reader. reader.marks.now ≡ marks.entry.now) }
    {
        let depths = depths(alloc, marks)?;
        let visible = file_scope(alloc, marks, &depths, room)?;
        Ok(Reader {
            marks,
            depths,
            visible,
            locals: Vec::new(alloc),
        })
    }

    /// The mark with this index.
    pub(crate) fn mark(&self, at: usize) -> &'m Mark<'p, 'a>
        requires { at < length (marks_of self.now) }
        ensures { slice_get (marks_of self.now) at ≡ Some (mark_of result.now) }
    {
        &self.marks[at]
    }

    /// The mark of the innermost declaration of a name.
    pub(crate) fn innermost(&self, name: &[u8]) -> Option<usize>
        ensures { (at : ℕ) → IsAt self.now at → MatchOption result
            (IsHidden (marks_of self.now) name.now at)
            (IsInnermost (marks_of self.now) name.now at) }
    {
        self.visible.get(name)
    }

    /// Passes the mark with this index. It fails only if there isn't enough memory.
    pub(crate) fn pass(&mut self, at: usize) -> Result<(), AllocError>
        requires within { at < length self.old.marks.now }
        requires here { IsAt self.old at }
        ensures next { OnOk result (IsAt self.new (at + 1)) }
        ensures same { self.new.marks.now ≡ self.old.marks.now }
    {
        self.declare(at)?;
        self.leave(at)
    }

    /// The number of scopes around each mark, and after the last one.
    pub(crate) fn into_depths(self) -> Vec<usize>
        ensures { result.items ≡ self.entry.depths.items }
    {
        self.depths
    }

    // Whether the innermost declaration of a name is in the scope of an index.
    fn is_of_scope(&self, innermost: Option<usize>, at: usize) -> bool
        requires here { at < length self.now.depths.items }
        requires there { (o : ℕ) → innermost ≡ Some o → o < length self.now.depths.items }
        ensures yes { IsTrue result → (o : ℕ) × (innermost ≡ Some o)
            × (slice_index self.now.depths.items o ≡ slice_index self.now.depths.items at) }
        ensures no { result ≡ false → (o : ℕ) → innermost ≡ Some o
            → slice_index self.now.depths.items o ≢ slice_index self.now.depths.items at }
    {
        match innermost {
            Some(outer) => self.depths[outer] == self.depths[at],
            None => false,
        }
    }

    // Notes the declaration at an index. Those at file scope are known from the beginning.
    fn declare(&mut self, at: usize) -> Result<(), AllocError>
        requires within { at < length self.old.marks.now }
        requires here { IsAt self.old at }
        ensures past { OnOk result (IsPast self.new at) }
        ensures same { self.new.marks.now ≡ self.old.marks.now }
    {
        let Mark::Declares(declaration) = &self.marks[at] else {
            return Ok(());
        };
        if self.depths[at] == 0 {
            return Ok(());
        }
        let name = declaration.name();
        self.declare_inside(name, at)
    }

    // Notes a name that an inner scope declares at an index. Only its first declaration counts.
    fn declare_inside(&mut self, name: &'a [u8], at: usize) -> Result<(), AllocError>
        requires named { DeclaresAt (marks_of self.old) name.now at }
        requires here { IsAt self.old at }
        ensures past { OnOk result (IsPast self.new at) }
        ensures same { self.new.marks.now ≡ self.old.marks.now }
    {
        let hides = self.visible.replace(name, at)?;
        if self.is_of_scope(hides, at) {
            self.visible.set(name, hides)?;
            return Ok(());
        }
        let local = Local {
            name,
            mark: at,
            hides,
        };
        self.locals.push(local)?;
        Ok(())
    }

    // Leaves the scope that ends at an index, if one does.
    fn leave(&mut self, at: usize) -> Result<(), AllocError>
        requires within { at < length self.old.marks.now }
        requires past { IsPast self.old at }
        ensures next { OnOk result (IsAt self.new (at + 1)) }
        ensures same { self.new.marks.now ≡ self.old.marks.now }
    {
        let depth = self.depths[at + 1];
        while let Some(local) = pop_below(&mut self.locals, &self.depths, depth) {
            self.visible.set(local.name, local.hides)?;
        }
        Ok(())
    }
}

// Removes and returns the last declaration, if it is deeper than `depth`.
fn pop_below<'a>(locals: &mut Vec<Local<'a>>, depths: &[usize], depth: usize) -> Option<Local<'a>>
    requires { Each (λ l. l.mark < length depths.now) locals.old.items }
    ensures deep { IfSome result (λ l. depth < slice_index depths.now l.mark) }
    ensures last { IfSome result (λ l. locals.old.items ≡ locals.new.items ++ l ∷ []) }
    ensures none { IsNone result → (front : List Local) → (l : Local)
        → locals.old.items ≡ front ++ l ∷ [] → slice_index depths.now l.mark ≤ depth }
    ensures kept { IsNone result → locals.new.items ≡ locals.old.items }
{
    let local = locals.last()?;
    if depths[local.mark] <= depth {
        return None;
    }
    locals.pop()
}
