//! The group frames of a text that have words, in the order of their tokens.

ghost use Rattle.std.specs.Prelude.{◌≡◌, ◌++◌, map, OnOk, IfOk};
ghost use Rattle.fk_syntax.specs.Program.{statements_of};
ghost use Rattle.fk_syntax.specs.ProgramView.{declared_of, statement_of, function_of, item_of};
ghost use Rattle.fk_layout_slots.specs.KnownView.{told_by};
ghost use Rattle.fk_layout_slots.specs.Frames.{frame, deeper as deeper_of, body_frame, frames_in};
ghost use Rattle.fk_layout_slots.specs.Frames.{all_frames_in, item_frames, body_frames, regions_of};
ghost use Rattle.fk_layout_slots.specs.Parts.{framed_frames, split_frames, both_framed_frames};
ghost use Rattle.fk_layout_slots.specs.Parts.{both_frames};

use crate::known::TypeNotes;
use crate::words::{own_words, statement_words};
use fk_meaning_forms::Region;
use fk_syntax::{Function, Item, Stmt};
use std::alloc::{AllocError, Global};

/// The greatest index of a word in a group frame.
pub(crate) const LAST_WORD: u32 = 1_048_576;

// The nesting of a body.
fn deeper(level: u32) -> u32
    ensures { result ≡ deeper_of level }
{
    level.saturating_add(1)
}

/// Group frames, in the order of their tokens.
#[derive(Drop)]
pub(crate) struct Frames {
    list: Vec<Region>,
}

impl Frames {
    /// The group frames of a text. It fails only if there isn't enough memory.
    pub(crate) fn of(
        alloc: Global,
        items: &[Item],
        known: &TypeNotes,
    ) -> Result<Vec<Region>, AllocError>
        ensures { IfOk result (λ list. list.items
            ≡ regions_of (told_by known.now) (map item_of items.now)) }
    {
        let mut frames = Frames {
            list: Vec::new(alloc),
        };
        Self::add_items(items, known, &mut frames)?;
        Ok(frames.list)
    }

    // Adds a frame, if it has words. If it has too many, the count is `LAST_WORD + 1`.
    fn add(&mut self, at: u32, part: u32, level: u32, words: u32) -> Result<(), AllocError>
        ensures { OnOk result (self.new.list.items ≡ self.old.list.items
            ++ frame at part level words) }
    {
        if words == 0 {
            return Ok(());
        }
        self.list.push(Region {
            at,
            part,
            level,
            words: words.min(LAST_WORD + 1),
        })?;
        Ok(())
    }

    // Adds the frame of a body.
    //
    // In this function and those below, the inputs come before the list that grows, because such
    // calls have shorter proofs than methods.
    fn add_body_frame(
        body: &Stmt,
        known: &TypeNotes,
        at: u32,
        part: u32,
        level: u32,
        into: &mut Self,
    ) -> Result<(), AllocError>
        ensures { OnOk result (into.new.list.items ≡ into.old.list.items
            ++ body_frame (told_by known.now) at part level (statement_of body.now)) }
    {
        into.add(at, part, level, statement_words(body, known, 0))
    }

    // Adds the frames that begin in a statement at this nesting level of a function.
    #[cycle(statement)]
    fn add_statement(
        statement: &Stmt,
        known: &TypeNotes,
        level: u32,
        into: &mut Self,
    ) -> Result<(), AllocError>
        ensures { OnOk result (into.new.list.items ≡ into.old.list.items
            ++ frames_in (told_by known.now) level (statement_of statement.now)) }
    {
        match statement {
            Stmt::Block(list) => Self::add_statements(list, known, level, into),
            Stmt::If(spot, _, first, otherwise) => match otherwise {
                Some(second) => Self::add_both(first, second, known, spot.at, level, into),
                None => Self::add_split(first, known, spot.at, level, into),
            },
            Stmt::While(spot, _, body)
            | Stmt::DoWhile(spot, body, _)
            | Stmt::For(spot, _, _, _, body) => Self::add_split(body, known, spot.at, level, into),
            Stmt::Start(spot, _, body) | Stmt::Fork(spot, _, _, _, body) => {
                Self::add_framed(body, known, spot.at, level, into)
            }
            Stmt::Farm(_, body) | Stmt::Seq(_, body) => {
                Self::add_statement(body, known, deeper(level), into)
            }
            Stmt::Empty
            | Stmt::Expression(_)
            | Stmt::Declare(_)
            | Stmt::Barrier(_)
            | Stmt::Break(_)
            | Stmt::Continue(_)
            | Stmt::Return(_, _) => Ok(()),
        }
    }

    // Adds the frames of a body that has a frame of its own if the group splits.
    #[cycle(statement)]
    fn add_split(
        body: &Stmt,
        known: &TypeNotes,
        at: u32,
        level: u32,
        into: &mut Self,
    ) -> Result<(), AllocError>
        ensures { OnOk result (into.new.list.items ≡ into.old.list.items
            ++ split_frames (told_by known.now) at level (statement_of body.now)) }
    {
        if known.splits(at) {
            Self::add_framed(body, known, at, level, into)
        } else {
            Self::add_statement(body, known, level, into)
        }
    }

    // Adds the frames of a body that has a frame: its own one, and those inside it.
    #[cycle(statement)]
    fn add_framed(
        body: &Stmt,
        known: &TypeNotes,
        at: u32,
        level: u32,
        into: &mut Self,
    ) -> Result<(), AllocError>
        ensures { OnOk result (into.new.list.items ≡ into.old.list.items
            ++ framed_frames (told_by known.now) at level (statement_of body.now)) }
    {
        let inner = deeper(level);
        Self::add_body_frame(body, known, at, 0, inner, into)?;
        Self::add_statement(body, known, inner, into)
    }

    // Adds the frames of two bodies that have frames of their own if the group splits.
    #[cycle(statement)]
    fn add_both<'t, 'a>(
        first: &'t Stmt<'a>,
        second: &'t Stmt<'a>,
        known: &TypeNotes,
        at: u32,
        level: u32,
        into: &mut Self,
    ) -> Result<(), AllocError>
        ensures { OnOk result (into.new.list.items ≡ into.old.list.items
            ++ both_frames (told_by known.now) at level (statement_of first.now)
            (statement_of second.now)) }
    {
        if known.splits(at) {
            return Self::add_both_framed(first, second, known, at, level, into);
        }
        Self::add_statement(first, known, level, into)?;
        Self::add_statement(second, known, level, into)
    }

    // Adds the frames of two bodies that have frames: both of their own, and then those inside
    // them.
    #[cycle(statement)]
    fn add_both_framed<'t, 'a>(
        first: &'t Stmt<'a>,
        second: &'t Stmt<'a>,
        known: &TypeNotes,
        at: u32,
        level: u32,
        into: &mut Self,
    ) -> Result<(), AllocError>
        ensures { OnOk result (into.new.list.items ≡ into.old.list.items
            ++ both_framed_frames (told_by known.now) at level (statement_of first.now)
            (statement_of second.now)) }
    {
        let inner = deeper(level);
        Self::add_body_frame(first, known, at, 0, inner, into)?;
        Self::add_body_frame(second, known, at, 1, inner, into)?;
        Self::add_statement(first, known, inner, into)?;
        Self::add_statement(second, known, inner, into)
    }

    #[cycle(statement)]
    fn add_statements(
        statements: &[Stmt],
        known: &TypeNotes,
        level: u32,
        into: &mut Self,
    ) -> Result<(), AllocError>
        ensures { OnOk result (into.new.list.items ≡ into.old.list.items
            ++ all_frames_in (told_by known.now) level
            (statements_of (map statement_of statements.now))) }
    {
        for statement in statements {
            Self::add_statement(statement, known, level, into)?;
        }
        Ok(())
    }

    fn add_function(
        function: &Function,
        known: &TypeNotes,
        into: &mut Self,
    ) -> Result<(), AllocError>
        ensures { OnOk result (into.new.list.items ≡ into.old.list.items
            ++ body_frames (told_by known.now) (function_of function.now).name.at
            (function_of function.now).parameters (function_of function.now).body) }
    {
        match &function.body {
            Some(body) => {
                let words = own_words(&function.params, body, known);
                into.add(function.name.at, 0, 0, words)?;
                Self::add_statements(body, known, 0, into)
            }
            None => Ok(()),
        }
    }

    fn add_item(item: &Item, known: &TypeNotes, into: &mut Self) -> Result<(), AllocError>
        ensures { OnOk result (into.new.list.items ≡ into.old.list.items
            ++ item_frames (told_by known.now) (item_of item.now)) }
    {
        match item {
            Item::Struct(_, _) | Item::Variables(_) => Ok(()),
            Item::Function(function) => Self::add_function(function, known, into),
        }
    }

    fn add_items(items: &[Item], known: &TypeNotes, into: &mut Self) -> Result<(), AllocError>
        ensures { OnOk result (into.new.list.items ≡ into.old.list.items
            ++ regions_of (told_by known.now) (map item_of items.now)) }
    {
        for item in items {
            Self::add_item(item, known, into)?;
        }
        Ok(())
    }
}
