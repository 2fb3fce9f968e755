//! The slot of each declaration, in the order of the text.

ghost use Rattle.std.specs.Prelude.{◌≡◌, ◌∷◌, ◌++◌, [], map, OnOk, IfOk, Some};
ghost use Rattle.fk_syntax.specs.Program as p;
ghost use Rattle.fk_syntax.specs.Program.{statements_of};
ghost use Rattle.fk_syntax.specs.ProgramView.{declared_of, statement_of, function_of, item_of};
ghost use Rattle.fk_layout_slots.specs.KnownView.{told_by};
ghost use Rattle.fk_layout_slots.specs.Places as g;
ghost use Rattle.fk_layout_slots.specs.Slots as s;
ghost use Rattle.fk_layout_slots.specs.Parts as b;

use crate::frames::LAST_WORD;
use crate::known::TypeNotes;
use crate::tables::Own;
use crate::taken::Taken;
use crate::words::{own_words, statement_words};
use fk_meaning_forms::{Home, Slot};
use fk_syntax::{Declared, Function, Item, Stmt};
use std::alloc::{AllocError, Global};

const NO_SLOT: Slot = Slot {
    home: Home::NoWord,
    index: 0,
};

// The slot of a variable or parameter of a function. An `sh` one lies in the group frame with
// number `frame`.
#[tactic(auto, unfolding(crate::specs::Places::slot_in))]
fn slot_in(variable: &Declared, frame: u32, taken: Taken) -> Slot
    ensures { result ≡ g.slot_in frame taken (declared_of variable.now) }
{
    if variable.shared {
        Slot {
            home: Home::Group(frame),
            index: taken.words.min(LAST_WORD),
        }
    } else {
        Slot {
            home: Home::Private,
            index: taken.privates,
        }
    }
}

// The slot of a variable of file scope.
#[tactic(auto, unfolding(crate::specs::Places::file_slot))]
fn file_slot(variable: &Declared, taken: Taken) -> Slot
    ensures { result ≡ g.file_slot taken (declared_of variable.now) }
{
    if variable.shared {
        Slot {
            home: Home::Global,
            index: taken.words,
        }
    } else {
        Slot {
            home: Home::FilePrivate,
            index: taken.privates,
        }
    }
}

// What is taken after a variable.
#[tactic(auto, unfolding(crate::specs::Places::behind_variable, crate::specs::Places::behind_words))]
fn behind_variable(variable: &Declared, known: &TypeNotes, taken: Taken) -> Taken
    ensures { result ≡ g.behind_variable (told_by known.now) taken (declared_of variable.now) }
{
    if variable.shared {
        taken.behind_words(known.words(variable.name.at))
    } else {
        taken.behind_private()
    }
}

// What is taken after a parameter.
#[tactic(auto, unfolding(crate::specs::Places::behind_parameter, crate::specs::Places::behind_words))]
fn behind_parameter(parameter: &Declared, known: &TypeNotes, taken: Taken) -> Taken
    ensures { result ≡ g.behind_parameter (told_by known.now) taken (declared_of parameter.now) }
{
    if parameter.shared {
        let behind = taken.behind_words(known.words(parameter.name.at));
        behind.behind_private()
    } else {
        taken.behind_private()
    }
}

// What is taken after the frame of a body.
fn behind_body_frame(body: &Stmt, known: &TypeNotes, taken: Taken) -> Taken
    ensures { result ≡ s.behind_body_frame (told_by known.now) taken (statement_of body.now) }
{
    taken.behind_frame(statement_words(body, known, 0))
}

// What is taken at the beginning of a function, where `file` is taken before it.
fn taken_first<'t, 'a>(
    parameters: &'t [Declared<'a>],
    body: &'t [Stmt<'a>],
    known: &TypeNotes,
    file: Taken,
) -> Taken
    ensures { result ≡ s.taken_first (told_by known.now) file (map declared_of parameters.now)
        (statements_of (map statement_of body.now)) }
{
    let behind = file.behind_frame(own_words(parameters, body, known));
    Taken {
        privates: 0,
        words: 0,
        ..behind
    }
}

// How much a function takes by itself, where `last` is taken at its end.
fn own_by<'t, 'a>(
    parameters: &'t [Declared<'a>],
    body: &'t [Stmt<'a>],
    known: &TypeNotes,
    last: Taken,
) -> Own
    requires { last.privates
        ≡ (s.own_in (told_by known.now) (map declared_of parameters.now)
        (Some (statements_of (map statement_of body.now)))).privates }
    ensures { result ≡ s.own_in (told_by known.now) (map declared_of parameters.now)
        (Some (statements_of (map statement_of body.now))) }
{
    Own {
        privates: last.privates,
        words: own_words(parameters, body, known).min(LAST_WORD + 1),
    }
}

/// The slots of declarations, in the order of the text.
#[derive(Drop)]
pub(crate) struct Places {
    list: Vec<Slot>,
}

impl Places {
    /// The slots of a text, and how much each function takes by itself. It fails only if there
    /// isn't enough memory.
    pub(crate) fn of(
        alloc: Global,
        items: &[Item],
        known: &TypeNotes,
    ) -> Result<(Vec<Slot>, Vec<Own>), AllocError>
        ensures slots { IfOk result (λ both. both.0.items
            ≡ s.slots_of (told_by known.now) (map item_of items.now)) }
        ensures owns { IfOk result (λ both. both.1.items
            ≡ s.owns_of (told_by known.now) (map item_of items.now)) }
    {
        let mut places = Places {
            list: Vec::new(alloc),
        };
        let mut owns = Vec::new(alloc);
        Self::add_items(items, known, &mut owns, &mut places)?;
        Ok((places.list, owns))
    }

    // Adds the slots of the variables of one declaration. Returns what is taken after them.
    //
    // In this function and those below, the inputs come before the list that grows, because such
    // calls have shorter proofs than methods.
    fn add_variables(
        variables: &[Declared],
        known: &TypeNotes,
        frame: u32,
        taken: Taken,
        into: &mut Self,
    ) -> Result<Taken, AllocError>
        ensures slots { OnOk result (into.new.list.items ≡ into.old.list.items
            ++ g.variables_slots (told_by known.now) frame taken (map declared_of variables.now)) }
        ensures taken { IfOk result (λ behind. behind
            ≡ g.behind_variables (told_by known.now) taken (map declared_of variables.now)) }
    {
        let mut behind = taken;
        for variable in variables {
            into.list.push(slot_in(variable, frame, behind))?;
            behind = behind_variable(variable, known, behind);
        }
        Ok(behind)
    }

    // Adds the slots of the parameters of a function. Returns what is taken after them.
    fn add_parameters(
        parameters: &[Declared],
        known: &TypeNotes,
        frame: u32,
        taken: Taken,
        into: &mut Self,
    ) -> Result<Taken, AllocError>
        ensures slots { OnOk result (into.new.list.items ≡ into.old.list.items
            ++ g.parameters_slots (told_by known.now) frame taken
            (map declared_of parameters.now)) }
        ensures taken { IfOk result (λ behind. behind
            ≡ g.behind_parameters (told_by known.now) taken (map declared_of parameters.now)) }
    {
        let mut behind = taken;
        for parameter in parameters {
            into.list.push(slot_in(parameter, frame, behind))?;
            behind = behind_parameter(parameter, known, behind);
        }
        Ok(behind)
    }

    // Adds slots without a word for the parameters of a function that has no body.
    fn add_none(parameters: &[Declared], into: &mut Self) -> Result<(), AllocError>
        ensures { OnOk result (into.new.list.items ≡ into.old.list.items
            ++ g.no_slots (map declared_of parameters.now)) }
    {
        for _parameter in parameters {
            into.list.push(NO_SLOT)?;
        }
        Ok(())
    }

    // Adds the slots of variables of file scope. Returns what is taken after them.
    fn add_file(
        variables: &[Declared],
        known: &TypeNotes,
        taken: Taken,
        into: &mut Self,
    ) -> Result<Taken, AllocError>
        ensures slots { OnOk result (into.new.list.items ≡ into.old.list.items
            ++ g.file_slots (told_by known.now) taken (map declared_of variables.now)) }
        ensures taken { IfOk result (λ behind. behind
            ≡ g.behind_variables (told_by known.now) taken (map declared_of variables.now)) }
    {
        let mut behind = taken;
        for variable in variables {
            into.list.push(file_slot(variable, behind))?;
            behind = behind_variable(variable, known, behind);
        }
        Ok(behind)
    }

    // Adds the slots of the declarations in a statement, whose `sh` variables lie in the frame with
    // number `frame`. Returns what is taken after it.
    #[cycle(statement)]
    fn add_statement(
        statement: &Stmt,
        known: &TypeNotes,
        frame: u32,
        taken: Taken,
        into: &mut Self,
    ) -> Result<Taken, AllocError>
        ensures slots { OnOk result (into.new.list.items ≡ into.old.list.items
            ++ s.slots_in (told_by known.now) frame taken (statement_of statement.now)) }
        ensures taken { IfOk result (λ behind. behind
            ≡ s.behind (told_by known.now) taken (statement_of statement.now)) }
    {
        match statement {
            Stmt::Block(list) => Self::add_statements(list, known, frame, taken, into),
            Stmt::Declare(variables) => Self::add_variables(variables, known, frame, taken, into),
            Stmt::If(spot, _, first, otherwise) => match otherwise {
                Some(second) => {
                    Self::add_both(first, second, known, spot.at, frame, taken, into)
                }
                None => Self::add_split(first, known, spot.at, frame, taken, into),
            },
            Stmt::While(spot, _, body)
            | Stmt::DoWhile(spot, body, _)
            | Stmt::For(spot, _, _, _, body) => {
                Self::add_split(body, known, spot.at, frame, taken, into)
            }
            Stmt::Start(_, _, body) | Stmt::Fork(_, _, _, _, body) => {
                Self::add_framed(body, known, taken, into)
            }
            Stmt::Farm(_, body) | Stmt::Seq(_, body) => {
                Self::add_statement(body, known, frame, taken, into)
            }
            Stmt::Empty
            | Stmt::Expression(_)
            | Stmt::Barrier(_)
            | Stmt::Break(_)
            | Stmt::Continue(_)
            | Stmt::Return(_, _) => Ok(taken),
        }
    }

    // Adds the slots of a body that has a frame of its own if the group splits.
    #[cycle(statement)]
    fn add_split(
        body: &Stmt,
        known: &TypeNotes,
        at: u32,
        frame: u32,
        taken: Taken,
        into: &mut Self,
    ) -> Result<Taken, AllocError>
        ensures slots { OnOk result (into.new.list.items ≡ into.old.list.items
            ++ b.split_slots (told_by known.now) at frame taken (statement_of body.now)) }
        ensures taken { IfOk result (λ behind. behind
            ≡ b.behind_split (told_by known.now) at taken (statement_of body.now)) }
    {
        if known.splits(at) {
            Self::add_framed(body, known, taken, into)
        } else {
            Self::add_statement(body, known, frame, taken, into)
        }
    }

    // Adds the slots of a body that has a frame. The frame gets the next number.
    #[cycle(statement)]
    fn add_framed(
        body: &Stmt,
        known: &TypeNotes,
        taken: Taken,
        into: &mut Self,
    ) -> Result<Taken, AllocError>
        ensures slots { OnOk result (into.new.list.items ≡ into.old.list.items
            ++ b.framed_slots (told_by known.now) taken (statement_of body.now)) }
        ensures taken { IfOk result (λ behind. behind
            ≡ b.behind_framed (told_by known.now) taken (statement_of body.now)) }
    {
        let begun = behind_body_frame(body, known, taken).within();
        let behind = Self::add_statement(body, known, taken.frames, begun, into)?;
        Ok(behind.outside(taken))
    }

    // Adds the slots of two bodies that have frames of their own if the group splits.
    #[cycle(statement)]
    fn add_both<'t, 'a>(
        first: &'t Stmt<'a>,
        second: &'t Stmt<'a>,
        known: &TypeNotes,
        at: u32,
        frame: u32,
        taken: Taken,
        into: &mut Self,
    ) -> Result<Taken, AllocError>
        ensures slots { OnOk result (into.new.list.items ≡ into.old.list.items
            ++ b.both_slots (told_by known.now) at frame taken (statement_of first.now)
            (statement_of second.now)) }
        ensures taken { IfOk result (λ behind. behind
            ≡ b.behind_both (told_by known.now) at taken (statement_of first.now)
            (statement_of second.now)) }
    {
        if known.splits(at) {
            return Self::add_both_framed(first, second, known, taken, into);
        }
        let behind = Self::add_statement(first, known, frame, taken, into)?;
        Self::add_statement(second, known, frame, behind, into)
    }

    // Adds the slots of two bodies that have frames. The frames get the next two numbers.
    #[cycle(statement)]
    fn add_both_framed<'t, 'a>(
        first: &'t Stmt<'a>,
        second: &'t Stmt<'a>,
        known: &TypeNotes,
        taken: Taken,
        into: &mut Self,
    ) -> Result<Taken, AllocError>
        ensures slots { OnOk result (into.new.list.items ≡ into.old.list.items
            ++ b.both_framed_slots (told_by known.now) taken (statement_of first.now)
            (statement_of second.now)) }
        ensures taken { IfOk result (λ behind. behind
            ≡ b.behind_both_framed (told_by known.now) taken (statement_of first.now)
            (statement_of second.now)) }
    {
        let one = behind_body_frame(first, known, taken);
        let begun = behind_body_frame(second, known, one).within();
        let behind = Self::add_statement(first, known, taken.frames, begun, into)?;
        let last = Self::add_statement(second, known, one.frames, behind.within(), into)?;
        Ok(last.outside(taken))
    }

    #[cycle(statement)]
    fn add_statements(
        statements: &[Stmt],
        known: &TypeNotes,
        frame: u32,
        taken: Taken,
        into: &mut Self,
    ) -> Result<Taken, AllocError>
        ensures slots { OnOk result (into.new.list.items ≡ into.old.list.items
            ++ s.all_slots_in (told_by known.now) frame taken
            (statements_of (map statement_of statements.now))) }
        ensures taken { IfOk result (λ behind. behind
            ≡ s.behind_all (told_by known.now) taken
            (statements_of (map statement_of statements.now))) }
    {
        let mut behind = taken;
        for statement in statements {
            behind = Self::add_statement(statement, known, frame, behind, into)?;
        }
        Ok(behind)
    }

    // Adds the slots of a function's parameters and variables. Returns what is taken at its end.
    #[tactic(auto, using(crate::proofs::Alike::same_privates))]
    fn add_body<'t, 'a>(
        parameters: &'t [Declared<'a>],
        body: &'t [Stmt<'a>],
        known: &TypeNotes,
        file: Taken,
        into: &mut Self,
    ) -> Result<Taken, AllocError>
        ensures slots { OnOk result (into.new.list.items ≡ into.old.list.items
            ++ s.body_slots (told_by known.now) file (map declared_of parameters.now)
            (Some (statements_of (map statement_of body.now)))) }
        ensures frames { IfOk result (λ last. last.frames
            ≡ (s.behind_body (told_by known.now) file (map declared_of parameters.now)
            (Some (statements_of (map statement_of body.now)))).frames) }
        ensures privates { IfOk result (λ last. last.privates
            ≡ (s.own_in (told_by known.now) (map declared_of parameters.now)
            (Some (statements_of (map statement_of body.now)))).privates) }
    {
        let opening = taken_first(parameters, body, known, file);
        let behind = Self::add_parameters(parameters, known, file.frames, opening, into)?;
        let last = Self::add_statements(body, known, file.frames, behind, into)?;
        Ok(last)
    }

    // Adds the slots of a function, whose name has no word. If it has a body, what it takes by
    // itself is added to `owns`.
    fn add_function(
        function: &Function,
        known: &TypeNotes,
        owns: &mut Vec<Own>,
        file: Taken,
        into: &mut Self,
    ) -> Result<Taken, AllocError>
        ensures slots { OnOk result (into.new.list.items ≡ into.old.list.items
            ++ s.item_slots (told_by known.now) file (p.FunctionItem (function_of function.now))) }
        ensures taken { IfOk result (λ behind. behind
            ≡ s.behind_item (told_by known.now) file
            (p.FunctionItem (function_of function.now))) }
        ensures owns { OnOk result (owns.new.items ≡ owns.old.items
            ++ s.owns_of (told_by known.now) (p.FunctionItem (function_of function.now) ∷ [])) }
    {
        into.list.push(NO_SLOT)?;
        match &function.body {
            Some(body) => {
                let last = Self::add_body(&function.params, body, known, file, into)?;
                owns.push(own_by(&function.params, body, known, last))?;
                Ok(Taken {
                    frames: last.frames,
                    ..file
                })
            }
            None => {
                Self::add_none(&function.params, into)?;
                Ok(file)
            }
        }
    }

    fn add_item(
        item: &Item,
        known: &TypeNotes,
        owns: &mut Vec<Own>,
        file: Taken,
        into: &mut Self,
    ) -> Result<Taken, AllocError>
        ensures slots { OnOk result (into.new.list.items ≡ into.old.list.items
            ++ s.item_slots (told_by known.now) file (item_of item.now)) }
        ensures taken { IfOk result (λ behind. behind
            ≡ s.behind_item (told_by known.now) file (item_of item.now)) }
        ensures owns { OnOk result (owns.new.items ≡ owns.old.items
            ++ s.owns_of (told_by known.now) (item_of item.now ∷ [])) }
    {
        match item {
            Item::Struct(_, _) => Ok(file),
            Item::Variables(variables) => Self::add_file(variables, known, file, into),
            Item::Function(function) => Self::add_function(function, known, owns, file, into),
        }
    }

    #[tactic(auto, using(crate::proofs::Alike::owns_of_more))]
    fn add_items(
        items: &[Item],
        known: &TypeNotes,
        owns: &mut Vec<Own>,
        into: &mut Self,
    ) -> Result<(), AllocError>
        ensures slots { OnOk result (into.new.list.items ≡ into.old.list.items
            ++ s.slots_of (told_by known.now) (map item_of items.now)) }
        ensures owns { OnOk result (owns.new.items ≡ owns.old.items
            ++ s.owns_of (told_by known.now) (map item_of items.now)) }
    {
        let mut behind = Taken::none();
        for item in items {
            behind = Self::add_item(item, known, owns, behind, into)?;
        }
        Ok(())
    }
}
