//! The blocks of the functions of a text.

ghost use Rattle.std.specs.Prelude.{◌≡◌, ◌+◌, ◌-◌, ◌*◌, ◌^◌, ◌<◌, ◌≤◌, ◌∷◌, ◌++◌, [], List, IfOk};
ghost use Rattle.std.specs.Prelude.{IfErr, OnOk, length, map, replicate};
ghost use Rattle.std.specs.List.{count_by};
ghost use Rattle.fk_syntax.specs.Program.{FunctionTree, ItemTree};
ghost use Rattle.fk_syntax.specs.ProgramView.{function_of, item_of};
ghost use Rattle.fk_meaning_forms.specs.Code as c;
ghost use Rattle.fk_meaning_forms.specs.Code.{size, numbered};
ghost use Rattle.fk_meaning_forms.specs.Program.{functions_of};
ghost use Rattle.fk_layout_walk.specs.Known.{IsSound};
ghost use Rattle.fk_layout_walk_statements.specs.Texts.{functions_in, code_in, sites_of_text};
ghost use Rattle.fk_lower.specs.Building.{has_site};
ghost use Rattle.fk_lower.specs.View.{part_of};
ghost use Rattle.fk_lower.specs.BuilderView.{event_of, block_code, IsBlockMeasured};
ghost use Rattle.fk_lower.specs.Lowered.{AreMeasured};
ghost use Rattle.fk_lower_text.specs.Whole.{IsPlain};
ghost use Rattle.fk_lower_text.specs.Laid.{codes_of, laid, sizes, CanBeLaid};

use crate::main_entry::binding_of;
use crate::noting::events_of;
use fk_layout_walk::ProgramTables;
use fk_lower::{Block, CodeEvent, LowerFault, build};
use fk_syntax::{Function, Item};
use std::alloc::Global;

/// The blocks of functions, each at its binding. A binding without a function has an empty block.
#[derive(Drop)]
pub(crate) struct Bodies {
    alloc: Global,
    /// The site of the next operation.
    pub(crate) site: u32,
    pub(crate) blocks: Vec<Block>,
}

fn has_site(event: CodeEvent) -> bool
    ensures { result ≡ has_site (event_of event) }
{
    matches!(
        event,
        CodeEvent::Perform(_)
            | CodeEvent::Choose(_)
            | CodeEvent::Quit(_)
            | CodeEvent::Call(_, _)
            | CodeEvent::Ends(_)
    )
}

// The site after these events, which begin at a site.
fn site_behind(site: u32, events: &[CodeEvent]) -> u32
    requires { site + count_by has_site (map event_of events.now) < 2 ^ 32 }
    ensures { result ≡ site + count_by has_site (map event_of events.now) }
{
    let mut behind = site;
    for event in events {
        if has_site(*event) {
            behind += 1;
        }
    }
    behind
}

impl Bodies {
    // Adds a block after those that there are.
    #[tactic(auto, using(crate::proofs::Keeping::codes_more, crate::proofs::Keeping::measured_more))]
    fn keep(&mut self, block: Block) -> Result<(), LowerFault>
        requires measured { AreMeasured (map part_of self.now.blocks.items) }
        requires block { IsBlockMeasured block }
        ensures count { OnOk result
            (length self.new.blocks.items ≡ length self.old.blocks.items + 1) }
        ensures codes { OnOk result (codes_of self.new.blocks.items
            ≡ codes_of self.old.blocks.items ++ block_code block ∷ []) }
        ensures site { self.new.site ≡ self.old.site }
        ensures measured { AreMeasured (map part_of self.new.blocks.items) }
        ensures refused { IfErr result (λ fault. fault ≡ LowerFault.Memory) }
    {
        match self.blocks.push(block) {
            Ok(()) => Ok(()),
            Err(_) => Err(LowerFault::Memory),
        }
    }

    // Adds an empty block after those that there are.
    fn skip(&mut self) -> Result<(), LowerFault>
        requires { AreMeasured (map part_of self.now.blocks.items) }
        ensures count { OnOk result
            (length self.new.blocks.items ≡ length self.old.blocks.items + 1) }
        ensures codes { OnOk result
            (codes_of self.new.blocks.items ≡ codes_of self.old.blocks.items ++ c.done ∷ []) }
        ensures site { self.new.site ≡ self.old.site }
        ensures measured { AreMeasured (map part_of self.new.blocks.items) }
        ensures refused { IfErr result (λ fault. fault ≡ LowerFault.Memory) }
    {
        let empty = Block::of(Vec::new(self.alloc));
        self.keep(empty)
    }

    // Adds empty blocks up to a binding. Earlier blocks stay.
    fn reach(&mut self, binding: u32) -> Result<(), LowerFault>
        requires measured { AreMeasured (map part_of self.now.blocks.items) }
        requires up { length self.now.blocks.items ≤ binding }
        ensures count { OnOk result (length self.new.blocks.items ≡ binding) }
        ensures codes { OnOk result (codes_of self.new.blocks.items ≡ codes_of self.old.blocks.items
            ++ replicate (binding - length self.old.blocks.items) c.done) }
        ensures site { self.new.site ≡ self.old.site }
        ensures measured { AreMeasured (map part_of self.new.blocks.items) }
        ensures refused { IfErr result (λ fault. fault ≡ LowerFault.Memory) }
    {
        while self.blocks.len() < binding as usize {
            self.skip()?;
        }
        Ok(())
    }

    // Adds the block of a function after those that there are.
    fn push(&mut self, known: &ProgramTables, whole: &Function) -> Result<(), LowerFault>
        requires sound { IsSound known.now }
        requires measured { AreMeasured (map part_of self.now.blocks.items) }
        requires plain { IsPlain (code_in known.now (function_of whole.now)) }
        requires few { 3
            * (self.now.site + size (code_in known.now (function_of whole.now))) < 2 ^ 32 }
        ensures count { OnOk result
            (length self.new.blocks.items ≡ length self.old.blocks.items + 1) }
        ensures codes { OnOk result (codes_of self.new.blocks.items ≡ codes_of self.old.blocks.items
            ++ numbered self.old.site (code_in known.now (function_of whole.now)) ∷ []) }
        ensures site { OnOk result (self.new.site
            ≡ self.old.site + size (code_in known.now (function_of whole.now))) }
        ensures measured { AreMeasured (map part_of self.new.blocks.items) }
        ensures refused { IfErr result (λ fault. fault ≡ LowerFault.Memory) }
    {
        let events = events_of(self.alloc, known, whole)?;
        let block = build(self.alloc, self.site, &events)?;
        let site = site_behind(self.site, &events);
        self.keep(block)?;
        self.site = site;
        Ok(())
    }

    // Adds the block of a function at its binding.
    fn add(&mut self, known: &ProgramTables, whole: &Function) -> Result<(), LowerFault>
        requires sound { IsSound known.now }
        requires measured { AreMeasured (map part_of self.now.blocks.items) }
        requires laid { CanBeLaid known.now (length self.now.blocks.items) self.now.site
            (function_of whole.now ∷ []) }
        ensures next { OnOk result ((fs : List FunctionTree)
            → CanBeLaid known.now (length self.old.blocks.items) self.old.site
            (function_of whole.now ∷ fs)
            → CanBeLaid known.now (length self.new.blocks.items) self.new.site fs) }
        ensures codes { OnOk result ((fs : List FunctionTree) → codes_of self.old.blocks.items
            ++ laid known.now (length self.old.blocks.items) self.old.site
            (function_of whole.now ∷ fs)
            ≡ codes_of self.new.blocks.items
            ++ laid known.now (length self.new.blocks.items) self.new.site fs) }
        ensures sites { OnOk result ((fs : List FunctionTree)
            → self.old.site + sizes known.now (function_of whole.now ∷ fs)
            ≡ self.new.site + sizes known.now fs) }
        ensures measured { AreMeasured (map part_of self.new.blocks.items) }
        ensures refused { IfErr result (λ fault. fault ≡ LowerFault.Memory) }
    {
        self.reach(binding_of(known, whole))?;
        self.push(known, whole)?;
        Ok(())
    }

    // Adds the block of an item, if it is a function with a body.
    fn item(&mut self, known: &ProgramTables, whole: &Item) -> Result<(), LowerFault>
        requires sound { IsSound known.now }
        requires measured { AreMeasured (map part_of self.now.blocks.items) }
        requires laid { CanBeLaid known.now (length self.now.blocks.items) self.now.site
            (functions_of (item_of whole.now ∷ [])) }
        ensures next { OnOk result ((others : List ItemTree)
            → CanBeLaid known.now (length self.old.blocks.items) self.old.site
            (functions_of (item_of whole.now ∷ others))
            → CanBeLaid known.now (length self.new.blocks.items) self.new.site
            (functions_of others)) }
        ensures codes { OnOk result ((others : List ItemTree)
            → codes_of self.old.blocks.items
            ++ laid known.now (length self.old.blocks.items) self.old.site
            (functions_of (item_of whole.now ∷ others))
            ≡ codes_of self.new.blocks.items
            ++ laid known.now (length self.new.blocks.items) self.new.site (functions_of others)) }
        ensures sites { OnOk result ((others : List ItemTree)
            → self.old.site + sizes known.now (functions_of (item_of whole.now ∷ others))
            ≡ self.new.site + sizes known.now (functions_of others)) }
        ensures measured { AreMeasured (map part_of self.new.blocks.items) }
        ensures refused { IfErr result (λ fault. fault ≡ LowerFault.Memory) }
    {
        match whole {
            Item::Function(whole) => match &whole.body {
                Some(_) => Ok(self.add(known, whole)?),
                None => Ok(()),
            },
            Item::Struct(_, _) | Item::Variables(_) => Ok(()),
        }
    }

    /// The blocks of a text. It takes time and memory linear in the text and in the greatest
    /// binding of a function.
    ///
    /// # Errors
    ///
    /// `Memory` if there isn't enough memory.
    pub(crate) fn of(alloc: Global, known: &ProgramTables) -> Result<Bodies, LowerFault>
        requires sound { IsSound known.now }
        requires laid { CanBeLaid known.now 0 0 (functions_in known.now) }
        ensures codes { IfOk result (λ bodies.
            codes_of bodies.blocks.items ≡ laid known.now 0 0 (functions_in known.now)) }
        ensures sites { IfOk result (λ bodies. bodies.site ≡ length (sites_of_text known.now)) }
        ensures measured { IfOk result (λ bodies. AreMeasured (map part_of bodies.blocks.items)) }
        ensures refused { IfErr result (λ fault. fault ≡ LowerFault.Memory) }
    {
        let mut bodies = Bodies {
            alloc,
            site: 0,
            blocks: Vec::new(alloc),
        };
        for item in known.items {
            bodies.item(known, item)?;
        }
        Ok(bodies)
    }
}
