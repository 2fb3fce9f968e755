//! Laws of the definitions alone: of the table of instructions, and of a step.

ghost use Rattle.std.specs.Prelude.{◌≡◌, ℕ, ◌<◌, ◌^◌};
ghost use Rattle.fk_isa.specs.declared.instruction.Instruction.{Instruction};
ghost use Rattle.fk_isa.specs.Row.{Row};
ghost use Rattle.fk_isa.specs.Found.{FindsRow};
ghost use Rattle.fk_isa.specs.Step.{HartState, After, step};
ghost use Rattle.fk_isa.specs.declared.effect.Effect.TheVariants.{Trap};

use crate::bus::Bus;

/// `row` finds the row of a word in the table, and nothing exactly if the word has none.
pub fn finds_row()
    ensures { (word : ℕ) → FindsRow word }
{}

/// A word has at most one row.
pub fn one_row()
    ensures { (word : ℕ) (i j : Instruction) → Row word i → Row word j → i ≡ j }
{}

/// An instruction has at most one word.
pub fn one_word()
    ensures { (i : Instruction) (word other : ℕ) → word < 2 ^ 32 → other < 2 ^ 32 → Row word i
        → Row other i → word ≡ other }
{}

/// A trapping instruction changes neither its hart nor the bus.
pub fn trap_changes_nothing<B: Bus>()
    ensures { (instruction : Instruction) (number kind : ℕ) (hart after : HartState)
        (bus left : B.State) →
        step B.tells number instruction hart bus ≡ After (Trap kind) after left
        → (after ≡ hart) × (left ≡ bus) }
{}
