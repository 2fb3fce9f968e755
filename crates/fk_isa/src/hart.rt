//! Harts.

ghost use Rattle.std.specs.Prelude.{◌≡◌, ◌<◌, slice_index};

use crate::effect::{Effect, MISALIGNED};
use fk_num::{Op, apply};

/// A hart: its registers, the address of its next instruction, and whether it has ended.
#[derive(Clone, Copy, PartialEq, Eq)]
pub struct Hart {
    pub registers: [u32; 32],
    pub pc: u32,
    pub ended: bool,
}

impl Hart {
    ghost use Rattle.std.specs.Prelude.{Bool, ◌*◌, ◌/◌};
    ghost use Rattle.fk_num.specs.Op.{applied};
    ghost use Rattle.fk_num.specs.Word.{signed, word_sum};
    ghost use Rattle.fk_isa.specs.declared.effect.Effect.TheVariants.{Next, Ended};
    ghost use Rattle.fk_isa.specs.Step.{HartState, hart_of, set_register, moved, next, written};
    ghost use Rattle.fk_isa.specs.Step.{ended, jump_effect, jumped, branch_effect, branched};

    /// The word of a register.
    pub fn word(&self, number: u8) -> u32
        requires { number < 32 }
        ensures { result ≡ slice_index self.now.registers number }
    {
        self.registers[number as usize]
    }

    // The signed value of a register.
    pub fn signed(&self, number: u8) -> i32
        requires { number < 32 }
        ensures { result ≡ signed (slice_index self.now.registers number) }
    {
        self.word(number).cast_signed()
    }

    // A register plus an immediate.
    pub fn sum(&self, number: u8, immediate: u32) -> u32
        requires { number < 32 }
        ensures { result ≡ word_sum (slice_index self.now.registers number) immediate }
    {
        self.word(number).wrapping_add(immediate)
    }

    // Goes on to the next instruction.
    pub fn go_on(&mut self) -> Effect
        ensures effect { result ≡ Next }
        ensures hart { hart_of self.new ≡ moved (hart_of self.old) (next (hart_of self.old)) }
    {
        self.pc = self.pc.wrapping_add(4);
        Effect::Next
    }

    // Goes on to the next instruction, and ends the hart.
    pub fn end(&mut self) -> Effect
        ensures effect { result ≡ Ended }
        ensures hart { hart_of self.new ≡ ended (hart_of self.old) }
    {
        self.pc = self.pc.wrapping_add(4);
        self.ended = true;
        Effect::Ended
    }

    // Gives a register a word. Register 0 stays 0.
    fn set(&mut self, rd: u8, value: u32)
        requires { rd < 32 }
        ensures registers { slice_index self.new.registers
            ≡ set_register (slice_index self.old.registers) rd value }
        ensures pc { self.new.pc ≡ self.old.pc }
        ensures ended { self.new.ended ≡ self.old.ended }
    {
        if rd != 0 {
            self.registers[rd as usize] = value;
        }
    }

    // Gives a register a word, and goes on.
    pub fn write(&mut self, rd: u8, value: u32) -> Effect
        requires { rd < 32 }
        ensures effect { result ≡ Next }
        ensures hart { hart_of self.new ≡ written (hart_of self.old) rd value }
    {
        self.set(rd, value);
        self.go_on()
    }

    // Gives a register the result of an operator on another register and a word, and goes on.
    pub fn operate(&mut self, op: Op, rd: u8, rs1: u8, right: u32) -> Effect
        requires rd { rd < 32 }
        requires rs1 { rs1 < 32 }
        ensures effect { result ≡ Next }
        ensures hart { hart_of self.new ≡ written (hart_of self.old) rd
            (applied op (slice_index self.old.registers rs1) right) }
    {
        let value = apply(op, self.word(rs1), right);
        self.write(rd, value)
    }

    // Gives a register the result of an operator on two registers, and goes on.
    #[inline(always)]
    pub fn operate_two(&mut self, op: Op, rd: u8, rs1: u8, rs2: u8) -> Effect
        requires rd { rd < 32 }
        requires rs1 { rs1 < 32 }
        requires rs2 { rs2 < 32 }
        ensures effect { result ≡ Next }
        ensures hart { hart_of self.new ≡ written (hart_of self.old) rd
            (applied op (slice_index self.old.registers rs1) (slice_index self.old.registers rs2)) }
    {
        self.operate(op, rd, rs1, self.word(rs2))
    }

    // Jumps, and gives a register the address of the next instruction.
    pub fn jump(&mut self, rd: u8, target: u32) -> Effect
        requires { rd < 32 }
        ensures effect { result ≡ jump_effect target }
        ensures hart { hart_of self.new ≡ jumped (hart_of self.old) rd target }
    {
        if target % 4 != 0 {
            return Effect::Trap(MISALIGNED);
        }
        self.set(rd, self.pc.wrapping_add(4));
        self.pc = target;
        Effect::Next
    }

    // Jumps by the offset if a condition holds, and else goes on.
    pub fn branch(&mut self, holds: bool, offset: u32) -> Effect
        ensures effect { result ≡ branch_effect holds (word_sum self.old.pc offset) }
        ensures hart { hart_of self.new ≡ branched holds (hart_of self.old)
            (word_sum self.old.pc offset) }
    {
        if holds {
            self.jump(0, self.pc.wrapping_add(offset))
        } else {
            self.go_on()
        }
    }
}
