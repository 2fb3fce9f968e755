//! Instructions.

/// An instruction of RV32IMA, one variant for each row of its table (RISC-V Unprivileged ISA,
/// "RV32I Base Integer Instruction Set", "M" Extension, "A" Extension).
/// Registers are 0 to 31. Immediates are words, already sign-extended.
#[derive(Clone, Copy)]
pub enum Instruction {
    /// rd, the upper 20 bits
    Lui(u8, u32),
    /// rd, the upper 20 bits
    Auipc(u8, u32),
    /// rd, offset
    Jal(u8, u32),
    /// rd, rs1, offset
    Jalr(u8, u8, u32),

    // rs1, rs2, offset
    Beq(u8, u8, u32),
    Bne(u8, u8, u32),
    Blt(u8, u8, u32),
    Bge(u8, u8, u32),
    Bltu(u8, u8, u32),
    Bgeu(u8, u8, u32),

    // rd, rs1, offset: loads from rs1 plus the offset
    Lb(u8, u8, u32),
    Lh(u8, u8, u32),
    Lw(u8, u8, u32),
    Lbu(u8, u8, u32),
    Lhu(u8, u8, u32),

    // rs1, rs2, offset: stores rs2 at rs1 plus the offset
    Sb(u8, u8, u32),
    Sh(u8, u8, u32),
    Sw(u8, u8, u32),

    // rd, rs1, immediate
    Addi(u8, u8, u32),
    Slti(u8, u8, u32),
    Sltiu(u8, u8, u32),
    Xori(u8, u8, u32),
    Ori(u8, u8, u32),
    Andi(u8, u8, u32),

    // rd, rs1, distance, 0 to 31
    Slli(u8, u8, u8),
    Srli(u8, u8, u8),
    Srai(u8, u8, u8),

    // rd, rs1, rs2
    Add(u8, u8, u8),
    Sub(u8, u8, u8),
    Sll(u8, u8, u8),
    Slt(u8, u8, u8),
    Sltu(u8, u8, u8),
    Xor(u8, u8, u8),
    Srl(u8, u8, u8),
    Sra(u8, u8, u8),
    Or(u8, u8, u8),
    And(u8, u8, u8),
    Mul(u8, u8, u8),
    Mulh(u8, u8, u8),
    Mulhsu(u8, u8, u8),
    Mulhu(u8, u8, u8),
    Div(u8, u8, u8),
    Divu(u8, u8, u8),
    Rem(u8, u8, u8),
    Remu(u8, u8, u8),

    /// The bits 31 to 15 and 11 to 7, which are free: it does nothing
    Fence(u32, u8),
    Ecall,
    Ebreak,

    /// rd, rs1, aq, rl
    LrW(u8, u8, bool, bool),
    // rd, rs1, rs2, aq, rl
    ScW(u8, u8, u8, bool, bool),
    AmoSwapW(u8, u8, u8, bool, bool),
    AmoAddW(u8, u8, u8, bool, bool),
    AmoXorW(u8, u8, u8, bool, bool),
    AmoAndW(u8, u8, u8, bool, bool),
    AmoOrW(u8, u8, u8, bool, bool),
    AmoMinW(u8, u8, u8, bool, bool),
    AmoMaxW(u8, u8, u8, bool, bool),
    AmoMinuW(u8, u8, u8, bool, bool),
    AmoMaxuW(u8, u8, u8, bool, bool),
}
