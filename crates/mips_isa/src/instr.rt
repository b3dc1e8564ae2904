//! The instructions of the integer R2000 (a MIPS processor), as an enum type.

use crate::Reg;

/// Three registers: `add rd, rs, rt`.
#[derive(Clone, Copy)]
pub enum ThreeOp {
    Add,
    Addu,
    Sub,
    Subu,
    And,
    Or,
    Xor,
    Nor,
    Slt,
    Sltu,
}

/// A shift by a number: `sll rd, rt, sh`.
#[derive(Clone, Copy)]
pub enum ShiftOp {
    Sll,
    Srl,
    Sra,
}

/// A shift by a register: `sllv rd, rt, rs`.
#[derive(Clone, Copy)]
pub enum ShiftRegOp {
    Sllv,
    Srlv,
    Srav,
}

/// A move from HI or LO: `mfhi rd`.
#[derive(Clone, Copy)]
pub enum FromOp {
    Mfhi,
    Mflo,
}

/// A move to HI or LO: `mthi rs`.
#[derive(Clone, Copy)]
pub enum ToOp {
    Mthi,
    Mtlo,
}

/// A product or a quotient: `mult rs, rt`.
#[derive(Clone, Copy)]
pub enum MulDivOp {
    Mult,
    Multu,
    Div,
    Divu,
}

/// An operation with an immediate: `addi rt, rs, imm`.
#[derive(Clone, Copy)]
pub enum ImmOp {
    Addi,
    Addiu,
    Slti,
    Sltiu,
    Andi,
    Ori,
    Xori,
}

/// A branch on two registers: `beq rs, rt, target`.
#[derive(Clone, Copy)]
pub enum TwoOp {
    Beq,
    Bne,
}

/// A branch on one register: `blez rs, target`.
#[derive(Clone, Copy)]
pub enum OneOp {
    Blez,
    Bgtz,
    Bltz,
    Bgez,
}

/// A jump: `j target`.
#[derive(Clone, Copy)]
pub enum JumpOp {
    J,
    Jal,
}

/// A load or a store: `lw rt, imm(rs)`.
#[derive(Clone, Copy)]
pub enum MemOp {
    Lb,
    Lh,
    Lw,
    Lbu,
    Lhu,
    Sb,
    Sh,
    Sw,
}

/// An instruction of the integer R2000, one variant for each row of the instruction table.
///
/// Immediates of branches count instructions from the one after the branch. The index of a jump is its target divided
/// by 4, without the upper four bits.
#[derive(Clone, Copy)]
pub enum Instr {
    Three {
        op: ThreeOp,
        rd: Reg,
        rs: Reg,
        rt: Reg,
    },
    Shift {
        op: ShiftOp,
        rd: Reg,
        rt: Reg,
        sh: u32,
    },
    ShiftReg {
        op: ShiftRegOp,
        rd: Reg,
        rt: Reg,
        rs: Reg,
    },
    Jr {
        rs: Reg,
    },
    Jalr {
        rd: Reg,
        rs: Reg,
    },
    Syscall,
    MoveFrom {
        op: FromOp,
        rd: Reg,
    },
    MoveTo {
        op: ToOp,
        rs: Reg,
    },
    MulDiv {
        op: MulDivOp,
        rs: Reg,
        rt: Reg,
    },
    Imm {
        op: ImmOp,
        rt: Reg,
        rs: Reg,
        imm: i32,
    },
    Lui {
        rt: Reg,
        imm: i32,
    },
    BranchTwo {
        op: TwoOp,
        rs: Reg,
        rt: Reg,
        imm: i32,
    },
    BranchOne {
        op: OneOp,
        rs: Reg,
        imm: i32,
    },
    Jump {
        op: JumpOp,
        index: u32,
    },
    Mem {
        op: MemOp,
        rt: Reg,
        rs: Reg,
        imm: i32,
    },
}
