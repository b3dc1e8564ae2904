//! Decoding 32-bit machine words into instructions.

ghost use Rattle.std.specs.Prelude.{◌≡◌, ◌<◌, ◌==◌, IfSome, IfNone, Some};
ghost use Rattle.mips_isa.specs.declared.instr.Instr.{Instr};
ghost use Rattle.mips_isa.specs.Words.{word_of, InRange};
ghost use Rattle.mips_isa.specs.Decoding.{decoded, row, special_at, other_special_at, three_at, shift_at, shift_reg_at, immediate_at, branch_at, imm_at, mem_at, immediate, signed_half, unless_named};

use crate::{
    FromOp, ImmOp, Instr, JumpOp, MemOp, MulDivOp, OneOp, Reg, ShiftOp, ShiftRegOp, ThreeOp, ToOp,
    TwoOp,
};

/// The instruction of a word, by the R2000's table of integer instructions (MIPS I). There is none exactly if the word is of no row, a field that the row
/// does not name being another than 0 included.
#[tactic(auto, unfolding(crate::specs::Decoding::decoded))]
pub fn decode(word: u32) -> Option<Instr>
    ensures found { IfSome result (λ i. InRange i × (word_of i ≡ word)) }
    ensures none { IfNone result ((i : Instr) → InRange i → word_of i ≡ word → ⊥) }
    // The instruction that was encoded is found again.
    ensures only { (i : Instr) → InRange i → word_of i ≡ word → result ≡ Some i }
    ensures value { result ≡ decoded word }
{
    by_fields(Fields {
        op: word >> 26,
        rs: Reg::new(word >> 21 & 31),
        rt: Reg::new(word >> 16 & 31),
        rd: Reg::new(word >> 11 & 31),
        sh: word >> 6 & 31,
        function: word & 63,
        imm: (word & 0xffff) as u16,
        index: word & 0x3ff_ffff,
    })
}

/// The fields of a word.
#[derive(Clone, Copy)]
struct Fields {
    op: u32,
    rs: Reg,
    rt: Reg,
    rd: Reg,
    sh: u32,
    function: u32,
    imm: u16,
    index: u32,
}

/// The instruction of a word with these fields.
fn by_fields(f: Fields) -> Option<Instr>
    ensures { result ≡ row f.op f.rs f.rt f.rd f.sh f.function f.imm f.index }
{
    match f.op {
        0 => special(f.rs, f.rt, f.rd, f.sh, f.function),
        2 => Some(Instr::Jump {
            op: JumpOp::J,
            index: f.index,
        }),
        3 => Some(Instr::Jump {
            op: JumpOp::Jal,
            index: f.index,
        }),
        op => with_immediate(op, f.rs, f.rt, f.imm),
    }
}

/// An instruction with op 0.
fn special(rs: Reg, rt: Reg, rd: Reg, sh: u32, function: u32) -> Option<Instr>
    ensures { result ≡ special_at rs rt rd sh function }
{
    if let Some(op) = three_op(function) {
        return (sh == 0).then_some(Instr::Three { op, rd, rs, rt });
    }
    if let Some(op) = shift_op(function) {
        return (rs.number() == 0).then_some(Instr::Shift { op, rd, rt, sh });
    }
    if let Some(op) = shift_reg_op(function) {
        return (sh == 0).then_some(Instr::ShiftReg { op, rd, rt, rs });
    }
    other_special(rs, rt, rd, sh, function)
}

/// A jump by register, a system call, or an instruction on HI and LO.
fn other_special(rs: Reg, rt: Reg, rd: Reg, sh: u32, function: u32) -> Option<Instr>
    ensures { result ≡ other_special_at rs rt rd sh function }
{
    let no_rs = rs.number() == 0;
    let no_rt = rt.number() == 0;
    let no_rd = rd.number() == 0;
    let no_sh = sh == 0;
    match function {
        8 => (no_rt && no_rd && no_sh).then_some(Instr::Jr { rs }),
        9 => (no_rt && no_sh).then_some(Instr::Jalr { rd, rs }),
        12 => (no_rs && no_rt && no_rd && no_sh).then_some(Instr::Syscall),
        16 => (no_rs && no_rt && no_sh).then_some(Instr::MoveFrom {
            op: FromOp::Mfhi,
            rd,
        }),
        18 => (no_rs && no_rt && no_sh).then_some(Instr::MoveFrom {
            op: FromOp::Mflo,
            rd,
        }),
        17 => (no_rt && no_rd && no_sh).then_some(Instr::MoveTo { op: ToOp::Mthi, rs }),
        19 => (no_rt && no_rd && no_sh).then_some(Instr::MoveTo { op: ToOp::Mtlo, rs }),
        24 => (no_rd && no_sh).then_some(Instr::MulDiv {
            op: MulDivOp::Mult,
            rs,
            rt,
        }),
        25 => (no_rd && no_sh).then_some(Instr::MulDiv {
            op: MulDivOp::Multu,
            rs,
            rt,
        }),
        26 => (no_rd && no_sh).then_some(Instr::MulDiv {
            op: MulDivOp::Div,
            rs,
            rt,
        }),
        27 => (no_rd && no_sh).then_some(Instr::MulDiv {
            op: MulDivOp::Divu,
            rs,
            rt,
        }),
        _ => None,
    }
}

/// An instruction with an immediate of 16 bits.
fn with_immediate(op: u32, rs: Reg, rt: Reg, imm: u16) -> Option<Instr>
    ensures { result ≡ immediate_at op rs rt imm }
{
    if let Some(op) = imm_op(op) {
        let imm = extended(op, imm);
        return Some(Instr::Imm { op, rt, rs, imm });
    }
    if let Some(op) = mem_op(op) {
        let imm = sign_extended(imm);
        return Some(Instr::Mem { op, rt, rs, imm });
    }
    branch(op, rs, rt, imm)
}

/// A branch, or `lui`.
fn branch(op: u32, rs: Reg, rt: Reg, half: u16) -> Option<Instr>
    ensures { result ≡ branch_at op rs rt half }
{
    let imm = sign_extended(half);
    match (op, rt.number()) {
        (4, _) => Some(Instr::BranchTwo {
            op: TwoOp::Beq,
            rs,
            rt,
            imm,
        }),
        (5, _) => Some(Instr::BranchTwo {
            op: TwoOp::Bne,
            rs,
            rt,
            imm,
        }),
        (6, 0) => Some(Instr::BranchOne {
            op: OneOp::Blez,
            rs,
            imm,
        }),
        (7, 0) => Some(Instr::BranchOne {
            op: OneOp::Bgtz,
            rs,
            imm,
        }),
        (1, 0) => Some(Instr::BranchOne {
            op: OneOp::Bltz,
            rs,
            imm,
        }),
        (1, 1) => Some(Instr::BranchOne {
            op: OneOp::Bgez,
            rs,
            imm,
        }),
        (15, _) if rs.number() == 0 => Some(Instr::Lui {
            rt,
            imm: i32::from(half),
        }),
        _ => None,
    }
}

/// The immediate as the operation extends it: by its sign, or by zeros.
fn extended(op: ImmOp, half: u16) -> i32
    ensures { result ≡ immediate op half }
{
    match op {
        ImmOp::Addi | ImmOp::Addiu | ImmOp::Slti | ImmOp::Sltiu => sign_extended(half),
        ImmOp::Andi | ImmOp::Ori | ImmOp::Xori => i32::from(half),
    }
}

fn sign_extended(half: u16) -> i32
    ensures { result ≡ signed_half half }
{
    i32::from(half.cast_signed())
}

fn three_op(function: u32) -> Option<ThreeOp>
    ensures { result ≡ three_at function }
{
    match function {
        32 => Some(ThreeOp::Add),
        33 => Some(ThreeOp::Addu),
        34 => Some(ThreeOp::Sub),
        35 => Some(ThreeOp::Subu),
        36 => Some(ThreeOp::And),
        37 => Some(ThreeOp::Or),
        38 => Some(ThreeOp::Xor),
        39 => Some(ThreeOp::Nor),
        42 => Some(ThreeOp::Slt),
        43 => Some(ThreeOp::Sltu),
        _ => None,
    }
}

fn shift_op(function: u32) -> Option<ShiftOp>
    ensures { result ≡ shift_at function }
{
    match function {
        0 => Some(ShiftOp::Sll),
        2 => Some(ShiftOp::Srl),
        3 => Some(ShiftOp::Sra),
        _ => None,
    }
}

fn shift_reg_op(function: u32) -> Option<ShiftRegOp>
    ensures { result ≡ shift_reg_at function }
{
    match function {
        4 => Some(ShiftRegOp::Sllv),
        6 => Some(ShiftRegOp::Srlv),
        7 => Some(ShiftRegOp::Srav),
        _ => None,
    }
}

fn imm_op(op: u32) -> Option<ImmOp>
    ensures { result ≡ imm_at op }
{
    match op {
        8 => Some(ImmOp::Addi),
        9 => Some(ImmOp::Addiu),
        10 => Some(ImmOp::Slti),
        11 => Some(ImmOp::Sltiu),
        12 => Some(ImmOp::Andi),
        13 => Some(ImmOp::Ori),
        14 => Some(ImmOp::Xori),
        _ => None,
    }
}

fn mem_op(op: u32) -> Option<MemOp>
    ensures { result ≡ mem_at op }
{
    match op {
        32 => Some(MemOp::Lb),
        33 => Some(MemOp::Lh),
        35 => Some(MemOp::Lw),
        36 => Some(MemOp::Lbu),
        37 => Some(MemOp::Lhu),
        40 => Some(MemOp::Sb),
        41 => Some(MemOp::Sh),
        43 => Some(MemOp::Sw),
        _ => None,
    }
}
