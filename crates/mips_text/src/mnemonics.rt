//! The mnemonics (names) of instructions and pseudoinstructions, and the search for one by its name.

ghost use Rattle.std.specs.Prelude.{◌≡◌, bytes_eq};
ghost use Rattle.std.specs.List.{find};
ghost use Rattle.mips_text.specs.Names.{mnemonic_named, three_text, shift_text, shift_reg_text, from_text, to_text, mul_div_text, imm_text, two_text, one_text, jump_text, mem_text, zero_text, order_text, mnemonic_text};

use mips_isa::{
    FromOp, ImmOp, JumpOp, MemOp, MulDivOp, OneOp, OrderOp, ShiftOp, ShiftRegOp, ThreeOp, ToOp,
    TwoOp, ZeroOp,
};

/// The first word of a statement that is no directive. It decides which operands follow.
#[derive(Clone, Copy)]
pub(crate) enum Mnemonic {
    Three(ThreeOp),
    Shift(ShiftOp),
    ShiftReg(ShiftRegOp),
    Jr,
    Jalr,
    Syscall,
    MoveFrom(FromOp),
    MoveTo(ToOp),
    MulDiv(MulDivOp),
    Imm(ImmOp),
    Lui,
    BranchTwo(TwoOp),
    BranchOne(OneOp),
    Jump(JumpOp),
    Mem(MemOp),
    La,
    Li,
    Move,
    Neg,
    Nop,
    B,
    BranchZero(ZeroOp),
    BranchOrder(OrderOp),
    Mul,
}

/// The mnemonics that begin with `a`.
static WITH_A: [Mnemonic; 6] = [
    Mnemonic::Three(ThreeOp::Add),
    Mnemonic::Three(ThreeOp::Addu),
    Mnemonic::Three(ThreeOp::And),
    Mnemonic::Imm(ImmOp::Addi),
    Mnemonic::Imm(ImmOp::Addiu),
    Mnemonic::Imm(ImmOp::Andi),
];

/// The mnemonics that begin with `b`.
static WITH_B: [Mnemonic; 13] = [
    Mnemonic::BranchTwo(TwoOp::Beq),
    Mnemonic::BranchTwo(TwoOp::Bne),
    Mnemonic::BranchOne(OneOp::Blez),
    Mnemonic::BranchOne(OneOp::Bgtz),
    Mnemonic::BranchOne(OneOp::Bltz),
    Mnemonic::BranchOne(OneOp::Bgez),
    Mnemonic::B,
    Mnemonic::BranchZero(ZeroOp::Beqz),
    Mnemonic::BranchZero(ZeroOp::Bnez),
    Mnemonic::BranchOrder(OrderOp::Bgt),
    Mnemonic::BranchOrder(OrderOp::Bge),
    Mnemonic::BranchOrder(OrderOp::Blt),
    Mnemonic::BranchOrder(OrderOp::Ble),
];

/// The mnemonics that begin with `d`.
static WITH_D: [Mnemonic; 2] = [
    Mnemonic::MulDiv(MulDivOp::Div),
    Mnemonic::MulDiv(MulDivOp::Divu),
];

/// The mnemonics that begin with `j`.
static WITH_J: [Mnemonic; 4] = [
    Mnemonic::Jr,
    Mnemonic::Jalr,
    Mnemonic::Jump(JumpOp::J),
    Mnemonic::Jump(JumpOp::Jal),
];

/// The mnemonics that begin with `l`.
static WITH_L: [Mnemonic; 8] = [
    Mnemonic::Lui,
    Mnemonic::Mem(MemOp::Lb),
    Mnemonic::Mem(MemOp::Lh),
    Mnemonic::Mem(MemOp::Lw),
    Mnemonic::Mem(MemOp::Lbu),
    Mnemonic::Mem(MemOp::Lhu),
    Mnemonic::La,
    Mnemonic::Li,
];

/// The mnemonics that begin with `m`.
static WITH_M: [Mnemonic; 8] = [
    Mnemonic::MoveFrom(FromOp::Mfhi),
    Mnemonic::MoveFrom(FromOp::Mflo),
    Mnemonic::MoveTo(ToOp::Mthi),
    Mnemonic::MoveTo(ToOp::Mtlo),
    Mnemonic::MulDiv(MulDivOp::Mult),
    Mnemonic::MulDiv(MulDivOp::Multu),
    Mnemonic::Move,
    Mnemonic::Mul,
];

/// The mnemonics that begin with `n`.
static WITH_N: [Mnemonic; 3] = [Mnemonic::Three(ThreeOp::Nor), Mnemonic::Neg, Mnemonic::Nop];

/// The mnemonics that begin with `o`.
static WITH_O: [Mnemonic; 2] = [Mnemonic::Three(ThreeOp::Or), Mnemonic::Imm(ImmOp::Ori)];

/// The mnemonics that begin with `s`.
static WITH_S: [Mnemonic; 16] = [
    Mnemonic::Three(ThreeOp::Sub),
    Mnemonic::Three(ThreeOp::Subu),
    Mnemonic::Three(ThreeOp::Slt),
    Mnemonic::Three(ThreeOp::Sltu),
    Mnemonic::Shift(ShiftOp::Sll),
    Mnemonic::Shift(ShiftOp::Srl),
    Mnemonic::Shift(ShiftOp::Sra),
    Mnemonic::ShiftReg(ShiftRegOp::Sllv),
    Mnemonic::ShiftReg(ShiftRegOp::Srlv),
    Mnemonic::ShiftReg(ShiftRegOp::Srav),
    Mnemonic::Syscall,
    Mnemonic::Imm(ImmOp::Slti),
    Mnemonic::Imm(ImmOp::Sltiu),
    Mnemonic::Mem(MemOp::Sb),
    Mnemonic::Mem(MemOp::Sh),
    Mnemonic::Mem(MemOp::Sw),
];

/// The mnemonics that begin with `x`.
static WITH_X: [Mnemonic; 2] = [Mnemonic::Three(ThreeOp::Xor), Mnemonic::Imm(ImmOp::Xori)];

impl Mnemonic {
    /// The mnemonic of this name.
    pub(crate) fn named(name: &[u8]) -> Option<Mnemonic>
        ensures { result ≡ mnemonic_named name.now }
    {
        match name {
            [b'a', ..] => named_in(&WITH_A, name),
            [b'b', ..] => named_in(&WITH_B, name),
            [b'd', ..] => named_in(&WITH_D, name),
            [b'j', ..] => named_in(&WITH_J, name),
            [b'l', ..] => named_in(&WITH_L, name),
            [b'm', ..] => named_in(&WITH_M, name),
            [b'n', ..] => named_in(&WITH_N, name),
            [b'o', ..] => named_in(&WITH_O, name),
            [b's', ..] => named_in(&WITH_S, name),
            [b'x', ..] => named_in(&WITH_X, name),
            _ => None,
        }
    }

    /// The name.
    pub(crate) fn name(self) -> &'static str
        ensures { result.now ≡ mnemonic_text self }
    {
        match self {
            Mnemonic::Three(op) => three_name(op),
            Mnemonic::Shift(op) => shift_name(op),
            Mnemonic::ShiftReg(op) => shift_reg_name(op),
            Mnemonic::Jr => "jr",
            Mnemonic::Jalr => "jalr",
            Mnemonic::Syscall => "syscall",
            Mnemonic::MoveFrom(op) => from_name(op),
            Mnemonic::MoveTo(op) => to_name(op),
            Mnemonic::MulDiv(op) => mul_div_name(op),
            Mnemonic::Imm(op) => imm_name(op),
            Mnemonic::Lui => "lui",
            Mnemonic::BranchTwo(op) => two_name(op),
            Mnemonic::BranchOne(op) => one_name(op),
            Mnemonic::Jump(op) => jump_name(op),
            Mnemonic::Mem(op) => mem_name(op),
            Mnemonic::La => "la",
            Mnemonic::Li => "li",
            Mnemonic::Move => "move",
            Mnemonic::Neg => "neg",
            Mnemonic::Nop => "nop",
            Mnemonic::B => "b",
            Mnemonic::BranchZero(op) => zero_name(op),
            Mnemonic::BranchOrder(op) => order_name(op),
            Mnemonic::Mul => "mul",
        }
    }
}

/// The first of these mnemonics that has this name.
fn named_in(all: &[Mnemonic], name: &[u8]) -> Option<Mnemonic>
    ensures { result ≡ find (λ mnemonic. bytes_eq (mnemonic_text mnemonic) name.now) all.now }
{
    for mnemonic in all {
        if mnemonic.name().as_bytes() == name {
            return Some(*mnemonic);
        }
    }
    None
}

fn three_name(op: ThreeOp) -> &'static str
    ensures { result.now ≡ three_text op }
{
    match op {
        ThreeOp::Add => "add",
        ThreeOp::Addu => "addu",
        ThreeOp::Sub => "sub",
        ThreeOp::Subu => "subu",
        ThreeOp::And => "and",
        ThreeOp::Or => "or",
        ThreeOp::Xor => "xor",
        ThreeOp::Nor => "nor",
        ThreeOp::Slt => "slt",
        ThreeOp::Sltu => "sltu",
    }
}

fn shift_name(op: ShiftOp) -> &'static str
    ensures { result.now ≡ shift_text op }
{
    match op {
        ShiftOp::Sll => "sll",
        ShiftOp::Srl => "srl",
        ShiftOp::Sra => "sra",
    }
}

fn shift_reg_name(op: ShiftRegOp) -> &'static str
    ensures { result.now ≡ shift_reg_text op }
{
    match op {
        ShiftRegOp::Sllv => "sllv",
        ShiftRegOp::Srlv => "srlv",
        ShiftRegOp::Srav => "srav",
    }
}

fn from_name(op: FromOp) -> &'static str
    ensures { result.now ≡ from_text op }
{
    match op {
        FromOp::Mfhi => "mfhi",
        FromOp::Mflo => "mflo",
    }
}

fn to_name(op: ToOp) -> &'static str
    ensures { result.now ≡ to_text op }
{
    match op {
        ToOp::Mthi => "mthi",
        ToOp::Mtlo => "mtlo",
    }
}

fn mul_div_name(op: MulDivOp) -> &'static str
    ensures { result.now ≡ mul_div_text op }
{
    match op {
        MulDivOp::Mult => "mult",
        MulDivOp::Multu => "multu",
        MulDivOp::Div => "div",
        MulDivOp::Divu => "divu",
    }
}

fn imm_name(op: ImmOp) -> &'static str
    ensures { result.now ≡ imm_text op }
{
    match op {
        ImmOp::Addi => "addi",
        ImmOp::Addiu => "addiu",
        ImmOp::Slti => "slti",
        ImmOp::Sltiu => "sltiu",
        ImmOp::Andi => "andi",
        ImmOp::Ori => "ori",
        ImmOp::Xori => "xori",
    }
}

fn two_name(op: TwoOp) -> &'static str
    ensures { result.now ≡ two_text op }
{
    match op {
        TwoOp::Beq => "beq",
        TwoOp::Bne => "bne",
    }
}

fn one_name(op: OneOp) -> &'static str
    ensures { result.now ≡ one_text op }
{
    match op {
        OneOp::Blez => "blez",
        OneOp::Bgtz => "bgtz",
        OneOp::Bltz => "bltz",
        OneOp::Bgez => "bgez",
    }
}

fn jump_name(op: JumpOp) -> &'static str
    ensures { result.now ≡ jump_text op }
{
    match op {
        JumpOp::J => "j",
        JumpOp::Jal => "jal",
    }
}

fn mem_name(op: MemOp) -> &'static str
    ensures { result.now ≡ mem_text op }
{
    match op {
        MemOp::Lb => "lb",
        MemOp::Lh => "lh",
        MemOp::Lw => "lw",
        MemOp::Lbu => "lbu",
        MemOp::Lhu => "lhu",
        MemOp::Sb => "sb",
        MemOp::Sh => "sh",
        MemOp::Sw => "sw",
    }
}

fn zero_name(op: ZeroOp) -> &'static str
    ensures { result.now ≡ zero_text op }
{
    match op {
        ZeroOp::Beqz => "beqz",
        ZeroOp::Bnez => "bnez",
    }
}

fn order_name(op: OrderOp) -> &'static str
    ensures { result.now ≡ order_text op }
{
    match op {
        OrderOp::Bgt => "bgt",
        OrderOp::Bge => "bge",
        OrderOp::Blt => "blt",
        OrderOp::Ble => "ble",
    }
}
