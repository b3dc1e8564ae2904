//! The execution of one decoded operation, with a case for each instruction of the integer R2000.

ghost use Rattle.std.specs.Prelude.{◌≡◌, ◌<◌, IfSome};
ghost use Rattle.mips_isa.specs.declared.instr.Instr.TheVariants as instr;
ghost use Rattle.mips_isa.specs.Words.{InRange};
ghost use Rattle.mips_isa.specs.Machine as machine;
ghost use Rattle.spim_memory.specs.Memory.{segments};
ghost use Rattle.spim_memory.specs.Operations.{instr_of};
ghost use Rattle.spim_cpu.specs.Cpu.{core_of, KeepsSegments, moved_to};
ghost use Rattle.spim_cpu.specs.Advancing.{Acted, at};

use crate::arithmetic::{
    branch_target, division, imm_result, jump_target, one_result, place_of_access, product,
    shift_result, signed_division, signed_product, three_result, two_result,
};
use crate::{Cpu, Step};
use mips_isa::register::RA;
use mips_isa::{
    DATA_START, FromOp, ImmOp, MemOp, MulDivOp, OneOp, ShiftOp, ThreeOp, ToOp, Trap, TrapKind,
    TwoOp,
};
use spim_memory::Operation;

impl Cpu {
    /// Executes the operation at pc, and returns the next pc. Returns `Err` if it is a system call, or traps, which changes nothing.
    ///
    /// One case for each operation of the instruction table. `C` only names the caller, so that each instance has just one: that of a loop of `advance` is
    /// compiled into it, and its answers stay in the processor's registers.
    #[inline(always)]
    pub(super) fn operate<C>(&mut self, operation: &Operation, pc: u32) -> Result<u32, Step>
        requires range { IfSome (instr_of operation.now) InRange }
        requires pc { pc < DATA_START }
        ensures acted { Acted pc (machine.act_or_none (segments self.old.memory) (instr_of operation.now) (at pc (core_of self.old))) result self.old self.new }
        ensures segments { KeepsSegments self.old.memory self.new.memory }
    {
        match *operation {
            Operation::Unknown => Err(Step::Trap(Trap {
                kind: TrapKind::NoInstruction,
                address: pc,
                pc,
            })),
            Operation::Add { rd, rs, rt } => self.put_or_overflow(
                rd,
                three_result(ThreeOp::Add, self.read(rs), self.read(rt)),
                pc,
            ),
            Operation::Addu { rd, rs, rt } => self.put_or_overflow(
                rd,
                three_result(ThreeOp::Addu, self.read(rs), self.read(rt)),
                pc,
            ),
            Operation::Sub { rd, rs, rt } => self.put_or_overflow(
                rd,
                three_result(ThreeOp::Sub, self.read(rs), self.read(rt)),
                pc,
            ),
            Operation::Subu { rd, rs, rt } => self.put_or_overflow(
                rd,
                three_result(ThreeOp::Subu, self.read(rs), self.read(rt)),
                pc,
            ),
            Operation::And { rd, rs, rt } => self.put_or_overflow(
                rd,
                three_result(ThreeOp::And, self.read(rs), self.read(rt)),
                pc,
            ),
            Operation::Or { rd, rs, rt } => self.put_or_overflow(
                rd,
                three_result(ThreeOp::Or, self.read(rs), self.read(rt)),
                pc,
            ),
            Operation::Xor { rd, rs, rt } => self.put_or_overflow(
                rd,
                three_result(ThreeOp::Xor, self.read(rs), self.read(rt)),
                pc,
            ),
            Operation::Nor { rd, rs, rt } => self.put_or_overflow(
                rd,
                three_result(ThreeOp::Nor, self.read(rs), self.read(rt)),
                pc,
            ),
            Operation::Slt { rd, rs, rt } => self.put_or_overflow(
                rd,
                three_result(ThreeOp::Slt, self.read(rs), self.read(rt)),
                pc,
            ),
            Operation::Sltu { rd, rs, rt } => self.put_or_overflow(
                rd,
                three_result(ThreeOp::Sltu, self.read(rs), self.read(rt)),
                pc,
            ),
            Operation::Sll { rd, rt, sh } => self.put(
                rd,
                shift_result(ShiftOp::Sll, self.read(rt), u32::from(sh)),
                pc,
            ),
            Operation::Srl { rd, rt, sh } => self.put(
                rd,
                shift_result(ShiftOp::Srl, self.read(rt), u32::from(sh)),
                pc,
            ),
            Operation::Sra { rd, rt, sh } => self.put(
                rd,
                shift_result(ShiftOp::Sra, self.read(rt), u32::from(sh)),
                pc,
            ),
            Operation::Sllv { rd, rt, rs } => self.put(
                rd,
                shift_result(ShiftOp::Sll, self.read(rt), self.read(rs) % 32),
                pc,
            ),
            Operation::Srlv { rd, rt, rs } => self.put(
                rd,
                shift_result(ShiftOp::Srl, self.read(rt), self.read(rs) % 32),
                pc,
            ),
            Operation::Srav { rd, rt, rs } => self.put(
                rd,
                shift_result(ShiftOp::Sra, self.read(rt), self.read(rs) % 32),
                pc,
            ),
            Operation::Jr { rs } => Ok(self.read(rs)),
            Operation::Jalr { rd, rs } => self.go_with_return(rd, self.read(rs), pc),
            Operation::Syscall => Err(Step::Call),
            Operation::Mfhi { rd } => self.move_from(FromOp::Mfhi, rd, pc),
            Operation::Mflo { rd } => self.move_from(FromOp::Mflo, rd, pc),
            Operation::Mthi { rs } => self.move_to(ToOp::Mthi, self.read(rs), pc),
            Operation::Mtlo { rs } => self.move_to(ToOp::Mtlo, self.read(rs), pc),
            Operation::Mult { rs, rt } => self.mul_div(
                MulDivOp::Mult,
                self.read(rs),
                self.read(rt),
                pc,
            ),
            Operation::Multu { rs, rt } => self.mul_div(
                MulDivOp::Multu,
                self.read(rs),
                self.read(rt),
                pc,
            ),
            Operation::Div { rs, rt } => self.mul_div(
                MulDivOp::Div,
                self.read(rs),
                self.read(rt),
                pc,
            ),
            Operation::Divu { rs, rt } => self.mul_div(
                MulDivOp::Divu,
                self.read(rs),
                self.read(rt),
                pc,
            ),
            Operation::Addi { rt, rs, imm } => self.put_or_overflow(
                rt,
                imm_result(ImmOp::Addi, self.read(rs), i32::from(imm).cast_unsigned()),
                pc,
            ),
            Operation::Addiu { rt, rs, imm } => self.put_or_overflow(
                rt,
                imm_result(ImmOp::Addiu, self.read(rs), i32::from(imm).cast_unsigned()),
                pc,
            ),
            Operation::Slti { rt, rs, imm } => self.put_or_overflow(
                rt,
                imm_result(ImmOp::Slti, self.read(rs), i32::from(imm).cast_unsigned()),
                pc,
            ),
            Operation::Sltiu { rt, rs, imm } => self.put_or_overflow(
                rt,
                imm_result(ImmOp::Sltiu, self.read(rs), i32::from(imm).cast_unsigned()),
                pc,
            ),
            Operation::Andi { rt, rs, imm } => self.put_or_overflow(
                rt,
                imm_result(ImmOp::Andi, self.read(rs), u32::from(imm)),
                pc,
            ),
            Operation::Ori { rt, rs, imm } => self.put_or_overflow(
                rt,
                imm_result(ImmOp::Ori, self.read(rs), u32::from(imm)),
                pc,
            ),
            Operation::Xori { rt, rs, imm } => self.put_or_overflow(
                rt,
                imm_result(ImmOp::Xori, self.read(rs), u32::from(imm)),
                pc,
            ),
            Operation::Lui { rt, imm } => self.put(rt, u32::from(imm) << 16, pc),
            Operation::Beq { rs, rt, imm } => self.branch(
                two_result(TwoOp::Beq, self.read(rs), self.read(rt)),
                i32::from(imm),
                pc,
            ),
            Operation::Bne { rs, rt, imm } => self.branch(
                two_result(TwoOp::Bne, self.read(rs), self.read(rt)),
                i32::from(imm),
                pc,
            ),
            Operation::Blez { rs, imm } => self.branch(
                one_result(OneOp::Blez, self.read(rs)),
                i32::from(imm),
                pc,
            ),
            Operation::Bgtz { rs, imm } => self.branch(
                one_result(OneOp::Bgtz, self.read(rs)),
                i32::from(imm),
                pc,
            ),
            Operation::Bltz { rs, imm } => self.branch(
                one_result(OneOp::Bltz, self.read(rs)),
                i32::from(imm),
                pc,
            ),
            Operation::Bgez { rs, imm } => self.branch(
                one_result(OneOp::Bgez, self.read(rs)),
                i32::from(imm),
                pc,
            ),
            Operation::J { index } => Ok(jump_target(pc, index)),
            Operation::Jal { index } => self.go_with_return(RA as u8, jump_target(pc, index), pc),
            Operation::Lb { rt, rs, imm } => self.access(
                MemOp::Lb,
                rt,
                place_of_access(self.read(rs), i32::from(imm)),
                pc,
            ),
            Operation::Lh { rt, rs, imm } => self.access(
                MemOp::Lh,
                rt,
                place_of_access(self.read(rs), i32::from(imm)),
                pc,
            ),
            Operation::Lw { rt, rs, imm } => self.access(
                MemOp::Lw,
                rt,
                place_of_access(self.read(rs), i32::from(imm)),
                pc,
            ),
            Operation::Lbu { rt, rs, imm } => self.access(
                MemOp::Lbu,
                rt,
                place_of_access(self.read(rs), i32::from(imm)),
                pc,
            ),
            Operation::Lhu { rt, rs, imm } => self.access(
                MemOp::Lhu,
                rt,
                place_of_access(self.read(rs), i32::from(imm)),
                pc,
            ),
            Operation::Sb { rt, rs, imm } => self.access(
                MemOp::Sb,
                rt,
                place_of_access(self.read(rs), i32::from(imm)),
                pc,
            ),
            Operation::Sh { rt, rs, imm } => self.access(
                MemOp::Sh,
                rt,
                place_of_access(self.read(rs), i32::from(imm)),
                pc,
            ),
            Operation::Sw { rt, rs, imm } => self.access(
                MemOp::Sw,
                rt,
                place_of_access(self.read(rs), i32::from(imm)),
                pc,
            ),
        }
    }

    /// The value of a register.
    #[inline(always)]
    pub(super) fn read(&self, r: u8) -> u32
        requires { r < 32 }
        ensures { result ≡ (core_of self.now).registers r }
    {
        self.registers[r as usize]
    }

    /// Puts a result, and goes on. `$zero` is written, and then is 0 again.
    #[inline(always)]
    pub(super) fn put(&mut self, r: u8, v: u32, pc: u32) -> Result<u32, Step>
        requires r { r < 32 }
        requires pc { pc < DATA_START }
        ensures acted { Acted pc (machine.put (at pc (core_of self.old)) r v) result self.old self.new }
        ensures segments { KeepsSegments self.old.memory self.new.memory }
    {
        self.write(r, v);
        Ok(pc + 4)
    }

    /// Puts a number into a register. `$zero` is written, and then is 0 again.
    #[inline(always)]
    fn write(&mut self, r: u8, v: u32)
        requires r { r < 32 }
        ensures core { core_of self.new ≡ record (core_of self.old) { registers = machine.set_register (core_of self.old).registers r v } }
        ensures memory { self.new.memory ≡ self.old.memory }
    {
        self.registers[r as usize] = v;
        self.registers[0] = 0;
    }

    #[inline(always)]
    fn put_or_overflow(&mut self, r: u8, answer: Option<u32>, pc: u32) -> Result<u32, Step>
        requires r { r < 32 }
        requires pc { pc < DATA_START }
        ensures acted { Acted pc (machine.put_or_overflow (at pc (core_of self.old)) r answer) result self.old self.new }
        ensures segments { KeepsSegments self.old.memory self.new.memory }
    {
        match answer {
            Some(v) => self.put(r, v, pc),
            None => Err(Step::Trap(Trap {
                kind: TrapKind::Overflow,
                address: pc,
                pc,
            })),
        }
    }

    #[inline(always)]
    fn go_with_return(&mut self, r: u8, a: u32, pc: u32) -> Result<u32, Step>
        requires r { r < 32 }
        requires pc { pc < DATA_START }
        ensures acted { Acted pc (machine.go_to_with_return (at pc (core_of self.old)) r a) result self.old self.new }
        ensures segments { KeepsSegments self.old.memory self.new.memory }
    {
        self.write(r, pc + 4);
        Ok(a)
    }

    #[inline(always)]
    fn branch(&mut self, taken: bool, imm: i32, pc: u32) -> Result<u32, Step>
        requires { pc < DATA_START }
        ensures acted { Acted pc (machine.branch (at pc (core_of self.old)) taken imm) result self.old self.new }
        ensures segments { KeepsSegments self.old.memory self.new.memory }
    {
        if taken {
            Ok(branch_target(pc, imm))
        } else {
            Ok(pc + 4)
        }
    }

    #[inline(always)]
    fn move_from(&mut self, op: FromOp, r: u8, pc: u32) -> Result<u32, Step>
        requires r { r < 32 }
        requires pc { pc < DATA_START }
        ensures acted { Acted pc (machine.act (segments self.old.memory) (instr.MoveFrom op r) (at pc (core_of self.old))) result self.old self.new }
        ensures segments { KeepsSegments self.old.memory self.new.memory }
    {
        match op {
            FromOp::Mfhi => self.put(r, self.hi, pc),
            FromOp::Mflo => self.put(r, self.lo, pc),
        }
    }

    #[inline(always)]
    fn put_hi_lo(&mut self, hi: u32, lo: u32, pc: u32) -> Result<u32, Step>
        requires { pc < DATA_START }
        ensures acted { Acted pc (machine.put_hi_lo (at pc (core_of self.old)) hi lo) result self.old self.new }
        ensures segments { KeepsSegments self.old.memory self.new.memory }
    {
        self.hi = hi;
        self.lo = lo;
        Ok(pc + 4)
    }

    #[inline(always)]
    fn move_to(&mut self, op: ToOp, v: u32, pc: u32) -> Result<u32, Step>
        requires { pc < DATA_START }
        ensures acted { Acted pc (moved_to op (at pc (core_of self.old)) v) result self.old self.new }
        ensures segments { KeepsSegments self.old.memory self.new.memory }
    {
        match op {
            ToOp::Mthi => self.put_hi_lo(v, self.lo, pc),
            ToOp::Mtlo => self.put_hi_lo(self.hi, v, pc),
        }
    }

    /// A divisor 0 leaves HI and LO.
    #[inline(always)]
    fn mul_div(&mut self, op: MulDivOp, a: u32, b: u32, pc: u32) -> Result<u32, Step>
        requires { pc < DATA_START }
        ensures acted { Acted pc (machine.mul_div op (at pc (core_of self.old)) a b) result self.old self.new }
        ensures segments { KeepsSegments self.old.memory self.new.memory }
    {
        match op {
            MulDivOp::Mult => {
                let result = signed_product(a, b);
                self.put_hi_lo(result.hi, result.lo, pc)
            }
            MulDivOp::Multu => {
                let result = product(a, b);
                self.put_hi_lo(result.hi, result.lo, pc)
            }
            MulDivOp::Div => {
                if b == 0 {
                    return self.put_hi_lo(self.hi, self.lo, pc);
                }
                let result = signed_division(a, b);
                self.put_hi_lo(result.hi, result.lo, pc)
            }
            MulDivOp::Divu => {
                if b == 0 {
                    return self.put_hi_lo(self.hi, self.lo, pc);
                }
                let result = division(a, b);
                self.put_hi_lo(result.hi, result.lo, pc)
            }
        }
    }
}
