//! The execution of the instructions that load and store.

ghost use Rattle.std.specs.Prelude.{◌≡◌, ◌<◌, OnOk, OnErr};
ghost use Rattle.mips_isa.specs.Bytes.{writable, set_byte};
ghost use Rattle.mips_isa.specs.Machine as machine;
ghost use Rattle.spim_memory.specs.Memory.{segments, accessed};
ghost use Rattle.spim_cpu.specs.Cpu.{core_of, trap_of, KeepsSegments, put_loaded};
ghost use Rattle.spim_cpu.specs.Advancing.{Acted, at};

use crate::arithmetic::{signed_byte, signed_half};
use crate::{Cpu, Step};
use mips_isa::{DATA_START, MemOp, Trap, TrapKind};
use spim_memory::MemFault;

/// The trap of an access that may not be, by the instruction at `pc`.
pub(crate) fn trap_of(fault: MemFault, pc: u32) -> Trap
    ensures { result ≡ trap_of fault pc }
{
    match fault {
        MemFault::Unaligned(address) => Trap {
            kind: TrapKind::Unaligned,
            address,
            pc,
        },
        MemFault::BadAddress(address) => Trap {
            kind: TrapKind::BadAddress,
            address,
            pc,
        },
    }
}

impl Cpu {
    /// Stores a byte, as a system call does. Returns `BadAddress` if no data, heap or stack is there, and then nothing changes.
    pub fn store_byte(&mut self, a: u32, v: u8) -> Result<(), MemFault>
        ensures answer { result ≡ accessed 1 (writable (segments self.old.memory) a 1) a tt }
        ensures stored { OnOk result (core_of self.new ≡ record (core_of self.old) { memory = set_byte (core_of self.old).memory a v }) }
        ensures kept { OnErr result (self.new ≡ self.old) }
        ensures segments { KeepsSegments self.old.memory self.new.memory }
    {
        self.memory.store_byte(a, v)
    }

    /// A load into a register, or a store of one, at an address.
    #[inline(always)]
    pub(super) fn access(&mut self, op: MemOp, r: u8, a: u32, pc: u32) -> Result<u32, Step>
        requires r { r < 32 }
        requires pc { pc < DATA_START }
        ensures acted { Acted pc (machine.mem (segments self.old.memory) op (at pc (core_of self.old)) r a) result self.old self.new }
        ensures segments { KeepsSegments self.old.memory self.new.memory }
    {
        match op {
            MemOp::Lb => {
                let loaded = self.memory.load_byte(a).map(signed_byte);
                self.put_loaded(r, loaded, pc)
            }
            MemOp::Lh => {
                let loaded = self.memory.load_half(a).map(signed_half);
                self.put_loaded(r, loaded, pc)
            }
            MemOp::Lw => {
                let loaded = self.memory.load_word(a);
                self.put_loaded(r, loaded, pc)
            }
            MemOp::Lbu => {
                let loaded = self.memory.load_byte(a).map(u32::from);
                self.put_loaded(r, loaded, pc)
            }
            MemOp::Lhu => {
                let loaded = self.memory.load_half(a).map(u32::from);
                self.put_loaded(r, loaded, pc)
            }
            MemOp::Sb => self.execute_sb(r, a, pc),
            MemOp::Sh => self.execute_sh(r, a, pc),
            MemOp::Sw => self.execute_sw(r, a, pc),
        }
    }

    #[inline(always)]
    fn put_loaded(&mut self, r: u8, loaded: Result<u32, MemFault>, pc: u32) -> Result<u32, Step>
        requires r { r < 32 }
        requires pc { pc < DATA_START }
        ensures acted { Acted pc (put_loaded (at pc (core_of self.old)) r loaded) result self.old self.new }
        ensures segments { KeepsSegments self.old.memory self.new.memory }
    {
        match loaded {
            Ok(v) => self.put(r, v, pc),
            Err(fault) => Err(Step::Trap(trap_of(fault, pc))),
        }
    }

    #[inline(always)]
    fn execute_sb(&mut self, r: u8, a: u32, pc: u32) -> Result<u32, Step>
        requires r { r < 32 }
        requires pc { pc < DATA_START }
        ensures acted { Acted pc (machine.mem (segments self.old.memory) MemOp.Sb (at pc (core_of self.old)) r a) result self.old self.new }
        ensures segments { KeepsSegments self.old.memory self.new.memory }
    {
        let v = self.read(r);
        match self.memory.store_byte(a, (v & 0xff) as u8) {
            Ok(()) => Ok(pc + 4),
            Err(fault) => Err(Step::Trap(trap_of(fault, pc))),
        }
    }

    #[inline(always)]
    fn execute_sh(&mut self, r: u8, a: u32, pc: u32) -> Result<u32, Step>
        requires r { r < 32 }
        requires pc { pc < DATA_START }
        ensures acted { Acted pc (machine.mem (segments self.old.memory) MemOp.Sh (at pc (core_of self.old)) r a) result self.old self.new }
        ensures segments { KeepsSegments self.old.memory self.new.memory }
    {
        let v = self.read(r);
        match self.memory.store_half(a, (v & 0xffff) as u16) {
            Ok(()) => Ok(pc + 4),
            Err(fault) => Err(Step::Trap(trap_of(fault, pc))),
        }
    }

    #[inline(always)]
    fn execute_sw(&mut self, r: u8, a: u32, pc: u32) -> Result<u32, Step>
        requires r { r < 32 }
        requires pc { pc < DATA_START }
        ensures acted { Acted pc (machine.mem (segments self.old.memory) MemOp.Sw (at pc (core_of self.old)) r a) result self.old self.new }
        ensures segments { KeepsSegments self.old.memory self.new.memory }
    {
        let v = self.read(r);
        match self.memory.store_word(a, v) {
            Ok(()) => Ok(pc + 4),
            Err(fault) => Err(Step::Trap(trap_of(fault, pc))),
        }
    }
}
