//! The execution of SPIM's system calls: one function for each.

ghost use Rattle.std.specs.Prelude.{◌≡◌, ◌+◌, ◌-◌, ◌%◌, ◌<◌, ◌≤◌, List, ℕ, length, Option, Ok, IfOk, OnOk, OnErr, true, false, ◌++◌, [], ◌∷◌};
ghost use Rattle.std.specs.Fmt.{signed_decimal};
ghost use Rattle.cool_ports.specs.Counts.{Rose};
ghost use Rattle.mips_isa.specs.Bytes.{writable, set_byte};
ghost use Rattle.mips_isa.specs.Machine.{set_register};
ghost use Rattle.mips_isa.specs.Calls as calls;
ghost use Rattle.spim_memory.specs.Memory.{segments, bytes_of};
ghost use Rattle.spim_cpu.specs.Cpu.{core_of};
ghost use Rattle.cool_ports.specs.Taking.{Took, OfAnyInput};
ghost use Rattle.spim_machine.specs.Input.{TookAll, TookSome};
ghost use Rattle.spim_machine.specs.MachineStates.{Keeps};
ghost use Rattle.spim_machine.specs.Puts.{PutIf, call_puts, string_puts};
ghost use Rattle.spim_machine.specs.Ends.{CountedIf, IsResultOf, stores_none, stores_string, call_stores};

use super::Machine;
use crate::Halt;
use crate::input::read_char;
use crate::number::read_number;
use crate::output::put_string;
use cool_ports::{Failed, Sink, Source, next_byte};
use mips_isa::register::{A0, A1, V0};
use mips_isa::system_call::{
    EXIT, EXIT2, PRINT_CHAR, PRINT_INT, PRINT_STRING, READ_CHAR, READ_INT, READ_STRING, SBRK,
};
use mips_isa::{Reg, STACK_END, Trap, TrapKind};

/// The result of `sbrk` if the heap is too small: -1.
const NO_ROOM: u32 = 0xffff_ffff;

impl Machine {
    /// The system call whose number is in `$v0`; pc stands after it.
    ///
    /// `Exit` comes at exit and exit2. `Trap` comes at a number of no call, and at an address that the call may not touch;
    /// then nothing was read or written.
    pub(super) fn call<S: Source, K: Sink>(
        &mut self,
        source: &mut S,
        sink: &mut K,
    ) -> Result<(), Halt>
        ensures took { Took self.old.ended self.new.ended (S.past source.old) (S.past source.new) (S.left source.old) (S.left source.new) }
        ensures does { OfAnyInput (S.past source.old) (S.past source.new) (λ before after. IsResultOf (calls.call (segments self.old.cpu.memory)) call_stores self.old before (K.held sink.old) result self.new after (K.held sink.new)) }
        ensures puts { PutIf result (call_puts (segments self.old.cpu.memory) (core_of self.old.cpu)) (K.puts sink.old) (K.puts sink.new) }
        ensures counts { CountedIf result (S.faults source.old) (S.faults source.new) (K.faults sink.old) (K.faults sink.new) }
        ensures keeps { Keeps self.old self.new }
    {
        match self.v0() {
            PRINT_INT => self.print_int(sink),
            PRINT_STRING => self.print_string(sink),
            READ_INT => self.read_int(source),
            READ_STRING => self.read_string(source),
            SBRK => {
                self.sbrk();
                Ok(())
            }
            EXIT => Err(Halt::Exit(0)),
            PRINT_CHAR => self.print_char(sink),
            READ_CHAR => self.read_char(source),
            EXIT2 => Err(Halt::Exit(self.a0())),
            _ => Err(self.bad_call()),
        }
    }

    /// Puts `$a0` as a signed decimal.
    fn print_int<K: Sink>(&self, sink: &mut K) -> Result<(), Halt>
        ensures does { (left : Option (List ℕ)) → IsResultOf (λ s. calls.print s (signed_decimal (calls.signed (calls.a0 s)))) stores_none self.now left (K.held sink.old) result self.now left (K.held sink.new) }
        ensures puts { PutIf result (signed_decimal (calls.signed ((core_of self.now.cpu).registers A0)) ∷ []) (K.puts sink.old) (K.puts sink.new) }
        ensures counts { CountedIf result 0 0 (K.faults sink.old) (K.faults sink.new) }
    {
        let mut buffer = itoa::Buffer::new();
        let decimal = buffer.format(self.a0().cast_signed());
        match sink.put(decimal.as_bytes()) {
            Ok(()) => Ok(()),
            Err(Failed) => Err(Halt::WriteFault),
        }
    }

    /// Puts the bytes from `$a0` on up to a 0, in pieces of 64 bytes.
    fn print_string<K: Sink>(&self, sink: &mut K) -> Result<(), Halt>
        ensures does { (left : Option (List ℕ)) → IsResultOf (λ s. calls.print_string s (calls.string_at (segments self.now.cpu.memory) s.core.memory (calls.a0 s))) stores_none self.now left (K.held sink.old) result self.now left (K.held sink.new) }
        ensures puts { PutIf result (string_puts (calls.string_at (segments self.now.cpu.memory) (core_of self.now.cpu).memory ((core_of self.now.cpu).registers A0))) (K.puts sink.old) (K.puts sink.new) }
        ensures counts { CountedIf result 0 0 (K.faults sink.old) (K.faults sink.new) }
    {
        let address = self.a0();
        let memory = self.cpu.memory();
        let Some(length) = memory.string_length(address) else {
            return Err(self.bad_address());
        };
        match put_string(memory, address, length, sink) {
            Ok(()) => Ok(()),
            Err(Failed) => Err(Halt::WriteFault),
        }
    }

    /// Puts the low byte of `$a0`.
    fn print_char<K: Sink>(&self, sink: &mut K) -> Result<(), Halt>
        ensures does { (left : Option (List ℕ)) → IsResultOf (λ s. calls.print s (calls.a0 s % 256 ∷ [])) stores_none self.now left (K.held sink.old) result self.now left (K.held sink.new) }
        ensures puts { PutIf result (((core_of self.now.cpu).registers A0 % 256 ∷ []) ∷ []) (K.puts sink.old) (K.puts sink.new) }
        ensures counts { CountedIf result 0 0 (K.faults sink.old) (K.faults sink.new) }
    {
        match sink.put(&[(self.a0() % 0x100) as u8]) {
            Ok(()) => Ok(()),
            Err(Failed) => Err(Halt::WriteFault),
        }
    }

    /// Takes a line; the number at its front goes to `$v0`.
    fn read_int<S: Source>(&mut self, source: &mut S) -> Result<(), Halt>
        ensures took { Took self.old.ended self.new.ended (S.past source.old) (S.past source.new) (S.left source.old) (S.left source.new) }
        ensures does { (held : Option (List ℕ)) → OfAnyInput (S.past source.old) (S.past source.new) (λ before after. IsResultOf (λ s. calls.read_int s (calls.asked_line s.ended s.input)) stores_none self.old before held result self.new after held) }
        ensures counts { CountedIf result (S.faults source.old) (S.faults source.new) 0 0 }
        ensures keeps { Keeps self.old self.new }
    {
        match read_number(&mut self.ended, source) {
            Ok(number) => {
                self.answer(number);
                Ok(())
            }
            Err(Failed) => Err(Halt::ReadFault),
        }
    }

    /// Takes a byte, which goes to `$v0`, or -1 at the end of the input.
    fn read_char<S: Source>(&mut self, source: &mut S) -> Result<(), Halt>
        ensures took { Took self.old.ended self.new.ended (S.past source.old) (S.past source.new) (S.left source.old) (S.left source.new) }
        ensures does { (held : Option (List ℕ)) → OfAnyInput (S.past source.old) (S.past source.new) (λ before after. IsResultOf (λ s. calls.read_char s (calls.asked s.ended 1 s.input)) stores_none self.old before held result self.new after held) }
        ensures counts { CountedIf result (S.faults source.old) (S.faults source.new) 0 0 }
        ensures keeps { Keeps self.old self.new }
    {
        match read_char(&mut self.ended, source) {
            Ok(number) => {
                self.answer(number);
                Ok(())
            }
            Err(Failed) => Err(Halt::ReadFault),
        }
    }

    /// Fills the buffer at `$a0` of `$a1` bytes, of which the last is a 0. Below 1 it does nothing.
    ///
    /// Returns `Trap` if not all of its bytes may be stored.
    fn read_string<S: Source>(&mut self, source: &mut S) -> Result<(), Halt>
        ensures took { Took self.old.ended self.new.ended (S.past source.old) (S.past source.new) (S.left source.old) (S.left source.new) }
        ensures does { (held : Option (List ℕ)) → OfAnyInput (S.past source.old) (S.past source.new) (λ before after. IsResultOf (calls.read_string (segments self.old.cpu.memory)) stores_string self.old before held result self.new after held) }
        ensures counts { CountedIf result (S.faults source.old) (S.faults source.new) 0 0 }
        ensures keeps { Keeps self.old self.new }
    {
        let address = self.a0();
        let size = self.a1();
        if size.cast_signed() < 1 {
            return Ok(());
        }
        if !self.cpu.memory().may_store(address, size) {
            return Err(self.bad_address());
        }
        match self.fill(address, size - 1, source) {
            Ok(()) => Ok(()),
            Err(Failed) => Err(Halt::ReadFault),
        }
    }

    /// Stores at most so many bytes of the input at an address, up to a newline, and a 0 after them.
    ///
    /// `Failed` comes at the first `take` that fails; the bytes before it are stored, without a 0.
    fn fill<S: Source>(&mut self, address: u32, most: u32, source: &mut S) -> Result<(), Failed>
        requires writable { calls.all_writable (segments self.old.cpu.memory) address (most + 1) ≡ true }
        requires below { address + most < STACK_END }
        ensures took { Took self.old.ended self.new.ended (S.past source.old) (S.past source.new) (S.left source.old) (S.left source.new) }
        ensures all { OnOk result (OfAnyInput (S.past source.old) (S.past source.new) (λ before after. (got : List ℕ) × TookAll (calls.asked self.old.ended most) got before self.new.ended after × (core_of self.new.cpu ≡ record (core_of self.old.cpu) { memory = calls.set_bytes (core_of self.old.cpu).memory address (got ++ 0 ∷ []) }))) }
        ensures some { OnErr result (OfAnyInput (S.past source.old) (S.past source.new) (λ before after. (got : List ℕ) × (self.old.ended ≡ false) × (self.new.ended ≡ self.old.ended) × TookSome (calls.asked self.old.ended most) got before after × (core_of self.new.cpu ≡ record (core_of self.old.cpu) { memory = calls.set_bytes (core_of self.old.cpu).memory address got }))) }
        ensures heap_break { self.new.heap_break ≡ self.old.heap_break }
        ensures no_fault { OnOk result (S.faults source.new ≡ S.faults source.old) }
        ensures failed { OnErr result (Rose (S.faults source.old) (S.faults source.new)) }
        ensures keeps { Keeps self.old self.new }
    {
        let end = self.store_line(address, most, source)?;
        self.store(end, 0);
        Ok(())
    }

    /// Stores at most so many bytes of the input at an address, up to a newline, and returns the address after them.
    ///
    /// `Failed` comes at the first `take` that fails; the bytes before it are stored.
    fn store_line<S: Source>(
        &mut self,
        address: u32,
        most: u32,
        source: &mut S,
    ) -> Result<u32, Failed>
        requires writable { calls.all_writable (segments self.old.cpu.memory) address most ≡ true }
        requires below { address + most < STACK_END }
        ensures took { Took self.old.ended self.new.ended (S.past source.old) (S.past source.new) (S.left source.old) (S.left source.new) }
        ensures all { IfOk result (λ end. OfAnyInput (S.past source.old) (S.past source.new) (λ before after. (got : List ℕ) × TookAll (calls.asked self.old.ended most) got before self.new.ended after × (end ≡ address + length got) × (length got ≤ most) × (core_of self.new.cpu ≡ record (core_of self.old.cpu) { memory = calls.set_bytes (core_of self.old.cpu).memory address got }))) }
        ensures some { OnErr result (OfAnyInput (S.past source.old) (S.past source.new) (λ before after. (got : List ℕ) × (self.old.ended ≡ false) × (self.new.ended ≡ self.old.ended) × TookSome (calls.asked self.old.ended most) got before after × (core_of self.new.cpu ≡ record (core_of self.old.cpu) { memory = calls.set_bytes (core_of self.old.cpu).memory address got }))) }
        ensures heap_break { self.new.heap_break ≡ self.old.heap_break }
        ensures no_fault { OnOk result (S.faults source.new ≡ S.faults source.old) }
        ensures failed { OnErr result (Rose (S.faults source.old) (S.faults source.new)) }
        ensures keeps { Keeps self.old self.new }
    {
        for end in address..address + most {
            let Some(byte) = next_byte(&mut self.ended, source)? else {
                return Ok(end);
            };
            self.store(end, byte);
            if byte == b'\n' {
                return Ok(end + 1);
            }
        }
        Ok(address + most)
    }

    /// Stores a byte if it may be stored.
    fn store(&mut self, address: u32, byte: u8)
        requires { writable (segments self.old.cpu.memory) address 1 ≡ true }
        ensures core { core_of self.new.cpu ≡ record (core_of self.old.cpu) { memory = set_byte (core_of self.old.cpu).memory address byte } }
        ensures heap_break { self.new.heap_break ≡ self.old.heap_break }
        ensures ended { self.new.ended ≡ self.old.ended }
        ensures keeps { Keeps self.old self.new }
    {
        match self.cpu.store_byte(address, byte) {
            Ok(()) => {}
            Err(_) => unreachable!(),
        }
    }

    /// Moves the break by `$a0`, and returns the old one in `$v0`; -1 if it would pass the heap's end.
    fn sbrk(&mut self)
        ensures does { (left held : Option (List ℕ)) → IsResultOf (calls.sbrk (segments self.old.cpu.memory)) stores_none self.old left held (Ok tt) self.new left held }
        ensures ended { self.new.ended ≡ self.old.ended }
        ensures keeps { Keeps self.old self.new }
    {
        let old = self.heap_break;
        let heap_end = self.cpu.memory().heap_end();
        match old.checked_add(self.a0()) {
            Some(new) if new <= heap_end => {
                self.heap_break = new;
                self.answer(old);
            }
            _ => self.answer(NO_ROOM),
        }
    }

    /// A call that may not touch the address in `$a0`.
    fn bad_address(&self) -> Halt
        ensures { result ≡ Halt.Trap (record { kind = TrapKind.BadAddress; address = (core_of self.now.cpu).registers A0; pc = self.now.cpu.pc - 4 }) }
    {
        Halt::Trap(Trap {
            kind: TrapKind::BadAddress,
            address: self.a0(),
            pc: self.call_pc(),
        })
    }

    /// A number of no call.
    fn bad_call(&self) -> Halt
        ensures { result ≡ Halt.Trap (record { kind = TrapKind.BadCall; address = self.now.cpu.pc - 4; pc = self.now.cpu.pc - 4 }) }
    {
        Halt::Trap(Trap {
            kind: TrapKind::BadCall,
            address: self.call_pc(),
            pc: self.call_pc(),
        })
    }

    /// The call's number.
    fn v0(&self) -> u32
        ensures { result ≡ (core_of self.now.cpu).registers V0 }
    {
        self.cpu.register(Reg::new(V0))
    }

    /// The call's first argument.
    fn a0(&self) -> u32
        ensures { result ≡ (core_of self.now.cpu).registers A0 }
    {
        self.cpu.register(Reg::new(A0))
    }

    /// The call's second argument.
    fn a1(&self) -> u32
        ensures { result ≡ (core_of self.now.cpu).registers A1 }
    {
        self.cpu.register(Reg::new(A1))
    }

    /// Puts the call's answer into `$v0`.
    fn answer(&mut self, v: u32)
        ensures core { core_of self.new.cpu ≡ record (core_of self.old.cpu) { registers = set_register (core_of self.old.cpu).registers V0 v } }
        ensures heap_break { self.new.heap_break ≡ self.old.heap_break }
        ensures ended { self.new.ended ≡ self.old.ended }
        ensures keeps { Keeps self.old self.new }
    {
        self.cpu.set_register(Reg::new(V0), v);
    }

    /// The address of the call, after which pc stands.
    fn call_pc(&self) -> u32
        ensures { result ≡ self.now.cpu.pc - 4 }
    {
        self.cpu.pc().saturating_sub(4)
    }
}
