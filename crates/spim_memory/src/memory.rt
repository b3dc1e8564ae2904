//! The memory of a machine (text, data, heap and stack), and its loads and stores.

ghost use Rattle.std.specs.Prelude.{◌≡◌, ◌<◌, ◌≤◌, length, replicate, Ok, Err, IfOk, IfErr, IfSome, OnOk, OnErr};
ghost use Rattle.mips_isa.specs.declared.address_map.TheConstants.{MOST_TEXT_WORDS};
ghost use Rattle.mips_isa.specs.Words.{InRange};
ghost use Rattle.mips_isa.specs.Decoding.{decoded};
ghost use Rattle.mips_isa.specs.Bytes.{half, word, set_byte, set_half, set_word, readable, writable, lies, segments_of, bytes_of_image};
ghost use Rattle.mips_isa.specs.Machine.{word_of_text};
ghost use Rattle.spim_memory.specs.Memory.{segments, bytes_of, accessed, IsLimits};
ghost use Rattle.spim_memory.specs.Operations.{instr_of, AreOf};
ghost use Rattle.spim_memory.specs.Places.{IsPlace, IsTextWord, IsTextFrom, whole_words};

mod strings;

use crate::heap_bytes::HeapBytes;
use crate::little_endian::{read_half, read_word, write_half, write_word};
use crate::operation::operation_of;
use crate::stack_bytes::StackBytes;
use crate::{Limits, MemFault, Operation};
use mips_isa::{DATA_START, HEAP_START, Image, Instr, STACK_END, TEXT_START, decode};
use std::alloc::{AllocError, Global};
use std::marker::Model;
use std::mem::replace;

/// The segments: text that is only read, and bytes of data, heap and stack. Heap and stack are zeros that take no time before
/// they are written.
///
/// The operations are those of the words of the text, in their order, or none while they are taken out.
#[derive(Drop)]
pub struct Memory {
    text: Vec<u32>,
    operations: Vec<Operation>,
    static_bytes: Vec<u8>,
    heap: HeapBytes,
    stack: StackBytes,
}

impl Model for Memory {
    ghost use Rattle.spim_memory.specs.Memory.{MemoryParts, IsMemory};
    ghost use Rattle.spim_memory.specs.Operations.{AreOf};

    ghost Value = { MemoryParts };

    ghost view = { λ m. record { text = m.text.items; static_bytes = m.static_bytes.items; heap = m.heap; stack = m.stack } };

    ghost invariant = { λ m. IsMemory (record { text = m.text.items; static_bytes = m.static_bytes.items; heap = m.heap; stack = m.stack }) × AreOf m.operations.items m.text.items };
}

/// A segment that may be stored, and an offset in it.
#[derive(Clone, Copy)]
enum Place {
    StaticBytes(usize),
    Heap(usize),
    Stack(usize),
}

/// So many zeros.
fn zeros(alloc: Global, count: usize) -> Result<Vec<u8>, AllocError>
    ensures { IfOk result (λ bytes. bytes.items ≡ replicate count 0) }
{
    Ok(vec![in alloc; 0; count]?)
}

/// The bytes, and zeros up to a whole word.
fn padded(alloc: Global, bytes: &[u8]) -> Result<Vec<u8>, AllocError>
    ensures { IfOk result (λ words. words.items ≡ whole_words bytes.now) }
{
    let size = (bytes.len() + 3) / 4 * 4;
    let mut words = Vec::with_capacity(alloc, size)?;
    words.extend_from_slice(bytes)?;
    words.extend_from_slice(&zeros(alloc, size - bytes.len())?)?;
    Ok(words)
}

/// The operation of each word.
fn operations_of(alloc: Global, words: &[u32]) -> Result<Vec<Operation>, AllocError>
    ensures { IfOk result (λ all. AreOf all.items words.now) }
{
    words.iter().map(|word| operation_of(*word)).collect(alloc)
}

impl Memory {
    /// The memory of an image: its text, its data, padded with zeros to a word, and a heap and a stack of zeros.
    ///
    /// The text is decoded here, once for a run, which takes 8 bytes for a word of text beside the word's own 4. All memory of a run is taken here.
    /// Returns `Err` only if memory runs out.
    pub fn make(alloc: Global, image: &Image, limits: Limits) -> Result<Memory, AllocError>
        requires { IsLimits limits.heap limits.stack }
        ensures text { IfOk result (λ memory. memory.text ≡ image.now.text) }
        ensures segments { IfOk result (λ memory. segments memory ≡ segments_of image.now limits.heap limits.stack) }
        ensures bytes { IfOk result (λ memory. bytes_of memory ≡ bytes_of_image image.now) }
    {
        Ok(Memory {
            text: Vec::from_slice(alloc, &image.text)?,
            operations: operations_of(alloc, &image.text)?,
            static_bytes: padded(alloc, &image.bytes)?,
            heap: HeapBytes::zeros(alloc, limits.heap as usize)?,
            stack: StackBytes::zeros(alloc, limits.stack as usize)?,
        })
    }

    /// The end of the heap.
    pub fn heap_end(&self) -> u32
        ensures { result ≡ (segments self.now).heap_end }
    {
        HEAP_START + self.heap.len() as u32
    }

    /// The segment of data, heap or stack that has the byte at an address.
    #[inline(always)]
    fn place(&self, a: u32) -> Option<Place>
        ensures { IsPlace self.now a result }
    {
        let offset = a.wrapping_sub(DATA_START) as usize;
        if offset < self.static_bytes.len() {
            return Some(Place::StaticBytes(offset));
        }
        let offset = a.wrapping_sub(HEAP_START) as usize;
        if offset < self.heap.len() {
            return Some(Place::Heap(offset));
        }
        let low = STACK_END - self.stack.len() as u32;
        let offset = a.wrapping_sub(low) as usize;
        if offset < self.stack.len() {
            return Some(Place::Stack(offset));
        }
        None
    }

    /// The word of the text that has the byte at an address, moved to the right so that this byte comes first.
    #[inline(always)]
    fn text_from(&self, a: u32) -> Result<u32, MemFault>
        ensures { IsTextFrom self.now a result }
    {
        match self.text_word(a) {
            Some(word) => Ok(word >> (8 * (a % 4))),
            None => Err(MemFault::BadAddress(a)),
        }
    }

    /// The word of the text that has the byte at an address.
    #[inline(always)]
    fn text_word(&self, a: u32) -> Option<u32>
        ensures word { IsTextWord self.now a result }
        ensures below { IfSome result (λ _. a < DATA_START) }
    {
        let index = a.wrapping_sub(TEXT_START) as usize / 4;
        self.text.get(index).copied()
    }

    /// The instruction at an address, or `None` if the word there is that of no instruction.
    ///
    /// Returns `Unaligned` if the address is no multiple of 4, and `BadAddress` if no word of the text is there.
    pub fn instruction(&self, a: u32) -> Result<Option<Instr>, MemFault>
        ensures instruction { result ≡ accessed 4 (lies TEXT_START (segments self.now).text_end a 4) a (decoded (word_of_text self.now.text a)) }
        ensures range { IfOk result (λ found. IfSome found InRange) }
        ensures below { OnOk result (a < DATA_START) }
    {
        if a % 4 != 0 {
            return Err(MemFault::Unaligned(a));
        }
        match self.text_word(a) {
            Some(word) => Ok(decode(word)),
            None => Err(MemFault::BadAddress(a)),
        }
    }

    /// The operation at an address.
    ///
    /// Returns `Unaligned` if the address is no multiple of 4, and `BadAddress` if no word of the text is there.
    pub fn operation(&self, a: u32) -> Result<Operation, MemFault>
        ensures operation { IfOk result (λ found. accessed 4 (lies TEXT_START (segments self.now).text_end a 4) a (decoded (word_of_text self.now.text a)) ≡ Ok (instr_of found)) }
        ensures fault { IfErr result (λ fault. accessed 4 (lies TEXT_START (segments self.now).text_end a 4) a (decoded (word_of_text self.now.text a)) ≡ Err fault) }
        ensures range { IfOk result (λ found. IfSome (instr_of found) InRange) }
        ensures below { OnOk result (a < DATA_START) }
    {
        if a % 4 != 0 {
            return Err(MemFault::Unaligned(a));
        }
        match self.text_word(a) {
            Some(word) => Ok(operation_of(word)),
            None => Err(MemFault::BadAddress(a)),
        }
    }

    /// Takes out the operations of the first words, in their order: those of all words, unless they are taken out already. Let
    /// them be put back.
    pub fn take_operations(&mut self) -> Vec<Operation>
        ensures operations { AreOf result.items self.old.text }
        ensures few { length result.items ≤ MOST_TEXT_WORDS }
        ensures kept { self.new ≡ self.old }
    {
        let alloc = *self.operations.allocator();
        replace(&mut self.operations, Vec::new(alloc))
    }

    /// Puts operations of the first words back.
    pub fn put_operations(&mut self, operations: Vec<Operation>)
        requires { AreOf operations.items self.old.text }
        ensures { self.new ≡ self.old }
    {
        self.operations = operations;
    }

    /// The byte at an address. Returns `BadAddress` if no segment is there.
    #[inline(always)]
    pub fn load_byte(&self, a: u32) -> Result<u8, MemFault>
        ensures { result ≡ accessed 1 (readable (segments self.now) a 1) a (bytes_of self.now a) }
    {
        match self.place(a) {
            Some(Place::StaticBytes(offset)) => Ok(self.static_bytes[offset]),
            Some(Place::Heap(offset)) => Ok(self.heap.byte(offset)),
            Some(Place::Stack(offset)) => Ok(self.stack.byte(offset)),
            None => Ok((self.text_from(a)? % 0x100) as u8),
        }
    }

    /// The half at an address.
    ///
    /// Returns `Unaligned` if the address is no multiple of 2, and `BadAddress` if no segment is there.
    #[inline(always)]
    pub fn load_half(&self, a: u32) -> Result<u16, MemFault>
        ensures { result ≡ accessed 2 (readable (segments self.now) a 2) a (half (bytes_of self.now) a) }
    {
        if a % 2 != 0 {
            return Err(MemFault::Unaligned(a));
        }
        match self.place(a) {
            Some(Place::StaticBytes(offset)) => Ok(read_half(&self.static_bytes, offset)),
            Some(Place::Heap(offset)) => Ok(self.heap.half(offset)),
            Some(Place::Stack(offset)) => Ok(self.stack.half(offset)),
            None => Ok((self.text_from(a)? % 0x1_0000) as u16),
        }
    }

    /// The word at an address.
    ///
    /// Returns `Unaligned` if the address is no multiple of 4, and `BadAddress` if no segment is there.
    #[inline(always)]
    pub fn load_word(&self, a: u32) -> Result<u32, MemFault>
        ensures { result ≡ accessed 4 (readable (segments self.now) a 4) a (word (bytes_of self.now) a) }
    {
        if a % 4 != 0 {
            return Err(MemFault::Unaligned(a));
        }
        match self.place(a) {
            Some(Place::StaticBytes(offset)) => Ok(read_word(&self.static_bytes, offset)),
            Some(Place::Heap(offset)) => Ok(self.heap.word(offset)),
            Some(Place::Stack(offset)) => Ok(self.stack.word(offset)),
            None => self.text_from(a),
        }
    }

    /// Stores a byte. Returns `BadAddress` if no data, heap or stack is there. A refused store changes nothing.
    #[inline(always)]
    pub fn store_byte(&mut self, a: u32, v: u8) -> Result<(), MemFault>
        ensures answer { result ≡ accessed 1 (writable (segments self.old) a 1) a tt }
        ensures stored { OnOk result (bytes_of self.new ≡ set_byte (bytes_of self.old) a v) }
        ensures text { self.new.text ≡ self.old.text }
        ensures segments { segments self.new ≡ segments self.old }
        ensures kept { OnErr result (self.new ≡ self.old) }
    {
        match self.place(a) {
            Some(Place::StaticBytes(offset)) => self.static_bytes[offset] = v,
            Some(Place::Heap(offset)) => self.heap.set_byte(offset, v),
            Some(Place::Stack(offset)) => self.stack.set_byte(offset, v),
            None => return Err(MemFault::BadAddress(a)),
        }
        Ok(())
    }

    /// Stores a half.
    ///
    /// Returns `Unaligned` if the address is no multiple of 2, and `BadAddress` if no data, heap or stack is there. A refused store changes nothing.
    #[inline(always)]
    pub fn store_half(&mut self, a: u32, v: u16) -> Result<(), MemFault>
        ensures answer { result ≡ accessed 2 (writable (segments self.old) a 2) a tt }
        ensures stored { OnOk result (bytes_of self.new ≡ set_half (bytes_of self.old) a v) }
        ensures text { self.new.text ≡ self.old.text }
        ensures segments { segments self.new ≡ segments self.old }
        ensures kept { OnErr result (self.new ≡ self.old) }
    {
        if a % 2 != 0 {
            return Err(MemFault::Unaligned(a));
        }
        match self.place(a) {
            Some(Place::StaticBytes(offset)) => write_half(&mut self.static_bytes, offset, v),
            Some(Place::Heap(offset)) => self.heap.set_half(offset, v),
            Some(Place::Stack(offset)) => self.stack.set_half(offset, v),
            None => return Err(MemFault::BadAddress(a)),
        }
        Ok(())
    }

    /// Stores a word.
    ///
    /// Returns `Unaligned` if the address is no multiple of 4, and `BadAddress` if no data, heap or stack is there. A refused store changes nothing.
    #[inline(always)]
    pub fn store_word(&mut self, a: u32, v: u32) -> Result<(), MemFault>
        ensures answer { result ≡ accessed 4 (writable (segments self.old) a 4) a tt }
        ensures stored { OnOk result (bytes_of self.new ≡ set_word (bytes_of self.old) a v) }
        ensures text { self.new.text ≡ self.old.text }
        ensures segments { segments self.new ≡ segments self.old }
        ensures kept { OnErr result (self.new ≡ self.old) }
    {
        if a % 4 != 0 {
            return Err(MemFault::Unaligned(a));
        }
        match self.place(a) {
            Some(Place::StaticBytes(offset)) => write_word(&mut self.static_bytes, offset, v),
            Some(Place::Heap(offset)) => self.heap.set_word(offset, v),
            Some(Place::Stack(offset)) => self.stack.set_word(offset, v),
            None => return Err(MemFault::BadAddress(a)),
        }
        Ok(())
    }
}
