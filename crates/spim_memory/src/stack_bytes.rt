//! The bytes of the stack segment, which count as zeros until they are written.

ghost use Rattle.std.specs.Prelude.{◌≡◌, ◌+◌, ◌%◌, ◌<◌, ◌≤◌, length, replicate, get_or, slice_set, vec_capacity, IfOk};
ghost use Rattle.spim_memory.specs.Places.{set_two, set_four};
ghost use Rattle.spim_memory.specs.Zeros.{zeros_and, IsPart, two_at, four_at};

use crate::little_endian::{read_half, read_word, write_half, write_word};
use std::alloc::{AllocError, Global};
use std::marker::Model;

/// The bytes of a stack. Those before some byte are zeros, and take no time before they are written.
///
/// The memory for all of them is taken at the start. The written part at least doubles when it grows, since it is moved then.
#[derive(Drop)]
pub(crate) struct StackBytes {
    written: Vec<u8>,
    size: usize,
}

impl Model for StackBytes {
    ghost use Rattle.std.specs.Prelude.{List, ℕ, vec_capacity};
    ghost use Rattle.spim_memory.specs.Zeros.{zeros_and, IsPart};

    ghost Value = { List ℕ };

    ghost view = { λ b. zeros_and b.size b.written.items };

    ghost invariant = { λ b. IsPart b.written.items (vec_capacity b.written) b.size };
}

/// Writes zeros, so that the byte at an offset is a written one.
#[inline(never)]
fn reach(written: &mut Vec<u8>, size: usize, offset: usize)
    requires part { IsPart written.old.items (vec_capacity written.old) size }
    requires inside { offset < size }
    requires zero { offset + length written.old.items < size }
    ensures part { IsPart written.new.items (vec_capacity written.new) size }
    ensures reached { size ≤ offset + length written.new.items }
    ensures kept { zeros_and size written.new.items ≡ zeros_and size written.old.items }
{
    let count = written.len();
    let wanted = size - offset / 4 * 4;
    let grown = wanted.saturating_add(count).min(size);
    let Ok(()) = written.resize(grown, 0) else {
        unreachable!();
    };
    written.rotate_right(grown - count);
}

impl StackBytes {
    /// So many zeros. Returns `Err` only if memory runs out.
    pub(crate) fn zeros(alloc: Global, size: usize) -> Result<StackBytes, AllocError>
        requires { size % 4 ≡ 0 }
        ensures { IfOk result (λ bytes. bytes ≡ replicate size 0) }
    {
        Ok(StackBytes {
            written: Vec::with_capacity(alloc, size)?,
            size,
        })
    }

    /// The number of bytes.
    pub(crate) fn len(&self) -> usize
        ensures { result ≡ length self.now }
    {
        self.size
    }

    /// The byte at an offset.
    #[inline(always)]
    pub(crate) fn byte(&self, offset: usize) -> u8
        requires { offset < length self.now }
        ensures { result ≡ get_or self.now offset 0 }
    {
        let zeros = self.size - self.written.len();
        if zeros <= offset {
            self.written[offset - zeros]
        } else {
            0
        }
    }

    /// The half at an offset.
    #[inline(always)]
    pub(crate) fn half(&self, offset: usize) -> u16
        requires even { offset % 2 ≡ 0 }
        requires inside { offset + 2 ≤ length self.now }
        ensures { result ≡ two_at self.now offset }
    {
        let zeros = self.size - self.written.len();
        if zeros <= offset {
            read_half(&self.written, offset - zeros)
        } else {
            0
        }
    }

    /// The word at an offset.
    #[inline(always)]
    pub(crate) fn word(&self, offset: usize) -> u32
        requires even { offset % 4 ≡ 0 }
        requires inside { offset + 4 ≤ length self.now }
        ensures { result ≡ four_at self.now offset }
    {
        let zeros = self.size - self.written.len();
        if zeros <= offset {
            read_word(&self.written, offset - zeros)
        } else {
            0
        }
    }

    /// Writes a byte at an offset.
    #[inline(always)]
    pub(crate) fn set_byte(&mut self, offset: usize, v: u8)
        requires { offset < length self.old }
        ensures { self.new ≡ slice_set self.old offset v }
    {
        if offset < self.size - self.written.len() {
            reach(&mut self.written, self.size, offset);
        }
        let zeros = self.size - self.written.len();
        self.written[offset - zeros] = v;
    }

    /// Writes a half at an offset.
    #[inline(always)]
    pub(crate) fn set_half(&mut self, offset: usize, v: u16)
        requires even { offset % 2 ≡ 0 }
        requires inside { offset + 2 ≤ length self.old }
        ensures { self.new ≡ set_two self.old offset v }
    {
        if offset < self.size - self.written.len() {
            reach(&mut self.written, self.size, offset);
        }
        let zeros = self.size - self.written.len();
        write_half(&mut self.written, offset - zeros, v);
    }

    /// Writes a word at an offset.
    #[inline(always)]
    pub(crate) fn set_word(&mut self, offset: usize, v: u32)
        requires even { offset % 4 ≡ 0 }
        requires inside { offset + 4 ≤ length self.old }
        ensures { self.new ≡ set_four self.old offset v }
    {
        if offset < self.size - self.written.len() {
            reach(&mut self.written, self.size, offset);
        }
        let zeros = self.size - self.written.len();
        write_word(&mut self.written, offset - zeros, v);
    }
}
