//! Access to strings and buffers in memory, as SPIM's system calls `print_string` and `read_string` need it.

ghost use Rattle.std.specs.Prelude.{◌≡◌, ◌+◌, ◌<◌, ◌≤◌, ◌==◌, ◌&&◌, true, Some, None, IfSome, IfNone};
ghost use Rattle.mips_isa.specs.Bytes.{readable};
ghost use Rattle.mips_isa.specs.Calls.{segment_end, string_at, all_writable};
ghost use Rattle.spim_memory.specs.Memory.{segments, bytes_of};
ghost use Rattle.spim_memory.specs.Strings.{bytes_from, MayLoad, storable_end};

use super::{Memory, Place};
use mips_isa::{DATA_START, HEAP_START, STACK_END, TEXT_START};

impl Memory {
    /// The end of the segment of data, heap or stack that has the byte at an address. Returns `None` if it may not be stored.
    fn storable_end(&self, a: u32) -> Option<u32>
        ensures end { result ≡ storable_end (segments self.now) a }
        ensures behind { IfSome result (λ end. a < end) }
        ensures below { IfSome result (λ end. end ≤ STACK_END) }
    {
        match self.place(a)? {
            Place::StaticBytes(_) => Some(DATA_START + self.static_bytes.len() as u32),
            Place::Heap(_) => Some(HEAP_START + self.heap.len() as u32),
            Place::Stack(_) => Some(STACK_END),
        }
    }

    /// The end of the segment that has the byte at an address. Returns `None` if no segment is there.
    fn segment_end(&self, a: u32) -> Option<u32>
        ensures end { result ≡ segment_end (segments self.now) a }
        ensures behind { IfSome result (λ end. a < end) }
        ensures below { IfSome result (λ end. end ≤ STACK_END) }
    {
        match self.text_word(a) {
            Some(_) => Some(TEXT_START + 4 * self.text.len() as u32),
            None => self.storable_end(a),
        }
    }

    /// Whether a 0 stands at an address.
    fn has_zero(&self, a: u32) -> bool
        ensures { result ≡ (readable (segments self.now) a 1 && (bytes_of self.now a == 0)) }
    {
        matches!(self.load_byte(a), Ok(0))
    }

    /// The number of bytes from an address on up to a 0: the length of the string that SPIM's `print_string` writes.
    ///
    /// Returns `None` if no segment has the address, or if the segment ends before a 0. The text is a segment, too.
    pub fn string_length(&self, a: u32) -> Option<u32>
        ensures found { IfSome result (λ n. string_at (segments self.now) (bytes_of self.now) a ≡ Some (bytes_from (bytes_of self.now) a n)) }
        ensures none { IfNone result (string_at (segments self.now) (bytes_of self.now) a ≡ None) }
        ensures inside { IfSome result (λ n. MayLoad (segments self.now) a n) }
        ensures below { IfSome result (λ n. a + n < STACK_END) }
    {
        let room = self.segment_end(a)? - a;
        for k in 0..room {
            if self.has_zero(a + k) {
                return Some(k);
            }
        }
        None
    }

    /// Whether each of `count` bytes from an address on may be stored: the buffer that SPIM's `read_string` fills.
    ///
    /// The bytes are looked up by segments, of which one may begin where another ends. No byte after the last address may
    /// be stored.
    pub fn may_store(&self, a: u32, count: u32) -> bool
        ensures writable { result ≡ all_writable (segments self.now) a count }
        ensures below { result ≡ true → 0 < count → a + count ≤ STACK_END }
    {
        let mut start = a;
        let mut left = count;
        while left > 0 {
            let Some(end) = self.storable_end(start) else {
                return false;
            };
            if left <= end - start {
                return true;
            }
            left -= end - start;
            start = end;
        }
        true
    }
}
