//! Writing data items, such as the operands of `.word` and `.byte` and strings, as bytes with their alignment.

ghost use Rattle.std.specs.Prelude.{◌≡◌, ◌≤◌, ◌+◌, ◌-◌, ◌*◌, ◌%◌, ◌^◌, [], ◌∷◌, ◌++◌, List, length, map, flat_map, replicate, Option, Some, None, OnOk, IfErr};
ghost use Rattle.std.specs.List.{AllByRecursion};
ghost use Rattle.mips_isa.specs.Words.{bits_of};
ghost use Rattle.mips_isa.specs.Lines.{item_of, data_item_of, IsDataInRange, IsItem};
ghost use Rattle.mips_isa.specs.Assembly.{up, need_of_data, bytes_of_data, item_value, four_bytes, address_or_zero, padding_to};
ghost use Rattle.mips_isa.specs.declared.asm_fault.AsmError.TheVariants.{Memory};
ghost use Rattle.mips_isa.specs.declared.place.Segment.TheVariants.{Data};
ghost use Rattle.mips_asm.specs.Places.{places_of};
ghost use Rattle.mips_asm.specs.Parts.{IsError, word_in, items_fault, item_fault, zeros};

use crate::expansion::word_bits;
use crate::labels::Labels;
use mips_isa::{AsmError, AsmFault, AsmKind, DataItem, MOST_DATA_BYTES, Segment, WordItem};
use std::alloc::AllocError;

/// Adds the bytes of an item, and the zeros before them.
pub fn add_item(
    bytes: &mut Vec<u8>,
    labels: &Labels,
    item: &DataItem,
    number: usize,
) -> Result<(), AsmError>
    requires small { length bytes.old.items ≤ MOST_DATA_BYTES }
    requires ranges { IsDataInRange (data_item_of item.now) }
    ensures checked { OnOk result (item_fault (places_of labels.now) (data_item_of item.now) ≡ None) }
    ensures added { OnOk result (bytes.new.items ≡ bytes.old.items ++ (replicate (zeros (need_of_data (data_item_of item.now)) Data (length bytes.old.items)) 0 ++ bytes_of_data (λ name. address_or_zero (places_of labels.now name)) (data_item_of item.now))) }
    ensures error { IfErr result (IsError number (item_fault (places_of labels.now) (data_item_of item.now))) }
{
    match item {
        DataItem::Word(items) => add_aligned_words(bytes, labels, items, number)?,
        DataItem::Byte(numbers) => add_bytes(bytes, numbers)?,
        DataItem::Ascii(text) => bytes.extend_from_slice(text)?,
        DataItem::Asciiz(text) => add_terminated(bytes, text)?,
        DataItem::Space(count) => bytes.resize(bytes.len() + *count as usize, 0)?,
    }
    Ok(())
}

/// Adds a text and a zero.
fn add_terminated(bytes: &mut Vec<u8>, text: &[u8]) -> Result<(), AsmError>
    ensures added { OnOk result (bytes.new.items ≡ bytes.old.items ++ (text.now ++ 0 ∷ [])) }
    ensures error { IfErr result (λ e. e ≡ Memory) }
{
    bytes.extend_from_slice(text)?;
    bytes.push(0)?;
    Ok(())
}

/// Adds zeros up to a multiple of a unit.
fn pad(bytes: &mut Vec<u8>, unit: usize) -> Result<(), AllocError>
    requires small { length bytes.old.items ≤ MOST_DATA_BYTES }
    requires some { 1 ≤ unit }
    requires low { unit ≤ 4096 }
    ensures { OnOk result (bytes.new.items ≡ bytes.old.items ++ replicate (up unit (length bytes.old.items) - length bytes.old.items) 0) }
{
    let end = (bytes.len() + (unit - 1)) / unit * unit;
    bytes.resize(end, 0)
}

/// Fills the data up to a multiple of a power of 2; in text it has no effect.
pub fn align(bytes: &mut Vec<u8>, segment: Segment, power: u32) -> Result<(), AllocError>
    requires small { length bytes.old.items ≤ MOST_DATA_BYTES }
    requires low { power ≤ 12 }
    ensures { OnOk result (bytes.new.items ≡ bytes.old.items ++ replicate (padding_to segment (2 ^ power) (length bytes.old.items)) 0) }
{
    match segment {
        Segment::Text => Ok(()),
        Segment::Data => pad(bytes, 1 << power),
    }
}

/// Adds the lowest byte of each number.
fn add_bytes(bytes: &mut Vec<u8>, numbers: &[i32]) -> Result<(), AllocError>
    ensures { OnOk result (bytes.new.items ≡ bytes.old.items ++ map (λ n. bits_of n % 256) numbers.now) }
{
    for number in numbers {
        bytes.push(lowest_byte(*number))?;
    }
    Ok(())
}

fn lowest_byte(number: i32) -> u8
    ensures { result ≡ bits_of number % 256 }
{
    (number.cast_unsigned() % 256) as u8
}

/// Adds zeros up to a multiple of 4, and the four bytes of each item of `.word`.
fn add_aligned_words(
    bytes: &mut Vec<u8>,
    labels: &Labels,
    items: &[WordItem],
    number: usize,
) -> Result<(), AsmError>
    requires small { length bytes.old.items ≤ MOST_DATA_BYTES }
    requires ranges { AllByRecursion IsItem (map item_of items.now) }
    ensures checked { OnOk result (items_fault (places_of labels.now) (map item_of items.now) ≡ None) }
    ensures added { OnOk result (bytes.new.items ≡ bytes.old.items ++ (replicate (up 4 (length bytes.old.items) - length bytes.old.items) 0 ++ flat_map (λ item. four_bytes (item_value (λ name. address_or_zero (places_of labels.now name)) item)) (map item_of items.now))) }
    ensures error { IfErr result (IsError number (items_fault (places_of labels.now) (map item_of items.now))) }
{
    pad(bytes, 4)?;
    add_words(bytes, labels, items, number)
}

/// Adds the four bytes of each item of `.word`.
fn add_words(
    bytes: &mut Vec<u8>,
    labels: &Labels,
    items: &[WordItem],
    number: usize,
) -> Result<(), AsmError>
    requires { AllByRecursion IsItem (map item_of items.now) }
    ensures checked { OnOk result (items_fault (places_of labels.now) (map item_of items.now) ≡ None) }
    ensures added { OnOk result (bytes.new.items ≡ bytes.old.items ++ flat_map (λ item. four_bytes (item_value (λ name. address_or_zero (places_of labels.now name)) item)) (map item_of items.now)) }
    ensures error { IfErr result (IsError number (items_fault (places_of labels.now) (map item_of items.now))) }
{
    for item in items {
        match word_of_item(labels, item) {
            Some(word) => add_word(bytes, word)?,
            None => return Err(fault(AsmKind::A6, number)),
        }
    }
    Ok(())
}

/// Adds the four bytes of a word.
fn add_word(bytes: &mut Vec<u8>, word: u32) -> Result<(), AllocError>
    ensures { OnOk result (bytes.new.items ≡ bytes.old.items ++ four_bytes word) }
{
    bytes.push((word % 256) as u8)?;
    bytes.push((word / 256 % 256) as u8)?;
    bytes.push((word / 65536 % 256) as u8)?;
    bytes.push((word / 16777216 % 256) as u8)?;
    Ok(())
}

/// The word of an item. Returns `None` only for a label that is not defined.
fn word_of_item(labels: &Labels, item: &WordItem) -> Option<u32>
    requires { IsItem (item_of item.now) }
    ensures { result ≡ word_in (places_of labels.now) (item_of item.now) }
{
    match item {
        WordItem::Number(value) => Some(word_bits(*value)),
        WordItem::Address(label) => match labels.place(label.as_slice()) {
            Some(place) => Some(place.address),
            None => None,
        },
    }
}

/// A fault on a line. A number that does not fit into 32 bits is reported as out of memory.
pub fn fault(kind: AsmKind, number: usize) -> AsmError
    ensures { IsError number (Some kind) result }
{
    match u32::try_from(number) {
        Ok(line) => AsmError::Fault(AsmFault { kind, line }),
        Err(_) => AsmError::Memory,
    }
}
