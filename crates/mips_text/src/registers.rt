//! The names of registers in assembly, such as `$sp`, and the search for a register by its name.

ghost use Rattle.std.specs.Prelude.{◌≡◌, ◌<◌, ◌≤◌, IfSome, IsTrue, bytes_eq, drop, map, not, take};
ghost use Rattle.std.specs.List.{list_all};
ghost use Rattle.mips_text.specs.Names.{begins_with, register_text, register_texts};
ghost use Rattle.mips_text.specs.Operands.{place_from, register_named};

use mips_isa::Reg;
use mips_isa::register::SP;

/// The names, without the `$`, in the order of the numbers.
static NAMES: [&str; 32] = [
    "zero", "at", "v0", "v1", "a0", "a1", "a2", "a3", "t0", "t1", "t2", "t3", "t4", "t5", "t6",
    "t7", "s0", "s1", "s2", "s3", "s4", "s5", "s6", "s7", "t8", "t9", "k0", "k1", "gp", "sp", "fp",
    "ra",
];

/// The numbers in decimal, without leading zeros.
static NUMBERS: [&str; 32] = [
    "0", "1", "2", "3", "4", "5", "6", "7", "8", "9", "10", "11", "12", "13", "14", "15", "16",
    "17", "18", "19", "20", "21", "22", "23", "24", "25", "26", "27", "28", "29", "30", "31",
];

/// The register of a name or a number, without its `$`.
#[tactic(auto, unfolding(crate::specs::Operands::register_named))]
pub(crate) fn register_named(name: &[u8]) -> Option<Reg>
    ensures { result ≡ register_named name.now }
{
    let number = match name {
        [b'0'..=b'9', ..] => place_of(&NUMBERS, 0, name)?,
        _ => place_of_name(name)?,
    };
    Some(Reg::new(number as u32))
}

/// The place of a name in the table of names. The stack pointer is told at once: code names it most, and it stands behind all others with its letter.
fn place_of_name(name: &[u8]) -> Option<usize>
    ensures exact { result ≡ place_from 0 register_texts name.now }
    ensures below { IfSome result (λ place. place < 32) }
{
    if matches!(name, b"sp") {
        return Some(SP as usize);
    }
    match name {
        [letter, ..] => place_of(&NAMES, first_with(*letter), name),
        [] => None,
    }
}

/// A place in the table of names before which none begins with this letter.
fn first_with(letter: u8) -> usize
    ensures none_before { IsTrue (list_all (λ text. not (begins_with letter text)) (take result register_texts)) }
    ensures within { result ≤ 32 }
{
    match letter {
        b'a' => 1,
        b'v' => 2,
        b't' => 8,
        b's' => 16,
        b'k' => 26,
        b'g' => 28,
        b'f' => 30,
        b'r' => 31,
        _ => 0,
    }
}

/// The place of a name in a table, where it is looked for from this place on.
fn place_of(table: &[&str; 32], start: usize, name: &[u8]) -> Option<usize>
    requires { start ≤ 32 }
    ensures exact { result ≡ place_from start (map (λ known. known.now) (drop start table.now)) name.now }
    ensures below { IfSome result (λ place. place < 32) }
{
    for place in start..table.len() {
        if is_spelled(table[place].as_bytes(), name) {
            return Some(place);
        }
    }
    None
}

/// Whether two spellings are the same. Most have two bytes, which are compared at once.
fn is_spelled(known: &[u8], name: &[u8]) -> bool
    ensures { result ≡ bytes_eq known.now name.now }
{
    match (known, name) {
        ([a, b], [c, d]) => *a == *c && *b == *d,
        _ => known.len() == name.len() && known == name,
    }
}

/// The name of a register, without its `$`.
pub(crate) fn register_name(register: Reg) -> &'static str
    ensures { result.now ≡ register_text register }
{
    NAMES[register.number() as usize]
}
