//! Theorems on parsing assembly: each text has one result, each token is the longest at its position, and a printed text is parsed as the same lines.

ghost use Rattle.std.specs.Prelude.{◌≡◌, ℕ, List};
ghost use Rattle.mips_isa.specs.declared.asm_fault.AsmFault.{AsmFault};
ghost use Rattle.mips_isa.specs.Lines.{Line};
ghost use Rattle.mips_text.specs.declared.class.Start.{Start};
ghost use Rattle.mips_text.specs.Laws.{AreLinesOf, HasReading, IsReadingKind};
ghost use Rattle.mips_text.specs.Printable.{ArePrintable};
ghost use Rattle.mips_text.specs.Printing.{printed};
ghost use Rattle.mips_text.specs.Reading.{FirstFault, Reads, lines_in};
ghost use Rattle.mips_text.specs.Words.{IsWordThere, front};

/// A text has one list of lines at most.
pub fn law_one_reading()
    ensures { (bytes : List ℕ) (first second : List Line) → Reads bytes first → Reads bytes second → first ≡ second }
{}

/// A text has one first fault at most, on one line.
pub fn law_one_first_fault()
    ensures { (bytes : List ℕ) (first second : AsmFault) → FirstFault bytes first → FirstFault bytes second → first ≡ second }
{}

/// No text has both lines and a first fault.
pub fn law_never_both()
    ensures { (bytes : List ℕ) (lines : List Line) (fault : AsmFault) → Reads bytes lines → FirstFault bytes fault → ⊥ }
{}

/// Each text has lines or a first fault.
pub fn law_always_one()
    ensures { (bytes : List ℕ) → HasReading bytes }
{}

/// A first fault is one of reading: A1 to A4.
pub fn law_kinds_of_reading()
    ensures { (bytes : List ℕ) (fault : AsmFault) → FirstFault bytes fault → IsReadingKind fault.kind }
{}

/// The word that is cut at a place is the longest one there.
pub fn law_longest_words()
    ensures { (s : Start) (b : ℕ) (bs : List ℕ) → IsWordThere s b bs (front s b bs) }
{}

/// The printed text of lines is read as these lines.
pub fn law_printed_is_read()
    ensures { (lines : List Line) → ArePrintable lines → Reads (printed lines) lines }
{}

/// The lines that a text is read as can be printed and read again.
pub fn law_read_is_printable()
    ensures { (bytes : List ℕ) (lines : List Line) → Reads bytes lines → ArePrintable lines }
{}

/// The lines of a text are the text, cut at its newlines.
pub fn law_text_is_cut()
    ensures { (bytes : List ℕ) → AreLinesOf bytes (lines_in bytes) }
{}
