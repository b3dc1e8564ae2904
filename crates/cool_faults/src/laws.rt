//! Theorems about source files: they have one error list and one result of the front end, and their errors of classes and features are exactly those that
//! the rules of `cool_classes` define.

ghost use Rattle.cool_faults.specs.Laws.{AreAcceptedWhereFaultless, AreFaultlessWhereAccepted, AreNeverBoth, AreNeverBothUntyped, AreOneProgram, HaveFaultsOfRows, HaveOneFaultList, HaveVerdicts};

/// Files have one fault list.
pub fn law_one_list()
    ensures { HaveOneFaultList }
{}

/// Files are one program at most.
pub fn law_one_program()
    ensures { AreOneProgram }
{}

/// No files are both a program and refused.
pub fn law_never_both()
    ensures { AreNeverBoth }
{}

/// Files are a program exactly where their fault list is empty, where they are within the limits on their number and their bytes.
pub fn law_accepted_exactly()
    ensures faultless { AreFaultlessWhereAccepted }
    ensures accepted { AreAcceptedWhereFaultless }
{}

/// Files within the limits on their number and their bytes are a program, or are refused with their fault list.
pub fn law_one_verdict_at_least()
    ensures { HaveVerdicts }
{}

/// No files are both faultless before typing and refused by a phase before it.
pub fn law_never_both_untyped()
    ensures { AreNeverBothUntyped }
{}

/// The faults of classes and features in the fault list of files are exactly those of the rows.
pub fn law_rows()
    ensures { HaveFaultsOfRows }
{}
