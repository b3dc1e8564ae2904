//! Theorems on runs of the machine, their output, and the bytes that they take from the input stream.

ghost use Rattle.std.specs.Prelude.{◌≡◌, ◌≢◌, ◌+◌, ◌++◌, List, [], ℕ, Bool, Option, Some};
ghost use Rattle.std.specs.List.{concat};
ghost use Rattle.cool_ports.specs.Answers.{Past, Leaves};
ghost use Rattle.mips_isa.specs.Bytes.{Segments};
ghost use Rattle.mips_isa.specs.Calls.{State};
ghost use Rattle.mips_isa.specs.Run.{run};
ghost use Rattle.cool_ports.specs.Taking.{Took};
ghost use Rattle.spim_machine.specs.MachineStates.{MachineParts, IsIn};
ghost use Rattle.spim_machine.specs.Ends.{Ran};
ghost use Rattle.spim_machine.specs.Puts.{run_puts, output_of};
ghost use Rattle.spim_machine.specs.declared.halt.Halt.{Halt};
ghost use Rattle.spim_machine.specs.declared.halt.Halt.TheVariants.{StepLimit};

/// A run with two budgets, one after the other, is a run with their sum: if the first one is spent, the second run ends as the run of both, and if it is
/// not, the run of both ends as the first.
pub fn law_two_budgets()
    ensures spent { (text : List ℕ) (b : Segments) (m n : ℕ) (s : State) (first : Option (List ℕ)) (middle last : MachineParts) (halt : Halt) (left held left' held' : Option (List ℕ))
        → Ran text b m s first StepLimit middle left held
        → ((t : State) → IsIn first t middle left held → Ran text b n t first halt last left' held')
        → Ran text b (m + n) s first halt last left' held' }
    ensures ended { (text : List ℕ) (b : Segments) (m n : ℕ) (s : State) (first : Option (List ℕ)) (last : MachineParts) (halt : Halt) (left held : Option (List ℕ))
        → halt ≢ StepLimit → Ran text b m s first halt last left held → Ran text b (m + n) s first halt last left held }
{}

/// The bytes taken of a source are an input that it may have had, of which nothing is left. The input that it tells is one that it may have had, too.
pub fn law_possible_inputs()
    ensures some { (was is : Bool) (before after : Past) (left left' : Option (List ℕ)) → (took : Took was is before after left left') → Leaves before after took.front [] }
    ensures told { (was is : Bool) (before after : Past) (input : List ℕ) (left' : Option (List ℕ)) → Took was is before after (Some input) left'
        → (rest : List ℕ) × (left' ≡ Some rest) × Leaves before after input rest }
{}

/// The puts of a run, one after another, are the bytes that it adds to the output.
pub fn law_puts_are_output()
    ensures added { (text : List ℕ) (b : Segments) (n : ℕ) (s : State) → output_of (run text b n s) ≡ s.output ++ concat (run_puts text b n s) }
{}
