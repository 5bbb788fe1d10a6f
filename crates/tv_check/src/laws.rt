//! What the definitions say in the words of constraint systems, for all files, assignments and
//! public numbers.

ghost use Rattle.std.specs.Prelude.{◌≡◌, ◌≢◌, ◌↔◌, ◌<◌, ℕ, List, All, IfOk};
ghost use Rattle.tv_core.specs.Constraints.{System};
ghost use Rattle.tv_core.specs.declared.field.TheConstants.{P};
ghost use Rattle.tv_r1cs_read.specs.R1cs.{r1cs_system};
ghost use Rattle.tv_check.specs.Verdict.{HasRoom, judge};
ghost use Rattle.tv_check.specs.Meaning.{VerdictMeans};
ghost use Rattle.tv_check.specs.declared.verdict.Verdict.{Verdict};
ghost use Rattle.tv_check.specs.declared.verdict.Verdict.TheVariants.{Yes};

/// A system that a file holds has wires for the constant 1 and its public numbers.
pub fn systems_have_room()
    ensures { (file : List ℕ) → IfOk (r1cs_system file) HasRoom }
{}

/// Each verdict comes exactly where what it says is so.
pub fn verdicts_are_exact()
    ensures yes { (system : System) (z x : List ℕ) → HasRoom system → All (λ v. v < P) z
        → (judge system z x ≡ Yes) ↔ VerdictMeans Yes system z x }
    ensures no { (system : System) (z x : List ℕ) (verdict : Verdict) → verdict ≢ Yes
        → (judge system z x ≡ verdict) ↔ VerdictMeans verdict system z x }
{}
