ghost use Rattle.std.specs.Prelude.{◌≡◌};
ghost use Rattle.cil_meaning.specs.Program.{Exp, IsProgram};
ghost use Rattle.cil_meaning.specs.Text.{Text};

/// A law, which does nothing when it is called: no two programs have one text (own). So the program whose
/// text some bytes are is one program.
#[tactic(auto, using(crate::proofs::ReadBack::same_program))]
pub fn one_text()
    ensures { (p q : Exp) → IsProgram p → IsProgram q → Text p ≡ Text q → p ≡ q }
{}
