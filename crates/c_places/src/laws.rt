ghost use Rattle.std.specs.Prelude.{length};
ghost use Rattle.c_lexer.specs.Lexed.{Lexed};
ghost use Rattle.c_tree.specs.Units.{UnitTree};
ghost use Rattle.c_places.specs.Below.{UnitBelow};
ghost use Rattle.c_places.specs.Read.{IsUnitOf};

/// A law, which does nothing when it is called: in the unit that the tokens of a file spell, the number of each node's first token is one
/// of a token of the file.
#[tactic(auto, using(crate::proofs::ReadLaws::tokens_there))]
pub fn tokens_are_there()
    ensures { (t : Lexed) (u : UnitTree) → IsUnitOf t u → UnitBelow (length t.entries) u }
{}
