ghost use Rattle.std.specs.Prelude.{◌≡◌, ◌↔◌, List, Some};
ghost use Rattle.c_meaning.specs.SourceFile.{SourceFile, HasTokens, Spelled};
ghost use Rattle.c_meaning.specs.Grammar.{Expression, IsUnit};
ghost use Rattle.c_meaning.specs.Reading.{reading};

/// The law that a file is the unit of one expression at most: no text of the form has two syntax trees
/// (C11 6.4p4, 6.5.6).
pub fn one_expression()
    ensures { (unit : SourceFile) (e f : Expression) → IsUnit unit e → IsUnit unit f → e ≡ f }
{}

/// The law of the executable reading, by which the crates above read (own): among files with tokens it finds the
/// expression of each unit of the form, and of no other.
pub fn reading_is_exact()
    ensures { (unit : SourceFile) (tokens : List Spelled) (e : Expression) → HasTokens unit tokens → IsUnit unit e ↔ (reading tokens ≡ Some e) }
{}
