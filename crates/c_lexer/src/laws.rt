ghost use Rattle.std.specs.Prelude.{◌≡◌, ◌<◌, ◌≤◌, ℕ, List, length};
ghost use Rattle.cil_base.specs.declared.numbers.UnitNo.{UnitNo};
ghost use Rattle.cil_base.specs.declared.numbers.NameId.{NameId};
ghost use Rattle.c_lexer.specs.declared.entries.Entry.{Entry};
ghost use Rattle.c_lexer.specs.declared.entries.Spot.{Spot};
ghost use Rattle.c_lexer.specs.Tokens.{Answer, Whole, IsAnswer};
ghost use Rattle.c_lexer.specs.Lexed.{bytes_in};

/// The law that the bytes of a unit have one answer (C11 6.4p4): the same tokens, or the same refusal.
pub fn one_answer()
    ensures { (unit : UnitNo) (file : NameId) (names : List (List ℕ)) (bytes : List ℕ) (answer other : Answer) → IsAnswer unit file names bytes answer → IsAnswer unit file names bytes other → answer ≡ other }
{}

/// The law that tokens stand apart in the source: together they have at most its bytes (C11 6.4p4).
pub fn tokens_stand_apart()
    ensures { (unit : UnitNo) (file : NameId) (names after : List (List ℕ)) (bytes : List ℕ) (entries : List Entry) (end : Spot) → file.0 < length names → IsAnswer unit file names bytes (Whole entries end after) → bytes_in entries ≤ length bytes }
{}
