ghost use Rattle.std.specs.Prelude.{◌≡◌, ℕ, true, List};
ghost use Rattle.typedef_scopes.specs.Scopes.{Scope};
ghost use Rattle.c_tree.specs.Units.{DeclarationTree, StmtTree, ExternalTree, UnitTree};
ghost use Rattle.c_tree.specs.Spelling.{Lexeme};
ghost use Rattle.c_tree.specs.UnitSpelling.{spell_unit};
ghost use Rattle.c_tree.specs.Grammatical.{is_grammatical};
ghost use Rattle.c_cursor.specs.Readers.{input};
ghost use Rattle.c_exprs.specs.Subs.{In};
ghost use Rattle.c_parser.specs.UnitAnswers.{RefusesUnit, UnitAnswer};
ghost use Rattle.c_parser.specs.UnitStops.{AnswersUnit};
ghost use Rattle.c_parser.specs.UnitReading.{unit};
ghost use Rattle.c_parser.specs.UnitForms.{IsDeclaration, IsStatement, IsExternal};

/// A law, which does nothing when it is called: each list of tokens is spelled by a grammatical unit or refused, with one token at which,
/// behind whole external declarations, none begins (C11 6.9); and the reading of a whole unit tells which.
pub fn one_answer()
    ensures answers { (ts : List Lexeme) → UnitAnswer ts }
    ensures reading { (ts : List Lexeme) → AnswersUnit ts (unit (input 0 ts)) }
    ensures starts { (ts : List Lexeme) (start stop other_start other_stop : ℕ) → RefusesUnit ts start stop → RefusesUnit ts other_start other_stop → start ≡ other_start }
{}

/// A law, which does nothing when it is called: no tokens are spelled by two grammatical units (C11 6.9); and in given scopes none are spelled
/// by two grammatical external declarations, statements (6.8) or declarations (6.7), so that the scopes behind them are the same too.
pub fn one_unit()
    ensures units { (u v : UnitTree) → is_grammatical u ≡ true → is_grammatical v ≡ true → spell_unit u ≡ spell_unit v → u ≡ v }
    ensures externals { (scopes : List Scope) (height n : ℕ) (text : List Lexeme) (x y : In ExternalTree) → IsExternal scopes height x n text → IsExternal scopes height y n text → x ≡ y }
    ensures statements { (scopes : List Scope) (height n : ℕ) (text : List Lexeme) (x y : In StmtTree) → IsStatement scopes height x n text → IsStatement scopes height y n text → x ≡ y }
    ensures declarations { (scopes : List Scope) (height n : ℕ) (text : List Lexeme) (x y : In DeclarationTree) → IsDeclaration scopes height x n text → IsDeclaration scopes height y n text → x ≡ y }
{}
