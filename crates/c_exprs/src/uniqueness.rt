ghost use Rattle.std.specs.Prelude.{◌≡◌, ℕ, List};
ghost use Rattle.typedef_scopes.specs.Scopes.{Scope};
ghost use Rattle.c_tree.specs.declared.level.Level.{Level};
ghost use Rattle.c_tree.specs.Syntax.{ExprTree, SpecifierTrees, DeclaratorTree, InitTree};
ghost use Rattle.c_tree.specs.Spelling.{Lexeme};
ghost use Rattle.c_exprs.specs.Subs.{In};
ghost use Rattle.c_exprs.specs.Forms.{IsExpr, IsTypeName, IsSpecifiers, IsDeclarator, IsInit};

/// A law, which does nothing when it is called: in given scopes, no tokens are spelled by two grammatical trees of one form (C11 6.5, 6.7),
/// and so the scopes behind them are the same too.
pub fn one_tree()
    ensures expressions { (scopes : List Scope) (level : Level) (height n : ℕ) (text : List Lexeme) (x y : In ExprTree) → IsExpr scopes level height x n text → IsExpr scopes level height y n text → x ≡ y }
    ensures type_names { (scopes : List Scope) (height n : ℕ) (text : List Lexeme) (x y : In (SpecifierTrees × DeclaratorTree)) → IsTypeName scopes height x n text → IsTypeName scopes height y n text → x ≡ y }
    ensures specifiers { (scopes : List Scope) (height n : ℕ) (text : List Lexeme) (x y : In SpecifierTrees) → IsSpecifiers scopes height x n text → IsSpecifiers scopes height y n text → x ≡ y }
    ensures declarators { (scopes : List Scope) (height n : ℕ) (text : List Lexeme) (x y : In DeclaratorTree) → IsDeclarator scopes height x n text → IsDeclarator scopes height y n text → x ≡ y }
    ensures initialisers { (scopes : List Scope) (height n : ℕ) (text : List Lexeme) (x y : In InitTree) → IsInit scopes height x n text → IsInit scopes height y n text → x ≡ y }
{}
