ghost use Rattle.std.specs.Prelude.{◌≡◌, [], ◌∷◌, ◌++◌, map, IfOk};
ghost use Rattle.std.specs.Option.{option_map};
ghost use Rattle.c_tree.specs.View.{expr_of, specifiers_of, declarator_of, init_of};
ghost use Rattle.c_tree.specs.UnitView.{init_declarator_of, declaration_of, block_of};
ghost use Rattle.c_tree.specs.UnitView.{external_of as tree_of};
ghost use Rattle.c_tree.specs.Units as plain;

use crate::statements::{Block, FullExpr};
use c_tree::{
    Declaration, Declarator, ExtDecl, FunctionDefinition, Init, InitDeclarator, Specifier,
    StaticAssert, Unit,
};
use cil_base::{Bytes, Memory};
use std::alloc::Global;
use std::marker::Model;

/// The specifiers of a declaration (C11 6.7).
#[derive(Drop)]
pub struct DeclarationSpecifiers {
    list: Vec<Specifier>,
}

impl Model for DeclarationSpecifiers {
    ghost use Rattle.std.specs.Prelude.{List};
    ghost use Rattle.std.specs.Coded.{codes};
    ghost use Rattle.c_tree.specs.contracts.expression.Specifier as contracts;
    ghost use Rattle.c_tree.specs.declared.expression.Specifier.{Specifier};

    ghost Value = { List Specifier };

    ghost coded = { Prim.hlevel (codes, contracts.the_row.coded) };

    ghost view = { λ n. n.list.items };
}

impl DeclarationSpecifiers {
    /// Specifiers as those of a declaration.
    pub fn of(list: Vec<Specifier>) -> Self
        ensures { result ≡ list.items }
    {
        DeclarationSpecifiers { list }
    }

    /// The specifiers.
    pub fn list(&self) -> &[Specifier]
        ensures { result.now ≡ self.now }
    {
        &self.list
    }
}

/// A full declarator (C11 6.7.6p3), one that is part of no other, in its box.
#[derive(Drop)]
pub struct FullDeclarator {
    tree: Box<Declarator>,
}

impl Model for FullDeclarator {
    ghost use Rattle.std.specs.Coded.{codes};
    ghost use Rattle.c_tree.specs.contracts.expression.Declarator as contracts;
    ghost use Rattle.c_tree.specs.declared.expression.Declarator.{Declarator};

    ghost Value = { Declarator };

    ghost coded = { Prim.hlevel (codes, contracts.the_row.coded) };

    ghost view = { λ n. n.tree.value };
}

impl FullDeclarator {
    /// A declarator as that of a declaration or definition.
    pub fn of(tree: Box<Declarator>) -> Self
        ensures { result ≡ tree.value }
    {
        FullDeclarator { tree }
    }

    /// The declarator.
    pub fn tree(&self) -> &Declarator
        ensures { result.now ≡ self.now }
    {
        &self.tree
    }
}

/// An initialiser (C11 6.7.9).
#[derive(Drop)]
pub struct Initialiser {
    tree: Init,
}

impl Model for Initialiser {
    ghost use Rattle.std.specs.Coded.{codes};
    ghost use Rattle.c_tree.specs.contracts.expression.Init as contracts;
    ghost use Rattle.c_tree.specs.declared.expression.Init.{Init};

    ghost Value = { Init };

    ghost coded = { Prim.hlevel (codes, contracts.the_row.coded) };

    ghost view = { λ n. n.tree };
}

impl Initialiser {
    /// An initialiser as that of a declarator.
    pub fn of(tree: Init) -> Self
        ensures { result ≡ tree }
    {
        Initialiser { tree }
    }
}

/// A declarator of a declaration with its initialiser, if it has one (C11 6.7).
#[derive(Drop)]
pub struct InitDeclaratorNode {
    tree: InitDeclarator,
}

impl Model for InitDeclaratorNode {
    ghost use Rattle.std.specs.Coded.{codes};
    ghost use Rattle.c_tree.specs.contracts.statement.InitDeclarator as contracts;
    ghost use Rattle.c_tree.specs.declared.statement.InitDeclarator.{InitDeclarator};

    ghost Value = { InitDeclarator };

    ghost coded = { Prim.hlevel (codes, contracts.the_row.coded) };

    ghost view = { λ n. n.tree };
}

impl InitDeclaratorNode {
    /// `declarator` and `declarator = initialiser`
    pub fn of(declarator: FullDeclarator, init: Option<Initialiser>) -> Self
        ensures { init_declarator_of result ≡ (declarator_of declarator, option_map init_of init) }
    {
        InitDeclaratorNode {
            tree: InitDeclarator {
                declarator: Box::into_inner(declarator.tree),
                init: into_init(init),
            },
        }
    }
}

/// The declarators of a declaration with their initialisers (C11 6.7).
#[derive(Drop)]
pub struct Declarators {
    list: Vec<InitDeclarator>,
}

impl Model for Declarators {
    ghost use Rattle.std.specs.Prelude.{List};
    ghost use Rattle.std.specs.Coded.{codes};
    ghost use Rattle.c_tree.specs.contracts.statement.InitDeclarator as contracts;
    ghost use Rattle.c_tree.specs.declared.statement.InitDeclarator.{InitDeclarator};

    ghost Value = { List InitDeclarator };

    ghost coded = { Prim.hlevel (codes, contracts.the_row.coded) };

    ghost view = { λ n. n.list.items };
}

impl Declarators {
    /// No declarator.
    pub fn new(alloc: Global) -> Self
        ensures { result ≡ [] }
    {
        Declarators {
            list: Vec::new(alloc),
        }
    }

    /// Puts a declarator with its initialiser, if it has one, behind the others.
    pub fn push(&mut self, declarator: InitDeclaratorNode) -> Result<(), Memory>
        ensures { IfOk result (λ _. self.new ≡ self.old ++ declarator ∷ []) }
    {
        self.list.push(declarator.tree)?;
        Ok(())
    }
}

fn into_init(init: Option<Initialiser>) -> Option<Init>
    ensures { result ≡ init }
{
    match init {
        Some(i) => Some(i.tree),
        None => None,
    }
}

/// A declaration (C11 6.7).
#[derive(Drop)]
pub struct DeclarationNode {
    tree: Declaration,
}

impl Model for DeclarationNode {
    ghost use Rattle.std.specs.Coded.{codes};
    ghost use Rattle.c_tree.specs.contracts.statement.Declaration as contracts;
    ghost use Rattle.c_tree.specs.declared.statement.Declaration.{Declaration};

    ghost Value = { Declaration };

    ghost coded = { Prim.hlevel (codes, contracts.the_row.coded) };

    ghost view = { λ n. n.tree };
}

impl DeclarationNode {
    /// `specifiers declarators ;`
    pub fn declares(at: u32, specifiers: DeclarationSpecifiers, declarators: Declarators) -> Self
        ensures { declaration_of result ≡ plain.Declares at (specifiers_of specifiers) (map init_declarator_of declarators) }
    {
        DeclarationNode {
            tree: Declaration::Declares(at, specifiers.list, declarators.list),
        }
    }

    /// `_Static_assert ( e , message ) ;`
    pub fn asserts(at: u32, condition: FullExpr, message_at: u32, message: Vec<Bytes>) -> Self
        ensures { declaration_of result ≡ plain.Asserts at (expr_of condition) message_at message.items }
    {
        DeclarationNode {
            tree: Declaration::StaticAssert(StaticAssert {
                at,
                condition: condition.into_box(),
                message_at,
                message,
            }),
        }
    }

    /// The declaration.
    pub(crate) fn into_tree(self) -> Declaration
        ensures { result ≡ self }
    {
        self.tree
    }
}

/// The declarations of parameters before a function's body (C11 6.9.1p6).
#[derive(Drop)]
pub struct Declarations {
    list: Vec<Declaration>,
}

impl Model for Declarations {
    ghost use Rattle.std.specs.Prelude.{List};
    ghost use Rattle.std.specs.Coded.{codes};
    ghost use Rattle.c_tree.specs.contracts.statement.Declaration as contracts;
    ghost use Rattle.c_tree.specs.declared.statement.Declaration.{Declaration};

    ghost Value = { List Declaration };

    ghost coded = { Prim.hlevel (codes, contracts.the_row.coded) };

    ghost view = { λ n. n.list.items };
}

impl Declarations {
    /// No declaration.
    pub fn new(alloc: Global) -> Self
        ensures { result ≡ [] }
    {
        Declarations {
            list: Vec::new(alloc),
        }
    }

    /// Puts a declaration behind the others.
    pub fn push(&mut self, declaration: DeclarationNode) -> Result<(), Memory>
        ensures { IfOk result (λ _. self.new ≡ self.old ++ declaration ∷ []) }
    {
        self.list.push(declaration.tree)?;
        Ok(())
    }
}

/// An external declaration (C11 6.9).
#[derive(Drop)]
pub struct ExternalNode {
    tree: ExtDecl,
}

impl Model for ExternalNode {
    ghost use Rattle.std.specs.Coded.{codes};
    ghost use Rattle.c_tree.specs.contracts.statement.ExtDecl as contracts;
    ghost use Rattle.c_tree.specs.declared.statement.ExtDecl.{ExtDecl};

    ghost Value = { ExtDecl };

    ghost coded = { Prim.hlevel (codes, contracts.the_row.coded) };

    ghost view = { λ n. n.tree };
}

impl ExternalNode {
    /// `specifiers declarator declarations { items }`: a function's definition (C11 6.9.1), with the number of its first token and of its brace
    pub fn definition(
        at: u32,
        specifiers: DeclarationSpecifiers,
        declarator: FullDeclarator,
        declarations: Declarations,
        body_at: u32,
        body: Block,
    ) -> Self
        ensures { tree_of result ≡ plain.Definition at (specifiers_of specifiers) (declarator_of declarator) (map declaration_of declarations) body_at (block_of body) }
    {
        ExternalNode {
            tree: ExtDecl::Definition(FunctionDefinition {
                at,
                specifiers: specifiers.list,
                declarator: Box::into_inner(declarator.tree),
                declarations: declarations.list,
                body_at,
                body: body.into_items(),
            }),
        }
    }

    /// A declaration.
    pub fn declaration(declaration: DeclarationNode) -> Self
        ensures { tree_of result ≡ plain.External (declaration_of declaration) }
    {
        ExternalNode {
            tree: ExtDecl::Declaration(declaration.tree),
        }
    }
}

/// The external declarations of a unit (C11 6.9).
#[derive(Drop)]
pub struct Externals {
    list: Vec<ExtDecl>,
}

impl Model for Externals {
    ghost use Rattle.std.specs.Prelude.{List};
    ghost use Rattle.std.specs.Coded.{codes};
    ghost use Rattle.c_tree.specs.contracts.statement.ExtDecl as contracts;
    ghost use Rattle.c_tree.specs.declared.statement.ExtDecl.{ExtDecl};

    ghost Value = { List ExtDecl };

    ghost coded = { Prim.hlevel (codes, contracts.the_row.coded) };

    ghost view = { λ n. n.list.items };
}

impl Externals {
    /// No external declaration.
    pub fn new(alloc: Global) -> Self
        ensures { result ≡ [] }
    {
        Externals {
            list: Vec::new(alloc),
        }
    }

    /// Puts an external declaration behind the others.
    pub fn push(&mut self, declaration: ExternalNode) -> Result<(), Memory>
        ensures { IfOk result (λ _. self.new ≡ self.old ++ declaration ∷ []) }
    {
        self.list.push(declaration.tree)?;
        Ok(())
    }

    /// The unit that they are.
    pub fn into_unit(self) -> Unit
        ensures { result.declarations.items ≡ self }
    {
        Unit {
            declarations: self.list,
        }
    }
}
