ghost use Rattle.std.specs.Prelude.{◌≡◌, [], ◌∷◌, ◌++◌, IfOk};
ghost use Rattle.c_tree.specs.Syntax as plain;
ghost use Rattle.c_tree.specs.View.{expr_of, specifiers_of, declarator_of, member_of, members_of, member_declarator_of, member_declarators_of};
ghost use Rattle.c_tree.specs.Height.{members_height, member_declarators_height};

use crate::declarators::DeclaratorNode;
use crate::expressions::ExprNode;
use crate::specifiers::SpecifierList;
use c_tree::{MemberDeclaration, MemberDeclarator, StaticAssert};
use cil_base::{Bytes, Memory};
use std::alloc::Global;
use std::marker::Model;

/// A member's declarator, with its height.
#[derive(Drop)]
pub struct MemberDeclaratorNode {
    tree: MemberDeclarator,
    height: u32,
}

impl Model for MemberDeclaratorNode {
    ghost use Rattle.std.specs.Prelude.{◌≡◌};
    ghost use Rattle.std.specs.Coded.{codes};
    ghost use Rattle.c_tree.specs.contracts.expression.MemberDeclarator as contracts;
    ghost use Rattle.c_tree.specs.declared.expression.MemberDeclarator.{MemberDeclarator};
    ghost use Rattle.c_tree.specs.View.{member_declarator_of};
    ghost use Rattle.c_tree.specs.Height.{member_declarator_height};

    ghost Value = { MemberDeclarator };

    ghost coded = { Prim.hlevel (codes, contracts.the_row.coded) };

    ghost view = { λ n. n.tree };

    ghost invariant = { λ n. n.height ≡ member_declarator_height (member_declarator_of n.tree) };
}

/// A declarator of a member that is no bit-field.
pub fn plain_of(d: DeclaratorNode) -> MemberDeclaratorNode
    ensures { member_declarator_of result ≡ plain.Plain (declarator_of d) }
{
    let height = d.height;
    MemberDeclaratorNode {
        tree: MemberDeclarator::Plain(Box::into_inner(d.tree)),
        height,
    }
}

/// A bit-field: its declarator, `:` and its width.
pub fn bit_field_of(d: DeclaratorNode, width: ExprNode) -> MemberDeclaratorNode
    ensures { member_declarator_of result ≡ plain.BitField (declarator_of d) (expr_of width) }
{
    let height = d.height.max(width.height);
    MemberDeclaratorNode {
        tree: MemberDeclarator::BitField(Box::into_inner(d.tree), width.tree),
        height,
    }
}

/// Members' declarators, and the height of the highest.
#[derive(Drop)]
pub struct MemberDeclaratorList {
    list: Vec<MemberDeclarator>,
    height: u32,
}

impl Model for MemberDeclaratorList {
    ghost use Rattle.std.specs.Prelude.{◌≡◌, List};
    ghost use Rattle.std.specs.Coded.{codes};
    ghost use Rattle.c_tree.specs.contracts.expression.MemberDeclarator as contracts;
    ghost use Rattle.c_tree.specs.declared.expression.MemberDeclarator.{MemberDeclarator};
    ghost use Rattle.c_tree.specs.View.{member_declarators_of};
    ghost use Rattle.c_tree.specs.Height.{member_declarators_height};

    ghost Value = { List MemberDeclarator };

    ghost coded = { Prim.hlevel (codes, contracts.the_row.coded) };

    ghost view = { λ l. l.list.items };

    ghost invariant = { λ l. l.height ≡ member_declarators_height (member_declarators_of l.list.items) };
}

impl MemberDeclaratorList {
    /// None.
    pub fn new(alloc: Global) -> Self
        ensures { result ≡ [] }
    {
        MemberDeclaratorList {
            list: Vec::new(alloc),
            height: 0,
        }
    }

    /// One more, behind the others.
    #[tactic(auto, using(crate::proofs::Lists::tall_member_declarators))]
    pub fn push(&mut self, d: MemberDeclaratorNode) -> Result<(), Memory>
        ensures { IfOk result (λ _. self.new ≡ self.old ++ d ∷ []) }
    {
        let height = self.height.max(d.height);
        self.list.push(d.tree)?;
        self.height = height;
        Ok(())
    }
}

/// A declaration among members, with its height.
#[derive(Drop)]
pub struct MemberNode {
    tree: MemberDeclaration,
    height: u32,
}

impl Model for MemberNode {
    ghost use Rattle.std.specs.Prelude.{◌≡◌};
    ghost use Rattle.std.specs.Coded.{codes};
    ghost use Rattle.c_tree.specs.contracts.expression.MemberDeclaration as contracts;
    ghost use Rattle.c_tree.specs.declared.expression.MemberDeclaration.{MemberDeclaration};
    ghost use Rattle.c_tree.specs.View.{member_of};
    ghost use Rattle.c_tree.specs.Height.{member_height};

    ghost Value = { MemberDeclaration };

    ghost coded = { Prim.hlevel (codes, contracts.the_row.coded) };

    ghost view = { λ n. n.tree };

    ghost invariant = { λ n. n.height ≡ member_height (member_of n.tree) };
}

/// Specifiers, members' declarators, `;`
#[tactic(auto, using(c_tree::proofs::Views::held_specifiers, c_tree::proofs::Views::held_member_declarators))]
pub fn member_line_of(specifiers: SpecifierList, declarators: MemberDeclaratorList) -> MemberNode
    ensures { member_of result ≡ plain.MemberLine (specifiers_of specifiers) (member_declarators_of declarators) }
{
    let height = specifiers.height.max(declarators.height);
    MemberNode {
        tree: MemberDeclaration::Members(specifiers.list, declarators.list),
        height,
    }
}

/// A static assertion among members.
pub fn member_assert_of(
    at: u32,
    condition: ExprNode,
    message_at: u32,
    message: Vec<Bytes>,
) -> MemberNode
    ensures { member_of result ≡ plain.MemberAssert at (expr_of condition) message_at message.items }
{
    let height = condition.height.max(1);
    MemberNode {
        tree: MemberDeclaration::StaticAssert(StaticAssert {
            at,
            condition: condition.tree,
            message_at,
            message,
        }),
        height,
    }
}

/// Declarations among members, and the height of the highest.
#[derive(Drop)]
pub struct MemberList {
    pub(crate) list: Vec<MemberDeclaration>,
    pub(crate) height: u32,
}

impl Model for MemberList {
    ghost use Rattle.std.specs.Prelude.{◌≡◌, List};
    ghost use Rattle.std.specs.Coded.{codes};
    ghost use Rattle.c_tree.specs.contracts.expression.MemberDeclaration as contracts;
    ghost use Rattle.c_tree.specs.declared.expression.MemberDeclaration.{MemberDeclaration};
    ghost use Rattle.c_tree.specs.View.{members_of};
    ghost use Rattle.c_tree.specs.Height.{members_height};

    ghost Value = { List MemberDeclaration };

    ghost coded = { Prim.hlevel (codes, contracts.the_row.coded) };

    ghost view = { λ l. l.list.items };

    ghost invariant = { λ l. l.height ≡ members_height (members_of l.list.items) };
}

impl MemberList {
    /// None.
    pub fn new(alloc: Global) -> Self
        ensures { result ≡ [] }
    {
        MemberList {
            list: Vec::new(alloc),
            height: 0,
        }
    }

    /// One more, behind the others.
    #[tactic(auto, using(crate::proofs::Lists::tall_members))]
    pub fn push(&mut self, m: MemberNode) -> Result<(), Memory>
        ensures { IfOk result (λ _. self.new ≡ self.old ++ m ∷ []) }
    {
        let height = self.height.max(m.height);
        self.list.push(m.tree)?;
        self.height = height;
        Ok(())
    }
}
