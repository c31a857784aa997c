ghost use Rattle.std.specs.Prelude.{◌≡◌, [], ◌∷◌, ◌++◌, IfOk};
ghost use Rattle.c_tree.specs.Syntax as plain;
ghost use Rattle.c_tree.specs.View.{specifier_of, specifiers_of, members_of, enumerators_of};
ghost use Rattle.c_tree.specs.Height.{tag_height, specifiers_height};

use crate::enumerators::EnumeratorList;
use crate::heights::above;
use crate::members::MemberList;
use c_tree::{
    BasicType, FunctionSpecifier, Qualifier, Specifier, StorageClass, StructKind, TagKind,
};
use cil_base::{Memory, NameId};
use std::alloc::Global;
use std::marker::Model;

/// A specifier or qualifier, with its height.
#[derive(Drop)]
pub struct SpecifierNode {
    tree: Specifier,
    height: u32,
}

impl Model for SpecifierNode {
    ghost use Rattle.std.specs.Prelude.{◌≡◌};
    ghost use Rattle.std.specs.Coded.{codes};
    ghost use Rattle.c_tree.specs.contracts.expression.Specifier as contracts;
    ghost use Rattle.c_tree.specs.declared.expression.Specifier.{Specifier};
    ghost use Rattle.c_tree.specs.View.{specifier_of};
    ghost use Rattle.c_tree.specs.Height.{specifier_height};

    ghost Value = { Specifier };

    ghost coded = { Prim.hlevel (codes, contracts.the_row.coded) };

    ghost view = { λ n. n.tree };

    ghost invariant = { λ n. n.height ≡ specifier_height (specifier_of n.tree) };
}

impl SpecifierNode {
    /// The specifier.
    pub fn tree(&self) -> &Specifier
        ensures { result.now ≡ self.now }
    {
        &self.tree
    }
}

/// A storage class.
pub fn storage_of(at: u32, word: StorageClass) -> SpecifierNode
    ensures { specifier_of result ≡ plain.Storage at word }
{
    SpecifierNode {
        tree: Specifier::Storage(at, word),
        height: 0,
    }
}

/// A word of a basic type.
pub fn basic_of(at: u32, word: BasicType) -> SpecifierNode
    ensures { specifier_of result ≡ plain.Basic at word }
{
    SpecifierNode {
        tree: Specifier::Basic(at, word),
        height: 0,
    }
}

/// A type qualifier.
pub fn qualifier_of(at: u32, word: Qualifier) -> SpecifierNode
    ensures { specifier_of result ≡ plain.Qualified at word }
{
    SpecifierNode {
        tree: Specifier::Qualifier(at, word),
        height: 0,
    }
}

/// A function specifier.
pub fn function_specifier_of(at: u32, word: FunctionSpecifier) -> SpecifierNode
    ensures { specifier_of result ≡ plain.Functional at word }
{
    SpecifierNode {
        tree: Specifier::Function(at, word),
        height: 0,
    }
}

/// A typedef name.
pub fn typedef_name_of(at: u32, n: NameId) -> SpecifierNode
    ensures { specifier_of result ≡ plain.TypedefName at n }
{
    SpecifierNode {
        tree: Specifier::TypedefName(at, n),
        height: 1,
    }
}

/// `struct tag`, `union tag` and `enum tag`
pub fn tag_of(at: u32, kind: TagKind, tag: NameId) -> SpecifierNode
    ensures { specifier_of result ≡ plain.Tag at kind tag }
{
    SpecifierNode {
        tree: Specifier::Tag(at, kind, tag),
        height: 1,
    }
}

/// The height of a tag that may be absent.
pub fn tag_height(tag: Option<NameId>) -> u32
    ensures { result ≡ tag_height tag }
{
    match tag {
        None => 0,
        Some(_) => 1,
    }
}

/// A structure or union specifier with its members.
#[tactic(auto, using(c_tree::proofs::Views::held_members))]
pub fn struct_of(
    at: u32,
    kind: StructKind,
    tag: Option<NameId>,
    members: MemberList,
) -> Result<SpecifierNode, Memory>
    ensures { IfOk result (λ x. specifier_of x ≡ plain.StructBody at kind tag (members_of members)) }
{
    let height = above(tag_height(tag).max(members.height))?;
    Ok(SpecifierNode {
        tree: Specifier::Members(at, kind, tag, members.list),
        height,
    })
}

/// An enumeration specifier with its enumerators, and whether a comma stands behind the last.
#[tactic(auto, using(c_tree::proofs::Views::held_enumerators))]
pub fn enum_of(
    at: u32,
    tag: Option<NameId>,
    enumerators: EnumeratorList,
    comma: bool,
) -> Result<SpecifierNode, Memory>
    ensures { IfOk result (λ x. specifier_of x ≡ plain.EnumBody at tag (enumerators_of enumerators) comma) }
{
    let height = above(tag_height(tag).max(enumerators.height))?;
    Ok(SpecifierNode {
        tree: Specifier::Enumerators(at, tag, enumerators.list, comma),
        height,
    })
}

/// Specifiers and qualifiers, and the height of the highest.
#[derive(Drop)]
pub struct SpecifierList {
    pub(crate) list: Vec<Specifier>,
    pub(crate) height: u32,
}

impl Model for SpecifierList {
    ghost use Rattle.std.specs.Prelude.{◌≡◌, List};
    ghost use Rattle.std.specs.Coded.{codes};
    ghost use Rattle.c_tree.specs.contracts.expression.Specifier as contracts;
    ghost use Rattle.c_tree.specs.declared.expression.Specifier.{Specifier};
    ghost use Rattle.c_tree.specs.View.{specifiers_of};
    ghost use Rattle.c_tree.specs.Height.{specifiers_height};

    ghost Value = { List Specifier };

    ghost coded = { Prim.hlevel (codes, contracts.the_row.coded) };

    ghost view = { λ l. l.list.items };

    ghost invariant = { λ l. l.height ≡ specifiers_height (specifiers_of l.list.items) };
}

impl SpecifierList {
    /// None.
    pub fn new(alloc: Global) -> Self
        ensures { result ≡ [] }
    {
        SpecifierList {
            list: Vec::new(alloc),
            height: 0,
        }
    }

    /// One more, behind the others.
    #[tactic(auto, using(crate::proofs::Lists::tall_specifiers))]
    pub fn push(&mut self, s: SpecifierNode) -> Result<(), Memory>
        ensures { IfOk result (λ _. self.new ≡ self.old ++ s ∷ []) }
    {
        let height = self.height.max(s.height);
        self.list.push(s.tree)?;
        self.height = height;
        Ok(())
    }

    /// The specifiers.
    pub fn as_slice(&self) -> &[Specifier]
        ensures { result.now ≡ self.now }
    {
        &self.list
    }

    /// The specifiers, without their height.
    pub fn into_vec(self) -> Vec<Specifier>
        ensures { result.items ≡ self }
    {
        self.list
    }
}
