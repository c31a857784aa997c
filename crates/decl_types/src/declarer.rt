ghost use Rattle.std.specs.Prelude.{◌≡◌, [], ◌∷◌, ◌++◌, OnOk, IfErr};
ghost use Rattle.cil_base.specs.NamePool.{Stays};
ghost use Rattle.name_scopes.specs.Scopes.{found};
ghost use Rattle.decl_types.specs.Scopes.{Leaves};
ghost use Rattle.decl_types.specs.Refusals.{IsRefusal, of_local};

use crate::bodies::{Bodies, MemberPath};
use crate::declared::{Declared, Declaring, Linkage, Tag};
use crate::entities::{Declarations, DeclaredEntity, Defined, Entities};
use crate::numbers::{FunctionLocals, Numbers};
use crate::stops::{impossible, laid};
use crate::types::{Prototype, function, int, pointer};
use cil_base::{AggId, EntityId, LocalId, Memory, NameId, NamePool, RuleStop};
use name_scopes::Scopes;
use std::alloc::Global;
use type_graph::{PLAIN, QualType, Quals, unqualified};
use typed_tree::{EntityKind, Ordinary, TypedLocal};
use unit_types::Types;

/// What a unit has declared so far (C11 6.2.1 to 6.2.3, 6.7). After an error of a call it is only dropped.
#[derive(Drop)]
pub struct Declarer {
    /// The ordinary names.
    pub(crate) names: Scopes<Declared>,
    pub(crate) tags: Scopes<Tag>,
    pub(crate) numbers: Numbers,
    pub(crate) bodies: Bodies,
    pub(crate) entities: Entities,
    /// The enumerators, and what has internal linkage, by place.
    pub(crate) ordinary: Vec<Ordinary>,
    pub(crate) memset: NameId,
    /// The base of the names of literals.
    literal: NameId,
    pub(crate) alloc: Global,
}

/// The type `void * ( void * , int , unsigned long )`.
fn memset_type(alloc: Global, t: &mut Types) -> Result<QualType, RuleStop> {
    let void = laid(t.void())?;
    let address = pointer(unqualified(void), PLAIN, t)?;
    let int = int(t)?;
    let kind = t.graph().abi().ulong();
    let size = laid(t.int(kind))?;
    let params = [address, int, unqualified(size)];
    function(alloc, address, &params, Prototype::Fixed, t)
}

/// The numbers of `__builtin_memset` and of the base of the names of literals.
#[tactic(auto, using(cil_base::proofs::PoolLemmas::stays_then))]
fn memset_and_base(names: &mut NamePool) -> Result<(NameId, NameId), Memory>
    ensures { Stays names.old names.new }
{
    let memset = names.intern(b"__builtin_memset")?;
    let bases = names.bases()?;
    Ok((memset, bases.literal))
}

impl Declarer {
    /// The declaration of `__builtin_memset`, which stands in front of every unit, with number 0.
    pub fn new(alloc: Global, names: &mut NamePool, t: &mut Types) -> Result<Declarer, RuleStop>
        ensures stays { Stays names.old names.new }
    {
        let (memset, literal) = memset_and_base(names)?;
        let mut d = Declarer {
            names: Scopes::new(alloc),
            tags: Scopes::new(alloc),
            numbers: Numbers::new(alloc),
            bodies: Bodies::new(alloc),
            entities: Entities::new(alloc),
            ordinary: Vec::new(alloc),
            memset,
            literal,
            alloc,
        };
        let ty = memset_type(alloc, t)?;
        d.declare_memset(ty)?;
        Ok(d)
    }

    /// Declares `__builtin_memset`.
    fn declare_memset(&mut self, ty: QualType) -> Result<(), Memory> {
        let e = self.entities.add_linked(DeclaredEntity {
            name: self.memset,
            kind: EntityKind::External,
            ty,
            bare: false,
            used: false,
            defined: Defined::Not,
        })?;
        self.names.declare(
            self.memset,
            Declared {
                what: Declaring::Entity(e),
                ty,
                linkage: Linkage::External,
                register: false,
                depth: 0,
            },
        )
    }

    /// Opens the scope of a block, or of parameters. The parameters of a function that is defined and the outermost block of its body are one scope
    /// (C11 6.2.1p4).
    pub fn enter(&mut self) -> Result<(), Memory>
        ensures names { OnOk result (self.new.names ≡ self.old.names ++ [] ∷ []) }
        ensures tags { OnOk result (self.new.tags ≡ self.old.tags ++ [] ∷ []) }
    {
        self.names.enter()?;
        self.tags.enter()?;
        self.numbers.enter()
    }

    /// Closes the innermost scope. The parameters of a declarator without body give their numbers back.
    pub fn leave(&mut self) -> Result<(), Memory>
        ensures names { OnOk result (Leaves self.old.names self.new.names) }
        ensures tags { OnOk result (Leaves self.old.tags self.new.tags) }
    {
        if self.names.leave().is_none() || self.tags.leave().is_none() {
            return Err(impossible());
        }
        self.numbers.leave()
    }

    /// The visible declaration of an ordinary name (C11 6.2.1p4).
    pub fn find(&self, n: NameId) -> Option<Declared>
        ensures { result ≡ found self.now.names n }
    {
        self.names.find(n)
    }

    /// Whether no scope is open: declarations are at file scope.
    pub fn is_outside(&self) -> bool {
        self.numbers.is_outside()
    }

    /// The declaration of a name in the innermost scope.
    pub(crate) fn find_here(&self, n: NameId, depth: u32) -> Option<Declared> {
        match self.names.find(n) {
            None => None,
            Some(d) => { if d.depth == depth { Some(d) } else { None } }
        }
    }

    /// A compound literal in a function, where it is evaluated: its number in the function (C11 6.5.2.5p5). The limit on locals, at its first token.
    pub fn compound_literal(&mut self) -> Result<u32, RuleStop>
        ensures { IfErr result (IsRefusal of_local) }
    {
        self.numbers.add_literal()
    }

    /// The parameters and declared objects of the function at hand so far.
    pub fn locals(&self) -> &[TypedLocal] {
        self.numbers.locals()
    }

    /// What the function has whose body's scope was left. The numbers of the next function begin at 0 again.
    pub fn end_function(&mut self) -> FunctionLocals {
        self.numbers.end()
    }

    /// An object or function by its number.
    pub fn entity(&self, e: EntityId) -> Option<DeclaredEntity> {
        self.entities.get(e)
    }

    /// The objects with static storage duration and functions by their numbers, which they have in the order in which they were met.
    pub fn entities(&self) -> &[DeclaredEntity] {
        self.entities.as_slice()
    }

    /// Notes that an object or function is named where it is evaluated.
    pub fn mark_used(&mut self, e: EntityId) {
        self.entities.mark_used(e);
    }

    /// The object of a string literal (C11 6.4.5p6), or of a compound literal outside functions (6.5.2.5p5).
    pub fn literal(&mut self, ty: QualType) -> Result<EntityId, Memory> {
        self.entities.add(DeclaredEntity {
            name: self.literal,
            kind: EntityKind::Literal,
            ty,
            bare: false,
            used: true,
            defined: Defined::Full,
        })
    }

    /// The path to a name that a struct or union offers (C11 6.7.2.1p13); None where it offers no such name or is incomplete.
    pub fn member_path(
        &self,
        a: AggId,
        n: NameId,
        t: &Types,
    ) -> Result<Option<MemberPath>, Memory> {
        self.bodies.path(a, n, t)
    }

    /// What the unit declares.
    pub fn into_declarations(self) -> Declarations {
        Declarations {
            entities: self.entities.into_list(),
            ordinary: self.ordinary,
        }
    }
}
