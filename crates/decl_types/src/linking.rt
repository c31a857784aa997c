ghost use Rattle.std.specs.Prelude.{◌≡◌, true, IfErr, IfSome};
ghost use Rattle.cil_base.specs.declared.faults.Fault.TheVariants.{Constraint, Excluded};
ghost use Rattle.cil_base.specs.declared.faults.RuleStop.TheVariants as stop;
ghost use Rattle.decl_types.specs.Refusals.{IsRefusal, of_declaration, of_types};

use crate::declared::{BodyForm, Declared, Declaring, Linkage};
use crate::declarer::Declarer;
use crate::entities::{DeclaredEntity, Defined, kind_of};
use crate::headings::Inline;
use crate::new_names::NewName;
use crate::stops::{bad, excluded};
use crate::types::{are_compatible, composite, is_function, is_unbounded, is_void};
use cil_base::{Code, EntityId, Feature, RuleStop};
use type_graph::QualType;
use typed_tree::{EntityKind, Ordinary};
use unit_types::{Class, Types};

/// A declaration of an object or function with linkage (C11 6.2.2).
#[derive(Clone, Copy)]
pub(crate) struct Linking {
    pub(crate) name: NewName,
    pub(crate) ty: QualType,
    pub(crate) linkage: Linkage,
    /// The declaration of the name that was visible before.
    pub(crate) prior: Option<Declared>,
    /// The number of scopes around it.
    pub(crate) depth: u32,
    pub(crate) defines: Defines,
    pub(crate) inline: Inline,
}

/// What a declaration defines.
#[derive(Clone, Copy, PartialEq, Eq)]
pub(crate) enum Defines {
    Nothing,
    /// An object, tentatively (C11 6.9.2p2).
    Tentatively,
    /// An object, with an initialiser.
    Object,
    /// A function, with a body.
    Function(BodyForm),
}

/// Whether a declaration before has linkage.
fn has_linkage(d: Declared) -> bool {
    d.linkage != Linkage::NoLinkage
}

/// The linkage of a declaration that takes the one that is visible (C11 6.2.2p4, p5).
pub(crate) fn inherited(prior: Option<Declared>) -> Linkage {
    match prior {
        Some(d) => match d.linkage {
            Linkage::Internal => Linkage::Internal,
            Linkage::External | Linkage::NoLinkage => Linkage::External,
        },
        None => Linkage::External,
    }
}

/// Whether the name is declared in the same scope without linkage, or as an object and a function (C11 6.7p3).
fn is_redeclared(l: &Linking, t: &Types) -> bool {
    match l.prior {
        None => false,
        Some(d) => {
            d.depth == l.depth
                && (!has_linkage(d) || is_function(t, d.ty.of) != is_function(t, l.ty.of))
        }
    }
}

/// Whether a function type has a prototype with parameters.
fn takes_parameters(t: &Types, ty: QualType) -> bool {
    match t.class(ty.of) {
        Class::Func { proto, count, .. } => proto && count > 0,
        Class::Void | Class::Int(_) | Class::Ptr(_) | Class::Array(..) | Class::Agg(..) => false,
    }
}

/// Whether a declaration defines a function with an empty identifier list.
fn is_bare(l: &Linking) -> bool {
    l.defines == Defines::Function(BodyForm::Empty)
}

/// Whether a declaration agrees with what the unit declared before (C11 6.2.2p7, 6.7p4). A function that is defined with an empty identifier list has
/// no prototype with parameters (6.7.6.3p15).
fn agrees(l: &Linking, e: &DeclaredEntity, t: &Types) -> bool {
    e.kind == kind_of(l.linkage)
        && are_compatible(t, e.ty, l.ty)
        && !(e.bare && takes_parameters(t, l.ty))
        && !(is_bare(l) && takes_parameters(t, e.ty))
}

/// Whether the result of a function that is defined is neither void nor complete (C11 6.9.1p3).
fn lacks_result(t: &Types, ty: QualType) -> bool {
    match t.class(ty.of) {
        Class::Func { ret, .. } => !is_void(t, ret) && !t.is_complete(ret),
        Class::Void | Class::Int(_) | Class::Ptr(_) | Class::Array(..) | Class::Agg(..) => false,
    }
}

/// Whether the type of an object stays incomplete together with that of the declaration that was visible before (C11 6.2.7p4).
fn stays_incomplete(l: &Linking, t: &Types) -> bool {
    let before = match l.prior {
        None => false,
        Some(d) => has_linkage(d) && t.is_complete(d.ty.of),
    };
    !before && !t.is_complete(l.ty.of)
}

/// Whether an object has a type that it may not have: void, or an incomplete one where that is not allowed (C11 6.7p7, 6.9.2p3), or a function that is
/// defined has such a result. An initialiser gives an array its bound.
fn is_incomplete(l: &Linking, t: &Types) -> bool {
    match l.defines {
        Defines::Nothing => is_void(t, l.ty.of),
        Defines::Tentatively => {
            is_void(t, l.ty.of) || (l.linkage == Linkage::Internal && stays_incomplete(l, t))
        }
        Defines::Object => !t.is_complete(l.ty.of) && !is_unbounded(t, l.ty.of),
        Defines::Function(_) => lacks_result(t, l.ty),
    }
}

/// Whether a body stands behind a declarator that takes none (C11 6.9.1p2, p5).
fn is_misplaced(l: &Linking, t: &Types) -> bool {
    match l.defines {
        Defines::Nothing | Defines::Tentatively | Defines::Object => false,
        Defines::Function(BodyForm::Unnamed | BodyForm::NotFunction) => true,
        Defines::Function(BodyForm::Prototype | BodyForm::Empty | BodyForm::Identifiers) => {
            !is_function(t, l.ty.of)
        }
    }
}

/// The excluded form of a function that is declared.
fn feature(l: &Linking, t: &Types) -> Option<Feature>
    ensures { IfSome result (λ feature. of_declaration (Excluded feature) ≡ true) }
{
    let variadic = match t.class(l.ty.of) {
        Class::Func { variadic, .. } => variadic,
        Class::Void | Class::Int(_) | Class::Ptr(_) | Class::Array(..) | Class::Agg(..) => {
            return None;
        }
    };
    if l.defines == Defines::Function(BodyForm::Identifiers) {
        return Some(Feature::IdentifierList);
    }
    if l.inline == Inline::Yes && l.linkage == Linkage::External {
        return Some(Feature::ExternalInline);
    }
    match l.defines {
        Defines::Function(_) if variadic => Some(Feature::VariadicDefinition),
        Defines::Function(_) | Defines::Nothing | Defines::Tentatively | Defines::Object => None,
    }
}

/// Whether a declaration is a full definition.
fn is_full(l: &Linking) -> bool {
    match l.defines {
        Defines::Nothing | Defines::Tentatively => false,
        Defines::Object | Defines::Function(_) => true,
    }
}

/// What is defined with one declaration more.
fn defined(before: Defined, l: &Linking) -> Defined {
    match l.defines {
        Defines::Object | Defines::Function(_) => Defined::Full,
        Defines::Tentatively => match before {
            Defined::Not | Defined::Tentative => Defined::Tentative,
            Defined::Full => Defined::Full,
        },
        Defines::Nothing => before,
    }
}

impl Declarer {
    /// Whether a name that begins with `__builtin_` is declared otherwise than as the function `__builtin_memset` at file scope without a body.
    fn is_misnamed(&self, l: &Linking, t: &Types) -> bool {
        l.name.is_reserved()
            && !(l.name.id() == self.memset
                && l.depth == 0
                && !is_full(l)
                && is_function(t, l.ty.of))
    }

    /// The first constraint that a declaration violates.
    fn linking_code(
        &self,
        l: &Linking,
        known: Option<(EntityId, DeclaredEntity)>,
        t: &Types,
    ) -> Option<Code>
        ensures { IfSome result (λ code. of_declaration (Constraint code) ≡ true) }
    {
        let (conflicts, full) = match known {
            None => (false, false),
            Some((_, e)) => (!agrees(l, &e, t), e.defined == Defined::Full),
        };
        if is_redeclared(l, t) {
            Some(Code::Redeclared)
        } else if conflicts {
            Some(Code::Conflict)
        } else if is_incomplete(l, t) {
            Some(Code::Incomplete)
        } else if is_misplaced(l, t) {
            Some(Code::FunctionType)
        } else if self.is_misnamed(l, t) {
            Some(Code::Reserved)
        } else if full && is_full(l) {
            Some(Code::Defined)
        } else {
            None
        }
    }

    /// The entity of a name that the unit declares for the first time.
    fn first_declared(&mut self, l: &Linking) -> Result<EntityId, RuleStop>
        ensures { IfErr result (λ e. e ≡ stop.Memory) }
    {
        let kind = kind_of(l.linkage);
        let e = self.entities.add_linked(DeclaredEntity {
            name: l.name.id(),
            kind,
            ty: l.ty,
            bare: is_bare(l),
            used: false,
            defined: defined(Defined::Not, l),
        })?;
        if kind == EntityKind::Internal {
            self.ordinary.push(Ordinary::Static(e))?;
        }
        Ok(e)
    }

    /// An entity with one declaration more.
    fn declared_again(
        &mut self,
        l: &Linking,
        e: EntityId,
        before: DeclaredEntity,
        t: &mut Types,
    ) -> Result<EntityId, RuleStop>
        ensures { IfErr result (IsRefusal of_types) }
    {
        let of = composite(t, before.ty.of, l.ty.of)?;
        self.entities.set(
            e,
            DeclaredEntity {
                name: before.name,
                kind: before.kind,
                ty: QualType {
                    quals: before.ty.quals,
                    of,
                },
                bare: before.bare || is_bare(l),
                used: before.used,
                defined: defined(before.defined, l),
            },
        )?;
        Ok(e)
    }

    /// Declares an object or function with linkage; its scope begins here. The answer is not in the scopes yet.
    pub(crate) fn link(&mut self, l: &Linking, t: &mut Types) -> Result<Declared, RuleStop>
        ensures { IfErr result (IsRefusal of_declaration) }
    {
        let known = self.entities.linked(l.name.id());
        if let Some(code) = self.linking_code(l, known, t) {
            return Err(bad(code));
        }
        if let Some(feature) = feature(l, t) {
            return Err(excluded(feature));
        }
        let e = match known {
            None => self.first_declared(l)?,
            Some((e, before)) => self.declared_again(l, e, before, t)?,
        };
        let ty = visible_type(l, t)?;
        Ok(Declared {
            what: Declaring::Entity(e),
            ty,
            linkage: l.linkage,
            register: false,
            depth: l.depth,
        })
    }
}

/// The type that is visible behind a declaration: the composite with the one that was visible before, where that has linkage (C11 6.2.7p4).
fn visible_type(l: &Linking, t: &mut Types) -> Result<QualType, RuleStop>
    ensures { IfErr result (IsRefusal of_types) }
{
    match l.prior {
        None => Ok(l.ty),
        Some(d) => {
            if !has_linkage(d) {
                return Ok(l.ty);
            }
            let of = composite(t, d.ty.of, l.ty.of)?;
            Ok(QualType {
                quals: l.ty.quals,
                of,
            })
        }
    }
}
