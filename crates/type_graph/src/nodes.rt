ghost use Rattle.std.specs.Prelude.{◌≡◌, false, List};
ghost use Rattle.cil_base.specs.declared.numbers.TypeId.{TypeId};

use cil_base::{AggId, IntKind, TypeId};
use std::marker::Model;

/// The qualifiers of a type (C11 6.7.3) that are kept: `const` and `restrict`.
#[derive(Clone, Copy, Debug, PartialEq, Eq)]
pub struct Quals {
    pub constant: bool,
    pub restricted: bool,
}

/// A type with its qualifiers.
#[derive(Clone, Copy, Debug, PartialEq, Eq)]
pub struct QualType {
    pub quals: Quals,
    pub of: TypeId,
}

/// No qualifiers.
pub const PLAIN: Quals = Quals {
    constant: false,
    restricted: false,
};

/// The unqualified version of a type (C11 6.2.5p26); an array's elements keep their qualifiers, which the array has not (6.7.3p9).
pub fn unqualified(of: TypeId) -> QualType
    ensures { result ≡ record { quals = record { constant = false; restricted = false }; of = of } }
{
    QualType { quals: PLAIN, of }
}

/// The types of a function's parameters in order, which contracts see as a list.
#[derive(Drop)]
pub struct TypeList {
    kept: Vec<TypeId>,
}

impl Model for TypeList {
    ghost Value = { List TypeId };

    ghost view = { λ l. l.kept.items };
}

impl TypeList {
    /// The types of a vector.
    pub fn new(types: Vec<TypeId>) -> Self
        ensures { result ≡ types.items }
    {
        TypeList { kept: types }
    }

    /// The types, as a slice.
    pub fn as_slice(&self) -> &[TypeId]
        ensures { result.now ≡ self.now }
    {
        &self.kept
    }

    /// The vector that holds the types.
    pub fn into_vec(self) -> Vec<TypeId>
        ensures { result.items ≡ self }
    {
        self.kept
    }
}

impl PartialEq for TypeList {
    ghost use Rattle.std.specs.Prelude.{map, nat_eq};
    ghost use Rattle.std.specs.Cmp.Lexicographic.{pointwise};
    ghost use Rattle.std.specs.Ordering.{on};
    ghost use Rattle.std.specs.Cmp.Rules.{comparing};
    ghost use Rattle.std.proofs.Common.{rules};

    ghost eq = { pointwise (on (λ (t : TypeId). t.0) nat_eq) };

    ghost laws = { Prim.search (comparing, rules) };

    fn eq(&self, other: &TypeList) -> bool {
        self.kept == other.kept
    }
}

impl Eq for TypeList {
    ghost use Rattle.std.specs.Cmp.Rules.{comparing};
    ghost use Rattle.std.proofs.Common.{rules};

    ghost laws = { Prim.search (comparing, rules) };
}

/// A type (C11 6.2.5), whose parts are named by their numbers.
#[derive(PartialEq, Eq, Drop)]
pub enum Node {
    /// `void` (6.2.5p19).
    Void,
    /// An integer type (6.2.5p4 to p7, p15).
    Int(IntKind),
    /// A pointer (6.2.5p20).
    Ptr(QualType),
    /// An array, with the number of its elements where its bound is known (6.2.5p20, p22).
    Array(QualType, Option<u64>),
    /// A function (6.2.5p20), with a prototype or without, whose prototype may end in `...`.
    Func {
        proto: bool,
        variadic: bool,
        ret: TypeId,
        params: TypeList,
    },
    /// A struct, union or enum (6.2.5p16, p20).
    Agg(AggId),
}
