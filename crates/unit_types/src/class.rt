use cil_base::{AggId, IntKind, TypeId};
use type_graph::{AggKind, QualType};

/// What a type is (C11 6.2.5), with the numbers of its parts.
#[derive(Clone, Copy)]
pub enum Class {
    /// `void` (6.2.5p19).
    Void,
    /// An integer type (6.2.5p4 to p7, p15).
    Int(IntKind),
    /// A pointer (6.2.5p20).
    Ptr(QualType),
    /// An array, with the number of its elements where its bound is known (6.2.5p20, p22).
    Array(QualType, Option<u64>),
    /// A function (6.2.5p20), with the number of its parameters.
    Func {
        ret: TypeId,
        count: usize,
        proto: bool,
        variadic: bool,
    },
    /// A struct, union or enum (6.2.5p16, p20).
    Agg(AggKind, AggId),
}
