ghost use Rattle.std.specs.Prelude.{◌≡◌, IfOk};
ghost use Rattle.cil_base.specs.Integer.{ulong_of};
ghost use Rattle.type_graph.specs.Shapes.{IntType, shape};
ghost use Rattle.cast_rules.specs.Exact.{Refuses};
ghost use Rattle.cast_rules.specs.Given.{IsOf};
ghost use Rattle.cast_rules.specs.Rows.{lacks_size, size_row};

use crate::stops::{bad, made};
use cil_base::{Code, RuleStop, TypeId};
use layout_lp64::LayoutStop;
use std::alloc::Global;
use typed_tree::TypedExp;
use unit_types::{Class, Types};

/// The constraint that the size or the alignment of a type violates which has none (C11 6.5.3.4p1).
fn fault_size(t: &Types, of: TypeId) -> Code
    ensures { result ≡ lacks_size (shape t.now.nodes of.0) }
{
    match t.class(of) {
        Class::Func { .. } => Code::Operand,
        Class::Void | Class::Int(_) | Class::Ptr(_) | Class::Array(..) | Class::Agg(..) => {
            Code::Incomplete
        }
    }
}

/// A number of type `size_t` (C11 7.19p2).
#[tactic(auto, using(crate::proofs::BuiltTypes::shape_built))]
fn size_constant(alloc: Global, n: u32, t: &mut Types) -> Result<TypedExp, LayoutStop>
    ensures { IfOk result (IsOf t.new (IntType (ulong_of t.old.abi))) }
{
    let of = t.int(t.graph().abi().ulong())?;
    Ok(typed_tree::integer(alloc, of, n as i128)?)
}

/// `sizeof` of a type, or of an expression of that type (C11 6.5.3.4p2).
pub fn size_of(alloc: Global, of: TypeId, t: &mut Types) -> Result<TypedExp, RuleStop>
    ensures is { IfOk result (IsOf t.new (IntType (ulong_of t.old.abi))) }
    ensures refused { Refuses (size_row t.old of.0) result }
{
    match t.size(of) {
        Some(n) => made(size_constant(alloc, n, t)),
        None => Err(bad(fault_size(t, of))),
    }
}

/// `_Alignof` of a type (C11 6.5.3.4p3).
pub fn align_of(alloc: Global, of: TypeId, t: &mut Types) -> Result<TypedExp, RuleStop>
    ensures is { IfOk result (IsOf t.new (IntType (ulong_of t.old.abi))) }
    ensures refused { Refuses (size_row t.old of.0) result }
{
    match t.align(of) {
        Some(n) => made(size_constant(alloc, n, t)),
        None => Err(bad(fault_size(t, of))),
    }
}
