ghost use Rattle.std.specs.Prelude.{◌≡◌, Bool, Option};
ghost use Rattle.std.specs.Option.{option_map};
ghost use Rattle.cil_base.specs.declared.numbers.TypeId.{TypeId};
ghost use Rattle.type_graph.specs.Arena.{Graph};
ghost use Rattle.type_graph.specs.Shapes.{Shape, Shapes, FuncType, shape};
ghost use Rattle.cast_rules.specs.Called.{IsCallee, IsFunction};
ghost use Rattle.cast_rules.specs.Calls.{Function, call_row, called, first_from, function_in, has_incomplete_result, is_any_unreadable, is_call, is_unassignable, takes_so_many, wrong_argument};
ghost use Rattle.cast_rules.specs.Exact.{Refuses};

use crate::assignments::assignable;
use crate::conversions::{converted, promoted_argument, value_of};
use crate::operands::{Operand, Sort, is_unreadable, is_void, operand_sort};
use crate::stops::{allowed, impossible, made};
use cil_base::{Code, Memory, RuleStop, TypeId};
use layout_lp64::LayoutStop;
use std::alloc::Global;
use typed_tree::TypedExp;
use unit_types::{Class, Types};

/// A function type that is called.
#[derive(Clone, Copy)]
pub(crate) struct Callee {
    of: TypeId,
    ret: TypeId,
    count: usize,
    proto: bool,
    variadic: bool,
}

/// The function type of that number, if it is one.
fn function_of(t: &Types, of: TypeId) -> Option<Callee>
    ensures { IsCallee t.now (function_in (shape t.now.nodes of.0)) result }
{
    match t.class(of) {
        Class::Func {
            ret,
            count,
            proto,
            variadic,
        } => Some(Callee {
            of,
            ret,
            count,
            proto,
            variadic,
        }),
        Class::Void | Class::Int(_) | Class::Ptr(_) | Class::Array(..) | Class::Agg(..) => None,
    }
}

/// The function type that a called expression points to, if it does (C11 6.5.2.2p1).
fn callee_of(f: &Operand, t: &Types) -> Option<Callee>
    ensures { IsCallee t.now (called t.now f.now) result }
{
    match operand_sort(f, t) {
        Sort::Pointer(to) => function_of(t, to.of),
        Sort::Void | Sort::Number(_) | Sort::Record(_) => None,
    }
}

/// Whether an argument is of no type that its parameter, or its place without a parameter, allows (C11 6.5.2.2p2, p4).
fn is_unassignable(parameter: Option<TypeId>, e: &Operand, t: &Types) -> bool
    ensures { result ≡ is_unassignable t.now (option_map (λ (p : TypeId). shape t.now.nodes p.0) parameter) e.now }
{
    match parameter {
        Some(to) => !assignable(to, e, t),
        None => is_void(t, e.exp.ty().of),
    }
}

/// The first argument of a call of a function type that may not be assigned to its parameter, or that is void and has none.
fn first_from(of: TypeId, arguments: &[Operand], t: &Types) -> Option<usize>
    ensures { (ret : Shape) (params : Shapes) (proto variadic : Bool) → shape t.now.nodes of.0 ≡ FuncType ret params proto variadic → result ≡ first_from t.now params 0 arguments.now }
{
    // What is known of an arena is known where it is read.
    let _types = t.graph().len();
    for i in 0..arguments.len() {
        if is_unassignable(t.param(of, i), &arguments[i], t) {
            return Some(i);
        }
    }
    None
}

/// The first argument that may not be assigned to its parameter, or that is void and has none (C11 6.5.2.2p2, p4), from the left. None
/// where the called expression is no pointer to a function.
pub fn first_unassignable(f: &Operand, arguments: &[Operand], t: &Types) -> Option<usize>
    ensures { result ≡ wrong_argument t.now f.now arguments.now }
{
    match callee_of(f, t) {
        Some(callee) => first_from(callee.of, arguments, t),
        None => None,
    }
}

/// Whether one of the arguments of a call has no value, since its type is incomplete.
#[tactic(auto, using(crate::proofs::ArgumentLists::unreadable_here, crate::proofs::ArgumentLists::readable_here, crate::proofs::ArgumentLists::all_readable))]
fn is_any_unreadable(arguments: &[Operand], t: &Types) -> bool
    ensures { result ≡ is_any_unreadable t.now arguments.now }
{
    for i in 0..arguments.len() {
        if is_unreadable(&arguments[i], t) {
            return true;
        }
    }
    false
}

/// Whether the result of a call is incomplete and not void (C11 6.5.2.2p1).
fn has_incomplete_result(callee: Option<Callee>, t: &Types) -> bool
    ensures { (function : Option Function) → IsCallee t.now function callee → result ≡ has_incomplete_result t.now function }
{
    match callee {
        Some(callee) => !is_void(t, callee.ret) && !t.is_complete(callee.ret),
        None => false,
    }
}

/// Whether a function type takes so many arguments (C11 6.5.2.2p2).
fn takes_so_many(callee: Callee, count: usize) -> bool
    ensures { (g : Graph) (function : Function) → IsFunction g function callee → result ≡ takes_so_many function count }
{
    !callee.proto
        || if callee.variadic {
            callee.count <= count
        } else {
            callee.count == count
        }
}

/// Whether a pointer to a function is called, with a number of arguments that its prototype allows (C11 6.5.2.2p1, p2).
fn is_call(callee: Option<Callee>, count: usize) -> bool
    ensures { (g : Graph) (function : Option Function) → IsCallee g function callee → result ≡ is_call function count }
{
    match callee {
        Some(callee) => takes_so_many(callee, count),
        None => false,
    }
}

/// The first constraint that a call violates, if there is one.
fn fault_call(f: &Operand, arguments: &[Operand], t: &Types) -> Option<Code>
    ensures { result ≡ call_row t.now f.now arguments.now }
{
    let callee = callee_of(f, t);
    if is_any_unreadable(arguments, t) || is_unreadable(f, t) || has_incomplete_result(callee, t) {
        Some(Code::Incomplete)
    } else if first_unassignable(f, arguments, t).is_some() {
        Some(Code::Assignment)
    } else if !is_call(callee, arguments.len()) {
        Some(Code::Call)
    } else {
        None
    }
}

/// An argument, converted to its parameter's type, or promoted where it has no parameter (C11 6.5.2.2p6, p7).
fn argument(
    alloc: Global,
    parameter: Option<TypeId>,
    e: TypedExp,
    t: &mut Types,
) -> Result<TypedExp, LayoutStop> {
    let e = value_of(alloc, e, t)?;
    match parameter {
        Some(to) => converted(alloc, to, e, t),
        None => promoted_argument(alloc, e, t),
    }
}

/// Adds an argument.
fn add(done: &mut Vec<TypedExp>, e: TypedExp) -> Result<(), Memory> {
    Ok(done.push(e)?)
}

/// The arguments of a call of that function type, in order.
fn converted_arguments(
    alloc: Global,
    of: TypeId,
    arguments: Vec<Operand>,
    t: &mut Types,
) -> Result<Vec<TypedExp>, LayoutStop> {
    let mut done = Vec::new(alloc);
    for e in arguments {
        let parameter = t.param(of, done.len());
        let e = argument(alloc, parameter, e.exp, t)?;
        add(&mut done, e)?;
    }
    Ok(done)
}

/// `f ( arguments )` (C11 6.5.2.2). Which argument violates `Assignment`, `first_unassignable` tells.
pub fn call(
    alloc: Global,
    f: Operand,
    arguments: Vec<Operand>,
    t: &mut Types,
) -> Result<TypedExp, RuleStop>
    ensures { Refuses (call_row t.old f arguments.items) result }
{
    allowed(fault_call(&f, &arguments, t))?;
    let callee = callee_of(&f, t);
    made(call_node(alloc, callee, f.exp, arguments, t))
}

/// The node of a call.
fn call_node(
    alloc: Global,
    callee: Option<Callee>,
    f: TypedExp,
    arguments: Vec<Operand>,
    t: &mut Types,
) -> Result<TypedExp, LayoutStop> {
    let Some(callee) = callee else {
        return Err(impossible());
    };
    let arguments = converted_arguments(alloc, callee.of, arguments, t)?;
    let f = value_of(alloc, f, t)?;
    Ok(typed_tree::call(alloc, callee.ret, f, arguments)?)
}
