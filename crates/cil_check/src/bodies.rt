ghost use Rattle.std.specs.Prelude.{◌≡◌, ◌<◌, IfOk, length, map, true, false};
ghost use Rattle.std.specs.List.{list_all};
ghost use Rattle.std.specs.Str.{bytes_eq};
ghost use Rattle.type_graph.specs.Shapes.{FuncType, shape, shape_of, shapes_of};
ghost use Rattle.type_graph.specs.Arena.{EachType, NamesBelow};
ghost use Rattle.cil_tree.specs.View.{text_at, local_of, stmts_of, type_at, program_of, body_of};
ghost use Rattle.cil_tree.specs.Typing.{is_type};
ghost use Rattle.cil_tree.specs.Bodies.{local_fits, parameters_fit, stmts_fit, body_fits};
ghost use Rattle.cil_check.specs.Seen.{seen_scope};
ghost use Rattle.cil_check.specs.Statements.{parameter_is};

use crate::expressions::number_at;
use crate::labels::labels_fit;
use crate::operators::is_void;
use crate::scope::Scope;
use crate::seen::same_number;
use crate::statements::{Place, keep_rules};
use cil_base::{Memory, NameId, NamePool, TypeId};
use cil_tree::Local;
use type_graph::Node;

/// The text of a name; the empty text where the pool has no such number.
pub(crate) fn text_at(names: &NamePool, name: NameId) -> &[u8]
    ensures { result.now ≡ text_at names.now name }
{
    if name.0 < names.len() {
        names.text(name)
    } else {
        &[]
    }
}

/// Whether two names have one text.
pub(crate) fn same_text(names: &NamePool, a: NameId, b: NameId) -> bool
    ensures { result ≡ bytes_eq (text_at names.now a) (text_at names.now b) }
{
    text_at(names, a) == text_at(names, b)
}

/// Whether a local is complete.
fn local_fits(s: &Scope, x: Local) -> bool
    ensures { result ≡ local_fits s.now.unit.now.graph (local_of s.now.unit.now.graph.nodes s.now.names.now x) }
{
    let g = &s.unit.graph;
    match number_at(g, x.ty) {
        None => false,
        Some(t) => g.is_complete(t),
    }
}

/// Whether each local is complete.
#[tactic(auto, using(crate::proofs::BodySteps::each_from))]
fn locals_fit(s: &Scope) -> bool
    ensures { result ≡ list_all (local_fits s.now.unit.now.graph) (map (local_of s.now.unit.now.graph.nodes s.now.names.now) s.now.body.now.locals.items) }
{
    let locals = s.body.locals.as_slice();
    for i in 0..locals.len() {
        if !local_fits(s, locals[i]) {
            return false;
        }
    }
    true
}

/// Whether a local is a parameter with that name and type.
#[tactic(auto, unfolding(crate::specs::Statements::parameter_is))]
fn parameter_fits(s: &Scope, x: Local, name: NameId, t: TypeId) -> bool
    requires { t.0 < length s.now.unit.now.graph.nodes }
    ensures { result ≡ parameter_is s.now.unit.now.graph.nodes s.now.names.now x name (shape s.now.unit.now.graph.nodes t.0) }
{
    same_text(s.names, x.name, name) && local_has_type(s, x, t)
}

/// Whether a local has exactly a type.
fn local_has_type(s: &Scope, x: Local, t: TypeId) -> bool
    requires { t.0 < length s.now.unit.now.graph.nodes }
    ensures { result ≡ is_type (type_at s.now.unit.now.graph.nodes x.ty) (shape s.now.unit.now.graph.nodes t.0) }
{
    let g = &s.unit.graph;
    match number_at(g, x.ty) {
        None => false,
        Some(found) => same_number(g, found, t),
    }
}

/// Whether the first locals are the parameters, with their names and types (C11 6.9.1p9).
fn parameters_fit(s: &Scope, params: &[TypeId]) -> bool
    requires { EachType (length s.now.unit.now.graph.nodes) params.now }
    ensures { result ≡ parameters_fit (shapes_of (shape s.now.unit.now.graph.nodes) params.now) (map (text_at s.now.names.now) s.now.body.now.params.items) (map (local_of s.now.unit.now.graph.nodes s.now.names.now) s.now.body.now.locals.items) }
{
    are_parameters(s, params, &s.body.params, &s.body.locals)
}

/// Whether locals begin with parameters of those types and names.
#[tactic(auto, using(crate::proofs::BodySteps::parameter_next, crate::proofs::BodySteps::name_missing, crate::proofs::BodySteps::local_missing, crate::proofs::BodySteps::past_names, crate::proofs::TypeSteps::type_at))]
fn are_parameters(s: &Scope, params: &[TypeId], names: &[NameId], locals: &[Local]) -> bool
    requires { EachType (length s.now.unit.now.graph.nodes) params.now }
    ensures { result ≡ parameters_fit (shapes_of (shape s.now.unit.now.graph.nodes) params.now) (map (text_at s.now.names.now) names.now) (map (local_of s.now.unit.now.graph.nodes s.now.names.now) locals.now) }
{
    for i in 0..params.len() {
        if i >= names.len() {
            return false;
        }
        if i >= locals.len() {
            return false;
        }
        if !parameter_fits(s, locals[i], names[i], params[i]) {
            return false;
        }
    }
    names.len() == params.len()
}

/// Whether the statements of a function with that result fit.
///
/// Memory comes only for want of memory.
#[tactic(auto, using(crate::proofs::StatementLaws::stmts_are, crate::proofs::StatementLaws::stmts_fail))]
fn stmts_fit(s: &Scope, ret: TypeId) -> Result<bool, Memory>
    requires { ret.0 < length s.now.unit.now.graph.nodes }
    ensures { IfOk result (λ b. b ≡ stmts_fit (seen_scope s.now) (shape s.now.unit.now.graph.nodes ret.0) (stmts_of s.now.unit.now.graph.nodes s.now.body.now.stmts.items)) }
{
    let outermost = Place {
        ret,
        switch: None,
        inside: false,
    };
    if !keep_rules(s, outermost, &s.body.stmts)? {
        return Ok(false);
    }
    labels_fit(s)
}

/// Whether a function of that result and those parameters may have the body: the result is void or complete, each
/// local is complete, the first of them are the parameters, and the statements fit.
///
/// Memory comes only for want of memory.
fn parts_fit(s: &Scope, ret: TypeId, params: &[TypeId]) -> Result<bool, Memory>
    requires ret { ret.0 < length s.now.unit.now.graph.nodes }
    requires params { EachType (length s.now.unit.now.graph.nodes) params.now }
    ensures { IfOk result (λ b. b ≡ body_fits (program_of s.now.names.now s.now.unit.now) (body_of s.now.unit.now.graph.nodes s.now.names.now s.now.body.now) (FuncType (shape s.now.unit.now.graph.nodes ret.0) (shapes_of (shape s.now.unit.now.graph.nodes) params.now) true false)) }
{
    if !is_void(&s.unit.graph, ret) && !s.unit.graph.is_complete(ret) {
        return Ok(false);
    }
    if !locals_fit(s) {
        return Ok(false);
    }
    if !parameters_fit(s, params) {
        return Ok(false);
    }
    stmts_fit(s, ret)
}

/// Whether a function of a type may have the body; none may whose type is variadic.
///
/// Memory comes only for want of memory.
fn node_body_fits(s: &Scope, f: &Node) -> Result<bool, Memory>
    requires { NamesBelow (length s.now.unit.now.graph.nodes) (length s.now.unit.now.graph.aggs) f.now }
    ensures { IfOk result (λ b. b ≡ body_fits (program_of s.now.names.now s.now.unit.now) (body_of s.now.unit.now.graph.nodes s.now.names.now s.now.body.now) (shape_of (shape s.now.unit.now.graph.nodes) f.now)) }
{
    match f {
        Node::Func {
            ret,
            params,
            variadic,
            ..
        } => if *variadic {
            Ok(false)
        } else {
            parts_fit(s, *ret, params.as_slice())
        },
        Node::Void | Node::Int(_) | Node::Ptr(_) | Node::Array(..) | Node::Agg(_) => Ok(false),
    }
}

/// Whether a global of a type may have the body (C11 6.9.1).
///
/// Memory comes only for want of memory.
#[tactic(auto, using(crate::proofs::TypeSteps::names_there))]
pub(crate) fn body_fits(s: &Scope, t: TypeId) -> Result<bool, Memory>
    requires { t.0 < length s.now.unit.now.graph.nodes }
    ensures { IfOk result (λ b. b ≡ body_fits (program_of s.now.names.now s.now.unit.now) (body_of s.now.unit.now.graph.nodes s.now.names.now s.now.body.now) (shape s.now.unit.now.graph.nodes t.0)) }
{
    node_body_fits(s, s.unit.graph.node(t))
}
