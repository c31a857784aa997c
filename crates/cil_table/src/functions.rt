ghost use Rattle.std.specs.Prelude.{◌≡◌, ◌<◌, ◌++◌, ◌∷◌, List, IfOk, OnOk, suc, length, map, replicate, false};
ghost use Rattle.type_graph.specs.Shapes.{shape, shapes_of};
ghost use Rattle.type_graph.specs.Arena.{EachType};
ghost use Rattle.layout_lp64.specs.Tables.{InStep};
ghost use Rattle.execution.specs.Calls.{value_at_end};
ghost use Rattle.cil_tree.specs.Tree as plain;
ghost use Rattle.cil_tree.specs.View.{local_of, body_of};
ghost use Rattle.cil_check.specs.Seen.{seen_scope};
ghost use Rattle.cil_semantics.specs.Runs.{kinds_of, objects_from, body_objects};
ghost use Rattle.cil_code.specs.Calling.{kind_from};
ghost use Rattle.cil_code.specs.Taking.{datum_of};
ghost use Rattle.cil_frames.specs.Entering.{objects_of};
ghost use Rattle.cil_table.specs.Parts.{size_at, HasParts};

use byte_mem::{Byte, Cells, Value};
use cil_base::{LocalId, Memory, TypeId};
use cil_code::{Datum, Kind, kind_at, load};
use cil_frames::{Automatic, Function};
use cil_machine::{Setting, size_of};
use cil_tree::Local;
use std::alloc::Global;

/// The kinds of a function's parameters, in order.
#[tactic(auto, using(crate::proofs::PartLaws::kinds_next, crate::proofs::PartLaws::kinds_end))]
fn parameter_kinds(s: &Setting, params: &[TypeId]) -> Result<Vec<Option<Kind>>, Memory>
    requires step { InStep s.now.layouts.now s.now.scope.unit.now.graph }
    requires there { EachType (length s.now.scope.unit.now.graph.nodes) params.now }
    ensures { IfOk result (λ v. map kind_from v.items ≡ kinds_of s.now.scope.unit.now.graph (shapes_of (shape s.now.scope.unit.now.graph.nodes) params.now)) }
{
    let mut kinds = Vec::new(s.alloc);
    for i in 0..params.len() {
        kinds.push(kind_at(s, params[i]))?;
    }
    Ok(kinds)
}

/// The size of a local of that type, if it is complete.
fn local_size(s: &Setting, t: TypeId) -> Option<u32>
    requires { InStep s.now.layouts.now s.now.scope.unit.now.graph }
    ensures { result ≡ size_at s.now.scope.unit.now.graph t }
{
    if t.0 < s.scope.unit.graph.len() {
        size_of(s, t)
    } else {
        None
    }
}

/// The number of a local. More of them than a number can tell are told as want of memory.
fn local(i: usize) -> Result<LocalId, Memory>
    ensures { IfOk result (λ l. l.0 ≡ i) }
{
    match u32::try_from(i) {
        Ok(n) => Ok(LocalId(n)),
        Err(_) => Err(Memory),
    }
}

/// Adds the object of a local, if its type is complete.
fn push_object(s: &Setting, i: usize, x: Local, objects: &mut Vec<Automatic>) -> Result<(), Memory>
    requires { InStep s.now.layouts.now s.now.scope.unit.now.graph }
    ensures { OnOk result ((rest : List plain.Local) → objects_of objects.new.items ++ objects_from s.now.scope.unit.now.graph (suc i) rest
        ≡ objects_of objects.old.items ++ objects_from s.now.scope.unit.now.graph i (local_of s.now.scope.unit.now.graph.nodes s.now.scope.names.now x ∷ rest)) }
{
    match local_size(s, x.ty) {
        None => Ok(()),
        Some(size) => {
            let number = local(i)?;
            objects.push(Automatic { number, size })?;
            Ok(())
        }
    }
}

/// The objects of an activation behind its arguments: the locals behind the parameters (C11 6.2.4p5).
fn body_objects(s: &Setting) -> Result<Vec<Automatic>, Memory>
    requires { InStep s.now.layouts.now s.now.scope.unit.now.graph }
    ensures { IfOk result (λ v. objects_of v.items ≡ body_objects s.now.scope.unit.now.graph (body_of s.now.scope.unit.now.graph.nodes s.now.scope.names.now s.now.scope.body.now)) }
{
    let body = s.scope.body;
    let mut objects = Vec::new(s.alloc);
    for i in body.params.len()..body.locals.len() {
        push_object(s, i, body.locals[i], &mut objects)?;
    }
    Ok(objects)
}

/// So many unknown bytes.
fn unknown_bytes(alloc: Global, size: u32) -> Result<Cells, Memory>
    ensures { IfOk result (λ c. c ≡ replicate size Byte.Unknown) }
{
    let mut bytes = Vec::new(alloc);
    bytes.resize(size as usize, Byte::Unknown)?;
    Ok(Cells::new(bytes))
}

/// What nobody has given, of a kind (own).
fn unknown(alloc: Global, kind: Option<Kind>) -> Result<Datum, Memory>
    ensures { IfOk result (λ d. datum_of d ≡ value_at_end false (kind_from kind)) }
{
    match kind {
        Some(Kind::Bytes(size)) => Ok(Datum::Bytes(unknown_bytes(alloc, size)?)),
        Some(Kind::Void) | Some(Kind::Single(_)) | None => Ok(Datum::Single(Value::Unknown)),
    }
}

/// What a function gives whose body ends without a value: main 0 (C11 5.1.2.2.3p1), another nothing that is known (own,
/// over 6.9.1p12).
fn value_at_end(alloc: Global, main: bool, kind: Option<Kind>) -> Result<Datum, Memory>
    ensures { IfOk result (λ d. datum_of d ≡ value_at_end main (kind_from kind)) }
{
    if main {
        Ok(Datum::Single(Value::Int(0)))
    } else {
        unknown(alloc, kind)
    }
}

/// Loads a function, by its body and the types of its result and its parameters (C11 6.9.1).
///
/// Memory also comes where a number would not fit.
pub(crate) fn load_function(
    s: &Setting,
    main: bool,
    ret: TypeId,
    params: &[TypeId],
) -> Result<Function, Memory>
    requires step { InStep s.now.layouts.now s.now.scope.unit.now.graph }
    requires ret { ret.0 < length s.now.scope.unit.now.graph.nodes }
    requires params { EachType (length s.now.scope.unit.now.graph.nodes) params.now }
    ensures { IfOk result (HasParts (seen_scope s.now.scope) s.now.entities.now main (body_of s.now.scope.unit.now.graph.nodes s.now.scope.names.now s.now.scope.body.now)
        (shape s.now.scope.unit.now.graph.nodes ret.0) (shapes_of (shape s.now.scope.unit.now.graph.nodes) params.now)) }
{
    let code = load(s, &s.scope.body.stmts)?;
    let parameters = parameter_kinds(s, params)?;
    let result = kind_at(s, ret);
    let objects = body_objects(s)?;
    let end = value_at_end(s.alloc, main, result)?;
    Ok(Function {
        code,
        parameters,
        result,
        objects,
        end,
    })
}
