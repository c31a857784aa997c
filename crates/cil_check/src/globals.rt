ghost use Rattle.std.specs.Prelude.{◌≡◌, ◌<◌, ◌↔◌, IfOk, length, true};
ghost use Rattle.std.specs.List.{list_all};
ghost use Rattle.type_graph.specs.Shapes.{shape};
ghost use Rattle.layout_lp64.specs.Tables.{InStep};
ghost use Rattle.cil_tree.specs.View.{program_of, global_of};
ghost use Rattle.cil_tree.specs.Globals.{has_definition, internal_is_defined, object_is_complete, definition_fits, typed_fits, global_fits};
ghost use Rattle.cil_tree.specs.Programs.{IsProgram};
ghost use Rattle.cil_check.specs.WholePrograms.{is_object_type, parts_rules};

use crate::bodies::body_fits;
use crate::expressions::number_at;
use crate::images::image_fits;
use crate::names::names_fit;
use crate::operators::{is_function, is_void};
use crate::scope::Scope;
use crate::types::well_formed_layouts;
use cil_base::{Memory, NamePool, TypeId};
use cil_tree::{CilUnit, GlobalDecl, GlobalDef};
use layout_lp64::Layouts;
use type_graph::TypeGraph;

/// Whether a type is an object type that is not void, complete or not.
fn is_object_type(g: &TypeGraph, t: TypeId) -> bool
    requires { t.0 < length g.now.nodes }
    ensures { result ≡ is_object_type (shape g.now.nodes t.0) }
{
    !is_void(g, t) && !is_function(g, t)
}

/// Whether a global of a type is defined as that type may be: a function is declared or has a body, and an object has
/// no body and is not void.
fn has_definition(u: &CilUnit, names: &NamePool, t: TypeId, x: &GlobalDecl) -> bool
    requires { t.0 < length u.now.graph.nodes }
    ensures { result ≡ has_definition (shape u.now.graph.nodes t.0) (global_of u.now.graph.nodes names.now x.now).definition }
{
    let g = &u.graph;
    match &x.def {
        GlobalDef::Declared => !is_void(g, t),
        GlobalDef::Zero => is_object_type(g, t),
        GlobalDef::Image(_) => is_object_type(g, t),
        GlobalDef::Body(_) => is_function(g, t),
    }
}

/// Whether a global is not both internal and declared alone.
fn internal_is_defined(u: &CilUnit, names: &NamePool, x: &GlobalDecl) -> bool
    ensures { result ≡ internal_is_defined (global_of u.now.graph.nodes names.now x.now) }
{
    match &x.def {
        GlobalDef::Declared => !x.internal,
        GlobalDef::Zero | GlobalDef::Image(_) | GlobalDef::Body(_) => true,
    }
}

/// Whether an object that is defined is complete (C11 6.9.2).
fn object_is_complete(u: &CilUnit, names: &NamePool, t: TypeId, x: &GlobalDecl) -> bool
    requires { t.0 < length u.now.graph.nodes }
    ensures { result ≡ object_is_complete u.now.graph (shape u.now.graph.nodes t.0) (global_of u.now.graph.nodes names.now x.now).definition }
{
    match &x.def {
        GlobalDef::Zero | GlobalDef::Image(_) => u.graph.is_complete(t),
        GlobalDef::Declared | GlobalDef::Body(_) => true,
    }
}

/// Whether the image or body of a global fits its type.
///
/// Memory comes only for want of memory.
fn definition_fits(
    u: &CilUnit,
    names: &NamePool,
    l: &Layouts,
    t: TypeId,
    x: &GlobalDecl,
) -> Result<bool, Memory>
    requires step { InStep l.now u.now.graph }
    requires there { t.0 < length u.now.graph.nodes }
    ensures { IfOk result (λ b. b ≡ definition_fits (program_of names.now u.now) (shape u.now.graph.nodes t.0) (global_of u.now.graph.nodes names.now x.now).definition) }
{
    match &x.def {
        GlobalDef::Declared | GlobalDef::Zero => Ok(true),
        GlobalDef::Image(items) => Ok(image_fits(u, names, l, t, items)),
        GlobalDef::Body(body) => {
            let scope = Scope {
                unit: u,
                names,
                body,
            };
            body_fits(&scope, t)
        }
    }
}

/// Whether a global of a type fits.
///
/// Memory comes only for want of memory.
fn typed_fits(
    u: &CilUnit,
    names: &NamePool,
    l: &Layouts,
    t: TypeId,
    x: &GlobalDecl,
) -> Result<bool, Memory>
    requires step { InStep l.now u.now.graph }
    requires there { t.0 < length u.now.graph.nodes }
    ensures { IfOk result (λ b. b ≡ typed_fits (program_of names.now u.now) (shape u.now.graph.nodes t.0) (global_of u.now.graph.nodes names.now x.now)) }
{
    if !has_definition(u, names, t, x) {
        return Ok(false);
    }
    if !internal_is_defined(u, names, x) {
        return Ok(false);
    }
    if !object_is_complete(u, names, t, x) {
        return Ok(false);
    }
    definition_fits(u, names, l, t, x)
}

/// Whether a global has a type of the program's, and fits.
///
/// Memory comes only for want of memory.
fn global_fits(u: &CilUnit, names: &NamePool, l: &Layouts, x: &GlobalDecl) -> Result<bool, Memory>
    requires { InStep l.now u.now.graph }
    ensures { IfOk result (λ b. b ≡ global_fits (program_of names.now u.now) (global_of u.now.graph.nodes names.now x.now)) }
{
    match number_at(&u.graph, x.ty) {
        None => Ok(false),
        Some(t) => typed_fits(u, names, l, t, x),
    }
}

/// Whether each global fits.
///
/// Memory comes only for want of memory.
#[tactic(auto, using(crate::proofs::BodySteps::each_from))]
fn globals_fit(u: &CilUnit, names: &NamePool, l: &Layouts) -> Result<bool, Memory>
    requires { InStep l.now u.now.graph }
    ensures { IfOk result (λ b. b ≡ list_all (global_fits (program_of names.now u.now)) (program_of names.now u.now).globals) }
{
    let globals = u.globals.as_slice();
    for i in 0..globals.len() {
        if !global_fits(u, names, l, &globals[i])? {
            return Ok(false);
        }
    }
    Ok(true)
}

/// Whether names and globals keep their rules.
///
/// Memory comes only for want of memory.
fn names_and_globals_fit(u: &CilUnit, names: &NamePool, l: &Layouts) -> Result<bool, Memory>
    requires { InStep l.now u.now.graph }
    ensures { IfOk result (λ b. b ≡ parts_rules (program_of names.now u.now)) }
{
    if !names_fit(u, names)? {
        return Ok(false);
    }
    globals_fit(u, names, l)
}

/// Whether a tree is a well-formed program, with the texts of a pool.
///
/// Numbers out of range, of types, names, globals, locals, labels or members, make it false. Memory comes only for
/// want of memory.
#[tactic(auto, using(crate::proofs::ProgramLaws::untyped))]
pub fn check(u: &CilUnit, names: &NamePool) -> Result<bool, Memory>
    ensures { IfOk result (λ b. (b ≡ true) ↔ IsProgram (program_of names.now u.now)) }
{
    // What is known of an arena is known where it is read.
    let _types = u.graph.len();
    match well_formed_layouts(u.graph.alloc(), &u.graph)? {
        None => Ok(false),
        Some(layouts) => names_and_globals_fit(u, names, &layouts),
    }
}
