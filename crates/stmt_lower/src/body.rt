use crate::labels::Labels;
use crate::statements::{Frame, statements};
use cil_base::{Memory, NameId, TypeId};
use cil_tree::Body;
use lower_parts::{FunctionOut, impossible, param_of, result_of};
use std::alloc::Global;
use typed_tree::{TypedFunction, TypedLiteral, TypedLocal};

/// Declares the parameters, with the types that they have in the printed type of the function.
fn declare_params(f: &mut FunctionOut, params: &[TypedLocal], t: TypeId) -> Result<(), Memory> {
    for i in 0..params.len() {
        match param_of(&f.unit.graph, t, i) {
            Some(param) => f.declare(params[i].name, param)?,
            None => return Err(impossible()),
        }
    }
    Ok(())
}

/// Declares the objects of the function, each with its own type.
fn declare_objects(f: &mut FunctionOut, objects: &[TypedLocal]) -> Result<(), Memory> {
    for object in objects {
        let t = f.unit.mapped(object.ty.of)?;
        f.declare(object.name, t)?;
    }
    Ok(())
}

/// Adds the compound literals.
fn add_literals(f: &mut FunctionOut, literals: &[TypedLiteral]) -> Result<(), Memory> {
    for literal in literals {
        let t = f.unit.mapped(literal.ty.of)?;
        f.add_unnamed(t)?;
    }
    Ok(())
}

/// Gives the function its locals but for the temporaries, and the names of its parameters.
fn begin(f: &mut FunctionOut, d: &TypedFunction, t: TypeId) -> Result<Vec<NameId>, Memory> {
    let count = d.params as usize;
    if count > d.locals.len() {
        return Err(impossible());
    }
    declare_params(f, &d.locals[..count], t)?;
    declare_objects(f, &d.locals[count..])?;
    add_literals(f, &d.literals)?;
    names_of(f.alloc(), &d.locals[..count])
}

/// The names of parameters.
fn names_of(alloc: Global, params: &[TypedLocal]) -> Result<Vec<NameId>, Memory> {
    let mut names = Vec::with_capacity(alloc, params.len())?;
    for param in params {
        names.push(param.name)?;
    }
    Ok(names)
}

/// The body of a function that the program prints with a type (C11 6.9.1).
pub fn function(f: &mut FunctionOut, d: &TypedFunction, t: TypeId) -> Result<Body, Memory> {
    let params = begin(f, d, t)?;
    let Some(ret) = result_of(&f.unit.graph, t) else {
        return Err(impossible());
    };
    let alloc = f.alloc();
    let labels = Labels::of(alloc, &d.body, &d.labels, f.unit.bases.label)?;
    let mut frame = Frame { labels, ret };
    let mut stmts = Vec::with_capacity(alloc, d.body.len())?;
    statements(f, &mut frame, &d.body, None, &mut stmts)?;
    Ok(Body {
        params,
        locals: f.take_locals(),
        labels: frame.labels.names,
        stmts,
    })
}
