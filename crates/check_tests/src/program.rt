use cil_base::{Memory, NameId, NamePool, TypeId};
use cil_tree::{Body, CilUnit, GlobalDecl, GlobalDef, Local};
use std::alloc::Global;
use type_graph::TypeGraph;

/// A program without types and globals.
pub(crate) fn empty(alloc: Global) -> CilUnit {
    CilUnit {
        graph: TypeGraph::new(alloc),
        globals: Vec::new(alloc),
    }
}

/// A body of nothing.
pub(crate) fn no_body(alloc: Global) -> Body {
    Body {
        params: Vec::new(alloc),
        locals: Vec::new(alloc),
        labels: Vec::new(alloc),
        stmts: Vec::new(alloc),
    }
}

/// Adds a local.
pub(crate) fn add_local(
    locals: &mut Vec<Local>,
    pool: &mut NamePool,
    name: &[u8],
    ty: TypeId,
) -> Result<NameId, Memory> {
    let name = pool.intern(name)?;
    locals.push(Local { name, ty })?;
    Ok(name)
}

/// Adds an external global that has no definition.
pub(crate) fn declare(
    globals: &mut Vec<GlobalDecl>,
    pool: &mut NamePool,
    name: &[u8],
    ty: TypeId,
) -> Result<(), Memory> {
    let name = pool.intern(name)?;
    globals.push(GlobalDecl {
        name,
        ty,
        internal: false,
        def: GlobalDef::Declared,
    })?;
    Ok(())
}

/// Adds an object of zeros.
pub(crate) fn add_zero(
    globals: &mut Vec<GlobalDecl>,
    name: NameId,
    ty: TypeId,
    internal: bool,
) -> Result<(), Memory> {
    globals.push(GlobalDecl {
        name,
        ty,
        internal,
        def: GlobalDef::Zero,
    })?;
    Ok(())
}

/// Adds an external function.
pub(crate) fn add_function(
    globals: &mut Vec<GlobalDecl>,
    name: NameId,
    ty: TypeId,
    body: Body,
) -> Result<(), Memory> {
    globals.push(GlobalDecl {
        name,
        ty,
        internal: false,
        def: GlobalDef::Body(body),
    })?;
    Ok(())
}
