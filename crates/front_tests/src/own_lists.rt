use c_nodes::{DeclaratorNode, declared_of, unprototyped_of};
use c_parser::declare_own_list;
use c_tree::Declarator;
use cil_base::{Memory, NameId};
use std::alloc::Global;
use std::test::Fail;
use typedef_scopes::Scopes;

const F: NameId = NameId(0);

/// A typedef name of the file.
const T: NameId = NameId(1);

/// Another.
const U: NameId = NameId(2);

/// `f ( U )`, an identifier list, which no unit has where U is a typedef name.
fn identifiers(alloc: Global) -> Result<DeclaratorNode, Memory> {
    let names = vec![in alloc; U]?;
    let f = declared_of(alloc, 0, F)?;
    unprototyped_of(alloc, 0, f, names)
}

/// What T and U are told to be in a scope that the own list was declared in.
fn told(d: &Declarator, scopes: &mut Scopes) -> Result<(bool, bool), Memory> {
    scopes.declare(T, true)?;
    scopes.declare(U, true)?;
    scopes.enter()?;
    declare_own_list(d, scopes)?;
    Ok((scopes.is_type(T), scopes.is_type(U)))
}

#[test]
fn an_identifier_list_declares_its_names(rt: HostRuntime) -> Result<(), Fail> {
    let d = identifiers(rt.alloc())?;
    let mut scopes = Scopes::new(rt.alloc());
    assert_eq!(rt; told(d.tree(), &mut scopes)?, (true, false));
    Ok(())
}
