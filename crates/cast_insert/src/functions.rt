use crate::body::{Around, Body};
use crate::statements::items;
use c_tree::{FunctionDefinition, Parameter};
use cast_exprs::{derivations, specifiers};
use cil_base::{EntityId, LocalId, TypeId};
use decl_types::{Behind, BodyForm, Declaring, Form, Position, heading_of};
use std::mem;
use type_graph::QualType;
use typed_parts::{
    DeclaredName, Derivation, OwnList, Places, Role, WalkStop, Walker, Within, built, declare,
    impossible, named, own_list, placed, specifiers_at,
};
use typed_tree::{Definition, FunctionLists, TypedFunction, TypedStmt, function_body};
use unit_types::Class;

/// Whether each parameter of a list has a name.
fn are_named(ps: &[Parameter]) -> bool {
    for p in ps {
        if named(&p.declarator).is_none() {
            return false;
        }
    }
    true
}

/// Whether the first derivation has no parameters: their list is `void` alone (C11 6.7.6.3p10).
fn has_none(ds: &[Derivation]) -> bool {
    match ds {
        [Derivation::Function(params, _), ..] => params.is_empty(),
        _ => false,
    }
}

/// What the declarator of a function definition is (C11 6.9.1p2, p5, p6).
fn body_form(own: OwnList, ds: &[Derivation]) -> BodyForm {
    match own {
        OwnList::None => BodyForm::NotFunction,
        OwnList::Identifiers(names) => {
            if names.is_empty() {
                BodyForm::Empty
            } else {
                BodyForm::Identifiers
            }
        }
        OwnList::Parameters(ps) => {
            if has_none(ds) || are_named(ps) {
                BodyForm::Prototype
            } else {
                BodyForm::Unnamed
            }
        }
    }
}

/// What a function definition declares.
#[derive(Clone, Copy)]
struct Head {
    name: DeclaredName,
    entity: EntityId,
    result: TypeId,
}

/// The type of the result of a function type.
fn result_of(w: &Walker<'_>, ty: QualType) -> Result<TypeId, WalkStop> {
    match w.types.class(ty.of) {
        Class::Func { ret, .. } => Ok(ret),
        Class::Void | Class::Int(_) | Class::Ptr(_) | Class::Array(..) | Class::Agg(..) => {
            Err(impossible())
        }
    }
}

/// Opens a scope for a declarator without a list of its own: it is refused with the scope of parameters open.
fn parameters_opened(w: &mut Walker<'_>, own: OwnList) -> Result<(), WalkStop> {
    match own {
        OwnList::None => Ok(w.declarer.enter()?),
        OwnList::Parameters(_) | OwnList::Identifiers(_) => Ok(()),
    }
}

/// The specifiers and the declarator of a function definition (C11 6.9.1). The scope of its parameters is then open.
fn head_of(w: &mut Walker<'_>, d: &FunctionDefinition) -> Result<Head, WalkStop> {
    let at = specifiers_at(&d.specifiers)?;
    let heading = placed(at, heading_of(&d.specifiers, Position::Definition))?;
    let base = specifiers(w, &d.specifiers, Behind::Declarators)?;
    let mut ds = Vec::new(w.alloc);
    derivations(w, &d.declarator, Role::Definition, &mut ds)?;
    let Some(name) = named(&d.declarator) else {
        return Err(impossible());
    };
    let ty = built(w, name.at, base, &ds)?;
    let own = own_list(&d.declarator);
    parameters_opened(w, own)?;
    let form = body_form(own, &ds);
    let places = Places {
        specifiers: at,
        name: name.at,
        init: name.at,
    };
    let declared = declare(w, places, name.name, ty, heading, Form::Body(form))?;
    match declared.what {
        Declaring::Entity(entity) => Ok(Head {
            name,
            entity,
            result: result_of(w, ty)?,
        }),
        Declaring::Typedef | Declaring::Enumerator(_) | Declaring::Local(_) => Err(impossible()),
    }
}

/// The parameters of a function that is defined, in the order of the text (C11 6.9.1p7).
fn defined_parameters(w: &Walker<'_>, ps: &[Parameter]) -> Result<(), WalkStop> {
    for (i, p) in ps.iter().enumerate() {
        if let Some(n) = named(&p.declarator) {
            if i >= u32::MAX as usize {
                return Err(impossible());
            }
            placed(
                n.at,
                w.declarer.defined_parameter(LocalId(i as u32), &w.types),
            )?;
        }
    }
    Ok(())
}

/// The parameters of a function's own list.
fn own_parameters(d: &FunctionDefinition) -> &[Parameter] {
    match own_list(&d.declarator) {
        OwnList::Parameters(ps) => ps,
        OwnList::Identifiers(_) | OwnList::None => &[],
    }
}

/// The function that a body makes, whose items are walked.
fn function_of(w: &mut Walker<'_>, f: Body, body: Vec<TypedStmt>) -> TypedFunction {
    let declared = w.declarer.end_function();
    let literals = mem::replace(&mut w.literals, Vec::new(w.alloc));
    let lists = FunctionLists {
        params: declared.params,
        locals: declared.locals,
        literals,
        labels: f.labels.names,
    };
    function_body(lists, body)
}

/// A function definition (C11 6.9.1): its parameters and the outermost block of its body are one scope (6.2.1p4).
pub(crate) fn definition(w: &mut Walker<'_>, d: &FunctionDefinition) -> Result<(), WalkStop> {
    let head = head_of(w, d)?;
    w.note(head.entity, head.name.at)?;
    defined_parameters(w, own_parameters(d))?;
    w.within = Within::Function;
    let mut f = Body::new(w.alloc, head.result);
    let mut body = Vec::new(w.alloc);
    items(w, &mut f, Around::Nothing, &d.body, &mut body)?;
    f.labels.all_set()?;
    w.declarer.leave()?;
    w.within = Within::File;
    let function = function_of(w, f, body);
    w.define(head.entity, head.name.at, false, Definition::Body(function))
}
