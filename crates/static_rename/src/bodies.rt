ghost use Rattle.std.specs.Prelude.{◌≡◌, ◌++◌, map, slice_set, OnOk, IfOk};
ghost use Rattle.cil_base.specs.NamePool.{Stays};
ghost use Rattle.static_rename.specs.Local.{IsTable, AreNamedLocals};
ghost use Rattle.static_rename.specs.Within.{is_sought, labels_from, label_order, label_wish, with_labels, named_locals, named_params, local_wishes, AreNamedLabels, IsNamedBody, IsNamedWithin, Each};

use crate::locals::{FileNames, local_names};
use cil_base::{Bases, Memory, NameId, NamePool};
use cil_tree::{Body, GlobalDecl, GlobalDef, Local};
use fresh_names::{Fresh, Wish};
use std::alloc::Global;
use type_things::impossible;

/// What the locals of a function ask for.
fn local_wishes(alloc: Global, base: NameId, locals: &[Local]) -> Result<Vec<Wish>, Memory>
    ensures { IfOk result (λ v. v.items ≡ local_wishes base locals.now) }
{
    let mut all = Vec::new(alloc);
    for i in 0..locals.len() {
        all.push(Wish::of(locals[i].name, base))?;
    }
    Ok(all)
}

/// Gives locals their names.
fn put_locals(locals: &mut Vec<Local>, names: &[NameId]) -> Result<(), Memory>
    ensures { OnOk result (locals.new.items ≡ named_locals locals.old.items names.now) }
{
    if locals.len() != names.len() {
        return Err(impossible());
    }
    for i in 0..names.len() {
        locals[i].name = names[i];
    }
    Ok(())
}

/// Gives the parameters the names of the first locals.
fn put_params(params: &mut Vec<NameId>, names: &[NameId]) -> Result<(), Memory>
    ensures { OnOk result (params.new.items ≡ named_params params.old.items names.now) }
{
    if names.len() < params.len() {
        return Err(impossible());
    }
    for i in 0..params.len() {
        params[i] = names[i];
    }
    Ok(())
}

/// Whether a label is a made one, or one of the source, as is asked.
fn is_sought(made: bool, base: NameId, label: NameId) -> bool
    ensures { result ≡ is_sought made base label }
{
    (label == base) == made
}

/// Puts the places of the labels that are made, or of those of the source, behind others.
fn push_labels(
    all: &mut Vec<usize>,
    made: bool,
    base: NameId,
    labels: &[NameId],
) -> Result<(), Memory>
    ensures { OnOk result (all.new.items ≡ all.old.items ++ labels_from made base 0 labels.now) }
{
    for i in 0..labels.len() {
        if is_sought(made, base, labels[i]) {
            all.push(i)?;
        }
    }
    Ok(())
}

/// The order in which labels are named: those of the source first.
fn label_order(alloc: Global, base: NameId, labels: &[NameId]) -> Result<Vec<usize>, Memory>
    ensures { IfOk result (λ v. v.items ≡ label_order base labels.now) }
{
    let mut all = Vec::new(alloc);
    push_labels(&mut all, false, base, labels)?;
    push_labels(&mut all, true, base, labels)?;
    Ok(all)
}

/// What the label of a place asks for.
fn label_wish(base: NameId, labels: &[NameId], i: usize) -> Wish
    ensures { result ≡ label_wish base labels.now i }
{
    match labels.get(i) {
        Some(label) => Wish::of(*label, base),
        None => Wish::Made(base),
    }
}

/// What labels ask for.
fn label_wishes(
    alloc: Global,
    base: NameId,
    labels: &[NameId],
    order: &[usize],
) -> Result<Vec<Wish>, Memory>
    ensures { IfOk result (λ v. v.items ≡ map (label_wish base labels.now) order.now) }
{
    let mut all = Vec::new(alloc);
    for i in 0..order.len() {
        all.push(label_wish(base, labels, order[i]))?;
    }
    Ok(all)
}

/// Gives a label its name.
fn put_label(labels: &mut Vec<NameId>, place: usize, name: NameId) -> Result<(), Memory>
    ensures { OnOk result (labels.new.items ≡ slice_set labels.old.items place name) }
{
    if place >= labels.len() {
        return Err(impossible());
    }
    labels[place] = name;
    Ok(())
}

/// Gives labels their names.
fn put_labels(labels: &mut Vec<NameId>, order: &[usize], names: &[NameId]) -> Result<(), Memory>
    ensures { OnOk result (labels.new.items ≡ with_labels order.now names.now labels.old.items) }
{
    if order.len() != names.len() {
        return Err(impossible());
    }
    for i in 0..order.len() {
        put_label(labels, order[i], names[i])?;
    }
    Ok(())
}

/// Gives the labels of a function their names.
fn name_labels(
    alloc: Global,
    names: &mut NamePool,
    base: NameId,
    labels: &mut Vec<NameId>,
) -> Result<(), Memory>
    ensures stays { Stays names.old names.new }
    ensures named { OnOk result (AreNamedLabels names.new base labels.old.items labels.new.items) }
{
    let order = label_order(alloc, base, labels)?;
    let wishes = label_wishes(alloc, base, labels, &order)?;
    let mut fresh = Fresh::new(alloc);
    let given = fresh.give_all(names, &wishes)?;
    put_labels(labels, &order, &given)
}

/// Gives the locals and the parameters of a function their names.
fn name_locals(
    alloc: Global,
    file: &mut FileNames,
    names: &mut NamePool,
    base: NameId,
    body: &mut Body,
) -> Result<(), Memory>
    requires table { IsTable file.old names.old }
    ensures kept { OnOk result (file.new.names.taken.keys ≡ file.old.names.taken.keys) }
    ensures stays { Stays names.old names.new }
    ensures table { OnOk result (IsTable file.new names.new) }
    ensures named { OnOk result (AreNamedLocals file.old.names.taken.keys names.new base body.old body.new) }
{
    let wishes = local_wishes(alloc, base, &body.locals)?;
    let given = local_names(alloc, file, names, &wishes)?;
    put_locals(&mut body.locals, &given)?;
    put_params(&mut body.params, &given)
}

/// Gives what a function declares its names.
#[tactic(auto, using(crate::proofs::BodyLaws::body_named, fresh_names::proofs::NamingLaws::stays_twice, crate::proofs::LocalLaws::table_stays))]
fn name_body(
    alloc: Global,
    file: &mut FileNames,
    names: &mut NamePool,
    bases: Bases,
    body: &mut Body,
) -> Result<(), Memory>
    requires table { IsTable file.old names.old }
    ensures kept { OnOk result (file.new.names.taken.keys ≡ file.old.names.taken.keys) }
    ensures stays { Stays names.old names.new }
    ensures table { OnOk result (IsTable file.new names.new) }
    ensures named { OnOk result (IsNamedBody file.old.names.taken.keys names.new bases body.old body.new) }
{
    name_locals(alloc, file, names, bases.temporary, body)?;
    name_labels(alloc, names, bases.label, &mut body.labels)
}

/// Gives what a global's body declares its names.
fn name_within(
    alloc: Global,
    file: &mut FileNames,
    names: &mut NamePool,
    bases: Bases,
    global: &mut GlobalDecl,
) -> Result<(), Memory>
    requires table { IsTable file.old names.old }
    ensures kept { OnOk result (file.new.names.taken.keys ≡ file.old.names.taken.keys) }
    ensures stays { Stays names.old names.new }
    ensures table { OnOk result (IsTable file.new names.new) }
    ensures named { OnOk result (IsNamedWithin file.old.names.taken.keys names.new bases global.old global.new) }
{
    match &mut global.def {
        GlobalDef::Body(body) => name_body(alloc, file, names, bases, body),
        GlobalDef::Declared | GlobalDef::Zero | GlobalDef::Image(_) => Ok(()),
    }
}

/// Gives what the functions of a unit declare its names.
#[tactic(auto, using(crate::proofs::EachLaws::none_yet, crate::proofs::BodyLaws::within_next, crate::proofs::EachLaws::each_of, fresh_names::proofs::NamingLaws::stays_twice))]
pub(crate) fn name_bodies(
    alloc: Global,
    file: &mut FileNames,
    names: &mut NamePool,
    bases: Bases,
    globals: &mut Vec<GlobalDecl>,
) -> Result<(), Memory>
    requires table { IsTable file.old names.old }
    ensures kept { OnOk result (file.new.names.taken.keys ≡ file.old.names.taken.keys) }
    ensures stays { Stays names.old names.new }
    ensures table { OnOk result (IsTable file.new names.new) }
    ensures named { OnOk result (Each (IsNamedWithin file.old.names.taken.keys names.new bases) globals.old.items globals.new.items) }
{
    for e in 0..globals.len() {
        name_within(alloc, file, names, bases, &mut globals[e])?;
    }
    Ok(())
}
