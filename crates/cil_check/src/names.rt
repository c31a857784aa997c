ghost use Rattle.std.specs.Prelude.{◌≡◌, ◌<◌, ◌&&◌, ◌++◌, IfOk, OnOk, IfSome, is_some, map, length, true, false, [], List, ℕ};
ghost use Rattle.std.specs.List.{list_all};
ghost use Rattle.type_graph.specs.Shapes.{shape, shape_of, shapes_of, VoidType, IntType, MoreTypes, NoTypes};
ghost use Rattle.type_graph.specs.declared.nodes.Node.{Node};
ghost use Rattle.cil_base.specs.Integer.{ulong_of};
ghost use Rattle.cil_tree.specs.Declarators.{tag_text};
ghost use Rattle.type_graph.specs.Arena.{NamesBelow, EachType};
ghost use Rattle.cil_tree.specs.View.{text_at, type_at, global_of, definition_of, program_of, body_of};
ghost use Rattle.cil_tree.specs.Typing.{same_shape, same_shapes, is_type, pointer_to};
ghost use Rattle.cil_tree.specs.Names.{memset_type, is_declared, is_memset, global_is_named, internal_is_apart, members_are_named, member_names, enumerators, file_names, tags, are_different, are_apart, is_among, host_names, body_is_named, definition_is_named, is_plain_name};
ghost use Rattle.cil_check.specs.NameLists.{member_id, global_id, local_id, member_ids, enumerator_ids_of, enumerator_ids, tag_ids_of, tag_ids, AllIn};
ghost use Rattle.cil_check.specs.FileNames.{KnowsFile, locals_named, within_is_named, names_rules};

use crate::bodies::text_at;
use crate::expressions::number_at;
use crate::name_sets::{add_fresh, all_plain, are_different, are_named_apart, is_plain};
use crate::operators::is_void;
use crate::seen::same_quals;
use crate::words::{is_builtin, is_host_name, is_name};
use cil_base::{AggId, IntKind, Memory, NameId, NamePool, TypeId};
use cil_tree::{Body, CilUnit, GlobalDecl, GlobalDef, Local};
use indexmap::IndexSet;
use type_graph::{AggKind, Aggregate, Member, Node, Quals, TypeGraph};

/// Adds the names of members.
///
/// After Memory some of them are added.
fn add_member_names(members: &[Member], ids: &mut Vec<NameId>) -> Result<(), Memory>
    ensures { OnOk result (ids.new.items ≡ ids.old.items ++ map member_id members.now) }
{
    for i in 0..members.len() {
        ids.push(members[i].name)?;
    }
    Ok(())
}

/// Adds the names of the members of an aggregate, if it has any.
///
/// After Memory some of them are added.
fn add_names_of(x: &Aggregate, ids: &mut Vec<NameId>) -> Result<(), Memory>
    ensures { OnOk result (ids.new.items ≡ ids.old.items ++ member_ids x.now) }
{
    match &x.members {
        None => Ok(()),
        Some(members) => add_member_names(members.as_slice(), ids),
    }
}

/// Whether the members of an aggregate have plain names, no two alike.
///
/// Memory comes only for want of memory.
#[tactic(auto, using(crate::proofs::NameSteps::member_names_are))]
fn members_named_apart(u: &CilUnit, names: &NamePool, x: &Aggregate) -> Result<bool, Memory>
    ensures { IfOk result (λ b. b ≡ (list_all is_plain_name (member_names (program_of names.now u.now) x.now) && are_different (member_names (program_of names.now u.now) x.now))) }
{
    let alloc = u.graph.alloc();
    let mut ids = Vec::new(alloc);
    add_names_of(x, &mut ids)?;
    are_named_apart(alloc, names, &ids)
}

/// Whether an aggregate's tag is a plain name.
fn tag_is_named(u: &CilUnit, names: &NamePool, x: &Aggregate) -> bool
    ensures { result ≡ is_plain_name (tag_text (program_of names.now u.now) x.now) }
{
    match x.tag {
        None => false,
        Some(tag) => is_plain(names, tag),
    }
}

/// Whether an aggregate's tag and members are named, and no two members alike (C11 6.2.3).
///
/// Memory comes only for want of memory.
fn members_are_named(u: &CilUnit, names: &NamePool, x: &Aggregate) -> Result<bool, Memory>
    ensures { IfOk result (λ b. b ≡ members_are_named (program_of names.now u.now) x.now) }
{
    if !tag_is_named(u, names, x) {
        return Ok(false);
    }
    members_named_apart(u, names, x)
}

/// Whether the members of each aggregate are named.
///
/// Memory comes only for want of memory.
#[tactic(auto, using(crate::proofs::NameSteps::all_found))]
fn all_members_are_named(u: &CilUnit, names: &NamePool) -> Result<bool, Memory>
    ensures { IfOk result (λ b. b ≡ list_all (members_are_named (program_of names.now u.now)) u.now.graph.aggs) }
{
    for a in 0..u.graph.agg_count() {
        if !members_are_named(u, names, u.graph.agg(AggId(a)))? {
            return Ok(false);
        }
    }
    Ok(true)
}

/// Adds the names of an enum's enumerators; nothing for a struct or union.
fn add_enumerators_of(x: &Aggregate, ids: &mut Vec<NameId>) -> Result<(), Memory>
    ensures { OnOk result (ids.new.items ≡ ids.old.items ++ enumerator_ids_of x.now) }
{
    match x.kind {
        AggKind::Enum => add_names_of(x, ids),
        AggKind::Struct | AggKind::Union => Ok(()),
    }
}

/// Adds the names of all enumerators.
///
/// After Memory some of them are added.
#[tactic(auto, using(crate::proofs::NameSteps::enumerators_found))]
fn add_enumerators(g: &TypeGraph, ids: &mut Vec<NameId>) -> Result<(), Memory>
    ensures { OnOk result (ids.new.items ≡ ids.old.items ++ enumerator_ids g.now.aggs) }
{
    for a in 0..g.agg_count() {
        add_enumerators_of(g.agg(AggId(a)), ids)?;
    }
    Ok(())
}

/// Adds an aggregate's tag, if it has one.
fn add_tag(x: &Aggregate, ids: &mut Vec<NameId>) -> Result<(), Memory>
    ensures { OnOk result (ids.new.items ≡ ids.old.items ++ tag_ids_of x.now) }
{
    match x.tag {
        None => Ok(()),
        Some(tag) => {
            ids.push(tag)?;
            Ok(())
        }
    }
}

/// Adds all tags.
///
/// After Memory some of them are added.
#[tactic(auto, using(crate::proofs::NameSteps::tags_found))]
fn add_tags(g: &TypeGraph, ids: &mut Vec<NameId>) -> Result<(), Memory>
    ensures { OnOk result (ids.new.items ≡ ids.old.items ++ tag_ids g.now.aggs) }
{
    for a in 0..g.agg_count() {
        add_tag(g.agg(AggId(a)), ids)?;
    }
    Ok(())
}

/// Adds the names of globals.
///
/// After Memory some of them are added.
#[tactic(auto, using(crate::proofs::NameSteps::ids_from))]
fn add_globals(globals: &[GlobalDecl], ids: &mut Vec<NameId>) -> Result<(), Memory>
    ensures { OnOk result (ids.new.items ≡ ids.old.items ++ map global_id globals.now) }
{
    for i in 0..globals.len() {
        ids.push(globals[i].name)?;
    }
    Ok(())
}

/// Whether a name is one of the host's.
pub(crate) fn is_host(names: &NamePool, name: NameId) -> bool
    ensures { result ≡ is_among host_names (text_at names.now name) }
{
    is_host_name(text_at(names, name))
}

/// Whether no name is one of the host's.
#[tactic(auto, using(crate::proofs::NameSteps::apart_from))]
pub(crate) fn are_apart_from_host(names: &NamePool, ids: &[NameId]) -> bool
    ensures { result ≡ are_apart (map (text_at names.now) ids.now) host_names }
{
    for i in 0..ids.len() {
        if is_host(names, ids[i]) {
            return false;
        }
    }
    true
}

/// Whether a global is declared alone.
pub(crate) fn is_declared(def: &GlobalDef) -> bool
    ensures { (nodes : List Node) (texts : List (List ℕ)) → result ≡ is_declared (definition_of nodes texts def.now) }
{
    match def {
        GlobalDef::Declared => true,
        GlobalDef::Zero | GlobalDef::Image(_) | GlobalDef::Body(_) => false,
    }
}

/// Whether a type is `void *`.
#[tactic(auto, using(crate::proofs::NameSteps::void_is))]
fn is_void_pointer(g: &TypeGraph, t: TypeId) -> bool
    requires { t.0 < length g.now.nodes }
    ensures { result ≡ same_shape (shape g.now.nodes t.0) (pointer_to VoidType) }
{
    match g.node(t) {
        Node::Ptr(q) => {
            let none = Quals {
                constant: false,
                restricted: false,
            };
            same_quals(q.quals, none) && is_void(g, q.of)
        }
        Node::Void | Node::Int(_) | Node::Array(..) | Node::Func { .. } | Node::Agg(_) => false,
    }
}

/// Whether a type is that of a kind.
fn is_kind(g: &TypeGraph, t: TypeId, kind: IntKind) -> bool
    requires { t.0 < length g.now.nodes }
    ensures { result ≡ same_shape (shape g.now.nodes t.0) (IntType kind) }
{
    match g.node(t) {
        Node::Int(k) => *k == kind,
        Node::Void | Node::Ptr(_) | Node::Array(..) | Node::Func { .. } | Node::Agg(_) => false,
    }
}

/// Whether the one parameter is an `unsigned long`.
#[tactic(auto, using(crate::proofs::NameSteps::none_there))]
fn is_count(g: &TypeGraph, params: &[TypeId]) -> bool
    requires { EachType (length g.now.nodes) params.now }
    ensures { result ≡ same_shapes (shapes_of (shape g.now.nodes) params.now) (MoreTypes (IntType (ulong_of g.now.abi)) NoTypes) }
{
    match params {
        [] => false,
        [count, rest @ ..] => is_kind(g, *count, g.abi().ulong()) && rest.is_empty(),
    }
}

/// Whether the parameters are an int and an `unsigned long`.
fn are_byte_and_count(g: &TypeGraph, params: &[TypeId]) -> bool
    requires { EachType (length g.now.nodes) params.now }
    ensures { result ≡ same_shapes (shapes_of (shape g.now.nodes) params.now) (MoreTypes (IntType IntKind.Int) (MoreTypes (IntType (ulong_of g.now.abi)) NoTypes)) }
{
    match params {
        [] => false,
        [byte, rest @ ..] => is_kind(g, *byte, IntKind::Int) && is_count(g, rest),
    }
}

/// Whether parameters are those of the host's `__builtin_memset`: `void *`, `int` and `unsigned long`.
fn are_memset_parameters(g: &TypeGraph, params: &[TypeId]) -> bool
    requires { EachType (length g.now.nodes) params.now }
    ensures { result ≡ same_shapes (shapes_of (shape g.now.nodes) params.now) (MoreTypes (pointer_to VoidType) (MoreTypes (IntType IntKind.Int) (MoreTypes (IntType (ulong_of g.now.abi)) NoTypes))) }
{
    match params {
        [] => false,
        [to, rest @ ..] => is_void_pointer(g, *to) && are_byte_and_count(g, rest),
    }
}

/// Whether a function type is that of the host's `__builtin_memset`.
fn is_memset_node(g: &TypeGraph, n: &Node) -> bool
    requires { NamesBelow (length g.now.nodes) (length g.now.aggs) n.now }
    ensures { result ≡ same_shape (shape_of (shape g.now.nodes) n.now) (memset_type g.now) }
{
    match n {
        Node::Func {
            ret,
            params,
            proto,
            variadic,
        } => {
            is_void_pointer(g, *ret)
                && are_memset_parameters(g, params.as_slice())
                && (*proto && !*variadic)
        }
        Node::Void | Node::Int(_) | Node::Ptr(_) | Node::Array(..) | Node::Agg(_) => false,
    }
}

/// Whether a type is that of the host's `__builtin_memset`.
#[tactic(auto, using(crate::proofs::TypeSteps::names_there))]
fn is_memset_type(g: &TypeGraph, t: TypeId) -> bool
    requires { t.0 < length g.now.nodes }
    ensures { result ≡ same_shape (shape g.now.nodes t.0) (memset_type g.now) }
{
    is_memset_node(g, g.node(t))
}

/// Whether a global is the host's `__builtin_memset`, declared alone with its type.
fn is_memset(u: &CilUnit, names: &NamePool, x: &GlobalDecl) -> bool
    ensures { result ≡ is_memset (program_of names.now u.now) (global_of u.now.graph.nodes names.now x.now) }
{
    text_at(names, x.name) == b"__builtin_memset".as_slice()
        && !x.internal
        && is_declared(&x.def)
        && has_memset_type(&u.graph, x.ty)
}

/// Whether a type that the graph may have is that of the host's `__builtin_memset`.
fn has_memset_type(g: &TypeGraph, t: TypeId) -> bool
    ensures { result ≡ is_type (type_at g.now.nodes t) (memset_type g.now) }
{
    match number_at(g, t) {
        None => false,
        Some(t) => is_memset_type(g, t),
    }
}

/// Whether a global has a name that it may have: one that does not begin with `__builtin_`, but for the host's function.
fn global_is_named(u: &CilUnit, names: &NamePool, x: &GlobalDecl) -> bool
    ensures { result ≡ global_is_named (program_of names.now u.now) (global_of u.now.graph.nodes names.now x.now) }
{
    let text = text_at(names, x.name);
    is_name(text) && (!is_builtin(text) || is_memset(u, names, x))
}

/// Whether each global has a name that it may have.
#[tactic(auto, using(crate::proofs::BodySteps::each_from))]
fn globals_are_named(u: &CilUnit, names: &NamePool) -> bool
    ensures { result ≡ list_all (global_is_named (program_of names.now u.now)) (program_of names.now u.now).globals }
{
    let globals = u.globals.as_slice();
    for i in 0..globals.len() {
        if !global_is_named(u, names, &globals[i]) {
            return false;
        }
    }
    true
}

/// Whether a global that is internal has no name of the host.
fn internal_is_apart(u: &CilUnit, names: &NamePool, x: &GlobalDecl) -> bool
    ensures { result ≡ internal_is_apart (global_of u.now.graph.nodes names.now x.now) }
{
    !x.internal || !is_host(names, x.name)
}

/// Whether no internal global has a name of the host.
#[tactic(auto, using(crate::proofs::BodySteps::each_from))]
fn internals_are_apart(u: &CilUnit, names: &NamePool) -> bool
    ensures { result ≡ list_all internal_is_apart (program_of names.now u.now).globals }
{
    let globals = u.globals.as_slice();
    for i in 0..globals.len() {
        if !internal_is_apart(u, names, &globals[i]) {
            return false;
        }
    }
    true
}

/// The numbers of the names of file scope, which are enumerators' and globals'.
#[tactic(auto, using(crate::proofs::FileLaws::enumerators_are, crate::proofs::FileLaws::file_names_are, crate::proofs::FileLaws::file_names_in, crate::proofs::FileLaws::file_differs, crate::proofs::FileLaws::knows))]
fn file_set(u: &CilUnit, names: &NamePool) -> Result<Option<IndexSet<u32>>, Memory>
    requires globals { list_all (global_is_named (program_of names.now u.now)) (program_of names.now u.now).globals ≡ true }
    requires members { list_all (members_are_named (program_of names.now u.now)) u.now.graph.aggs ≡ true }
    ensures exact { IfOk result (λ o. is_some o ≡ (are_apart (enumerators (program_of names.now u.now)) host_names && are_different (file_names (program_of names.now u.now)))) }
    ensures knows { IfOk result (λ o. IfSome o (λ s. KnowsFile s.keys (program_of names.now u.now))) }
{
    let alloc = u.graph.alloc();
    let mut ids = Vec::new(alloc);
    add_enumerators(&u.graph, &mut ids)?;
    if !are_apart_from_host(names, &ids) {
        return Ok(None);
    }
    add_globals(&u.globals, &mut ids)?;
    // What is known of a pool is known where it is read.
    let _count = names.len();
    let mut file = IndexSet::new(alloc);
    if !add_fresh(&mut file, &ids)? {
        return Ok(None);
    }
    Ok(Some(file))
}

/// Whether no two aggregates have one tag (C11 6.2.3).
///
/// Memory comes only for want of memory.
#[tactic(auto, using(crate::proofs::FileLaws::tags_in))]
fn tags_differ(u: &CilUnit, names: &NamePool) -> Result<bool, Memory>
    requires { list_all (members_are_named (program_of names.now u.now)) u.now.graph.aggs ≡ true }
    ensures { IfOk result (λ b. b ≡ are_different (tags (program_of names.now u.now))) }
{
    let alloc = u.graph.alloc();
    let mut ids = Vec::new(alloc);
    add_tags(&u.graph, &mut ids)?;
    are_different(alloc, names, &ids)
}

/// Whether no name stands in file scope.
#[tactic(auto, using(crate::proofs::NameSteps::apart_from, crate::proofs::FileLaws::name_at))]
fn are_apart_from_file(u: &CilUnit, names: &NamePool, file: &IndexSet<u32>, ids: &[NameId]) -> bool
    requires knows { KnowsFile file.now.keys (program_of names.now u.now) }
    requires there { AllIn (length names.now) ids.now }
    ensures { result ≡ are_apart (map (text_at names.now) ids.now) (file_names (program_of names.now u.now)) }
{
    // What is known of a pool is known where it is read.
    let _count = names.len();
    for i in 0..ids.len() {
        if is_in_file(u, names, file, ids[i]) {
            return false;
        }
    }
    true
}

/// Whether a name of the pool stands in file scope.
#[tactic(auto, using(crate::proofs::FileLaws::in_file))]
fn is_in_file(u: &CilUnit, names: &NamePool, file: &IndexSet<u32>, name: NameId) -> bool
    requires knows { KnowsFile file.now.keys (program_of names.now u.now) }
    requires there { name.0 < length names.now }
    ensures { result ≡ is_among (file_names (program_of names.now u.now)) (text_at names.now name) }
{
    // The texts of the pool and of the unit are what the numbers stand for.
    let _count = names.len();
    let _globals = u.globals.len();
    file.contains(&name.0)
}

/// Adds the names of locals.
///
/// After Memory some of them are added.
fn add_locals(locals: &[Local], ids: &mut Vec<NameId>) -> Result<(), Memory>
    ensures { OnOk result (ids.new.items ≡ ids.old.items ++ map local_id locals.now) }
{
    for i in 0..locals.len() {
        ids.push(locals[i].name)?;
    }
    Ok(())
}

/// Whether locals of a function have plain names of their own, which are neither in file scope nor the host's.
///
/// Memory comes only for want of memory.
#[tactic(auto, using(crate::proofs::NameLaws::all_plain_in))]
fn locals_are_named(
    u: &CilUnit,
    names: &NamePool,
    file: &IndexSet<u32>,
    ids: &[NameId],
) -> Result<bool, Memory>
    requires { KnowsFile file.now.keys (program_of names.now u.now) }
    ensures { IfOk result (λ b. b ≡ locals_named (program_of names.now u.now) (map (text_at names.now) ids.now)) }
{
    if !all_plain(names, ids) {
        return Ok(false);
    }
    if !are_different(u.graph.alloc(), names, ids)? {
        return Ok(false);
    }
    if !are_apart_from_file(u, names, file, ids) {
        return Ok(false);
    }
    Ok(are_apart_from_host(names, ids))
}

/// Whether the locals and labels of a function have names of their own (C11 6.2.1p4, 6.2.3).
///
/// Memory comes only for want of memory.
#[tactic(auto, using(crate::proofs::FileLaws::body_fails, crate::proofs::FileLaws::body_passes))]
fn body_is_named(
    u: &CilUnit,
    names: &NamePool,
    file: &IndexSet<u32>,
    b: &Body,
) -> Result<bool, Memory>
    requires { KnowsFile file.now.keys (program_of names.now u.now) }
    ensures { IfOk result (λ r. r ≡ body_is_named (program_of names.now u.now) (body_of u.now.graph.nodes names.now b.now)) }
{
    let alloc = u.graph.alloc();
    let mut ids = Vec::new(alloc);
    add_locals(&b.locals, &mut ids)?;
    if !locals_are_named(u, names, file, &ids)? {
        return Ok(false);
    }
    are_named_apart(alloc, names, &b.labels)
}

/// Whether the names within a global are such as they may be.
///
/// Memory comes only for want of memory.
fn definition_is_named(
    u: &CilUnit,
    names: &NamePool,
    file: &IndexSet<u32>,
    x: &GlobalDecl,
) -> Result<bool, Memory>
    requires { KnowsFile file.now.keys (program_of names.now u.now) }
    ensures { IfOk result (λ b. b ≡ within_is_named (program_of names.now u.now) (global_of u.now.graph.nodes names.now x.now)) }
{
    match &x.def {
        GlobalDef::Body(b) => body_is_named(u, names, file, b),
        GlobalDef::Declared | GlobalDef::Zero | GlobalDef::Image(_) => Ok(true),
    }
}

/// Whether the names within each global are such as they may be.
///
/// Memory comes only for want of memory.
#[tactic(auto, using(crate::proofs::BodySteps::each_from))]
fn bodies_are_named(u: &CilUnit, names: &NamePool, file: &IndexSet<u32>) -> Result<bool, Memory>
    requires { KnowsFile file.now.keys (program_of names.now u.now) }
    ensures { IfOk result (λ b. b ≡ list_all (within_is_named (program_of names.now u.now)) (program_of names.now u.now).globals) }
{
    let globals = u.globals.as_slice();
    for i in 0..globals.len() {
        if !definition_is_named(u, names, file, &globals[i])? {
            return Ok(false);
        }
    }
    Ok(true)
}

/// Whether the names of a program keep the rules of names.
///
/// Memory comes only for want of memory.
pub(crate) fn names_fit(u: &CilUnit, names: &NamePool) -> Result<bool, Memory>
    ensures { IfOk result (λ b. b ≡ names_rules (program_of names.now u.now)) }
{
    if !globals_are_named(u, names) {
        return Ok(false);
    }
    if !internals_are_apart(u, names) {
        return Ok(false);
    }
    if !all_members_are_named(u, names)? {
        return Ok(false);
    }
    if !tags_differ(u, names)? {
        return Ok(false);
    }
    match file_set(u, names)? {
        None => Ok(false),
        Some(file) => bodies_are_named(u, names, &file),
    }
}
