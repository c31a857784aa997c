ghost use Rattle.std.specs.Prelude.{◌≡◌, ◌<◌, ◌^◌, ◌++◌, ◌∷◌, ℕ, if◌then◌else◌, IfOk, OnOk, All, List, [], Some, None, map, length, get_or, set};
ghost use Rattle.cil_base.specs.NamePool.{IsOnceEach};
ghost use Rattle.type_graph.specs.declared.nodes.Node.{Node};
ghost use Rattle.cil_tree.specs.Tree as plain;
ghost use Rattle.cil_tree.specs.View.{text_at, type_at, global_of, program_of};
ghost use Rattle.cil_semantics.specs.Units.{IsUnit};
ghost use Rattle.cil_semantics.specs.Runs.{has_function_type, linkables};
ghost use Rattle.execution.specs.Linking.{host_names, named_among, memset_symbol};
ghost use Rattle.cil_link.specs.Entities.{InRun, in_run, entities_in, IsTable};
ghost use Rattle.cil_link.specs.Definers.{host_of, undefined_is, definer_of, first_definer};
ghost use Rattle.cil_link.specs.Meeting.{Met, nothing_met, known_in, Finds, IsFound, IsGlobalOf, link_of, Meets, IsUnitOf, MeetsAll};

use cil_base::{EntityId, Memory, NameId, NamePool, TypeId, UnitNo};
use cil_tree::{CilUnit, GlobalDecl, GlobalDef};
use host_calls::HostName;
use std::alloc::Global;
use type_graph::{Node, TypeGraph};

/// What an entity of a run is.
#[derive(Clone, Copy)]
pub enum Definer {
    /// Neither a program nor the host defines it.
    Nothing,
    /// The global with that number in that unit defines it.
    Global(UnitNo, EntityId),
    /// It is that function of the host.
    Host(HostName),
}

/// The entities of a run: the number of each global, a list for each unit, and what each entity is.
#[derive(Drop)]
pub struct Entities {
    pub numbers: Vec<Vec<u32>>,
    pub definers: Vec<Definer>,
}

/// What is found of a run's entities, as globals are met one after another.
#[derive(Drop)]
pub(crate) struct Found {
    /// The number of each external name that was met.
    pub(crate) known: Vec<Option<u32>>,
    /// What each entity is by the globals that were met.
    pub(crate) definers: Vec<Definer>,
}

/// Where a global stands: its unit, and its number there.
#[derive(Clone, Copy)]
pub(crate) struct Site {
    pub(crate) unit: UnitNo,
    pub(crate) global: EntityId,
}

/// The text of a name, and none of a number that is no name's.
pub(crate) fn text(names: &NamePool, n: NameId) -> &[u8]
    ensures { result.now ≡ text_at names.now n }
{
    if n.0 < names.len() {
        names.text(n)
    } else {
        b""
    }
}

/// Whether a type of the graph is a function's.
fn is_function(g: &TypeGraph, t: TypeId) -> bool
    ensures { result ≡ has_function_type (type_at g.now.nodes t) }
{
    t.0 < g.len() && matches!(g.node(t), Node::Func { .. })
}

/// The function of the host with that name.
fn named(text: &[u8]) -> Option<HostName>
    ensures { result ≡ named_among host_names text.now }
{
    HostName::of(text)
}

/// The function of the host that a global is where nothing defines it.
fn host_of(u: &CilUnit, names: &NamePool, x: &GlobalDecl) -> Option<HostName>
    ensures { result ≡ host_of (global_of u.now.graph.nodes names.now x.now) }
{
    if !x.internal && is_function(&u.graph, x.ty) {
        named(text(names, x.name))
    } else {
        None
    }
}

/// What an entity is that programs only declare.
fn undefined(host: Option<HostName>) -> Definer
    ensures { result ≡ undefined_is host }
{
    match host {
        None => Definer::Nothing,
        Some(name) => Definer::Host(name),
    }
}

/// What the entity of a global is by that global alone.
fn definer_of(u: &CilUnit, names: &NamePool, at: Site, x: &GlobalDecl) -> Definer
    ensures { result ≡ definer_of at.unit at.global (global_of u.now.graph.nodes names.now x.now) }
{
    match &x.def {
        GlobalDef::Declared => undefined(host_of(u, names, x)),
        GlobalDef::Zero | GlobalDef::Image(_) | GlobalDef::Body(_) => {
            Definer::Global(at.unit, at.global)
        }
    }
}

/// What an entity is by what was known of it and by a further global: the first definition counts, and before the host's
/// function, which any declaration as a function gives (own).
fn first_definer(old: Definer, new: Definer) -> Definer
    ensures { result ≡ first_definer old new }
{
    match old {
        Definer::Global(..) => old,
        Definer::Nothing => new,
        Definer::Host(_) => match new {
            Definer::Global(..) => new,
            Definer::Nothing | Definer::Host(_) => old,
        },
    }
}

/// The number of an external name before any global is met: 0 of `__builtin_memset`, which every unit may use undeclared
/// (own).
#[tactic(auto, using(crate::proofs::EntityLaws::first_number))]
fn first_number(text: &[u8]) -> Option<u32>
    ensures { result ≡ known_in (memset_symbol ∷ []) text.now }
{
    if text == b"__builtin_memset".as_slice() {
        Some(0)
    } else {
        None
    }
}

/// The numbers of external names before any global is met.
fn first_numbers(alloc: Global, names: &NamePool) -> Result<Vec<Option<u32>>, Memory>
    ensures once { IsOnceEach names.now }
    ensures numbers { IfOk result (λ v. v.items ≡ map (known_in (memset_symbol ∷ [])) names.now) }
{
    let mut known = Vec::new(alloc);
    for n in 0..names.len() {
        known.push(first_number(names.text(NameId(n))))?;
    }
    Ok(known)
}

/// What is found before any global is met: `__builtin_memset`, which is the host's.
fn nothing_found(alloc: Global, names: &NamePool) -> Result<Found, Memory>
    ensures found { IfOk result (IsFound names.now) }
    ensures finds { IfOk result (λ f. (units : List InRun) → Finds units names.now nothing_met f) }
{
    let known = first_numbers(alloc, names)?;
    let mut definers = Vec::new(alloc);
    definers.push(Definer::Host(HostName::Memset))?;
    Ok(Found { known, definers })
}

/// The number of a global's entity, if its name is one that was met.
fn known_number(found: &Found, x: &GlobalDecl) -> Option<u32>
    requires { x.now.name.0 < length found.now.known.items }
    ensures { result ≡ if x.now.internal then None else get_or found.now.known.items x.now.name.0 None }
{
    if x.internal {
        None
    } else {
        found.known[x.name.0 as usize]
    }
}

/// Keeps the number of a global's entity, if its name is external.
fn keep_number(known: &mut Vec<Option<u32>>, x: &GlobalDecl, number: u32)
    requires { x.now.name.0 < length known.old.items }
    ensures { known.new.items ≡ (if x.now.internal then known.old.items else set known.old.items x.now.name.0 (Some number)) }
{
    if !x.internal {
        known[x.name.0 as usize] = Some(number);
    }
}

/// Gives a global whose entity was not met the next number.
fn add(x: &GlobalDecl, definer: Definer, found: &mut Found) -> Result<u32, Memory>
    requires { x.now.name.0 < length found.old.known.items }
    ensures number { IfOk result (λ e. e ≡ length found.old.definers.items) }
    ensures few { OnOk result (length found.new.definers.items < 2 ^ 32) }
    ensures definers { OnOk result (found.new.definers.items ≡ found.old.definers.items ++ definer ∷ []) }
    ensures known { OnOk result (found.new.known.items ≡ (if x.now.internal then found.old.known.items else set found.old.known.items x.now.name.0 (Some (length found.old.definers.items)))) }
{
    let next = found.definers.len();
    if next >= u32::MAX as usize {
        return Err(Memory);
    }
    found.definers.push(definer)?;
    keep_number(&mut found.known, x, next as u32);
    Ok(next as u32)
}

/// Says of an entity that was met what a further global says of it.
fn improve(definers: &mut Vec<Definer>, e: u32, definer: Definer)
    requires { e < length definers.old.items }
    ensures { definers.new.items ≡ set definers.old.items e (first_definer (get_or definers.old.items e Definer.Nothing) definer) }
{
    definers[e as usize] = first_definer(definers[e as usize], definer);
}

/// Meets a global, and gives the number of its entity: that of its name, if it is external and was met, and the next one
/// otherwise (C11 6.2.2p2).
fn meet(
    u: &CilUnit,
    names: &NamePool,
    at: Site,
    x: &GlobalDecl,
    found: &mut Found,
) -> Result<u32, Memory>
    requires named { x.now.name.0 < length names.now }
    requires found { IsFound names.now found.old }
    ensures kept { OnOk result (IsFound names.now found.new) }
    ensures meets { (units : List InRun) (entities : List ℕ) (m : Met) → IsGlobalOf units u.now names.now entities at x.now → Finds units names.now m found.old
        → IfOk result (λ e. Meets units names.now entities m (link_of names.now u.now x.now) e found.new) }
{
    let definer = definer_of(u, names, at, x);
    match known_number(found, x) {
        None => add(x, definer, found),
        Some(e) => {
            improve(&mut found.definers, e, definer);
            Ok(e)
        }
    }
}

/// Meets the globals of a unit, and gives the numbers of their entities.
fn meet_unit(
    alloc: Global,
    unit: UnitNo,
    u: &CilUnit,
    names: &NamePool,
    found: &mut Found,
) -> Result<Vec<u32>, Memory>
    requires program { IsUnit (program_of names.now u.now) }
    requires found { IsFound names.now found.old }
    ensures kept { OnOk result (IsFound names.now found.new) }
    ensures meets { (units : List InRun) (entities : List ℕ) (m : Met) → IsUnitOf units u.now names.now entities unit → Finds units names.now m found.old
        → IfOk result (λ v. MeetsAll units names.now entities m (linkables (program_of names.now u.now)) v.items found.new) }
{
    let mut numbers = Vec::new(alloc);
    if u.globals.len() > u32::MAX as usize {
        return Err(Memory);
    }
    for i in 0..u.globals.len() {
        let at = Site {
            unit,
            global: EntityId(i as u32),
        };
        numbers.push(meet(u, names, at, &u.globals[i], found)?)?;
    }
    Ok(numbers)
}

/// The entities of the run of linked programs: an external name is one in all units, and an internal one is that of its
/// unit alone; `__builtin_memset`, which every unit has, is number 0 (C11 6.2.2p2, 6.9p5; own: numbers).
///
/// Memory also comes where a number would not fit.
pub fn entities_of(alloc: Global, units: &[CilUnit], names: &NamePool) -> Result<Entities, Memory>
    requires { All (λ u. IsUnit (program_of names.now u)) units.now }
    ensures numbers { IfOk result (λ e. map (λ v. v.items) e.numbers.items ≡ map entities_in (in_run (map (program_of names.now) units.now))) }
    ensures table { IfOk result (λ e. IsTable (map (program_of names.now) units.now) e.definers.items) }
{
    if units.len() > u32::MAX as usize {
        return Err(Memory);
    }
    let mut found = nothing_found(alloc, names)?;
    let mut numbers = Vec::new(alloc);
    for i in 0..units.len() {
        let unit = UnitNo(i as u32);
        numbers.push(meet_unit(alloc, unit, &units[i], names, &mut found)?)?;
    }
    Ok(Entities {
        numbers,
        definers: found.definers,
    })
}
