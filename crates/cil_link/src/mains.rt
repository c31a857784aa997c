ghost use Rattle.std.specs.Prelude.{◌≡◌, ◌<◌, ℕ, List, length, option_map};
ghost use Rattle.type_graph.specs.Shapes.{shape, shapes_of};
ghost use Rattle.type_graph.specs.Arena.{EachType};
ghost use Rattle.cil_tree.specs.Tree.{Program};
ghost use Rattle.cil_tree.specs.View.{type_at, global_of, program_of};
ghost use Rattle.typed_values.specs.Units.{words_start, start_of};
ghost use Rattle.cil_semantics.specs.Runs.{is_main, global_meaning};
ghost use Rattle.cil_link.specs.Entities.{meant, IsThere};
ghost use Rattle.cil_link.specs.Mains.{BeginsWith};
ghost use Rattle.cil_link.specs.Units.{AreLinked, programs_in, units_in};
ghost use Rattle.cil_link.specs.MainGlobals.{main_number, main_among, is_kind, points_to_char, is_argv, are_words, start_for, start_at, main_with, Begun};

use crate::entities::{Definer, text};
use crate::units::Units;
use cil_base::{EntityId, IntKind, NamePool, TypeId, UnitNo};
use cil_tree::{CilUnit, GlobalDecl, GlobalDef};
use type_graph::{Node, TypeGraph};

/// The function that a run begins with: its entity, and whether it takes the words (C11 5.1.2.2.1p1).
#[derive(Clone, Copy)]
pub struct Main {
    pub entity: u32,
    pub words: bool,
}

/// Whether a type is the integer type of a kind.
fn is_kind(g: &TypeGraph, t: TypeId, kind: IntKind) -> bool
    requires { t.0 < length g.now.nodes }
    ensures { result ≡ is_kind kind (shape g.now.nodes t.0) }
{
    if let Node::Int(k) = g.node(t) {
        *k == kind
    } else {
        false
    }
}

/// Whether a type is `char *`, whose qualifiers do not count.
fn points_to_char(g: &TypeGraph, t: TypeId) -> bool
    requires { t.0 < length g.now.nodes }
    ensures { result ≡ points_to_char (shape g.now.nodes t.0) }
{
    if let Node::Ptr(to) = g.node(t) {
        is_kind(g, to.of, IntKind::Char)
    } else {
        false
    }
}

/// Whether a type is that of argv, `char * *`.
fn is_argv(g: &TypeGraph, t: TypeId) -> bool
    requires { t.0 < length g.now.nodes }
    ensures { result ≡ is_argv (shape g.now.nodes t.0) }
{
    if let Node::Ptr(to) = g.node(t) {
        points_to_char(g, to.of)
    } else {
        false
    }
}

/// Whether the parameters are those of a main that takes the words, `( int , char * * )`.
#[tactic(auto, using(crate::proofs::MainTypes::few_words, crate::proofs::MainTypes::many_words))]
fn are_words(g: &TypeGraph, params: &[TypeId]) -> bool
    requires { EachType (length g.now.nodes) params.now }
    ensures { result ≡ are_words (shapes_of (shape g.now.nodes) params.now) }
{
    match params {
        [first, second] => is_kind(g, *first, IntKind::Int) && is_argv(g, *second),
        _ => false,
    }
}

/// Whether a function that gives an `int` takes the words, if its parameters are those of a main.
#[tactic(auto, using(crate::proofs::MainTypes::none_are, crate::proofs::MainTypes::words_are, crate::proofs::MainTypes::others_are))]
fn params_start(g: &TypeGraph, params: &[TypeId]) -> Option<bool>
    requires { EachType (length g.now.nodes) params.now }
    ensures { start_for result ≡ words_start (shapes_of (shape g.now.nodes) params.now) }
{
    if params.is_empty() {
        return Some(false);
    }
    if are_words(g, params) {
        Some(true)
    } else {
        None
    }
}

/// Whether a function takes the words, if it has the type of a main: `int ( void )`, `int ( )` or `int ( int , char * * )`.
#[tactic(auto, using(crate::proofs::MainTypes::start_is, crate::proofs::MainTypes::each_there))]
fn start_of(g: &TypeGraph, t: TypeId) -> Option<bool>
    ensures { start_for result ≡ start_at (type_at g.now.nodes t) }
{
    if t.0 >= g.len() {
        return None;
    }
    if let Node::Func {
        variadic,
        ret,
        params,
        ..
    } = g.node(t)
    {
        if *variadic || !is_kind(g, *ret, IntKind::Int) {
            None
        } else {
            params_start(g, params.as_slice())
        }
    } else {
        None
    }
}

/// The entity with what is known of its parameters.
fn main_with(entity: u32, words: Option<bool>) -> Option<Main>
    ensures { result ≡ option_map (main_with entity) words }
{
    match words {
        None => None,
        Some(words) => Some(Main { entity, words }),
    }
}

/// What a run begins with, where the entity is a global's.
#[tactic(auto, using(crate::proofs::MainTypes::function_begins, crate::proofs::MainTypes::declared_begins, crate::proofs::MainTypes::zeros_begin, crate::proofs::MainTypes::image_begins))]
fn begun_by(g: &TypeGraph, x: &GlobalDecl, entity: u32) -> Option<Main>
    ensures { (p : Program) (es : List ℕ) (names : List (List ℕ)) → Begun (global_meaning p (global_of g.now.nodes names x.now) es) entity result }
{
    match &x.def {
        GlobalDef::Body(_) => main_with(entity, start_of(g, x.ty)),
        GlobalDef::Declared | GlobalDef::Zero | GlobalDef::Image(_) => None,
    }
}

/// Whether a global is external and named main: a function of which that is so is what a run begins with (C11
/// 5.1.2.2.1p1).
pub fn is_main(u: &CilUnit, names: &NamePool, x: &GlobalDecl) -> bool
    ensures { result ≡ is_main (global_of u.now.graph.nodes names.now x.now) }
{
    !x.internal && text(names, x.name) == b"main".as_slice()
}

/// The entity of main by the globals of a unit: the number of the first that is external and named so.
fn main_number(u: &CilUnit, names: &NamePool, numbers: &[u32]) -> Option<u32>
    requires { length numbers.now ≡ length u.now.globals.items }
    ensures { result ≡ main_number numbers.now (program_of names.now u.now).globals }
{
    for i in 0..u.globals.len() {
        if is_main(u, names, &u.globals[i]) {
            return Some(numbers[i]);
        }
    }
    None
}

/// The entity of main in a run, if a unit names it (C11 5.1.2.2.1p1).
fn main_entity(l: &Units) -> Option<u32>
    requires { AreLinked l.now }
    ensures { result ≡ main_among (units_in l.now) }
{
    for k in 0..l.units.len() {
        let number = main_number(&l.units[k], l.names, l.entities.numbers[k].as_slice());
        if number.is_some() {
            return number;
        }
    }
    None
}

/// What a run begins with, where main is an entity that a unit's global defines.
fn begun_at(l: &Units, unit: UnitNo, global: EntityId, entity: u32) -> Option<Main>
    requires there { IsThere (units_in l.now) unit global }
    ensures { Begun (meant (units_in l.now) (Definer.Global unit global)) entity result }
{
    let u = &l.units[unit.0 as usize];
    begun_by(&u.graph, &u.globals[global.0 as usize], entity)
}

/// The function main of a run, if it has the type of a main; None exactly where there is none (C11 5.1.2.2.1p1).
pub fn main_of(l: &Units) -> Option<Main>
    requires { AreLinked l.now }
    ensures { BeginsWith (programs_in l.now) result }
{
    let entity = main_entity(l)?;
    match l.entities.definers[entity as usize] {
        Definer::Nothing | Definer::Host(_) => None,
        Definer::Global(unit, global) => begun_at(l, unit, global, entity),
    }
}
