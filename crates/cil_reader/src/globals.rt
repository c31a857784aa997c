ghost use Rattle.std.specs.Prelude.{◌≡◌, ◌<◌, IfOk, OnOk, Some, [], ◌∷◌, false, length, drop};
ghost use Rattle.std.specs.Option.{option_map, option_and_then};
ghost use Rattle.type_graph.specs.Arena.{Graph, EachType};
ghost use Rattle.type_graph.specs.Shapes.{shape};
ghost use Rattle.cil_tree.specs.View.{definition_of, global_of};
ghost use Rattle.cil_text.specs.ReadExps.{bases};
ghost use Rattle.cil_text.specs.ReadTypes.{read_decl};
ghost use Rattle.cil_text.specs.ReadImages.{read_image};
ghost use Rattle.cil_text.specs.ReadGlobals.{declared_with, only_function, declaration_from, read_declarations, image_end, defined_by, own_definition, default_of};
ghost use Rattle.cil_text.specs.TypesOf.{AddsParts};
ghost use Rattle.cil_scan.specs.Said.{all_said, all_lines};
ghost use Rattle.cil_declarators.specs.Gives.{Gives};
ghost use Rattle.cil_reader.specs.Settings.{Onward, env_in, locals_of};
ghost use Rattle.cil_reader.specs.Pools.{KeepsNames};
ghost use Rattle.cil_reader.specs.Globals.{EachDeclared, declaration_of, declarations_of, types_declared, declaration_behind, named_apart, next_definition, behind_line, global_with, defined_line, one_global, objects_left, DefinitionFlat, IsGlobal, GlobalKnown, globals_of, GlobalsKnown, WaitingKnown};

use crate::images::read_image;
use crate::names::Names;
use crate::reader::Reader;
use crate::typed::read_typed;
use cil_base::{NamePool, TypeId};
use cil_declarators::Stop;
use cil_forms::{declares, is_called, is_end, next_name, storage, without_static};
use cil_scan::Word;
use cil_tree::{GlobalDecl, GlobalDef};

/// A global as it is declared.
#[derive(Clone, Copy)]
pub(crate) struct Declaration<'a> {
    pub name: &'a [u8],
    pub ty: TypeId,
    pub internal: bool,
}

/// Lines, and what the first one defines, if it can be an object's.
#[derive(Clone, Copy)]
struct Waiting<'w, 'a> {
    next: Option<&'a [u8]>,
    lines: &'w [Vec<Word<'a>>],
}

/// A declaration without its storage class (C11 6.7.1), up to the end of its line.
#[tactic(auto, using(crate::proofs::GlobalLaws::declared_gives, crate::proofs::GlobalLaws::declared_open, crate::proofs::GlobalLaws::declared_nameless, crate::proofs::GlobalLaws::declared_fails))]
fn declared_with<'a>(
    r: &mut Reader,
    left: u32,
    internal: bool,
    words: &[Word<'a>],
) -> Result<Declaration<'a>, Stop>
    ensures gives { Gives (λ d. declaration_of r.new.graph.nodes d) result (option_and_then (declared_with internal) (read_decl (bases (env_in r.old)) left (all_said words.now))) }
    ensures there { IfOk result (λ d. d.ty.0 < length r.new.graph.nodes) }
    ensures adds { IfOk result (λ d. AddsParts r.old.graph r.new.graph (shape r.new.graph.nodes d.ty.0 ∷ [])) }
    ensures on { Onward r.old r.new }
{
    let (named, rest) = r.read_decl(left, words)?;
    if !is_end(rest) {
        return Err(Stop::NotCil);
    }
    let Some(name) = named.name else {
        return Err(Stop::NotCil);
    };
    let ty = named.ty;
    Ok(Declaration { name, ty, internal })
}

/// A declaration without storage class: only a function has one.
#[tactic(auto, using(crate::proofs::GlobalLaws::function_gives, crate::proofs::GlobalLaws::function_not, crate::proofs::GlobalLaws::function_fails))]
fn function_alone<'a>(
    r: &mut Reader,
    left: u32,
    words: &[Word<'a>],
) -> Result<Declaration<'a>, Stop>
    ensures gives { Gives (λ d. declaration_of r.new.graph.nodes d) result (option_and_then only_function (option_and_then (declared_with false) (read_decl (bases (env_in r.old)) left (all_said words.now)))) }
    ensures there { IfOk result (λ d. d.ty.0 < length r.new.graph.nodes) }
    ensures adds { IfOk result (λ d. AddsParts r.old.graph r.new.graph (shape r.new.graph.nodes d.ty.0 ∷ [])) }
    ensures on { Onward r.old r.new }
{
    let declaration = declared_with(r, left, false, words)?;
    if !r.is_function(declaration.ty) {
        return Err(Stop::NotCil);
    }
    Ok(declaration)
}

/// What declares a global, by its storage class.
#[tactic(auto, using(crate::proofs::GlobalLaws::stored_next, crate::proofs::GlobalLaws::alone_next))]
fn declaration_from<'a>(
    r: &mut Reader,
    left: u32,
    words: &[Word<'a>],
) -> Result<Declaration<'a>, Stop>
    ensures gives { Gives (λ d. declaration_of r.new.graph.nodes d) result (declaration_from (bases (env_in r.old)) left (all_said words.now)) }
    ensures there { IfOk result (λ d. d.ty.0 < length r.new.graph.nodes) }
    ensures adds { IfOk result (λ d. AddsParts r.old.graph r.new.graph (shape r.new.graph.nodes d.ty.0 ∷ [])) }
    ensures on { Onward r.old r.new }
{
    match storage(words) {
        Some((internal, rest)) => declared_with(r, left, internal, rest),
        None => function_alone(r, left, words),
    }
}

/// One declaration more.
#[tactic(auto, using(crate::proofs::GlobalLaws::with_gives, crate::proofs::GlobalLaws::with_fails, crate::proofs::GlobalLaws::declared_more, crate::proofs::GlobalLaws::declared_added, crate::proofs::OnwardLaws::onward_grows))]
fn with_declaration<'a>(
    r: &mut Reader,
    left: u32,
    declarations: Vec<Declaration<'a>>,
    words: &[Word<'a>],
) -> Result<Vec<Declaration<'a>>, Stop>
    requires { EachDeclared (length r.old.graph.nodes) declarations.items }
    ensures gives { Gives (λ ds. declarations_of r.new.graph.nodes ds.items) result (option_map (declaration_behind (declarations_of r.old.graph.nodes declarations.entry.items)) (declaration_from (bases (env_in r.old)) left (all_said words.now))) }
    ensures each { IfOk result (λ ds. EachDeclared (length r.new.graph.nodes) ds.items) }
    ensures adds { (f : Graph) → AddsParts f r.old.graph (types_declared r.old.graph.nodes declarations.entry.items) → IfOk result (λ ds. AddsParts f r.new.graph (types_declared r.new.graph.nodes ds.items)) }
    ensures on { Onward r.old r.new }
{
    let declaration = declaration_from(r, left, words)?;
    let mut all = declarations;
    all.push(declaration)?;
    Ok(all)
}

/// Declarations, and the lines behind them.
#[tactic(auto, using(crate::proofs::GlobalLaws::no_declared, crate::proofs::GlobalLaws::no_added, crate::proofs::GlobalLaws::declarations_start, crate::proofs::GlobalLaws::declarations_fail, crate::proofs::OnwardLaws::onward_twice, crate::proofs::OnwardLaws::onward_env, crate::proofs::OnwardLaws::onward_none))]
pub(crate) fn read_declarations<'w, 'a>(
    r: &mut Reader,
    left: u32,
    lines: &'w [Vec<Word<'a>>],
) -> Result<(Vec<Declaration<'a>>, &'w [Vec<Word<'a>>]), Stop>
    ensures gives { Gives (λ x. (declarations_of r.new.graph.nodes x.0.items, all_lines x.1.now)) result (read_declarations (bases (env_in r.old)) left (all_lines lines.now)) }
    ensures each { IfOk result (λ x. EachDeclared (length r.new.graph.nodes) x.0.items) }
    ensures adds { IfOk result (λ x. AddsParts r.old.graph r.new.graph (types_declared r.new.graph.nodes x.0.items)) }
    ensures on { Onward r.old r.new }
{
    let mut all = Vec::new(r.alloc());
    for i in 0..lines.len() {
        let line = &lines[i];
        if !declares(line) {
            return Ok((all, &lines[i..]));
        }
        all = with_declaration(r, left, all, line)?;
    }
    Ok((all, &lines[lines.len()..]))
}

/// The names of globals, which differ, with their types.
pub(crate) fn names_of(r: &Reader, declarations: &[Declaration]) -> Result<Names, Stop>
    requires { EachDeclared (length r.now.graph.nodes) declarations.now }
    ensures gives { Gives (λ x. locals_of r.now.graph.nodes x) result (named_apart (declarations_of r.now.graph.nodes declarations.now)) }
    ensures each { IfOk result (λ x. EachType (length r.now.graph.nodes) x.types.items) }
{
    let mut names = Names::new(r.alloc());
    for i in 0..declarations.len() {
        names = names.with(declarations[i].name, declarations[i].ty)?;
    }
    Ok(names)
}

/// Behind `=`: an object's scalars, up to the end of its line.
#[tactic(auto, using(crate::proofs::GlobalLaws::image_gives, crate::proofs::GlobalLaws::image_open, crate::proofs::GlobalLaws::image_fails, crate::proofs::GlobalLaws::flat_image))]
fn image_of(r: &mut Reader, left: u32, ty: TypeId, words: &[Word]) -> Result<GlobalDef, Stop>
    requires { ty.0 < length r.old.graph.nodes }
    ensures gives { Gives (λ x. definition_of [] [] x) result (option_and_then image_end (read_image (env_in r.old) left (Some (shape r.old.graph.nodes ty.0)) (all_said words.now))) }
    ensures flat { IfOk result DefinitionFlat }
    ensures same { OnOk result (r.new.graph.nodes ≡ r.old.graph.nodes) }
    ensures on { Onward r.old r.new }
{
    let (items, behind) = read_image(r, left, ty, words)?;
    if !is_end(behind) {
        return Err(Stop::NotCil);
    }
    Ok(GlobalDef::Image(items))
}

/// What defines an object, behind its declarator.
#[tactic(auto, using(crate::proofs::GlobalLaws::flat_zero, crate::proofs::OnwardLaws::onward_none))]
fn defined_by(r: &mut Reader, left: u32, ty: TypeId, words: &[Word]) -> Result<GlobalDef, Stop>
    requires { ty.0 < length r.old.graph.nodes }
    ensures gives { Gives (λ x. definition_of [] [] x) result (defined_by (env_in r.old) left (shape r.old.graph.nodes ty.0) (all_said words.now)) }
    ensures flat { IfOk result DefinitionFlat }
    ensures same { OnOk result (r.new.graph.nodes ≡ r.old.graph.nodes) }
    ensures on { Onward r.old r.new }
{
    match words {
        [Word::Semicolon] => Ok(GlobalDef::Zero),
        [Word::Assign, rest @ ..] => image_of(r, left, ty, rest),
        _ => Err(Stop::NotCil),
    }
}

/// An object by its own line, whose declarator gives the type that is declared (C11 6.7p4).
fn own_definition(
    r: &mut Reader,
    left: u32,
    declaration: &Declaration,
    words: &[Word],
) -> Result<GlobalDef, Stop>
    requires { declaration.now.ty.0 < length r.old.graph.nodes }
    ensures gives { Gives (λ x. definition_of [] [] x) result (own_definition (env_in r.old) left (declaration_of r.old.graph.nodes declaration.now) (all_said words.now)) }
    ensures flat { IfOk result DefinitionFlat }
    ensures same { OnOk result (r.new.graph.nodes ≡ r.old.graph.nodes) }
    ensures on { Onward r.old r.new }
{
    let ty = declaration.ty;
    let rest = read_typed(r, left, ty, without_static(words))?;
    defined_by(r, left, ty, rest)
}

/// An object by the next line, which is its own.
#[tactic(auto, using(crate::proofs::OnwardLaws::onward_none))]
fn next_definition(
    r: &mut Reader,
    left: u32,
    declaration: &Declaration,
    lines: &[Vec<Word>],
) -> Result<GlobalDef, Stop>
    requires { declaration.now.ty.0 < length r.old.graph.nodes }
    ensures gives { Gives (λ x. definition_of [] [] x) result (next_definition (env_in r.old) left (declaration_of r.old.graph.nodes declaration.now) (all_lines lines.now)) }
    ensures flat { IfOk result DefinitionFlat }
    ensures same { OnOk result (r.new.graph.nodes ≡ r.old.graph.nodes) }
    ensures on { Onward r.old r.new }
{
    match lines {
        [line, ..] => own_definition(r, left, declaration, line),
        [] => Err(Stop::NotCil),
    }
}

/// What a global is that no later line defines.
#[tactic(auto, using(crate::proofs::GlobalLaws::default_function, crate::proofs::GlobalLaws::default_external, crate::proofs::GlobalLaws::default_internal, crate::proofs::GlobalLaws::flat_zero, crate::proofs::GlobalLaws::flat_declared))]
fn default_of(r: &Reader, declaration: &Declaration) -> GlobalDef
    requires { declaration.now.ty.0 < length r.now.graph.nodes }
    ensures is { definition_of [] [] result ≡ default_of (declaration_of r.now.graph.nodes declaration.now) }
    ensures flat { DefinitionFlat result }
{
    if r.is_function(declaration.ty) || !declaration.internal {
        return GlobalDef::Declared;
    }
    GlobalDef::Zero
}

/// What follows the first line.
pub(crate) fn behind_line<'w, 'a>(lines: &'w [Vec<Word<'a>>]) -> &'w [Vec<Word<'a>>]
    ensures is { all_lines result.now ≡ behind_line (all_lines lines.now) }
    ensures list { result.now ≡ drop 1 lines.now }
{
    match lines {
        [] => lines,
        [_, behind @ ..] => behind,
    }
}

/// A global with what it is.
#[tactic(auto, using(crate::proofs::PoolLaws::pool_same, crate::proofs::PoolLaws::pool_asked, crate::proofs::PoolLaws::name_known))]
fn global(pool: &mut NamePool, x: &Declaration, def: GlobalDef) -> Result<GlobalDecl, Stop>
    ensures gives { Gives (λ y. y.ty) result (Some x.now.ty) }
    ensures is { IfOk result (IsGlobal pool.new x.now def) }
    ensures pool { KeepsNames pool.old pool.new }
{
    let name = pool.intern(x.name)?;
    Ok(GlobalDecl {
        name,
        ty: x.ty,
        internal: x.internal,
        def,
    })
}

/// A global that no later line defines.
#[tactic(auto, using(crate::proofs::GlobalLaws::plain_gives, crate::proofs::GlobalLaws::plain_known))]
fn plain_global(r: &Reader, pool: &mut NamePool, x: &Declaration) -> Result<GlobalDecl, Stop>
    requires { x.now.ty.0 < length r.now.graph.nodes }
    ensures gives { Gives (λ y. global_of r.now.graph.nodes pool.new y) result (Some (global_with (declaration_of r.now.graph.nodes x.now) (default_of (declaration_of r.now.graph.nodes x.now)))) }
    ensures known { IfOk result (GlobalKnown r.now.graph pool.new) }
    ensures pool { KeepsNames pool.old pool.new }
{
    global(pool, x, default_of(r, x))
}

/// A global that the next line defines.
#[tactic(auto, using(crate::proofs::GlobalLaws::defined_fails, crate::proofs::PoolLaws::pool_same))]
fn defined_global(
    r: &mut Reader,
    pool: &mut NamePool,
    left: u32,
    x: &Declaration,
    lines: &[Vec<Word>],
) -> Result<GlobalDecl, Stop>
    requires { x.now.ty.0 < length r.old.graph.nodes }
    ensures gives { Gives (λ y. global_of r.new.graph.nodes pool.new y) result (option_map (global_with (declaration_of r.old.graph.nodes x.now)) (next_definition (env_in r.old) left (declaration_of r.old.graph.nodes x.now) (all_lines lines.now))) }
    ensures known { IfOk result (GlobalKnown r.new.graph pool.new) }
    ensures pool { KeepsNames pool.old pool.new }
    ensures same { OnOk result (r.new.graph.nodes ≡ r.old.graph.nodes) }
    ensures on { Onward r.old r.new }
{
    let def = next_definition(r, left, x, lines)?;
    Ok(global(pool, x, def)?)
}

/// Lines, of which the first is looked at.
#[tactic(auto, using(crate::proofs::GlobalLaws::waiting_known))]
fn waiting_at<'w, 'a>(lines: &'w [Vec<Word<'a>>]) -> Waiting<'w, 'a>
    ensures known { WaitingKnown result }
    ensures lines { all_lines result.lines.now ≡ all_lines lines.now }
{
    let next = next_name(lines);
    Waiting { next, lines }
}

/// A global whose own line stands next.
fn own_global<'w, 'a>(
    r: &mut Reader,
    pool: &mut NamePool,
    left: u32,
    x: &Declaration,
    lines: &'w [Vec<Word<'a>>],
) -> Result<(GlobalDecl, Waiting<'w, 'a>), Stop>
    requires { x.now.ty.0 < length r.old.graph.nodes }
    ensures gives { Gives (λ y. (global_of r.new.graph.nodes pool.new y.0, all_lines y.1.lines.now)) result (option_map (defined_line (declaration_of r.old.graph.nodes x.now) (all_lines lines.now)) (next_definition (env_in r.old) left (declaration_of r.old.graph.nodes x.now) (all_lines lines.now))) }
    ensures known { IfOk result (λ y. GlobalKnown r.new.graph pool.new y.0) }
    ensures waiting { IfOk result (λ y. WaitingKnown y.1) }
    ensures pool { KeepsNames pool.old pool.new }
    ensures same { OnOk result (r.new.graph.nodes ≡ r.old.graph.nodes) }
    ensures on { Onward r.old r.new }
{
    let global = defined_global(r, pool, left, x, lines)?;
    let waiting = waiting_at(behind_line(lines));
    Ok((global, waiting))
}

/// A declared global with the line that stands next, if it is its own.
#[tactic(auto, using(crate::proofs::GlobalLaws::plain_line, crate::proofs::GlobalLaws::own_line_next, crate::proofs::OnwardLaws::onward_none))]
fn next_global<'w, 'a>(
    r: &mut Reader,
    pool: &mut NamePool,
    left: u32,
    x: &Declaration,
    waiting: Waiting<'w, 'a>,
) -> Result<(GlobalDecl, Waiting<'w, 'a>), Stop>
    requires declared { x.now.ty.0 < length r.old.graph.nodes }
    requires waiting { WaitingKnown waiting }
    ensures gives { Gives (λ y. (global_of r.new.graph.nodes pool.new y.0, all_lines y.1.lines.now)) result (one_global (env_in r.old) left (declaration_of r.old.graph.nodes x.now) (all_lines waiting.entry.lines.now)) }
    ensures known { IfOk result (λ y. GlobalKnown r.new.graph pool.new y.0) }
    ensures waiting { IfOk result (λ y. WaitingKnown y.1) }
    ensures pool { KeepsNames pool.old pool.new }
    ensures same { OnOk result (r.new.graph.nodes ≡ r.old.graph.nodes) }
    ensures on { Onward r.old r.new }
{
    if is_called(waiting.next, x.name) {
        return own_global(r, pool, left, x, waiting.lines);
    }
    Ok((plain_global(r, pool, x)?, waiting))
}

/// The declared globals, each with the line that stands next, if it is its own; and the lines behind those.
#[tactic(auto, using(crate::proofs::GlobalLaws::declared_there, crate::proofs::GlobalLaws::declared_later, crate::proofs::GlobalLaws::no_globals, crate::proofs::GlobalLaws::objects_start, crate::proofs::PoolLaws::pool_same, crate::proofs::PoolLaws::pool_twice, crate::proofs::OnwardLaws::onward_twice, crate::proofs::OnwardLaws::onward_grows, crate::proofs::OnwardLaws::onward_none))]
pub(crate) fn read_objects<'w, 'a>(
    r: &mut Reader,
    pool: &mut NamePool,
    left: u32,
    declarations: &[Declaration],
    lines: &'w [Vec<Word<'a>>],
) -> Result<(Vec<GlobalDecl>, &'w [Vec<Word<'a>>]), Stop>
    requires { EachDeclared (length r.old.graph.nodes) declarations.now }
    ensures gives { Gives (λ x. (globals_of r.new.graph.nodes pool.new x.0.items, all_lines x.1.now)) result (objects_left (env_in r.old) left (declarations_of r.old.graph.nodes declarations.now) (all_lines lines.now)) }
    ensures known { IfOk result (λ x. GlobalsKnown r.new.graph pool.new x.0.items) }
    ensures each { IfOk result (λ x. length x.0.items ≡ length declarations.now) }
    ensures pool { KeepsNames pool.old pool.new }
    ensures same { OnOk result (r.new.graph.nodes ≡ r.old.graph.nodes) }
    ensures on { Onward r.old r.new }
{
    let mut globals = Vec::new(r.alloc());
    let mut waiting = waiting_at(lines);
    for i in 0..declarations.len() {
        let (global, behind) = next_global(r, pool, left, &declarations[i], waiting)?;
        globals.push(global)?;
        waiting = behind;
    }
    Ok((globals, waiting.lines))
}
