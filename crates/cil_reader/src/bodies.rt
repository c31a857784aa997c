ghost use Rattle.std.specs.Prelude.{◌≡◌, ◌<◌, ◌≤◌, ◌+◌, ◌^◌, ◌++◌, true, Some, IfOk, IfSome, length, map, take, drop};
ghost use Rattle.std.specs.Option.{option_map, option_and_then};
ghost use Rattle.type_graph.specs.Shapes.{shape};
ghost use Rattle.cil_tree.specs.Names.{are_different};
ghost use Rattle.cil_tree.specs.View.{text_at, stmts_of, body_of};
ghost use Rattle.cil_text.specs.ReadExps.{bases};
ghost use Rattle.cil_text.specs.Allowed.{allowed};
ghost use Rattle.cil_text.specs.ReadTypes.{read_decl};
ghost use Rattle.cil_text.specs.ReadStmts.{read_heads, read_nested};
ghost use Rattle.cil_text.specs.TypesOf.{AddsParts, types_in_locals, types_in_stmts, types_in_body, defined_types};
ghost use Rattle.cil_text.specs.ReadGlobals.{plain_names, begins_with, behind_first, moved, split_block, local_of, param_locals, params_of, read_locals, labels_in, read_body, read_bodies};
ghost use Rattle.cil_scan.specs.Said.{said, all_said, all_lines};
ghost use Rattle.cil_declarators.specs.Gives.{Gives};
ghost use Rattle.cil_reader.specs.Settings.{Onward, OnwardOutside, env_in, locals_of, outside};
ghost use Rattle.cil_declarators.specs.Fresh.{with_new};
ghost use Rattle.cil_reader.specs.Nesting.{StmtsKnown};
ghost use Rattle.cil_reader.specs.Pools.{KeepsNames};
ghost use Rattle.cil_reader.specs.Globals.{EachDeclared, declaration_of, declarations_of, globals_of, GlobalsKnown, behind_line};
ghost use Rattle.cil_reader.specs.Bodies.{texts_of, TextsKnown, is_tag_word, tag_behind, name_in, names_here, next_names, still_open, closes, named_local, apart, first_apart, local_behind, locals_behind, label_behind, LocalsKnown, whole_stmts, BodyKnown, own_body, own_types, bodied};

use crate::globals::{Declaration, behind_line};
use crate::heads::read_heads;
use crate::names::Names;
use crate::nesting::read_nested;
use crate::reader::Reader;
use cil_base::{NameId, NamePool, TypeId};
use cil_declarators::{Numbering, Stop};
use cil_forms::{ends_open, is_base, is_close, is_end, is_label, label_text};
use cil_scan::Word;
use cil_tree::{Body, GlobalDecl, GlobalDef, Local, Stmt};
use std::alloc::Global;

/// A function's locals: their names with their types, and the same as a program has them.
#[derive(Drop)]
struct Locals {
    names: Names,
    all: Vec<Local>,
}

/// A function's labels by number.
#[derive(Drop)]
struct Labels {
    texts: Numbering,
    names: Vec<NameId>,
}

/// Whether a word is `struct`, `union` or `enum`.
fn is_tag_word(word: &Word) -> bool
    ensures { result ≡ is_tag_word (said word.now) }
{
    match word {
        Word::TagWord(_) => true,
        _ => false,
    }
}

/// Whether a word is one of these, and no tag behind one.
#[tactic(auto, using(crate::proofs::BodyLaws::tag_shut, crate::proofs::BodyLaws::tag_open))]
fn tag_behind(tagged: bool, word: &Word) -> bool
    ensures { result ≡ tag_behind tagged (said word.now) }
{
    if tagged {
        return false;
    }
    is_tag_word(word)
}

/// The name that a word is.
fn name_in<'a>(word: &Word<'a>) -> Option<&'a [u8]>
    ensures { option_map (λ t. t.now) result ≡ name_in (said word.now) }
{
    match word {
        Word::Name(name) => Some(*name),
        _ => None,
    }
}

/// Names, and the one that a word is, unless it is a tag.
#[tactic(auto, using(crate::proofs::BodyLaws::one_name, crate::proofs::BodyLaws::no_name, crate::proofs::BodyLaws::tag_name))]
fn with_name<'a>(names: Vec<&'a [u8]>, tagged: bool, word: &Word<'a>) -> Result<Vec<&'a [u8]>, Stop>
    ensures { Gives (λ x. texts_of x.items) result (Some (texts_of names.entry.items ++ names_here tagged (name_in (said word.now)))) }
{
    if tagged {
        return Ok(names);
    }
    match name_in(word) {
        None => Ok(names),
        Some(name) => {
            let mut all = names;
            all.push(name)?;
            Ok(all)
        }
    }
}

/// The names in a line that stand behind no `struct`, `union` or `enum`.
#[tactic(auto, using(crate::proofs::BodyLaws::names_end))]
fn plain_names<'a>(alloc: Global, words: &[Word<'a>]) -> Result<Vec<&'a [u8]>, Stop>
    ensures { Gives (λ x. texts_of x.items) result (Some (plain_names (all_said words.now))) }
{
    let mut names = Vec::new(alloc);
    let mut tagged = false;
    for i in 0..words.len() {
        let word = &words[i];
        names = with_name(names, tagged, word)?;
        tagged = tag_behind(tagged, word);
    }
    Ok(names)
}

/// The names of a function and of its parameters, if the next line opens its body.
#[tactic(auto, using(crate::proofs::BodyLaws::header_open, crate::proofs::BodyLaws::header_shut))]
fn next_header<'a>(alloc: Global, lines: &[Vec<Word<'a>>]) -> Result<Vec<&'a [u8]>, Stop>
    ensures { Gives (λ x. texts_of x.items) result (Some (next_names (all_lines lines.now))) }
{
    let [line, ..] = lines else {
        return Ok(Vec::new(alloc));
    };
    if !ends_open(line) {
        return Ok(Vec::new(alloc));
    }
    plain_names(alloc, line)
}

/// The braces that are left open where a line begins with `}`.
#[tactic(auto, using(crate::proofs::BodyLaws::still_shut, crate::proofs::BodyLaws::still_none, crate::proofs::BodyLaws::still_less))]
fn still_open(line: &[Word], depth: usize) -> usize
    ensures is { result ≡ still_open (all_said line.now) depth }
    ensures most { result ≤ depth }
{
    if !is_close(line) {
        return depth;
    }
    if depth == 0 {
        return 0;
    }
    depth - 1
}

/// What is left of open braces behind a line.
#[tactic(auto, using(crate::proofs::BodyLaws::moved_open, crate::proofs::BodyLaws::moved_shut))]
fn moved(line: &[Word], depth: usize) -> usize
    requires { depth + 1 < 2 ^ 64 }
    ensures is { result ≡ moved (all_said line.now) depth }
    ensures most { result ≤ depth + 1 }
{
    let open = still_open(line, depth);
    if !ends_open(line) {
        return open;
    }
    open + 1
}

/// Whether a line closes the block that is read.
fn closes(line: &[Word], depth: usize) -> bool
    ensures { result ≡ closes (all_said line.now) depth }
{
    is_close(line) && depth == 0
}

/// How many lines a block has, before the one that closes it.
#[tactic(auto, using(crate::proofs::BodyLaws::block_next, crate::proofs::BodyLaws::block_closed, crate::proofs::BodyLaws::block_end))]
fn block_length(lines: &[Vec<Word>]) -> usize
    ensures most { result ≤ length lines.now }
    ensures is { split_block 0 (all_lines lines.now) ≡ (all_lines (take result lines.now), behind_line (all_lines (drop result lines.now))) }
{
    let mut depth = 0;
    for at in 0..lines.len() {
        let line = &lines[at];
        if closes(line, depth) {
            return at;
        }
        depth = moved(line, depth);
    }
    lines.len()
}

/// One local more.
#[tactic(auto, using(crate::proofs::BodyLaws::local_gives, crate::proofs::BodyLaws::local_fails, crate::proofs::PoolLaws::pool_asked, crate::proofs::PoolLaws::pool_by, crate::proofs::PoolLaws::pool_same))]
fn with_local(
    r: &Reader,
    pool: &mut NamePool,
    locals: Locals,
    text: &[u8],
    ty: TypeId,
) -> Result<Locals, Stop>
    requires known { LocalsKnown r.now.graph pool.old locals }
    requires there { ty.0 < length r.now.graph.nodes }
    ensures gives { Gives (λ x. locals_of r.now.graph.nodes x.names) result (local_behind (locals_of r.now.graph.nodes locals.names) (named_local text.now (shape r.now.graph.nodes ty.0))) }
    ensures known { IfOk result (λ x. LocalsKnown r.now.graph pool.new x) }
    ensures pool { KeepsNames pool.old pool.new }
{
    let Locals { names, mut all } = locals;
    let names = names.with(text, ty)?;
    let name = pool.intern(text)?;
    all.push(Local { name, ty })?;
    Ok(Locals { names, all })
}

/// A function's parameters as its first locals.
#[tactic(auto, using(crate::proofs::MemberLaws::type_there, crate::proofs::BodyLaws::no_locals, crate::proofs::PoolLaws::pool_same, crate::proofs::PoolLaws::pool_twice, crate::proofs::BodyLaws::params_fail, crate::proofs::BodyLaws::params_end))]
fn param_locals(
    r: &Reader,
    pool: &mut NamePool,
    ty: TypeId,
    texts: &[&[u8]],
) -> Result<Locals, Stop>
    requires { ty.0 < length r.now.graph.nodes }
    ensures gives { Gives (λ x. locals_of r.now.graph.nodes x.names) result (allowed apart (param_locals (params_of (shape r.now.graph.nodes ty.0)) (texts_of texts.now))) }
    ensures known { IfOk result (λ x. LocalsKnown r.now.graph pool.new x) }
    ensures pool { KeepsNames pool.old pool.new }
{
    let types = r.params(ty);
    let mut locals = Locals {
        names: Names::new(r.alloc()),
        all: Vec::new(r.alloc()),
    };
    for i in 0..types.len().min(texts.len()) {
        locals = with_local(r, pool, locals, texts[i], types[i])?;
    }
    Ok(locals)
}

/// A local that is no parameter, by its line.
#[tactic(auto, using(crate::proofs::FunctionLaws::one_open, crate::proofs::FunctionLaws::one_nameless, crate::proofs::FunctionLaws::one_fails, crate::proofs::PoolLaws::pool_same))]
fn one_local(
    r: &mut Reader,
    pool: &mut NamePool,
    left: u32,
    locals: Locals,
    words: &[Word],
) -> Result<Locals, Stop>
    requires { LocalsKnown r.old.graph pool.old locals }
    ensures gives { Gives (λ x. locals_of r.new.graph.nodes x.names) result (option_and_then (local_behind (locals_of r.old.graph.nodes locals.names)) (option_and_then local_of (read_decl (bases (env_in r.old)) left (all_said words.now)))) }
    ensures known { IfOk result (λ x. LocalsKnown r.new.graph pool.new x) }
    ensures adds { IfOk result (λ x. AddsParts r.old.graph r.new.graph (types_in_locals (locals_of r.new.graph.nodes x.names))) }
    ensures on { Onward r.old r.new }
    ensures pool { KeepsNames pool.old pool.new }
{
    let (named, rest) = r.read_decl(left, words)?;
    if !is_end(rest) {
        return Err(Stop::NotCil);
    }
    match named.name {
        Some(text) => with_local(r, pool, locals, text, named.ty),
        None => Err(Stop::NotCil),
    }
}

/// Locals that are no parameters, behind those, and the lines behind them.
#[tactic(auto, using(crate::proofs::PoolLaws::pool_same, crate::proofs::PoolLaws::pool_twice, crate::proofs::FunctionLaws::locals_refused, crate::proofs::FunctionLaws::locals_stop, crate::proofs::FunctionLaws::locals_over, cil_text::proofs::PartsAdded::adds_none, crate::proofs::OnwardLaws::onward_twice, crate::proofs::OnwardLaws::onward_env, crate::proofs::OnwardLaws::onward_none))]
fn read_locals<'w, 'a>(
    r: &mut Reader,
    pool: &mut NamePool,
    left: u32,
    params: Locals,
    lines: &'w [Vec<Word<'a>>],
) -> Result<(Locals, &'w [Vec<Word<'a>>]), Stop>
    requires known { LocalsKnown r.old.graph pool.old params }
    requires apart { apart (locals_of r.old.graph.nodes params.names) ≡ true }
    ensures gives { Gives (λ x. (locals_of r.new.graph.nodes x.0.names, all_lines x.1.now)) result (option_and_then (allowed first_apart) (option_map (locals_behind (locals_of r.old.graph.nodes params.names)) (read_locals (bases (env_in r.old)) left (all_lines lines.now)))) }
    ensures known { IfOk result (λ x. LocalsKnown r.new.graph pool.new x.0) }
    ensures adds { IfOk result (λ x. AddsParts r.old.graph r.new.graph (types_in_locals (locals_of r.new.graph.nodes x.0.names))) }
    ensures on { Onward r.old r.new }
    ensures pool { KeepsNames pool.old pool.new }
{
    let mut locals = params;
    for i in 0..lines.len() {
        let line = &lines[i];
        if !is_base(line) {
            return Ok((locals, &lines[i..]));
        }
        locals = one_local(r, pool, left, locals, line)?;
    }
    Ok((locals, &lines[lines.len()..]))
}

/// One label more.
#[tactic(auto, using(crate::proofs::PoolLaws::pool_asked, crate::proofs::PoolLaws::pool_by, crate::proofs::PoolLaws::pool_same))]
fn with_label(pool: &mut NamePool, labels: Labels, text: &[u8]) -> Result<Labels, Stop>
    requires { TextsKnown pool.old labels.names.items labels.texts }
    ensures gives { Gives (λ x. x.texts) result (with_new labels.texts text.now) }
    ensures known { IfOk result (λ x. TextsKnown pool.new x.names.items x.texts) }
    ensures pool { KeepsNames pool.old pool.new }
{
    let Labels {
        mut texts,
        mut names,
    } = labels;
    texts.add(text)?;
    let name = pool.intern(text)?;
    names.push(name)?;
    Ok(Labels { texts, names })
}

/// The label of a line behind others, if it sets one.
#[tactic(auto, using(crate::proofs::PoolLaws::pool_same, crate::proofs::FunctionLaws::label_none, crate::proofs::FunctionLaws::label_taken))]
fn next_label(pool: &mut NamePool, labels: Labels, line: &[Word]) -> Result<Labels, Stop>
    requires { TextsKnown pool.old labels.names.items labels.texts }
    ensures gives { Gives (λ x. x.texts) result (label_behind labels.texts (all_said line.now)) }
    ensures known { IfOk result (λ x. TextsKnown pool.new x.names.items x.texts) }
    ensures pool { KeepsNames pool.old pool.new }
{
    if !is_label(line) {
        return Ok(labels);
    }
    with_label(pool, labels, label_text(line))
}

/// The labels that lines set, in order (C11 6.8.1); they differ.
#[tactic(auto, using(crate::proofs::BodyLaws::no_texts, crate::proofs::PoolLaws::pool_same, crate::proofs::PoolLaws::pool_twice, crate::proofs::FunctionLaws::labels_fail, crate::proofs::FunctionLaws::labels_end))]
fn labels_in(alloc: Global, pool: &mut NamePool, lines: &[Vec<Word>]) -> Result<Labels, Stop>
    ensures gives { Gives (λ x. x.texts) result (allowed are_different (labels_in (all_lines lines.now))) }
    ensures known { IfOk result (λ x. TextsKnown pool.new x.names.items x.texts) }
    ensures pool { KeepsNames pool.old pool.new }
{
    let mut labels = Labels {
        texts: Numbering::new(alloc),
        names: Vec::new(alloc),
    };
    for i in 0..lines.len() {
        labels = next_label(pool, labels, &lines[i])?;
    }
    Ok(labels)
}

/// The numbers of names.
#[tactic(auto, using(crate::proofs::BodyLaws::no_texts, crate::proofs::PoolLaws::pool_same, crate::proofs::PoolLaws::pool_asked, crate::proofs::PoolLaws::pool_by, crate::proofs::PoolLaws::pool_twice, crate::proofs::FunctionLaws::texts_next, crate::proofs::FunctionLaws::texts_end, crate::proofs::FunctionLaws::texts_given))]
fn numbers_of(alloc: Global, pool: &mut NamePool, texts: &[&[u8]]) -> Result<Vec<NameId>, Stop>
    ensures gives { Gives (λ x. map (text_at pool.new) x.items) result (Some (texts_of texts.now)) }
    ensures known { IfOk result (λ x. TextsKnown pool.new x.items (texts_of texts.now)) }
    ensures pool { KeepsNames pool.old pool.new }
{
    let mut names = Vec::new(alloc);
    for i in 0..texts.len() {
        names.push(pool.intern(texts[i])?)?;
    }
    Ok(names)
}

/// The statements of a function whose labels have these names.
#[tactic(auto, using(crate::proofs::FunctionLaws::stmts_give, crate::proofs::FunctionLaws::stmts_open, crate::proofs::FunctionLaws::stmts_fail, crate::proofs::FunctionLaws::heads_fail))]
fn read_stmts(
    r: &mut Reader,
    left: u32,
    labels: &Numbering,
    lines: &[Vec<Word>],
) -> Result<Vec<Stmt>, Stop>
    ensures gives { Gives (λ ss. stmts_of r.new.graph.nodes ss.items) result (option_and_then whole_stmts (option_and_then (read_nested left) (read_heads (env_in r.old) labels.now left (all_lines lines.now)))) }
    ensures known { IfOk result (λ ss. StmtsKnown r.new.graph ss.items) }
    ensures adds { IfOk result (λ ss. AddsParts r.old.graph r.new.graph (types_in_stmts (stmts_of r.new.graph.nodes ss.items))) }
    ensures on { Onward r.old r.new }
{
    let mut heads = read_heads(r, labels, left, lines)?;
    heads.reverse();
    let stmts = read_nested(r, &mut heads, left)?;
    if !heads.is_empty() {
        return Err(Stop::NotCil);
    }
    Ok(stmts)
}

/// The lines between those that open and close a function's body, where the function has this type and its parameters
/// these names.
#[tactic(auto, using(crate::proofs::FunctionLaws::body_stmts_fail, crate::proofs::FunctionLaws::body_locals_fail, crate::proofs::FunctionLaws::body_params_fail))]
fn read_body(
    r: &mut Reader,
    pool: &mut NamePool,
    left: u32,
    ty: TypeId,
    params: &[&[u8]],
    lines: &[Vec<Word>],
) -> Result<Body, Stop>
    requires { ty.0 < length r.old.graph.nodes }
    ensures gives { Gives (λ b. body_of r.new.graph.nodes pool.new b) result (read_body (outside (env_in r.old)) left (shape r.old.graph.nodes ty.0) (texts_of params.now) (all_lines lines.now)) }
    ensures known { IfOk result (λ b. BodyKnown r.new.graph pool.new b) }
    ensures adds { IfOk result (λ b. AddsParts r.old.graph r.new.graph (types_in_body (body_of r.new.graph.nodes pool.new b))) }
    ensures on { OnwardOutside r.old r.new pool.old pool.new }
{
    let first = param_locals(r, pool, ty, params)?;
    let (locals, rest) = read_locals(r, pool, left, first, lines)?;
    let Locals { names, all } = locals;
    r.set_locals(names);
    let labels = labels_in(r.alloc(), pool, rest)?;
    let stmts = read_stmts(r, left, &labels.texts, rest)?;
    let params = numbers_of(r.alloc(), pool, params)?;
    Ok(Body {
        params,
        locals: all,
        labels: labels.names,
        stmts,
    })
}

/// Lines without the first ones.
#[tactic(auto, using(crate::proofs::BodyLaws::all_behind, crate::proofs::BodyLaws::some_behind))]
fn behind_lines<'w, 'a>(lines: &'w [Vec<Word<'a>>], count: usize) -> &'w [Vec<Word<'a>>]
    ensures { result.now ≡ drop count lines.now }
{
    if count > lines.len() {
        return &lines[lines.len()..];
    }
    &lines[count..]
}

/// Whether a name is the first of these.
#[tactic(auto, using(crate::proofs::FunctionLaws::begins_none, crate::proofs::FunctionLaws::begins_other, crate::proofs::FunctionLaws::begins_own))]
fn begins_with(names: &[&[u8]], name: &[u8]) -> bool
    ensures { result ≡ begins_with (texts_of names.now) name.now }
{
    if names.is_empty() {
        return false;
    }
    if names[0] != name {
        return false;
    }
    true
}

/// Names without the first one.
#[tactic(auto, using(crate::proofs::FunctionLaws::first_none, crate::proofs::FunctionLaws::first_some))]
fn behind_first<'w, 'a>(names: &'w [&'a [u8]]) -> &'w [&'a [u8]]
    ensures { texts_of result.now ≡ behind_first (texts_of names.now) }
{
    if names.is_empty() {
        return names;
    }
    &names[1..]
}

/// The body of a function that is declared so, if it stands next; and how many lines it has within.
#[tactic(auto, using(crate::proofs::FunctionLaws::own_refused, crate::proofs::FunctionLaws::not_own, crate::proofs::OutsideLaws::outside_same, cil_text::proofs::PartsAdded::adds_none))]
fn own_body(
    r: &mut Reader,
    pool: &mut NamePool,
    left: u32,
    declaration: &Declaration,
    header: &[&[u8]],
    lines: &[Vec<Word>],
) -> Result<Option<(Body, usize)>, Stop>
    requires { declaration.now.ty.0 < length r.old.graph.nodes }
    ensures gives { Gives (λ o. option_map (λ x. (body_of r.new.graph.nodes pool.new x.0, behind_line (all_lines (drop x.1 (drop 1 lines.now))))) o) result (own_body (outside (env_in r.old)) left (declaration_of r.old.graph.nodes declaration.now) (texts_of header.now) (all_lines lines.now)) }
    ensures known { IfOk result (λ o. IfSome o (λ x. BodyKnown r.new.graph pool.new x.0)) }
    ensures adds { IfOk result (λ o. AddsParts r.old.graph r.new.graph (own_types r.new.graph.nodes pool.new o)) }
    ensures on { OnwardOutside r.old r.new pool.old pool.new }
{
    if !begins_with(header, declaration.name) {
        return Ok(None);
    }
    let inner = behind_line(lines);
    let count = block_length(inner);
    let params = behind_first(header);
    let body = read_body(r, pool, left, declaration.ty, params, &inner[..count])?;
    Ok(Some((body, count)))
}

/// Gives declared globals the bodies that stand next; the lines behind those.
#[tactic(auto, using(crate::proofs::GlobalLaws::declared_there, crate::proofs::GlobalLaws::declared_later, crate::proofs::OutsideLaws::outside_same, crate::proofs::OutsideLaws::outside_twice, crate::proofs::OutsideLaws::outside_grows, cil_text::proofs::PartsAdded::adds_none, crate::proofs::AddedBodies::all_add))]
pub(crate) fn read_bodies<'w, 'a>(
    r: &mut Reader,
    pool: &mut NamePool,
    left: u32,
    declarations: &[Declaration],
    globals: &mut [GlobalDecl],
    lines: &'w [Vec<Word<'a>>],
) -> Result<&'w [Vec<Word<'a>>], Stop>
    requires there { EachDeclared (length r.old.graph.nodes) declarations.now }
    requires each { length globals.old ≡ length declarations.now }
    requires known { GlobalsKnown r.old.graph pool.old globals.old }
    ensures gives { Gives (λ rest. (globals_of r.new.graph.nodes pool.new globals.new, all_lines rest.now)) result (option_map (bodied 0 (globals_of r.old.graph.nodes pool.old globals.old)) (read_bodies (outside (env_in r.old)) left (declarations_of r.old.graph.nodes declarations.now) (all_lines lines.now))) }
    ensures adds { IfOk result (λ rest. AddsParts r.old.graph r.new.graph (defined_types (globals_of r.new.graph.nodes pool.new globals.new))) }
    ensures on { OnwardOutside r.old r.new pool.old pool.new }
{
    let mut rest = lines;
    let mut header = next_header(r.alloc(), rest)?;
    for i in 0..declarations.len() {
        match own_body(r, pool, left, &declarations[i], &header, rest)? {
            None => {}
            Some((body, count)) => {
                globals[i].def = GlobalDef::Body(body);
                rest = behind_line(behind_lines(behind_line(rest), count));
                header = next_header(r.alloc(), rest)?;
            }
        }
    }
    Ok(rest)
}
