ghost use Rattle.std.specs.Prelude.{◌≡◌, ◌<◌, ◌≤◌, ◌+◌, List, [], ◌∷◌, ◌++◌, length, IfOk, IfSome};
ghost use Rattle.std.specs.Option.{option_map};
ghost use Rattle.cil_text.specs.ReadTypes.{called, declared_as, heads, tails, popped, read_suffix, read_called, read_params, read_decl};
ghost use Rattle.cil_text.specs.TypesOf.{AddsParts};
ghost use Rattle.type_graph.specs.Shapes.{Shape, shape, shapes_of, PtrType};
ghost use Rattle.type_graph.specs.Arena.{Graph, EachType};
ghost use Rattle.cil_tree.specs.Typing.{unqualified};
ghost use Rattle.cil_scan.specs.Said.{all_said};
ghost use Rattle.cil_declarators.specs.Bases.{bases_in};
ghost use Rattle.cil_declarators.specs.Gives.{Gives};
ghost use Rattle.cil_declarators.specs.Extends.{Extends};
ghost use Rattle.cil_declarators.specs.Layers.{listed, layer_types, param_more, params_of, is_another, mark_of, head_of, marks_of, layer_of, LayerBelow, wrapped, wrapped_from, named_of, read_parameter, built_from, behind_parameter};

use crate::bases::read_base_type;
use crate::numbering::Numbering;
use crate::stop::Stop;
use cil_base::{Abi, BinOp, Memory, TypeId};
use cil_forms::{closing, is_star, is_suffix, read_name, void_alone};
use cil_scan::Word;
use std::alloc::Global;
use type_graph::{Node, TypeGraph, TypeList, unqualified};

/// What stands before a declarator's name: a pointer's `*`, or a parenthesis.
#[derive(Clone, Copy)]
pub enum Mark {
    Points,
    Group,
}

/// What stands behind a declarator's name (C11 6.7.6.2, 6.7.6.3).
#[derive(Drop)]
pub enum Suffix {
    /// The bound of an array.
    Elements(Option<u64>),
    /// The types of a function's parameters, whether they are a prototype, and whether more arguments may follow.
    Called(Vec<TypeId>, bool, bool),
}

/// The types of parameters that were read, what follows them, and what stands behind that.
#[derive(Drop)]
struct Params<'w, 'a> {
    types: Vec<TypeId>,
    follows: Follows,
    rest: &'w [Word<'a>],
}

/// A declarator whose name was read: the type before it, and the marks before the name, the nearest to it last.
#[derive(Drop)]
struct Open {
    base: TypeId,
    marks: Vec<Mark>,
}

/// A type, and the name of what has it.
#[derive(Clone, Copy)]
pub struct Named<'a> {
    pub ty: TypeId,
    pub name: Option<&'a [u8]>,
}

/// What stands behind a parameter.
#[derive(Clone, Copy)]
pub enum Follows {
    End,
    Variadic,
    Another,
}

/// The mark in front, if one stands there.
fn head(words: &[Word]) -> Option<Mark>
    ensures read { option_map mark_of result ≡ head_of (all_said words.now) }
    ensures some { IfSome result (λ _. 0 < length words.now) }
{
    match words {
        [Word::Operator(BinOp::Mul), ..] => Some(Mark::Points),
        [Word::LeftParen, rest @ ..] if is_star(rest) => Some(Mark::Group),
        _ => None,
    }
}

/// The marks in front, the nearest to the name last, and what stands behind them.
#[tactic(auto, using(crate::proofs::LayersLaws::head_on, crate::proofs::LayersLaws::head_end, cil_forms::proofs::FormLaws::rest_of, cil_forms::proofs::FormLaws::rest_within))]
fn heads<'w, 'a>(
    alloc: Global,
    words: &'w [Word<'a>],
) -> Result<(Vec<Mark>, &'w [Word<'a>]), Memory>
    ensures { IfOk result (λ r. (marks_of r.0.items, all_said r.1.now) ≡ heads [] (all_said words.now)) }
{
    let mut marks = Vec::new(alloc);
    let mut at = 0;
    while let Some(mark) = head(&words[at..]) {
        marks.push(mark)?;
        at += 1;
    }
    Ok((marks, &words[at..]))
}

/// What stands behind a parameter.
fn behind_parameter<'w, 'a>(words: &'w [Word<'a>]) -> Option<(Follows, &'w [Word<'a>])>
    ensures { option_map (λ r. (r.0, all_said r.1.now)) result ≡ behind_parameter (all_said words.now) }
{
    match words {
        [Word::RightParen, rest @ ..] => Some((Follows::End, rest)),
        [Word::Comma, Word::Ellipsis, Word::RightParen, rest @ ..] => {
            Some((Follows::Variadic, rest))
        }
        [Word::Comma, Word::Ellipsis, ..] => None,
        [Word::Comma, rest @ ..] => Some((Follows::Another, rest)),
        _ => None,
    }
}

/// A pointer to a type (C11 6.7.6.1).
#[tactic(auto, using(crate::proofs::ExtendsLaws::extends_by))]
fn add_pointer(graph: &mut TypeGraph, to: TypeId) -> Result<TypeId, Memory>
    requires { to.0 < length graph.old.nodes }
    ensures shape { IfOk result (λ t. shape graph.new.nodes t.0 ≡ PtrType unqualified (shape graph.old.nodes to.0)) }
    ensures there { IfOk result (λ t. t.0 < length graph.new.nodes) }
    ensures on { Extends graph.old graph.new }
    ensures adds { (f : Graph) (ss : List Shape) → AddsParts f graph.old (shape graph.old.nodes to.0 ∷ ss) → IfOk result (λ t. AddsParts f graph.new (shape graph.new.nodes t.0 ∷ ss)) }
{
    graph.add_node(Node::Ptr(unqualified(to)))
}

/// An array of a type, or a function that returns it (C11 6.7.6.2, 6.7.6.3).
#[tactic(auto, using(crate::proofs::ExtendsLaws::extends_by))]
fn add_wrapped(graph: &mut TypeGraph, suffix: Suffix, inner: TypeId) -> Result<TypeId, Memory>
    requires inner { inner.0 < length graph.old.nodes }
    requires suffix { LayerBelow (length graph.old.nodes) suffix }
    ensures shape { IfOk result (λ t. shape graph.new.nodes t.0 ≡ wrapped (layer_of graph.old.nodes suffix) (shape graph.old.nodes inner.0)) }
    ensures there { IfOk result (λ t. t.0 < length graph.new.nodes) }
    ensures on { Extends graph.old graph.new }
    ensures adds { (f : Graph) (ss : List Shape) → AddsParts f graph.old (shape graph.old.nodes inner.0 ∷ (layer_types (layer_of graph.old.nodes suffix) ++ ss)) → IfOk result (λ t. AddsParts f graph.new (shape graph.new.nodes t.0 ∷ ss)) }
{
    match suffix {
        Suffix::Elements(bound) => graph.add_node(Node::Array(unqualified(inner), bound)),
        Suffix::Called(params, proto, variadic) => graph.add_node(Node::Func {
            proto,
            variadic,
            ret: inner,
            params: TypeList::new(params),
        }),
    }
}

/// A declaration without storage class, or a type's name (C11 6.7.6, 6.7.7). What stands within it is read with one
/// step less.
#[cycle(declaration)]
#[tactic(auto, using(crate::proofs::LayersLaws::decl_step, crate::proofs::LayersLaws::decl_fails, crate::proofs::LayersLaws::decl_none, crate::proofs::ExtendsLaws::extends_none, crate::proofs::ExtendsLaws::extends_twice, crate::proofs::ExtendsLaws::extends_aggs))]
pub fn read_decl<'w, 'a>(
    abi: Abi,
    tags: &Numbering,
    graph: &mut TypeGraph,
    left: u32,
    words: &'w [Word<'a>],
) -> Result<(Named<'a>, &'w [Word<'a>]), Stop>
    requires tags { length tags.now ≤ length graph.old.aggs }
    ensures gives { Gives (λ r. (named_of graph.new.nodes r.0, all_said r.1.now)) result (read_decl (bases_in abi tags.now) left (all_said words.now)) }
    ensures there { IfOk result (λ r. r.0.ty.0 < length graph.new.nodes) }
    ensures on { Extends graph.old graph.new }
    ensures adds { IfOk result (λ r. AddsParts graph.old graph.new (shape graph.new.nodes r.0.ty.0 ∷ [])) }
{
    if left == 0 {
        return Err(Stop::NotCil);
    }
    let (base, rest) = read_base_type(abi, tags, graph, words)?;
    declared_as(abi, tags, graph, left - 1, base, rest)
}

/// A declarator around a type.
#[cycle(declaration)]
#[tactic(auto, using(crate::proofs::LayersLaws::named_gives, crate::proofs::LayersLaws::named_fails, crate::proofs::ExtendsLaws::extends_twice, crate::proofs::ExtendsLaws::extends_grows, crate::proofs::ExtendsLaws::extends_aggs, type_graph::proofs::ShapeLaws::kept, crate::proofs::ExtendsLaws::extends_none))]
fn declared_as<'w, 'a>(
    abi: Abi,
    tags: &Numbering,
    graph: &mut TypeGraph,
    left: u32,
    base: TypeId,
    words: &'w [Word<'a>],
) -> Result<(Named<'a>, &'w [Word<'a>]), Stop>
    requires tags { length tags.now ≤ length graph.old.aggs }
    requires base { base.0 < length graph.old.nodes }
    ensures gives { Gives (λ r. (named_of graph.new.nodes r.0, all_said r.1.now)) result (declared_as (read_parameter (bases_in abi tags.now) left) left (shape graph.old.nodes base.0, all_said words.now)) }
    ensures there { IfOk result (λ r. r.0.ty.0 < length graph.new.nodes) }
    ensures on { Extends graph.old graph.new }
    ensures adds { (f : Graph) (ss : List Shape) → AddsParts f graph.old (shape graph.old.nodes base.0 ∷ ss) → IfOk result (λ r. AddsParts f graph.new (shape graph.new.nodes r.0.ty.0 ∷ ss)) }
{
    let (marks, rest) = heads(graph.alloc(), words)?;
    let (name, rest) = read_name(rest);
    let front = Open { base, marks };
    let (ty, rest) = tails(abi, tags, graph, left, left, front, rest)?;
    Ok((Named { ty, name }, rest))
}

/// What stands behind a declarator's name.
#[cycle(declaration)]
#[tactic(auto, using(crate::proofs::LayersLaws::tails_none, crate::proofs::LayersLaws::tails_suffix, crate::proofs::LayersLaws::tails_popped, crate::proofs::LayersLaws::suffix_fails, crate::proofs::ExtendsLaws::extends_twice, crate::proofs::ExtendsLaws::extends_grows, crate::proofs::ExtendsLaws::extends_aggs, type_graph::proofs::ShapeLaws::kept, crate::proofs::ExtendsLaws::extends_none))]
fn tails<'w, 'a>(
    abi: Abi,
    tags: &Numbering,
    graph: &mut TypeGraph,
    left: u32,
    steps: u32,
    front: Open,
    words: &'w [Word<'a>],
) -> Result<(TypeId, &'w [Word<'a>]), Stop>
    requires tags { length tags.now ≤ length graph.old.aggs }
    requires base { front.base.0 < length graph.old.nodes }
    ensures gives { Gives (λ r. (shape graph.new.nodes r.0.0, all_said r.1.now)) result (option_map (built_from (shape graph.old.nodes front.base.0)) (tails (read_parameter (bases_in abi tags.now) left) steps (marks_of front.marks.items) (all_said words.now))) }
    ensures there { IfOk result (λ r. r.0.0 < length graph.new.nodes) }
    ensures on { Extends graph.old graph.new }
    ensures adds { (f : Graph) (ss : List Shape) → AddsParts f graph.old (shape graph.old.nodes front.base.0 ∷ ss) → IfOk result (λ r. AddsParts f graph.new (shape graph.new.nodes r.0.0 ∷ ss)) }
{
    if steps == 0 {
        return Err(Stop::NotCil);
    }
    if !is_suffix(words) {
        return popped(abi, tags, graph, left, steps - 1, front, words);
    }
    let (suffix, rest) = read_suffix(abi, tags, graph, left, steps - 1, words)?;
    behind_suffix(abi, tags, graph, left, steps - 1, front, suffix, rest)
}

/// The type that a suffix makes of what stands behind it.
#[cycle(declaration)]
#[tactic(auto, using(crate::proofs::LayersLaws::wrapped_gives, crate::proofs::LayersLaws::wrapped_fails, crate::proofs::LayersLaws::layer_kept, crate::proofs::LayersLaws::layer_below, crate::proofs::ExtendsLaws::extends_twice, crate::proofs::ExtendsLaws::extends_grows, crate::proofs::ExtendsLaws::extends_aggs, type_graph::proofs::ShapeLaws::kept, crate::proofs::AddedLaws::layer_later))]
fn behind_suffix<'w, 'a>(
    abi: Abi,
    tags: &Numbering,
    graph: &mut TypeGraph,
    left: u32,
    steps: u32,
    front: Open,
    suffix: Suffix,
    words: &'w [Word<'a>],
) -> Result<(TypeId, &'w [Word<'a>]), Stop>
    requires tags { length tags.now ≤ length graph.old.aggs }
    requires base { front.base.0 < length graph.old.nodes }
    requires suffix { LayerBelow (length graph.old.nodes) suffix }
    ensures gives { Gives (λ r. (shape graph.new.nodes r.0.0, all_said r.1.now)) result (option_map (wrapped_from (layer_of graph.old.nodes suffix) (shape graph.old.nodes front.base.0)) (tails (read_parameter (bases_in abi tags.now) left) steps (marks_of front.marks.items) (all_said words.now))) }
    ensures there { IfOk result (λ r. r.0.0 < length graph.new.nodes) }
    ensures on { Extends graph.old graph.new }
    ensures adds { (f : Graph) (ss : List Shape) → AddsParts f graph.old (shape graph.old.nodes front.base.0 ∷ (layer_types (layer_of graph.old.nodes suffix) ++ ss)) → IfOk result (λ r. AddsParts f graph.new (shape graph.new.nodes r.0.0 ∷ ss)) }
{
    let (inner, rest) = tails(abi, tags, graph, left, steps, front, words)?;
    Ok((add_wrapped(graph, suffix, inner)?, rest))
}

/// Where no suffix stands, the mark that is nearest to the name counts.
#[cycle(declaration)]
#[tactic(auto, using(crate::proofs::LayersLaws::marks_more, crate::proofs::LayersLaws::pointer_gives, crate::proofs::LayersLaws::pointer_fails, crate::proofs::ExtendsLaws::extends_twice, crate::proofs::ExtendsLaws::extends_grows, crate::proofs::ExtendsLaws::extends_aggs, type_graph::proofs::ShapeLaws::kept, crate::proofs::ExtendsLaws::extends_none))]
fn popped<'w, 'a>(
    abi: Abi,
    tags: &Numbering,
    graph: &mut TypeGraph,
    left: u32,
    steps: u32,
    front: Open,
    words: &'w [Word<'a>],
) -> Result<(TypeId, &'w [Word<'a>]), Stop>
    requires tags { length tags.now ≤ length graph.old.aggs }
    requires base { front.base.0 < length graph.old.nodes }
    ensures gives { Gives (λ r. (shape graph.new.nodes r.0.0, all_said r.1.now)) result (option_map (built_from (shape graph.old.nodes front.base.0)) (popped (tails (read_parameter (bases_in abi tags.now) left) steps) (marks_of front.marks.items) (all_said words.now))) }
    ensures there { IfOk result (λ r. r.0.0 < length graph.new.nodes) }
    ensures on { Extends graph.old graph.new }
    ensures adds { (f : Graph) (ss : List Shape) → AddsParts f graph.old (shape graph.old.nodes front.base.0 ∷ ss) → IfOk result (λ r. AddsParts f graph.new (shape graph.new.nodes r.0.0 ∷ ss)) }
{
    let mut marks = front.marks;
    let base = front.base;
    match marks.pop() {
        None => Ok((base, words)),
        Some(Mark::Points) => {
            let front = Open { base, marks };
            let (to, rest) = tails(abi, tags, graph, left, steps, front, words)?;
            Ok((add_pointer(graph, to)?, rest))
        }
        Some(Mark::Group) => match words {
            [Word::RightParen, rest @ ..] => {
                tails(abi, tags, graph, left, steps, Open { base, marks }, rest)
            }
            _ => Err(Stop::NotCil),
        },
    }
}

/// The bound of an array, or the parameters of a function.
#[cycle(declaration)]
#[tactic(auto, using(crate::proofs::ExtendsLaws::extends_none, cil_text::proofs::PartsAdded::adds_none))]
fn read_suffix<'w, 'a>(
    abi: Abi,
    tags: &Numbering,
    graph: &mut TypeGraph,
    left: u32,
    steps: u32,
    words: &'w [Word<'a>],
) -> Result<(Suffix, &'w [Word<'a>]), Stop>
    requires tags { length tags.now ≤ length graph.old.aggs }
    ensures gives { Gives (λ r. (layer_of graph.new.nodes r.0, all_said r.1.now)) result (read_suffix (read_parameter (bases_in abi tags.now) left) steps (all_said words.now)) }
    ensures there { IfOk result (λ r. LayerBelow (length graph.new.nodes) r.0) }
    ensures on { Extends graph.old graph.new }
    ensures adds { IfOk result (λ r. AddsParts graph.old graph.new (layer_types (layer_of graph.new.nodes r.0))) }
{
    match words {
        [Word::LeftBracket, Word::RightBracket, rest @ ..] => Ok((Suffix::Elements(None), rest)),
        [
            Word::LeftBracket,
            Word::Number(_, n),
            Word::RightBracket,
            rest @ ..,
        ] => Ok((Suffix::Elements(Some(*n)), rest)),
        [Word::LeftParen, rest @ ..] => read_called(abi, tags, graph, left, steps, rest),
        _ => Err(Stop::NotCil),
    }
}

/// Behind the `(` of a function's parameters: `)`, `void )`, or parameters.
#[cycle(declaration)]
#[tactic(auto, using(crate::proofs::LayersLaws::called_closing, crate::proofs::LayersLaws::called_void, crate::proofs::LayersLaws::called_next, crate::proofs::ExtendsLaws::extends_none, cil_text::proofs::PartsAdded::adds_none))]
fn read_called<'w, 'a>(
    abi: Abi,
    tags: &Numbering,
    graph: &mut TypeGraph,
    left: u32,
    steps: u32,
    words: &'w [Word<'a>],
) -> Result<(Suffix, &'w [Word<'a>]), Stop>
    requires tags { length tags.now ≤ length graph.old.aggs }
    ensures gives { Gives (λ r. (layer_of graph.new.nodes r.0, all_said r.1.now)) result (read_called (read_parameter (bases_in abi tags.now) left) steps (all_said words.now)) }
    ensures there { IfOk result (λ r. LayerBelow (length graph.new.nodes) r.0) }
    ensures on { Extends graph.old graph.new }
    ensures adds { IfOk result (λ r. AddsParts graph.old graph.new (layer_types (layer_of graph.new.nodes r.0))) }
{
    if let Some(rest) = closing(words) {
        let types = Vec::new(graph.alloc());
        return Ok((Suffix::Called(types, false, false), rest));
    }
    if let Some(rest) = void_alone(words) {
        let types = Vec::new(graph.alloc());
        return Ok((Suffix::Called(types, true, false), rest));
    }
    read_params(abi, tags, graph, left, steps, words)
}

/// One parameter more.
#[cycle(declaration)]
#[tactic(auto, using(crate::proofs::LayersLaws::param_gives, crate::proofs::LayersLaws::param_open, crate::proofs::LayersLaws::param_fails, crate::proofs::LayersLaws::each_more, crate::proofs::AddedLaws::param_added, crate::proofs::ExtendsLaws::extends_grows))]
fn one_param<'w, 'a>(
    abi: Abi,
    tags: &Numbering,
    graph: &mut TypeGraph,
    left: u32,
    params: Params<'w, 'a>,
) -> Result<Params<'w, 'a>, Stop>
    requires tags { length tags.now ≤ length graph.old.aggs }
    requires types { EachType (length graph.old.nodes) params.types.items }
    ensures gives { Gives (λ r. params_of graph.new.nodes r) result (param_more (shapes_of (shape graph.old.nodes) params.entry.types.items) (read_parameter (bases_in abi tags.now) left (all_said params.entry.rest.now))) }
    ensures there { IfOk result (λ r. EachType (length graph.new.nodes) r.types.items) }
    ensures on { Extends graph.old graph.new }
    ensures adds { (f : Graph) → AddsParts f graph.old (listed (shapes_of (shape graph.old.nodes) params.entry.types.items)) → IfOk result (λ r. AddsParts f graph.new (listed (shapes_of (shape graph.new.nodes) r.types.items))) }
{
    let (param, rest) = read_decl(abi, tags, graph, left, params.rest)?;
    let mut types = params.types;
    types.push(param.ty)?;
    match behind_parameter(rest) {
        Some((follows, rest)) => Ok(Params {
            types,
            follows,
            rest,
        }),
        None => Err(Stop::NotCil),
    }
}

/// Whether another parameter follows.
fn is_another(follows: Follows) -> bool
    ensures { result ≡ is_another follows }
{
    match follows {
        Follows::Another => true,
        Follows::End | Follows::Variadic => false,
    }
}

/// Parameters, at least one, up to `)`. Their number is bounded.
#[cycle(declaration)]
#[tactic(auto, using(crate::proofs::LayersLaws::params_start, crate::proofs::LayersLaws::params_end, crate::proofs::LayersLaws::params_variadic, crate::proofs::LayersLaws::params_over, crate::proofs::LayersLaws::params_stop, crate::proofs::ExtendsLaws::extends_none, crate::proofs::ExtendsLaws::extends_twice, crate::proofs::ExtendsLaws::extends_aggs, cil_text::proofs::PartsAdded::adds_none))]
fn read_params<'w, 'a>(
    abi: Abi,
    tags: &Numbering,
    graph: &mut TypeGraph,
    left: u32,
    steps: u32,
    words: &'w [Word<'a>],
) -> Result<(Suffix, &'w [Word<'a>]), Stop>
    requires tags { length tags.now ≤ length graph.old.aggs }
    ensures gives { Gives (λ r. (layer_of graph.new.nodes r.0, all_said r.1.now)) result (option_map called (read_params (read_parameter (bases_in abi tags.now) left) steps (all_said words.now))) }
    ensures there { IfOk result (λ r. LayerBelow (length graph.new.nodes) r.0) }
    ensures on { Extends graph.old graph.new }
    ensures adds { IfOk result (λ r. AddsParts graph.old graph.new (layer_types (layer_of graph.new.nodes r.0))) }
{
    let mut params = Params {
        types: Vec::new(graph.alloc()),
        follows: Follows::Another,
        rest: words,
    };
    let mut turns = steps;
    while turns > 0 && is_another(params.follows) {
        params = one_param(abi, tags, graph, left, params)?;
        turns -= 1;
    }
    let Params {
        types,
        follows,
        rest,
    } = params;
    match follows {
        Follows::End => Ok((Suffix::Called(types, true, false), rest)),
        Follows::Variadic => Ok((Suffix::Called(types, true, true), rest)),
        Follows::Another => Err(Stop::NotCil),
    }
}
