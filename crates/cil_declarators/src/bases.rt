ghost use Rattle.std.specs.Prelude.{◌≡◌, ◌<◌, ◌≤◌, length, IfOk, IfSome, [], ◌∷◌};
ghost use Rattle.std.specs.Option.{option_map};
ghost use Rattle.cil_text.specs.ReadTypes.{long_base, unsigned_base, signed_base, tag_base, read_base};
ghost use Rattle.type_graph.specs.Shapes.{shape};
ghost use Rattle.cil_text.specs.TypesOf.{AddsParts};
ghost use Rattle.cil_scan.specs.Said.{all_said};
ghost use Rattle.cil_declarators.specs.Bases.{base_shape, BaseBelow, base_has_kind, bases_in};
ghost use Rattle.cil_declarators.specs.Gives.{Gives};
ghost use Rattle.cil_declarators.specs.Extends.{Extends};

use crate::numbering::Numbering;
use crate::stop::Stop;
use cil_base::{Abi, AggId, IntKind, Memory, TypeId};
use cil_scan::Word;
use type_graph::{Node, TypeGraph};

/// A type without a declarator (C11 6.7.2).
#[derive(Clone, Copy)]
pub enum Base {
    Void,
    Int(IntKind),
    Agg(AggId),
}

/// Behind one `long`: the one kind or, behind another, the other.
fn long_base<'w, 'a>(one: IntKind, two: IntKind, words: &'w [Word<'a>]) -> (Base, &'w [Word<'a>])
    ensures { (base_shape result.0, all_said result.1.now) ≡ long_base one two (all_said words.now) }
{
    match words {
        [Word::LongWord, rest @ ..] => (Base::Int(two), rest),
        _ => (Base::Int(one), words),
    }
}

/// Behind `unsigned`.
fn unsigned_base<'w, 'a>(abi: Abi, words: &'w [Word<'a>]) -> Option<(Base, &'w [Word<'a>])>
    ensures read { option_map (λ r. (base_shape r.0, all_said r.1.now)) result ≡ unsigned_base abi (all_said words.now) }
{
    match words {
        [Word::CharWord, rest @ ..] => Some((Base::Int(IntKind::UChar), rest)),
        [Word::ShortWord, rest @ ..] => Some((Base::Int(IntKind::UShort), rest)),
        [Word::IntWord, rest @ ..] => Some((Base::Int(IntKind::UInt), rest)),
        [Word::LongWord, rest @ ..] => Some(long_base(abi.ulong(), IntKind::ULLong, rest)),
        _ => None,
    }
}

/// Behind `signed`.
fn signed_base<'w, 'a>(words: &'w [Word<'a>]) -> Option<(Base, &'w [Word<'a>])>
    ensures read { option_map (λ r. (base_shape r.0, all_said r.1.now)) result ≡ signed_base (all_said words.now) }
{
    match words {
        [Word::CharWord, rest @ ..] => Some((Base::Int(IntKind::SChar), rest)),
        _ => None,
    }
}

/// Behind `struct`, `union` or `enum`.
fn tag_base<'w, 'a>(tags: &Numbering, words: &'w [Word<'a>]) -> Option<(Base, &'w [Word<'a>])>
    ensures read { option_map (λ r. (base_shape r.0, all_said r.1.now)) result ≡ tag_base tags.now (all_said words.now) }
    ensures below { IfSome result (λ r. BaseBelow (length tags.now) r.0) }
{
    match words {
        [Word::Name(tag), rest @ ..] => Some((Base::Agg(AggId(tags.find(tag)?)), rest)),
        _ => None,
    }
}

/// The type that a declaration begins with (C11 6.7.2), in a data model, where the aggregates have these tags.
fn read_base<'w, 'a>(
    abi: Abi,
    tags: &Numbering,
    words: &'w [Word<'a>],
) -> Option<(Base, &'w [Word<'a>])>
    ensures read { option_map (λ r. (base_shape r.0, all_said r.1.now)) result ≡ read_base (bases_in abi tags.now) (all_said words.now) }
    ensures below { IfSome result (λ r. BaseBelow (length tags.now) r.0) }
{
    match words {
        [Word::VoidWord, rest @ ..] => Some((Base::Void, rest)),
        [Word::BoolWord, rest @ ..] => Some((Base::Int(IntKind::Bool), rest)),
        [Word::CharWord, rest @ ..] => Some((Base::Int(IntKind::Char), rest)),
        [Word::ShortWord, rest @ ..] => Some((Base::Int(IntKind::Short), rest)),
        [Word::IntWord, rest @ ..] => Some((Base::Int(IntKind::Int), rest)),
        [Word::LongWord, rest @ ..] => Some(long_base(abi.long(), IntKind::LLong, rest)),
        [Word::SignedWord, rest @ ..] => signed_base(rest),
        [Word::UnsignedWord, rest @ ..] => unsigned_base(abi, rest),
        [Word::TagWord(_), rest @ ..] => tag_base(tags, rest),
        _ => None,
    }
}

/// Whether the graph's data model has the kind, if the type is an integer type.
fn is_of_model(graph: &TypeGraph, base: Base) -> bool
    ensures { result ≡ base_has_kind graph.now.abi base }
{
    match base {
        Base::Void | Base::Agg(_) => true,
        Base::Int(kind) => kind.is_of(graph.abi()),
    }
}

/// The number of a type without a declarator. Memory also comes for a kind that the graph's data model has not.
#[tactic(auto, using(crate::proofs::ExtendsLaws::extends_by))]
fn add_base(graph: &mut TypeGraph, base: Base) -> Result<TypeId, Memory>
    requires { BaseBelow (length graph.old.aggs) base }
    ensures shape { IfOk result (λ t. shape graph.new.nodes t.0 ≡ base_shape base) }
    ensures there { IfOk result (λ t. t.0 < length graph.new.nodes) }
    ensures on { Extends graph.old graph.new }
    ensures adds { IfOk result (λ t. AddsParts graph.old graph.new (shape graph.new.nodes t.0 ∷ [])) }
{
    if !is_of_model(graph, base) {
        return Err(Memory);
    }
    match base {
        Base::Void => graph.add_node(Node::Void),
        Base::Int(kind) => graph.add_node(Node::Int(kind)),
        Base::Agg(a) => graph.add_node(Node::Agg(a)),
    }
}

/// The type that a declaration begins with, in the graph, which has the data model.
#[tactic(auto, using(crate::proofs::ExtendsLaws::extends_none))]
pub fn read_base_type<'w, 'a>(
    abi: Abi,
    tags: &Numbering,
    graph: &mut TypeGraph,
    words: &'w [Word<'a>],
) -> Result<(TypeId, &'w [Word<'a>]), Stop>
    requires { length tags.now ≤ length graph.old.aggs }
    ensures gives { Gives (λ r. (shape graph.new.nodes r.0.0, all_said r.1.now)) result (read_base (bases_in abi tags.now) (all_said words.now)) }
    ensures there { IfOk result (λ r. r.0.0 < length graph.new.nodes) }
    ensures on { Extends graph.old graph.new }
    ensures adds { IfOk result (λ r. AddsParts graph.old graph.new (shape graph.new.nodes r.0.0 ∷ [])) }
{
    let Some((base, rest)) = read_base(abi, tags, words) else {
        return Err(Stop::NotCil);
    };
    Ok((add_base(graph, base)?, rest))
}
