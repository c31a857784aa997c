ghost use Rattle.std.specs.Prelude.{◌≡◌, ◌<◌, [], ◌∷◌, length, true, false, IfSome, codes, decimal};
ghost use Rattle.type_graph.specs.Shapes.{shape, shapes_of};
ghost use Rattle.type_graph.specs.Arena.{EachType};
ghost use Rattle.cil_tree.specs.Declarators.{keyword_of, tag_text, tagged, aggregate_words, kind_words, bound_tokens, in_parentheses, listed, all_declared, declared, ended};
ghost use Rattle.cil_tree.specs.Text.{in_brackets};
ghost use Rattle.cil_printer.specs.Output.{puts};
ghost use Rattle.cil_printer.specs.Seen.{tree_of};
ghost use Rattle.cil_printer.specs.Sides.{IsEntry, is_grouped, star, star_end, before, after, following, type_parts};

use crate::program::Program;
use crate::sides::Sides;
use crate::sink::Sink;
use cil_base::{AggId, IntKind, TypeId};
use itoa::Buffer;
use type_graph::{AggKind, Aggregate, Node};

/// The keyword of a struct, union or enum (C11 6.7.2.1, 6.7.2.2).
fn keyword(kind: AggKind) -> &'static [u8]
    ensures { result.now ≡ keyword_of kind }
{
    match kind {
        AggKind::Struct => b"struct",
        AggKind::Union => b"union",
        AggKind::Enum => b"enum",
    }
}

/// Appends the words of an integer type (C11 6.7.2p2).
#[tactic(auto, using(crate::proofs::Declarations::kind_pushed))]
fn push_kind(out: &mut Sink, kind: IntKind)
    ensures { out.new ≡ puts out.old (kind_words kind) }
{
    out.token(kind.words().as_bytes());
}

/// Appends a decimal number.
pub(crate) fn push_decimal(out: &mut Sink, n: u64)
    ensures { out.new ≡ puts out.old (decimal n ∷ []) }
{
    let mut buffer = Buffer::new();
    out.token(buffer.format(n).as_bytes())
}

/// Appends an array's bound, where it is known.
#[tactic(auto, using(crate::proofs::Declarations::no_bound))]
fn push_bound(out: &mut Sink, bound: Option<u64>)
    ensures { out.new ≡ puts out.old (bound_tokens bound) }
{
    match bound {
        None => {}
        Some(n) => push_decimal(out, n),
    }
}

/// Appends an array's brackets with its bound (C11 6.7.6.2).
#[tactic(auto, using(crate::proofs::Puts::enclosed))]
fn push_brackets(out: &mut Sink, bound: Option<u64>)
    ensures { out.new ≡ puts out.old (in_brackets (bound_tokens bound)) }
{
    out.token(b"[");
    push_bound(out, bound);
    out.token(b"]");
}

/// Appends what ends the parameters of a function that takes more arguments (C11 6.7.6.3p9).
#[tactic(auto, using(crate::proofs::Puts::pair_pushed))]
fn push_dots(out: &mut Sink)
    ensures { out.new ≡ puts out.old (codes "," ∷ codes "..." ∷ []) }
{
    out.token(b",");
    out.token(b"...");
}

/// Appends the end of a list of parameters.
#[tactic(auto, using(crate::proofs::Declarations::no_dots))]
pub(crate) fn push_end(out: &mut Sink, variadic: bool)
    ensures { out.new ≡ puts out.old (ended variadic []) }
{
    if variadic {
        push_dots(out);
    }
}

/// The parameters of a function type, each of which has a smaller number, and whether they are a prototype's.
#[derive(Clone, Copy)]
pub(crate) struct Prototype<'a> {
    pub of: TypeId,
    pub params: &'a [TypeId],
    pub proto: bool,
    pub variadic: bool,
}

/// Appends the `*` of a pointer to an array or a function.
#[tactic(auto, using(crate::proofs::Puts::pair_pushed))]
fn push_group(out: &mut Sink)
    ensures { out.new ≡ puts out.old (codes "(" ∷ codes "*" ∷ []) }
{
    out.token(b"(");
    out.token(b"*");
}

impl<'a> Program<'a> {
    /// The entry of a type, where bytes are counted and there is one.
    #[tactic(auto, using(crate::proofs::Declarations::entry_is))]
    fn entry(&self, out: &Sink, t: TypeId) -> Option<Sides>
        ensures { IfSome result (IsEntry out.now (tree_of self.now) t.0) }
    {
        if !out.is_counting() {
            return None;
        }
        self.sides.get(t.0 as usize).copied()
    }

    /// Appends a tag with its keyword (C11 6.7.2.3).
    #[tactic(auto, using(crate::proofs::Puts::pair_pushed))]
    pub(crate) fn push_tagged(&self, out: &mut Sink, x: &Aggregate)
        ensures { out.new ≡ puts out.old (tagged (tree_of self.now) x.now) }
    {
        out.token(keyword(x.kind));
        self.push_tag(out, x);
    }

    /// Appends a tag.
    fn push_tag(&self, out: &mut Sink, x: &Aggregate)
        ensures { out.new ≡ puts out.old (tag_text (tree_of self.now) x.now ∷ []) }
    {
        match x.tag {
            None => out.token(b""),
            Some(n) => out.token(self.name(n)),
        }
    }

    /// Appends a struct, union or enum by its tag.
    #[tactic(auto, using(crate::proofs::Declarations::aggregate_at))]
    fn push_aggregate(&self, out: &mut Sink, a: AggId)
        requires { a.0 < length (tree_of self.now).graph.aggs }
        ensures { out.new ≡ puts out.old (aggregate_words (tree_of self.now) a.0) }
    {
        self.push_tagged(out, self.graph().agg(a));
    }

    /// Whether a pointer to the type has its `*` in parentheses.
    fn is_grouped(&self, t: TypeId) -> bool
        requires { t.0 < length (tree_of self.now).graph.nodes }
        ensures { result ≡ is_grouped (shape (tree_of self.now).graph.nodes t.0) }
    {
        match self.graph().node(t) {
            Node::Array(..) | Node::Func { .. } => true,
            Node::Void | Node::Int(_) | Node::Ptr(_) | Node::Agg(_) => false,
        }
    }

    /// Appends the `*` of a pointer to the type (C11 6.7.6.1).
    #[tactic(auto, using(crate::proofs::Declarations::star_grouped, crate::proofs::Declarations::star_alone))]
    fn push_star(&self, out: &mut Sink, t: TypeId)
        requires { t.0 < length (tree_of self.now).graph.nodes }
        ensures { out.new ≡ puts out.old (star (shape (tree_of self.now).graph.nodes t.0)) }
    {
        if self.is_grouped(t) {
            push_group(out)
        } else {
            out.token(b"*")
        }
    }

    /// Appends what ends the group of a pointer's `*`.
    #[tactic(auto, using(crate::proofs::Declarations::end_grouped, crate::proofs::Declarations::end_alone, crate::proofs::Puts::nothing_pushed))]
    fn push_star_end(&self, out: &mut Sink, t: TypeId)
        requires { t.0 < length (tree_of self.now).graph.nodes }
        ensures { out.new ≡ puts out.old (star_end (shape (tree_of self.now).graph.nodes t.0)) }
    {
        if self.is_grouped(t) {
            out.token(b")");
        }
    }

    /// Appends what a declaration of the type has before what it declares. Where bytes are counted, an entry of the
    /// table says how many there are.
    #[cycle(before)]
    pub(crate) fn push_before(&self, out: &mut Sink, t: TypeId)
        requires { t.0 < length (tree_of self.now).graph.nodes }
        ensures { out.new ≡ puts out.old (before (tree_of self.now) (shape (tree_of self.now).graph.nodes t.0)) }
    {
        match self.entry(out, t) {
            Some(entry) => out.add(entry.before),
            None => self.write_before(out, t),
        }
    }

    /// Appends the tokens before what is declared.
    #[cycle(before)]
    #[tactic(auto, using(crate::proofs::Puts::two_pushed))]
    fn write_before(&self, out: &mut Sink, t: TypeId)
        requires { t.0 < length (tree_of self.now).graph.nodes }
        ensures { out.new ≡ puts out.old (before (tree_of self.now) (shape (tree_of self.now).graph.nodes t.0)) }
    {
        match self.graph().node(t) {
            Node::Void => out.token(b"void"),
            Node::Int(kind) => push_kind(out, *kind),
            Node::Ptr(q) => {
                self.push_before(out, q.of);
                self.push_star(out, q.of);
            }
            Node::Array(q, _) => self.push_before(out, q.of),
            Node::Func { ret, .. } => self.push_before(out, *ret),
            Node::Agg(a) => self.push_aggregate(out, *a),
        }
    }

    /// Appends what a declaration of the type has behind what it declares. Where bytes are counted, an entry of the
    /// table says how many there are.
    #[cycle(after)]
    pub(crate) fn push_after(&self, out: &mut Sink, t: TypeId)
        requires { t.0 < length (tree_of self.now).graph.nodes }
        ensures { out.new ≡ puts out.old (after (tree_of self.now) (shape (tree_of self.now).graph.nodes t.0)) }
    {
        match self.entry(out, t) {
            Some(entry) => out.add(entry.behind),
            None => self.write_after(out, t),
        }
    }

    /// Appends the tokens behind what is declared.
    #[cycle(after)]
    #[tactic(auto, using(crate::proofs::Puts::two_pushed, crate::proofs::Puts::nothing_pushed))]
    fn write_after(&self, out: &mut Sink, t: TypeId)
        requires { t.0 < length (tree_of self.now).graph.nodes }
        ensures { out.new ≡ puts out.old (after (tree_of self.now) (shape (tree_of self.now).graph.nodes t.0)) }
    {
        match self.graph().node(t) {
            Node::Void | Node::Int(_) | Node::Agg(_) => {}
            Node::Ptr(q) => {
                self.push_star_end(out, q.of);
                self.push_after(out, q.of);
            }
            Node::Array(q, bound) => {
                push_brackets(out, *bound);
                self.push_after(out, q.of);
            }
            Node::Func {
                ret,
                params,
                proto,
                variadic,
            } => {
                let list = Prototype {
                    of: t,
                    params: params.as_slice(),
                    proto: *proto,
                    variadic: *variadic,
                };
                self.push_parameters(out, list);
                self.push_after(out, *ret);
            }
        }
    }

    /// Appends a function's parameters in parentheses (C11 6.7.6.3).
    #[cycle(after)]
    #[tactic(auto, using(crate::proofs::Puts::enclosed))]
    fn push_parameters(&self, out: &mut Sink, list: Prototype)
        requires there { list.of.0 < length (tree_of self.now).graph.nodes }
        requires below { EachType list.of.0 list.params.now }
        ensures { out.new ≡ puts out.old (in_parentheses (listed list.entry.proto list.entry.variadic (all_declared (tree_of self.now) (shapes_of (shape (tree_of self.now).graph.nodes) list.entry.params.now)))) }
    {
        out.token(b"(");
        self.push_listed(out, list);
        out.token(b")");
    }

    /// Appends a function's parameters.
    #[cycle(after)]
    fn push_listed(&self, out: &mut Sink, list: Prototype)
        requires there { list.of.0 < length (tree_of self.now).graph.nodes }
        requires below { EachType list.of.0 list.params.now }
        ensures { out.new ≡ puts out.old (listed list.entry.proto list.entry.variadic (all_declared (tree_of self.now) (shapes_of (shape (tree_of self.now).graph.nodes) list.entry.params.now))) }
    {
        if !list.proto {
            return;
        }
        match list.params {
            [] => out.token(b"void"),
            [first, rest @ ..] => self.push_types(out, list.of, *first, rest, list.variadic),
        }
    }

    /// Appends a prototype's parameters, of which there is a first.
    #[cycle(after)]
    #[tactic(auto, using(crate::proofs::Declarations::parameters_pushed))]
    fn push_types(&self, out: &mut Sink, of: TypeId, first: TypeId, rest: &[TypeId], variadic: bool)
        requires there { of.0 < length (tree_of self.now).graph.nodes }
        requires first { first.0 < of.0 }
        requires below { EachType of.0 rest.now }
        ensures { out.new ≡ puts out.old (listed true variadic (all_declared (tree_of self.now) (shapes_of (shape (tree_of self.now).graph.nodes) (first ∷ rest.now)))) }
    {
        let _types = self.graph().len();
        self.push_type(out, first);
        self.push_following(out, of, rest);
        push_end(out, variadic);
    }

    /// Appends types without names, each behind a comma.
    #[cycle(after)]
    fn push_following(&self, out: &mut Sink, of: TypeId, rest: &[TypeId])
        requires there { of.0 < length (tree_of self.now).graph.nodes }
        requires below { EachType of.0 rest.now }
        ensures { out.new ≡ puts out.old (following (type_parts (tree_of self.now) rest.now)) }
    {
        for i in 0..rest.len() {
            out.token(b",");
            self.push_type(out, rest[i]);
        }
    }

    /// Appends a type without a name (C11 6.7.7).
    #[cycle(after)]
    #[tactic(auto, using(crate::proofs::Declarations::type_pushed))]
    pub(crate) fn push_type(&self, out: &mut Sink, t: TypeId)
        requires { t.0 < length (tree_of self.now).graph.nodes }
        ensures { out.new ≡ puts out.old (declared (tree_of self.now) (shape (tree_of self.now).graph.nodes t.0) []) }
    {
        self.push_before(out, t);
        self.push_after(out, t);
    }
}
