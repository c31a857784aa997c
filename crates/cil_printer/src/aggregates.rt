ghost use Rattle.std.specs.Prelude.{◌≡◌, ◌<◌, ℕ, [], ◌∷◌, ◌++◌, Some, None, map, length, true, codes, slice_get};
ghost use Rattle.type_graph.specs.declared.aggregates.Member.{Member};
ghost use Rattle.cil_tree.specs.Declarators.{tagged};
ghost use Rattle.cil_tree.specs.Text.{member_name, enumerator_line, member_line, enum_lines, tag_lines, struct_lines};
ghost use Rattle.cil_tree.specs.Text.{concat_each};
ghost use Rattle.cil_tree.specs.Programs.{IsProgram};
ghost use Rattle.cil_printer.specs.Plain.{IsPlainProgram, IsPlainAggregate, is_plain, are_plain, prints};
ghost use Rattle.cil_printer.specs.Parts.{aggregate_lines};
ghost use Rattle.cil_printer.specs.Seen.{tree_of};

use crate::images::is_enum;
use crate::numbers::push_number;
use crate::program::Program;
use crate::sink::Sink;
use cil_base::{AggId, IntKind};
use type_graph::{Aggregate, Member};

/// The parts of a text that go through the aggregates, in their order.
#[derive(Clone, Copy)]
pub(crate) enum AggregatePart {
    /// Enums with their enumerators (C11 6.7.2.2).
    Enums,
    /// The tags of structs and unions (C11 6.7.2.3).
    Tags,
    /// Structs and unions with their members (C11 6.7.2.1).
    Structs,
}

/// Appends the line that ends the members of an aggregate.
#[tactic(auto, using(crate::proofs::AggregateLines::ending_printed))]
fn push_ending(out: &mut Sink)
    ensures { out.new ≡ prints out.old 1 ((codes "}" ∷ codes ";" ∷ []) ∷ []) }
{
    out.token(b"}");
    out.end(b";");
}

impl<'a> Program<'a> {
    /// Appends the line of a struct's or union's tag (C11 6.7.2.3).
    fn push_tag_line(&self, out: &mut Sink, x: &Aggregate)
        requires { are_plain (tagged (tree_of self.now) x.now) ≡ true }
        ensures { out.new ≡ prints out.old 0 (tag_lines (tree_of self.now) x.now) }
    {
        if is_enum(x.kind) {
            return;
        }
        self.push_tagged(out, x);
        out.end(b";");
    }

    /// Appends the line that begins the members of an aggregate.
    #[tactic(auto, using(crate::proofs::AggregateLines::opening_of))]
    fn push_opening(&self, out: &mut Sink, x: &Aggregate)
        requires { are_plain (tagged (tree_of self.now) x.now) ≡ true }
        ensures { out.new ≡ prints out.old 0 ((tagged (tree_of self.now) x.now ++ codes "{" ∷ []) ∷ []) }
    {
        self.push_tagged(out, x);
        out.end(b"{");
    }

    /// Appends the line of an enumerator (C11 6.7.2.2).
    fn push_enumerator(&self, out: &mut Sink, m: Member)
        requires { is_plain (member_name (tree_of self.now) m) ≡ true }
        ensures { out.new ≡ prints out.old 1 (enumerator_line (tree_of self.now) m ∷ []) }
    {
        out.indent(1);
        out.token(self.name(m.name));
        out.token(b"=");
        push_number(out, IntKind::Int, m.value as i128);
        out.end(b",");
    }

    /// Appends the line of a member (C11 6.7.2.1).
    fn push_member(&self, out: &mut Sink, m: Member)
        requires plain { IsPlainProgram (tree_of self.now) }
        requires there { m.ty.of.0 < length (tree_of self.now).graph.nodes }
        requires named { is_plain (member_name (tree_of self.now) m) ≡ true }
        ensures { out.new ≡ prints out.old 1 (member_line (tree_of self.now) m ∷ []) }
    {
        out.indent(1);
        self.push_declared(out, m.ty.of, m.name);
        out.end(b";");
    }

    /// Appends the lines of enumerators.
    fn push_enumerators(&self, out: &mut Sink, ms: &[Member])
        requires { (n : ℕ) (m : Member) → slice_get ms.now n ≡ Some m → is_plain (member_name (tree_of self.now) m) ≡ true }
        ensures { out.new ≡ prints out.old 1 (map (enumerator_line (tree_of self.now)) ms.now) }
    {
        for i in 0..ms.len() {
            self.push_enumerator(out, ms[i]);
        }
    }

    /// Appends the lines of members.
    fn push_members(&self, out: &mut Sink, ms: &[Member])
        requires plain { IsPlainProgram (tree_of self.now) }
        requires there { (n : ℕ) (m : Member) → slice_get ms.now n ≡ Some m → m.ty.of.0 < length (tree_of self.now).graph.nodes }
        requires named { (n : ℕ) (m : Member) → slice_get ms.now n ≡ Some m → is_plain (member_name (tree_of self.now) m) ≡ true }
        ensures { out.new ≡ prints out.old 1 (map (member_line (tree_of self.now)) ms.now) }
    {
        for i in 0..ms.len() {
            self.push_member(out, ms[i]);
        }
    }

    /// Appends an enum with its enumerators.
    #[tactic(auto, using(crate::proofs::AggregateLines::enumerators_whole))]
    fn push_enum_whole(&self, out: &mut Sink, x: &Aggregate, ms: &[Member])
        requires tag { are_plain (tagged (tree_of self.now) x.now) ≡ true }
        requires named { (n : ℕ) (m : Member) → slice_get ms.now n ≡ Some m → is_plain (member_name (tree_of self.now) m) ≡ true }
        ensures { out.new ≡ prints out.old 0 ((tagged (tree_of self.now) x.now ++ codes "{" ∷ []) ∷ (map (enumerator_line (tree_of self.now)) ms.now ++ (codes "}" ∷ codes ";" ∷ []) ∷ [])) }
    {
        self.push_opening(out, x);
        self.push_enumerators(out, ms);
        push_ending(out);
    }

    /// Appends a struct or union with its members.
    #[tactic(auto, using(crate::proofs::AggregateLines::members_whole))]
    fn push_struct_whole(&self, out: &mut Sink, x: &Aggregate, ms: &[Member])
        requires plain { IsPlainProgram (tree_of self.now) }
        requires tag { are_plain (tagged (tree_of self.now) x.now) ≡ true }
        requires there { (n : ℕ) (m : Member) → slice_get ms.now n ≡ Some m → m.ty.of.0 < length (tree_of self.now).graph.nodes }
        requires named { (n : ℕ) (m : Member) → slice_get ms.now n ≡ Some m → is_plain (member_name (tree_of self.now) m) ≡ true }
        ensures { out.new ≡ prints out.old 0 ((tagged (tree_of self.now) x.now ++ codes "{" ∷ []) ∷ (map (member_line (tree_of self.now)) ms.now ++ (codes "}" ∷ codes ";" ∷ []) ∷ [])) }
    {
        self.push_opening(out, x);
        self.push_members(out, ms);
        push_ending(out);
    }

    /// Appends an aggregate with its enumerators, if it is an enum.
    #[tactic(auto, using(crate::proofs::AggregateLines::no_enum, crate::proofs::AggregateLines::enum_alone, crate::proofs::AggregateLines::enum_whole))]
    fn push_enum(&self, out: &mut Sink, x: &Aggregate)
        requires { IsPlainAggregate (tree_of self.now) x.now }
        ensures { out.new ≡ prints out.old 0 (enum_lines (tree_of self.now) x.now) }
    {
        if !is_enum(x.kind) {
            return;
        }
        match &x.members {
            None => {}
            Some(list) => self.push_enum_whole(out, x, list.as_slice()),
        }
    }

    /// Appends an aggregate with its members, if it is a complete struct or union.
    #[tactic(auto, using(crate::proofs::AggregateLines::no_struct, crate::proofs::AggregateLines::struct_alone, crate::proofs::AggregateLines::struct_whole))]
    fn push_struct(&self, out: &mut Sink, x: &Aggregate)
        requires plain { IsPlainProgram (tree_of self.now) }
        requires aggregate { IsPlainAggregate (tree_of self.now) x.now }
        ensures { out.new ≡ prints out.old 0 (struct_lines (tree_of self.now) x.now) }
    {
        if is_enum(x.kind) {
            return;
        }
        match &x.members {
            None => {}
            Some(list) => self.push_struct_whole(out, x, list.as_slice()),
        }
    }

    /// Appends the lines that an aggregate has in a part of the text.
    fn push_aggregate_lines(&self, out: &mut Sink, part: AggregatePart, x: &Aggregate)
        requires plain { IsPlainProgram (tree_of self.now) }
        requires aggregate { IsPlainAggregate (tree_of self.now) x.now }
        ensures { out.new ≡ prints out.old 0 (aggregate_lines part (tree_of self.now) x.now) }
    {
        match part {
            AggregatePart::Enums => self.push_enum(out, x),
            AggregatePart::Tags => self.push_tag_line(out, x),
            AggregatePart::Structs => self.push_struct(out, x),
        }
    }

    /// Appends a part of the text that goes through the aggregates.
    #[tactic(auto, using(crate::proofs::WellFormed::plain_program))]
    pub(crate) fn push_aggregates(&self, out: &mut Sink, part: AggregatePart)
        requires { IsProgram (tree_of self.now) }
        ensures { out.new ≡ prints out.old 0 (concat_each (aggregate_lines part (tree_of self.now)) (tree_of self.now).graph.aggs) }
    {
        for a in 0..self.graph().agg_count() {
            self.push_aggregate_lines(out, part, self.graph().agg(AggId(a)));
        }
    }
}
