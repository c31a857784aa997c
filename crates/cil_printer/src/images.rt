ghost use Rattle.std.specs.Prelude.{◌≡◌, ◌<◌, [], ◌∷◌, Option, Some, None, map, length, codes, decimal};
ghost use Rattle.type_graph.specs.Shapes.{shape};
ghost use Rattle.cil_tree.specs.Tree.{ToField, ToIndex};
ghost use Rattle.cil_tree.specs.View.{step_of, item_of};
ghost use Rattle.cil_tree.specs.Typing.{is_enum, is_scalar};
ghost use Rattle.cil_tree.specs.Declarators.{in_parentheses};
ghost use Rattle.cil_tree.specs.Text.{in_brackets, global_name, path_tokens, path_type, address_tokens, cast_tokens, value_tokens, constant_tokens, item_tokens, items_tokens, is_scalar_type, scalar_tokens, in_braces, image_tokens};
ghost use Rattle.cil_printer.specs.Output.{puts};
ghost use Rattle.cil_printer.specs.Sides.{following};
ghost use Rattle.cil_printer.specs.Seen.{seen, tree_of, is_pointer_shape, item_parts};

use crate::expressions::type_of_member;
use crate::numbers::push_number;
use crate::program::Program;
use crate::sink::Sink;
use crate::types::push_decimal;
use cil_base::{Constant, EntityId, TypeId};
use cil_tree::{ImageItem, Step};
use type_graph::{AggKind, Node};

impl<'a> Program<'a> {
    /// Appends the address of a global (C11 6.5.3.2).
    #[tactic(auto, using(crate::proofs::Puts::pair_pushed))]
    fn push_reference(&self, out: &mut Sink, e: EntityId)
        ensures { out.new ≡ puts out.old (codes "&" ∷ global_name (tree_of self.now) e.0 ∷ []) }
    {
        out.token(b"&");
        out.token(self.global_name(e));
    }

    /// Appends the address of a byte of an object (C11 6.6p9).
    fn push_byte_address(&self, out: &mut Sink, e: EntityId, offset: i64)
        ensures { out.new ≡ puts out.old (address_tokens (tree_of self.now) e.0 offset) }
    {
        out.token(b"(");
        push_char_pointer(out);
        self.push_reference(out, e);
        out.token(b"+");
        push_number(out, self.graph().abi().long(), offset as i128);
        out.token(b")");
    }

    /// Appends the value of a constant (C11 6.6).
    fn push_value_of(&self, out: &mut Sink, value: Constant)
        ensures { out.new ≡ puts out.old (value_tokens (tree_of self.now) value) }
    {
        match value {
            Constant::Int(kind, v) => push_number(out, kind, v),
            Constant::Address(e, offset) => self.push_byte_address(out, e, offset),
            Constant::Function(e) => self.push_reference(out, e),
        }
    }

    /// Whether a type is a pointer.
    fn is_pointer(&self, t: TypeId) -> bool
        requires { t.0 < length (tree_of self.now).graph.nodes }
        ensures { result ≡ is_pointer_shape (shape (tree_of self.now).graph.nodes t.0) }
    {
        match self.graph().node(t) {
            Node::Ptr(_) => true,
            Node::Void | Node::Int(_) | Node::Array(..) | Node::Func { .. } | Node::Agg(_) => false,
        }
    }

    /// Appends the conversion to a type of the program, if it is a pointer.
    #[tactic(auto, using(crate::proofs::ImageTokens::pointer_cast, crate::proofs::ImageTokens::no_cast, crate::proofs::Puts::enclosed))]
    fn push_conversion_to(&self, out: &mut Sink, t: TypeId)
        requires { t.0 < length (tree_of self.now).graph.nodes }
        ensures { out.new ≡ puts out.old (cast_tokens (tree_of self.now) (Some (shape (tree_of self.now).graph.nodes t.0))) }
    {
        if !self.is_pointer(t) {
            return;
        }
        out.token(b"(");
        self.push_type(out, t);
        out.token(b")");
    }

    /// Appends the conversion of a constant to a pointer's type.
    fn push_conversion(&self, out: &mut Sink, t: Option<TypeId>)
        ensures { out.new ≡ puts out.old (cast_tokens (tree_of self.now) (seen (tree_of self.now).graph.nodes t)) }
    {
        match self.there(t) {
            None => {}
            Some(u) => self.push_conversion_to(out, u),
        }
    }

    /// Appends the initial value of a scalar of a type.
    #[tactic(auto, using(crate::proofs::Puts::two_pushed))]
    fn push_scalar(&self, out: &mut Sink, t: Option<TypeId>, value: Constant)
        ensures { out.new ≡ puts out.old (constant_tokens (tree_of self.now) (seen (tree_of self.now).graph.nodes t) value) }
    {
        self.push_conversion(out, t);
        self.push_value_of(out, value);
    }

    /// Appends a step into a part of a place of a type. The answer is the part's type.
    fn push_step(&self, out: &mut Sink, step: Step, of: Option<TypeId>) -> Option<TypeId>
        ensures text { out.new ≡ puts out.old (path_tokens (tree_of self.now) (step_of step ∷ []) (seen (tree_of self.now).graph.nodes of)) }
        ensures leads { seen (tree_of self.now).graph.nodes result ≡ path_type (tree_of self.now) (step_of step ∷ []) (seen (tree_of self.now).graph.nodes of) }
    {
        match step {
            Step::Field(n) => self.push_member_step(out, n, of),
            Step::Index(n) => self.push_element_step(out, n, of),
        }
    }

    /// Appends a step to a member. The answer is the member's type.
    fn push_member_step(&self, out: &mut Sink, n: u32, of: Option<TypeId>) -> Option<TypeId>
        ensures text { out.new ≡ puts out.old (path_tokens (tree_of self.now) (ToField n ∷ []) (seen (tree_of self.now).graph.nodes of)) }
        ensures leads { seen (tree_of self.now).graph.nodes result ≡ path_type (tree_of self.now) (ToField n ∷ []) (seen (tree_of self.now).graph.nodes of) }
    {
        out.token(b".");
        let member = self.member(of, n);
        out.token(self.name_of(member));
        type_of_member(member)
    }

    /// Appends a step to an element. The answer is the element's type.
    fn push_element_step(&self, out: &mut Sink, n: u64, of: Option<TypeId>) -> Option<TypeId>
        ensures text { out.new ≡ puts out.old (path_tokens (tree_of self.now) (ToIndex n ∷ []) (seen (tree_of self.now).graph.nodes of)) }
        ensures leads { seen (tree_of self.now).graph.nodes result ≡ path_type (tree_of self.now) (ToIndex n ∷ []) (seen (tree_of self.now).graph.nodes of) }
    {
        push_subscript(out, n);
        self.element(of)
    }

    /// Appends a path from a place of a type. The answer is the type of what it leads to.
    fn push_path(&self, out: &mut Sink, path: &[Step], of: Option<TypeId>) -> Option<TypeId>
        ensures text { out.new ≡ puts out.old (path_tokens (tree_of self.now) (map step_of path.now) (seen (tree_of self.now).graph.nodes of)) }
        ensures leads { seen (tree_of self.now).graph.nodes result ≡ path_type (tree_of self.now) (map step_of path.now) (seen (tree_of self.now).graph.nodes of) }
    {
        let mut t = of;
        for i in 0..path.len() {
            t = self.push_step(out, path[i], t);
        }
        t
    }

    /// Appends one scalar of an image, behind its path and a sign.
    #[tactic(auto, using(crate::proofs::ImageTokens::item_pushed))]
    fn push_item(&self, out: &mut Sink, of: Option<TypeId>, item: &ImageItem)
        ensures { out.new ≡ puts out.old (item_tokens (tree_of self.now) (seen (tree_of self.now).graph.nodes of) (item_of item.now)) }
    {
        let t = self.push_path(out, &item.path, of);
        out.token(b"=");
        self.push_scalar(out, t, item.value);
    }

    /// Appends items, each behind a comma.
    fn push_following_items(&self, out: &mut Sink, of: Option<TypeId>, items: &[ImageItem])
        ensures { out.new ≡ puts out.old (following (item_parts (tree_of self.now) (seen (tree_of self.now).graph.nodes of) items.now)) }
    {
        for i in 0..items.len() {
            out.token(b",");
            self.push_item(out, of, &items[i]);
        }
    }

    /// Appends the first item and those that follow it.
    #[tactic(auto, using(crate::proofs::ItemLists::items_pushed))]
    fn push_some_items(
        &self,
        out: &mut Sink,
        of: Option<TypeId>,
        first: &ImageItem,
        rest: &[ImageItem],
    )
        ensures { out.new ≡ puts out.old (items_tokens (tree_of self.now) (seen (tree_of self.now).graph.nodes of) (map item_of (first.now ∷ rest.now))) }
    {
        self.push_item(out, of, first);
        self.push_following_items(out, of, rest);
    }

    /// Appends the items of an image.
    fn push_items(&self, out: &mut Sink, of: Option<TypeId>, items: &[ImageItem])
        ensures { out.new ≡ puts out.old (items_tokens (tree_of self.now) (seen (tree_of self.now).graph.nodes of) (map item_of items.now)) }
    {
        match items {
            [] => {}
            [first, rest @ ..] => self.push_some_items(out, of, first, rest),
        }
    }

    /// Whether a type of the program is scalar (C11 6.2.5p21).
    #[tactic(auto, using(crate::proofs::ItemLists::enum_at))]
    fn is_scalar_type(&self, t: TypeId) -> bool
        requires { t.0 < length (tree_of self.now).graph.nodes }
        ensures { result ≡ is_scalar (tree_of self.now).graph (shape (tree_of self.now).graph.nodes t.0) }
    {
        match self.graph().node(t) {
            Node::Int(_) | Node::Ptr(_) => true,
            Node::Agg(a) => is_enum(self.graph().agg(*a).kind),
            Node::Void | Node::Array(..) | Node::Func { .. } => false,
        }
    }

    /// Whether there is a type, and it is scalar.
    fn is_scalar(&self, t: Option<TypeId>) -> bool
        ensures { result ≡ is_scalar_type (tree_of self.now) (seen (tree_of self.now).graph.nodes t) }
    {
        match self.there(t) {
            None => false,
            Some(u) => self.is_scalar_type(u),
        }
    }

    /// Appends the one constant of a scalar object.
    fn push_scalar_image(&self, out: &mut Sink, of: Option<TypeId>, items: &[ImageItem])
        ensures { out.new ≡ puts out.old (scalar_tokens (tree_of self.now) (seen (tree_of self.now).graph.nodes of) (map item_of items.now)) }
    {
        match items {
            [] => {}
            [first, ..] => self.push_scalar(out, of, first.value),
        }
    }

    /// Appends the items of an image in braces (C11 6.7.9).
    #[tactic(auto, using(crate::proofs::Puts::enclosed))]
    fn push_braced_image(&self, out: &mut Sink, of: Option<TypeId>, items: &[ImageItem])
        ensures { out.new ≡ puts out.old (in_braces (items_tokens (tree_of self.now) (seen (tree_of self.now).graph.nodes of) (map item_of items.now))) }
    {
        out.token(b"{");
        self.push_items(out, of, items);
        out.token(b"}");
    }

    /// Appends the initial value of an object of a type.
    #[tactic(auto, using(crate::proofs::ItemLists::scalar_image, crate::proofs::ItemLists::braced_image))]
    pub(crate) fn push_image(&self, out: &mut Sink, of: Option<TypeId>, items: &[ImageItem])
        ensures { out.new ≡ puts out.old (image_tokens (tree_of self.now) (seen (tree_of self.now).graph.nodes of) (map item_of items.now)) }
    {
        if self.is_scalar(of) {
            self.push_scalar_image(out, of, items)
        } else {
            self.push_braced_image(out, of, items)
        }
    }
}

/// Whether the aggregate is an enum.
pub(crate) fn is_enum(kind: AggKind) -> bool
    ensures { result ≡ is_enum kind }
{
    match kind {
        AggKind::Enum => true,
        AggKind::Struct | AggKind::Union => false,
    }
}

/// Appends an element's number in brackets.
#[tactic(auto, using(crate::proofs::Puts::enclosed))]
fn push_subscript(out: &mut Sink, n: u64)
    ensures { out.new ≡ puts out.old (in_brackets (decimal n ∷ [])) }
{
    out.token(b"[");
    push_decimal(out, n);
    out.token(b"]");
}

/// Appends the words of the pointer to a byte of an object.
#[tactic(auto, using(crate::proofs::ImageTokens::char_pointer))]
fn push_char_pointer(out: &mut Sink)
    ensures { out.new ≡ puts out.old (in_parentheses (codes "char" ∷ codes "*" ∷ [])) }
{
    out.token(b"(");
    out.token(b"char");
    out.token(b"*");
    out.token(b")");
}
