ghost use Rattle.std.specs.Prelude.{◌≡◌, [], ◌∷◌, ◌++◌, Option, Some, None, is_some, true, codes};
ghost use Rattle.std.specs.Option.{option_map, option_and_then};
ghost use Rattle.cil_base.specs.Operators.{operator_spelling};
ghost use Rattle.cil_tree.specs.Tree.{Const, Value, Un, Bin, Cast, AddrOf, StartOf, Here, Field, Index};
ghost use Rattle.cil_tree.specs.View.{type_at, exp_of, host_of, offsets_of, lval_of};
ghost use Rattle.cil_tree.specs.Typing.{pointed, type_of, host_type, part_type, place_type};
ghost use Rattle.cil_tree.specs.Declarators.{in_parentheses, type_tokens};
ghost use Rattle.cil_tree.specs.Text.{unary_spelling, exp_tokens, host_tokens, offset_tokens, place_tokens};
ghost use Rattle.cil_printer.specs.Output.{puts};
ghost use Rattle.type_graph.specs.declared.aggregates.Member.{Member};
ghost use Rattle.cil_printer.specs.Seen.{seen, tree_of, scope_in, nodes_in, name_of_member};

use crate::function::Function;
use crate::numbers::push_digits;
use crate::program::Program;
use crate::sink::Sink;
use cil_base::{BinOp, TypeId, UnOp};
use cil_tree::{Exp, Host, Lval, Offset};
use type_graph::Member;

/// The spelling of a unary operator (C11 6.5.3.3).
fn unary_text(op: UnOp) -> &'static [u8]
    ensures { result.now ≡ unary_spelling op }
{
    match op {
        UnOp::Neg => b"-",
        UnOp::Compl => b"~",
        UnOp::Not => b"!",
    }
}

/// The spelling of a binary operator (C11 6.4.6).
fn binary_text(op: BinOp) -> &'static [u8]
    ensures { result.now ≡ operator_spelling op }
{
    match op {
        BinOp::Mul => b"*",
        BinOp::Div => b"/",
        BinOp::Rem => b"%",
        BinOp::Add => b"+",
        BinOp::Sub => b"-",
        BinOp::Shl => b"<<",
        BinOp::Shr => b">>",
        BinOp::Lt => b"<",
        BinOp::Gt => b">",
        BinOp::Le => b"<=",
        BinOp::Ge => b">=",
        BinOp::Eq => b"==",
        BinOp::Ne => b"!=",
        BinOp::And => b"&",
        BinOp::Xor => b"^",
        BinOp::Or => b"|",
    }
}

/// The type of a member, where there is one.
pub(crate) fn type_of_member(m: Option<Member>) -> Option<TypeId>
    ensures { result ≡ option_map (λ (x : Member). x.ty.of) m }
{
    match m {
        None => None,
        Some(x) => Some(x.ty.of),
    }
}

impl<'a> Program<'a> {
    /// The name of a member, where there is one.
    pub(crate) fn name_of(&self, m: Option<Member>) -> &[u8]
        ensures { result.now ≡ name_of_member (tree_of self.now) m }
    {
        match m {
            None => b"",
            Some(x) => self.name(x.name),
        }
    }

    /// Appends a type without a name, where it is one of the program's.
    fn push_name_of(&self, out: &mut Sink, t: TypeId)
        ensures { out.new ≡ puts out.old (type_tokens (tree_of self.now) (type_at (tree_of self.now).graph.nodes t) []) }
    {
        match self.within(t) {
            None => {}
            Some(u) => self.push_type(out, u),
        }
    }

    /// Appends a type name in parentheses (C11 6.5.4, 6.7.7).
    #[tactic(auto, using(crate::proofs::Puts::enclosed))]
    pub(crate) fn push_type_name(&self, out: &mut Sink, t: TypeId)
        ensures { out.new ≡ puts out.old (in_parentheses (type_tokens (tree_of self.now) (type_at (tree_of self.now).graph.nodes t) [])) }
    {
        out.token(b"(");
        self.push_name_of(out, t);
        out.token(b")");
    }
}

impl<'a> Function<'a> {
    /// Appends an expression. The answer is what the expression's value points to, if it is a pointer.
    #[cycle(expression)]
    #[tactic(auto, using(cil_tree::proofs::Views::at_value, cil_tree::proofs::Views::at_address, cil_tree::proofs::Views::at_start, crate::proofs::Values::constant_points))]
    pub(crate) fn push_expression(&self, out: &mut Sink, e: &Exp) -> Option<TypeId>
        requires { is_some (type_of (scope_in self.now) (exp_of (nodes_in self.now) e.now)) ≡ true }
        ensures text { out.new ≡ puts out.old (exp_tokens (scope_in self.now) (exp_of (nodes_in self.now) e.now)) }
        ensures points { seen (nodes_in self.now) result ≡ option_and_then pointed (type_of (scope_in self.now) (exp_of (nodes_in self.now) e.now)) }
    {
        match e {
            Exp::Const(kind, n) => {
                push_digits(out, *kind, *n);
                None
            }
            Exp::Lval(place) => self.push_value(out, place),
            Exp::Un(op, operand) => self.push_unary(out, *op, operand),
            Exp::Bin(op, left, right) => {
                let l = self.push_left(out, left);
                let r = self.push_right(out, *op, right);
                self.moved(*op, l, r)
            }
            Exp::Cast(to, operand) => self.push_cast(out, *to, operand),
            Exp::AddrOf(place) => self.push_address(out, place),
            Exp::StartOf(place) => self.push_start(out, place),
        }
    }

    /// Appends the value of a place (C11 6.3.2.1p2).
    #[cycle(expression)]
    #[tactic(auto, using(crate::proofs::Values::some_of, crate::proofs::Values::value_points))]
    fn push_value(&self, out: &mut Sink, place: &Lval) -> Option<TypeId>
        requires { is_some (type_of (scope_in self.now) (Value (lval_of (nodes_in self.now) place.now))) ≡ true }
        ensures text { out.new ≡ puts out.old (place_tokens (scope_in self.now) (lval_of (nodes_in self.now) place.now)) }
        ensures points { seen (nodes_in self.now) result ≡ option_and_then pointed (type_of (scope_in self.now) (Value (lval_of (nodes_in self.now) place.now))) }
    {
        let t = self.push_place(out, place);
        self.program.pointee(t)
    }

    /// Appends the address of an array's first element (C11 6.3.2.1p3), which is written as the array.
    #[cycle(expression)]
    #[tactic(auto, using(crate::proofs::Values::some_of, crate::proofs::Values::start_points))]
    fn push_start(&self, out: &mut Sink, place: &Lval) -> Option<TypeId>
        requires { is_some (type_of (scope_in self.now) (StartOf (lval_of (nodes_in self.now) place.now))) ≡ true }
        ensures text { out.new ≡ puts out.old (place_tokens (scope_in self.now) (lval_of (nodes_in self.now) place.now)) }
        ensures points { seen (nodes_in self.now) result ≡ option_and_then pointed (type_of (scope_in self.now) (StartOf (lval_of (nodes_in self.now) place.now))) }
    {
        let t = self.push_place(out, place);
        self.program.element(t)
    }

    /// Appends an address (C11 6.5.3.2). The answer is the type of what stands there.
    #[cycle(expression)]
    #[tactic(auto, using(crate::proofs::Values::prefixed))]
    pub(crate) fn push_address(&self, out: &mut Sink, place: &Lval) -> Option<TypeId>
        requires { is_some (place_type (scope_in self.now) (lval_of (nodes_in self.now) place.now)) ≡ true }
        ensures text { out.new ≡ puts out.old (in_parentheses (codes "&" ∷ place_tokens (scope_in self.now) (lval_of (nodes_in self.now) place.now))) }
        ensures points { seen (nodes_in self.now) result ≡ place_type (scope_in self.now) (lval_of (nodes_in self.now) place.now) }
    {
        out.token(b"(");
        out.token(b"&");
        let t = self.push_place(out, place);
        out.token(b")");
        t
    }

    /// Appends a unary operator and its operand (C11 6.5.3.3).
    #[cycle(expression)]
    #[tactic(auto, using(crate::proofs::Values::some_of, crate::proofs::Values::operand_points, crate::proofs::Values::prefixed))]
    fn push_unary(&self, out: &mut Sink, op: UnOp, operand: &Exp) -> Option<TypeId>
        requires { is_some (type_of (scope_in self.now) (Un op (exp_of (nodes_in self.now) operand.now))) ≡ true }
        ensures text { out.new ≡ puts out.old (exp_tokens (scope_in self.now) (Un op (exp_of (nodes_in self.now) operand.now))) }
        ensures points { seen (nodes_in self.now) result ≡ option_and_then pointed (type_of (scope_in self.now) (Un op (exp_of (nodes_in self.now) operand.now))) }
    {
        out.token(b"(");
        out.token(unary_text(op));
        self.push_expression(out, operand);
        out.token(b")");
        None
    }

    /// Appends a binary operator's parenthesis and left operand (C11 6.5.5 to 6.5.12). The answer is what the operand
    /// points to.
    #[cycle(expression)]
    #[tactic(auto, using(crate::proofs::Puts::cons_pushed))]
    fn push_left(&self, out: &mut Sink, left: &Exp) -> Option<TypeId>
        requires { is_some (type_of (scope_in self.now) (exp_of (nodes_in self.now) left.now)) ≡ true }
        ensures text { out.new ≡ puts out.old (codes "(" ∷ exp_tokens (scope_in self.now) (exp_of (nodes_in self.now) left.now)) }
        ensures points { seen (nodes_in self.now) result ≡ option_and_then pointed (type_of (scope_in self.now) (exp_of (nodes_in self.now) left.now)) }
    {
        out.token(b"(");
        self.push_expression(out, left)
    }

    /// Appends a binary operator, its right operand and the closing parenthesis. The answer is what the operand points to.
    #[cycle(expression)]
    #[tactic(auto, using(crate::proofs::Values::right_pushed))]
    fn push_right(&self, out: &mut Sink, op: BinOp, right: &Exp) -> Option<TypeId>
        requires { is_some (type_of (scope_in self.now) (exp_of (nodes_in self.now) right.now)) ≡ true }
        ensures text { out.new ≡ puts out.old (operator_spelling op ∷ (exp_tokens (scope_in self.now) (exp_of (nodes_in self.now) right.now) ++ codes ")" ∷ [])) }
        ensures points { seen (nodes_in self.now) result ≡ option_and_then pointed (type_of (scope_in self.now) (exp_of (nodes_in self.now) right.now)) }
    {
        out.token(binary_text(op));
        let t = self.push_expression(out, right);
        out.token(b")");
        t
    }

    /// Appends a conversion (C11 6.5.4).
    #[cycle(expression)]
    #[tactic(auto, using(crate::proofs::Values::cast_typed, crate::proofs::Values::cast_points, crate::proofs::Values::cast_pushed))]
    fn push_cast(&self, out: &mut Sink, to: TypeId, operand: &Exp) -> Option<TypeId>
        requires { is_some (type_of (scope_in self.now) (Cast (type_at (nodes_in self.now) to) (exp_of (nodes_in self.now) operand.now))) ≡ true }
        ensures text { out.new ≡ puts out.old (exp_tokens (scope_in self.now) (Cast (type_at (nodes_in self.now) to) (exp_of (nodes_in self.now) operand.now))) }
        ensures points { seen (nodes_in self.now) result ≡ option_and_then pointed (type_of (scope_in self.now) (Cast (type_at (nodes_in self.now) to) (exp_of (nodes_in self.now) operand.now))) }
    {
        out.token(b"(");
        self.program.push_type_name(out, to);
        self.push_expression(out, operand);
        out.token(b")");
        self.program.pointee(Some(to))
    }

    /// Appends what a pointer points to (C11 6.5.3.2p4). The answer is its type.
    #[cycle(expression)]
    #[tactic(auto, using(crate::proofs::Values::some_of, crate::proofs::Values::prefixed))]
    pub(crate) fn push_pointed(&self, out: &mut Sink, pointer: &Exp) -> Option<TypeId>
        requires { is_some (option_and_then pointed (type_of (scope_in self.now) (exp_of (nodes_in self.now) pointer.now))) ≡ true }
        ensures text { out.new ≡ puts out.old (in_parentheses (codes "*" ∷ exp_tokens (scope_in self.now) (exp_of (nodes_in self.now) pointer.now))) }
        ensures points { seen (nodes_in self.now) result ≡ option_and_then pointed (type_of (scope_in self.now) (exp_of (nodes_in self.now) pointer.now)) }
    {
        out.token(b"(");
        out.token(b"*");
        let t = self.push_expression(out, pointer);
        out.token(b")");
        t
    }

    /// Appends what an lvalue begins with. The answer is its type.
    #[cycle(expression)]
    fn push_host(&self, out: &mut Sink, host: &Host) -> Option<TypeId>
        requires { is_some (host_type (scope_in self.now) (host_of (nodes_in self.now) host.now)) ≡ true }
        ensures text { out.new ≡ puts out.old (host_tokens (scope_in self.now) (host_of (nodes_in self.now) host.now)) }
        ensures leads { seen (nodes_in self.now) result ≡ host_type (scope_in self.now) (host_of (nodes_in self.now) host.now) }
    {
        match host {
            Host::Global(e) => {
                out.token(self.program.global_name(*e));
                self.program.global_type(*e)
            }
            Host::Var(l) => {
                out.token(self.local_name(*l));
                self.local_type(*l)
            }
            Host::At(pointer) => self.push_pointed(out, pointer),
        }
    }

    /// Appends an lvalue (C11 6.3.2.1p1). The answer is its type.
    #[cycle(expression)]
    #[tactic(auto, using(crate::proofs::Values::some_of, crate::proofs::Puts::two_pushed))]
    pub(crate) fn push_place(&self, out: &mut Sink, place: &Lval) -> Option<TypeId>
        requires { is_some (place_type (scope_in self.now) (lval_of (nodes_in self.now) place.now)) ≡ true }
        ensures text { out.new ≡ puts out.old (place_tokens (scope_in self.now) (lval_of (nodes_in self.now) place.now)) }
        ensures leads { seen (nodes_in self.now) result ≡ place_type (scope_in self.now) (lval_of (nodes_in self.now) place.now) }
    {
        let t = self.push_host(out, &place.host);
        self.push_offsets(out, &place.offsets, t)
    }

    /// Appends the steps from a place of a type to a part of it. The answer is the part's type.
    #[cycle(expression)]
    fn push_offsets(&self, out: &mut Sink, offsets: &[Offset], of: Option<TypeId>) -> Option<TypeId>
        requires { is_some (option_and_then (part_type (scope_in self.now) (offsets_of (nodes_in self.now) offsets.now)) (seen (nodes_in self.now) of)) ≡ true }
        ensures text { out.new ≡ puts out.old (offset_tokens (scope_in self.now) (offsets_of (nodes_in self.now) offsets.now) (seen (nodes_in self.now) of)) }
        ensures leads { seen (nodes_in self.now) result ≡ option_and_then (part_type (scope_in self.now) (offsets_of (nodes_in self.now) offsets.now)) (seen (nodes_in self.now) of) }
    {
        let mut t = of;
        for i in 0..offsets.len() {
            t = self.push_offset(out, &offsets[i], t);
        }
        t
    }

    /// Appends a step into a part. The answer is the part's type.
    #[cycle(expression)]
    fn push_offset(&self, out: &mut Sink, offset: &Offset, of: Option<TypeId>) -> Option<TypeId>
        requires { is_some (option_and_then (part_type (scope_in self.now) (offsets_of (nodes_in self.now) (offset.now ∷ []))) (seen (nodes_in self.now) of)) ≡ true }
        ensures text { out.new ≡ puts out.old (offset_tokens (scope_in self.now) (offsets_of (nodes_in self.now) (offset.now ∷ [])) (seen (nodes_in self.now) of)) }
        ensures leads { seen (nodes_in self.now) result ≡ option_and_then (part_type (scope_in self.now) (offsets_of (nodes_in self.now) (offset.now ∷ []))) (seen (nodes_in self.now) of) }
    {
        match offset {
            Offset::Field(n) => self.push_field(out, *n, of),
            Offset::Index(index) => self.push_index(out, index, of),
        }
    }

    /// Appends a step to an element (C11 6.5.2.1). The answer is the element's type.
    #[cycle(expression)]
    #[tactic(auto, using(crate::proofs::Values::index_typed, crate::proofs::Values::index_type, crate::proofs::Values::index_pushed))]
    fn push_index(&self, out: &mut Sink, index: &Exp, of: Option<TypeId>) -> Option<TypeId>
        requires { is_some (option_and_then (part_type (scope_in self.now) (Index (exp_of (nodes_in self.now) index.now) Here)) (seen (nodes_in self.now) of)) ≡ true }
        ensures text { out.new ≡ puts out.old (offset_tokens (scope_in self.now) (Index (exp_of (nodes_in self.now) index.now) Here) (seen (nodes_in self.now) of)) }
        ensures leads { seen (nodes_in self.now) result ≡ option_and_then (part_type (scope_in self.now) (Index (exp_of (nodes_in self.now) index.now) Here)) (seen (nodes_in self.now) of) }
    {
        out.token(b"[");
        self.push_expression(out, index);
        out.token(b"]");
        self.program.element(of)
    }

    /// Appends a step to a member (C11 6.5.2.3). The answer is the member's type.
    #[tactic(auto, using(crate::proofs::Values::field_pushed, crate::proofs::Values::field_type))]
    fn push_field(&self, out: &mut Sink, n: u32, of: Option<TypeId>) -> Option<TypeId>
        requires { is_some (option_and_then (part_type (scope_in self.now) (Field n Here)) (seen (nodes_in self.now) of)) ≡ true }
        ensures text { out.new ≡ puts out.old (offset_tokens (scope_in self.now) (Field n Here) (seen (nodes_in self.now) of)) }
        ensures leads { seen (nodes_in self.now) result ≡ option_and_then (part_type (scope_in self.now) (Field n Here)) (seen (nodes_in self.now) of) }
    {
        out.token(b".");
        let member = self.program.member(of, n);
        out.token(self.program.name_of(member));
        type_of_member(member)
    }
}
