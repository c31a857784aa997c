ghost use Rattle.std.specs.Prelude.{◌≡◌, [], ◌∷◌, ◌++◌, Option, Some, None, is_some, map, true, codes};
ghost use Rattle.std.specs.Option.{option_map};
ghost use Rattle.cil_tree.specs.Tree.{Set, Zero};
ghost use Rattle.cil_tree.specs.View.{exp_of, lval_of, callee_of, instr_of};
ghost use Rattle.cil_tree.specs.Typing.{type_of, place_type};
ghost use Rattle.cil_tree.specs.Declarators.{in_parentheses};
ghost use Rattle.cil_tree.specs.Text.{place_tokens, argument_tokens, callee_tokens, result_tokens, size_tokens, instr_tokens};
ghost use Rattle.cil_printer.specs.Output.{puts};
ghost use Rattle.cil_printer.specs.Seen.{seen, scope_in, nodes_in, exp_parts};
ghost use Rattle.cil_printer.specs.Typed.{are_typed, result_is_typed, callee_is_typed, instr_is_typed};
ghost use Rattle.cil_printer.specs.Sides.{following};

use crate::function::Function;
use crate::numbers::push_digits;
use crate::sink::Sink;
use cil_base::TypeId;
use cil_tree::{Callee, Exp, Instr, Lval};

impl<'a> Function<'a> {
    /// Appends a call's arguments, each behind a comma.
    fn push_following_arguments(&self, out: &mut Sink, arguments: &[Exp])
        requires { are_typed (scope_in self.now) (map (exp_of (nodes_in self.now)) arguments.now) ≡ true }
        ensures { out.new ≡ puts out.old (following (exp_parts (scope_in self.now) (nodes_in self.now) arguments.now)) }
    {
        for i in 0..arguments.len() {
            out.token(b",");
            self.push_expression(out, &arguments[i]);
        }
    }

    /// Appends a call's first argument and those that follow it.
    #[tactic(auto, using(crate::proofs::Calls::arguments_pushed))]
    fn push_some_arguments(&self, out: &mut Sink, first: &Exp, rest: &[Exp])
        requires first { is_some (type_of (scope_in self.now) (exp_of (nodes_in self.now) first.now)) ≡ true }
        requires rest { are_typed (scope_in self.now) (map (exp_of (nodes_in self.now)) rest.now) ≡ true }
        ensures { out.new ≡ puts out.old (argument_tokens (scope_in self.now) (map (exp_of (nodes_in self.now)) (first.now ∷ rest.now))) }
    {
        self.push_expression(out, first);
        self.push_following_arguments(out, rest);
    }

    /// Appends a call's arguments.
    #[tactic(auto, using(crate::proofs::Calls::no_arguments, crate::proofs::Calls::first_typed, crate::proofs::Calls::rest_typed))]
    fn push_arguments(&self, out: &mut Sink, arguments: &[Exp])
        requires { are_typed (scope_in self.now) (map (exp_of (nodes_in self.now)) arguments.now) ≡ true }
        ensures { out.new ≡ puts out.old (argument_tokens (scope_in self.now) (map (exp_of (nodes_in self.now)) arguments.now)) }
    {
        match arguments {
            [] => {}
            [first, rest @ ..] => self.push_some_arguments(out, first, rest),
        }
    }

    /// Appends a call's arguments in parentheses (C11 6.5.2.2).
    #[tactic(auto, using(crate::proofs::Puts::enclosed))]
    fn push_argument_list(&self, out: &mut Sink, arguments: &[Exp])
        requires { are_typed (scope_in self.now) (map (exp_of (nodes_in self.now)) arguments.now) ≡ true }
        ensures { out.new ≡ puts out.old (in_parentheses (argument_tokens (scope_in self.now) (map (exp_of (nodes_in self.now)) arguments.now))) }
    {
        out.token(b"(");
        self.push_arguments(out, arguments);
        out.token(b")");
    }

    /// Appends what a call calls.
    fn push_callee(&self, out: &mut Sink, callee: &Callee)
        requires { callee_is_typed (scope_in self.now) (callee_of (nodes_in self.now) callee.now) ≡ true }
        ensures { out.new ≡ puts out.old (callee_tokens (scope_in self.now) (callee_of (nodes_in self.now) callee.now)) }
    {
        match callee {
            Callee::Direct(e) => out.token(self.program.global_name(*e)),
            Callee::Through(pointer) => {
                self.push_pointed(out, pointer);
            }
        }
    }

    /// Appends a place and the sign of an assignment to it (C11 6.5.16.1).
    #[tactic(auto, using(crate::proofs::Puts::two_pushed))]
    fn push_target(&self, out: &mut Sink, place: &Lval)
        requires { is_some (place_type (scope_in self.now) (lval_of (nodes_in self.now) place.now)) ≡ true }
        ensures { out.new ≡ puts out.old (place_tokens (scope_in self.now) (lval_of (nodes_in self.now) place.now) ++ codes "=" ∷ []) }
    {
        self.push_place(out, place);
        out.token(b"=");
    }

    /// Appends the place in which a call's result is stored, where there is one.
    #[tactic(auto, using(crate::proofs::Puts::nothing_pushed))]
    fn push_result(&self, out: &mut Sink, result_place: &Option<Lval>)
        requires { result_is_typed (scope_in self.now) (option_map (lval_of (nodes_in self.now)) result_place.now) ≡ true }
        ensures { out.new ≡ puts out.old (result_tokens (scope_in self.now) (option_map (lval_of (nodes_in self.now)) result_place.now)) }
    {
        match result_place {
            None => {}
            Some(place) => self.push_target(out, place),
        }
    }

    /// Appends an assignment.
    #[tactic(auto, using(crate::proofs::Calls::set_pushed))]
    fn push_set(&self, out: &mut Sink, place: &Lval, value: &Exp)
        requires place { is_some (place_type (scope_in self.now) (lval_of (nodes_in self.now) place.now)) ≡ true }
        requires value { is_some (type_of (scope_in self.now) (exp_of (nodes_in self.now) value.now)) ≡ true }
        ensures { out.new ≡ puts out.old (instr_tokens (scope_in self.now) (Set (lval_of (nodes_in self.now) place.now) (exp_of (nodes_in self.now) value.now))) }
    {
        self.push_target(out, place);
        self.push_expression(out, value);
    }

    /// Appends a call (C11 6.5.2.2).
    #[tactic(auto, using(crate::proofs::Puts::three_pushed))]
    fn push_call(&self, out: &mut Sink, place: &Option<Lval>, callee: &Callee, arguments: &[Exp])
        requires place { result_is_typed (scope_in self.now) (option_map (lval_of (nodes_in self.now)) place.now) ≡ true }
        requires callee { callee_is_typed (scope_in self.now) (callee_of (nodes_in self.now) callee.now) ≡ true }
        requires arguments { are_typed (scope_in self.now) (map (exp_of (nodes_in self.now)) arguments.now) ≡ true }
        ensures { out.new ≡ puts out.old (result_tokens (scope_in self.now) (option_map (lval_of (nodes_in self.now)) place.now) ++ (callee_tokens (scope_in self.now) (callee_of (nodes_in self.now) callee.now) ++ in_parentheses (argument_tokens (scope_in self.now) (map (exp_of (nodes_in self.now)) arguments.now)))) }
    {
        self.push_result(out, place);
        self.push_callee(out, callee);
        self.push_argument_list(out, arguments);
    }

    /// Appends an object's size in bytes as a number of type unsigned long (C11 6.5.3.4), where its type is complete.
    #[tactic(auto, using(crate::proofs::Calls::size_pushed, crate::proofs::Calls::no_size))]
    fn push_size(&self, out: &mut Sink, of: Option<TypeId>)
        ensures { out.new ≡ puts out.old (size_tokens (scope_in self.now) (seen (nodes_in self.now) of)) }
    {
        match self.program.size(of) {
            None => {}
            Some(n) => push_digits(out, self.program.graph().abi().ulong(), n as u64),
        }
    }

    /// Appends the second and third argument of a zero fill.
    #[tactic(auto, using(crate::proofs::Calls::zero_size_pushed))]
    fn push_zero_size(&self, out: &mut Sink, of: Option<TypeId>)
        ensures { out.new ≡ puts out.old (codes "," ∷ codes "0" ∷ codes "," ∷ size_tokens (scope_in self.now) (seen (nodes_in self.now) of)) }
    {
        out.token(b",");
        out.token(b"0");
        out.token(b",");
        self.push_size(out, of);
    }

    /// Appends a zero fill: a call of `memset` (C11 7.24.6.1).
    #[tactic(auto, using(crate::proofs::Calls::zero_pushed))]
    fn push_zero(&self, out: &mut Sink, place: &Lval)
        requires { is_some (place_type (scope_in self.now) (lval_of (nodes_in self.now) place.now)) ≡ true }
        ensures { out.new ≡ puts out.old (instr_tokens (scope_in self.now) (Zero (lval_of (nodes_in self.now) place.now))) }
    {
        out.token(b"__builtin_memset");
        out.token(b"(");
        let t = self.push_address(out, place);
        self.push_zero_size(out, t);
        out.token(b")");
    }

    /// Appends an instruction.
    #[tactic(auto, using(crate::proofs::Calls::both_left, crate::proofs::Calls::both_right))]
    pub(crate) fn push_instruction(&self, out: &mut Sink, instr: &Instr)
        requires { instr_is_typed (scope_in self.now) (instr_of (nodes_in self.now) instr.now) ≡ true }
        ensures { out.new ≡ puts out.old (instr_tokens (scope_in self.now) (instr_of (nodes_in self.now) instr.now)) }
    {
        match instr {
            Instr::Set(place, value) => self.push_set(out, place, value),
            Instr::Call(place, callee, arguments) => self.push_call(out, place, callee, arguments),
            Instr::Zero(place) => self.push_zero(out, place),
        }
    }
}
