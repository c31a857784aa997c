ghost use Rattle.std.specs.Prelude.{◌≡◌, ◌<◌, [], ◌∷◌, ◌++◌, Some, None, map, drop, length, true, codes};
ghost use Rattle.type_graph.specs.Shapes.{shape, shapes_of};
ghost use Rattle.type_graph.specs.Arena.{EachType};
ghost use Rattle.cil_tree.specs.Tree.{Function as Defined};
ghost use Rattle.cil_tree.specs.View.{type_at, text_at, global_of, body_of, stmts_of};
ghost use Rattle.cil_tree.specs.Typing.{scope_of};
ghost use Rattle.cil_tree.specs.Bodies.{each_stmt};
ghost use Rattle.cil_tree.specs.Declarators.{in_parentheses, declared, listed};
ghost use Rattle.cil_tree.specs.Text.{linkage, parameter_tokens, function_tokens, local_line, function_lines};
ghost use Rattle.cil_printer.specs.Output.{puts};
ghost use Rattle.cil_printer.specs.Plain.{IsPlainProgram, IsPlain, is_plain, are_plain, prints};
ghost use Rattle.cil_printer.specs.Seen.{tree_of, scope_in};
ghost use Rattle.cil_printer.specs.Typed.{stmt_is_typed};

use crate::function::Function;
use crate::program::Program;
use crate::sink::Sink;
use crate::statements::push_close;
use crate::types::Prototype;
use cil_base::{NameId, TypeId};
use cil_tree::{Body, GlobalDecl};
use type_graph::Node;

impl<'a> Program<'a> {
    /// Appends a function's declarator with named parameters (C11 6.9.1).
    #[tactic(auto, using(crate::proofs::DefinitionLines::prototype_pushed))]
    fn push_prototype(
        &self,
        out: &mut Sink,
        ret: TypeId,
        name: NameId,
        list: Prototype,
        names: &[NameId],
    )
        requires ret { ret.0 < length (tree_of self.now).graph.nodes }
        requires there { EachType (length (tree_of self.now).graph.nodes) list.params.now }
        ensures { out.new ≡ puts out.old (declared (tree_of self.now) (shape (tree_of self.now).graph.nodes ret.0) (text_at (tree_of self.now).names name ∷ in_parentheses (listed list.entry.proto list.entry.variadic (parameter_tokens (tree_of self.now) (shapes_of (shape (tree_of self.now).graph.nodes) list.entry.params.now) (map (text_at (tree_of self.now).names) names.now))))) }
    {
        self.push_before(out, ret);
        out.token(self.name(name));
        self.push_named_list(out, list.params, names, list.proto, list.variadic);
        self.push_after(out, ret);
    }

    /// Appends the declarator of a function with a body, if the type is a function's.
    fn push_signature_of(&self, out: &mut Sink, t: TypeId, x: &GlobalDecl, body: &Body)
        requires { t.0 < length (tree_of self.now).graph.nodes }
        ensures { out.new ≡ puts out.old (function_tokens (tree_of self.now) (global_of (tree_of self.now).graph.nodes (tree_of self.now).names x.now) (body_of (tree_of self.now).graph.nodes (tree_of self.now).names body.now) (Some (shape (tree_of self.now).graph.nodes t.0))) }
    {
        match self.graph().node(t) {
            Node::Func {
                ret,
                params,
                proto,
                variadic,
            } => {
                let list = Prototype {
                    of: t,
                    params: params.as_slice(),
                    proto: *proto,
                    variadic: *variadic,
                };
                self.push_prototype(out, *ret, x.name, list, &body.params)
            }
            Node::Void => {}
            Node::Int(_) => {}
            Node::Ptr(_) => {}
            Node::Array(..) => {}
            Node::Agg(_) => {}
        }
    }

    /// Appends the declarator of a function with a body.
    fn push_signature(&self, out: &mut Sink, x: &GlobalDecl, body: &Body)
        ensures { out.new ≡ puts out.old (function_tokens (tree_of self.now) (global_of (tree_of self.now).graph.nodes (tree_of self.now).names x.now) (body_of (tree_of self.now).graph.nodes (tree_of self.now).names body.now) (type_at (tree_of self.now).graph.nodes x.now.ty)) }
    {
        match self.within(x.ty) {
            None => {}
            Some(u) => self.push_signature_of(out, u, x, body),
        }
    }

    /// Appends the line that begins a function's definition.
    #[tactic(auto, using(crate::proofs::DefinitionLines::head_printed))]
    fn push_definition_head(&self, out: &mut Sink, x: &GlobalDecl, body: &Body)
        requires plain { IsPlainProgram (tree_of self.now) }
        requires named { is_plain (text_at (tree_of self.now).names x.now.name) ≡ true }
        requires params { are_plain (map (text_at (tree_of self.now).names) body.now.params.items) ≡ true }
        ensures { out.new ≡ prints out.old 0 ((linkage (global_of (tree_of self.now).graph.nodes (tree_of self.now).names x.now) ++ (function_tokens (tree_of self.now) (global_of (tree_of self.now).graph.nodes (tree_of self.now).names x.now) (body_of (tree_of self.now).graph.nodes (tree_of self.now).names body.now) (type_at (tree_of self.now).graph.nodes x.now.ty) ++ codes "{" ∷ [])) ∷ []) }
    {
        self.push_linkage(out, x);
        self.push_signature(out, x, body);
        out.end(b"{");
    }

    /// Appends the lines of a function with a body (C11 6.9.1).
    pub(crate) fn push_definition(&self, out: &mut Sink, x: &GlobalDecl, body: &Body)
        requires plain { IsPlain (scope_of (tree_of self.now) (body_of (tree_of self.now).graph.nodes (tree_of self.now).names body.now)) }
        requires named { is_plain (text_at (tree_of self.now).names x.now.name) ≡ true }
        requires params { are_plain (map (text_at (tree_of self.now).names) body.now.params.items) ≡ true }
        requires typed { each_stmt (stmt_is_typed (scope_of (tree_of self.now) (body_of (tree_of self.now).graph.nodes (tree_of self.now).names body.now))) (stmts_of (tree_of self.now).graph.nodes body.now.stmts.items) ≡ true }
        ensures { out.new ≡ prints out.old 0 (function_lines (tree_of self.now) (global_of (tree_of self.now).graph.nodes (tree_of self.now).names x.now) (Defined (body_of (tree_of self.now).graph.nodes (tree_of self.now).names body.now))) }
    {
        let function = Function {
            program: self,
            locals: &body.locals,
            labels: &body.labels,
        };
        self.push_definition_head(out, x, body);
        function.push_locals(out, &body.params);
        function.push_statements(out, 1, &body.stmts);
        push_close(out, 0);
    }
}

impl<'a> Function<'a> {
    /// Appends the lines of the locals behind the parameters.
    fn push_locals(&self, out: &mut Sink, params: &[NameId])
        requires { IsPlain (scope_in self.now) }
        ensures { out.new ≡ prints out.old 1 (map (local_line (scope_in self.now).program) (drop (length params.now) (scope_in self.now).locals)) }
    {
        for i in params.len()..self.locals.len() {
            self.program.push_local(out, self.locals[i]);
        }
    }
}
