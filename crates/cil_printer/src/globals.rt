ghost use Rattle.std.specs.Prelude.{◌≡◌, ◌<◌, [], ◌∷◌, Some, None, map, length, true};
ghost use Rattle.type_graph.specs.Shapes.{shape, shapes_of};
ghost use Rattle.type_graph.specs.Arena.{EachType};
ghost use Rattle.cil_tree.specs.Tree.{Zeros, Image};
ghost use Rattle.cil_printer.specs.Sides.{following};
ghost use Rattle.cil_tree.specs.View.{type_at, text_at, local_of, item_of, global_of, definition_of};
ghost use Rattle.cil_tree.specs.Typing.{is_function};
ghost use Rattle.cil_tree.specs.Declarators.{in_parentheses, type_tokens, declared, listed};
ghost use Rattle.cil_tree.specs.Text.{is_function_type, linkage, storage, declaration_line, local_line, object_lines, parameter_tokens};
ghost use Rattle.cil_printer.specs.Output.{puts};
ghost use Rattle.cil_printer.specs.Plain.{IsPlainProgram, is_plain, prints};
ghost use Rattle.cil_printer.specs.Seen.{tree_of, named_parts};

use crate::program::Program;
use crate::sink::Sink;
use crate::types::push_end;
use cil_base::{NameId, TypeId};
use cil_tree::{GlobalDecl, GlobalDef, ImageItem, Local};
use type_graph::Node;

impl<'a> Program<'a> {
    /// Appends a declaration of a name with a type of the program.
    #[tactic(auto, using(crate::proofs::GlobalTokens::declared_pushed))]
    pub(crate) fn push_declared(&self, out: &mut Sink, t: TypeId, name: NameId)
        requires { t.0 < length (tree_of self.now).graph.nodes }
        ensures { out.new ≡ puts out.old (declared (tree_of self.now) (shape (tree_of self.now).graph.nodes t.0) (text_at (tree_of self.now).names name ∷ [])) }
    {
        self.push_before(out, t);
        out.token(self.name(name));
        self.push_after(out, t);
    }

    /// Appends a declarator of a name with its type (C11 6.7.6).
    #[tactic(auto, using(crate::proofs::GlobalTokens::untyped_pushed, crate::proofs::GlobalTokens::typed_pushed))]
    fn push_declarator(&self, out: &mut Sink, t: TypeId, name: NameId)
        ensures { out.new ≡ puts out.old (type_tokens (tree_of self.now) (type_at (tree_of self.now).graph.nodes t) (text_at (tree_of self.now).names name ∷ [])) }
    {
        match self.within(t) {
            None => out.token(self.name(name)),
            Some(u) => self.push_declared(out, u, name),
        }
    }

    /// Whether a type is a function's.
    fn is_function(&self, t: TypeId) -> bool
        ensures { result ≡ is_function_type (type_at (tree_of self.now).graph.nodes t) }
    {
        match self.within(t) {
            None => false,
            Some(u) => matches!(self.graph().node(u), Node::Func { .. }),
        }
    }

    /// Appends the storage class of a definition (C11 6.7.1).
    #[tactic(auto, using(crate::proofs::Puts::nothing_pushed))]
    pub(crate) fn push_linkage(&self, out: &mut Sink, x: &GlobalDecl)
        ensures { out.new ≡ puts out.old (linkage (global_of (tree_of self.now).graph.nodes (tree_of self.now).names x.now)) }
    {
        if x.internal {
            out.token(b"static");
        }
    }

    /// Appends the storage class of a declaration alone (C11 6.7.1).
    fn push_storage(&self, out: &mut Sink, x: &GlobalDecl)
        ensures { out.new ≡ puts out.old (storage (global_of (tree_of self.now).graph.nodes (tree_of self.now).names x.now)) }
    {
        if x.internal {
            out.token(b"static");
        } else if !self.is_function(x.ty) {
            out.token(b"extern");
        }
    }

    /// Appends the line of a global's declaration.
    #[tactic(auto, using(crate::proofs::GlobalTokens::declaration_printed))]
    pub(crate) fn push_declaration(&self, out: &mut Sink, x: &GlobalDecl)
        requires plain { IsPlainProgram (tree_of self.now) }
        requires named { is_plain (text_at (tree_of self.now).names x.now.name) ≡ true }
        ensures { out.new ≡ prints out.old 0 (declaration_line (tree_of self.now) (global_of (tree_of self.now).graph.nodes (tree_of self.now).names x.now) ∷ []) }
    {
        self.push_storage(out, x);
        self.push_declarator(out, x.ty, x.name);
        out.end(b";");
    }

    /// Appends the line of a local.
    #[tactic(auto, using(crate::proofs::GlobalTokens::local_printed))]
    pub(crate) fn push_local(&self, out: &mut Sink, x: Local)
        requires plain { IsPlainProgram (tree_of self.now) }
        requires named { is_plain (text_at (tree_of self.now).names x.name) ≡ true }
        ensures { out.new ≡ prints out.old 1 (local_line (tree_of self.now) (local_of (tree_of self.now).graph.nodes (tree_of self.now).names x) ∷ []) }
    {
        out.indent(1);
        self.push_declarator(out, x.ty, x.name);
        out.end(b";");
    }

    /// Appends the line of an external object that is zero at the start (C11 6.7.9p10).
    #[tactic(auto, using(crate::proofs::GlobalTokens::zero_printed))]
    fn push_zero_object(&self, out: &mut Sink, x: &GlobalDecl)
        requires plain { IsPlainProgram (tree_of self.now) }
        requires named { is_plain (text_at (tree_of self.now).names x.now.name) ≡ true }
        ensures { out.new ≡ prints out.old 0 (object_lines (tree_of self.now) (global_of (tree_of self.now).graph.nodes (tree_of self.now).names x.now) Zeros) }
    {
        if x.internal {
            return;
        }
        self.push_declarator(out, x.ty, x.name);
        out.end(b";");
    }

    /// Appends the line of an object with an initial value (C11 6.7.9).
    fn push_image_object(&self, out: &mut Sink, x: &GlobalDecl, items: &[ImageItem])
        requires plain { IsPlainProgram (tree_of self.now) }
        requires named { is_plain (text_at (tree_of self.now).names x.now.name) ≡ true }
        ensures { out.new ≡ prints out.old 0 (object_lines (tree_of self.now) (global_of (tree_of self.now).graph.nodes (tree_of self.now).names x.now) (Image (map item_of items.now))) }
    {
        self.push_linkage(out, x);
        self.push_declarator(out, x.ty, x.name);
        out.token(b"=");
        self.push_image(out, Some(x.ty), items);
        out.end(b";");
    }

    /// Appends the line of an object that is defined, if the global is one.
    #[tactic(auto, using(crate::proofs::Printed::nothing_printed))]
    pub(crate) fn push_object(&self, out: &mut Sink, x: &GlobalDecl)
        requires plain { IsPlainProgram (tree_of self.now) }
        requires named { is_plain (text_at (tree_of self.now).names x.now.name) ≡ true }
        ensures { out.new ≡ prints out.old 0 (object_lines (tree_of self.now) (global_of (tree_of self.now).graph.nodes (tree_of self.now).names x.now) (definition_of (tree_of self.now).graph.nodes (tree_of self.now).names x.now.def)) }
    {
        match &x.def {
            GlobalDef::Declared | GlobalDef::Body(_) => {}
            GlobalDef::Zero => self.push_zero_object(out, x),
            GlobalDef::Image(items) => self.push_image_object(out, x, items),
        }
    }

    /// Appends parameters with their names, each behind a comma.
    fn push_following_parameters(&self, out: &mut Sink, types: &[TypeId], names: &[NameId])
        requires { EachType (length (tree_of self.now).graph.nodes) types.now }
        ensures { out.new ≡ puts out.old (following (named_parts (tree_of self.now) types.now names.now)) }
    {
        for i in 0..types.len().min(names.len()) {
            out.token(b",");
            self.push_declared(out, types[i], names[i]);
        }
    }

    /// Appends the parameters of a definition's prototype, of which there is a first with a name.
    #[tactic(auto, using(crate::proofs::NamedParameters::parameters_pushed))]
    fn push_some_parameters(
        &self,
        out: &mut Sink,
        first: Local,
        types: &[TypeId],
        names: &[NameId],
        variadic: bool,
    )
        requires first { first.ty.0 < length (tree_of self.now).graph.nodes }
        requires there { EachType (length (tree_of self.now).graph.nodes) types.now }
        ensures { out.new ≡ puts out.old (listed true variadic (parameter_tokens (tree_of self.now) (shapes_of (shape (tree_of self.now).graph.nodes) (first.ty ∷ types.now)) (map (text_at (tree_of self.now).names) (first.name ∷ names.now)))) }
    {
        self.push_declared(out, first.ty, first.name);
        self.push_following_parameters(out, types, names);
        push_end(out, variadic);
    }

    /// Appends the parameters of a definition's prototype, of which there is a first.
    #[tactic(auto, using(crate::proofs::NamedParameters::void_names))]
    fn push_first(
        &self,
        out: &mut Sink,
        first: TypeId,
        types: &[TypeId],
        names: &[NameId],
        variadic: bool,
    )
        requires first { first.0 < length (tree_of self.now).graph.nodes }
        requires there { EachType (length (tree_of self.now).graph.nodes) types.now }
        ensures { out.new ≡ puts out.old (listed true variadic (parameter_tokens (tree_of self.now) (shapes_of (shape (tree_of self.now).graph.nodes) (first ∷ types.now)) (map (text_at (tree_of self.now).names) names.now))) }
    {
        match names {
            [] => out.token(b"void"),
            [name, rest @ ..] => {
                let local = Local {
                    name: *name,
                    ty: first,
                };
                self.push_some_parameters(out, local, types, rest, variadic)
            }
        }
    }

    /// Appends the parameters of a definition.
    #[tactic(auto, using(crate::proofs::NamedParameters::void_types))]
    fn push_named(
        &self,
        out: &mut Sink,
        types: &[TypeId],
        names: &[NameId],
        proto: bool,
        variadic: bool,
    )
        requires { EachType (length (tree_of self.now).graph.nodes) types.now }
        ensures { out.new ≡ puts out.old (listed proto variadic (parameter_tokens (tree_of self.now) (shapes_of (shape (tree_of self.now).graph.nodes) types.now) (map (text_at (tree_of self.now).names) names.now))) }
    {
        if !proto {
            return;
        }
        match types {
            [] => out.token(b"void"),
            [first, rest @ ..] => self.push_first(out, *first, rest, names, variadic),
        }
    }

    /// Appends the parameters of a definition in parentheses (C11 6.9.1).
    #[tactic(auto, using(crate::proofs::Puts::enclosed))]
    pub(crate) fn push_named_list(
        &self,
        out: &mut Sink,
        types: &[TypeId],
        names: &[NameId],
        proto: bool,
        variadic: bool,
    )
        requires { EachType (length (tree_of self.now).graph.nodes) types.now }
        ensures { out.new ≡ puts out.old (in_parentheses (listed proto variadic (parameter_tokens (tree_of self.now) (shapes_of (shape (tree_of self.now).graph.nodes) types.now) (map (text_at (tree_of self.now).names) names.now)))) }
    {
        out.token(b"(");
        self.push_named(out, types, names, proto, variadic);
        out.token(b")");
    }
}
