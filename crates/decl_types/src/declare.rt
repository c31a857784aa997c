ghost use Rattle.std.specs.Prelude.{◌≡◌, Ok, Err, true, IfErr, IfSome};
ghost use Rattle.cil_base.specs.declared.faults.Code.TheVariants.{Initialiser};
ghost use Rattle.cil_base.specs.declared.faults.Fault.TheVariants.{Constraint};
ghost use Rattle.cil_base.specs.declared.faults.RuleStop.TheVariants as stop;
ghost use Rattle.decl_types.specs.declared.declare.Start.TheVariants as begins;
ghost use Rattle.decl_types.specs.Refusals.{IsRefusal, of_bound, of_declaration, of_initialiser, of_parameter};

use crate::declared::{BodyForm, Declared, Declaring, Form, Linkage};
use crate::declarer::Declarer;
use crate::entities::{DeclaredEntity, Defined};
use crate::headings::Heading;
use crate::linking::{Defines, Linking, inherited};
use crate::new_names::NewName;
use crate::numbers::Numbers;
use crate::stops::{bad, laid, never, past};
use crate::types::{composite, is_function, is_unbounded, is_void, parameter};
use c_tree::StorageClass;
use cil_base::{Code, LocalId, NameId, RuleStop, What};
use type_graph::{QualType, Quals};
use typed_tree::{EntityKind, TypedLocal};
use unit_types::{Class, Types};

/// Whether a declarator has an initialiser.
#[derive(Clone, Copy, PartialEq, Eq)]
enum Start {
    Plain,
    Initialised,
}

/// A declarator in a declaration, outside parameters and function definitions.
#[derive(Clone, Copy)]
struct Item {
    name: NewName,
    ty: QualType,
    heading: Heading,
    start: Start,
    depth: u32,
}

/// Hands a declaration on, unless it has an initialiser that it may not have: `Initialiser`, at the initialiser.
fn without_initialiser(start: Start, d: Declared) -> Result<Declared, RuleStop>
    ensures plain { start ≡ begins.Plain → result ≡ Ok d }
    ensures initialised { start ≡ begins.Initialised → result ≡ Err (stop.Bad (Constraint Initialiser)) }
    ensures refused { IfErr result (IsRefusal of_initialiser) }
{
    match start {
        Start::Plain => Ok(d),
        Start::Initialised => Err(bad(Code::Initialiser)),
    }
}

/// Whether the type of an object without linkage is void or incomplete (C11 6.7p7). An initialiser gives an array its bound.
fn is_incomplete(i: &Item, t: &Types) -> bool {
    !t.is_complete(i.ty.of) && !(i.start == Start::Initialised && is_unbounded(t, i.ty.of))
}

/// The storage duration and linkage of an object or function that is declared.
#[derive(Clone, Copy)]
enum Storage {
    /// It has linkage.
    Linked(Linkage),
    /// A static object in a block.
    StaticLocal,
    /// An automatic object in a block.
    Automatic,
}

/// The storage of an object (C11 6.2.2p3 to p6, 6.2.4).
fn object_storage(i: &Item, prior: Option<Declared>) -> Storage {
    match i.heading.storage {
        Some(StorageClass::Extern) => Storage::Linked(inherited(prior)),
        Some(StorageClass::Static) => {
            if i.depth == 0 {
                Storage::Linked(Linkage::Internal)
            } else {
                Storage::StaticLocal
            }
        }
        None | Some(StorageClass::Typedef | StorageClass::Auto | StorageClass::Register) => {
            if i.depth == 0 {
                Storage::Linked(Linkage::External)
            } else {
                Storage::Automatic
            }
        }
    }
}

/// The linkage of a function (C11 6.2.2p3, p5). In a block `extern` alone may stand in front of it (6.7.1p7): else `Specifiers`, at the first token of
/// the specifiers.
fn function_linkage(
    storage: Option<StorageClass>,
    depth: u32,
    prior: Option<Declared>,
) -> Result<Linkage, RuleStop>
    ensures { IfErr result (IsRefusal of_declaration) }
{
    match storage {
        None | Some(StorageClass::Extern) => Ok(inherited(prior)),
        Some(StorageClass::Static) => {
            if depth > 0 {
                return Err(bad(Code::Specifiers));
            }
            Ok(Linkage::Internal)
        }
        Some(StorageClass::Typedef | StorageClass::Auto | StorageClass::Register) => {
            Err(bad(Code::Specifiers))
        }
    }
}

/// What an object with linkage defines (C11 6.7.9p5, 6.9.2). In a block it defines nothing.
fn defined_by(i: &Item) -> Defines {
    if i.depth > 0 {
        return Defines::Nothing;
    }
    match i.start {
        Start::Initialised => Defines::Object,
        Start::Plain => {
            if i.heading.storage == Some(StorageClass::Extern) {
                Defines::Nothing
            } else {
                Defines::Tentatively
            }
        }
    }
}

impl Declarer {
    /// Declares a name (C11 6.2, 6.7, 6.9): its scope begins here. The answer is the visible declaration.
    ///
    /// At the identifier: `Redeclared`, `Conflict`, `Incomplete`, `FunctionType`, `Reserved`, `Defined`, an excluded form, the limit on objects, that on
    /// locals. `Specifiers`, at the first token of the specifiers, where a function in a block is not `extern`; it comes first. `Initialiser`, at the
    /// initialiser, where the name takes none; it comes last.
    ///
    /// A function with a body is declared at file scope, while the scope of its parameters is the only open one.
    pub fn declare(
        &mut self,
        n: NewName,
        ty: QualType,
        h: Heading,
        form: Form,
        t: &mut Types,
    ) -> Result<Declared, RuleStop>
        ensures { IfErr result (IsRefusal of_declaration) }
    {
        match form {
            Form::Parameter(q) => self.declare_parameter(n, ty, q, h, t),
            Form::Body(body) => self.declare_definition(n, ty, h, body, t),
            Form::Plain => self.declare_item(n, ty, h, Start::Plain, t),
            Form::Initialised => self.declare_item(n, ty, h, Start::Initialised, t),
        }
    }

    /// Declares a name in a declaration.
    fn declare_item(
        &mut self,
        name: NewName,
        ty: QualType,
        heading: Heading,
        start: Start,
        t: &mut Types,
    ) -> Result<Declared, RuleStop>
        ensures { IfErr result (IsRefusal of_declaration) }
    {
        let depth = self.numbers.depth()?;
        let i = Item {
            name,
            ty,
            heading,
            start,
            depth,
        };
        if heading.storage == Some(StorageClass::Typedef) {
            self.declare_typedef(&i)
        } else if is_function(t, ty.of) {
            self.declare_function(&i, t)
        } else {
            self.declare_object(&i, t)
        }
    }

    /// Enters a declaration in the innermost scope.
    fn enter_name(&mut self, n: NameId, d: Declared) -> Result<Declared, RuleStop>
        ensures { IfErr result (λ e. e ≡ stop.Memory) }
    {
        self.names.declare(n, d)?;
        Ok(d)
    }

    /// Declares a typedef name (C11 6.7.8), again where it is the same type (6.7p3).
    fn declare_typedef(&mut self, i: &Item) -> Result<Declared, RuleStop>
        ensures { IfErr result (IsRefusal of_declaration) }
    {
        let d = Declared {
            what: Declaring::Typedef,
            ty: i.ty,
            linkage: Linkage::NoLinkage,
            register: false,
            depth: i.depth,
        };
        if let Some(before) = self.find_here(i.name.id(), i.depth) {
            if before != d {
                return Err(bad(Code::Redeclared));
            }
        }
        if i.name.is_reserved() {
            return Err(bad(Code::Reserved));
        }
        let d = self.enter_name(i.name.id(), d)?;
        without_initialiser(i.start, d)
    }

    /// Declares a function without a body.
    fn declare_function(&mut self, i: &Item, t: &mut Types) -> Result<Declared, RuleStop>
        ensures { IfErr result (IsRefusal of_declaration) }
    {
        let prior = self.names.find(i.name.id());
        let linkage = function_linkage(i.heading.storage, i.depth, prior)?;
        let l = Linking {
            name: i.name,
            ty: i.ty,
            linkage,
            prior,
            depth: i.depth,
            defines: Defines::Nothing,
            inline: i.heading.inline,
        };
        let d = self.link(&l, t)?;
        let d = self.enter_name(i.name.id(), d)?;
        without_initialiser(i.start, d)
    }

    /// Declares an object.
    fn declare_object(&mut self, i: &Item, t: &mut Types) -> Result<Declared, RuleStop>
        ensures { IfErr result (IsRefusal of_declaration) }
    {
        let prior = self.names.find(i.name.id());
        match object_storage(i, prior) {
            Storage::Linked(linkage) => self.declare_linked(i, linkage, prior, t),
            Storage::StaticLocal => self.declare_static(i, t),
            Storage::Automatic => self.declare_automatic(i, t),
        }
    }

    /// Declares an object with linkage. In a block it has no initialiser (C11 6.7.9p5).
    fn declare_linked(
        &mut self,
        i: &Item,
        linkage: Linkage,
        prior: Option<Declared>,
        t: &mut Types,
    ) -> Result<Declared, RuleStop>
        ensures { IfErr result (IsRefusal of_declaration) }
    {
        let l = Linking {
            name: i.name,
            ty: i.ty,
            linkage,
            prior,
            depth: i.depth,
            defines: defined_by(i),
            inline: i.heading.inline,
        };
        let d = self.link(&l, t)?;
        let d = self.enter_name(i.name.id(), d)?;
        if i.depth > 0 {
            return without_initialiser(i.start, d);
        }
        Ok(d)
    }

    /// The first constraint that an object without linkage violates.
    fn block_code(&self, i: &Item, t: &Types) -> Option<Code>
        ensures { IfSome result (λ code. of_declaration (Constraint code) ≡ true) }
    {
        if self.find_here(i.name.id(), i.depth).is_some() {
            Some(Code::Redeclared)
        } else if is_incomplete(i, t) {
            Some(Code::Incomplete)
        } else if i.name.is_reserved() {
            Some(Code::Reserved)
        } else {
            None
        }
    }

    /// Declares a static object in a block.
    fn declare_static(&mut self, i: &Item, t: &Types) -> Result<Declared, RuleStop>
        ensures { IfErr result (IsRefusal of_declaration) }
    {
        if let Some(code) = self.block_code(i, t) {
            return Err(bad(code));
        }
        let e = self.entities.add(DeclaredEntity {
            name: i.name.id(),
            kind: EntityKind::StaticLocal,
            ty: i.ty,
            bare: false,
            used: false,
            defined: Defined::Full,
        })?;
        self.enter_name(
            i.name.id(),
            Declared {
                what: Declaring::Entity(e),
                ty: i.ty,
                linkage: Linkage::NoLinkage,
                register: false,
                depth: i.depth,
            },
        )
    }

    /// Declares an automatic object in a block.
    fn declare_automatic(&mut self, i: &Item, t: &Types) -> Result<Declared, RuleStop>
        ensures { IfErr result (IsRefusal of_declaration) }
    {
        if let Some(code) = self.block_code(i, t) {
            return Err(bad(code));
        }
        let l = self.numbers.add_object(TypedLocal {
            name: i.name.id(),
            ty: i.ty,
        })?;
        self.enter_name(
            i.name.id(),
            Declared {
                what: Declaring::Local(l),
                ty: i.ty,
                linkage: Linkage::NoLinkage,
                register: i.heading.storage == Some(StorageClass::Register),
                depth: i.depth,
            },
        )
    }

    /// The first constraint that a named parameter violates.
    fn parameter_code(&self, n: NewName, ty: QualType, depth: u32, t: &Types) -> Option<Code>
        ensures { IfSome result (λ code. of_declaration (Constraint code) ≡ true) }
    {
        if self.find_here(n.id(), depth).is_some() {
            Some(Code::Redeclared)
        } else if is_void(t, ty.of) {
            Some(Code::Incomplete)
        } else if n.is_reserved() {
            Some(Code::Reserved)
        } else {
            None
        }
    }

    /// Declares a parameter (C11 6.7.6.3).
    fn declare_parameter(
        &mut self,
        n: NewName,
        ty: QualType,
        q: Quals,
        h: Heading,
        t: &mut Types,
    ) -> Result<Declared, RuleStop>
        ensures { IfErr result (IsRefusal of_declaration) }
    {
        let depth = self.numbers.depth()?;
        if let Some(code) = self.parameter_code(n, ty, depth, t) {
            return Err(bad(code));
        }
        let ty = parameter(ty, q, t)?;
        let l = self.numbers.add_parameter(TypedLocal { name: n.id(), ty })?;
        self.enter_name(
            n.id(),
            Declared {
                what: Declaring::Local(l),
                ty,
                linkage: Linkage::NoLinkage,
                register: h.storage == Some(StorageClass::Register),
                depth,
            },
        )
    }

    /// Declares a function with a body at file scope, around the open scope of its parameters (C11 6.9.1).
    fn declare_definition(
        &mut self,
        n: NewName,
        ty: QualType,
        h: Heading,
        body: BodyForm,
        t: &mut Types,
    ) -> Result<Declared, RuleStop>
        ensures { IfErr result (IsRefusal of_declaration) }
    {
        if self.numbers.depth()? != 1 {
            return Err(never());
        }
        let parameters = match self.names.leave() {
            None => return Err(never()),
            Some(parameters) => parameters,
        };
        let prior = self.names.find(n.id());
        let linkage = function_linkage(h.storage, 0, prior)?;
        let l = Linking {
            name: n,
            ty,
            linkage,
            prior,
            depth: 0,
            defines: Defines::Function(body),
            inline: h.inline,
        };
        let d = self.link(&l, t)?;
        let d = self.enter_name(n.id(), d)?;
        self.numbers.begin_body()?;
        self.names.enter()?;
        for p in &parameters {
            self.names.declare(p.name, p.value)?;
        }
        Ok(d)
    }

    /// A parameter of a function that is defined, by its number, behind `declare` with its body, in the order of the text. At its identifier: `Incomplete`
    /// (C11 6.9.1p7), and the limit on locals.
    pub fn defined_parameter(&self, l: LocalId, t: &Types) -> Result<(), RuleStop>
        ensures { IfErr result (IsRefusal of_parameter) }
    {
        match self.numbers.locals().get(l.0 as usize) {
            None => Err(never()),
            Some(local) => {
                if !t.is_complete(local.ty.of) {
                    return Err(bad(Code::Incomplete));
                }
                if !Numbers::is_within(l) {
                    return Err(past(What::Locals));
                }
                Ok(())
            }
        }
    }

    /// Gives the visible declaration of a name, which is an array of unknown bound, its bound (C11 6.7.9p22).
    ///
    /// At the identifier: `Conflict` where another declaration of the unit has another bound, and the limit on objects.
    pub fn set_bound(&mut self, n: NameId, bound: u64, t: &mut Types) -> Result<Declared, RuleStop>
        ensures { IfErr result (IsRefusal of_bound) }
    {
        let d = match self.names.find(n) {
            None => return Err(never()),
            Some(d) => d,
        };
        let element = match t.class(d.ty.of) {
            Class::Array(element, None) => element,
            Class::Array(_, Some(_))
            | Class::Void
            | Class::Int(_)
            | Class::Ptr(_)
            | Class::Func { .. }
            | Class::Agg(..) => return Err(never()),
        };
        self.check_bound(d, bound, t)?;
        let of = laid(t.array(element, Some(bound)))?;
        let bounded = Declared {
            what: d.what,
            ty: QualType {
                quals: d.ty.quals,
                of,
            },
            linkage: d.linkage,
            register: d.register,
            depth: d.depth,
        };
        self.bound_object(bounded, t)?;
        self.enter_name(n, bounded)
    }

    /// Whether the bound of a declaration agrees with that of its entity.
    fn check_bound(&self, d: Declared, bound: u64, t: &Types) -> Result<(), RuleStop>
        ensures { IfErr result (IsRefusal of_bound) }
    {
        let entity = match d.what {
            Declaring::Entity(e) => self.entities.get(e),
            Declaring::Typedef | Declaring::Enumerator(_) | Declaring::Local(_) => None,
        };
        match entity {
            None => Ok(()),
            Some(entity) => match t.class(entity.ty.of) {
                Class::Array(_, Some(known)) if known != bound => Err(bad(Code::Conflict)),
                Class::Array(..)
                | Class::Void
                | Class::Int(_)
                | Class::Ptr(_)
                | Class::Func { .. }
                | Class::Agg(..) => Ok(()),
            },
        }
    }

    /// Gives what is declared the type of its declaration.
    fn bound_object(&mut self, d: Declared, t: &mut Types) -> Result<(), RuleStop>
        ensures { IfErr result (IsRefusal of_bound) }
    {
        match d.what {
            Declaring::Local(l) => {
                self.numbers.set_type(l, d.ty)?;
                Ok(())
            }
            Declaring::Entity(e) => {
                let entity = match self.entities.get(e) {
                    None => return Err(never()),
                    Some(entity) => entity,
                };
                let of = composite(t, entity.ty.of, d.ty.of)?;
                self.entities.set_type(e, of)
            }
            Declaring::Typedef | Declaring::Enumerator(_) => Err(never()),
        }
    }
}
