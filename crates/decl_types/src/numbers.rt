ghost use Rattle.std.specs.Prelude.{IfErr};
ghost use Rattle.decl_types.specs.Refusals.{IsRefusal, of_local};

use crate::stops::{impossible, narrow, past};
use cil_base::{FUNCTION_LOCALS, LocalId, Memory, RuleStop, What};
use std::alloc::Global;
use std::mem;
use type_graph::QualType;
use typed_tree::TypedLocal;

/// What a scope is.
#[derive(Clone, Copy, PartialEq, Eq)]
enum Role {
    /// A block, or a list of parameters without any so far.
    Block,
    /// The parameters of a function declarator (C11 6.2.1p4, function prototype scope).
    Parameters,
    /// The parameters of a function that is defined, and the outermost block of its body.
    Body,
}

/// An open scope: its role, and how many locals there were in front of it.
#[derive(Clone, Copy)]
struct Frame {
    role: Role,
    locals: usize,
}

/// What a function has with automatic storage duration. The parameters are the first locals.
#[derive(Drop)]
pub struct FunctionLocals {
    /// The number of parameters.
    pub params: u32,
    /// The parameters and the declared objects, by their numbers.
    pub locals: Vec<TypedLocal>,
    /// The number of compound literals.
    pub literals: u32,
}

/// The numbers that the function at hand has given.
#[derive(Drop)]
pub(crate) struct Numbers {
    frames: Vec<Frame>,
    params: u32,
    locals: Vec<TypedLocal>,
    literals: u32,
    alloc: Global,
}

impl Numbers {
    /// No numbers, at file scope.
    pub(crate) fn new(alloc: Global) -> Self {
        Numbers {
            frames: Vec::new(alloc),
            params: 0,
            locals: Vec::new(alloc),
            literals: 0,
            alloc,
        }
    }

    /// The number of scopes around declarations.
    pub(crate) fn depth(&self) -> Result<u32, Memory> {
        narrow(self.frames.len())
    }

    /// Whether no scope is open.
    pub(crate) fn is_outside(&self) -> bool {
        self.frames.is_empty()
    }

    /// The locals so far.
    pub(crate) fn locals(&self) -> &[TypedLocal] {
        &self.locals
    }

    /// Opens a scope.
    pub(crate) fn enter(&mut self) -> Result<(), Memory> {
        self.frames.push(Frame {
            role: Role::Block,
            locals: self.locals.len(),
        })?;
        Ok(())
    }

    /// Closes a scope. The parameters of a declarator without body give their numbers back.
    pub(crate) fn leave(&mut self) -> Result<(), Memory> {
        match self.frames.pop() {
            None => Err(impossible()),
            Some(frame) => {
                if frame.role == Role::Parameters {
                    self.locals.truncate(frame.locals);
                }
                Ok(())
            }
        }
    }

    /// Gives the innermost scope a role.
    fn begin(&mut self, role: Role) -> Result<(), Memory> {
        match self.frames.pop() {
            None => Err(impossible()),
            Some(frame) => {
                self.frames.push(Frame {
                    role,
                    locals: frame.locals,
                })?;
                Ok(())
            }
        }
    }

    /// The next number.
    fn add(&mut self, local: TypedLocal) -> Result<LocalId, Memory> {
        let l = narrow(self.locals.len())?;
        self.locals.push(local)?;
        Ok(LocalId(l))
    }

    /// A parameter. Numbers may be given back, so the limit is not looked at.
    pub(crate) fn add_parameter(&mut self, local: TypedLocal) -> Result<LocalId, Memory> {
        self.begin(Role::Parameters)?;
        self.add(local)
    }

    /// The parameters of the innermost scope are those of a function that is defined.
    pub(crate) fn begin_body(&mut self) -> Result<(), Memory> {
        self.params = narrow(self.locals.len())?;
        self.begin(Role::Body)
    }

    /// Whether the function has as many locals and compound literals as it may have.
    fn is_full(&self) -> bool {
        self.locals.len() + self.literals as usize >= FUNCTION_LOCALS
    }

    /// An automatic object.
    pub(crate) fn add_object(&mut self, local: TypedLocal) -> Result<LocalId, RuleStop>
        ensures { IfErr result (IsRefusal of_local) }
    {
        if self.is_full() {
            return Err(past(What::Locals));
        }
        let l = self.add(local)?;
        Ok(l)
    }

    /// A compound literal.
    pub(crate) fn add_literal(&mut self) -> Result<u32, RuleStop>
        ensures { IfErr result (IsRefusal of_local) }
    {
        if self.is_full() {
            return Err(past(What::Locals));
        }
        let n = self.literals;
        self.literals = narrow(n as usize + 1)?;
        Ok(n)
    }

    /// Gives a local another type.
    pub(crate) fn set_type(&mut self, l: LocalId, ty: QualType) -> Result<(), Memory> {
        let i = l.0 as usize;
        if i >= self.locals.len() {
            return Err(impossible());
        }
        self.locals[i].ty = ty;
        Ok(())
    }

    /// The locals of the function that ends. The next one begins at 0 again.
    pub(crate) fn end(&mut self) -> FunctionLocals {
        let locals = mem::replace(&mut self.locals, Vec::new(self.alloc));
        let ended = FunctionLocals {
            params: self.params,
            locals,
            literals: self.literals,
        };
        self.params = 0;
        self.literals = 0;
        ended
    }

    /// Whether a parameter of a function that is defined is within the limit.
    pub(crate) fn is_within(l: LocalId) -> bool {
        (l.0 as usize) < FUNCTION_LOCALS
    }
}
