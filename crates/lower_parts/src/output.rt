use crate::shapes::{impossible, pointer_to};
use cil_base::{Bases, EntityId, LocalId, Memory, NameId, TypeId};
use cil_nodes::{address, at, boxed, cast, value, whole};
use cil_tree::{Exp, Host, Local, Lval};
use std::alloc::Global;
use std::mem;
use type_graph::TypeGraph;
use typed_tree::TypedExp;

/// What all functions of a unit share: the program's types, which have no qualifiers, and what the numbers of the typed unit are in it.
#[derive(Drop)]
pub struct UnitOut {
    pub graph: TypeGraph,
    /// The program's types, by the numbers of the typed unit's.
    pub types: Vec<TypeId>,
    /// The places among the program's globals, by the numbers of the typed unit's entities; what the program lacks has none.
    pub numbers: Vec<Option<EntityId>>,
    /// The types with which the program prints them, by the same numbers.
    pub printed: Vec<TypeId>,
    pub bases: Bases,
}

impl UnitOut {
    /// A type of the typed unit in the program.
    pub fn mapped(&self, t: TypeId) -> Result<TypeId, Memory> {
        match self.types.get(t.0 as usize) {
            Some(mapped) => Ok(*mapped),
            None => Err(impossible()),
        }
    }

    /// The place among the program's globals of an object or function of the typed unit.
    pub fn number(&self, n: EntityId) -> Result<EntityId, Memory> {
        match self.numbers.get(n.0 as usize) {
            Some(Some(number)) => Ok(*number),
            Some(None) | None => Err(impossible()),
        }
    }

    /// The type with which the program prints an object or function of the typed unit.
    pub fn printed(&self, n: EntityId) -> Result<TypeId, Memory> {
        match self.printed.get(n.0 as usize) {
            Some(t) => Ok(*t),
            None => Err(impossible()),
        }
    }
}

/// What is made of a function: its locals, which are the parameters, the declared objects, the compound literals, and then the temporaries,
/// each of which has a number of its own over the whole function.
#[derive(Drop)]
pub struct FunctionOut {
    pub unit: UnitOut,
    pub alloc: Global,
    locals: Vec<Local>,
    /// How many parameters and declared objects there are.
    declared: u32,
}

impl FunctionOut {
    /// No locals yet.
    pub fn new(alloc: Global, unit: UnitOut) -> Self {
        FunctionOut {
            unit,
            alloc,
            locals: Vec::new(alloc),
            declared: 0,
        }
    }

    /// The program's types.
    pub fn into_graph(self) -> TypeGraph {
        self.unit.graph
    }

    /// Adds a parameter or a declared object, before any compound literal.
    pub fn declare(&mut self, name: NameId, ty: TypeId) -> Result<(), Memory> {
        let count = self.locals.len();
        if count >= u32::MAX as usize {
            return Err(Memory);
        }
        self.locals.push(Local { name, ty })?;
        self.declared = count as u32 + 1;
        Ok(())
    }

    /// Adds an object without a name: a compound literal, behind all declared objects, or a temporary, behind all compound literals.
    pub fn add_unnamed(&mut self, ty: TypeId) -> Result<LocalId, Memory> {
        let number = self.locals.len();
        if number >= u32::MAX as usize {
            return Err(Memory);
        }
        let name = self.unit.bases.temporary;
        self.locals.reserve(1)?;
        self.locals.push_reserved(Local { name, ty });
        Ok(LocalId(number as u32))
    }

    /// The locals of the function, after which there are none.
    pub fn take_locals(&mut self) -> Vec<Local> {
        self.declared = 0;
        mem::replace(&mut self.locals, Vec::new(self.alloc))
    }

    /// The local that a compound literal is.
    pub fn literal(&self, n: u32) -> Result<LocalId, Memory> {
        let number = self.declared as u64 + n as u64;
        if number >= self.locals.len() as u64 || number > u32::MAX as u64 {
            return Err(impossible());
        }
        Ok(LocalId(number as u32))
    }

    /// The type of a local, with which it is printed.
    pub fn local_type(&self, n: LocalId) -> Result<TypeId, Memory> {
        match self.locals.get(n.0 as usize) {
            Some(local) => Ok(local.ty),
            None => Err(impossible()),
        }
    }

    /// The allocator that takes memory.
    pub fn alloc(&self) -> Global {
        self.alloc
    }

    /// The type of an expression.
    pub fn type_of(&self, e: &TypedExp) -> Result<TypeId, Memory> {
        self.unit.mapped(e.ty().of)
    }

    /// The place of an object or function, printed with one type, at another: `* ( ( pointer to the other ) & it )`.
    #[inline(never)]
    fn retyped(&mut self, host: Host, to: TypeId) -> Result<Lval, Memory> {
        let it = boxed(self.alloc, address(whole(self.alloc, host)))?;
        let pointer = pointer_to(&mut self.unit.graph, to)?;
        let it = boxed(self.alloc, cast(pointer, it))?;
        Ok(whole(self.alloc, at(it)))
    }

    /// The value of an object, printed with one type, at another, in its box.
    #[inline(never)]
    fn retyped_operand(&mut self, host: Host, to: TypeId) -> Result<Box<Exp>, Memory> {
        let place = self.retyped(host, to)?;
        boxed(self.alloc, value(place))
    }

    /// The place of a parameter or a declared object, at the type that it has in an expression.
    pub fn local_place(&mut self, n: LocalId, t: TypeId) -> Result<Lval, Memory> {
        if self.local_type(n)? == t {
            Ok(whole(self.alloc, Host::Var(n)))
        } else {
            self.retyped(Host::Var(n), t)
        }
    }

    /// The place of an object with static storage duration, or a function, at the type that it has in an expression.
    pub fn global_place(&mut self, n: EntityId, t: TypeId) -> Result<Lval, Memory> {
        let host = Host::Global(self.unit.number(n)?);
        if self.unit.printed(n)? == t {
            Ok(whole(self.alloc, host))
        } else {
            self.retyped(host, t)
        }
    }

    /// The value of a parameter or a declared object, at the type that it has in an expression, in its box.
    pub fn local_operand(&mut self, n: LocalId, t: TypeId) -> Result<Box<Exp>, Memory> {
        if self.local_type(n)? == t {
            boxed(self.alloc, value(whole(self.alloc, Host::Var(n))))
        } else {
            self.retyped_operand(Host::Var(n), t)
        }
    }

    /// The value of an object with static storage duration, at the type that it has in an expression, in its box.
    pub fn global_operand(&mut self, n: EntityId, t: TypeId) -> Result<Box<Exp>, Memory> {
        let host = Host::Global(self.unit.number(n)?);
        if self.unit.printed(n)? == t {
            boxed(self.alloc, value(whole(self.alloc, host)))
        } else {
            self.retyped_operand(host, t)
        }
    }
}
