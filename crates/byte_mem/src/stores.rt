ghost use Rattle.std.specs.Prelude.{◌≡◌, IfOk, IfSome, None, Some};
ghost use Rattle.cil_base.specs.declared.kinds.Abi.TheVariants.{Lp64};
ghost use Rattle.cil_base.specs.Integer.{IsOf};
ghost use Rattle.byte_mem.specs.Operator.{load_number};
ghost use Rattle.byte_mem.specs.Scalar.{IsValue};
ghost use Rattle.byte_mem.specs.Change.{changed_held};
ghost use Rattle.byte_mem.specs.Memory.{no_memory, with_held, make, make_function, end_object, live_size, protect, load, load_bytes, changed, store, store_bytes, fill, zero};
ghost use Rattle.byte_mem.specs.Store.{memory, Stored, Becomes, Put};
ghost use Rattle.byte_mem.specs.Places.{begun};

use crate::frames::Stack;
use crate::objects::{Beginning, Change, Object};
use crate::pages::Pages;
use crate::pointers::{ObjName, Pointer};
use crate::regions::Sharing;
use crate::values::{Byte, Cells, Scalar, Value};
use cil_base::{Abi, EntityId, IntKind, Memory};
use std::alloc::Global;

/// Many objects share a region of bytes, of one size or nearly so.
const SHARING: Sharing = Sharing {
    objects: 64,
    is_alike: true,
};

/// The objects of a run, by name. Those with numbers of one kind stand in one list, so that an access
/// finds its object by the number; the objects of activations stand in a stack of such lists.
///
/// Room is taken where an object is made, and no load, store or zero takes any.
#[derive(Drop)]
pub struct Store {
    alloc: Global,
    abi: Abi,
    entities: Pages,
    literals: Pages,
    arguments: Pages,
    heap: Pages,
    locals: Stack,
}

impl Store {
    /// A store without objects, in the data model Lp64.
    pub fn new(alloc: Global) -> Self
        ensures empty { memory result ≡ no_memory }
        ensures model { result.abi ≡ Lp64 }
    {
        Self::new_for(alloc, Abi::Lp64)
    }

    /// A store without objects, in a data model.
    #[tactic(auto, using(crate::proofs::StoreLemmas::memory_empty))]
    pub fn new_for(alloc: Global, abi: Abi) -> Self
        ensures empty { memory result ≡ no_memory }
        ensures model { result.abi ≡ abi }
    {
        Store {
            alloc,
            abi,
            entities: Pages::new(alloc, SHARING),
            literals: Pages::new(alloc, SHARING),
            arguments: Pages::new(alloc, SHARING),
            heap: Pages::new(alloc, SHARING),
            locals: Stack::new(alloc),
        }
    }

    /// The data model, from which scalars have their sizes.
    pub fn abi(&self) -> Abi
        ensures { result ≡ self.now.abi }
    {
        self.abi
    }

    /// Makes an object of so many equal bytes live under a name, in the place of an earlier one (C11
    /// 6.2.4p2). After want of memory the store is as before.
    pub fn make(&mut self, n: ObjName, size: u32, fill: Byte, read_only: bool) -> Result<(), Memory>
        ensures { Put result self.old self.new (make (memory self.old) n size fill read_only) }
    {
        let b = Beginning {
            size,
            fill,
            read_only,
            is_function: false,
        };
        self.put(n, &b)
    }

    /// Makes a function live under the number of an entity (own): it has offset 0 alone, and no bytes.
    pub fn make_function(&mut self, e: EntityId) -> Result<(), Memory>
        ensures { Put result self.old self.new (make_function (memory self.old) (ObjName.Entity e)) }
    {
        let b = Beginning {
            size: 0,
            fill: Byte::Known(0),
            read_only: true,
            is_function: true,
        };
        self.put(ObjName::Entity(e), &b)
    }

    /// Ends the life of what has a name, until it is made anew (C11 6.2.4p2).
    #[tactic(auto, using(crate::proofs::StoreLemmas::entity_ended, crate::proofs::StoreLemmas::local_ended, crate::proofs::StoreLemmas::literal_ended, crate::proofs::StoreLemmas::heap_ended, crate::proofs::StoreLemmas::argument_ended))]
    pub fn end(&mut self, n: ObjName)
        ensures { Becomes self.old self.new (end_object (memory self.old) n) }
    {
        match n {
            ObjName::Entity(e) => self.entities.clear(e.0 as usize),
            ObjName::Local(activation, l) => self.locals.clear(activation, l.0 as usize),
            ObjName::Literal(i) => self.literals.clear(i as usize),
            ObjName::Heap(i) => self.heap.clear(i as usize),
            ObjName::Argument(i) => self.arguments.clear(i as usize),
        }
    }

    /// The number of bytes of what has a name, None exactly where nothing live has it.
    pub fn live_size(&self, n: ObjName) -> Option<u32>
        ensures { result ≡ live_size (memory self.now) n }
    {
        match self.find(n) {
            Some(object) => Some(object.len()),
            None => None,
        }
    }

    /// Makes an object read-only or writable, and changes nothing else (own; C11 6.7.3p6, 6.4.5p7).
    pub fn protect(&mut self, n: ObjName, read_only: bool)
        ensures { Becomes self.old self.new (protect (memory self.old) n read_only) }
    {
        let at = Pointer { name: n, offset: 0 };
        let _ = self.change(at, Change::Protect(read_only));
    }

    /// The value of a scalar in an object (C11 6.3.2.1p2), None exactly where nothing live has the name, the
    /// scalar does not lie in the object, or the offset is no multiple of its size.
    pub fn load(&self, at: Pointer, s: Scalar) -> Option<Value>
        ensures loaded { result ≡ load self.now.abi (memory self.now) at s }
        ensures value { IfSome result (IsValue self.now.abi s) }
    {
        self.value_at(at, s)
    }

    /// The number that stands in an object as the value of an integer type, None exactly where `load` gives None or no
    /// number.
    pub fn load_number(&self, at: Pointer, kind: IntKind) -> Option<i128>
        ensures number { result ≡ load_number self.now.abi (memory self.now) at kind }
        ensures value { IfSome result (IsOf kind) }
    {
        self.value_at(at, Scalar::Int(kind))?.number()
    }

    /// Stores the value of a scalar (C11 6.5.16.1p2), None exactly where `load` gives it or the object is
    /// read-only; then nothing has changed.
    #[tactic(auto, using(crate::proofs::StoreLemmas::entity_changed, crate::proofs::StoreLemmas::local_changed, crate::proofs::StoreLemmas::literal_changed, crate::proofs::StoreLemmas::heap_changed, crate::proofs::StoreLemmas::argument_changed))]
    pub fn store(&mut self, at: Pointer, s: Scalar, v: Value) -> Option<()>
        ensures { Stored result self.old self.new (store self.old.abi (memory self.old) at s v) }
    {
        let abi = self.abi;
        match at.name {
            ObjName::Entity(e) => self.entities.store(abi, e.0 as usize, at, s, v),
            ObjName::Local(activation, l) => {
                self.locals.store(abi, activation, l.0 as usize, at, s, v)
            }
            ObjName::Literal(i) => self.literals.store(abi, i as usize, at, s, v),
            ObjName::Heap(i) => self.heap.store(abi, i as usize, at, s, v),
            ObjName::Argument(i) => self.arguments.store(abi, i as usize, at, s, v),
        }
    }

    /// So many bytes of an object, None exactly where nothing live has the name or they do not lie in it.
    pub fn load_bytes(&self, at: Pointer, len: u32) -> Result<Option<Cells>, Memory>
        ensures { IfOk result (λ found. found ≡ load_bytes (memory self.now) at len) }
    {
        match self.find(at.name) {
            Some(object) => match object.load_bytes(self.alloc, at, len)? {
                Some(bytes) => Ok(Some(Cells::new(bytes))),
                None => Ok(None),
            },
            None => Ok(None),
        }
    }

    /// Stores bytes, None exactly where `load_bytes` of as many gives it or the object is read-only; then
    /// nothing has changed.
    pub fn store_bytes(&mut self, at: Pointer, b: &Cells) -> Option<()>
        ensures { Stored result self.old self.new (store_bytes (memory self.old) at b.now) }
    {
        self.change(at, Change::Copy(b.as_slice()))
    }

    /// Makes so many bytes zero, None exactly as `store_bytes` of as many; then nothing has changed.
    pub fn zero(&mut self, at: Pointer, len: u32) -> Option<()>
        ensures { Stored result self.old self.new (zero (memory self.old) at len) }
    {
        self.fill(at, len, 0)
    }

    /// Makes so many bytes a number, None exactly as `store_bytes` of as many; then nothing has changed.
    pub fn fill(&mut self, at: Pointer, len: u32, b: u8) -> Option<()>
        ensures { Stored result self.old self.new (fill (memory self.old) at len b) }
    {
        self.change(at, Change::Fill(len, b))
    }

    /// The value of a scalar in an object.
    #[inline(always)]
    fn value_at(&self, at: Pointer, s: Scalar) -> Option<Value>
        ensures loaded { result ≡ load self.now.abi (memory self.now) at s }
        ensures value { IfSome result (IsValue self.now.abi s) }
    {
        match self.find(at.name) {
            Some(object) => object.load(self.abi, at, s),
            None => None,
        }
    }

    /// What is live under a name.
    #[inline(always)]
    pub(crate) fn find(&self, n: ObjName) -> Option<Object<'_>>
        ensures { memory self.now n ≡ result }
    {
        match n {
            ObjName::Entity(e) => self.entities.get(e.0 as usize),
            ObjName::Local(activation, l) => self.locals.get(activation, l.0 as usize),
            ObjName::Literal(i) => self.literals.get(i as usize),
            ObjName::Heap(i) => self.heap.get(i as usize),
            ObjName::Argument(i) => self.arguments.get(i as usize),
        }
    }

    #[tactic(auto, using(crate::proofs::StoreLemmas::entity_changed, crate::proofs::StoreLemmas::local_changed, crate::proofs::StoreLemmas::literal_changed, crate::proofs::StoreLemmas::heap_changed, crate::proofs::StoreLemmas::argument_changed))]
    fn change(&mut self, at: Pointer, change: Change<'_>) -> Option<()>
        ensures { Stored result self.old self.new (changed (memory self.old) at.name (changed_held at.offset change.entry)) }
    {
        match at.name {
            ObjName::Entity(e) => self.entities.change(e.0 as usize, at, change),
            ObjName::Local(activation, l) => self
                .locals
                .change(activation, l.0 as usize, at, change),
            ObjName::Literal(i) => self.literals.change(i as usize, at, change),
            ObjName::Heap(i) => self.heap.change(i as usize, at, change),
            ObjName::Argument(i) => self.arguments.change(i as usize, at, change),
        }
    }

    #[tactic(auto, using(crate::proofs::StoreLemmas::entity_put, crate::proofs::StoreLemmas::local_put, crate::proofs::StoreLemmas::literal_put, crate::proofs::StoreLemmas::heap_put, crate::proofs::StoreLemmas::argument_put))]
    fn put(&mut self, n: ObjName, b: &Beginning) -> Result<(), Memory>
        ensures { Put result self.old self.new (with_held (memory self.old) n (Some (begun b.now))) }
    {
        let alloc = self.alloc;
        let put = match n {
            ObjName::Entity(e) => self.entities.put(e.0 as usize, b),
            ObjName::Local(activation, l) => { self.locals.put(alloc, activation, l.0 as usize, b) }
            ObjName::Literal(i) => self.literals.put(i as usize, b),
            ObjName::Heap(i) => self.heap.put(i as usize, b),
            ObjName::Argument(i) => self.arguments.put(i as usize, b),
        };
        put?;
        Ok(())
    }
}
