use crate::stops::{WalkStop, impossible};
use cil_base::{EntityId, NamePool};
use decl_types::{Declarer, MadeNames};
use indexmap::IndexSet;
use std::alloc::Global;
use type_graph::QualType;
use typed_tree::{Definition, TypedLiteral};
use unit_types::Types;

/// Whether what is walked is evaluated: an operand of `sizeof` and `_Alignof` is not (C11 6.5.3.4p2, p3).
#[derive(Clone, Copy, PartialEq, Eq)]
pub enum Evaluation {
    Evaluated,
    Unevaluated,
}

/// Where the walk stands: its compound literals have static storage duration outside functions (C11 6.5.2.5p5).
#[derive(Clone, Copy)]
pub enum Within {
    File,
    Function,
}

/// What the walk knows of an object with static storage duration, or of a function. Places are the numbers of tokens.
#[derive(Drop)]
pub struct Site {
    /// Its first declaration; of the function that is declared before each unit, where it is first named.
    pub first: Option<u32>,
    /// Its definition: the first tentative one where it has no other.
    pub defined: Option<u32>,
    /// Whether it is an object that is defined const.
    pub constant: bool,
    pub definition: Definition,
}

/// The walk of a unit: what it has declared and made so far.
#[derive(Drop)]
pub struct Walker<'a> {
    pub alloc: Global,
    /// The names that the pool had before the walk.
    pub names: &'a NamePool,
    pub made: MadeNames,
    pub types: Types,
    pub declarer: Declarer,
    /// By the number of its entity.
    pub sites: Vec<Site>,
    pub within: Within,
    /// The compound literals of the function that is walked, by their numbers.
    pub literals: Vec<TypedLiteral>,
    pub evaluation: Evaluation,
    /// The first tokens of the casts from an integer type to `void *` (C11 6.3.2.3p3).
    pub void_casts: IndexSet<u32>,
}

impl Site {
    /// An object or function that is declared alone.
    pub fn declared(first: Option<u32>) -> Self {
        Site {
            first,
            defined: None,
            constant: false,
            definition: Definition::Declared,
        }
    }
}

impl<'a> Walker<'a> {
    /// The walk before the first external declaration. It holds the names of the unit.
    pub fn new(alloc: Global, names: &'a NamePool, types: Types, declarer: Declarer) -> Self {
        Walker {
            alloc,
            names,
            made: MadeNames::new(alloc, names),
            types,
            declarer,
            sites: Vec::new(alloc),
            within: Within::File,
            literals: Vec::new(alloc),
            evaluation: Evaluation::Evaluated,
            void_casts: IndexSet::new(alloc),
        }
    }

    /// Notes that an object or function is named at a token: the first one is kept.
    pub fn note(&mut self, e: EntityId, at: u32) -> Result<(), WalkStop> {
        let i = e.0 as usize;
        for _missing in self.sites.len()..i {
            self.sites.push(Site::declared(None))?;
        }
        if i == self.sites.len() {
            self.sites.push(Site::declared(Some(at)))?;
            return Ok(());
        }
        match self.sites.get_mut(i) {
            Some(site) => {
                if site.first.is_none() {
                    site.first = Some(at);
                }
                Ok(())
            }
            None => Err(impossible()),
        }
    }

    /// A new object with static storage duration that a literal stands for (C11 6.4.5p6, 6.5.2.5p5).
    pub fn static_literal(
        &mut self,
        at: u32,
        ty: QualType,
        constant: bool,
        definition: Definition,
    ) -> Result<EntityId, WalkStop> {
        let e = self.declarer.literal(ty)?;
        self.note(e, at)?;
        self.define(e, at, constant, definition)?;
        Ok(e)
    }

    /// Gives an object or function its definition.
    pub fn define(
        &mut self,
        e: EntityId,
        at: u32,
        constant: bool,
        definition: Definition,
    ) -> Result<(), WalkStop> {
        match self.sites.get_mut(e.0 as usize) {
            Some(site) => {
                site.defined = Some(at);
                site.constant = constant;
                site.definition = definition;
                Ok(())
            }
            None => Err(impossible()),
        }
    }
}
