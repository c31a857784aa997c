use cil_base::{LabelId, Memory, NameId};
use lower_parts::impossible;
use std::alloc::Global;
use typed_tree::TypedStmt;

/// The labels of a body, numbered in the order in which its text sets them: those of the source, and one at the end of the body of each
/// loop that a `continue` names.
#[derive(Drop)]
pub(crate) struct Labels {
    /// The names, by the numbers.
    pub(crate) names: Vec<NameId>,
    /// The numbers of the source's labels, as far as their text is behind.
    own: Vec<Option<LabelId>>,
    /// The numbers of the labels that loops have, by the order in which the loops begin.
    loops: Vec<Option<LabelId>>,
    /// How many loops the code has begun.
    begun: usize,
}

/// Whether a `continue` of the loop around stands in a statement.
#[derive(Clone, Copy)]
enum Continues {
    Yes,
    No,
}

impl Continues {
    /// Whether one stands in either of two statements.
    fn or(self, other: Continues) -> Continues {
        match self {
            Continues::Yes => Continues::Yes,
            Continues::No => other,
        }
    }
}

impl Labels {
    /// The labels of a function's statements, whose own labels have these names.
    pub(crate) fn of(
        alloc: Global,
        body: &[TypedStmt],
        names: &[NameId],
        made: NameId,
    ) -> Result<Labels, Memory> {
        let mut own = Vec::new(alloc);
        for _name in names {
            own.push(None)?;
        }
        let mut labels = Labels {
            names: Vec::new(alloc),
            own,
            loops: Vec::new(alloc),
            begun: 0,
        };
        list_all(&mut labels, &Asked { names, made }, body)?;
        Ok(labels)
    }

    /// The next number, for a label of a name.
    fn add(&mut self, name: NameId) -> Result<LabelId, Memory> {
        let number = self.names.len();
        if number >= u32::MAX as usize {
            return Err(Memory);
        }
        self.names.push(name)?;
        Ok(LabelId(number as u32))
    }

    /// Lists a label of the source.
    fn add_own(&mut self, n: LabelId, names: &[NameId]) -> Result<(), Memory> {
        let index = n.0 as usize;
        let Some(name) = names.get(index) else {
            return Err(impossible());
        };
        let number = self.add(*name)?;
        if index >= self.own.len() {
            return Err(impossible());
        }
        self.own[index] = Some(number);
        Ok(())
    }

    /// Lists a loop, which has no label yet.
    fn add_loop(&mut self) -> Result<usize, Memory> {
        let index = self.loops.len();
        self.loops.push(None)?;
        Ok(index)
    }

    /// Lists the label at the end of a loop's body.
    fn add_made(&mut self, index: usize, made: NameId) -> Result<(), Memory> {
        let number = self.add(made)?;
        if index >= self.loops.len() {
            return Err(impossible());
        }
        self.loops[index] = Some(number);
        Ok(())
    }

    /// The number of a label of the source.
    pub(crate) fn number(&self, n: LabelId) -> Result<LabelId, Memory> {
        match self.own.get(n.0 as usize) {
            Some(Some(number)) => Ok(*number),
            Some(None) | None => Err(impossible()),
        }
    }

    /// The label of the next loop, if a `continue` names it.
    pub(crate) fn next_loop(&mut self) -> Result<Option<LabelId>, Memory> {
        let index = self.begun;
        if index >= self.loops.len() {
            return Err(impossible());
        }
        self.begun = index + 1;
        Ok(self.loops[index])
    }
}

/// The names that labels are asked to have.
#[derive(Clone, Copy)]
struct Asked<'a> {
    names: &'a [NameId],
    /// The base of made ones.
    made: NameId,
}

/// Lists the labels of statements in the order of their code.
#[cycle(labels)]
fn list_all(l: &mut Labels, asked: &Asked, all: &[TypedStmt]) -> Result<Continues, Memory> {
    let mut found = Continues::No;
    for s in all {
        let here = list(l, asked, s)?;
        found = found.or(here);
    }
    Ok(found)
}

/// Lists the labels of a loop's body, and behind them that of the loop.
#[cycle(labels)]
fn list_loop(l: &mut Labels, asked: &Asked, body: &[TypedStmt]) -> Result<Continues, Memory> {
    let index = l.add_loop()?;
    match list_all(l, asked, body)? {
        Continues::Yes => l.add_made(index, asked.made)?,
        Continues::No => {}
    }
    Ok(Continues::No)
}

/// Lists the labels of a statement in the order of its code.
#[cycle(labels)]
fn list(l: &mut Labels, asked: &Asked, s: &TypedStmt) -> Result<Continues, Memory> {
    match s {
        TypedStmt::Label(n) => {
            l.add_own(*n, asked.names)?;
            Ok(Continues::No)
        }
        TypedStmt::Continue => Ok(Continues::Yes),
        TypedStmt::Block(body) | TypedStmt::Switch(_, body) => list_all(l, asked, body),
        TypedStmt::If(_, holds, fails) => {
            let first = list_all(l, asked, holds)?;
            let second = list_all(l, asked, fails)?;
            Ok(first.or(second))
        }
        TypedStmt::While(_, body) | TypedStmt::Do(body, _) | TypedStmt::For(_, _, _, body) =>
            list_loop(l, asked, body),
        TypedStmt::Expr(_)
        | TypedStmt::Declare(..)
        | TypedStmt::Case(..)
        | TypedStmt::Default
        | TypedStmt::Goto(_)
        | TypedStmt::Break
        | TypedStmt::Return(_) => Ok(Continues::No),
    }
}
