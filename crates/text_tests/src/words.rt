use crate::builder::type_at;
use crate::stop::Stop;
use cil_base::{BinOp, EntityId, IntKind, LabelId, LocalId, TypeId, UnOp};
use cil_nodes::{
    add_element, add_field, at, binary, boxed, direct, if_else, looped, push_argument,
    return_value, set, switch, through, whole, zero,
};
use cil_tree::{Exp, Host, Instr, Lval, Stmt};
use std::alloc::Global;
use std::mem;

/// A step of building statements: each takes its parts from what was built last, and puts what it makes behind the rest.
#[derive(Clone, Copy)]
pub(crate) enum Word {
    /// A constant.
    Const(IntKind, u64),
    /// The place of a local.
    Local(u32),
    /// The place of a global.
    Global(EntityId),
    /// What a pointer points to.
    Pointed,
    /// A member of a place.
    Field(u32),
    /// An element of a place.
    Element,
    /// The value of a place.
    Value,
    /// The address of a place.
    Address,
    /// The address of an array's first element.
    Start,
    Un(UnOp),
    Bin(BinOp),
    /// A conversion to one of the types that are given.
    Cast(usize),
    /// An assignment.
    Set,
    /// A call of a function with so many arguments.
    Call(EntityId, usize),
    /// The same, whose result is stored.
    CallTo(EntityId, usize),
    /// A call of what a pointer points to with one argument, whose result is stored.
    ThroughTo,
    /// The same, whose result is not stored.
    Through,
    /// A place becomes zero.
    Zero,
    /// What follows stands in the statement whose word ends it.
    Begin,
    /// An `if` with the last two lists that were begun.
    If,
    /// A loop, a switch, a block with the last list that was begun.
    Loop,
    Switch,
    Block,
    Label(LabelId),
    Case(IntKind, i128),
    Default,
    Goto(LabelId),
    Break,
    /// A return of a value, and one of none.
    Return,
    Leave,
}

/// Places, expressions and statements that are built: each list but the last is one in which the next one stands.
#[derive(Drop)]
struct Stack {
    places: Vec<Lval>,
    exps: Vec<Box<Exp>>,
    outer: Vec<Vec<Stmt>>,
    stmts: Vec<Stmt>,
    alloc: Global,
}

impl Stack {
    fn new(alloc: Global) -> Self {
        Stack {
            places: Vec::new(alloc),
            exps: Vec::new(alloc),
            outer: Vec::new(alloc),
            stmts: Vec::new(alloc),
            alloc,
        }
    }

    fn place(&mut self) -> Result<Lval, Stop> {
        match self.places.pop() {
            Some(place) => Ok(place),
            None => Err(Stop::Wrong),
        }
    }

    fn exp(&mut self) -> Result<Box<Exp>, Stop> {
        match self.exps.pop() {
            Some(e) => Ok(e),
            None => Err(Stop::Wrong),
        }
    }

    fn add_place(&mut self, host: Host) -> Result<(), Stop> {
        self.places.push(whole(self.alloc, host))?;
        Ok(())
    }

    fn add_exp(&mut self, e: Exp) -> Result<(), Stop> {
        let e = boxed(self.alloc, e)?;
        self.exps.push(e)?;
        Ok(())
    }

    fn add_stmt(&mut self, s: Stmt) -> Result<(), Stop> {
        self.stmts.push(s)?;
        Ok(())
    }

    fn add_pointed(&mut self) -> Result<(), Stop> {
        let pointer = self.exp()?;
        self.add_place(at(pointer))
    }

    fn step_to_field(&mut self, member: u32) -> Result<(), Stop> {
        match self.places.last_mut() {
            Some(place) => Ok(add_field(place, member)?),
            None => Err(Stop::Wrong),
        }
    }

    fn step_to_element(&mut self) -> Result<(), Stop> {
        let index = self.exp()?;
        match self.places.last_mut() {
            Some(place) => Ok(add_element(place, index)?),
            None => Err(Stop::Wrong),
        }
    }

    fn add_value(&mut self) -> Result<(), Stop> {
        let place = self.place()?;
        self.add_exp(Exp::Lval(place))
    }

    fn add_address(&mut self) -> Result<(), Stop> {
        let place = self.place()?;
        self.add_exp(Exp::AddrOf(place))
    }

    fn add_start(&mut self) -> Result<(), Stop> {
        let place = self.place()?;
        self.add_exp(Exp::StartOf(place))
    }

    fn add_unary(&mut self, op: UnOp) -> Result<(), Stop> {
        let operand = self.exp()?;
        self.add_exp(Exp::Un(op, operand))
    }

    fn add_binary(&mut self, op: BinOp) -> Result<(), Stop> {
        let right = self.exp()?;
        let left = self.exp()?;
        self.add_exp(binary(op, left, right))
    }

    fn add_cast(&mut self, to: TypeId) -> Result<(), Stop> {
        let operand = self.exp()?;
        self.add_exp(Exp::Cast(to, operand))
    }

    fn add_instr(&mut self, instr: Instr) -> Result<(), Stop> {
        self.add_stmt(Stmt::Instr(instr))
    }

    fn add_set(&mut self) -> Result<(), Stop> {
        let value = self.exp()?;
        let place = self.place()?;
        self.add_instr(set(place, value))
    }

    fn add_zero(&mut self) -> Result<(), Stop> {
        let place = self.place()?;
        self.add_instr(zero(place))
    }

    /// So many arguments, in the order in which they were built.
    fn arguments(&mut self, count: usize) -> Result<Vec<Exp>, Stop> {
        let mut arguments = Vec::new(self.alloc);
        for _i in 0..count {
            let e = self.exp()?;
            push_argument(&mut arguments, e)?;
        }
        arguments.reverse();
        Ok(arguments)
    }

    fn add_call(&mut self, function: EntityId, count: usize) -> Result<(), Stop> {
        let arguments = self.arguments(count)?;
        self.add_instr(Instr::Call(None, direct(function), arguments))
    }

    fn add_call_to(&mut self, function: EntityId, count: usize) -> Result<(), Stop> {
        let arguments = self.arguments(count)?;
        let to = self.place()?;
        self.add_instr(Instr::Call(Some(to), direct(function), arguments))
    }

    fn add_through(&mut self) -> Result<(), Stop> {
        let arguments = self.arguments(1)?;
        let pointer = self.exp()?;
        self.add_instr(Instr::Call(None, through(pointer), arguments))
    }

    fn add_through_to(&mut self) -> Result<(), Stop> {
        let arguments = self.arguments(1)?;
        let pointer = self.exp()?;
        let to = self.place()?;
        self.add_instr(Instr::Call(Some(to), through(pointer), arguments))
    }

    fn begin(&mut self) -> Result<(), Stop> {
        let outer = mem::replace(&mut self.stmts, Vec::new(self.alloc));
        self.outer.push(outer)?;
        Ok(())
    }

    /// The list that was begun last.
    fn end(&mut self) -> Result<Vec<Stmt>, Stop> {
        match self.outer.pop() {
            Some(outer) => Ok(mem::replace(&mut self.stmts, outer)),
            None => Err(Stop::Wrong),
        }
    }

    fn add_if(&mut self) -> Result<(), Stop> {
        let fails = self.end()?;
        let holds = self.end()?;
        let test = self.exp()?;
        self.add_stmt(if_else(test, holds, fails))
    }

    fn add_loop(&mut self) -> Result<(), Stop> {
        let body = self.end()?;
        self.add_stmt(looped(body))
    }

    fn add_switch(&mut self) -> Result<(), Stop> {
        let body = self.end()?;
        let value = self.exp()?;
        self.add_stmt(switch(value, body))
    }

    fn add_block(&mut self) -> Result<(), Stop> {
        let body = self.end()?;
        self.add_stmt(Stmt::Block(body))
    }

    fn add_return(&mut self) -> Result<(), Stop> {
        let value = self.exp()?;
        self.add_stmt(return_value(value))
    }

    /// A word of statements.
    fn statement(&mut self, w: Word) -> Result<(), Stop> {
        match w {
            Word::Set => self.add_set(),
            Word::Zero => self.add_zero(),
            Word::Call(function, count) => self.add_call(function, count),
            Word::CallTo(function, count) => self.add_call_to(function, count),
            Word::ThroughTo => self.add_through_to(),
            Word::Through => self.add_through(),
            Word::Begin => self.begin(),
            Word::If => self.add_if(),
            Word::Loop => self.add_loop(),
            Word::Switch => self.add_switch(),
            Word::Block => self.add_block(),
            Word::Label(number) => self.add_stmt(Stmt::Label(number)),
            Word::Case(kind, value) => self.add_stmt(Stmt::Case(kind, value)),
            Word::Default => self.add_stmt(Stmt::Default),
            Word::Goto(number) => self.add_stmt(Stmt::Goto(number)),
            Word::Break => self.add_stmt(Stmt::Break),
            Word::Return => self.add_return(),
            _ => self.add_stmt(Stmt::Return(None)),
        }
    }

    fn word(&mut self, types: &[TypeId], w: Word) -> Result<(), Stop> {
        match w {
            Word::Const(kind, value) => self.add_exp(Exp::Const(kind, value)),
            Word::Local(number) => self.add_place(Host::Var(LocalId(number))),
            Word::Global(number) => self.add_place(Host::Global(number)),
            Word::Pointed => self.add_pointed(),
            Word::Field(member) => self.step_to_field(member),
            Word::Element => self.step_to_element(),
            Word::Value => self.add_value(),
            Word::Address => self.add_address(),
            Word::Start => self.add_start(),
            Word::Un(op) => self.add_unary(op),
            Word::Bin(op) => self.add_binary(op),
            Word::Cast(place) => self.add_cast(type_at(types, place)),
            _ => self.statement(w),
        }
    }

    /// Builds what the words say.
    fn build(&mut self, types: &[TypeId], words: &[Word]) -> Result<(), Stop> {
        for w in words {
            self.word(types, *w)?;
        }
        Ok(())
    }

    /// Builds what the words of each part say.
    fn build_all(&mut self, types: &[TypeId], parts: &[&[Word]]) -> Result<(), Stop> {
        for words in parts {
            self.build(types, words)?;
        }
        Ok(())
    }
}

/// The statements that the words of each part build.
pub(crate) fn statements(
    alloc: Global,
    types: &[TypeId],
    parts: &[&[Word]],
) -> Result<Vec<Stmt>, Stop> {
    let mut stack = Stack::new(alloc);
    stack.build_all(types, parts)?;
    Ok(stack.stmts)
}
