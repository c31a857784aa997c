use c_places::{
    block_item_at, bound_at, declaration_at, declarator_at, designator_at, enumerator_at, expr_at,
    external_at, init_at, item_at, member_at, member_declarator_at, parameter_at, specifier_at,
    specifiers_at, statement_at, type_name_at,
};
use c_tree::{
    ArrayBound, BlockItem, Declaration, Declarator, Designator, Enumerator, Expr, ExtDecl,
    ForStart, FunctionDefinition, Init, InitDeclarator, InitItem, MemberDeclaration,
    MemberDeclarator, Parameter, Specifier, StaticAssert, Stmt, TypeName, Unit,
};
use std::alloc::Global;

/// The numbers of the first tokens of nodes.
#[derive(Drop)]
pub(crate) struct Found {
    pub(crate) numbers: Vec<u32>,
    /// Whether memory was never wanting.
    pub(crate) has_all: bool,
}

impl Found {
    /// No numbers.
    pub(crate) fn new(alloc: Global) -> Self {
        Found {
            numbers: Vec::new(alloc),
            has_all: true,
        }
    }

    /// Puts a number behind the others.
    fn put(&mut self, at: u32) {
        if self.numbers.push(at).is_err() {
            self.has_all = false;
        }
    }

    /// Puts the number of what has a token.
    fn put_if(&mut self, at: Option<u32>) {
        if let Some(at) = at {
            self.put(at);
        }
    }
}

/// An expression.
#[cycle(tree)]
fn expr(f: &mut Found, e: &Expr) {
    f.put(expr_at(e));
    match e {
        Expr::Name(..) | Expr::Integer(..) | Expr::Character(..) | Expr::Literals(..) => {}
        Expr::Parentheses(_, e)
        | Expr::Member(_, e, _)
        | Expr::Arrow(_, e, _)
        | Expr::Postfix(_, e, _)
        | Expr::Prefix(_, _, e)
        | Expr::Unary(_, _, e)
        | Expr::SizeofExpr(_, e) => expr(f, e),
        Expr::Index(_, l, r)
        | Expr::Binary(_, _, l, r)
        | Expr::Logical(_, _, l, r)
        | Expr::Assign(_, _, l, r)
        | Expr::Comma(_, l, r) => {
            expr(f, l);
            expr(f, r);
        }
        Expr::Conditional(_, test, holds, fails) => {
            expr(f, test);
            expr(f, holds);
            expr(f, fails);
        }
        Expr::Call(_, called, arguments) => {
            expr(f, called);
            exprs(f, arguments);
        }
        Expr::CompoundLiteral(_, t, xs, _) => {
            type_name(f, t);
            items(f, xs);
        }
        Expr::SizeofType(_, t) | Expr::AlignofType(_, t) => type_name(f, t),
        Expr::Cast(_, t, e) => {
            type_name(f, t);
            expr(f, e);
        }
    }
}

/// Expressions.
#[cycle(tree)]
fn exprs(f: &mut Found, es: &[Expr]) {
    for e in es {
        expr(f, e);
    }
}

/// A type name.
#[cycle(tree)]
fn type_name(f: &mut Found, t: &TypeName) {
    f.put_if(type_name_at(t));
    specifiers(f, &t.specifiers);
    declarator(f, &t.declarator);
}

/// Specifiers.
#[cycle(tree)]
fn specifiers(f: &mut Found, all: &[Specifier]) {
    f.put_if(specifiers_at(all));
    for s in all {
        specifier(f, s);
    }
}

/// A specifier.
#[cycle(tree)]
fn specifier(f: &mut Found, s: &Specifier) {
    f.put(specifier_at(s));
    match s {
        Specifier::Members(_, _, _, ms) => members(f, ms),
        Specifier::Enumerators(_, _, es, _) => enumerators(f, es),
        Specifier::Storage(..)
        | Specifier::Basic(..)
        | Specifier::Qualifier(..)
        | Specifier::Function(..)
        | Specifier::TypedefName(..)
        | Specifier::Tag(..) => {}
    }
}

/// Declarations among members.
#[cycle(tree)]
fn members(f: &mut Found, ms: &[MemberDeclaration]) {
    for m in ms {
        member(f, m);
    }
}

/// A declaration among members.
#[cycle(tree)]
fn member(f: &mut Found, m: &MemberDeclaration) {
    f.put_if(member_at(m));
    match m {
        MemberDeclaration::Members(ss, ds) => {
            specifiers(f, ss);
            member_declarators(f, ds);
        }
        MemberDeclaration::StaticAssert(a) => asserted(f, a),
    }
}

/// What a static assertion asserts.
#[cycle(tree)]
fn asserted(f: &mut Found, a: &StaticAssert) {
    expr(f, &a.condition);
    f.put(a.message_at);
}

/// Declarators of members.
#[cycle(tree)]
fn member_declarators(f: &mut Found, ds: &[MemberDeclarator]) {
    for d in ds {
        member_declarator(f, d);
    }
}

/// A declarator of a member.
#[cycle(tree)]
fn member_declarator(f: &mut Found, d: &MemberDeclarator) {
    f.put(member_declarator_at(d));
    match d {
        MemberDeclarator::Plain(d) => declarator(f, d),
        MemberDeclarator::BitField(d, width) => {
            declarator(f, d);
            expr(f, width);
        }
    }
}

/// Enumerators.
#[cycle(tree)]
fn enumerators(f: &mut Found, es: &[Enumerator]) {
    for e in es {
        enumerator(f, e);
    }
}

/// An enumerator.
#[cycle(tree)]
fn enumerator(f: &mut Found, e: &Enumerator) {
    f.put(enumerator_at(e));
    if let Some(value) = &e.value {
        expr(f, value);
    }
}

/// A declarator.
#[cycle(tree)]
fn declarator(f: &mut Found, d: &Declarator) {
    f.put(declarator_at(d));
    match d {
        Declarator::Name(..) | Declarator::Absent(_) => {}
        Declarator::Parentheses(_, inner)
        | Declarator::Pointer(_, _, inner)
        | Declarator::Identifiers(_, inner, _) => declarator(f, inner),
        Declarator::Array(_, inner, b) => {
            declarator(f, inner);
            bound(f, b);
        }
        Declarator::Function(_, inner, ps, _) => {
            declarator(f, inner);
            parameters(f, ps);
        }
    }
}

/// The bound of an array.
#[cycle(tree)]
fn bound(f: &mut Found, b: &ArrayBound) {
    f.put(bound_at(b));
    match b {
        ArrayBound::Unspecified(..) | ArrayBound::Star(..) => {}
        ArrayBound::Size(_, _, e)
        | ArrayBound::StaticSize(_, _, e)
        | ArrayBound::SizeStatic(_, _, e) => expr(f, e),
    }
}

/// Parameters.
#[cycle(tree)]
fn parameters(f: &mut Found, ps: &[Parameter]) {
    for p in ps {
        parameter(f, p);
    }
}

/// A parameter.
#[cycle(tree)]
fn parameter(f: &mut Found, p: &Parameter) {
    f.put_if(parameter_at(p));
    specifiers(f, &p.specifiers);
    declarator(f, &p.declarator);
}

/// An initialiser.
#[cycle(tree)]
fn init(f: &mut Found, x: &Init) {
    f.put(init_at(x));
    match x {
        Init::Expr(e) => expr(f, e),
        Init::Braces(_, xs, _) => items(f, xs),
    }
}

/// Items of a brace list.
#[cycle(tree)]
fn items(f: &mut Found, xs: &[InitItem]) {
    for x in xs {
        item(f, x);
    }
}

/// An item of a brace list.
#[cycle(tree)]
fn item(f: &mut Found, x: &InitItem) {
    f.put(item_at(x));
    designators(f, &x.designators);
    init(f, &x.init);
}

/// Designators.
#[cycle(tree)]
fn designators(f: &mut Found, ds: &[Designator]) {
    for d in ds {
        designator(f, d);
    }
}

/// A designator.
#[cycle(tree)]
fn designator(f: &mut Found, d: &Designator) {
    f.put(designator_at(d));
    match d {
        Designator::Index(_, e) => expr(f, e),
        Designator::Member(..) => {}
    }
}

/// A declaration.
fn declaration(f: &mut Found, d: &Declaration) {
    f.put(declaration_at(d));
    match d {
        Declaration::Declares(_, ss, ds) => {
            specifiers(f, ss);
            init_declarators(f, ds);
        }
        Declaration::StaticAssert(a) => asserted(f, a),
    }
}

/// Declarators with their initialisers.
fn init_declarators(f: &mut Found, ds: &[InitDeclarator]) {
    for d in ds {
        declarator(f, &d.declarator);
        maybe_init(f, &d.init);
    }
}

/// An initialiser, where there is one.
fn maybe_init(f: &mut Found, x: &Option<Init>) {
    if let Some(x) = x {
        init(f, x);
    }
}

/// An expression, where there is one.
fn maybe_expr(f: &mut Found, e: &Option<Expr>) {
    if let Some(e) = e {
        expr(f, e);
    }
}

/// What stands before the first semicolon of a for statement.
fn start(f: &mut Found, s: &ForStart) {
    match s {
        ForStart::Expr(e) => maybe_expr(f, e),
        ForStart::Declaration(d) => declaration(f, d),
    }
}

/// A statement.
#[cycle(statement)]
fn statement(f: &mut Found, s: &Stmt) {
    f.put(statement_at(s));
    match s {
        Stmt::Labelled(_, _, s) | Stmt::Default(_, s) => statement(f, s),
        Stmt::Case(_, e, s) | Stmt::If(_, e, s) | Stmt::Switch(_, e, s) | Stmt::While(_, e, s) => {
            expr(f, e);
            statement(f, s);
        }
        Stmt::Compound(_, all) => block(f, all),
        Stmt::Expr(_, e) | Stmt::Return(_, e) => maybe_expr(f, e),
        Stmt::IfElse(_, e, holds, fails) => {
            expr(f, e);
            statement(f, holds);
            statement(f, fails);
        }
        Stmt::Do(_, s, e) => {
            statement(f, s);
            expr(f, e);
        }
        Stmt::For(_, begin, test, step, s) => {
            start(f, begin);
            maybe_expr(f, test);
            maybe_expr(f, step);
            statement(f, s);
        }
        Stmt::Goto(..) | Stmt::Continue(_) | Stmt::Break(_) => {}
    }
}

/// Items of a block.
#[cycle(statement)]
fn block(f: &mut Found, all: &[BlockItem]) {
    for i in all {
        block_item(f, i);
    }
}

/// An item of a block.
#[cycle(statement)]
fn block_item(f: &mut Found, i: &BlockItem) {
    f.put(block_item_at(i));
    match i {
        BlockItem::Declaration(d) => declaration(f, d),
        BlockItem::Statement(s) => statement(f, s),
    }
}

/// Declarations.
fn declarations(f: &mut Found, ds: &[Declaration]) {
    for d in ds {
        declaration(f, d);
    }
}

/// A function definition.
fn definition(f: &mut Found, d: &FunctionDefinition) {
    specifiers(f, &d.specifiers);
    declarator(f, &d.declarator);
    declarations(f, &d.declarations);
    f.put(d.body_at);
    block(f, &d.body);
}

/// A unit.
pub(crate) fn unit(f: &mut Found, u: &Unit) {
    for d in &u.declarations {
        f.put(external_at(d));
        match d {
            ExtDecl::Definition(d) => definition(f, d),
            ExtDecl::Declaration(d) => declaration(f, d),
        }
    }
}
