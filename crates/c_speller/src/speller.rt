ghost use Rattle.std.specs.Prelude.{◌∷◌, ◌++◌};
ghost use Rattle.c_tree.specs.View.{expr_of, specifier_of, specifiers_of, member_of, member_declarator_of, enumerator_of, declarator_of, bound_of, parameter_of, init_of, item_of, designator_of, exprs_of, members_of, member_declarators_of, enumerators_of, parameters_of, items_of, designators_of, maybe_of};
ghost use Rattle.c_tree.specs.Spelling.{with_commas, last_comma, in_parens, in_brackets, in_braces, spell_ellipsis, spell_qualifiers, spell_literals, spell_names, spell_assert, spell_expr, spell_exprs, spell_specifier, spell_specifiers, spell_member, spell_members, spell_member_declarator, spell_member_declarators, spell_enumerator, spell_enumerators, spell_value, spell_declarator, spell_bound, spell_parameter, spell_parameters, spell_init, spell_item, spell_items, spell_designator, spell_designation};
ghost use Rattle.c_speller.specs.Added.{Adds, flat_of};
ghost use Rattle.c_tree.specs.Spelling.{sign};
ghost use Rattle.cil_base.specs.declared.tokens.Punctuator.TheVariants.{Comma as CommaSign};

use crate::spelled::{
    Texts, TokenSink, put_assign, put_character, put_comma_if, put_ellipsis_if, put_integer,
    put_literal, put_name, put_sign, put_tag, put_word,
};
use crate::wording::{
    basic_word, binary_sign, function_word, logical_sign, qualifier_word, step_sign, storage_word,
    struct_word, tag_word, unary_sign,
};
use c_tree::{
    ArrayBound, Declarator, Designator, Enumerator, Expr, Init, InitItem, MemberDeclaration,
    MemberDeclarator, Parameter, Qualifier, Specifier, StaticAssert, TypeName,
};
use cil_base::{Bytes, Keyword, NameId, Punctuator};

/// Puts qualifiers.
#[tactic(auto, using(crate::proofs::AddedLemmas::added_start, crate::proofs::AddedLemmas::added_step, crate::proofs::AddedLists::qualifiers_end))]
pub fn put_qualifiers(from: &Texts, out: &mut TokenSink, xs: &[Qualifier])
    ensures { Adds from.now.names.now out.old out.new (spell_qualifiers xs.now) }
{
    for x in xs {
        put_word(from, out, qualifier_word(*x));
    }
}

/// Puts string literals.
#[tactic(auto, using(crate::proofs::AddedLemmas::added_start, crate::proofs::AddedLemmas::added_step, crate::proofs::AddedLists::literals_end))]
pub fn put_literals(from: &Texts, out: &mut TokenSink, xs: &[Bytes])
    ensures { Adds from.now.names.now out.old out.new (spell_literals xs.now) }
{
    for x in xs {
        put_literal(from, out, x);
    }
}

/// Puts identifiers with commas between them.
#[tactic(auto, using(crate::proofs::AddedLemmas::commas_start, crate::proofs::AddedLemmas::commas_step, crate::proofs::AddedLists::names_end))]
pub fn put_names(from: &Texts, out: &mut TokenSink, xs: &[NameId])
    ensures { Adds from.now.names.now out.old out.new (spell_names xs.now) }
{
    let mut is_more = false;
    for x in xs {
        put_comma_if(from, out, is_more);
        put_name(from, out, *x);
        is_more = true;
    }
}

/// Puts an identifier list (C11 6.7.6.3).
#[tactic(auto, using(crate::proofs::AddedLemmas::adds_more, crate::proofs::AddedLemmas::adds_next))]
pub fn put_identifiers(from: &Texts, out: &mut TokenSink, xs: &[NameId])
    ensures { Adds from.now.names.now out.old out.new (in_parens (spell_names xs.now)) }
{
    put_sign(from, out, Punctuator::LeftParen);
    put_names(from, out, xs);
    put_sign(from, out, Punctuator::RightParen);
}

/// Puts an expression.
#[cycle(spelling)]
#[tactic(auto, using(crate::proofs::AddedLemmas::adds_more, crate::proofs::AddedLemmas::adds_next, c_tree::proofs::Views::at_call, c_tree::proofs::Views::at_compound_literal, c_tree::proofs::Views::at_sizeof, c_tree::proofs::Views::at_alignof, c_tree::proofs::Views::at_cast))]
pub fn put_expr(from: &Texts, out: &mut TokenSink, x: &Expr)
    ensures { Adds from.now.names.now out.old out.new (spell_expr (expr_of x.now)) }
{
    match x {
        Expr::Name(_, n) => put_name(from, out, *n),
        Expr::Integer(_, text) => put_integer(from, out, text),
        Expr::Character(_, text) => put_character(from, out, text),
        Expr::Literals(_, texts) => put_literals(from, out, texts),
        Expr::Parentheses(_, e) => put_in_parens(from, out, e),
        Expr::Index(_, e, i) => {
            put_expr(from, out, e);
            put_in_brackets(from, out, i);
        }
        Expr::Call(_, e, es) => {
            put_expr(from, out, e);
            put_arguments(from, out, es);
        }
        Expr::Member(_, e, n) => {
            put_expr(from, out, e);
            put_sign(from, out, Punctuator::Dot);
            put_name(from, out, *n);
        }
        Expr::Arrow(_, e, n) => {
            put_expr(from, out, e);
            put_sign(from, out, Punctuator::Arrow);
            put_name(from, out, *n);
        }
        Expr::Postfix(_, e, op) => {
            put_expr(from, out, e);
            put_sign(from, out, step_sign(*op));
        }
        Expr::CompoundLiteral(_, t, items, comma) => {
            put_type(from, out, t);
            put_braced_items(from, out, items, *comma);
        }
        Expr::Prefix(_, op, e) => {
            put_sign(from, out, step_sign(*op));
            put_expr(from, out, e);
        }
        Expr::Unary(_, op, e) => {
            put_sign(from, out, unary_sign(*op));
            put_expr(from, out, e);
        }
        Expr::SizeofExpr(_, e) => {
            put_word(from, out, Keyword::Sizeof);
            put_expr(from, out, e);
        }
        Expr::SizeofType(_, t) => {
            put_word(from, out, Keyword::Sizeof);
            put_type(from, out, t);
        }
        Expr::AlignofType(_, t) => {
            put_word(from, out, Keyword::Alignof);
            put_type(from, out, t);
        }
        Expr::Cast(_, t, e) => {
            put_type(from, out, t);
            put_expr(from, out, e);
        }
        Expr::Binary(_, op, l, r) => {
            put_expr(from, out, l);
            put_sign(from, out, binary_sign(*op));
            put_expr(from, out, r);
        }
        Expr::Logical(_, op, l, r) => {
            put_expr(from, out, l);
            put_sign(from, out, logical_sign(*op));
            put_expr(from, out, r);
        }
        Expr::Conditional(_, c, a, b) => {
            put_expr(from, out, c);
            put_sign(from, out, Punctuator::Question);
            put_expr(from, out, a);
            put_sign(from, out, Punctuator::Colon);
            put_expr(from, out, b);
        }
        Expr::Assign(_, op, l, r) => {
            put_expr(from, out, l);
            put_assign(from, out, *op);
            put_expr(from, out, r);
        }
        Expr::Comma(_, l, r) => {
            put_expr(from, out, l);
            put_sign(from, out, Punctuator::Comma);
            put_expr(from, out, r);
        }
    }
}

/// Puts an expression in parentheses.
#[cycle(spelling)]
#[tactic(auto, using(crate::proofs::AddedLemmas::adds_more, crate::proofs::AddedLemmas::adds_next))]
pub fn put_in_parens(from: &Texts, out: &mut TokenSink, x: &Expr)
    ensures { Adds from.now.names.now out.old out.new (in_parens (spell_expr (expr_of x.now))) }
{
    put_sign(from, out, Punctuator::LeftParen);
    put_expr(from, out, x);
    put_sign(from, out, Punctuator::RightParen);
}

/// Puts an expression in brackets.
#[cycle(spelling)]
#[tactic(auto, using(crate::proofs::AddedLemmas::adds_more, crate::proofs::AddedLemmas::adds_next))]
pub fn put_in_brackets(from: &Texts, out: &mut TokenSink, x: &Expr)
    ensures { Adds from.now.names.now out.old out.new (in_brackets (spell_expr (expr_of x.now))) }
{
    put_sign(from, out, Punctuator::LeftBracket);
    put_expr(from, out, x);
    put_sign(from, out, Punctuator::RightBracket);
}

/// Puts the arguments of a call in their parentheses.
#[cycle(spelling)]
#[tactic(auto, using(crate::proofs::AddedLemmas::adds_more, crate::proofs::AddedLemmas::adds_next))]
pub fn put_arguments(from: &Texts, out: &mut TokenSink, xs: &[Expr])
    ensures { Adds from.now.names.now out.old out.new (in_parens (with_commas (spell_exprs (exprs_of xs.now)))) }
{
    put_sign(from, out, Punctuator::LeftParen);
    put_exprs(from, out, xs);
    put_sign(from, out, Punctuator::RightParen);
}

/// Puts a type name in parentheses.
#[cycle(spelling)]
#[tactic(auto, using(crate::proofs::AddedLemmas::adds_more, crate::proofs::AddedLemmas::adds_next))]
pub fn put_type(from: &Texts, out: &mut TokenSink, x: &TypeName)
    ensures { Adds from.now.names.now out.old out.new (in_parens (spell_specifiers (specifiers_of x.now.specifiers.items) ++ spell_declarator (declarator_of x.now.declarator))) }
{
    put_sign(from, out, Punctuator::LeftParen);
    put_specifiers(from, out, &x.specifiers);
    put_declarator(from, out, &x.declarator);
    put_sign(from, out, Punctuator::RightParen);
}

/// Puts a specifier.
#[cycle(spelling)]
#[tactic(auto, using(crate::proofs::AddedLemmas::adds_more, crate::proofs::AddedLemmas::adds_next, c_tree::proofs::Views::at_struct, c_tree::proofs::Views::at_enum))]
pub fn put_specifier(from: &Texts, out: &mut TokenSink, x: &Specifier)
    ensures { Adds from.now.names.now out.old out.new (spell_specifier (specifier_of x.now)) }
{
    match x {
        Specifier::Storage(_, w) => put_word(from, out, storage_word(*w)),
        Specifier::Basic(_, w) => put_word(from, out, basic_word(*w)),
        Specifier::Qualifier(_, w) => put_word(from, out, qualifier_word(*w)),
        Specifier::Function(_, w) => put_word(from, out, function_word(*w)),
        Specifier::TypedefName(_, n) => put_name(from, out, *n),
        Specifier::Tag(_, kind, tag) => {
            put_word(from, out, tag_word(*kind));
            put_name(from, out, *tag);
        }
        Specifier::Members(_, kind, tag, members) => {
            put_word(from, out, struct_word(*kind));
            put_tag(from, out, tag);
            put_braced_members(from, out, members);
        }
        Specifier::Enumerators(_, tag, es, comma) => {
            put_word(from, out, Keyword::Enum);
            put_tag(from, out, tag);
            put_braced_enumerators(from, out, es, *comma);
        }
    }
}

/// Puts the members of a structure or union in their braces.
#[cycle(spelling)]
#[tactic(auto, using(crate::proofs::AddedLemmas::adds_more, crate::proofs::AddedLemmas::adds_next))]
pub fn put_braced_members(from: &Texts, out: &mut TokenSink, xs: &[MemberDeclaration])
    ensures { Adds from.now.names.now out.old out.new (in_braces (spell_members (members_of xs.now))) }
{
    put_sign(from, out, Punctuator::LeftBrace);
    put_members(from, out, xs);
    put_sign(from, out, Punctuator::RightBrace);
}

/// Puts enumerators in their braces, with the last comma where there is one.
#[cycle(spelling)]
#[tactic(auto, using(crate::proofs::AddedLemmas::adds_more, crate::proofs::AddedLemmas::adds_next))]
pub fn put_braced_enumerators(from: &Texts, out: &mut TokenSink, xs: &[Enumerator], comma: bool)
    ensures { Adds from.now.names.now out.old out.new (in_braces (with_commas (spell_enumerators (enumerators_of xs.now)) ++ last_comma comma)) }
{
    put_sign(from, out, Punctuator::LeftBrace);
    put_enumerators(from, out, xs);
    put_comma_if(from, out, comma);
    put_sign(from, out, Punctuator::RightBrace);
}

/// Puts a declaration among members (C11 6.7.2.1).
#[cycle(spelling)]
#[tactic(auto, using(crate::proofs::AddedLemmas::adds_more, crate::proofs::AddedLemmas::adds_next, c_tree::proofs::Views::at_member))]
pub fn put_member(from: &Texts, out: &mut TokenSink, x: &MemberDeclaration)
    ensures { Adds from.now.names.now out.old out.new (spell_member (member_of x.now)) }
{
    match x {
        MemberDeclaration::Members(ss, ds) => {
            put_specifiers(from, out, ss);
            put_member_declarators(from, out, ds);
            put_sign(from, out, Punctuator::Semicolon);
        }
        MemberDeclaration::StaticAssert(a) => put_assertion(from, out, a),
    }
}

/// Puts a static assertion (C11 6.7.10).
#[cycle(spelling)]
#[tactic(auto, using(crate::proofs::AddedLemmas::adds_more, crate::proofs::AddedLemmas::adds_next, crate::proofs::AddedLemmas::adds_parens))]
pub fn put_assertion(from: &Texts, out: &mut TokenSink, x: &StaticAssert)
    ensures { Adds from.now.names.now out.old out.new (spell_assert (spell_expr (expr_of x.now.condition.value)) x.now.message.items) }
{
    put_word(from, out, Keyword::StaticAssert);
    put_asserted(from, out, x);
    put_sign(from, out, Punctuator::Semicolon);
}

/// Puts what a static assertion has in its parentheses, and these.
#[cycle(spelling)]
#[tactic(auto, using(crate::proofs::AddedLemmas::adds_more, crate::proofs::AddedLemmas::adds_next))]
pub fn put_asserted(from: &Texts, out: &mut TokenSink, x: &StaticAssert)
    ensures { Adds from.now.names.now out.old out.new (in_parens (spell_expr (expr_of x.now.condition.value) ++ (sign CommaSign ∷ spell_literals x.now.message.items))) }
{
    put_sign(from, out, Punctuator::LeftParen);
    put_expr(from, out, &x.condition);
    put_sign(from, out, Punctuator::Comma);
    put_literals(from, out, &x.message);
    put_sign(from, out, Punctuator::RightParen);
}

/// Puts a member's declarator.
#[cycle(spelling)]
#[tactic(auto, using(crate::proofs::AddedLemmas::adds_more, crate::proofs::AddedLemmas::adds_next))]
pub fn put_member_declarator(from: &Texts, out: &mut TokenSink, x: &MemberDeclarator)
    ensures { Adds from.now.names.now out.old out.new (spell_member_declarator (member_declarator_of x.now)) }
{
    match x {
        MemberDeclarator::Plain(d) => put_declarator(from, out, d),
        MemberDeclarator::BitField(d, width) => {
            put_declarator(from, out, d);
            put_sign(from, out, Punctuator::Colon);
            put_expr(from, out, width);
        }
    }
}

/// Puts an enumerator.
#[cycle(spelling)]
#[tactic(auto, using(crate::proofs::AddedLemmas::adds_more, crate::proofs::AddedLemmas::adds_next))]
pub fn put_enumerator(from: &Texts, out: &mut TokenSink, x: &Enumerator)
    ensures { Adds from.now.names.now out.old out.new (spell_enumerator (enumerator_of x.now)) }
{
    put_name(from, out, x.name);
    put_value(from, out, &x.value);
}

/// Puts `=` and an enumerator's value, where it has one.
#[cycle(spelling)]
#[tactic(auto, using(crate::proofs::AddedLemmas::adds_more, crate::proofs::AddedLemmas::adds_next, crate::proofs::AddedLemmas::adds_none))]
pub fn put_value(from: &Texts, out: &mut TokenSink, x: &Option<Box<Expr>>)
    ensures { Adds from.now.names.now out.old out.new (spell_value (maybe_of x.now)) }
{
    match x {
        None => {}
        Some(e) => {
            put_sign(from, out, Punctuator::Equal);
            put_expr(from, out, e);
        }
    }
}

/// Puts a declarator.
#[cycle(spelling)]
#[tactic(auto, using(crate::proofs::AddedLemmas::adds_more, crate::proofs::AddedLemmas::adds_next, crate::proofs::AddedLemmas::adds_none, c_tree::proofs::Views::at_function))]
pub fn put_declarator(from: &Texts, out: &mut TokenSink, x: &Declarator)
    ensures { Adds from.now.names.now out.old out.new (spell_declarator (declarator_of x.now)) }
{
    match x {
        Declarator::Name(_, n) => put_name(from, out, *n),
        Declarator::Absent(_) => {}
        Declarator::Parentheses(_, d) => {
            put_sign(from, out, Punctuator::LeftParen);
            put_declarator(from, out, d);
            put_sign(from, out, Punctuator::RightParen);
        }
        Declarator::Pointer(_, qs, d) => {
            put_sign(from, out, Punctuator::Star);
            put_qualifiers(from, out, qs);
            put_declarator(from, out, d);
        }
        Declarator::Array(_, d, b) => {
            put_declarator(from, out, d);
            put_bound(from, out, b);
        }
        Declarator::Function(_, d, ps, variadic) => {
            put_declarator(from, out, d);
            put_prototype(from, out, ps, *variadic);
        }
        Declarator::Identifiers(_, d, names) => {
            put_declarator(from, out, d);
            put_identifiers(from, out, names);
        }
    }
}

/// Puts the bound of an array in its brackets.
#[cycle(spelling)]
#[tactic(auto, using(crate::proofs::AddedLemmas::adds_more, crate::proofs::AddedLemmas::adds_next))]
pub fn put_bound(from: &Texts, out: &mut TokenSink, x: &ArrayBound)
    ensures { Adds from.now.names.now out.old out.new (in_brackets (spell_bound (bound_of x.now))) }
{
    put_sign(from, out, Punctuator::LeftBracket);
    put_size(from, out, x);
    put_sign(from, out, Punctuator::RightBracket);
}

/// Puts the bound of an array without its brackets.
#[cycle(spelling)]
#[tactic(auto, using(crate::proofs::AddedLemmas::adds_more, crate::proofs::AddedLemmas::adds_next))]
pub fn put_size(from: &Texts, out: &mut TokenSink, x: &ArrayBound)
    ensures { Adds from.now.names.now out.old out.new (spell_bound (bound_of x.now)) }
{
    match x {
        ArrayBound::Unspecified(_, qs) => put_qualifiers(from, out, qs),
        ArrayBound::Star(_, qs) => {
            put_qualifiers(from, out, qs);
            put_sign(from, out, Punctuator::Star);
        }
        ArrayBound::Size(_, qs, e) => {
            put_qualifiers(from, out, qs);
            put_expr(from, out, e);
        }
        ArrayBound::StaticSize(_, qs, e) => {
            put_word(from, out, Keyword::Static);
            put_qualifiers(from, out, qs);
            put_expr(from, out, e);
        }
        ArrayBound::SizeStatic(_, qs, e) => {
            put_qualifiers(from, out, qs);
            put_word(from, out, Keyword::Static);
            put_expr(from, out, e);
        }
    }
}

/// Puts a parameter list in its parentheses.
#[cycle(spelling)]
#[tactic(auto, using(crate::proofs::AddedLemmas::adds_more, crate::proofs::AddedLemmas::adds_next))]
pub fn put_prototype(from: &Texts, out: &mut TokenSink, xs: &[Parameter], variadic: bool)
    ensures { Adds from.now.names.now out.old out.new (in_parens (with_commas (spell_parameters (parameters_of xs.now)) ++ spell_ellipsis variadic)) }
{
    put_sign(from, out, Punctuator::LeftParen);
    put_parameters(from, out, xs);
    put_ellipsis_if(from, out, variadic);
    put_sign(from, out, Punctuator::RightParen);
}

/// Puts a parameter.
#[cycle(spelling)]
#[tactic(auto, using(crate::proofs::AddedLemmas::adds_more, crate::proofs::AddedLemmas::adds_next))]
pub fn put_parameter(from: &Texts, out: &mut TokenSink, x: &Parameter)
    ensures { Adds from.now.names.now out.old out.new (spell_parameter (parameter_of x.now)) }
{
    put_specifiers(from, out, &x.specifiers);
    put_declarator(from, out, &x.declarator);
}

/// Puts an initialiser.
#[cycle(spelling)]
#[tactic(auto, using(crate::proofs::AddedLemmas::adds_more, crate::proofs::AddedLemmas::adds_next, c_tree::proofs::Views::at_braces))]
pub fn put_init(from: &Texts, out: &mut TokenSink, x: &Init)
    ensures { Adds from.now.names.now out.old out.new (spell_init (init_of x.now)) }
{
    match x {
        Init::Expr(e) => put_expr(from, out, e),
        Init::Braces(_, items, comma) => put_braced_items(from, out, items, *comma),
    }
}

/// Puts initialisers in their braces, with the last comma where there is one.
#[cycle(spelling)]
#[tactic(auto, using(crate::proofs::AddedLemmas::adds_more, crate::proofs::AddedLemmas::adds_next))]
pub fn put_braced_items(from: &Texts, out: &mut TokenSink, xs: &[InitItem], comma: bool)
    ensures { Adds from.now.names.now out.old out.new (in_braces (with_commas (spell_items (items_of xs.now)) ++ last_comma comma)) }
{
    put_sign(from, out, Punctuator::LeftBrace);
    put_items(from, out, xs);
    put_comma_if(from, out, comma);
    put_sign(from, out, Punctuator::RightBrace);
}

/// Puts an initialiser with its designators.
#[cycle(spelling)]
#[tactic(auto, using(crate::proofs::AddedLemmas::adds_more, crate::proofs::AddedLemmas::adds_next))]
pub fn put_item(from: &Texts, out: &mut TokenSink, x: &InitItem)
    ensures { Adds from.now.names.now out.old out.new (spell_item (item_of x.now)) }
{
    put_designation(from, out, &x.designators);
    put_init(from, out, &x.init);
}

/// Puts a designator.
#[cycle(spelling)]
#[tactic(auto, using(crate::proofs::AddedLemmas::adds_more, crate::proofs::AddedLemmas::adds_next))]
pub fn put_designator(from: &Texts, out: &mut TokenSink, x: &Designator)
    ensures { Adds from.now.names.now out.old out.new (spell_designator (designator_of x.now)) }
{
    match x {
        Designator::Index(_, e) => put_in_brackets(from, out, e),
        Designator::Member(_, n) => {
            put_sign(from, out, Punctuator::Dot);
            put_name(from, out, *n);
        }
    }
}

/// Puts designators and `=`, where there are any.
#[cycle(spelling)]
#[tactic(auto, using(crate::proofs::AddedLists::no_designation, crate::proofs::AddedLists::some_designation))]
pub fn put_designation(from: &Texts, out: &mut TokenSink, xs: &[Designator])
    ensures { Adds from.now.names.now out.old out.new (spell_designation (designators_of xs.now)) }
{
    if xs.is_empty() {
        return;
    }
    put_designators(from, out, xs);
    put_sign(from, out, Punctuator::Equal);
}

/// Puts designators.
#[cycle(spelling)]
#[tactic(auto, using(crate::proofs::AddedLemmas::added_start, crate::proofs::AddedLemmas::added_step, crate::proofs::AddedLemmas::added_end))]
pub fn put_designators(from: &Texts, out: &mut TokenSink, xs: &[Designator])
    ensures { Adds from.now.names.now out.old out.new (flat_of (λ d. spell_designator (designator_of d)) xs.now) }
{
    for x in xs {
        put_designator(from, out, x);
    }
}

/// Puts specifiers.
#[cycle(spelling)]
#[tactic(auto, using(crate::proofs::AddedLemmas::added_start, crate::proofs::AddedLemmas::added_step, crate::proofs::AddedLists::specifiers_end))]
pub fn put_specifiers(from: &Texts, out: &mut TokenSink, xs: &[Specifier])
    ensures { Adds from.now.names.now out.old out.new (spell_specifiers (specifiers_of xs.now)) }
{
    for x in xs {
        put_specifier(from, out, x);
    }
}

/// Puts the declarations among members.
#[cycle(spelling)]
#[tactic(auto, using(crate::proofs::AddedLemmas::added_start, crate::proofs::AddedLemmas::added_step, crate::proofs::AddedLists::members_end))]
pub fn put_members(from: &Texts, out: &mut TokenSink, xs: &[MemberDeclaration])
    ensures { Adds from.now.names.now out.old out.new (spell_members (members_of xs.now)) }
{
    for x in xs {
        put_member(from, out, x);
    }
}

/// Puts expressions with commas between them.
#[cycle(spelling)]
#[tactic(auto, using(crate::proofs::AddedLemmas::commas_start, crate::proofs::AddedLemmas::commas_step, crate::proofs::AddedLists::exprs_end))]
pub fn put_exprs(from: &Texts, out: &mut TokenSink, xs: &[Expr])
    ensures { Adds from.now.names.now out.old out.new (with_commas (spell_exprs (exprs_of xs.now))) }
{
    let mut is_more = false;
    for x in xs {
        put_comma_if(from, out, is_more);
        put_expr(from, out, x);
        is_more = true;
    }
}

/// Puts members' declarators with commas between them.
#[cycle(spelling)]
#[tactic(auto, using(crate::proofs::AddedLemmas::commas_start, crate::proofs::AddedLemmas::commas_step, crate::proofs::AddedLists::member_declarators_end))]
pub fn put_member_declarators(from: &Texts, out: &mut TokenSink, xs: &[MemberDeclarator])
    ensures { Adds from.now.names.now out.old out.new (with_commas (spell_member_declarators (member_declarators_of xs.now))) }
{
    let mut is_more = false;
    for x in xs {
        put_comma_if(from, out, is_more);
        put_member_declarator(from, out, x);
        is_more = true;
    }
}

/// Puts enumerators with commas between them.
#[cycle(spelling)]
#[tactic(auto, using(crate::proofs::AddedLemmas::commas_start, crate::proofs::AddedLemmas::commas_step, crate::proofs::AddedLists::enumerators_end))]
pub fn put_enumerators(from: &Texts, out: &mut TokenSink, xs: &[Enumerator])
    ensures { Adds from.now.names.now out.old out.new (with_commas (spell_enumerators (enumerators_of xs.now))) }
{
    let mut is_more = false;
    for x in xs {
        put_comma_if(from, out, is_more);
        put_enumerator(from, out, x);
        is_more = true;
    }
}

/// Puts parameters with commas between them.
#[cycle(spelling)]
#[tactic(auto, using(crate::proofs::AddedLemmas::commas_start, crate::proofs::AddedLemmas::commas_step, crate::proofs::AddedLists::parameters_end))]
pub fn put_parameters(from: &Texts, out: &mut TokenSink, xs: &[Parameter])
    ensures { Adds from.now.names.now out.old out.new (with_commas (spell_parameters (parameters_of xs.now))) }
{
    let mut is_more = false;
    for x in xs {
        put_comma_if(from, out, is_more);
        put_parameter(from, out, x);
        is_more = true;
    }
}

/// Puts initialisers with commas between them.
#[cycle(spelling)]
#[tactic(auto, using(crate::proofs::AddedLemmas::commas_start, crate::proofs::AddedLemmas::commas_step, crate::proofs::AddedLists::items_end))]
pub fn put_items(from: &Texts, out: &mut TokenSink, xs: &[InitItem])
    ensures { Adds from.now.names.now out.old out.new (with_commas (spell_items (items_of xs.now))) }
{
    let mut is_more = false;
    for x in xs {
        put_comma_if(from, out, is_more);
        put_item(from, out, x);
        is_more = true;
    }
}
