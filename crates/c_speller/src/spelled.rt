ghost use Rattle.std.specs.Prelude.{◌≡◌, [], ◌∷◌, ◌++◌, OnOk, get_or, false};
ghost use Rattle.c_tree.specs.Spelling.{word, sign, named, integer, character, literal, last_comma, spell_tag, spell_assign, assign_sign as sign_of_assign, spell_ellipsis};
ghost use Rattle.c_speller.specs.Added.{Adds, AddsToken};

use crate::wording::assign_sign;
use cil_base::{BinOp, Bytes, Keyword, Memory, NameId, NamePool, Punctuator, TokenKind};
use std::alloc::Global;

/// A token of a spelling: its kind, and its text, which for a keyword or punctuator is the first spelling.
#[derive(Drop)]
pub struct SpelledToken {
    pub kind: TokenKind,
    pub text: Bytes,
}

/// Where the texts of tokens come from.
#[derive(Drop)]
pub struct Texts<'a> {
    pub alloc: Global,
    pub names: &'a NamePool,
}

/// The tokens that are put, one behind the other. Once memory was wanted, no token is put.
#[derive(Drop)]
pub struct TokenSink {
    pub tokens: Vec<SpelledToken>,
    pub has_failed: bool,
}

impl TokenSink {
    /// A sink without tokens.
    pub fn new(alloc: Global) -> Self
        ensures tokens { result.tokens.items ≡ [] }
        ensures goes_on { result.has_failed ≡ false }
    {
        TokenSink {
            tokens: Vec::new(alloc),
            has_failed: false,
        }
    }
}

/// Pushes a token with a copy of its text.
fn push_copy(
    alloc: Global,
    tokens: &mut Vec<SpelledToken>,
    kind: TokenKind,
    text: &[u8],
) -> Result<(), Memory>
    ensures { OnOk result (tokens.new.items ≡ tokens.old.items ++ record { kind = kind; text = text.now } ∷ []) }
{
    let text = text.to_vec(alloc)?;
    tokens.push(SpelledToken {
        kind,
        text: Bytes::new(text),
    })?;
    Ok(())
}

/// Puts a token behind others.
#[tactic(auto, using(crate::proofs::AddedLemmas::token_failed, crate::proofs::AddedLemmas::token_pushed))]
fn put(alloc: Global, out: &mut TokenSink, kind: TokenKind, text: &[u8])
    ensures { AddsToken out.old out.new kind text.now }
{
    if out.has_failed {
        return;
    }
    match push_copy(alloc, &mut out.tokens, kind, text) {
        Ok(()) => {}
        Err(_) => out.has_failed = true,
    }
}

/// Puts a punctuator.
#[tactic(auto, using(crate::proofs::AddedLemmas::adds_pushed))]
pub fn put_sign(from: &Texts, out: &mut TokenSink, p: Punctuator)
    ensures { Adds from.now.names.now out.old out.new (sign p ∷ []) }
{
    put(from.alloc, out, TokenKind::Punctuator(p), p.spelling());
}

/// Puts a keyword.
#[tactic(auto, using(crate::proofs::AddedLemmas::adds_pushed))]
pub fn put_word(from: &Texts, out: &mut TokenSink, k: Keyword)
    ensures { Adds from.now.names.now out.old out.new (word k ∷ []) }
{
    put(from.alloc, out, TokenKind::Keyword(k), k.spelling());
}

/// The text of a name, and no byte for a number that the pool does not have.
fn text_of_name<'a>(names: &'a NamePool, n: NameId) -> &'a [u8]
    ensures { result.now ≡ get_or names.now n.0 [] }
{
    if n.0 < names.len() {
        names.text(n)
    } else {
        b""
    }
}

/// Puts an identifier.
#[tactic(auto, using(crate::proofs::AddedLemmas::adds_pushed))]
pub fn put_name(from: &Texts, out: &mut TokenSink, n: NameId)
    ensures { Adds from.now.names.now out.old out.new (named n ∷ []) }
{
    put(
        from.alloc,
        out,
        TokenKind::Name(n),
        text_of_name(from.names, n),
    );
}

/// Puts an integer constant.
#[tactic(auto, using(crate::proofs::AddedLemmas::adds_pushed))]
pub fn put_integer(from: &Texts, out: &mut TokenSink, text: &Bytes)
    ensures { Adds from.now.names.now out.old out.new (integer text.now ∷ []) }
{
    put(from.alloc, out, TokenKind::Integer, text.as_slice());
}

/// Puts a character constant.
#[tactic(auto, using(crate::proofs::AddedLemmas::adds_pushed))]
pub fn put_character(from: &Texts, out: &mut TokenSink, text: &Bytes)
    ensures { Adds from.now.names.now out.old out.new (character text.now ∷ []) }
{
    put(from.alloc, out, TokenKind::Character, text.as_slice());
}

/// Puts a string literal.
#[tactic(auto, using(crate::proofs::AddedLemmas::adds_pushed))]
pub fn put_literal(from: &Texts, out: &mut TokenSink, text: &Bytes)
    ensures { Adds from.now.names.now out.old out.new (literal text.now ∷ []) }
{
    put(from.alloc, out, TokenKind::Literal, text.as_slice());
}

/// Puts a comma where one is asked for.
#[tactic(auto, using(crate::proofs::AddedLemmas::adds_none))]
pub fn put_comma_if(from: &Texts, out: &mut TokenSink, is_more: bool)
    ensures { Adds from.now.names.now out.old out.new (last_comma is_more) }
{
    if is_more {
        put_sign(from, out, Punctuator::Comma);
    }
}

/// Puts `, ...` where the parameters end so (C11 6.7.6.3).
#[tactic(auto, using(crate::proofs::AddedLemmas::adds_none, crate::proofs::AddedLemmas::adds_next))]
pub fn put_ellipsis_if(from: &Texts, out: &mut TokenSink, is_variadic: bool)
    ensures { Adds from.now.names.now out.old out.new (spell_ellipsis is_variadic) }
{
    if is_variadic {
        put_sign(from, out, Punctuator::Comma);
        put_sign(from, out, Punctuator::Ellipsis);
    }
}

/// Puts a tag, if there is one.
#[tactic(auto, using(crate::proofs::AddedLemmas::adds_none))]
pub fn put_tag(from: &Texts, out: &mut TokenSink, tag: &Option<NameId>)
    ensures { Adds from.now.names.now out.old out.new (spell_tag tag.now) }
{
    match tag {
        None => {}
        Some(n) => put_name(from, out, *n),
    }
}

/// Puts an assignment operator (C11 6.5.16); a comparison makes none.
#[tactic(auto, using(crate::proofs::AddedLemmas::adds_none))]
pub fn put_assign(from: &Texts, out: &mut TokenSink, op: Option<BinOp>)
    ensures { Adds from.now.names.now out.old out.new (spell_assign (sign_of_assign op)) }
{
    match assign_sign(op) {
        None => {}
        Some(p) => put_sign(from, out, p),
    }
}
