ghost use Rattle.c_tree.specs.View.{specifiers_of, declarator_of, items_of};
ghost use Rattle.c_cursor.specs.Lexemes.{Onward, ahead};
ghost use Rattle.c_cursor.specs.Given.{Gives};
ghost use Rattle.c_exprs.specs.Reading.{below};
ghost use Rattle.c_exprs.specs.ExprReading.{type_name_closed, braced};

use crate::below::{declarator_below, items_below, specifiers_below};
use crate::goes_on::goes_on_type_name;
use crate::told::has_type_specifier;
use crate::words::{DeclaratorForm, SpecifierForm};
use c_cursor::{Cursor, ParseStop, take_sign};
use c_lexer::TokenList;
use c_nodes::{ItemList, TypeNameNode, type_name_of};
use c_tree::TypeName;
use cil_base::Punctuator;
use std::alloc::Global;
use typedef_scopes::Scopes;

/// `( type-name )` behind its `(`: specifiers and an abstract declarator (C11 6.7.7).
#[cycle(reading)]
pub(crate) fn type_name_closed<L: TokenList>(
    alloc: Global,
    c: &mut Cursor<L>,
    s: &mut Scopes,
    height: u32,
) -> Result<TypeNameNode, ParseStop>
    ensures gives { Gives (λ x. ((specifiers_of x.specifiers.items, declarator_of x.declarator), s.new)) result (type_name_closed (below height) s.old (ahead c.old)) (ahead c.new) }
    ensures onward { Onward c.old c.new }
{
    let specifiers = specifiers_below(alloc, c, s, height, SpecifierForm::TypeName)?;
    let declarator = declarator_below(alloc, c, s, height, DeclaratorForm::Abstract)?;
    if goes_on_type_name(c, has_type_specifier(specifiers.as_slice()), s) {
        return Err(ParseStop::At(c.position()));
    }
    take_sign(c, Punctuator::RightParen)?;
    Ok(type_name_of(alloc, specifiers, declarator)?)
}

/// `{ items }`, and whether a comma stands behind the last item.
#[cycle(reading)]
pub(crate) fn braced<L: TokenList>(
    alloc: Global,
    c: &mut Cursor<L>,
    s: &mut Scopes,
    height: u32,
) -> Result<(ItemList, bool), ParseStop>
    ensures gives { Gives (λ x. ((items_of x.0, x.1), s.new)) result (braced (below height) s.old (ahead c.old)) (ahead c.new) }
    ensures onward { Onward c.old c.new }
{
    take_sign(c, Punctuator::LeftBrace)?;
    let (items, comma) = items_below(alloc, c, s, height)?;
    take_sign(c, Punctuator::RightBrace)?;
    Ok((items, comma))
}
