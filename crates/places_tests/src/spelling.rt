use crate::units::ROWS;
use c_lexer::{Tokens, lex};
use c_parser::parse;
use c_speller::{SpelledToken, spell};
use cil_base::{NamePool, Stop, UnitNo};
use std::alloc::Global;
use std::test::Fail;

/// Whether tokens that are spelled are those of a file.
fn are_alike(spelled: &[SpelledToken], tokens: &Tokens<'_>) -> bool {
    if spelled.len() != tokens.count() as usize {
        return false;
    }
    for i in 0..tokens.count() {
        let one = &spelled[i as usize];
        if one.kind != tokens.token(i).kind || one.text.as_slice() != tokens.text(i) {
            return false;
        }
    }
    true
}

/// Whether the tree of a unit is spelled by the tokens that it was read from.
fn is_spelled_as_it_was_read(alloc: Global, source: &[u8]) -> Result<bool, Stop> {
    let mut names = NamePool::new(alloc);
    let file = names.intern(b"a.c")?;
    if source.len() > 4_194_304 {
        return Err(Stop::Memory);
    }
    let tokens = lex(alloc, source, UnitNo(0), file, &mut names)?;
    let tree = parse(alloc, &tokens)?;
    Ok(are_alike(&spell(alloc, &tree, &names)?, &tokens))
}

#[test]
fn a_unit_is_spelled_by_the_tokens_that_it_was_read_from(rt: HostRuntime) -> Result<(), Fail> {
    for row in &ROWS {
        assert_eq!(rt;
            (
                row.source,
                is_spelled_as_it_was_read(rt.alloc(), row.source.as_bytes())?
            ),
            (row.source, true)
        );
    }
    Ok(())
}
