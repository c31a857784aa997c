use crate::units::ROWS;
use crate::walk::{Found, unit};
use c_lexer::lex;
use c_parser::parse;
use cil_base::{NamePool, Stop, UnitNo};
use std::alloc::Global;
use std::test::Fail;

/// The numbers of the nodes of a unit.
fn found(alloc: Global, source: &[u8]) -> Result<Found, Stop> {
    let mut names = NamePool::new(alloc);
    let file = names.intern(b"a.c")?;
    if source.len() > 4_194_304 {
        return Err(Stop::Memory);
    }
    let tokens = lex(alloc, source, UnitNo(0), file, &mut names)?;
    let tree = parse(alloc, &tokens)?;
    let mut found = Found::new(alloc);
    unit(&mut found, &tree);
    Ok(found)
}

#[test]
fn each_node_has_the_number_of_its_first_token(rt: HostRuntime) -> Result<(), Fail> {
    for row in &ROWS {
        let found = found(rt.alloc(), row.source.as_bytes())?;
        assert!(rt; found.has_all);
        assert_eq!(rt;
            (row.source, found.numbers.as_slice()),
            (row.source, row.numbers)
        );
    }
    Ok(())
}
