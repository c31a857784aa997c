use crate::spelled::{height_of_last, pool, told};
use c_levels::well_levelled;
use c_nodes::{
    Block, BlockItemNode, DeclarationSpecifiers, Declarations, ExprNode, ExternalNode, Externals,
    FullDeclarator, FullExpr, InnerStmt, SpecifierList, StmtNode, basic_of, binary_of, declared_of,
    identifier_of, integer_of, parentheses_of, unprototyped_of,
};
use c_tree::{BasicType, Unit};
use cil_base::{BinOp, Bytes, Memory, NameId};
use std::alloc::Global;
use std::test::Fail;

const F: NameId = NameId(0);

const A: NameId = NameId(1);

/// A number that the pool does not have.
const UNKNOWN: NameId = NameId(4);

/// Bodies of functions without parameters that no unit has.
#[derive(Clone, Copy)]
enum Body {
    /// `a - a - a ;`, grouped from the right.
    FromTheRight,
    /// `if ( a ) if ( a ) ; else ;`, where the else belongs to the outer if.
    OuterElse,
    /// An expression whose name is not in the pool.
    Unknown,
}

/// Each body, whether its unit is levelled, its height, and its tokens, which end with a blank.
fn rows() -> &'static [(Body, bool, u32, &'static str)] {
    &[
        (Body::FromTheRight, false, 6, "int f ( ) { a - a - a ; } "),
        (
            Body::OuterElse,
            false,
            5,
            "int f ( ) { if ( a ) if ( a ) ; else ; } ",
        ),
        (Body::Unknown, true, 4, "int f ( ) {  ; } "),
    ]
}

/// `e` as a full expression.
fn full(e: ExprNode) -> FullExpr {
    FullExpr::of(e.into_tree())
}

/// `a`
fn name(alloc: Global) -> Result<ExprNode, Memory> {
    identifier_of(alloc, 0, A)
}

/// `a - r`
fn less(alloc: Global, r: ExprNode) -> Result<ExprNode, Memory> {
    let l = name(alloc)?;
    binary_of(alloc, 0, BinOp::Sub, l, r)
}

/// `a - a - a ;`, grouped from the right
fn from_the_right(alloc: Global) -> Result<StmtNode, Memory> {
    let e = less(alloc, less(alloc, name(alloc)?)?)?;
    Ok(StmtNode::expr(0, Some(full(e))))
}

/// `;`
fn nothing(alloc: Global) -> Result<InnerStmt, Memory> {
    InnerStmt::of(alloc, StmtNode::expr(0, None))
}

/// `if ( a ) ;`
fn branch(alloc: Global) -> Result<InnerStmt, Memory> {
    let body = nothing(alloc)?;
    let condition = full(name(alloc)?);
    InnerStmt::of(alloc, StmtNode::if_only(0, condition, body))
}

/// `if ( a ) if ( a ) ; else ;`, where the else belongs to the outer if
fn outer_else(alloc: Global) -> Result<StmtNode, Memory> {
    let yes = branch(alloc)?;
    let no = nothing(alloc)?;
    let condition = full(name(alloc)?);
    Ok(StmtNode::if_else(0, condition, yes, no))
}

/// An expression whose name is not in the pool
fn unknown(alloc: Global) -> Result<StmtNode, Memory> {
    let e = identifier_of(alloc, 0, UNKNOWN)?;
    Ok(StmtNode::expr(0, Some(full(e))))
}

fn statement_of(alloc: Global, body: Body) -> Result<StmtNode, Memory> {
    match body {
        Body::FromTheRight => from_the_right(alloc),
        Body::OuterElse => outer_else(alloc),
        Body::Unknown => unknown(alloc),
    }
}

/// `f ( )`
fn function(alloc: Global) -> Result<FullDeclarator, Memory> {
    let f = declared_of(alloc, 0, F)?;
    let f = unprototyped_of(alloc, 0, f, Vec::new(alloc))?;
    Ok(FullDeclarator::of(f.into_tree()))
}

/// `int`
fn int(alloc: Global) -> Result<DeclarationSpecifiers, Memory> {
    let mut list = SpecifierList::new(alloc);
    list.push(basic_of(0, BasicType::Int))?;
    Ok(DeclarationSpecifiers::of(list.into_vec()))
}

/// `{ s }`
fn block(alloc: Global, s: StmtNode) -> Result<Block, Memory> {
    let mut items = Block::new(alloc);
    items.push(BlockItemNode::statement(s))?;
    Ok(items)
}

/// `int f ( ) { items }`
fn definition(alloc: Global, items: Block) -> Result<ExternalNode, Memory> {
    let specifiers = int(alloc)?;
    let declarator = function(alloc)?;
    let none = Declarations::new(alloc);
    Ok(ExternalNode::definition(0, specifiers, declarator, none, 0, items))
}

/// `int f ( ) { s }`
fn unit(alloc: Global, s: StmtNode) -> Result<Unit, Memory> {
    let mut list = Externals::new(alloc);
    list.push(definition(alloc, block(alloc, s)?)?)?;
    Ok(list.into_unit())
}

#[test]
fn trees_that_no_unit_has_are_spelled_measured_and_tested(rt: HostRuntime) -> Result<(), Fail> {
    let names = pool(rt.alloc())?;
    for (body, levelled, height, text) in rows() {
        let u = unit(rt.alloc(), statement_of(rt.alloc(), *body)?)?;
        assert_eq!(rt;
            told(rt.alloc(), &u, &names, text)?,
            (*levelled, *height, true)
        );
    }
    Ok(())
}

#[test]
fn a_unit_has_an_external_declaration(rt: HostRuntime) -> Result<(), Fail> {
    let u = Externals::new(rt.alloc()).into_unit();
    assert!(rt; !well_levelled(&u));
    Ok(())
}

/// `0`
fn zero(alloc: Global) -> Result<ExprNode, Memory> {
    let text = b"0".to_vec(alloc)?;
    integer_of(alloc, 0, Bytes::new(text))
}

/// `int f ( ) { return 0 ; }`, where the constant stands in pairs of parentheses.
fn nested(alloc: Global, pairs: u32) -> Result<Unit, Memory> {
    let mut e = zero(alloc)?;
    for _ in 0..pairs {
        e = parentheses_of(alloc, 0, e)?;
    }
    unit(alloc, StmtNode::return_of(0, Some(full(e))))
}

#[test]
fn each_pair_of_parentheses_counts(rt: HostRuntime) -> Result<(), Fail> {
    for (pairs, height) in [(0, 4), (508, 512), (509, 513)] {
        let u = nested(rt.alloc(), pairs)?;
        assert_eq!(rt; height_of_last(&u), height);
    }
    Ok(())
}
