use crate::equal::equal;
use cil_base::{Abi, AggId, IntKind, NameId, TypeId};
use layout_lp64::LayoutStop;
use std::alloc::Global;
use std::process::Abort;
use type_graph::{AggKind, Member, Members, QualType, Quals, unqualified};
use unit_types::{Types, members_fit};

const CONST: Quals = Quals {
    constant: true,
    restricted: false,
};

/// A type with `const` or without.
fn qualified(of: TypeId, constant: bool) -> QualType {
    QualType {
        quals: Quals {
            constant,
            restricted: false,
        },
        of,
    }
}

/// A type without qualifiers.
fn plain(of: TypeId) -> QualType {
    qualified(of, false)
}

/// Members of these types.
fn members_of(alloc: Global, parts: &[TypeId]) -> Result<Members, LayoutStop> {
    let mut members = Vec::new(alloc);
    for t in parts {
        if members
            .push(Member::named(NameId(t.0), plain(*t), 0))
            .is_err()
        {
            return Err(LayoutStop::Memory);
        }
    }
    Ok(Members::new(members))
}

/// Adds a complete struct or union with members of these types, and its type.
fn add_aggregate(
    alloc: Global,
    types: &mut Types,
    kind: AggKind,
    parts: &[TypeId],
) -> Result<TypeId, LayoutStop> {
    let a = types.add_agg(kind, None)?;
    let members = members_of(alloc, parts)?;
    types.complete(a, members)?;
    types.aggregate(a)
}

/// An incomplete struct, and its type.
fn add_open(types: &mut Types) -> Result<(AggId, TypeId), LayoutStop> {
    let a = types.add_agg(AggKind::Struct, None)?;
    let t = types.aggregate(a)?;
    Ok((a, t))
}

/// The size, the alignment and the offsets of the first three members, as far as they are there.
fn figures(types: &Types, t: TypeId) -> (Option<u32>, Option<u32>, [Option<u32>; 3]) {
    let offsets = [types.offset(t, 0), types.offset(t, 1), types.offset(t, 2)];
    (types.size(t), types.align(t), offsets)
}

/// `char`, `short`, `int` and `long`.
fn integers(types: &mut Types) -> Result<[TypeId; 4], LayoutStop> {
    let char = types.int(IntKind::Char)?;
    let short = types.int(IntKind::Short)?;
    let int = types.int(IntKind::Int)?;
    let long = types.int(IntKind::Long)?;
    Ok([char, short, int, long])
}

/// Each row holds a type, its size, its alignment and the offsets of its first three members.
fn are_laid_out(rt: &impl Abort, types: &Types, rows: &[(TypeId, u32, u32, [Option<u32>; 3])]) {
    for (t, size, align, offsets) in rows {
        let wanted = (Some(*size), Some(*align), *offsets);
        equal(rt, t, &figures(types, *t), &wanted);
    }
}

/// An array without qualifiers, and a pointer; the figures are those that gcc gives on x86-64 too.
fn scalars_and_arrays_are_laid_out(rt: &impl Abort, types: &mut Types) -> Result<(), LayoutStop> {
    let [char, _, _, long] = integers(types)?;
    let most = types.array(plain(char), Some(2147483647))?;
    let pointer = types.pointer(plain(long))?;
    let rows = [
        (most, 2147483647, 1, [None, None, None]),
        (pointer, 8, 8, [None, None, None]),
    ];
    are_laid_out(rt, types, &rows);
    Ok(())
}

/// `struct { char c; int i; short s; }`, `struct { char c; long l; char a[3]; }` and `union { int i; char a[5]; }`; the figures
/// are those that gcc gives on x86-64 too.
fn flat_types_are_laid_out(
    rt: &impl Abort,
    alloc: Global,
    types: &mut Types,
) -> Result<(), LayoutStop> {
    let [char, short, int, long] = integers(types)?;
    let three = types.array(plain(char), Some(3))?;
    let five = types.array(plain(char), Some(5))?;
    let first = add_aggregate(alloc, types, AggKind::Struct, &[char, int, short])?;
    let second = add_aggregate(alloc, types, AggKind::Struct, &[char, long, three])?;
    let third = add_aggregate(alloc, types, AggKind::Union, &[int, five])?;
    let rows = [
        (first, 12, 4, [Some(0), Some(4), Some(8)]),
        (second, 24, 8, [Some(0), Some(8), Some(16)]),
        (third, 8, 4, [Some(0), Some(0), None]),
    ];
    are_laid_out(rt, types, &rows);
    Ok(())
}

/// `struct outer { short s; struct inner { char c; long *p; } i; }`; the figures are those that gcc gives on x86-64 too.
fn nested_types_are_laid_out(
    rt: &impl Abort,
    alloc: Global,
    types: &mut Types,
) -> Result<(), LayoutStop> {
    let [char, short, _, long] = integers(types)?;
    let pointer = types.pointer(plain(long))?;
    let inner = add_aggregate(alloc, types, AggKind::Struct, &[char, pointer])?;
    let fourth = add_aggregate(alloc, types, AggKind::Struct, &[short, inner])?;
    let rows = [
        (inner, 16, 8, [Some(0), Some(8), None]),
        (fourth, 24, 8, [Some(0), Some(8), None]),
    ];
    are_laid_out(rt, types, &rows);
    Ok(())
}

/// Completes a struct with members of these types.
fn complete(
    alloc: Global,
    types: &mut Types,
    a: AggId,
    parts: &[TypeId],
) -> Result<(), LayoutStop> {
    let members = members_of(alloc, parts)?;
    types.complete(a, members)
}

/// `struct list { struct list *next; long value; }`.
fn a_struct_is_completed_behind_a_pointer_to_it(
    rt: &impl Abort,
    alloc: Global,
    types: &mut Types,
) -> Result<(), LayoutStop> {
    let long = types.int(IntKind::Long)?;
    let (a, list) = add_open(types)?;
    let next = types.pointer(plain(list))?;
    equal(rt, &list, &figures(types, list), &(None, None, [None; 3]));
    complete(alloc, types, a, &[next, long])?;
    are_laid_out(rt, types, &[(list, 16, 8, [Some(0), Some(8), None])]);
    Ok(())
}

/// `struct outer; struct inner { struct outer *up; int n; }; struct outer { struct inner a, b; };`.
fn structs_are_completed_behind_pointers_to_them(
    rt: &impl Abort,
    alloc: Global,
    types: &mut Types,
) -> Result<(), LayoutStop> {
    let int = types.int(IntKind::Int)?;
    let (b, outer) = add_open(types)?;
    let up = types.pointer(plain(outer))?;
    let inner = add_aggregate(alloc, types, AggKind::Struct, &[up, int])?;
    complete(alloc, types, b, &[inner, inner])?;
    let rows = [
        (inner, 16, 8, [Some(0), Some(8), None]),
        (outer, 32, 8, [Some(0), Some(16), None]),
    ];
    are_laid_out(rt, types, &rows);
    Ok(())
}

/// Each row holds the types of a struct's two members, its size, and the offset of the second.
fn pairs_are_laid_out(
    rt: &impl Abort,
    alloc: Global,
    types: &mut Types,
    rows: &[([TypeId; 2], u32, u32)],
) -> Result<(), LayoutStop> {
    for (parts, size, offset) in rows {
        let t = add_aggregate(alloc, types, AggKind::Struct, parts)?;
        are_laid_out(
            rt,
            types,
            &[(t, *size, *size, [Some(0), Some(*offset), None])],
        );
    }
    Ok(())
}

/// A flexible array takes no room, and its alignment counts; the figures are those that gcc gives on x86-64 too.
fn structs_end_in_flexible_arrays(
    rt: &impl Abort,
    alloc: Global,
    types: &mut Types,
) -> Result<(), LayoutStop> {
    let [char, _, int, long] = integers(types)?;
    let chars = types.array(plain(char), None)?;
    let ints = types.array(plain(int), None)?;
    let longs = types.array(plain(long), None)?;
    let rows = [
        ([int, chars], 4, 4),
        ([char, longs], 8, 8),
        ([char, ints], 4, 4),
    ];
    pairs_are_laid_out(rt, alloc, types, &rows)
}

/// Each row holds a kind, the types of two members, and whether they may complete an aggregate of the kind.
fn pairs_fit(
    rt: &impl Abort,
    alloc: Global,
    types: &Types,
    rows: &[(AggKind, [TypeId; 2], bool)],
) -> Result<(), LayoutStop> {
    for (kind, parts, fits) in rows {
        let members = members_of(alloc, parts)?;
        let found = members_fit(types.graph(), *kind, members.as_slice());
        equal(rt, parts, &found, fits);
    }
    Ok(())
}

/// Which members may complete a struct or a union (C11 6.7.2.1p3, p18).
fn members_are_complete_but_for_the_last(
    rt: &impl Abort,
    alloc: Global,
    types: &mut Types,
) -> Result<(), LayoutStop> {
    let [char, _, int, _] = integers(types)?;
    let void = types.void()?;
    let chars = types.array(plain(char), None)?;
    let rows = [
        (AggKind::Struct, [int, char], true),
        (AggKind::Struct, [int, chars], true),
        (AggKind::Struct, [chars, int], false),
        (AggKind::Struct, [void, int], false),
        (AggKind::Union, [int, chars], false),
        (AggKind::Union, [int, char], true),
        (AggKind::Struct, [int, TypeId(1000)], false),
    ];
    pairs_fit(rt, alloc, types, &rows)
}

/// `typedef char large[2147483648];` is too big, as gcc says of it with 2^63.
fn the_least_type_that_is_too_big_is_named(
    rt: &impl Abort,
    types: &mut Types,
) -> Result<(), LayoutStop> {
    let char = types.int(IntKind::Char)?;
    types.array(plain(char), Some(2147483647))?;
    let next = TypeId(types.graph().len());
    let stop = types.array(plain(char), Some(2147483648)).err();
    equal(rt, &char, &stop, &Some(LayoutStop::TooBig(next)));
    Ok(())
}

/// `int [2][3]`, of elements with or without `const`, and its rows.
fn table_of(types: &mut Types, element: QualType) -> Result<[TypeId; 2], LayoutStop> {
    let row = types.array(element, Some(3))?;
    let table = types.array(plain(row), Some(2))?;
    Ok([table, row])
}

/// Each row holds a type, and what it is with `const`.
fn are_qualified(
    rt: &impl Abort,
    types: &mut Types,
    rows: &[(TypeId, QualType)],
) -> Result<(), LayoutStop> {
    for (t, expected) in rows {
        let got = types.qualified(CONST, *t)?;
        equal(rt, t, &got, expected);
    }
    Ok(())
}

/// `typedef int a[2][3]; const a` is an array of arrays of `const int`; a function type has no qualifiers.
fn qualifiers_of_arrays_go_to_their_elements(
    rt: &impl Abort,
    alloc: Global,
    types: &mut Types,
) -> Result<(), LayoutStop> {
    let int = types.int(IntKind::Int)?;
    let element = QualType {
        quals: CONST,
        of: int,
    };
    let [table, row] = table_of(types, plain(int))?;
    let [constant_table, constant_row] = table_of(types, element)?;
    let function = types.function(int, Vec::new(alloc), true, false)?;
    let rows = [
        (int, element),
        (row, plain(constant_row)),
        (table, plain(constant_table)),
        (function, plain(function)),
    ];
    are_qualified(rt, types, &rows)
}

/// No pointer is made to a qualified array: the qualifiers are its elements' (C11 6.7.3p9).
fn no_array_is_qualified_itself(rt: &impl Abort, types: &mut Types) -> Result<(), LayoutStop> {
    let int = types.int(IntKind::Int)?;
    let row = types.array(plain(int), Some(3))?;
    let to = QualType {
        quals: CONST,
        of: row,
    };
    let stop = types.pointer(to).err();
    equal(rt, &to, &stop, &Some(LayoutStop::Memory));
    Ok(())
}

/// A composite keeps the qualifiers of what is pointed to, takes a bound, and has its layout at once (C11 6.2.7p3).
fn composites_take_bounds(rt: &impl Abort, types: &mut Types) -> Result<(), LayoutStop> {
    let int = types.int(IntKind::Int)?;
    let element = QualType {
        quals: CONST,
        of: int,
    };
    let open = types.array(element, None)?;
    let seven = types.array(plain(int), Some(7))?;
    let composite = types.composite(open, seven)?;
    equal(rt, &open, &types.size(composite), &Some(28));
    let expected = types.array(element, Some(7))?;
    equal(rt, &open, &composite, &expected);
    are_not_changed(rt, types, seven, open)
}

/// An array with a bound is its own composite with one without; there is none with a type that is not there.
fn are_not_changed(
    rt: &impl Abort,
    types: &mut Types,
    seven: TypeId,
    open: TypeId,
) -> Result<(), LayoutStop> {
    let composite = types.composite(seven, open)?;
    equal(rt, &seven, &composite, &seven);
    let int = types.int(IntKind::Int)?;
    let stop = types.composite(int, TypeId(5000)).err();
    equal(rt, &int, &stop, &Some(LayoutStop::Memory));
    Ok(())
}

/// A struct is completed with one member.
fn add_wrapper(alloc: Global, types: &mut Types, member: QualType) -> Result<AggId, LayoutStop> {
    let a = types.add_agg(AggKind::Struct, None)?;
    let mut members = Vec::new(alloc);
    if members.push(Member::named(NameId(0), member, 0)).is_err() {
        return Err(LayoutStop::Memory);
    }
    types.complete(a, Members::new(members))?;
    Ok(a)
}

/// A struct with one member, with `const` or without.
fn add_record(alloc: Global, types: &mut Types, member: QualType) -> Result<TypeId, LayoutStop> {
    let a = add_wrapper(alloc, types, member)?;
    types.aggregate(a)
}

/// Each row holds a type, whether the only member of a struct is a constant one of it, and whether the struct has a const member.
fn constant_members_are_told(
    rt: &impl Abort,
    alloc: Global,
    types: &mut Types,
    rows: &[(TypeId, bool, bool)],
) -> Result<(), LayoutStop> {
    for (of, constant, expected) in rows {
        let a = add_wrapper(alloc, types, qualified(*of, *constant))?;
        equal(rt, of, &types.has_constant_member(a), expected);
    }
    Ok(())
}

/// A const member counts through arrays, and not through pointers (C11 6.3.2.1p1).
fn constant_members_are_found_in_arrays(
    rt: &impl Abort,
    alloc: Global,
    types: &mut Types,
) -> Result<(), LayoutStop> {
    let int = types.int(IntKind::Int)?;
    let row = types.array(qualified(int, true), Some(2))?;
    let table = types.array(plain(row), Some(2))?;
    let pointer = types.pointer(qualified(int, true))?;
    let rows = [
        (int, false, false),
        (int, true, true),
        (table, false, true),
        (pointer, false, false),
    ];
    constant_members_are_told(rt, alloc, types, &rows)
}

/// A const member counts through structs and arrays of them (C11 6.3.2.1p1).
fn constant_members_are_found_in_structs(
    rt: &impl Abort,
    alloc: Global,
    types: &mut Types,
) -> Result<(), LayoutStop> {
    let int = types.int(IntKind::Int)?;
    let record = add_record(alloc, types, qualified(int, true))?;
    let records = types.array(plain(record), Some(2))?;
    let rows = [(record, false, true), (records, false, true)];
    constant_members_are_told(rt, alloc, types, &rows)
}

/// Each row holds a type, whether an lvalue of it is constant, and whether the lvalue is modifiable.
fn are_modifiable(rt: &impl Abort, types: &Types, rows: &[(TypeId, bool, bool)]) {
    for (of, constant, expected) in rows {
        let ty = qualified(*of, *constant);
        equal(rt, &ty, &types.is_modifiable(ty), expected);
    }
}

/// Which lvalues are modifiable (C11 6.3.2.1p1): complete ones that are no array and not const.
fn modifiable_lvalues_are_told(rt: &impl Abort, types: &mut Types) -> Result<(), LayoutStop> {
    let int = types.int(IntKind::Int)?;
    let void = types.void()?;
    let row = types.array(plain(int), Some(2))?;
    let pointer = types.pointer(qualified(int, true))?;
    let (_, unfinished) = add_open(types)?;
    let rows = [
        (int, false, true),
        (int, true, false),
        (void, false, false),
        (row, false, false),
        (pointer, false, true),
        (unfinished, false, false),
        (TypeId(9000), false, false),
    ];
    are_modifiable(rt, types, &rows);
    Ok(())
}

/// Which lvalues of structs are modifiable (C11 6.3.2.1p1): not const ones, without a const member at any depth.
fn modifiable_structs_are_told(
    rt: &impl Abort,
    alloc: Global,
    types: &mut Types,
) -> Result<(), LayoutStop> {
    let int = types.int(IntKind::Int)?;
    let fixed = add_record(alloc, types, qualified(int, true))?;
    let record = add_record(alloc, types, qualified(int, false))?;
    let rows = [
        (fixed, false, false),
        (record, false, true),
        (record, true, false),
    ];
    are_modifiable(rt, types, &rows);
    Ok(())
}

/// How many structs stand in a chain.
const CHAIN: u32 = 2000;

/// `struct s0 { int m; }; struct s1 { struct s0 m; char n; }; ..`, of which the last.
fn add_chain(alloc: Global, types: &mut Types, member: QualType) -> Result<TypeId, LayoutStop> {
    let char = types.int(IntKind::Char)?;
    let mut last = add_record(alloc, types, member)?;
    for _i in 1..CHAIN {
        last = add_aggregate(alloc, types, AggKind::Struct, &[last, char])?;
    }
    Ok(last)
}

/// Each struct of a chain is four bytes longer than the one before, as gcc has it too, and each has the const member of the first,
/// where that has one.
fn chains_of_structs_are_laid_out(
    rt: &impl Abort,
    alloc: Global,
    types: &mut Types,
) -> Result<(), LayoutStop> {
    for fixed in [false, true] {
        let int = types.int(IntKind::Int)?;
        let last = add_chain(alloc, types, qualified(int, fixed))?;
        let offsets = [Some(0), Some(4 * CHAIN - 4), None];
        are_laid_out(rt, types, &[(last, 4 * CHAIN, 4, offsets)]);
        let modifiable = types.is_modifiable(unqualified(last));
        equal(rt, &fixed, &modifiable, &!fixed);
    }
    Ok(())
}

/// Sizes, alignments and offsets.
fn types_are_laid_out(rt: &impl Abort, alloc: Global, types: &mut Types) -> Result<(), LayoutStop> {
    scalars_and_arrays_are_laid_out(rt, types)?;
    flat_types_are_laid_out(rt, alloc, types)?;
    nested_types_are_laid_out(rt, alloc, types)?;
    a_struct_is_completed_behind_a_pointer_to_it(rt, alloc, types)?;
    structs_are_completed_behind_pointers_to_them(rt, alloc, types)?;
    structs_end_in_flexible_arrays(rt, alloc, types)
}

/// What completes an aggregate, qualifiers and composites.
fn types_are_made(rt: &impl Abort, alloc: Global, types: &mut Types) -> Result<(), LayoutStop> {
    members_are_complete_but_for_the_last(rt, alloc, types)?;
    qualifiers_of_arrays_go_to_their_elements(rt, alloc, types)?;
    no_array_is_qualified_itself(rt, types)?;
    composites_take_bounds(rt, types)
}

/// Const members and modifiable lvalues.
fn constants_are_told(rt: &impl Abort, alloc: Global, types: &mut Types) -> Result<(), LayoutStop> {
    constant_members_are_found_in_arrays(rt, alloc, types)?;
    constant_members_are_found_in_structs(rt, alloc, types)?;
    modifiable_lvalues_are_told(rt, types)?;
    modifiable_structs_are_told(rt, alloc, types)
}

/// All of these, over the types of one unit; behind the last there are none.
fn types_keep_their_rules(
    rt: &impl Abort,
    alloc: Global,
    types: &mut Types,
) -> Result<(), LayoutStop> {
    types_are_laid_out(rt, alloc, types)?;
    types_are_made(rt, alloc, types)?;
    constants_are_told(rt, alloc, types)?;
    chains_of_structs_are_laid_out(rt, alloc, types)?;
    the_least_type_that_is_too_big_is_named(rt, types)
}

#[test]
fn types_of_one_unit_keep_their_rules(rt: HostRuntime) -> Result<(), LayoutStop> {
    let mut types = Types::new(rt.alloc(), Abi::Lp64);
    types_keep_their_rules(&rt, rt.alloc(), &mut types)
}
