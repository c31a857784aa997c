use crate::equal::are_equal;
use byte_mem::{
    Byte, Cells, ObjName, Pointer, Scalar, Store, Value, compute, compute_unary, convert,
};
use cil_base::{Abi, BinOp, EntityId, IntKind, LocalId, Memory, UnOp};
use std::alloc::Global;
use std::process::Abort;
use std::test::Fail;

const INT: Scalar = Scalar::Int(IntKind::Int);

const CHAR: Scalar = Scalar::Int(IntKind::Char);

const LONG: Scalar = Scalar::Int(IntKind::Long);

const SHORT: Scalar = Scalar::Int(IntKind::Short);

const A: ObjName = ObjName::Entity(EntityId(0));

const B: ObjName = ObjName::Local(3, LocalId(1));

const DEAD: ObjName = ObjName::Literal(0);

const FIXED: ObjName = ObjName::Argument(1);

const MISSING: ObjName = ObjName::Heap(5);

const FUNCTION: ObjName = ObjName::Entity(EntityId(2));

fn at(name: ObjName, offset: i64) -> Pointer {
    Pointer { name, offset }
}

fn to(name: ObjName, offset: i64) -> Value {
    Value::Ptr(at(name, offset))
}

fn part(k: u8) -> Value {
    Value::Part(at(A, 4), k)
}

/// What is loaded there.
fn load(store: &Store, name: ObjName, offset: i64, s: Scalar) -> Option<Value> {
    store.load(Pointer { name, offset }, s)
}

/// An object of 8 zero bytes, one of 16 unknown ones, a dead one, a read-only one of 4 bytes and a function.
fn fill_sample(store: &mut Store) -> Result<(), Memory> {
    store.make(A, 8, Byte::Known(0), false)?;
    store.make(B, 16, Byte::Unknown, false)?;
    store.make(DEAD, 4, Byte::Known(7), false)?;
    store.end(DEAD);
    store.make(FIXED, 4, Byte::Known(7), true)?;
    store.make_function(EntityId(2))
}

fn sample(alloc: Global) -> Result<Box<Store>, Memory> {
    let mut store = Box::new(alloc, Store::new(alloc))?;
    fill_sample(&mut store)?;
    Ok(store)
}

/// C11 6.3.2.1p2, 6.5.3.2p4: each cause for which a load is undefined, and values of each form.
#[test]
fn loads_what_lies_in_a_live_object(rt: HostRuntime) -> Result<(), Fail> {
    let store = sample(rt.alloc())?;
    are_equal(
        &rt,
        &[
            (load(&store, A, 4, INT), Some(Value::Int(0))),
            (load(&store, A, 2, INT), None),
            (load(&store, B, 4, LONG), None),
            (load(&store, B, 4, Scalar::Ptr), None),
            (load(&store, A, 5, INT), None),
            (load(&store, A, 6, SHORT), Some(Value::Int(0))),
            (load(&store, A, 3, SHORT), None),
            (load(&store, A, 7, CHAR), Some(Value::Int(0))),
            (load(&store, A, 8, CHAR), None),
            (load(&store, A, 8, INT), None),
            (load(&store, A, -1, CHAR), None),
            (load(&store, A, -4, INT), None),
            (load(&store, A, i64::MAX, CHAR), None),
            (load(&store, A, i64::MIN, CHAR), None),
            (load(&store, FIXED, 0, INT), Some(Value::Int(0x0707_0707))),
            (load(&store, A, 0, Scalar::Ptr), Some(Value::Int(0))),
            (load(&store, B, 8, LONG), Some(Value::Unknown)),
            (load(&store, DEAD, 0, CHAR), None),
            (load(&store, MISSING, 0, CHAR), None),
            (load(&store, ObjName::Local(4, LocalId(1)), 0, CHAR), None),
            (load(&store, FUNCTION, 0, CHAR), None),
        ],
    );
    Ok(())
}

/// The objects of the sample are as they were made.
fn is_as_made(store: &Store) -> bool {
    load(store, A, 0, LONG) == Some(Value::Int(0))
        && load(store, FIXED, 0, INT) == Some(Value::Int(0x0707_0707))
        && store.live_size(DEAD) == None
        && store.live_size(MISSING) == None
}

/// Whether a store of 1 there is undefined, and leaves the objects as they are.
fn stays(store: &mut Store, name: ObjName, offset: i64, s: Scalar) -> (Option<()>, bool) {
    let stored = store.store(at(name, offset), s, Value::Int(1));
    (stored, is_as_made(store))
}

/// C11 6.5.3.2p4, 6.7.3p6: each cause for which a store is undefined, after which the objects are as before.
#[test]
fn stores_what_may_be_written(rt: HostRuntime) -> Result<(), Fail> {
    let mut store = sample(rt.alloc())?;
    let none = (None, true);
    are_equal(
        &rt,
        &[
            (stays(&mut store, MISSING, 0, INT), none),
            (stays(&mut store, DEAD, 0, INT), none),
            (stays(&mut store, FUNCTION, 0, CHAR), none),
            (stays(&mut store, FIXED, 0, INT), none),
            (stays(&mut store, A, 2, INT), none),
            (stays(&mut store, A, 1, SHORT), none),
            (stays(&mut store, A, 4, LONG), none),
            (stays(&mut store, A, 8, CHAR), none),
            (stays(&mut store, A, 6, INT), none),
            (stays(&mut store, A, -4, INT), none),
        ],
    );
    let stored = store.store(at(A, 4), INT, Value::Int(-2));
    are_equal(&rt, &[(stored, Some(()))]);
    are_equal(
        &rt,
        &[(load(&store, A, 0, LONG), Some(Value::Int(-0x2_0000_0000)))],
    );
    Ok(())
}

/// Whether so many bytes lie there.
fn lie(store: &Store, name: ObjName, offset: i64, len: u32) -> Result<bool, Memory> {
    Ok(store.load_bytes(at(name, offset), len)?.is_some())
}

/// C11 6.2.6.1p2: so many bytes lie in a live object, at any place; of no bytes one past its end is one.
#[test]
fn bytes_lie_in_a_live_object(rt: HostRuntime) -> Result<(), Fail> {
    let store = sample(rt.alloc())?;
    are_equal(
        &rt,
        &[
            (lie(&store, MISSING, 0, 0), Ok(false)),
            (lie(&store, DEAD, 0, 1), Ok(false)),
            (lie(&store, FUNCTION, 0, 1), Ok(false)),
            (lie(&store, FUNCTION, 0, 0), Ok(true)),
            (lie(&store, FIXED, 1, 3), Ok(true)),
            (lie(&store, A, 1, 7), Ok(true)),
            (lie(&store, A, 1, 8), Ok(false)),
            (lie(&store, A, 8, 0), Ok(true)),
            (lie(&store, A, 8, 1), Ok(false)),
            (lie(&store, A, 9, 0), Ok(false)),
            (lie(&store, A, -1, 1), Ok(false)),
            (lie(&store, A, 0, u32::MAX), Ok(false)),
        ],
    );
    Ok(())
}

/// So many bytes of an object of the sample.
fn bytes_of(alloc: Global, name: ObjName, offset: i64, len: u32) -> Result<Cells, Fail> {
    let store = sample(alloc)?;
    Ok(store.load_bytes(at(name, offset), len)?.ok_or("no bytes")?)
}

/// C11 6.2.6.1p4: the bytes of an object are read as they were written.
#[test]
fn bytes_are_those_that_were_written(rt: HostRuntime) -> Result<(), Fail> {
    let bytes = bytes_of(rt.alloc(), FIXED, 1, 3)?;
    are_equal(&rt, &[(bytes.as_slice(), [Byte::Known(7); 3].as_slice())]);
    Ok(())
}

/// Five bytes are written there in each way, and the objects that may be written and that may not are as they were made.
fn written(store: &mut Store, five: &Cells, name: ObjName, offset: i64) -> ([Option<()>; 3], bool) {
    let p = at(name, offset);
    let written = [
        store.store_bytes(p, five),
        store.zero(p, 5),
        store.fill(p, 5, 1),
    ];
    (written, is_as_made(store))
}

/// C11 6.7.3p6: bytes are written where they lie in a live object that may be written, at any place; and
/// else nothing has changed.
#[test]
fn bytes_are_written_where_they_may_be(rt: HostRuntime) -> Result<(), Fail> {
    let five = bytes_of(rt.alloc(), B, 0, 5)?;
    let mut store = sample(rt.alloc())?;
    let none = ([None; 3], true);
    are_equal(
        &rt,
        &[
            (written(&mut store, &five, MISSING, 0), none),
            (written(&mut store, &five, DEAD, 0), none),
            (written(&mut store, &five, FUNCTION, 0), none),
            (written(&mut store, &five, FIXED, 0), none),
            (written(&mut store, &five, A, 4), none),
            (written(&mut store, &five, A, 8), none),
            (written(&mut store, &five, A, -1), none),
            (written(&mut store, &five, A, i64::MAX), none),
        ],
    );
    are_written(&rt, &mut store, &five);
    Ok(())
}

/// No bytes are written up to one past the end of an object that may be written, and five within it.
fn are_written(rt: &impl Abort, store: &mut Store, five: &Cells) {
    are_equal(
        rt,
        &[
            (store.zero(at(FIXED, 4), 0), None),
            (store.zero(at(A, 8), 0), Some(())),
            (store.zero(at(A, 9), 0), None),
            (store.fill(at(A, 3), 5, 1), Some(())),
        ],
    );
    let filled = load(store, A, 0, INT);
    let stored = store.store_bytes(at(A, 3), five);
    are_equal(rt, &[(stored, Some(()))]);
    are_equal(
        rt,
        &[
            (filled, Some(Value::Int(0x0100_0000))),
            (load(store, A, 4, INT), Some(Value::Unknown)),
        ],
    );
}

/// C11 6.2.4p2: what is made lives until it ends, under its own name alone.
#[test]
fn objects_live_under_their_names(rt: HostRuntime) -> Result<(), Fail> {
    let store = sample(rt.alloc())?;
    are_equal(
        &rt,
        &[
            (store.live_size(A), Some(8)),
            (store.live_size(B), Some(16)),
            (store.live_size(FIXED), Some(4)),
            (store.live_size(FUNCTION), Some(0)),
            (store.live_size(DEAD), None),
            (store.live_size(MISSING), None),
            (store.live_size(ObjName::Local(3, LocalId(0))), None),
            (store.live_size(ObjName::Local(2, LocalId(1))), None),
            (store.live_size(ObjName::Entity(EntityId(1))), None),
            (store.live_size(ObjName::Literal(1)), None),
        ],
    );
    Ok(())
}

/// What is made anew has nothing of what it held; what is missing or dead cannot end, and what is missing is not protected.
#[test]
fn objects_are_made_anew_and_end(rt: HostRuntime) -> Result<(), Fail> {
    let mut store = sample(rt.alloc())?;
    missing_ones_stay_missing(&rt, &mut store);
    one_is_made_anew(&rt, &mut store);
    one_is_made_read_only(&rt, &mut store);
    Ok(())
}

fn missing_ones_stay_missing(rt: &impl Abort, store: &mut Store) {
    store.end(MISSING);
    store.end(DEAD);
    store.protect(MISSING, true);
    are_equal(rt, &[(store.live_size(MISSING), None)]);
    store.protect(FIXED, false);
    are_equal(rt, &[(store.zero(at(FIXED, 0), 4), Some(()))]);
}

fn one_is_made_anew(rt: &impl Abort, store: &mut Store) {
    let made = store.make(DEAD, 2, Byte::Unknown, false);
    are_equal(rt, &[(made, Ok(()))]);
    are_equal(rt, &[(store.live_size(DEAD), Some(2))]);
    are_equal(rt, &[(load(store, DEAD, 0, SHORT), Some(Value::Unknown))]);
}

fn one_is_made_read_only(rt: &impl Abort, store: &mut Store) {
    let made = store.make(A, 4, Byte::Known(1), true);
    are_equal(rt, &[(made, Ok(()))]);
    let stored = store.store(at(A, 0), INT, Value::Int(0));
    are_equal(rt, &[(stored, None)]);
    let first = load(store, A, 0, INT);
    store.end(B);
    are_equal(
        rt,
        &[
            (first, Some(Value::Int(0x0101_0101))),
            (load(store, A, 4, INT), None),
            (load(store, B, 0, CHAR), None),
        ],
    );
    are_equal(rt, &[(store.live_size(A), Some(4))]);
}

/// Makes an object of `malloc` of so many bytes.
fn make(store: &mut Store, i: u64, size: u32, fill: Byte) -> Result<(), Memory> {
    store.make(ObjName::Heap(i), size, fill, false)
}

/// The size of an object of `malloc`, and the value of the int that it begins with.
fn object(store: &Store, i: u64) -> (Option<u32>, Option<Value>) {
    let name = ObjName::Heap(i);
    (store.live_size(name), load(store, name, 0, INT))
}

/// Objects of near and far numbers.
fn make_near_and_far(rt: &impl Abort, store: &mut Store) {
    are_equal(
        rt,
        &[
            (make(store, 0, 4, Byte::Known(1)), Ok(())),
            (make(store, 1, 4, Byte::Known(2)), Ok(())),
            (make(store, 62, 8, Byte::Known(3)), Ok(())),
            (make(store, 63, 9000, Byte::Known(4)), Ok(())),
            (make(store, 64, 4, Byte::Known(5)), Ok(())),
            (make(store, 130, 0, Byte::Known(6)), Ok(())),
            (make(store, 2, 4, Byte::Known(7)), Ok(())),
            (make(store, 3, 5000, Byte::Known(8)), Ok(())),
        ],
    );
}

/// Some of them change, end, or begin anew.
fn change_some(rt: &impl Abort, store: &mut Store) {
    let second = at(ObjName::Heap(1), 0);
    are_equal(rt, &[(store.store(second, INT, Value::Int(9)), Some(()))]);
    store.end(ObjName::Heap(62));
    are_equal(rt, &[(make(store, 0, 8, Byte::Unknown), Ok(()))]);
    store.end(ObjName::Heap(3));
    are_equal(rt, &[(make(store, 4, 6000, Byte::Known(0)), Ok(()))]);
}

/// C11 6.2.4p2: objects of near and far numbers keep their own bytes, whichever of them begin, change and end.
#[test]
fn objects_keep_their_own_bytes(rt: HostRuntime) {
    let mut store = Store::new(rt.alloc());
    make_near_and_far(&rt, &mut store);
    change_some(&rt, &mut store);
    are_equal(
        &rt,
        &[
            (object(&store, 0), (Some(8), Some(Value::Unknown))),
            (object(&store, 1), (Some(4), Some(Value::Int(9)))),
            (object(&store, 2), (Some(4), Some(Value::Int(0x0707_0707)))),
            (object(&store, 3), (None, None)),
            (object(&store, 4), (Some(6000), Some(Value::Int(0)))),
            (object(&store, 62), (None, None)),
            (
                object(&store, 63),
                (Some(9000), Some(Value::Int(0x0404_0404))),
            ),
            (object(&store, 64), (Some(4), Some(Value::Int(0x0505_0505)))),
            (object(&store, 130), (Some(0), None)),
            (object(&store, 131), (None, None)),
        ],
    );
}

/// An object may begin as parts of a pointer (own), among others whose bytes are numbers.
#[test]
fn objects_begin_as_parts(rt: HostRuntime) {
    let mut store = Store::new(rt.alloc());
    let bytes = Byte::Part(at(A, 4), 2);
    are_equal(
        &rt,
        &[
            (make(&mut store, 0, 4, Byte::Known(1)), Ok(())),
            (make(&mut store, 1, 3, bytes), Ok(())),
            (make(&mut store, 2, 4, Byte::Known(2)), Ok(())),
        ],
    );
    are_equal(
        &rt,
        &[
            (load(&store, ObjName::Heap(1), 2, CHAR), Some(part(2))),
            (load(&store, ObjName::Heap(1), 3, CHAR), None),
            (
                load(&store, ObjName::Heap(0), 0, INT),
                Some(Value::Int(0x0101_0101)),
            ),
            (
                load(&store, ObjName::Heap(2), 0, INT),
                Some(Value::Int(0x0202_0202)),
            ),
        ],
    );
}

/// The byte of that number of the pointer in the object is loaded, and stored eight bytes on.
fn copied(store: &mut Store, k: u8) -> (Option<Value>, Option<()>) {
    let offset = i64::from(k);
    let loaded = load(store, B, offset, CHAR);
    let stored = store.store(at(B, 8 + offset), CHAR, part(k));
    (loaded, stored)
}

/// A pointer is stored, and copied byte by byte.
fn copy_pointer(rt: &impl Abort, store: &mut Store) {
    let stored = store.store(at(B, 0), Scalar::Ptr, to(A, 4));
    are_equal(rt, &[(stored, Some(()))]);
    are_equal(
        rt,
        &[
            (copied(store, 0), (Some(part(0)), Some(()))),
            (copied(store, 1), (Some(part(1)), Some(()))),
            (copied(store, 2), (Some(part(2)), Some(()))),
            (copied(store, 3), (Some(part(3)), Some(()))),
            (copied(store, 4), (Some(part(4)), Some(()))),
            (copied(store, 5), (Some(part(5)), Some(()))),
            (copied(store, 6), (Some(part(6)), Some(()))),
            (copied(store, 7), (Some(part(7)), Some(()))),
        ],
    );
}

/// What is loaded of the copy as an integer.
fn copy_as(store: &Store, kind: IntKind) -> Option<Value> {
    load(store, B, 8, Scalar::Int(kind))
}

/// C11 6.2.6.1: a pointer's bytes one by one make it whole again, and no other type sees a number in them; known
/// bytes are a number for a pointer type.
#[test]
fn pointers_are_copied_byte_by_byte(rt: HostRuntime) -> Result<(), Fail> {
    let mut store = sample(rt.alloc())?;
    copy_pointer(&rt, &mut store);
    are_equal(
        &rt,
        &[
            (copy_as(&store, IntKind::Bool), Some(part(0))),
            (copy_as(&store, IntKind::Char), Some(part(0))),
            (copy_as(&store, IntKind::SChar), Some(part(0))),
            (copy_as(&store, IntKind::UChar), Some(part(0))),
            (copy_as(&store, IntKind::Short), Some(Value::Unknown)),
            (copy_as(&store, IntKind::UShort), Some(Value::Unknown)),
            (copy_as(&store, IntKind::Int), Some(Value::Unknown)),
            (copy_as(&store, IntKind::UInt), Some(Value::Unknown)),
            (copy_as(&store, IntKind::Long), Some(to(A, 4))),
            (copy_as(&store, IntKind::ULong), Some(to(A, 4))),
            (copy_as(&store, IntKind::LLong), Some(to(A, 4))),
            (copy_as(&store, IntKind::ULLong), Some(to(A, 4))),
            (load(&store, B, 8, Scalar::Ptr), Some(to(A, 4))),
        ],
    );
    copy_is_overwritten(&rt, &mut store);
    Ok(())
}

/// The copy is no pointer once one of its bytes is a number, and a number once all are.
fn copy_is_overwritten(rt: &impl Abort, store: &mut Store) {
    let first = store.store(at(B, 8), CHAR, Value::Int(1));
    let unknown = load(store, B, 8, Scalar::Ptr);
    let all = store.store(at(B, 8), LONG, Value::Int(-1));
    are_equal(rt, &[(first, Some(())), (all, Some(()))]);
    are_equal(
        rt,
        &[
            (unknown, Some(Value::Unknown)),
            (
                load(store, B, 8, Scalar::Ptr),
                Some(Value::Int(0xffff_ffff_ffff_ffff)),
            ),
        ],
    );
}

/// Six bytes from the beginning of the object of 8 bytes.
fn six(store: &Store) -> Result<Cells, Fail> {
    Ok(store.load_bytes(at(A, 0), 6)?.ok_or("no bytes")?)
}

/// Bytes may overlap when they are copied (own: all are read before one is written); 6.7.3p6, 6.4.5p7: what
/// is read-only keeps its bytes until it may be written again.
#[test]
fn writes_change_what_may_be_written(rt: HostRuntime) -> Result<(), Fail> {
    let mut store = sample(rt.alloc())?;
    are_changed(&rt, &mut store)
}

fn are_changed(rt: &impl Abort, store: &mut Store) -> Result<(), Fail> {
    let stored = store.store(at(A, 0), INT, Value::Int(0x0403_0201));
    are_equal(rt, &[(stored, Some(()))]);
    let bytes = six(store)?;
    bytes_overlap(rt, store, &bytes);
    read_only_ones_stay(rt, store, &bytes);
    others_change(rt, store);
    Ok(())
}

/// Six bytes are copied two bytes on.
fn bytes_overlap(rt: &impl Abort, store: &mut Store, bytes: &Cells) {
    let stored = store.store_bytes(at(A, 2), bytes);
    are_equal(rt, &[(stored, Some(()))]);
    are_equal(
        rt,
        &[
            (load(store, A, 0, INT), Some(Value::Int(0x0201_0201))),
            (load(store, A, 4, INT), Some(Value::Int(0x0000_0403))),
        ],
    );
}

/// No write changes a read-only object.
fn read_only_ones_stay(rt: &impl Abort, store: &mut Store, bytes: &Cells) {
    store.protect(A, true);
    are_equal(
        rt,
        &[
            (store.store(at(A, 0), CHAR, Value::Int(9)), None),
            (store.store_bytes(at(A, 0), bytes), None),
            (store.zero(at(A, 0), 8), None),
        ],
    );
    are_equal(
        rt,
        &[(load(store, A, 0, INT), Some(Value::Int(0x0201_0201)))],
    );
}

/// It changes once it may be written again.
fn others_change(rt: &impl Abort, store: &mut Store) {
    store.protect(A, false);
    are_equal(
        rt,
        &[
            (store.zero(at(A, 0), 8), Some(())),
            (store.fill(at(A, 7), 1, 2), Some(())),
        ],
    );
    let bool = Scalar::Int(IntKind::Bool);
    are_equal(rt, &[(load(store, A, 7, bool), Some(Value::Unknown))]);
}

/// `==`, `!=`, `<`, `>`, `<=` and `>=` of two values, in this order.
fn compared(store: &Store, v: Value, w: Value) -> [Option<bool>; 6] {
    [
        store.compare(BinOp::Eq, v, w),
        store.compare(BinOp::Ne, v, w),
        store.compare(BinOp::Lt, v, w),
        store.compare(BinOp::Gt, v, w),
        store.compare(BinOp::Le, v, w),
        store.compare(BinOp::Ge, v, w),
    ]
}

const YES: Option<bool> = Some(true);

const NO: Option<bool> = Some(false);

/// Equal ones, a first one before the second one, and one behind it; others that are not equal, and of which no other operator is defined.
const SAME: [Option<bool>; 6] = [YES, NO, NO, NO, YES, YES];

const BEFORE: [Option<bool>; 6] = [NO, YES, YES, NO, YES, NO];

const BEHIND: [Option<bool>; 6] = [NO, YES, NO, YES, NO, YES];

const APART: [Option<bool>; 6] = [NO, YES, None, None, None, None];

/// C11 6.5.8, 6.5.9: each comparison in one object, and one past its end.
#[test]
fn pointers_are_compared_in_one_object(rt: HostRuntime) -> Result<(), Fail> {
    let store = sample(rt.alloc())?;
    are_equal(
        &rt,
        &[
            (compared(&store, to(A, 0), to(A, 4)), BEFORE),
            (compared(&store, to(A, 4), to(A, 0)), BEHIND),
            (compared(&store, to(A, 4), to(A, 4)), SAME),
            (compared(&store, to(A, 8), to(A, 8)), SAME),
            (compared(&store, to(A, 0), to(A, 8)), BEFORE),
            (compared(&store, to(A, 9), to(A, 8)), [None; 6]),
            (compared(&store, to(FUNCTION, 0), to(FUNCTION, 0)), SAME),
        ],
    );
    are_equal(
        &rt,
        &[(store.compare(BinOp::Add, to(A, 0), to(A, 0)), None)],
    );
    Ok(())
}

/// C11 6.5.8, 6.5.9: each comparison across objects, of what is dead, of null and of numbers.
#[test]
fn pointers_are_compared_where_c_allows(rt: HostRuntime) -> Result<(), Fail> {
    let store = sample(rt.alloc())?;
    let (null, one) = (Value::Int(0), Value::Int(1));
    are_equal(
        &rt,
        &[
            (compared(&store, to(A, 0), to(B, 0)), APART),
            (compared(&store, to(A, 8), to(B, 0)), [None; 6]),
            (compared(&store, to(A, 0), to(B, 16)), [None; 6]),
            (compared(&store, to(FUNCTION, 0), to(A, 0)), APART),
            (compared(&store, to(FUNCTION, 1), to(A, 0)), [None; 6]),
            (compared(&store, to(DEAD, 0), to(A, 0)), [None; 6]),
            (compared(&store, to(DEAD, 0), to(DEAD, 0)), [None; 6]),
            (compared(&store, to(MISSING, 0), null), [None; 6]),
            (compared(&store, null, to(A, 8)), APART),
            (compared(&store, to(A, 0), null), APART),
            (compared(&store, one, to(A, 0)), [None; 6]),
            (
                compared(&store, one, one),
                [YES, NO, None, None, None, None],
            ),
            (compared(&store, null, Value::Int(2)), APART),
            (compared(&store, Value::Unknown, to(A, 0)), [None; 6]),
            (compared(&store, to(A, 0), Value::Unknown), [None; 6]),
            (compared(&store, part(0), part(0)), [None; 6]),
        ],
    );
    Ok(())
}

/// A difference in ints.
fn less(store: &Store, v: Value, w: Value) -> Option<Value> {
    store.pointer_difference(v, w, 4)
}

/// C11 6.5.6p9: a difference in ints asks for two pointers to one live object, and for whole elements (own).
#[test]
fn pointers_are_subtracted_in_one_object(rt: HostRuntime) -> Result<(), Fail> {
    let store = sample(rt.alloc())?;
    let null = Value::Int(0);
    are_equal(
        &rt,
        &[
            (less(&store, to(A, 8), to(A, 0)), Some(Value::Int(2))),
            (less(&store, to(A, 0), to(A, 8)), Some(Value::Int(-2))),
            (less(&store, to(A, 4), to(A, 4)), Some(Value::Int(0))),
            (less(&store, to(A, 7), to(A, 3)), Some(Value::Int(1))),
            (less(&store, to(A, 6), to(A, 0)), None),
            (less(&store, to(A, 12), to(A, 0)), None),
            (less(&store, to(A, 0), to(A, -4)), None),
            (less(&store, to(A, 0), to(B, 0)), None),
            (less(&store, to(DEAD, 0), to(DEAD, 0)), None),
            (less(&store, to(MISSING, 0), to(A, 0)), None),
            (less(&store, null, null), None),
            (less(&store, to(A, 0), null), None),
            (less(&store, Value::Int(8), Value::Int(4)), None),
            (less(&store, Value::Unknown, to(A, 0)), None),
            (less(&store, to(A, 0), part(0)), None),
        ],
    );
    Ok(())
}

/// A sum, an element and a member of a place, four ints on.
fn moved(store: &Store, v: Value) -> [Option<Value>; 4] {
    [
        store.pointer_sum(v, Value::Int(4), 4),
        store.pointer_less(v, Value::Int(-4), 4),
        store.element(v, Value::Int(4), 4),
        store.member(v, 16),
    ]
}

/// C11 6.5.6p8, 6.5.2.1p2, 6.5.2.3p3: a pointer moves from place to place of one object.
#[test]
fn pointers_move_in_one_object(rt: HostRuntime) -> Result<(), Fail> {
    let store = sample(rt.alloc())?;
    are_equal(
        &rt,
        &[
            (moved(&store, to(B, 0)), [Some(to(B, 16)); 4]),
            (moved(&store, to(B, 4)), [None; 4]),
            (moved(&store, to(B, -16)), [None; 4]),
            (moved(&store, to(A, 0)), [None; 4]),
            (moved(&store, to(FUNCTION, 0)), [None; 4]),
            (moved(&store, to(DEAD, 0)), [None; 4]),
            (moved(&store, to(MISSING, 0)), [None; 4]),
            (moved(&store, Value::Int(0)), [None; 4]),
            (moved(&store, Value::Int(4)), [None; 4]),
            (moved(&store, Value::Unknown), [None; 4]),
            (moved(&store, part(0)), [None; 4]),
        ],
    );
    ends_move(&rt, &store, to(B, 16));
    Ok(())
}

/// From one past the end of an object.
fn ends_move(rt: &impl Abort, store: &Store, end: Value) {
    are_equal(
        rt,
        &[
            (store.pointer_less(end, Value::Int(4), 4), Some(to(B, 0))),
            (store.pointer_sum(end, Value::Int(0), 4), Some(end)),
            (store.pointer_sum(end, Value::Unknown, 4), None),
            (store.pointer_sum(end, Value::Ptr(at(B, 16)), 4), None),
        ],
    );
}

/// A test of a value of a pointer type, and of an integer type of its size.
fn tested(store: &Store, v: Value) -> (Option<bool>, Option<bool>) {
    (store.truth(Scalar::Ptr, v), store.truth(LONG, v))
}

/// C11 6.8.4.1p2: a test of each value.
#[test]
fn values_are_tested(rt: HostRuntime) -> Result<(), Fail> {
    let store = sample(rt.alloc())?;
    are_equal(
        &rt,
        &[
            (tested(&store, Value::Int(0)), (NO, NO)),
            (tested(&store, Value::Int(2)), (YES, YES)),
            (tested(&store, to(A, 0)), (YES, None)),
            (tested(&store, to(A, 8)), (YES, None)),
            (tested(&store, to(A, 9)), (None, None)),
            (tested(&store, to(FUNCTION, 0)), (YES, None)),
            (tested(&store, to(DEAD, 0)), (None, None)),
            (tested(&store, to(MISSING, 0)), (None, None)),
            (tested(&store, Value::Unknown), (None, None)),
            (tested(&store, part(0)), (None, None)),
        ],
    );
    Ok(())
}

/// A conversion to an integer type.
fn as_int(kind: IntKind, v: Value) -> Value {
    convert(Abi::Lp64, Scalar::Int(kind), v)
}

/// C11 6.3.1.2, 6.3.1.3, 6.3.2.3: each form of value in each form of integer type.
#[test]
fn values_are_converted_to_integers(rt: HostRuntime) {
    let p = to(DEAD, 4);
    are_equal(
        &rt,
        &[
            (as_int(IntKind::Bool, Value::Int(2)), Value::Int(1)),
            (as_int(IntKind::SChar, Value::Int(200)), Value::Int(-56)),
            (
                as_int(IntKind::UInt, Value::Int(-1)),
                Value::Int(0xffff_ffff),
            ),
            (as_int(IntKind::Bool, p), Value::Int(1)),
            (as_int(IntKind::Long, p), p),
            (as_int(IntKind::ULLong, p), p),
            (as_int(IntKind::Int, p), Value::Unknown),
            (as_int(IntKind::Char, p), Value::Unknown),
            (as_int(IntKind::Char, part(3)), part(3)),
            (as_int(IntKind::SChar, part(3)), part(3)),
            (as_int(IntKind::UChar, part(3)), part(3)),
            (as_int(IntKind::Bool, part(3)), Value::Unknown),
            (as_int(IntKind::Short, part(3)), Value::Unknown),
            (as_int(IntKind::Long, part(3)), Value::Unknown),
            (as_int(IntKind::Bool, Value::Unknown), Value::Unknown),
            (as_int(IntKind::Long, Value::Unknown), Value::Unknown),
        ],
    );
}

/// A conversion to a pointer type.
fn as_pointer(v: Value) -> Value {
    convert(Abi::Lp64, Scalar::Ptr, v)
}

/// C11 6.3.2.3p5: each form of value in a pointer type.
#[test]
fn values_are_converted_to_pointers(rt: HostRuntime) {
    let p = to(DEAD, 4);
    are_equal(
        &rt,
        &[
            (
                as_pointer(Value::Int(-1)),
                Value::Int(0xffff_ffff_ffff_ffff),
            ),
            (as_pointer(p), p),
            (as_pointer(part(3)), Value::Unknown),
            (as_pointer(Value::Unknown), Value::Unknown),
        ],
    );
}

/// C11 6.5.3.2p4: `*` designates what its operand is, if that is a number or a pointer, live or not.
#[test]
fn places_are_values(rt: HostRuntime) {
    are_equal(
        &rt,
        &[
            (to(A, 4).place(), Some(to(A, 4))),
            (to(DEAD, 9).place(), Some(to(DEAD, 9))),
            (Value::Int(0).place(), Some(Value::Int(0))),
            (Value::Int(7).place(), Some(Value::Int(7))),
            (Value::Unknown.place(), None),
            (part(0).place(), None),
        ],
    );
}

/// C11 6.5.3.3: operators on one number, and on what is none.
#[test]
fn one_number_is_computed(rt: HostRuntime) {
    let (int, uint) = (IntKind::Int, IntKind::UInt);
    are_equal(
        &rt,
        &[
            (
                compute_unary(UnOp::Neg, int, Value::Int(5)),
                Some(Value::Int(-5)),
            ),
            (
                compute_unary(UnOp::Neg, int, Value::Int(-0x8000_0000)),
                None,
            ),
            (
                compute_unary(UnOp::Neg, uint, Value::Int(1)),
                Some(Value::Int(0xffff_ffff)),
            ),
            (
                compute_unary(UnOp::Compl, int, Value::Int(0)),
                Some(Value::Int(-1)),
            ),
            (
                compute_unary(UnOp::Compl, uint, Value::Int(0)),
                Some(Value::Int(0xffff_ffff)),
            ),
            (
                compute_unary(UnOp::Not, int, Value::Int(0)),
                Some(Value::Int(1)),
            ),
            (
                compute_unary(UnOp::Not, int, Value::Int(7)),
                Some(Value::Int(0)),
            ),
            (
                compute_unary(UnOp::Not, IntKind::Long, Value::Ptr(at(A, 0))),
                None,
            ),
            (compute_unary(UnOp::Neg, int, Value::Unknown), None),
            (
                compute_unary(UnOp::Compl, IntKind::Char, Value::Part(at(A, 0), 1)),
                None,
            ),
        ],
    );
}

/// C11 6.5.5, 6.5.6: operators on two numbers, and on what is none.
#[test]
fn two_numbers_are_computed(rt: HostRuntime) {
    let (int, three) = (IntKind::Int, Value::Int(3));
    are_equal(
        &rt,
        &[
            (
                compute(BinOp::Add, int, Value::Int(2), three),
                Some(Value::Int(5)),
            ),
            (
                compute(BinOp::Add, IntKind::Long, Value::Ptr(at(A, 0)), three),
                None,
            ),
            (
                compute(BinOp::Mul, int, Value::Int(0), Value::Unknown),
                None,
            ),
        ],
    );
}
