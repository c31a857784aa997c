ghost use Rattle.std.specs.Prelude.{◌≡◌, IfSome, Some, not, option_map, pos};
ghost use Rattle.std.specs.Ordering.{int_eq};
ghost use Rattle.byte_mem.specs.Scalar.{IsValue, is_boolean};
ghost use Rattle.byte_mem.specs.Store.{memory};
ghost use Rattle.byte_mem.specs.Operator.{converted, compared, pointer_sum, pointer_less, pointer_difference, member_place, element_place, place_of};
ghost use Rattle.cil_base.specs.Arithmetic.{arith_of, unary_of, told};
ghost use Rattle.cil_base.specs.Integer.{IsOf, long_of, wrapped};
ghost use Rattle.cil_machine.specs.Instructions.{pointer_from};
ghost use Rattle.cil_machine.specs.Terms.{of_one, of_two, of_number, of_numbers, number_as, number, number_from, number_of, as_number, told_from, told_as, read_at, term_value, number_by, tested, spot_place, moved, pointer_for, difference_at, pointer_at};

use crate::terms::{Spot, Term};
use byte_mem::{ObjName, Pointer, Scalar, Store, Value, convert};
use cil_base::{Abi, BinOp, IntKind, UnOp, arith, wrap};

/// A number as one of a kind, None where it is none of its values.
#[tactic(auto, using(crate::proofs::TermSteps::number_value))]
fn number_as(kind: IntKind, n: i128) -> Option<i128>
    ensures number { result ≡ number_as kind n }
    ensures value { IfSome result (IsOf kind) }
{
    let wrapped = wrap(kind, n);
    if wrapped == n { Some(n) } else { None }
}

/// A number as a value of a scalar, None where it is not one of its kind.
fn number(abi: Abi, s: Scalar, n: i128) -> Option<Value>
    ensures number { result ≡ number abi s n }
    ensures value { IfSome result (IsValue abi s) }
{
    match number_as(s.kind(abi), n) {
        Some(n) => Some(Value::Int(n)),
        None => None,
    }
}

/// 1 or 0 for a test (C11 6.5.8p6, 6.5.9p3).
fn told(abi: Abi, s: Scalar, holds: bool) -> Option<Value>
    ensures told { result ≡ told_from abi s (Some holds) }
    ensures value { IfSome result (IsValue abi s) }
{
    number(abi, s, if holds { 1 } else { 0 })
}

/// A shift of a number of a kind by another number.
fn moved(left: bool, kind: IntKind, a: i128, b: i128) -> Option<i128>
    requires { IsOf kind a }
    ensures number { result ≡ moved left kind a b }
    ensures value { IfSome result (IsOf kind) }
{
    if left {
        arith(BinOp::Shl, kind, a, b)
    } else {
        arith(BinOp::Shr, kind, a, b)
    }
}

/// `-` or `~` on a number of a kind, and `!` on it.
fn unary(op: UnOp, kind: IntKind, a: i128) -> Option<i128>
    requires { IsOf kind a }
    ensures number { result ≡ unary_of op kind a }
    ensures value { IfSome result (IsOf kind) }
{
    match op {
        UnOp::Neg => arith(BinOp::Sub, kind, 0, a),
        UnOp::Compl => Some(wrap(kind, -1 - a)),
        UnOp::Not => Some(if a == 0 { 1 } else { 0 }),
    }
}

/// A comparison of two pointers, as a value of a scalar.
fn relation(mem: &Store, s: Scalar, op: BinOp, v: Value, w: Value) -> Option<Value>
    ensures told { result ≡ told_from mem.now.abi s (compared (memory mem.now) op v w) }
    ensures value { IfSome result (IsValue mem.now.abi s) }
{
    let holds = mem.compare(op, v, w)?;
    told(mem.abi(), s, holds)
}

/// The sum of a pointer and an integer of a kind.
fn sum(mem: &Store, size: u32, kind: IntKind, v: Value, i: Value) -> Option<Value>
    requires { IsValue mem.now.abi (Scalar.Int kind) i }
    ensures moved { result ≡ pointer_sum (memory mem.now) v i size }
    ensures value { IfSome result (IsValue mem.now.abi Scalar.Ptr) }
{
    mem.pointer_sum(v, i, size)
}

/// A pointer less an integer of a kind.
fn less(mem: &Store, size: u32, kind: IntKind, v: Value, i: Value) -> Option<Value>
    requires { IsValue mem.now.abi (Scalar.Int kind) i }
    ensures moved { result ≡ pointer_less (memory mem.now) v i size }
    ensures value { IfSome result (IsValue mem.now.abi Scalar.Ptr) }
{
    mem.pointer_less(v, i, size)
}

/// A pointer to the beginning of what has a name.
fn beginning(name: ObjName) -> Pointer
    ensures { Value.Ptr result ≡ pointer_at name }
{
    Pointer { name, offset: 0 }
}

/// A pointer to what has a name, as a value.
fn to_name(mem: &Store, name: ObjName) -> Value
    ensures pointer { result ≡ pointer_at name }
    ensures value { IsValue mem.now.abi Scalar.Ptr result }
{
    // The store tells the data model alone.
    let _abi = mem.abi();
    Value::Ptr(beginning(name))
}

/// The place of an element, by an index of a kind.
fn element(mem: &Store, size: u32, kind: IntKind, v: Value, i: Value) -> Option<Value>
    requires { IsValue mem.now.abi (Scalar.Int kind) i }
    ensures place { result ≡ element_place (memory mem.now) v i size }
    ensures value { IfSome result (IsValue mem.now.abi Scalar.Ptr) }
{
    mem.element(v, i, size)
}

/// The difference of two pointers (C11 6.5.6p9). Elements of no size are as far apart as their bytes where they are
/// one (own).
fn difference(mem: &Store, v: Value, w: Value, size: u32) -> Option<Value>
    ensures difference { result ≡ pointer_difference mem.now.abi (memory mem.now) v w size }
    ensures value { IfSome result (IsValue mem.now.abi (Scalar.Int (long_of mem.now.abi))) }
{
    if size == 0 {
        no_elements(mem, v, w)
    } else {
        mem.pointer_difference(v, w, size)
    }
}

/// The difference of two pointers to elements of no size, which is 0 where they are one.
#[tactic(auto, using(cil_base::proofs::KindLaws::zero_fits))]
fn no_elements(mem: &Store, v: Value, w: Value) -> Option<Value>
    ensures difference { result ≡ pointer_difference mem.now.abi (memory mem.now) v w 0 }
    ensures value { IfSome result (IsValue mem.now.abi (Scalar.Int (long_of mem.now.abi))) }
{
    match mem.pointer_difference(v, w, 1)? {
        Value::Int(0) => Some(Value::Int(0)),
        _ => None,
    }
}

/// The place of a member.
fn member(mem: &Store, offset: u32, v: Value) -> Option<Value>
    ensures place { result ≡ member_place (memory mem.now) v offset }
    ensures value { IfSome result (IsValue mem.now.abi Scalar.Ptr) }
{
    mem.member(v, offset)
}

/// A conversion.
fn converted(mem: &Store, s: Scalar, v: Value) -> Option<Value>
    ensures converted { result ≡ Some (converted mem.now.abi s v) }
    ensures value { IfSome result (IsValue mem.now.abi s) }
{
    Some(convert(mem.abi(), s, v))
}

/// Whether the kind is _Bool.
fn is_boolean(kind: IntKind) -> bool
    ensures { result ≡ is_boolean kind }
{
    kind == IntKind::Bool
}

/// What a pointer points to.
fn pointed(mem: &Store, v: Value) -> Option<Value>
    requires { IsValue mem.now.abi Scalar.Ptr v }
    ensures place { result ≡ place_of v }
    ensures value { IfSome result (IsValue mem.now.abi Scalar.Ptr) }
{
    // The store tells the data model alone.
    let _abi = mem.abi();
    v.place()
}

/// A number of a kind, as a value.
fn whole(abi: Abi, kind: IntKind, n: Option<i128>) -> Option<Value>
    requires { IfSome n (IsOf kind) }
    ensures value { result ≡ option_map Value.Int n }
    ensures scalar { IfSome result (IsValue abi (Scalar.Int kind)) }
{
    match n {
        Some(n) => Some(Value::Int(n)),
        None => None,
    }
}

/// A pointer, where it is asked for as a value of a scalar.
fn pointer_for(abi: Abi, s: Scalar, v: Option<Value>) -> Option<Value>
    requires { IfSome v (IsValue abi Scalar.Ptr) }
    ensures pointer { result ≡ pointer_for s v }
    ensures value { IfSome result (IsValue abi s) }
{
    // The data model alone has the sizes of pointers.
    let _long = abi.long();
    match s {
        Scalar::Int(_) => None,
        Scalar::Ptr => v,
    }
}

/// The difference of two pointers, where it is asked for as a value of a scalar.
fn difference_at(mem: &Store, s: Scalar, v: Value, w: Value, size: u32) -> Option<Value>
    ensures difference { result ≡ difference_at mem.now.abi s (memory mem.now) v w size }
    ensures value { IfSome result (IsValue mem.now.abi s) }
{
    match s {
        Scalar::Int(kind) => {
            if kind == mem.abi().long() {
                difference(mem, v, w, size)
            } else {
                None
            }
        }
        Scalar::Ptr => None,
    }
}

// Each operator is a function of its own: a function fills its locals whenever it is entered, and terms are many. What
// gives only numbers is computed on numbers, which are smaller than values.

/// What stands at a place.
#[cycle(evaluation)]
fn value_at(mem: &Store, act: u64, s: Scalar, place: &Spot) -> Option<Value>
    ensures value { result ≡ read_at mem.now.abi (memory mem.now) s (pointer_from mem.now.abi (memory mem.now) act place.now) }
    ensures scalar { IfSome result (IsValue mem.now.abi s) }
{
    mem.load(place_pointer(mem, act, place)?, s)
}

/// The number that stands at a place.
#[cycle(evaluation)]
fn number_at(mem: &Store, act: u64, kind: IntKind, place: &Spot) -> Option<i128>
    ensures number { result ≡ number_of (read_at mem.now.abi (memory mem.now) (Scalar.Int kind) (pointer_from mem.now.abi (memory mem.now) act place.now)) }
    ensures value { IfSome result (IsOf kind) }
{
    mem.load_number(place_pointer(mem, act, place)?, kind)
}

/// Whether a number of a kind is none but 0.
#[cycle(evaluation)]
fn is_some_number(mem: &Store, act: u64, kind: IntKind, t: &Term) -> Option<bool>
    ensures { result ≡ option_map (λ n. not (int_eq n (pos 0))) (number_by mem.now.abi (memory mem.now) act kind t.now) }
{
    Some(term_number(mem, act, kind, t)? != 0)
}

/// Whether a term, as a value of a scalar, compares unequal to 0 (C11 6.8.4.1p2). None exactly where that is undefined.
#[cycle(evaluation)]
pub fn term_truth(mem: &Store, act: u64, of: Scalar, t: &Term) -> Option<bool>
    ensures { result ≡ tested mem.now.abi (memory mem.now) act of t.now }
{
    match of {
        Scalar::Int(kind) => is_some_number(mem, act, kind, t),
        Scalar::Ptr => mem.truth(of, term_value(mem, act, of, t)?),
    }
}

/// Whether an operand compares equal to 0.
#[cycle(evaluation)]
fn value_of_not(mem: &Store, act: u64, s: Scalar, of: Scalar, e: &Term) -> Option<Value>
    ensures value { result ≡ told_from mem.now.abi s (option_map not (tested mem.now.abi (memory mem.now) act of e.now)) }
    ensures scalar { IfSome result (IsValue mem.now.abi s) }
{
    let holds = term_truth(mem, act, of, e)?;
    told(mem.abi(), s, !holds)
}

/// The same as a number of a kind.
#[cycle(evaluation)]
fn number_of_not(mem: &Store, act: u64, kind: IntKind, of: Scalar, e: &Term) -> Option<i128>
    ensures number { result ≡ told_as kind (option_map not (tested mem.now.abi (memory mem.now) act of e.now)) }
    ensures value { IfSome result (IsOf kind) }
{
    let holds = term_truth(mem, act, of, e)?;
    number_as(kind, if holds { 0 } else { 1 })
}

/// A unary operator on an operand.
#[cycle(evaluation)]
fn number_of_unary(mem: &Store, act: u64, kind: IntKind, op: UnOp, e: &Term) -> Option<i128>
    ensures number { result ≡ of_number (number_by mem.now.abi (memory mem.now) act kind e.now) (unary_of op kind) }
    ensures value { IfSome result (IsOf kind) }
{
    unary(op, kind, term_number(mem, act, kind, e)?)
}

/// An operator on two operands of a kind.
#[cycle(evaluation)]
fn number_of_arithmetic(
    mem: &Store,
    act: u64,
    kind: IntKind,
    op: BinOp,
    e: &Term,
    f: &Term,
) -> Option<i128>
    ensures number { result ≡ of_numbers (number_by mem.now.abi (memory mem.now) act kind e.now) (number_by mem.now.abi (memory mem.now) act kind f.now) (arith_of op kind) }
    ensures value { IfSome result (IsOf kind) }
{
    let a = term_number(mem, act, kind, e)?;
    let b = term_number(mem, act, kind, f)?;
    arith(op, kind, a, b)
}

/// A shift of an operand by one of another kind.
#[cycle(evaluation)]
fn number_of_shift(
    mem: &Store,
    act: u64,
    kind: IntKind,
    left: bool,
    by: IntKind,
    e: &Term,
    f: &Term,
) -> Option<i128>
    ensures number { result ≡ of_numbers (number_by mem.now.abi (memory mem.now) act kind e.now) (number_by mem.now.abi (memory mem.now) act by f.now) (moved left kind) }
    ensures value { IfSome result (IsOf kind) }
{
    let a = term_number(mem, act, kind, e)?;
    let b = term_number(mem, act, by, f)?;
    moved(left, kind, a, b)
}

/// A comparison of two operands of a kind, as a value of a scalar.
#[cycle(evaluation)]
fn value_of_compare(
    mem: &Store,
    act: u64,
    s: Scalar,
    op: BinOp,
    of: IntKind,
    e: &Term,
    f: &Term,
) -> Option<Value>
    ensures value { result ≡ number_from mem.now.abi s (of_numbers (number_by mem.now.abi (memory mem.now) act of e.now) (number_by mem.now.abi (memory mem.now) act of f.now) (arith_of op of)) }
    ensures scalar { IfSome result (IsValue mem.now.abi s) }
{
    let n = number_of_arithmetic(mem, act, of, op, e, f)?;
    number(mem.abi(), s, n)
}

/// The same as a number of a kind.
#[cycle(evaluation)]
fn number_of_compare(
    mem: &Store,
    act: u64,
    kind: IntKind,
    op: BinOp,
    of: IntKind,
    e: &Term,
    f: &Term,
) -> Option<i128>
    ensures number { result ≡ of_number (of_numbers (number_by mem.now.abi (memory mem.now) act of e.now) (number_by mem.now.abi (memory mem.now) act of f.now) (arith_of op of)) (number_as kind) }
    ensures value { IfSome result (IsOf kind) }
{
    number_as(kind, number_of_arithmetic(mem, act, of, op, e, f)?)
}

/// The sum of a pointer and an integer of a kind.
#[cycle(evaluation)]
fn value_of_sum(
    mem: &Store,
    act: u64,
    s: Scalar,
    size: u32,
    kind: IntKind,
    e: &Term,
    f: &Term,
) -> Option<Value>
    ensures value { result ≡ of_two (term_value mem.now.abi (memory mem.now) act Scalar.Ptr e.now) (term_value mem.now.abi (memory mem.now) act (Scalar.Int kind) f.now) (λ v i. pointer_for s (pointer_sum (memory mem.now) v i size)) }
    ensures scalar { IfSome result (IsValue mem.now.abi s) }
{
    let v = term_value(mem, act, Scalar::Ptr, e)?;
    let i = term_value(mem, act, Scalar::Int(kind), f)?;
    pointer_for(mem.abi(), s, sum(mem, size, kind, v, i))
}

/// A pointer less an integer of a kind.
#[cycle(evaluation)]
fn value_of_less(
    mem: &Store,
    act: u64,
    s: Scalar,
    size: u32,
    kind: IntKind,
    e: &Term,
    f: &Term,
) -> Option<Value>
    ensures value { result ≡ of_two (term_value mem.now.abi (memory mem.now) act Scalar.Ptr e.now) (term_value mem.now.abi (memory mem.now) act (Scalar.Int kind) f.now) (λ v i. pointer_for s (pointer_less (memory mem.now) v i size)) }
    ensures scalar { IfSome result (IsValue mem.now.abi s) }
{
    let v = term_value(mem, act, Scalar::Ptr, e)?;
    let i = term_value(mem, act, Scalar::Int(kind), f)?;
    pointer_for(mem.abi(), s, less(mem, size, kind, v, i))
}

/// The difference of two pointers.
#[cycle(evaluation)]
fn value_of_difference(
    mem: &Store,
    act: u64,
    s: Scalar,
    size: u32,
    e: &Term,
    f: &Term,
) -> Option<Value>
    ensures value { result ≡ of_two (term_value mem.now.abi (memory mem.now) act Scalar.Ptr e.now) (term_value mem.now.abi (memory mem.now) act Scalar.Ptr f.now) (λ v w. difference_at mem.now.abi s (memory mem.now) v w size) }
    ensures scalar { IfSome result (IsValue mem.now.abi s) }
{
    let v = term_value(mem, act, Scalar::Ptr, e)?;
    difference_at(mem, s, v, term_value(mem, act, Scalar::Ptr, f)?, size)
}

/// A comparison of two pointers.
#[cycle(evaluation)]
fn value_of_relation(
    mem: &Store,
    act: u64,
    s: Scalar,
    op: BinOp,
    e: &Term,
    f: &Term,
) -> Option<Value>
    ensures value { result ≡ of_two (term_value mem.now.abi (memory mem.now) act Scalar.Ptr e.now) (term_value mem.now.abi (memory mem.now) act Scalar.Ptr f.now) (λ v w. told_from mem.now.abi s (compared (memory mem.now) op v w)) }
    ensures scalar { IfSome result (IsValue mem.now.abi s) }
{
    let v = term_value(mem, act, Scalar::Ptr, e)?;
    let w = term_value(mem, act, Scalar::Ptr, f)?;
    relation(mem, s, op, v, w)
}

/// The number of a difference of two pointers, as a value of a kind.
#[cycle(evaluation)]
fn number_of_difference(
    mem: &Store,
    act: u64,
    kind: IntKind,
    size: u32,
    e: &Term,
    f: &Term,
) -> Option<i128>
    ensures number { result ≡ number_of (of_two (term_value mem.now.abi (memory mem.now) act Scalar.Ptr e.now) (term_value mem.now.abi (memory mem.now) act Scalar.Ptr f.now) (λ v w. difference_at mem.now.abi (Scalar.Int kind) (memory mem.now) v w size)) }
    ensures value { IfSome result (IsOf kind) }
{
    value_of_difference(mem, act, Scalar::Int(kind), size, e, f)?.number()
}

/// The number of a comparison of two pointers, as a value of a kind.
#[cycle(evaluation)]
fn number_of_relation(
    mem: &Store,
    act: u64,
    kind: IntKind,
    op: BinOp,
    e: &Term,
    f: &Term,
) -> Option<i128>
    ensures number { result ≡ number_of (of_two (term_value mem.now.abi (memory mem.now) act Scalar.Ptr e.now) (term_value mem.now.abi (memory mem.now) act Scalar.Ptr f.now) (λ v w. told_from mem.now.abi (Scalar.Int kind) (compared (memory mem.now) op v w))) }
    ensures value { IfSome result (IsOf kind) }
{
    value_of_relation(mem, act, Scalar::Int(kind), op, e, f)?.number()
}

/// A conversion of an operand.
#[cycle(evaluation)]
fn value_of_conversion(mem: &Store, act: u64, s: Scalar, from: Scalar, e: &Term) -> Option<Value>
    ensures value { result ≡ of_one (term_value mem.now.abi (memory mem.now) act from e.now) (λ v. Some (converted mem.now.abi s v)) }
    ensures scalar { IfSome result (IsValue mem.now.abi s) }
{
    converted(mem, s, term_value(mem, act, from, e)?)
}

/// The number of a conversion of an operand that may be a pointer.
#[cycle(evaluation)]
fn number_of_any(mem: &Store, act: u64, kind: IntKind, from: Scalar, e: &Term) -> Option<i128>
    ensures number { result ≡ number_of (of_one (term_value mem.now.abi (memory mem.now) act from e.now) (λ v. Some (converted mem.now.abi (Scalar.Int kind) v))) }
    ensures value { IfSome result (IsOf kind) }
{
    value_of_conversion(mem, act, Scalar::Int(kind), from, e)?.number()
}

/// The number of a conversion of a number.
#[cycle(evaluation)]
fn number_of_number(mem: &Store, act: u64, kind: IntKind, of: IntKind, e: &Term) -> Option<i128>
    ensures number { result ≡ option_map (wrapped kind) (number_by mem.now.abi (memory mem.now) act of e.now) }
    ensures value { IfSome result (IsOf kind) }
{
    Some(wrap(kind, term_number(mem, act, of, e)?))
}

/// The number of a conversion of an operand. A pointer is a number as _Bool alone.
#[cycle(evaluation)]
fn number_of_conversion(
    mem: &Store,
    act: u64,
    kind: IntKind,
    from: Scalar,
    e: &Term,
) -> Option<i128>
    ensures number { result ≡ number_of (of_one (term_value mem.now.abi (memory mem.now) act from e.now) (λ v. Some (converted mem.now.abi (Scalar.Int kind) v))) }
    ensures value { IfSome result (IsOf kind) }
{
    if is_boolean(kind) {
        return number_of_any(mem, act, kind, from, e);
    }
    match from {
        Scalar::Int(of) => number_of_number(mem, act, kind, of, e),
        Scalar::Ptr => number_of_any(mem, act, kind, from, e),
    }
}

/// The number that a term is as a value of a kind, for an activation. None exactly where it is undefined, or no number.
#[cycle(evaluation)]
pub fn term_number(mem: &Store, act: u64, kind: IntKind, t: &Term) -> Option<i128>
    ensures number { result ≡ number_by mem.now.abi (memory mem.now) act kind t.now }
    ensures value { IfSome result (IsOf kind) }
{
    match t {
        Term::Number(n) => number_as(kind, i128::from(*n)),
        Term::Load(place) => number_at(mem, act, kind, place),
        Term::Not(of, e) => number_of_not(mem, act, kind, *of, e),
        Term::Unary(op, e) => number_of_unary(mem, act, kind, *op, e),
        Term::Arithmetic(op, e, f) => number_of_arithmetic(mem, act, kind, *op, e, f),
        Term::Shift(left, by, e, f) => number_of_shift(mem, act, kind, *left, *by, e, f),
        Term::Compare(op, of, e, f) => number_of_compare(mem, act, kind, *op, *of, e, f),
        Term::Difference(size, e, f) => number_of_difference(mem, act, kind, *size, e, f),
        Term::Relation(op, e, f) => number_of_relation(mem, act, kind, *op, e, f),
        Term::Convert(from, e) => number_of_conversion(mem, act, kind, *from, e),
        Term::Sum(..) => None,
        Term::Less(..) => None,
        Term::Address(_) => None,
        Term::Wrong => None,
    }
}

/// The value of a term that is a number wherever it is defined, where it is asked for as one of a scalar.
#[cycle(evaluation)]
fn value_of_number(mem: &Store, act: u64, s: Scalar, t: &Term) -> Option<Value>
    ensures value { result ≡ as_number s (term_value mem.now.abi (memory mem.now) act s t.now) }
    ensures scalar { IfSome result (IsValue mem.now.abi s) }
{
    match s {
        Scalar::Int(kind) => whole(mem.abi(), kind, term_number(mem, act, kind, t)),
        Scalar::Ptr => None,
    }
}

/// The value of a term, for an activation, as a value of a scalar. None exactly where it is undefined.
#[cycle(evaluation)]
pub fn term_value(mem: &Store, act: u64, s: Scalar, t: &Term) -> Option<Value>
    ensures value { result ≡ term_value mem.now.abi (memory mem.now) act s t.now }
    ensures scalar { IfSome result (IsValue mem.now.abi s) }
{
    match t {
        Term::Number(n) => number(mem.abi(), s, i128::from(*n)),
        Term::Load(place) => value_at(mem, act, s, place),
        Term::Not(of, e) => value_of_not(mem, act, s, *of, e),
        Term::Unary(..) => value_of_number(mem, act, s, t),
        Term::Arithmetic(..) => value_of_number(mem, act, s, t),
        Term::Shift(..) => value_of_number(mem, act, s, t),
        Term::Compare(op, of, e, f) => value_of_compare(mem, act, s, *op, *of, e, f),
        Term::Sum(size, kind, e, f) => value_of_sum(mem, act, s, *size, *kind, e, f),
        Term::Less(size, kind, e, f) => value_of_less(mem, act, s, *size, *kind, e, f),
        Term::Difference(size, e, f) => value_of_difference(mem, act, s, *size, e, f),
        Term::Relation(op, e, f) => value_of_relation(mem, act, s, *op, e, f),
        Term::Convert(from, e) => value_of_conversion(mem, act, s, *from, e),
        Term::Address(place) => pointer_for(mem.abi(), s, spot_place(mem, act, place)),
        Term::Wrong => None,
    }
}

/// What a pointer points to.
#[cycle(evaluation)]
fn place_pointed(mem: &Store, act: u64, e: &Term) -> Option<Value>
    ensures value { result ≡ of_one (term_value mem.now.abi (memory mem.now) act Scalar.Ptr e.now) place_of }
    ensures scalar { IfSome result (IsValue mem.now.abi Scalar.Ptr) }
{
    pointed(mem, term_value(mem, act, Scalar::Ptr, e)?)
}

/// The place of a member of an object.
#[cycle(evaluation)]
fn place_of_member(mem: &Store, act: u64, offset: u32, whole: &Spot) -> Option<Value>
    ensures value { result ≡ of_one (spot_place mem.now.abi (memory mem.now) act whole.now) (λ v. member_place (memory mem.now) v offset) }
    ensures scalar { IfSome result (IsValue mem.now.abi Scalar.Ptr) }
{
    member(mem, offset, spot_place(mem, act, whole)?)
}

/// The place of an element of an array.
#[cycle(evaluation)]
fn place_of_element(
    mem: &Store,
    act: u64,
    size: u32,
    kind: IntKind,
    whole: &Spot,
    e: &Term,
) -> Option<Value>
    ensures value { result ≡ of_two (spot_place mem.now.abi (memory mem.now) act whole.now) (term_value mem.now.abi (memory mem.now) act (Scalar.Int kind) e.now) (λ v i. element_place (memory mem.now) v i size) }
    ensures scalar { IfSome result (IsValue mem.now.abi Scalar.Ptr) }
{
    let v = spot_place(mem, act, whole)?;
    let i = term_value(mem, act, Scalar::Int(kind), e)?;
    element(mem, size, kind, v, i)
}

/// The place that a resolved place is, for an activation. None exactly where it is undefined.
#[cycle(evaluation)]
pub fn spot_place(mem: &Store, act: u64, place: &Spot) -> Option<Value>
    ensures place { result ≡ spot_place mem.now.abi (memory mem.now) act place.now }
    ensures scalar { IfSome result (IsValue mem.now.abi Scalar.Ptr) }
{
    match place {
        Spot::Entity(e) => Some(to_name(mem, ObjName::Entity(*e))),
        Spot::Local(l) => Some(to_name(mem, ObjName::Local(act, *l))),
        Spot::At(e) => place_pointed(mem, act, e),
        Spot::Member(offset, whole) => place_of_member(mem, act, *offset, whole),
        Spot::Element(size, kind, whole, e) => place_of_element(mem, act, *size, *kind, whole, e),
        Spot::Wrong => None,
    }
}

/// The pointer that a place is, for an activation. None exactly where it is undefined, or no pointer.
// Most places are objects by name: the pointer is then made where it is used.
#[cycle(evaluation)]
#[inline(always)]
pub fn place_pointer(mem: &Store, act: u64, place: &Spot) -> Option<Pointer>
    ensures { result ≡ pointer_from mem.now.abi (memory mem.now) act place.now }
{
    match place {
        Spot::Entity(e) => Some(beginning(ObjName::Entity(*e))),
        Spot::Local(l) => Some(beginning(ObjName::Local(act, *l))),
        Spot::At(_) | Spot::Member(..) | Spot::Element(..) | Spot::Wrong => {
            spot_place(mem, act, place)?.pointer()
        }
    }
}
