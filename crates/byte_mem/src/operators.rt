ghost use Rattle.std.specs.Prelude.{◌≡◌, ◌<◌, ◌≤◌, ◌^◌, true, false, pos, neg_ℤ, ◌*ℤ◌, ◌-ℤ◌, int_div, int_rem, unsigned_abs, option_map};
ghost use Rattle.std.specs.Option.{ForSome};
ghost use Rattle.std.specs.Ordering.{int_eq};
ghost use Rattle.cil_base.specs.Integer.{IsOf};
ghost use Rattle.cil_base.specs.Arithmetic.{is_shift};
ghost use Rattle.byte_mem.specs.Operator.{is_boolean_scalar, converted, converted_pointer, converted_part, number_in, pointer_in, place_of, in_reach, reached, truth, is_past_end, equal_pointers, equal_null, equal, IsIndex, offsets_in, offsets, compared, further_pointer, further, pointer_sum, pointer_less, distance, pointer_difference, member_place, element_place, computed, unary};
ghost use Rattle.byte_mem.specs.Store.{memory};

use crate::objects::Object;
use crate::pointers::{Pointer, is_same_name};
use crate::stores::Store;
use crate::values::{Scalar, Value};
use cil_base::{Abi, BinOp, IntKind, UnOp, arith, wrap};

/// A value converted to the type of a scalar (C11 6.3.1.2, 6.3.1.3, 6.3.2.3). A number wraps (own for a
/// signed type); a pointer stays what it is in a type of its size, gives 1 as `_Bool`, and is Unknown in
/// another type; a part of a pointer stays what it is in a type of one byte other than `_Bool`, and is
/// Unknown in another one (own).
pub fn convert(abi: Abi, to: Scalar, v: Value) -> Value
    ensures { result ≡ converted abi to v }
{
    match v {
        Value::Int(n) => Value::Int(wrap(to.kind(abi), n)),
        Value::Ptr(p) => convert_pointer(abi, to, p),
        Value::Unknown => Value::Unknown,
        Value::Part(p, k) => convert_part(abi, to, p, k),
    }
}

fn convert_pointer(abi: Abi, to: Scalar, p: Pointer) -> Value
    ensures { result ≡ converted_pointer abi to p }
{
    if is_boolean(to) {
        Value::Int(1)
    } else if to.size(abi) == abi.pointer_size() {
        Value::Ptr(p)
    } else {
        Value::Unknown
    }
}

fn convert_part(abi: Abi, to: Scalar, p: Pointer, k: u8) -> Value
    ensures { result ≡ converted_part abi to p k }
{
    if is_boolean(to) {
        Value::Unknown
    } else if to.size(abi) == 1 {
        Value::Part(p, k)
    } else {
        Value::Unknown
    }
}

fn is_boolean(s: Scalar) -> bool
    ensures { result ≡ is_boolean_scalar s }
{
    match s {
        Scalar::Int(kind) => kind == IntKind::Bool,
        Scalar::Ptr => false,
    }
}

impl Value {
    /// The number that an operand of an operator is, None where a pointer, a part or Unknown stands in its
    /// place (own).
    pub fn number(self) -> Option<i128>
        ensures { result ≡ number_in self }
    {
        match self {
            Value::Int(n) => Some(n),
            Value::Ptr(_) | Value::Unknown | Value::Part(_, _) => None,
        }
    }

    /// The pointer that an operand of an operator is, None where it is none (own: also for a number).
    pub fn pointer(self) -> Option<Pointer>
        ensures { result ≡ pointer_in self }
    {
        match self {
            Value::Ptr(p) => Some(p),
            Value::Int(_) | Value::Unknown | Value::Part(_, _) => None,
        }
    }

    /// The place that `*` designates with this operand (C11 6.5.3.2p4), None for a part and for Unknown. A
    /// place is a value: that something is live there with room is asked where the place is used.
    pub fn place(self) -> Option<Value>
        ensures { result ≡ place_of self }
    {
        match self {
            Value::Int(_) | Value::Ptr(_) => Some(self),
            Value::Unknown | Value::Part(_, _) => None,
        }
    }
}

/// A binary operator on two values of a kind, of a shift the right one of any kind (C11 6.5.5 to 6.5.12),
/// None exactly where an operand is no number or arithmetic leaves the result undefined.
pub fn compute(op: BinOp, kind: IntKind, v: Value, w: Value) -> Option<Value>
    requires left { ForSome (number_in v) (IsOf kind) }
    requires right { is_shift op ≡ false → ForSome (number_in w) (IsOf kind) }
    ensures { result ≡ computed op kind v w }
{
    let a = v.number()?;
    let b = w.number()?;
    match arith(op, kind, a, b) {
        Some(n) => Some(Value::Int(n)),
        None => None,
    }
}

/// A unary operator on a value of a kind (C11 6.5.3.3), None exactly where the operand is no number or
/// arithmetic leaves the result undefined.
#[tactic(auto, using(crate::proofs::OperatorLemmas::zero_value))]
pub fn compute_unary(op: UnOp, kind: IntKind, v: Value) -> Option<Value>
    requires { ForSome (number_in v) (IsOf kind) }
    ensures { result ≡ unary op kind v }
{
    let a = v.number()?;
    match op {
        UnOp::Neg => match arith(BinOp::Sub, kind, 0, a) {
            Some(n) => Some(Value::Int(n)),
            None => None,
        },
        UnOp::Compl => Some(Value::Int(wrap(kind, -1 - a))),
        UnOp::Not => Some(Value::Int(if a == 0 { 1 } else { 0 })),
    }
}

impl Store {
    /// What a pointer leads to that an operator may use.
    fn reached(&self, p: Pointer) -> Option<Object<'_>>
        ensures { reached (memory self.now) p ≡ result }
    {
        match self.find(p.name) {
            Some(object) => {
                if in_reach(p, object.len()) {
                    Some(object)
                } else {
                    None
                }
            }
            None => None,
        }
    }

    /// A test of a value of a scalar's type (C11 6.8.4.1p2), None exactly where it is Unknown, a part, a
    /// pointer in an integer type, or a pointer to what is dead or beyond its object (own).
    pub fn truth(&self, s: Scalar, v: Value) -> Option<bool>
        ensures { result ≡ truth (memory self.now) s v }
    {
        match v {
            Value::Int(n) => Some(n != 0),
            Value::Ptr(p) => match s {
                Scalar::Int(_) => None,
                Scalar::Ptr => self.is_usable(p),
            },
            Value::Unknown | Value::Part(_, _) => None,
        }
    }

    fn is_usable(&self, p: Pointer) -> Option<bool>
        ensures { result ≡ option_map (λ h. true) (reached (memory self.now) p) }
    {
        match self.reached(p) {
            Some(_) => Some(true),
            None => None,
        }
    }

    /// A comparison of two values of pointer types (C11 6.5.8, 6.5.9). `==` and `!=` are undefined where an
    /// operand is Unknown, a part, or a pointer to what is dead or beyond its object, for a number other than
    /// 0 with a pointer, and for a place one past the end with another object's (own); the others ask for two
    /// pointers into one object. An operator that compares nothing gives None.
    pub fn compare(&self, op: BinOp, v: Value, w: Value) -> Option<bool>
        ensures { result ≡ compared (memory self.now) op v w }
    {
        match op {
            BinOp::Eq => self.equal(v, w),
            BinOp::Ne => match self.equal(v, w) {
                Some(b) => Some(!b),
                None => None,
            },
            BinOp::Lt => match self.offsets(v, w) {
                Some((a, b)) => Some(a < b),
                None => None,
            },
            BinOp::Gt => match self.offsets(v, w) {
                Some((a, b)) => Some(b < a),
                None => None,
            },
            BinOp::Le => match self.offsets(v, w) {
                Some((a, b)) => Some(a <= b),
                None => None,
            },
            BinOp::Ge => match self.offsets(v, w) {
                Some((a, b)) => Some(b <= a),
                None => None,
            },
            _ => None,
        }
    }

    fn equal(&self, v: Value, w: Value) -> Option<bool>
        ensures { result ≡ equal (memory self.now) v w }
    {
        match (v, w) {
            (Value::Int(m), Value::Int(n)) => Some(m == n),
            (Value::Int(n), Value::Ptr(q)) => self.equal_null(n, q),
            (Value::Ptr(p), Value::Int(n)) => self.equal_null(n, p),
            (Value::Ptr(p), Value::Ptr(q)) => self.equal_pointers(p, q),
            _ => None,
        }
    }

    fn equal_null(&self, n: i128, p: Pointer) -> Option<bool>
        ensures { result ≡ equal_null (memory self.now) n p }
    {
        if n != 0 {
            return None;
        }
        match self.reached(p) {
            Some(_) => Some(false),
            None => None,
        }
    }

    fn equal_pointers(&self, p: Pointer, q: Pointer) -> Option<bool>
        ensures { result ≡ equal_pointers (memory self.now) p q }
    {
        let h = self.reached(p)?;
        let k = self.reached(q)?;
        if is_same_name(p.name, q.name) {
            Some(p.offset == q.offset)
        } else if is_past_end(&h, p) || is_past_end(&k, q) {
            None
        } else {
            Some(false)
        }
    }

    fn offsets(&self, v: Value, w: Value) -> Option<(i64, i64)>
        ensures { result ≡ offsets (memory self.now) v w }
    {
        let p = v.pointer()?;
        let q = w.pointer()?;
        self.offsets_in(p, q)
    }

    fn offsets_in(&self, p: Pointer, q: Pointer) -> Option<(i64, i64)>
        ensures { result ≡ offsets_in (memory self.now) p q }
    {
        let _ = self.reached(p)?;
        let _ = self.reached(q)?;
        if is_same_name(p.name, q.name) {
            Some((p.offset, q.offset))
        } else {
            None
        }
    }

    /// A pointer and an integer added, for elements of that size (C11 6.5.6p8), None exactly where the one is
    /// no pointer or the other no number, the pointer is to what is dead or beyond its object, or the sum
    /// would be beyond it.
    pub fn pointer_sum(&self, v: Value, i: Value, size: u32) -> Option<Value>
        requires { IsIndex i }
        ensures { result ≡ pointer_sum (memory self.now) v i size }
    {
        let n = i.number()?;
        let p = v.pointer()?;
        self.further(p, scaled(n, size))
    }

    /// An integer subtracted from a pointer (C11 6.5.6p8), None exactly as for a sum.
    pub fn pointer_less(&self, v: Value, i: Value, size: u32) -> Option<Value>
        requires { IsIndex i }
        ensures { result ≡ pointer_less (memory self.now) v i size }
    {
        let n = i.number()?;
        let p = v.pointer()?;
        self.further(p, negated(scaled(n, size)))
    }

    /// The difference of two pointers in elements of that size (C11 6.5.6p9), None exactly where they do not
    /// lead to one live object, their distance is no multiple of the size (own), or it is no value of the data model's
    /// `long`.
    pub fn pointer_difference(&self, v: Value, w: Value, size: u32) -> Option<Value>
        requires { 0 < size }
        ensures { result ≡ pointer_difference self.now.abi (memory self.now) v w size }
    {
        let (a, b) = self.offsets(v, w)?;
        distance(self.abi(), a, b, size)
    }

    /// The place of a member at an offset in the aggregate at a place (C11 6.5.2.3p3), None exactly where the
    /// place is no pointer into a live object that has that offset behind it.
    pub fn member(&self, place: Value, offset: u32) -> Option<Value>
        ensures { result ≡ member_place (memory self.now) place offset }
    {
        let p = place.pointer()?;
        self.further(p, i128::from(offset))
    }

    /// The place of an element of the array at a place (C11 6.5.2.1p2), None exactly as for a sum.
    pub fn element(&self, place: Value, i: Value, size: u32) -> Option<Value>
        requires { IsIndex i }
        ensures { result ≡ element_place (memory self.now) place i size }
    {
        self.pointer_sum(place, i, size)
    }

    fn further(&self, p: Pointer, count: i128) -> Option<Value>
        requires { unsigned_abs count ≤ 2 ^ 96 }
        ensures { result ≡ further_pointer (memory self.now) p count }
    {
        let object = self.reached(p)?;
        let offset = i128::from(p.offset) + count;
        if 0 <= offset && offset <= i128::from(object.len()) {
            Some(Value::Ptr(Pointer {
                name: p.name,
                offset: offset as i64,
            }))
        } else {
            None
        }
    }
}

/// The distance of so many elements of that size.
fn scaled(n: i128, size: u32) -> i128
    requires { unsigned_abs n ≤ 2 ^ 64 }
    ensures value { result ≡ n *ℤ pos size }
    ensures bound { unsigned_abs result ≤ 2 ^ 96 }
{
    n * i128::from(size)
}

fn negated(d: i128) -> i128
    requires { unsigned_abs d ≤ 2 ^ 96 }
    ensures value { result ≡ neg_ℤ d }
    ensures bound { unsigned_abs result ≤ 2 ^ 96 }
{
    -d
}

/// The distance of two offsets in elements of that size, if it is a number of whole elements that `long` has.
fn distance(abi: Abi, a: i64, b: i64, size: u32) -> Option<Value>
    requires { 0 < size }
    ensures { result ≡ distance abi size (a, b) }
{
    let bytes = between(a, b);
    if !is_multiple(bytes, size) {
        return None;
    }
    let count = quotient(bytes, size);
    if abi.long().fits(count) {
        Some(Value::Int(count))
    } else {
        None
    }
}

fn between(a: i64, b: i64) -> i128
    ensures value { result ≡ a -ℤ b }
    ensures bound { unsigned_abs result ≤ 2 ^ 64 }
{
    i128::from(a) - i128::from(b)
}

fn is_multiple(d: i128, size: u32) -> bool
    requires some { 0 < size }
    requires bound { unsigned_abs d ≤ 2 ^ 64 }
    ensures { result ≡ int_eq (int_rem d (pos size)) (pos 0) }
{
    d % i128::from(size) == 0
}

fn quotient(d: i128, size: u32) -> i128
    requires some { 0 < size }
    requires bound { unsigned_abs d ≤ 2 ^ 64 }
    ensures { result ≡ int_div d (pos size) }
{
    d / i128::from(size)
}

/// Whether an offset lies in an object of that size or one past its end (C11 6.5.6p8).
fn in_reach(p: Pointer, size: u32) -> bool
    ensures { result ≡ in_reach p.offset size }
{
    p.offset >= 0 && p.offset <= i64::from(size)
}

fn is_past_end(object: &Object, p: Pointer) -> bool
    ensures { result ≡ is_past_end object.now p.offset }
{
    !object.is_function() && p.offset == i64::from(object.len())
}
