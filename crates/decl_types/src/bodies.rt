ghost use Rattle.std.specs.Prelude.{◌≡◌, true, IfErr, IfSome};
ghost use Rattle.cil_base.specs.declared.faults.Fault.TheVariants.{Constraint};
ghost use Rattle.decl_types.specs.Refusals.{IsRefusal, of_anonymous, of_body, of_member};

use crate::declared::MemberAt;
use crate::made_names::{MadeNames, name_anonymous};
use crate::new_names::NewName;
use crate::stops::{bad, impossible, laid, narrow, never};
use crate::types::{is_function, is_unbounded};
use cil_base::{AggId, Code, IntKind, Memory, NameId, NamePool, RuleStop};
use indexmap::{IndexMap, IndexSet};
use smallvec::SmallVec;
use std::alloc::Global;
use type_graph::{AggKind, Member, Members, QualType, Quals};
use unit_types::{Class, Types};

/// A step into a struct or union: the member, by its place.
#[derive(Clone, Copy)]
pub struct PathStep {
    pub agg: AggId,
    pub index: u32,
}

impl Default for PathStep {
    fn default() -> Self {
        PathStep {
            agg: AggId(0),
            index: 0,
        }
    }
}

/// The members on the way to an offered name, the outermost first; all but the last are anonymous.
pub type MemberPath = SmallVec<PathStep, 4>;

/// A name that an aggregate offers (C11 6.7.2.1p13).
#[derive(Clone, Copy, PartialEq, Eq, Hash)]
struct Field {
    agg: AggId,
    name: NameId,
}

/// A struct, union or enum whose body is open.
#[derive(Drop)]
struct OpenBody {
    agg: AggId,
    kind: AggKind,
    /// Whether it has a tag.
    tagged: bool,
    /// The qualifiers that stand beside the body.
    quals: Quals,
    members: Vec<Member>,
    /// The names that it offers, in the order of the text.
    offered: IndexSet<NameId>,
}

/// A struct or union without a tag whose body has ended.
#[derive(Drop)]
struct ClosedBody {
    agg: AggId,
    offered: IndexSet<NameId>,
}

/// The bodies that are open, the innermost last, and what each aggregate offers.
#[derive(Drop)]
pub(crate) struct Bodies {
    open: Vec<OpenBody>,
    /// The one that ended last, where it has no tag.
    closed: Option<ClosedBody>,
    /// The name that was offered twice.
    repeated: Option<NameId>,
    /// The member that has an offered name, or that is anonymous and offers it, by its place.
    fields: IndexMap<Field, u32>,
    alloc: Global,
}

/// A body to open.
#[derive(Clone, Copy)]
pub(crate) struct Opening {
    pub(crate) agg: AggId,
    pub(crate) kind: AggKind,
    pub(crate) tagged: bool,
    pub(crate) quals: Quals,
}

/// A member to add.
#[derive(Clone, Copy)]
pub(crate) struct NewMember {
    pub(crate) name: NewName,
    pub(crate) ty: QualType,
    pub(crate) at: MemberAt,
}

/// Whether a body may have a flexible array as its next member (C11 6.7.2.1p18).
fn is_flexible(b: &OpenBody, m: NewMember, t: &Types) -> bool {
    b.kind == AggKind::Struct
        && m.at == MemberAt::Last
        && !b.members.is_empty()
        && is_unbounded(t, m.ty.of)
}

/// The first constraint that a member violates.
fn member_code(b: &OpenBody, m: NewMember, t: &Types) -> Option<Code>
    ensures { IfSome result (λ code. of_member (Constraint code) ≡ true) }
{
    if b.offered.contains(&m.name.id()) {
        Some(Code::Redeclared)
    } else if is_function(t, m.ty.of) {
        Some(Code::FunctionType)
    } else if !t.is_complete(m.ty.of) && !is_flexible(b, m, t) {
        Some(Code::Incomplete)
    } else if m.name.is_reserved() {
        Some(Code::Reserved)
    } else {
        None
    }
}

/// The place of the next member.
fn next_place(b: &OpenBody) -> Result<u32, Memory> {
    narrow(b.members.len())
}

/// The value of the next enumerator (C11 6.7.2.2p3): the one that is given, or one more than the last.
fn next_value(b: &OpenBody, given: Option<i128>) -> i128 {
    match given {
        Some(v) => v,
        None => match b.members.last() {
            None => 0,
            Some(last) => last.value as i128 + 1,
        },
    }
}

impl Bodies {
    /// No body.
    pub(crate) fn new(alloc: Global) -> Self {
        Bodies {
            open: Vec::new(alloc),
            closed: None,
            repeated: None,
            fields: IndexMap::new(alloc),
            alloc,
        }
    }

    /// The name that an anonymous member offered again.
    pub(crate) fn repeated(&self) -> Option<NameId> {
        self.repeated
    }

    /// Opens a body.
    pub(crate) fn open(&mut self, o: Opening) -> Result<(), Memory> {
        self.open.push(OpenBody {
            agg: o.agg,
            kind: o.kind,
            tagged: o.tagged,
            quals: o.quals,
            members: Vec::new(self.alloc),
            offered: IndexSet::new(self.alloc),
        })?;
        Ok(())
    }

    /// Takes the innermost body out, which is that of an aggregate.
    fn take(&mut self, a: AggId) -> Result<OpenBody, Memory> {
        match self.open.pop() {
            None => Err(impossible()),
            Some(b) => {
                if b.agg != a {
                    return Err(impossible());
                }
                Ok(b)
            }
        }
    }

    /// Adds a named member to a struct or union.
    pub(crate) fn member(&mut self, a: AggId, m: NewMember, t: &Types) -> Result<(), RuleStop>
        ensures { IfErr result (IsRefusal of_member) }
    {
        let mut b = self.take(a)?;
        if let Some(code) = member_code(&b, m, t) {
            return Err(bad(code));
        }
        let i = next_place(&b)?;
        b.offered.insert(m.name.id())?;
        b.members.push(Member::named(m.name.id(), m.ty, 0))?;
        self.open.push(b)?;
        let field = Field {
            agg: a,
            name: m.name.id(),
        };
        self.fields.insert(field, i)?;
        Ok(())
    }

    /// Adds an anonymous member to a struct or union. Its name is made when the body ends.
    pub(crate) fn anonymous(&mut self, a: AggId, ty: QualType, t: &Types) -> Result<(), RuleStop>
        ensures { IfErr result (IsRefusal of_anonymous) }
    {
        let mut b = self.take(a)?;
        let closed = match self.closed.take() {
            None => return Err(never()),
            Some(closed) => closed,
        };
        match t.class(ty.of) {
            Class::Agg(_, inner) => {
                if inner != closed.agg {
                    return Err(never());
                }
            }
            Class::Void | Class::Int(_) | Class::Ptr(_) | Class::Array(..) | Class::Func { .. } =>
                return Err(never()),
        }
        self.offer(&mut b, &closed)?;
        b.members.push(Member::unnamed(NameId(0), ty))?;
        self.open.push(b)?;
        Ok(())
    }

    /// The next member of a body offers what an aggregate offers.
    fn offer(&mut self, b: &mut OpenBody, closed: &ClosedBody) -> Result<(), RuleStop>
        ensures { IfErr result (IsRefusal of_anonymous) }
    {
        let i = next_place(b)?;
        for n in closed.offered.iter() {
            if b.offered.contains(n) {
                self.repeated = Some(*n);
                return Err(bad(Code::Redeclared));
            }
            b.offered.insert(*n)?;
            let field = Field {
                agg: b.agg,
                name: *n,
            };
            self.fields.insert(field, i)?;
        }
        Ok(())
    }

    /// The value of the next enumerator, and its place.
    pub(crate) fn next_enumerator(
        &mut self,
        a: AggId,
        given: Option<i128>,
    ) -> Result<(i128, u32), Memory> {
        let b = self.take(a)?;
        let v = next_value(&b, given);
        let i = next_place(&b)?;
        self.open.push(b)?;
        Ok((v, i))
    }

    /// Adds an enumerator.
    pub(crate) fn enumerator(&mut self, a: AggId, m: Member) -> Result<(), Memory> {
        let mut b = self.take(a)?;
        b.members.push(m)?;
        self.open.push(b)?;
        Ok(())
    }

    /// Ends a body, and gives its aggregate's type with the qualifiers beside the body.
    pub(crate) fn close(
        &mut self,
        a: AggId,
        names: &NamePool,
        made: &mut MadeNames,
        t: &mut Types,
    ) -> Result<QualType, RuleStop>
        ensures { IfErr result (IsRefusal of_body) }
    {
        let b = self.take(a)?;
        if b.members.is_empty() {
            return Err(bad(Code::Incomplete));
        }
        let (tagged, quals) = (b.tagged, b.quals);
        self.closed = None;
        let members = name_anonymous(self.alloc, b.members, names, made)?;
        laid(t.complete(a, Members::new(members)))?;
        if !tagged {
            self.closed = Some(ClosedBody {
                agg: a,
                offered: b.offered,
            });
        }
        // What no type names has its size looked at here.
        let of = laid(t.aggregate(a))?;
        if quals.restricted {
            return Err(bad(Code::Restrict));
        }
        laid(t.qualified(quals, of))
    }

    /// The member with a name, or the anonymous one that offers it, by its place.
    fn field(&self, agg: AggId, name: NameId) -> Option<u32> {
        self.fields.get(&Field { agg, name }).copied()
    }

    /// The path to an offered name.
    pub(crate) fn path(
        &self,
        a: AggId,
        n: NameId,
        t: &Types,
    ) -> Result<Option<MemberPath>, Memory> {
        let mut path = SmallVec::new(self.alloc);
        let mut agg = a;
        for _i in 0..t.graph().agg_count() {
            let index = match self.field(agg, n) {
                None => return Ok(None),
                Some(index) => index,
            };
            path.push(PathStep { agg, index })?;
            match inside(agg, index, t) {
                Found::Nothing => return Ok(None),
                Found::Member => return Ok(Some(path)),
                Found::Inside(inner) => agg = inner,
            }
        }
        Ok(None)
    }
}

/// What a member is.
enum Found {
    /// There is none, as long as the body is open.
    Nothing,
    /// A member with a name of its own.
    Member,
    /// An anonymous member of this struct or union.
    Inside(AggId),
}

/// What a member is.
fn inside(a: AggId, i: u32, t: &Types) -> Found {
    match t.member(a, i as usize) {
        None => Found::Nothing,
        Some(m) => {
            if !m.anonymous {
                return Found::Member;
            }
            match t.class(m.ty.of) {
                Class::Agg(_, inner) => Found::Inside(inner),
                Class::Void
                | Class::Int(_)
                | Class::Ptr(_)
                | Class::Array(..)
                | Class::Func { .. } => Found::Nothing,
            }
        }
    }
}
