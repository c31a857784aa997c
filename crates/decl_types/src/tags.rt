ghost use Rattle.std.specs.Prelude.{IfErr};
ghost use Rattle.decl_types.specs.Refusals.{IsRefusal, of_anonymous, of_body, of_enumerator, of_member, of_specifiers};

use crate::basics::BasicMeaning;
use crate::bodies::{NewMember, Opening};
use crate::declared::{Behind, Declared, Declaring, Linkage, MemberAt, Tag, TagBody};
use crate::declarer::Declarer;
use crate::made_names::MadeNames;
use crate::new_names::NewName;
use crate::spelled::{Meaning, Named, spelled_by};
use crate::stops::{bad, laid, never};
use crate::types::{int, qualified};
use c_tree::Specifier;
use cil_base::{AggId, Code, IntKind, NameId, NamePool, RuleStop, TypeId};
use type_graph::{AggKind, Member, QualType, Quals, unqualified};
use typed_tree::Ordinary;
use unit_types::Types;

/// The type that keywords name.
fn basic_type(meaning: BasicMeaning, t: &mut Types) -> Result<QualType, RuleStop>
    ensures { IfErr result (IsRefusal of_specifiers) }
{
    let of = match meaning {
        BasicMeaning::Void => t.void(),
        BasicMeaning::Int(kind) => t.int(kind),
    };
    Ok(unqualified(laid(of)?))
}

/// Whether specifiers are a struct or union with its tag alone, in front of a semicolon (C11 6.7.2.3p7).
fn is_alone(s: &[Specifier], behind: Behind, kind: AggKind) -> bool {
    s.len() == 1 && behind == Behind::Nothing && kind != AggKind::Enum
}

/// Whether a tag is that of an enum whose list is not over (C11 6.7.2.3p3).
fn is_unlisted(tag: Tag, t: &Types) -> bool {
    tag.kind == AggKind::Enum && t.members(tag.agg).is_none()
}

/// The tag of a body.
fn new_tag(tag: Option<NameId>, names: &NamePool) -> Option<NewName> {
    match tag {
        None => None,
        Some(n) => Some(NewName::of(n, names)),
    }
}

impl Declarer {
    /// The type of a typedef name. One that is hidden by another declaration is no type specifier (C11 6.7.8p3).
    fn typedef_type(&self, n: NameId) -> Result<QualType, RuleStop>
        ensures { IfErr result (IsRefusal of_specifiers) }
    {
        match self.names.find(n) {
            None => Err(bad(Code::Specifiers)),
            Some(d) => match d.what {
                Declaring::Typedef => Ok(d.ty),
                Declaring::Enumerator(_) | Declaring::Entity(_) | Declaring::Local(_) => {
                    Err(bad(Code::Specifiers))
                }
            },
        }
    }

    /// The declaration of a tag in the innermost scope.
    fn tag_here(&self, n: NameId, depth: u32) -> Option<Tag> {
        match self.tags.find(n) {
            None => None,
            Some(tag) => { if tag.depth == depth { Some(tag) } else { None } }
        }
    }

    /// Declares a tag in the innermost scope, which begins here (C11 6.2.1p7).
    fn declare_tag(
        &mut self,
        n: NewName,
        kind: AggKind,
        body: TagBody,
        t: &mut Types,
    ) -> Result<AggId, RuleStop>
        ensures { IfErr result (IsRefusal of_specifiers) }
    {
        if n.is_reserved() {
            return Err(bad(Code::Reserved));
        }
        let depth = self.numbers.depth()?;
        let agg = laid(t.add_agg(kind, Some(n.id())))?;
        self.tags.declare(
            n.id(),
            Tag {
                agg,
                kind,
                body,
                depth,
            },
        )?;
        Ok(agg)
    }

    /// The aggregate of a tag without a body (C11 6.7.2.3): the visible one, else a new one. An enum has its whole body before (6.7.2.3p3).
    fn tagged(
        &mut self,
        kind: AggKind,
        n: NewName,
        visible: Option<Tag>,
        t: &mut Types,
    ) -> Result<AggId, RuleStop>
        ensures { IfErr result (IsRefusal of_specifiers) }
    {
        match visible {
            Some(tag) => {
                if tag.kind != kind || is_unlisted(tag, t) {
                    return Err(bad(Code::Tag));
                }
                Ok(tag.agg)
            }
            None => {
                if kind == AggKind::Enum {
                    return Err(bad(Code::Tag));
                }
                self.declare_tag(n, kind, TagBody::Absent, t)
            }
        }
    }

    /// The type of a tag without a body.
    fn tag_type(
        &mut self,
        kind: AggKind,
        n: NewName,
        alone: bool,
        t: &mut Types,
    ) -> Result<QualType, RuleStop>
        ensures { IfErr result (IsRefusal of_specifiers) }
    {
        let visible = if alone {
            let depth = self.numbers.depth()?;
            self.tag_here(n.id(), depth)
        } else {
            self.tags.find(n.id())
        };
        let a = self.tagged(kind, n, visible, t)?;
        let of = laid(t.aggregate(a))?;
        Ok(unqualified(of))
    }

    /// The type of specifiers without a body (C11 6.7.2, 6.7.3).
    ///
    /// `Specifiers`, at the first token of the specifiers, where they name no type; `Tag` and `Reserved` at the tag; `Restrict` where the type takes no
    /// such qualifier.
    pub fn words(
        &mut self,
        s: &[Specifier],
        behind: Behind,
        names: &NamePool,
        t: &mut Types,
    ) -> Result<QualType, RuleStop>
        ensures { IfErr result (IsRefusal of_specifiers) }
    {
        let spelled = spelled_by(s, t.graph().abi())?;
        let ty = match spelled.meaning {
            Meaning::Basic(basic) => basic_type(basic, t)?,
            Meaning::Named(Named::Typedef(n)) => self.typedef_type(n)?,
            Meaning::Named(Named::Tag(kind, n)) => {
                self.tag_type(kind, NewName::of(n, names), is_alone(s, behind, kind), t)?
            }
            Meaning::Named(Named::Body(..)) => return Err(never()),
        };
        qualified(spelled.quals, ty, t)
    }

    /// The aggregate of a tag with a body (C11 6.7.2.3p6): one that is declared in the innermost scope without a body, else a new one.
    fn bodied(&mut self, kind: AggKind, n: NewName, t: &mut Types) -> Result<AggId, RuleStop>
        ensures { IfErr result (IsRefusal of_specifiers) }
    {
        let depth = self.numbers.depth()?;
        match self.tag_here(n.id(), depth) {
            None => self.declare_tag(n, kind, TagBody::Begun, t),
            Some(tag) => {
                if tag.kind != kind || tag.body == TagBody::Begun {
                    return Err(bad(Code::Tag));
                }
                self.tags.declare(
                    n.id(),
                    Tag {
                        agg: tag.agg,
                        kind,
                        body: TagBody::Begun,
                        depth,
                    },
                )?;
                Ok(tag.agg)
            }
        }
    }

    /// The aggregate of specifiers with a body, whose tag is in scope from here on (C11 6.2.1p7). It is open until `close_body`.
    ///
    /// `Specifiers`, `Tag` and `Reserved` as by `words`; `Tag` also where the tag has a body already.
    pub fn open_body(
        &mut self,
        s: &[Specifier],
        names: &NamePool,
        t: &mut Types,
    ) -> Result<AggId, RuleStop>
        ensures { IfErr result (IsRefusal of_specifiers) }
    {
        let spelled = spelled_by(s, t.graph().abi())?;
        match spelled.meaning {
            Meaning::Named(Named::Body(kind, tag)) => {
                let tag = new_tag(tag, names);
                self.open_named(kind, tag, spelled.quals, t)
            }
            Meaning::Named(Named::Typedef(_) | Named::Tag(..)) | Meaning::Basic(_) => {
                Err(never())
            }
        }
    }

    /// Opens a body.
    fn open_named(
        &mut self,
        kind: AggKind,
        tag: Option<NewName>,
        quals: Quals,
        t: &mut Types,
    ) -> Result<AggId, RuleStop>
        ensures { IfErr result (IsRefusal of_specifiers) }
    {
        let agg = match tag {
            None => laid(t.add_agg(kind, None))?,
            Some(n) => self.bodied(kind, n, t)?,
        };
        self.bodies.open(Opening {
            agg,
            kind,
            tagged: tag.is_some(),
            quals,
        })?;
        Ok(agg)
    }

    /// Adds a named member to an open struct or union (C11 6.7.2.1).
    ///
    /// At the identifier: `Redeclared` where the aggregate offers the name already, `Incomplete`, `FunctionType`, `Reserved`.
    pub fn member(
        &mut self,
        a: AggId,
        n: NewName,
        ty: QualType,
        at: MemberAt,
        t: &Types,
    ) -> Result<(), RuleStop>
        ensures { IfErr result (IsRefusal of_member) }
    {
        self.bodies.member(a, NewMember { name: n, ty, at }, t)
    }

    /// Adds an anonymous struct or union to an open one (C11 6.7.2.1p13), with the type that `close_body` gave just before for a body without a tag.
    ///
    /// `Redeclared` where the aggregate offers a name of it already: that is the answer of `repeated` then, and the place is the name's in its body.
    pub fn anonymous(&mut self, a: AggId, ty: QualType, t: &Types) -> Result<(), RuleStop>
        ensures { IfErr result (IsRefusal of_anonymous) }
    {
        self.bodies.anonymous(a, ty, t)
    }

    /// The name that an anonymous member offered again: the first one in the order of the text.
    pub fn repeated(&self) -> Option<NameId> {
        self.bodies.repeated()
    }

    /// Adds an enumerator to an open enum, and declares it in the innermost scope (C11 6.7.2.2): with a value, or one more than the last.
    ///
    /// At the enumerator: `Redeclared`, `EnumRange` where the value does not fit int, `Reserved`.
    pub fn enumerator(
        &mut self,
        a: AggId,
        n: NewName,
        value: Option<i128>,
        t: &mut Types,
    ) -> Result<(), RuleStop>
        ensures { IfErr result (IsRefusal of_enumerator) }
    {
        let depth = self.numbers.depth()?;
        let (v, index) = self.bodies.next_enumerator(a, value)?;
        if self.find_here(n.id(), depth).is_some() {
            return Err(bad(Code::Redeclared));
        }
        if !IntKind::Int.fits(v) {
            return Err(bad(Code::EnumRange));
        }
        if n.is_reserved() {
            return Err(bad(Code::Reserved));
        }
        let ty = int(t)?;
        self.bodies
            .enumerator(a, Member::named(n.id(), ty, v as i32))?;
        self.ordinary.push(Ordinary::Enumerator(a, index))?;
        self.names.declare(
            n.id(),
            Declared {
                what: Declaring::Enumerator(v as i32),
                ty,
                linkage: Linkage::NoLinkage,
                register: false,
                depth,
            },
        )?;
        Ok(())
    }

    /// Ends a body, and gives the type of its aggregate, with the qualifiers that stand beside it.
    ///
    /// At the first token of the specifiers: `Incomplete` where there is no member, and the limit on objects. `Restrict` at such a qualifier, which
    /// no struct, union or enum takes (C11 6.7.3p2).
    pub fn close_body(
        &mut self,
        a: AggId,
        names: &NamePool,
        made: &mut MadeNames,
        t: &mut Types,
    ) -> Result<QualType, RuleStop>
        ensures { IfErr result (IsRefusal of_body) }
    {
        self.bodies.close(a, names, made, t)
    }
}
