ghost use Rattle.std.specs.Prelude.{◌≡◌, ℕ, List, [], ◌∷◌, ◌++◌, IsTrue, map, length, MatchOption, IfOk, OnOk};
ghost use Rattle.type_things.specs.Things.{IsClash};
ghost use Rattle.type_joins.specs.Forests.{root, IsForest};
ghost use Rattle.type_joins.specs.Joined.{IsJoining};
ghost use Rattle.type_things.specs.Webs.{things_of, first_pairs, AreWhole};
ghost use Rattle.type_things.specs.Heads.{is_open, is_bounded, lacks_prototype, has_prototype, parts_of};
ghost use Rattle.type_links.specs.Links.{lacks_bound, stays_at, all_stay, parameters_fit, prototype_fits, one_lacks, may_differ_at, link, links_with, links_behind, links_of, side_of, sides_in, FailsFirst};
ghost use Rattle.type_links.specs.Linking.{sides_of, Says, IsKnown, IsKept, IsCounted, IsGroup, JoinsParty, FailsCounted, FailsWith, FailsAmong};

use crate::parties::{Group, Party};
use cil_base::Memory;
use std::alloc::Global;
use type_joins::{Joining, Pair};
use type_things::{Head, Part, Web, impossible, narrow};

/// The first link that fails: its group, its two parties by their places, and two things that would have to be one and differ.
#[derive(Clone, Copy)]
pub struct Failure {
    /// The group.
    pub group: u32,
    /// The earlier party.
    pub earlier: u32,
    /// The later party.
    pub later: u32,
    /// The two things.
    pub pair: Pair,
}

/// The first link with a party that fails: the other party by its place, and two things that would have to be one and differ.
#[derive(Clone, Copy)]
struct Failed {
    earlier: u32,
    pair: Pair,
}

/// Whether a type is left as it is by the default argument promotions (C11 6.5.2.2p6).
fn is_promoted(web: &Web, x: u32) -> Result<bool, Memory>
    ensures { IfOk result (λ b. b ≡ stays_at (things_of web.now) x) }
{
    match web.head(x)? {
        Head::Int(kind) => Ok(kind.promoted() == kind),
        Head::Agg => Ok(!web.head(web.first_part(x)?)?.is_enum()),
        _ => Ok(true),
    }
}

/// Whether all types are left as they are by the default argument promotions.
fn are_promoted(web: &Web, types: &[Part]) -> Result<bool, Memory>
    ensures { IfOk result (λ b. b ≡ all_stay (things_of web.now) types.now) }
{
    for ty in types {
        if !is_promoted(web, ty.1)? {
            return Ok(false);
        }
    }
    Ok(true)
}

/// Whether the parameters of a prototype fit a function without one, of a definition or of declarations alone (C11 6.7.6.3p15).
fn parameters_fit(web: &Web, bare: bool, params: &[Part]) -> Result<bool, Memory>
    ensures { IfOk result (λ b. b ≡ parameters_fit (things_of web.now) bare params.now) }
{
    if bare {
        return Ok(params.is_empty());
    }
    are_promoted(web, params)
}

/// Whether a function type with a prototype fits a function without one.
fn prototype_fits(web: &Web, bare: bool, x: u32) -> Result<bool, Memory>
    ensures { IfOk result (λ b. b ≡ prototype_fits (things_of web.now) bare (parts_of (things_of web.now) x)) }
{
    match web.parts(x)? {
        [_ret, params @ ..] => parameters_fit(web, bare, params),
        [] => Ok(false),
    }
}

/// Whether one of two arrays has a bound, and the other has none.
fn lacks_bound(left: Head, right: Head) -> bool
    ensures { result ≡ lacks_bound left right }
{
    (left.is_open() && right.is_bounded()) || (left.is_bounded() && right.is_open())
}

/// Whether a function lacks a prototype, and another one has one that fits.
fn one_lacks(web: &Web, bare: bool, left: Head, right: Head, y: u32) -> Result<bool, Memory>
    ensures { IfOk result (λ b. b ≡ one_lacks (things_of web.now) bare left right y) }
{
    if left.lacks_prototype() && right.has_prototype() {
        return prototype_fits(web, bare, y);
    }
    Ok(false)
}

/// A party's type by its number, and whether it is a function that is defined with an empty identifier list.
#[derive(Clone, Copy)]
pub struct Side {
    /// The type.
    pub ty: u32,
    /// Whether it is one.
    pub bare: bool,
}

/// What is compared of a party.
fn side_of(web: &Web, party: Party) -> Result<Side, Memory>
    ensures { IfOk result (λ s. s ≡ side_of (first_pairs web.now) party) }
{
    Ok(Side {
        ty: web.ty(party.unit, party.ty)?,
        bare: party.bare,
    })
}

/// Whether the types of two declarations of one name may differ in themselves (C11 6.2.7).
fn may_differ(web: &Web, left: Side, right: Side) -> Result<bool, Memory>
    ensures { IfOk result (λ b. b ≡ may_differ_at (things_of web.now) left right) }
{
    let (l, r) = (web.head(left.ty)?, web.head(right.ty)?);
    if lacks_bound(l, r) {
        return Ok(true);
    }
    if one_lacks(web, left.bare, l, r, right.ty)? {
        return Ok(true);
    }
    one_lacks(web, right.bare, r, l, left.ty)
}

/// The two things that the link of two declarations makes one.
fn link(web: &Web, left: Side, right: Side) -> Result<Pair, Memory>
    ensures { IfOk result (λ p. p ≡ link (things_of web.now) left right) }
{
    if may_differ(web, left, right)? {
        return Ok((web.first_part(left.ty)?, web.first_part(right.ty)?));
    }
    Ok((left.ty, right.ty))
}

/// Joins what the link of two declarations joins.
fn join_link(
    web: &Web,
    joining: &mut Joining,
    left: Side,
    right: Side,
) -> Result<Option<Pair>, Memory>
    requires forest { IsForest joining.old.forest.parents.items }
    requires empty { joining.old.work.items ≡ [] }
    ensures forest { IfOk result (λ o. IsForest joining.new.forest.parents.items) }
    ensures empty { IfOk result (λ o. MatchOption o (joining.new.work.items ≡ []) (λ _. Unit {0})) }
    ensures joins { (done : List (ℕ × ℕ)) → IsJoining (things_of web.now) done (root joining.old.forest.parents.items) joining.old.stand.items [] → IfOk result (λ o. MatchOption o (IsJoining (things_of web.now) (done ++ link (things_of web.now) left right ∷ []) (root joining.new.forest.parents.items) joining.new.stand.items []) (IsClash (things_of web.now) (done ++ link (things_of web.now) left right ∷ []))) }
{
    let pair = link(web, left, right)?;
    joining.demand(web, pair.0, pair.1)
}

/// Whether a party says what another says: their types are one, and so they fit the same types.
fn says_the_same(joining: &mut Joining, one: Side, other: Side) -> Result<bool, Memory>
    requires { IsForest joining.old.forest.parents.items }
    ensures kept { OnOk result (IsKept joining.old joining.new) }
    ensures says { IfOk result (λ b. IsTrue b → Says (root joining.old.forest.parents.items) one other) }
{
    if one.bare != other.bare {
        return Ok(false);
    }
    joining.are_joined(one.ty, other.ty)
}

/// A party that says something that no earlier one of its group says.
#[derive(Clone, Copy)]
struct Distinct {
    /// Its place in the group.
    place: u32,
    side: Side,
}

/// Whether a party says what one of others says.
fn is_known(joining: &mut Joining, distinct: &[Distinct], later: Side) -> Result<bool, Memory>
    requires { IsForest joining.old.forest.parents.items }
    ensures kept { OnOk result (IsKept joining.old joining.new) }
    ensures known { IfOk result (λ b. IsTrue b → IsKnown (root joining.old.forest.parents.items) distinct.now later) }
{
    for i in 0..distinct.len() {
        if says_the_same(joining, distinct[i].side, later)? {
            return Ok(true);
        }
    }
    Ok(false)
}

/// The failure of the first link between a party and others before it, in their order, if one fails.
fn join_with(
    web: &Web,
    joining: &mut Joining,
    distinct: &[Distinct],
    later: Side,
) -> Result<Option<Failed>, Memory>
    requires forest { IsForest joining.old.forest.parents.items }
    requires empty { joining.old.work.items ≡ [] }
    ensures forest { IfOk result (λ o. IsForest joining.new.forest.parents.items) }
    ensures empty { IfOk result (λ o. MatchOption o (joining.new.work.items ≡ []) (λ _. Unit {0})) }
    ensures joins { (done : List (ℕ × ℕ)) → IsJoining (things_of web.now) done (root joining.old.forest.parents.items) joining.old.stand.items [] → IfOk result (λ o. MatchOption o (IsJoining (things_of web.now) (done ++ links_with (things_of web.now) (sides_of distinct.now) later) (root joining.new.forest.parents.items) joining.new.stand.items []) (λ f. FailsCounted (things_of web.now) done distinct.now later f.earlier f.pair)) }
{
    for i in 0..distinct.len() {
        let earlier = distinct[i];
        match join_link(web, joining, earlier.side, later)? {
            None => {}
            Some(pair) => {
                let earlier = earlier.place;
                return Ok(Some(Failed { earlier, pair }));
            }
        }
    }
    Ok(None)
}

/// Counts a party among those that say different things, where it says something else.
fn count(joining: &mut Joining, distinct: &mut Vec<Distinct>, later: Distinct) -> Result<(), Memory>
    requires { IsForest joining.old.forest.parents.items }
    ensures kept { OnOk result (IsKept joining.old joining.new) }
    ensures counted { OnOk result (IsCounted (root joining.old.forest.parents.items) distinct.old.items later distinct.new.items) }
{
    if is_known(joining, distinct, later.side)? {
        return Ok(());
    }
    distinct.push(later)?;
    Ok(())
}

/// Joins a party with those before it that say different things, and counts it among these where it says something else.
fn join_party(
    web: &Web,
    joining: &mut Joining,
    distinct: &mut Vec<Distinct>,
    later: Distinct,
) -> Result<Option<Failed>, Memory>
    requires forest { IsForest joining.old.forest.parents.items }
    requires empty { joining.old.work.items ≡ [] }
    ensures forest { IfOk result (λ o. IsForest joining.new.forest.parents.items) }
    ensures empty { IfOk result (λ o. MatchOption o (joining.new.work.items ≡ []) (λ _. Unit {0})) }
    ensures joins { (done : List (ℕ × ℕ)) (sides : List Side) → AreWhole (things_of web.now) → IsGroup (things_of web.now) done sides distinct.old.items → later.place ≡ length sides → IsJoining (things_of web.now) done (root joining.old.forest.parents.items) joining.old.stand.items [] → IfOk result (λ o. MatchOption o (JoinsParty (things_of web.now) done sides later.side (root joining.new.forest.parents.items) joining.new.stand.items distinct.new.items) (λ f. FailsWith (things_of web.now) done sides later.side f.earlier f.pair)) }
{
    if is_known(joining, distinct, later.side)? {
        return Ok(None);
    }
    match join_with(web, joining, distinct, later.side)? {
        None => {
            count(joining, distinct, later)?;
            Ok(None)
        }
        Some(failed) => Ok(Some(failed)),
    }
}

/// Joins what the links of a group join, up to the first that fails.
fn join_group(
    alloc: Global,
    web: &Web,
    joining: &mut Joining,
    group: u32,
    parties: &[Party],
) -> Result<Option<Failure>, Memory>
    requires forest { IsForest joining.old.forest.parents.items }
    requires empty { joining.old.work.items ≡ [] }
    ensures forest { IfOk result (λ o. IsForest joining.new.forest.parents.items) }
    ensures empty { IfOk result (λ o. MatchOption o (joining.new.work.items ≡ []) (λ _. Unit {0})) }
    ensures joins { (done : List (ℕ × ℕ)) → AreWhole (things_of web.now) → IsJoining (things_of web.now) done (root joining.old.forest.parents.items) joining.old.stand.items [] → IfOk result (λ o. MatchOption o (IsJoining (things_of web.now) (done ++ links_behind (things_of web.now) [] (map (side_of (first_pairs web.now)) parties.now)) (root joining.new.forest.parents.items) joining.new.stand.items []) (λ f. (f.group ≡ group) × FailsAmong (things_of web.now) done (map (side_of (first_pairs web.now)) parties.now) f.earlier f.later f.pair)) }
{
    let mut distinct = Vec::new(alloc);
    for later in 0..narrow(parties.len())? {
        let side = side_of(web, parties[later as usize])?;
        let party = Distinct { place: later, side };
        match join_party(web, joining, &mut distinct, party)? {
            None => {}
            Some(failed) => {
                return Ok(Some(Failure {
                    group,
                    earlier: failed.earlier,
                    later,
                    pair: failed.pair,
                }));
            }
        }
    }
    Ok(None)
}

/// Joins what the links of all groups join, up to the first that fails.
///
/// A party whose type is one with that of an earlier one fits the same types, so that no link of it says anything new.
pub fn join_groups(
    alloc: Global,
    web: &Web,
    joining: &mut Joining,
    groups: &[Group],
) -> Result<Option<Failure>, Memory>
    requires forest { IsForest joining.old.forest.parents.items }
    requires empty { joining.old.work.items ≡ [] }
    ensures forest { IfOk result (λ o. IsForest joining.new.forest.parents.items) }
    ensures joins { AreWhole (things_of web.now) → IsJoining (things_of web.now) [] (root joining.old.forest.parents.items) joining.old.stand.items [] → IfOk result (λ o. MatchOption o (IsJoining (things_of web.now) (links_of (things_of web.now) (map (sides_in (first_pairs web.now)) groups.now)) (root joining.new.forest.parents.items) joining.new.stand.items []) (λ f. FailsFirst (things_of web.now) (map (sides_in (first_pairs web.now)) groups.now) f.group f.earlier f.later f.pair)) }
{
    for g in 0..narrow(groups.len())? {
        match join_group(alloc, web, joining, g, &groups[g as usize].parties)? {
            None => {}
            Some(failure) => return Ok(Some(failure)),
        }
    }
    Ok(None)
}
