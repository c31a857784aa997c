ghost use Rattle.std.specs.Prelude.{◌≡◌, ◌<◌, ◌≤◌, ◌+◌, [], ◌∷◌, ◌++◌, true, IfOk, OnOk, length, map, take, drop, Some};
ghost use Rattle.std.specs.Option.{option_map};
ghost use Rattle.std.specs.List.{list_all};
ghost use Rattle.cil_base.specs.Arithmetic.{fits};
ghost use Rattle.cil_base.specs.declared.kinds.IntKind.TheVariants.{Int as int_kind};
ghost use Rattle.type_graph.specs.Shapes.{IntType, shape};
ghost use Rattle.cil_tree.specs.WellFormedTypes.{members_are_unqualified};
ghost use Rattle.cil_text.specs.ReadExps.{bases};
ghost use Rattle.cil_text.specs.Allowed.{allowed};
ghost use Rattle.cil_text.specs.ReadAggregates.{incomplete, tag_of, read_enumerator, read_member, read_placed, read_aggregates};
ghost use Rattle.cil_text.specs.ReadGlobals.{seen_fields};
ghost use Rattle.cil_text.specs.TypesOf.{AddsParts, member_types};
ghost use Rattle.cil_scan.specs.Said.{all_said, all_lines};
ghost use Rattle.cil_declarators.specs.Gives.{Gives};
ghost use Rattle.cil_reader.specs.Settings.{Onward, env_in};
ghost use Rattle.cil_reader.specs.Pools.{KeepsNames};
ghost use Rattle.cil_reader.specs.Members.{AreThere, IsMember, MembersKnown, FieldsKnown, members_in, valued, enumerator_with, enumerator_more, member_with, with_other, member_more, next_line, enumerators_from, members_from};
ghost use Rattle.cil_reader.specs.Aggregates.{aggregates_in, AggregatesKnown, Holds, IsBlank, AreOpen, ArePlain, one_enum, next_enum, enums_from, with_tag, next_tag, tags_from, tag_at, one_complete, one_struct, own_members, tagged_structs, bit, types_at, FieldsAdded, AggregatesAdded, AggregatesRead, OthersStay};

use crate::names::Names;
use crate::reader::Reader;
use cil_base::{AggId, NamePool, TypeId};
use cil_declarators::Stop;
use cil_forms::{is_close, is_comma, is_end, lone_tag, opened_tag};
use cil_numbers::read_number;
use cil_scan::Word;
use type_graph::{AggKind, Member, QualType, Quals};

/// Lines that were read of an aggregate's members, and the names of those that expressions can name.
#[derive(Drop)]
struct Fields {
    members: Vec<Member>,
    names: Names,
}

/// The value that a number is, if an enumerator may have it (C11 6.7.2.2p2).
#[tactic(auto, using(crate::proofs::MemberLaws::value_below, crate::proofs::MemberLaws::value_above, crate::proofs::MemberLaws::value_fits))]
fn enumerator_value(value: i128) -> Option<i32>
    ensures { result ≡ allowed (fits int_kind) value }
{
    if value < i32::MIN as i128 {
        return None;
    }
    if value > i32::MAX as i128 {
        return None;
    }
    Some(value as i32)
}

/// Behind `=`: the value of an enumerator and `,`.
#[tactic(auto, using(crate::proofs::MemberLaws::value_gives, crate::proofs::MemberLaws::value_open, crate::proofs::MemberLaws::value_fails))]
fn valued(words: &[Word]) -> Option<i32>
    ensures { result ≡ valued (all_said words.now) }
{
    let (number, rest) = read_number(words)?;
    if !is_comma(rest) {
        return None;
    }
    enumerator_value(number.value)
}

/// An enumerator and its value (C11 6.7.2.2).
fn read_enumerator<'a>(words: &[Word<'a>]) -> Option<(&'a [u8], i32)>
    ensures { option_map (λ r. enumerator_with r.0.now r.1) result ≡ read_enumerator (all_said words.now) }
{
    match words {
        [Word::Name(name), Word::Assign, rest @ ..] => Some((*name, valued(rest)?)),
        _ => None,
    }
}

/// A member without qualifiers.
#[tactic(auto, using(crate::proofs::MemberLaws::is_member, crate::proofs::PoolLaws::pool_asked, crate::proofs::PoolLaws::pool_by))]
fn member(pool: &mut NamePool, text: &[u8], of: TypeId, value: i32) -> Result<Member, Stop>
    ensures gives { Gives (λ m. true) result (Some true) }
    ensures is { IfOk result (IsMember pool.new text.now of value) }
    ensures pool { KeepsNames pool.old pool.new }
{
    let name = pool.intern(text)?;
    let quals = Quals {
        constant: false,
        restricted: false,
    };
    Ok(Member::named(name, QualType { quals, of }, value))
}

/// One enumerator more, by its line.
#[tactic(auto, using(crate::proofs::MemberLaws::enumerator_added, crate::proofs::MemberLaws::enumerator_none, crate::proofs::MemberLaws::member_there))]
fn one_enumerator(
    r: &Reader,
    pool: &mut NamePool,
    int: TypeId,
    members: &mut Vec<Member>,
    words: &[Word],
) -> Result<(), Stop>
    requires there { int.0 < length r.now.graph.nodes }
    requires int { shape r.now.graph.nodes int.0 ≡ IntType int_kind }
    requires members { AreThere (length r.now.graph.nodes) members.old.items }
    requires known { MembersKnown r.now.graph pool.old members.old.items }
    ensures gives { Gives (λ u. members_in r.now.graph.nodes pool.new members.new.items) result (enumerator_more (members_in r.now.graph.nodes pool.old members.old.items) (all_said words.now)) }
    ensures members { OnOk result (AreThere (length r.now.graph.nodes) members.new.items) }
    ensures known { OnOk result (MembersKnown r.now.graph pool.new members.new.items) }
    ensures pool { KeepsNames pool.old pool.new }
{
    let Some((name, value)) = read_enumerator(words) else {
        return Err(Stop::NotCil);
    };
    let one = member(pool, name, int, value)?;
    members.push(one)?;
    Ok(())
}

/// Whether a line has one enumerator more, which is then read, and the lines behind it.
#[tactic(auto, using(crate::proofs::MemberLaws::line_closed, crate::proofs::MemberLaws::line_read, crate::proofs::MemberLaws::line_fails, crate::proofs::PoolLaws::pool_same))]
fn next_enumerator<'w, 'a>(
    r: &Reader,
    pool: &mut NamePool,
    int: TypeId,
    members: &mut Vec<Member>,
    lines: &'w [Vec<Word<'a>>],
) -> Result<(bool, &'w [Vec<Word<'a>>]), Stop>
    requires there { int.0 < length r.now.graph.nodes }
    requires int { shape r.now.graph.nodes int.0 ≡ IntType int_kind }
    requires members { AreThere (length r.now.graph.nodes) members.old.items }
    requires known { MembersKnown r.now.graph pool.old members.old.items }
    ensures gives { Gives (λ x. (x.0, (members_in r.now.graph.nodes pool.new members.new.items, all_lines x.1.now))) result (next_line (enumerator_more (members_in r.now.graph.nodes pool.old members.old.items)) (members_in r.now.graph.nodes pool.old members.old.items) (all_lines lines.now)) }
    ensures members { OnOk result (AreThere (length r.now.graph.nodes) members.new.items) }
    ensures known { OnOk result (MembersKnown r.now.graph pool.new members.new.items) }
    ensures less { IfOk result (λ x. length x.1.now < length lines.now) }
    ensures pool { KeepsNames pool.old pool.new }
{
    match lines {
        [line, behind @ ..] => {
            if is_close(line) {
                return Ok((false, behind));
            }
            one_enumerator(r, pool, int, members, line)?;
            Ok((true, behind))
        }
        [] => Err(Stop::NotCil),
    }
}

/// Enumerators up to the line that closes their enum, and the lines behind it.
#[tactic(auto, using(crate::proofs::MemberLaws::none_there, crate::proofs::MemberLaws::enumerators_begin, crate::proofs::MemberLaws::enumerators_none, crate::proofs::MemberLaws::enumerators_end, crate::proofs::MemberLaws::enumerators_fail, crate::proofs::PoolLaws::pool_twice))]
fn read_enumerators<'w, 'a>(
    r: &Reader,
    pool: &mut NamePool,
    int: TypeId,
    lines: &'w [Vec<Word<'a>>],
) -> Result<(Vec<Member>, &'w [Vec<Word<'a>>]), Stop>
    requires there { int.0 < length r.now.graph.nodes }
    requires int { shape r.now.graph.nodes int.0 ≡ IntType int_kind }
    ensures gives { Gives (λ x. (members_in r.now.graph.nodes pool.new x.0.items, all_lines x.1.now)) result (enumerators_from [] (all_lines lines.now)) }
    ensures members { IfOk result (λ x. AreThere (length r.now.graph.nodes) x.0.items) }
    ensures known { IfOk result (λ x. MembersKnown r.now.graph pool.new x.0.items) }
    ensures pool { KeepsNames pool.old pool.new }
{
    let mut members = Vec::new(r.alloc());
    let (mut more, mut rest) = next_enumerator(r, pool, int, &mut members, lines)?;
    while more {
        let (again, behind) = next_enumerator(r, pool, int, &mut members, rest)?;
        more = again;
        rest = behind;
    }
    Ok((members, rest))
}

/// Behind the line that opens an enum: its enumerators.
#[tactic(auto, using(crate::proofs::AggregateLaws::nothing_types, crate::proofs::PoolLaws::pool_same, crate::proofs::PoolLaws::pool_twice))]
fn read_enum<'w, 'a>(
    r: &mut Reader,
    pool: &mut NamePool,
    tag: &[u8],
    lines: &'w [Vec<Word<'a>>],
) -> Result<&'w [Vec<Word<'a>>], Stop>
    requires holds { Holds r.old pool.old (length r.old.graph.aggs) }
    ensures gives { Gives (λ rest. (aggregates_in r.new.graph pool.new, all_lines rest.now)) result (one_enum (aggregates_in r.old.graph pool.old) tag.now (all_lines lines.now)) }
    ensures read { OnOk result (AggregatesRead r.old r.new pool.old pool.new (length r.new.graph.aggs)) }
    ensures pool { KeepsNames pool.old pool.new }
{
    let int = r.int_type()?;
    let (members, rest) = read_enumerators(r, pool, int, lines)?;
    let a = r.add_aggregate(pool, AggKind::Enum, tag)?;
    let names = Names::new(r.alloc());
    r.complete(a, members, names)?;
    Ok(rest)
}

/// Whether an enum stands next, which is then read, and the lines behind it.
#[tactic(auto, using(crate::proofs::ReadLaws::read_none, crate::proofs::PoolLaws::pool_same))]
fn next_enum<'w, 'a>(
    r: &mut Reader,
    pool: &mut NamePool,
    lines: &'w [Vec<Word<'a>>],
) -> Result<(bool, &'w [Vec<Word<'a>>]), Stop>
    requires holds { Holds r.old pool.old (length r.old.graph.aggs) }
    ensures gives { Gives (λ x. (x.0, (aggregates_in r.new.graph pool.new, all_lines x.1.now))) result (next_enum (aggregates_in r.old.graph pool.old) (all_lines lines.now)) }
    ensures read { OnOk result (AggregatesRead r.old r.new pool.old pool.new (length r.new.graph.aggs)) }
    ensures pool { KeepsNames pool.old pool.new }
{
    if let [line, behind @ ..] = lines {
        if let Some(tag) = opened_tag(line) {
            let rest = read_enum(r, pool, tag, behind)?;
            return Ok((true, rest));
        }
    }
    Ok((false, lines))
}

/// Enums, and the lines behind them. Their number is bounded.
#[tactic(auto, using(crate::proofs::AggregateLaws::enums_nothing, crate::proofs::AggregateLaws::enums_begin, crate::proofs::AggregateLaws::enums_none, crate::proofs::AggregateLaws::enums_end, crate::proofs::AggregateLaws::enums_fail, crate::proofs::AggregateLaws::enums_stop, crate::proofs::ReadLaws::read_none, crate::proofs::ReadLaws::read_both, crate::proofs::ReadLaws::read_holds, crate::proofs::ReadLaws::read_adds, crate::proofs::PoolLaws::pool_same, crate::proofs::PoolLaws::pool_twice))]
fn read_enums<'w, 'a>(
    r: &mut Reader,
    pool: &mut NamePool,
    left: u32,
    lines: &'w [Vec<Word<'a>>],
) -> Result<&'w [Vec<Word<'a>>], Stop>
    requires holds { Holds r.old pool.old (length r.old.graph.aggs) }
    ensures gives { Gives (λ rest. (aggregates_in r.new.graph pool.new, all_lines rest.now)) result (enums_from left (aggregates_in r.old.graph pool.old) (all_lines lines.now)) }
    ensures read { OnOk result (AggregatesRead r.old r.new pool.old pool.new (length r.new.graph.aggs)) }
    ensures pool { KeepsNames pool.old pool.new }
{
    if left == 0 {
        return Ok(lines);
    }
    let (mut found, mut rest) = next_enum(r, pool, lines)?;
    for turn in 1..left {
        if !found {
            return Ok(rest);
        }
        let (again, behind) = next_enum(r, pool, rest)?;
        found = again;
        rest = behind;
    }
    Ok(rest)
}

/// Adds a struct or union without members.
#[tactic(auto, using(crate::proofs::AggregateLaws::tag_gives, crate::proofs::AggregateLaws::tag_refused, crate::proofs::AggregateLaws::tag_count))]
fn add_tag(
    r: &mut Reader,
    pool: &mut NamePool,
    first: u32,
    kind: AggKind,
    tag: &[u8],
) -> Result<(), Stop>
    requires holds { Holds r.old pool.old first }
    requires within { first ≤ length r.old.graph.aggs }
    ensures gives { Gives (λ u. aggregates_in r.new.graph pool.new) result (with_tag (aggregates_in r.old.graph pool.old) (kind, tag.now)) }
    ensures read { OnOk result (AggregatesRead r.old r.new pool.old pool.new first) }
    ensures within { OnOk result (first ≤ length r.new.graph.aggs) }
    ensures pool { KeepsNames pool.old pool.new }
{
    let _number = r.add_aggregate(pool, kind, tag)?;
    Ok(())
}

/// Whether a struct or union stands next, whose tag is then added, and the lines behind it.
#[tactic(auto, using(crate::proofs::ReadLaws::read_none, crate::proofs::PoolLaws::pool_same))]
fn next_tag<'w, 'a>(
    r: &mut Reader,
    pool: &mut NamePool,
    first: u32,
    lines: &'w [Vec<Word<'a>>],
) -> Result<(bool, &'w [Vec<Word<'a>>]), Stop>
    requires holds { Holds r.old pool.old first }
    requires within { first ≤ length r.old.graph.aggs }
    ensures gives { Gives (λ x. (x.0, (aggregates_in r.new.graph pool.new, all_lines x.1.now))) result (next_tag (aggregates_in r.old.graph pool.old) (all_lines lines.now)) }
    ensures read { OnOk result (AggregatesRead r.old r.new pool.old pool.new first) }
    ensures within { OnOk result (first ≤ length r.new.graph.aggs) }
    ensures less { IfOk result (λ x. length x.1.now + bit x.0 ≤ length lines.now) }
    ensures pool { KeepsNames pool.old pool.new }
{
    if let [line, behind @ ..] = lines {
        if let Some((kind, tag)) = lone_tag(line) {
            add_tag(r, pool, first, kind, tag)?;
            return Ok((true, behind));
        }
    }
    Ok((false, lines))
}

/// The tags of structs and unions, the first of which has this number, and the lines behind them.
#[tactic(auto, using(crate::proofs::AggregateLaws::tags_begin, crate::proofs::AggregateLaws::tags_none, crate::proofs::AggregateLaws::tags_end, crate::proofs::AggregateLaws::tags_fail, crate::proofs::AggregateLaws::bit_falls, crate::proofs::ReadLaws::read_both, crate::proofs::ReadLaws::read_holds, crate::proofs::ReadLaws::read_adds, crate::proofs::PoolLaws::pool_twice))]
fn read_tags<'w, 'a>(
    r: &mut Reader,
    pool: &mut NamePool,
    first: u32,
    lines: &'w [Vec<Word<'a>>],
) -> Result<&'w [Vec<Word<'a>>], Stop>
    requires holds { Holds r.old pool.old first }
    requires within { first ≤ length r.old.graph.aggs }
    ensures gives { Gives (λ rest. (aggregates_in r.new.graph pool.new, all_lines rest.now)) result (tags_from (aggregates_in r.old.graph pool.old) (all_lines lines.now)) }
    ensures read { OnOk result (AggregatesRead r.old r.new pool.old pool.new first) }
    ensures within { OnOk result (first ≤ length r.new.graph.aggs) }
    ensures pool { KeepsNames pool.old pool.new }
{
    let (mut found, mut rest) = next_tag(r, pool, first, lines)?;
    while found {
        let (again, behind) = next_tag(r, pool, first, rest)?;
        found = again;
        rest = behind;
    }
    Ok(rest)
}

/// The name and the type in a member's line (C11 6.7.2.1).
#[tactic(auto, using(crate::proofs::MemberLaws::declared_gives, crate::proofs::MemberLaws::declared_nameless, crate::proofs::MemberLaws::declared_open, crate::proofs::MemberLaws::declared_fails))]
fn declared<'a>(r: &mut Reader, left: u32, words: &[Word<'a>]) -> Result<(&'a [u8], TypeId), Stop>
    ensures gives { Gives (λ x. member_with x.0.now (shape r.new.graph.nodes x.1.0)) result (read_member (bases (env_in r.old)) left (all_said words.now)) }
    ensures there { IfOk result (λ x. x.1.0 < length r.new.graph.nodes) }
    ensures adds { IfOk result (λ x. AddsParts r.old.graph r.new.graph (shape r.new.graph.nodes x.1.0 ∷ [])) }
    ensures on { Onward r.old r.new }
{
    let (named, rest) = r.read_decl(left, words)?;
    let Some(text) = named.name else {
        return Err(Stop::NotCil);
    };
    if !is_end(rest) {
        return Err(Stop::NotCil);
    }
    Ok((text, named.ty))
}

/// These members and one more.
#[tactic(auto, using(crate::proofs::MemberLaws::other_gives, crate::proofs::MemberLaws::other_refused, crate::proofs::PoolLaws::pool_same, crate::proofs::PoolLaws::pool_twice))]
fn with_member(
    r: &Reader,
    pool: &mut NamePool,
    fields: Fields,
    text: &[u8],
    ty: TypeId,
) -> Result<Fields, Stop>
    requires there { ty.0 < length r.now.graph.nodes }
    requires known { FieldsKnown r.now.graph pool.old fields.members.items fields.names }
    ensures gives { Gives (λ x. members_in r.now.graph.nodes pool.new x.members.items) result (with_other (members_in r.now.graph.nodes pool.old fields.members.items) (member_with text.now (shape r.now.graph.nodes ty.0))) }
    ensures known { IfOk result (λ x. FieldsKnown r.now.graph pool.new x.members.items x.names) }
    ensures types { IfOk result (λ x. x.names.types.items ≡ fields.names.types.items ++ ty ∷ []) }
    ensures pool { KeepsNames pool.old pool.new }
{
    let Fields { members, names } = fields;
    let mut all = members;
    let one = member(pool, text, ty, 0)?;
    all.push(one)?;
    let names = names.with(text, ty)?;
    Ok(Fields {
        members: all,
        names,
    })
}

/// One member more, by its line (C11 6.7.2.1).
#[tactic(auto, using(crate::proofs::MemberLaws::more_gives, crate::proofs::MemberLaws::more_refused, crate::proofs::MemberLaws::more_fails, crate::proofs::PoolLaws::pool_same, crate::proofs::AddedMembers::field_added, crate::proofs::OnwardLaws::onward_grows))]
fn one_member(
    r: &mut Reader,
    pool: &mut NamePool,
    left: u32,
    fields: Fields,
    words: &[Word],
) -> Result<Fields, Stop>
    requires known { FieldsKnown r.old.graph pool.old fields.members.items fields.names }
    ensures gives { Gives (λ x. members_in r.new.graph.nodes pool.new x.members.items) result (member_more (read_member (bases (env_in r.old)) left) (members_in r.old.graph.nodes pool.old fields.members.items) (all_said words.now)) }
    ensures known { IfOk result (λ x. FieldsKnown r.new.graph pool.new x.members.items x.names) }
    ensures adds { IfOk result (λ x. FieldsAdded r.old.graph r.new.graph fields.names.types.items x.names.types.items) }
    ensures on { Onward r.old r.new }
    ensures pool { KeepsNames pool.old pool.new }
{
    let (text, ty) = declared(r, left, words)?;
    let more = with_member(r, pool, fields, text, ty)?;
    Ok(more)
}

/// Whether a line has one member more, which is then read, and the lines behind it.
fn next_member<'w, 'a>(
    r: &mut Reader,
    pool: &mut NamePool,
    left: u32,
    fields: Fields,
    lines: &'w [Vec<Word<'a>>],
) -> Result<(bool, Fields, &'w [Vec<Word<'a>>]), Stop>
    requires known { FieldsKnown r.old.graph pool.old fields.members.items fields.names }
    ensures gives { Gives (λ x. (x.0, (members_in r.new.graph.nodes pool.new x.1.members.items, all_lines x.2.now))) result (next_line (member_more (read_member (bases (env_in r.old)) left) (members_in r.old.graph.nodes pool.old fields.members.items)) (members_in r.old.graph.nodes pool.old fields.members.items) (all_lines lines.now)) }
    ensures known { IfOk result (λ x. FieldsKnown r.new.graph pool.new x.1.members.items x.1.names) }
    ensures adds { IfOk result (λ x. FieldsAdded r.old.graph r.new.graph fields.names.types.items x.1.names.types.items) }
    ensures less { IfOk result (λ x. length x.2.now < length lines.now) }
    ensures on { Onward r.old r.new }
    ensures pool { KeepsNames pool.old pool.new }
{
    match lines {
        [line, behind @ ..] => {
            if is_close(line) {
                return Ok((false, fields, behind));
            }
            let more = one_member(r, pool, left, fields, line)?;
            Ok((true, more, behind))
        }
        [] => Err(Stop::NotCil),
    }
}

/// Members up to the line that closes their struct or union, and the lines behind it.
#[tactic(auto, using(crate::proofs::MemberLaws::members_begin, crate::proofs::MemberLaws::members_none, crate::proofs::MemberLaws::members_end, crate::proofs::PoolLaws::pool_twice, crate::proofs::AddedMembers::fields_begin, crate::proofs::OnwardLaws::onward_twice, crate::proofs::OnwardLaws::onward_env))]
fn read_members<'w, 'a>(
    r: &mut Reader,
    pool: &mut NamePool,
    left: u32,
    lines: &'w [Vec<Word<'a>>],
) -> Result<(Fields, &'w [Vec<Word<'a>>]), Stop>
    ensures gives { Gives (λ x. (members_in r.new.graph.nodes pool.new x.0.members.items, all_lines x.1.now)) result (members_from (read_member (bases (env_in r.old)) left) [] (all_lines lines.now)) }
    ensures known { IfOk result (λ x. FieldsKnown r.new.graph pool.new x.0.members.items x.0.names) }
    ensures adds { IfOk result (λ x. AddsParts r.old.graph r.new.graph (types_at r.new.graph.nodes x.0.names.types.items)) }
    ensures on { Onward r.old r.new }
    ensures pool { KeepsNames pool.old pool.new }
{
    let nothing = Fields {
        members: Vec::new(r.alloc()),
        names: Names::new(r.alloc()),
    };
    let (mut more, mut fields, mut rest) = next_member(r, pool, left, nothing, lines)?;
    while more {
        let (again, all, behind) = next_member(r, pool, left, fields, rest)?;
        more = again;
        fields = all;
        rest = behind;
    }
    Ok((fields, rest))
}

/// Behind the line that opens a struct or union: its members.
#[tactic(auto, using(crate::proofs::AggregateLaws::fields_types, crate::proofs::AggregateLaws::fields_there))]
fn read_complete<'w, 'a>(
    r: &mut Reader,
    pool: &mut NamePool,
    left: u32,
    a: AggId,
    lines: &'w [Vec<Word<'a>>],
) -> Result<&'w [Vec<Word<'a>>], Stop>
    requires holds { Holds r.old pool.old a.0 }
    requires there { a.0 < length r.old.graph.aggs }
    requires bare { AreOpen (drop a.0 (aggregates_in r.old.graph pool.old)) }
    requires plain { ArePlain (drop a.0 (aggregates_in r.old.graph pool.old)) }
    ensures gives { Gives (λ rest. (take (a.0 + 1) (aggregates_in r.new.graph pool.new), all_lines rest.now)) result (one_complete (read_member (bases (env_in r.old)) left) (take a.0 (aggregates_in r.old.graph pool.old)) (tag_at a.0 (aggregates_in r.old.graph pool.old)) (all_lines lines.now)) }
    ensures read { OnOk result (AggregatesRead r.old r.new pool.old pool.new (a.0 + 1)) }
    ensures others { OnOk result (OthersStay r.old r.new pool.old pool.new a.0) }
    ensures pool { KeepsNames pool.old pool.new }
{
    let (fields, rest) = read_members(r, pool, left, lines)?;
    r.complete(a, fields.members, fields.names)?;
    Ok(rest)
}

/// Leaves a struct or union without members.
#[tactic(auto, using(crate::proofs::AggregateLaws::never, crate::proofs::AggregateLaws::left_gives, crate::proofs::AggregateLaws::left_tags, crate::proofs::ReadLaws::left_read))]
fn leave(r: &mut Reader, pool: &NamePool, a: AggId) -> Result<(), Stop>
    requires holds { Holds r.old pool.now a.0 }
    requires there { a.0 < length r.old.graph.aggs }
    requires bare { AreOpen (drop a.0 (aggregates_in r.old.graph pool.now)) }
    ensures gives { Gives (λ u. take (a.0 + 1) (aggregates_in r.new.graph pool.now)) result (Some (take a.0 (aggregates_in r.old.graph pool.now) ++ incomplete (tag_at a.0 (aggregates_in r.old.graph pool.now)) ∷ [])) }
    ensures read { OnOk result (AggregatesRead r.old r.new pool.now pool.now (a.0 + 1)) }
    ensures tags { OnOk result ((env_in r.new).tags ≡ (env_in r.old).tags) }
    ensures graph { r.new.graph ≡ r.old.graph }
{
    r.leave_incomplete()
}

/// Behind a line that opens the aggregate with this number, if the first of the lines does.
fn own_members<'w, 'a>(
    r: &Reader,
    a: AggId,
    lines: &'w [Vec<Word<'a>>],
) -> Option<&'w [Vec<Word<'a>>]>
    ensures { option_map (λ rest. all_lines rest.now) result ≡ own_members (env_in r.now).tags a.0 (all_lines lines.now) }
{
    if let [line, behind @ ..] = lines {
        if let Some(tag) = opened_tag(line) {
            if r.has_tag(a, tag) {
                return Some(behind);
            }
        }
    }
    None
}

/// A struct or union: its members, if they stand next, and the lines behind them.
#[tactic(auto, using(crate::proofs::AggregateLaws::struct_complete, crate::proofs::AggregateLaws::struct_bad, crate::proofs::PoolLaws::pool_same))]
fn read_struct<'w, 'a>(
    r: &mut Reader,
    pool: &mut NamePool,
    left: u32,
    a: AggId,
    lines: &'w [Vec<Word<'a>>],
) -> Result<&'w [Vec<Word<'a>>], Stop>
    requires holds { Holds r.old pool.old a.0 }
    requires there { a.0 < length r.old.graph.aggs }
    requires bare { AreOpen (drop a.0 (aggregates_in r.old.graph pool.old)) }
    requires plain { ArePlain (drop a.0 (aggregates_in r.old.graph pool.old)) }
    ensures gives { Gives (λ rest. (take (a.0 + 1) (aggregates_in r.new.graph pool.new), all_lines rest.now)) result (one_struct (read_member (bases (env_in r.old)) left) (take a.0 (aggregates_in r.old.graph pool.old)) (tag_at a.0 (aggregates_in r.old.graph pool.old)) (all_lines lines.now)) }
    ensures read { OnOk result (AggregatesRead r.old r.new pool.old pool.new (a.0 + 1)) }
    ensures others { OnOk result (OthersStay r.old r.new pool.old pool.new a.0) }
    ensures pool { KeepsNames pool.old pool.new }
{
    match own_members(r, a, lines) {
        Some(behind) => {
            let rest = read_complete(r, pool, left, a, behind)?;
            Ok(rest)
        }
        None => {
            leave(r, pool, a)?;
            Ok(lines)
        }
    }
}

/// Structs and unions, of which the first has this number: their tags, the members that stand next, and the lines
/// behind them.
#[tactic(auto, using(crate::proofs::AggregateLaws::whole_open, crate::proofs::AggregateLaws::whole_plain, crate::proofs::AggregateLaws::structs_begin, crate::proofs::AggregateLaws::structs_none, crate::proofs::ReadLaws::read_holds, crate::proofs::ReadLaws::read_adds, crate::proofs::PoolLaws::pool_twice))]
fn read_structs<'w, 'a>(
    r: &mut Reader,
    pool: &mut NamePool,
    left: u32,
    first: u32,
    lines: &'w [Vec<Word<'a>>],
) -> Result<&'w [Vec<Word<'a>>], Stop>
    requires holds { Holds r.old pool.old first }
    requires first { first ≡ length r.old.graph.aggs }
    ensures gives { Gives (λ rest. (aggregates_in r.new.graph pool.new, all_lines rest.now)) result (tagged_structs r.old.graph.abi left first (aggregates_in r.old.graph pool.old) (all_lines lines.now)) }
    ensures read { OnOk result (AggregatesRead r.old r.new pool.old pool.new (length r.new.graph.aggs)) }
    ensures pool { KeepsNames pool.old pool.new }
{
    let mut rest = read_tags(r, pool, first, lines)?;
    let count = r.aggregate_count();
    for a in first..count {
        rest = read_struct(r, pool, left, AggId(a), rest)?;
    }
    Ok(rest)
}

/// Aggregates, of which the first structs and unions may have members behind all tags, and the lines behind them.
#[tactic(auto, using(crate::proofs::AggregateLaws::whole_refused, crate::proofs::AggregateLaws::whole_fails, crate::proofs::ReadLaws::read_holds, crate::proofs::ReadLaws::read_adds, crate::proofs::PoolLaws::pool_twice))]
fn read_placed<'w, 'a>(
    r: &mut Reader,
    pool: &mut NamePool,
    left: u32,
    lines: &'w [Vec<Word<'a>>],
) -> Result<&'w [Vec<Word<'a>>], Stop>
    requires { IsBlank r.old }
    ensures gives { Gives (λ rest. (aggregates_in r.new.graph pool.new, all_lines rest.now)) result (read_placed r.old.graph.abi left (all_lines lines.now)) }
    ensures known { OnOk result (AggregatesKnown r.new.graph pool.new) }
    ensures tags { OnOk result ((env_in r.new).tags ≡ map tag_of (aggregates_in r.new.graph pool.new)) }
    ensures members { OnOk result ((env_in r.new).members ≡ map seen_fields (aggregates_in r.new.graph pool.new)) }
    ensures adds { OnOk result (AggregatesAdded r.old.graph r.new.graph pool.old pool.new) }
    ensures unqualified { OnOk result (list_all members_are_unqualified r.new.graph.aggs ≡ true) }
    ensures pool { KeepsNames pool.old pool.new }
{
    let behind = read_enums(r, pool, left, lines)?;
    let first = r.aggregate_count();
    let rest = read_structs(r, pool, left, first, behind)?;
    Ok(rest)
}

/// All aggregates, each of which is incomplete or has a member (C11 6.7.2.1p8, 6.7.2.2p1), and the lines behind them.
#[tactic(auto, using(crate::proofs::FilledLaws::filled_gives, crate::proofs::FilledLaws::filled_refused, crate::proofs::FilledLaws::filled_fails))]
pub(crate) fn read_aggregates<'w, 'a>(
    r: &mut Reader,
    pool: &mut NamePool,
    left: u32,
    lines: &'w [Vec<Word<'a>>],
) -> Result<&'w [Vec<Word<'a>>], Stop>
    requires { IsBlank r.old }
    ensures gives { Gives (λ rest. (aggregates_in r.new.graph pool.new, all_lines rest.now)) result (read_aggregates r.old.graph.abi left (all_lines lines.now)) }
    ensures known { OnOk result (AggregatesKnown r.new.graph pool.new) }
    ensures tags { OnOk result ((env_in r.new).tags ≡ map tag_of (aggregates_in r.new.graph pool.new)) }
    ensures members { OnOk result ((env_in r.new).members ≡ map seen_fields (aggregates_in r.new.graph pool.new)) }
    ensures model { OnOk result (r.new.graph.abi ≡ r.old.graph.abi) }
    ensures adds { IfOk result (λ rest. AddsParts r.old.graph r.new.graph (member_types (aggregates_in r.new.graph pool.new))) }
    ensures unqualified { IfOk result (λ rest. list_all members_are_unqualified r.new.graph.aggs ≡ true) }
    ensures pool { KeepsNames pool.old pool.new }
{
    let rest = read_placed(r, pool, left, lines)?;
    if !r.are_filled() {
        return Err(Stop::NotCil);
    }
    Ok(rest)
}
