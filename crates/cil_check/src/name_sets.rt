ghost use Rattle.std.specs.Prelude.{◌≡◌, ◌<◌, ◌&&◌, ◌++◌, nat_eq, IfOk, IsTrue, map, length};
ghost use Rattle.std.specs.List.{list_all};
ghost use Rattle.cil_tree.specs.View.{text_at};
ghost use Rattle.cil_tree.specs.Names.{is_plain_name, are_different};
ghost use Rattle.cil_check.specs.NameLists.{number, AllIn};
ghost use Rattle.cil_check.specs.Sets.{fresh};

use crate::bodies::text_at;
use crate::words::is_plain_name;
use cil_base::{Memory, NameId, NamePool};
use indexmap::IndexSet;
use std::alloc::Global;

/// Adds numbers of names to those that were seen, up to the first that was. It answers whether there was none.
///
/// After Memory some of them are added.
#[tactic(auto, using(crate::proofs::NameLaws::fresh_next, crate::proofs::NameLaws::seen_next))]
pub(crate) fn add_fresh(seen: &mut IndexSet<u32>, names: &[NameId]) -> Result<bool, Memory>
    ensures fresh { IfOk result (λ b. b ≡ fresh nat_eq seen.old.keys (map number names.now)) }
    ensures added { IfOk result (λ b. IsTrue b → seen.new.keys ≡ seen.old.keys ++ map number names.now) }
{
    for i in 0..names.len() {
        let (_place, is_new) = seen.insert_full(names[i].0)?;
        if !is_new {
            return Ok(false);
        }
    }
    Ok(true)
}

/// Whether a name is plain.
pub(crate) fn is_plain(names: &NamePool, name: NameId) -> bool
    ensures { result ≡ is_plain_name (text_at names.now name) }
{
    is_plain_name(text_at(names, name))
}

/// Whether each name is plain.
#[tactic(auto, using(crate::proofs::BodySteps::each_from))]
pub(crate) fn all_plain(names: &NamePool, ids: &[NameId]) -> bool
    ensures { result ≡ list_all is_plain_name (map (text_at names.now) ids.now) }
{
    for i in 0..ids.len() {
        if !is_plain(names, ids[i]) {
            return false;
        }
    }
    true
}

/// Whether no two names of the pool have one text.
///
/// Memory comes only for want of memory.
#[tactic(auto, using(crate::proofs::NameLaws::different_is))]
pub(crate) fn are_different(alloc: Global, names: &NamePool, ids: &[NameId]) -> Result<bool, Memory>
    requires { AllIn (length names.now) ids.now }
    ensures { IfOk result (λ b. b ≡ are_different (map (text_at names.now) ids.now)) }
{
    // What is known of a pool is known where it is read.
    let _count = names.len();
    let mut seen = IndexSet::new(alloc);
    add_fresh(&mut seen, ids)
}

/// Whether each name is plain, and no two have one text.
///
/// Memory comes only for want of memory.
#[tactic(auto, using(crate::proofs::NameLaws::all_plain_in))]
pub(crate) fn are_named_apart(
    alloc: Global,
    names: &NamePool,
    ids: &[NameId],
) -> Result<bool, Memory>
    ensures { IfOk result (λ b. b ≡ (list_all is_plain_name (map (text_at names.now) ids.now) && are_different (map (text_at names.now) ids.now))) }
{
    if !all_plain(names, ids) {
        return Ok(false);
    }
    are_different(alloc, names, ids)
}
