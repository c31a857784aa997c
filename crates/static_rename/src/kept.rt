ghost use Rattle.std.specs.Prelude.{◌≡◌, map, IfOk};
ghost use Rattle.cil_base.specs.NamePool.{Stays};
ghost use Rattle.fresh_names.specs.Giving.{IsReady};
ghost use Rattle.static_rename.specs.Files.{HaveTexts, AreKept};

use cil_base::{Memory, NameId, NamePool, host_names};
use fresh_names::Fresh;
use link_names::{LinkedName, Links};
use std::alloc::Global;

/// The external names.
fn external_names(alloc: Global, linked: &[LinkedName]) -> Result<Vec<NameId>, Memory>
    ensures { IfOk result (λ v. v.items ≡ map (λ l. l.name) linked.now) }
{
    let mut all = Vec::new(alloc);
    for i in 0..linked.len() {
        all.push(linked[i].name)?;
    }
    Ok(all)
}

/// The numbers of texts as names.
fn interned(alloc: Global, names: &mut NamePool, texts: &[&str]) -> Result<Vec<NameId>, Memory>
    ensures stays { Stays names.old names.new }
    ensures texts { IfOk result (λ v. HaveTexts names.new v.items (map (λ s. s.now) texts.now)) }
{
    let mut all = Vec::new(alloc);
    for text in texts {
        all.push(names.intern(text.as_bytes())?)?;
    }
    Ok(all)
}

/// The names at file scope before any is given: external ones and those of the host's functions.
#[tactic(auto, using(crate::proofs::KeptLaws::ready_at_first, crate::proofs::KeptLaws::are_kept))]
pub(crate) fn kept_names(
    alloc: Global,
    links: &Links,
    names: &mut NamePool,
) -> Result<Fresh, Memory>
    ensures stays { Stays names.old names.new }
    ensures ready { IfOk result (λ f. IsReady f names.new) }
    ensures kept { IfOk result (λ f. AreKept (map (λ l. l.name) links.now.names.items) names.new f.taken.keys) }
{
    let externals = external_names(alloc, &links.names)?;
    let texts = host_names();
    let hosts = interned(alloc, names, &texts)?;
    let mut fresh = Fresh::new(alloc);
    fresh.take_all(&externals)?;
    fresh.take_all(&hosts)?;
    Ok(fresh)
}
