ghost use Rattle.std.specs.Prelude.{◌≡◌, map, IfOk};
ghost use Rattle.link_names.specs.Linking.{party_of};
ghost use Rattle.link_names.specs.Grouping.{linked_of, group_of};

use crate::names::{LinkedName, LinkedSite};
use cil_base::Memory;
use std::alloc::Global;
use type_links::{Group, Party};

/// What a site is for the comparison of types.
fn party_at(s: LinkedSite) -> Party
    ensures { result ≡ party_of s }
{
    Party {
        unit: s.unit,
        ty: s.ty,
        bare: s.site.bare,
    }
}

/// The parties of a name.
fn parties(alloc: Global, sites: &[LinkedSite]) -> Result<Vec<Party>, Memory>
    ensures { IfOk result (λ v. v.items ≡ map party_of sites.now) }
{
    let mut all = Vec::new(alloc);
    for s in sites {
        all.push(party_at(*s))?;
    }
    Ok(all)
}

/// The parties of all names.
pub(crate) fn groups(alloc: Global, names: &[LinkedName]) -> Result<Vec<Group>, Memory>
    ensures { IfOk result (λ v. map group_of v.items ≡ map (λ l. map party_of l.1) (map linked_of names.now)) }
{
    let mut all = Vec::new(alloc);
    for name in names {
        let parties = parties(alloc, &name.sites)?;
        all.push(Group { parties })?;
    }
    Ok(all)
}
