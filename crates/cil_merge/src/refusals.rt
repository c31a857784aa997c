ghost use Rattle.std.specs.Prelude.{◌≡◌, Some, map, slice_get, IfOk};
ghost use Rattle.link_names.specs.Grouping.{linked_of};
ghost use Rattle.cil_merge.specs.Merging.{AreSites, IsSiteOf, IsLinkRefusal};
ghost use Rattle.cil_merge.specs.Refusing.{IsLinkStop};

use cil_base::{Fault, Memory, Place, Refusal, Stop};
use link_names::{LinkedName, LinkedSite};
use type_iso::ClassStop;
use type_things::impossible;

/// The declarations of a name, by the name's place.
fn sites(names: &[LinkedName], group: u32) -> Result<&[LinkedSite], Memory>
    ensures { IfOk result (λ ss. AreSites (map linked_of names.now) group ss.now) }
{
    if group as usize >= names.len() {
        return Err(impossible());
    }
    Ok(&names[group as usize].sites)
}

/// One of them, by its place.
fn site(sites: &[LinkedSite], party: u32) -> Result<LinkedSite, Memory>
    ensures { IfOk result (λ s. slice_get sites.now party ≡ Some s) }
{
    match sites.get(party as usize) {
        Some(site) => Ok(*site),
        None => Err(impossible()),
    }
}

/// The place of the first declaration of a party of a name.
#[tactic(auto, using(crate::proofs::MergingLaws::site_found))]
fn first_place(names: &[LinkedName], group: u32, party: u32) -> Result<Place, Memory>
    ensures { IfOk result (IsSiteOf (map linked_of names.now) group party) }
{
    let sites = sites(names, group)?;
    let site = site(sites, party)?;
    Ok(site.site.first)
}

/// The refusal that a link is: two declarations of one name in two units (C11 6.2.7p2).
fn incompatible(
    names: &[LinkedName],
    group: u32,
    earlier: u32,
    later: u32,
) -> Result<Refusal, Memory>
    ensures { IfOk result (IsLinkRefusal (map linked_of names.now) group earlier later) }
{
    let at = first_place(names, group, later)?;
    let other = first_place(names, group, earlier)?;
    Ok(Refusal {
        fault: Fault::Incompatible,
        at,
        other: Some(other),
    })
}

/// Why units are refused that have no classes.
pub(crate) fn class_stop(names: &[LinkedName], stop: ClassStop) -> Stop
    ensures { IsLinkStop (map linked_of names.now) stop result }
{
    match stop {
        ClassStop::Memory => Stop::Memory,
        ClassStop::Clash {
            group,
            earlier,
            later,
            ..
        } => match incompatible(names, group, earlier, later) {
            Ok(refusal) => Stop::Refused(refusal),
            Err(Memory) => Stop::Memory,
        },
    }
}
