ghost use Rattle.std.specs.Prelude.{◌≡◌, ◌+◌, ◌<◌, ◌∷◌, [], length, drop, map, IfSome, MatchOption};
ghost use Rattle.std.specs.List.{filter_map};
ghost use Rattle.std.specs.Option.{option_map};
ghost use Rattle.link_names.specs.Linking.{strong, first_two, first_twice, duplicate_of};
ghost use Rattle.link_names.specs.Grouping.{linked_of};

use crate::names::{LinkedName, LinkedSite};
use crate::units::Site;
use cil_base::{Fault, Mode, Place, Refusal};

/// The place of a definition that no other unit may have too: under common a tentative one may be one of several (C11 J.5.11).
fn strong_definition(site: Site, mode: Mode) -> Option<Place>
    ensures { result ≡ strong mode.common site }
{
    if mode.common && site.tentative {
        return None;
    }
    site.defined
}

/// The first such definition among sites from one on, with its place.
fn next_definition(sites: &[LinkedSite], from: usize, mode: Mode) -> Option<(usize, Place)>
    ensures within { IfSome result (λ r. r.0 < length sites.now) }
    ensures next { MatchOption result (filter_map (λ s. strong mode.common s.site) (drop from sites.now) ≡ []) (λ r. filter_map (λ s. strong mode.common s.site) (drop from sites.now) ≡ r.1 ∷ filter_map (λ s. strong mode.common s.site) (drop (r.0 + 1) sites.now)) }
{
    for i in from..sites.len() {
        match strong_definition(sites[i].site, mode) {
            Some(place) => return Some((i, place)),
            None => {}
        }
    }
    None
}

/// The refusal that two definitions of one name are (C11 6.9p5).
fn duplicate(first: Place, second: Place) -> Refusal
    ensures { result ≡ duplicate_of (first, second) }
{
    Refusal {
        fault: Fault::Duplicate,
        at: second,
        other: Some(first),
    }
}

/// The refusal that the first two definitions of a name are, if it has two.
fn defined_twice(sites: &[LinkedSite], mode: Mode) -> Option<Refusal>
    ensures { result ≡ option_map duplicate_of (first_two (filter_map (λ s. strong mode.common s.site) sites.now)) }
{
    let (i, first) = next_definition(sites, 0, mode)?;
    let (_, second) = next_definition(sites, i + 1, mode)?;
    Some(duplicate(first, second))
}

/// The refusal that two definitions of one name are, for the first name that has two.
pub(crate) fn first_duplicate(names: &[LinkedName], mode: Mode) -> Option<Refusal>
    ensures { result ≡ option_map duplicate_of (first_twice mode.common (map linked_of names.now)) }
{
    for name in names {
        match defined_twice(&name.sites, mode) {
            Some(refusal) => return Some(refusal),
            None => {}
        }
    }
    None
}
