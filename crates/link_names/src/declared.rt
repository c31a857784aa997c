ghost use Rattle.std.specs.Prelude.{◌≡◌, [], ◌∷◌, IfOk};
ghost use Rattle.link_names.specs.Linking.{declared_at};

use crate::names::LinkedSite;
use crate::units::Site;
use cil_base::{Memory, NameId, UnitNo};
use cil_tree::GlobalDecl;
use type_things::impossible;

/// What a unit says of an external name.
pub(crate) fn declared(
    unit: UnitNo,
    globals: &[GlobalDecl],
    site: Site,
) -> Result<(NameId, LinkedSite), Memory>
    ensures { IfOk result (λ d. declared_at unit globals.now site ≡ d ∷ []) }
{
    match globals.get(site.entity.0 as usize) {
        Some(global) => Ok((
            global.name,
            LinkedSite {
                unit,
                ty: global.ty,
                site,
            },
        )),
        None => Err(impossible()),
    }
}
