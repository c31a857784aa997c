ghost use Rattle.std.specs.Prelude.{◌≡◌, map, OnOk};
ghost use Rattle.cil_base.specs.NamePool.{Stays};
ghost use Rattle.static_rename.specs.Local.{IsTable};
ghost use Rattle.static_rename.specs.Renamed.{IsNamedUnit, AreRenamed};
ghost use Rattle.static_rename.specs.Tagging.{named_by};
ghost use Rattle.static_rename.specs.Unit.{AreUnits};

use crate::bodies::name_bodies;
use crate::files::{Filed, file_units, put_all_given};
use crate::kept::kept_names;
use crate::locals::FileNames;
use crate::standing::{all_standing, standing_from};
use crate::tags::{name_enumerators, name_tags};
use crate::types::{NamedTypes, rename_aggregates};
use cil_base::{Memory, NamePool, UnitNo};
use link_names::{Fronted, Links, unit_number};
use std::alloc::Global;
use type_iso::Classes;
use type_things::impossible;

/// Gives what a unit declares its names.
#[tactic(auto, using(crate::proofs::UnitLaws::unit_named))]
fn name_unit(
    file: &mut FileNames,
    names: &mut NamePool,
    types: &NamedTypes<'_>,
    u: UnitNo,
    filed: &Filed,
    unit: &mut Fronted,
) -> Result<(), Memory>
    requires table { IsTable file.old names.old }
    ensures kept { OnOk result (file.new.names.taken.keys ≡ file.old.names.taken.keys) }
    ensures stays { Stays names.old names.new }
    ensures table { OnOk result (IsTable file.new names.new) }
    ensures named { OnOk result (IsNamedUnit (named_by types.now) u.0 file.old.names.taken.keys names.new types.now.bases filed.now.things.items filed.now.names.items unit.old unit.new) }
{
    put_all_given(&mut unit.cil.globals, filed)?;
    rename_aggregates(types, u, &mut unit.cil.graph)?;
    name_bodies(types.alloc, file, names, types.bases, &mut unit.cil.globals)
}

/// Gives what all units declare its names.
#[tactic(auto, using(crate::proofs::EachLaws::none_yet, crate::proofs::UnitLaws::unit_next, crate::proofs::UnitLaws::units_of, fresh_names::proofs::NamingLaws::stays_twice))]
fn name_units(
    file: &mut FileNames,
    names: &mut NamePool,
    types: &NamedTypes<'_>,
    filed: &[Filed],
    units: &mut Vec<Fronted>,
) -> Result<(), Memory>
    requires table { IsTable file.old names.old }
    ensures stays { Stays names.old names.new }
    ensures named { OnOk result (AreUnits (named_by types.now) 0 file.old.names.taken.keys names.new types.now.bases filed.now units.old.items units.new.items) }
{
    if filed.len() != units.len() {
        return Err(impossible());
    }
    for u in 0..units.len() {
        name_unit(
            file,
            names,
            types,
            unit_number(u)?,
            &filed[u],
            &mut units[u],
        )?;
    }
    Ok(())
}

/// Gives all that the units declare distinct names, where C11 6.2.1 lets a name denote several things (own).
///
/// External names and those of the host stay. Whatever else asks for a name gets it where it is new, or with the suffix `___` and the
/// least number that makes it new; made names always have one. At file scope it goes unit by unit: objects and functions with internal
/// linkage and enumerators, then objects that are declared in blocks, then literals. Enumerators and tags are named once for each class
/// of aggregates. The parameters, objects and temporaries of a function get names that are new to the file and to the function, its
/// labels such as are new to the function; members keep theirs.
///
/// The links and the classes are those of these units. Its error is want of memory, after which the units are only to be dropped.
pub fn rename(
    alloc: Global,
    units: &mut Vec<Fronted>,
    links: &Links,
    classes: &Classes,
    names: &mut NamePool,
) -> Result<(), Memory>
    ensures stays { Stays names.old names.new }
    ensures renamed { OnOk result (AreRenamed classes.now (map (λ l. l.name) links.now.names.items) names.new units.old.items units.new.items) }
{
    let bases = names.bases()?;
    let mut fresh = kept_names(alloc, links, names)?;
    let stands = standing_from(alloc, classes, units)?;
    let filed = file_units(&mut fresh, names, bases, &stands, units)?;
    let standing = all_standing(alloc, classes)?;
    let enumerators = name_enumerators(alloc, classes, units, &standing, &filed)?;
    let tags = name_tags(alloc, names, bases, units, &standing)?;
    let types = NamedTypes {
        alloc,
        bases,
        classes,
        tags,
        enumerators,
    };
    let mut file = FileNames::new(alloc, fresh);
    name_units(&mut file, names, &types, &filed, units)?;
    Ok(())
}
