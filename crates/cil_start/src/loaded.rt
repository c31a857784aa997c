ghost use Rattle.std.specs.Prelude.{◌≡◌, ◌<◌, Some, length, slice_get};
ghost use Rattle.cil_link.specs.Units.{units_in};
ghost use Rattle.cil_start.specs.Loads.{IsReady, loaded_in};
ghost use Rattle.cil_start.specs.Ready.{AreReady};

use cil_base::NamePool;
use cil_link::Units;
use cil_tree::CilUnit;
use layout_lp64::Layouts;

/// A program of a run that is loaded.
#[derive(Clone, Copy)]
pub struct Loaded<'a> {
    /// Its tree.
    pub unit: &'a CilUnit,
    /// The pool of its names.
    pub names: &'a NamePool,
    /// The layouts of its types.
    pub layouts: &'a Layouts,
    /// The run's number of each global.
    pub entities: &'a [u32],
}

/// All programs of a run, linked and loaded.
#[derive(Clone, Copy)]
pub struct LoadedUnits<'a> {
    /// The programs, which are linked.
    pub linked: Units<'a>,
    /// The layouts of each program's types.
    pub layouts: &'a [Layouts],
}

impl<'a> LoadedUnits<'a> {
    /// The program with that number.
    pub fn unit(&self, k: usize) -> Loaded<'a>
        requires ready { AreReady self.now }
        requires there { k < length self.now.linked.units.now }
        ensures ready { IsReady result }
        ensures unit { slice_get (units_in self.now.linked) k ≡ Some (loaded_in result) }
    {
        Loaded {
            unit: &self.linked.units[k],
            names: self.linked.names,
            layouts: &self.layouts[k],
            entities: self.linked.entities.numbers[k].as_slice(),
        }
    }
}
