ghost use Rattle.std.specs.Prelude.{◌≡◌, ◌≢◌, ◌≤◌, ◌+◌, Err, None, Some, map, IfOk, IfSome, IsErr, IsErrOf, IfErr, OnOk};
ghost use Rattle.std.specs.String.{string_bytes};
ghost use Rattle.outside.specs.Counts.{Rose};
ghost use Rattle.outside.specs.Named.{names_of};
ghost use Rattle.cil_sources.specs.Files.{all_under, found_all};
ghost use Rattle.cil_sources.specs.Units.{kept, unit_fault};
ghost use Rattle.cil_sources.specs.Steps.{with_unit, is_within, state_of};
ghost use Rattle.cil_base.specs.Limits.{total_bytes};

use crate::file::read_file;
use cil_base::{Bytes, TOTAL_BYTES, UNIT_BYTES, What};
use outside::{Files, ReadStop};
use std::alloc::Global;

/// One byte more than a unit may have: so many bytes show that it is too large.
const READ_LIMIT: usize = UNIT_BYTES + 1;

/// The translation units of a merge: the bytes of each that stands before the first that passes a limit, and the limit that this one
/// passes.
#[derive(Drop)]
pub struct Sources {
    pub units: Vec<Bytes>,
    pub over: Option<What>,
    total: usize,
}

/// The limit that a unit of so many bytes passes, behind units of so many.
fn limit_passed(total: usize, size: usize) -> Option<What>
    requires { total ≤ total_bytes }
    ensures { result ≡ unit_fault total size }
{
    if size > UNIT_BYTES {
        Some(What::UnitBytes)
    } else if total + size > TOTAL_BYTES {
        Some(What::TotalBytes)
    } else {
        None
    }
}

impl Sources {
    /// Keeps a unit without the room that its reading left, unless it or one before it passes a limit.
    fn add(&mut self, mut unit: Vec<u8>) -> Result<(), ReadStop>
        requires within { is_within self.old }
        ensures ok { OnOk result (state_of self.new ≡ with_unit (state_of self.old) unit.items) }
        ensures within { is_within self.new }
        ensures stop { IfErr result (λ e. e ≡ ReadStop.Memory) }
    {
        if self.over.is_some() {
            return Ok(());
        }
        if let Some(limit) = limit_passed(self.total, unit.len()) {
            self.over = Some(limit);
            return Ok(());
        }
        unit.shrink_to_fit();
        self.total += unit.len();
        match self.units.push(Bytes::new(unit)) {
            Ok(()) => Ok(()),
            Err(_) => Err(ReadStop::Memory),
        }
    }
}

/// Reads the files of these names in order, each to its end or to one byte more than a unit may have. Behind a call that fails no file
/// is opened. Own.
#[tactic(auto, using(crate::proofs::Reading::nothing_read))]
pub fn read_units<F: Files>(
    alloc: Global,
    names: &[String],
    files: &mut F,
) -> Result<Sources, ReadStop>
    ensures ok { IfOk result (λ s. IfSome (all_under (F.told files.old) (map string_bytes names.now)) (λ units. (s.units.items ≡ (kept 0 units).units) × (s.over ≡ (kept 0 units).over))) }
    ensures failed { IsErrOf result ReadStop.Failed → Rose (F.faults files.old) (F.faults files.new) }
    ensures calm { (result ≢ Err ReadStop.Failed) → F.faults files.new ≡ F.faults files.old }
    ensures missing { IfSome (F.told files.old) (λ t. found_all t.names (map string_bytes names.now) ≡ None → IsErr result) }
    ensures later { F.faults files.old ≤ F.faults files.new }
    ensures names { names_of (F.told files.new) ≡ names_of (F.told files.old) }
    ensures strays { IfSome (all_under (F.told files.old) (map string_bytes names.now)) (λ _. F.strays files.new ≡ F.strays files.old) }
{
    let mut sources = Sources {
        units: Vec::new(alloc),
        over: None,
        total: 0,
    };
    for name in names {
        let unit = read_file(alloc, name.as_str(), READ_LIMIT, files)?;
        sources.add(unit)?;
    }
    Ok(sources)
}
