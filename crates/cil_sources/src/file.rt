ghost use Rattle.std.specs.Prelude.{◌≡◌, ◌≢◌, ◌^◌, ◌<◌, ◌≤◌, Err, None, IfOk, IfSome, IsErrOf};
ghost use Rattle.outside.specs.Counts.{Rose};
ghost use Rattle.outside.specs.Named.{find_file, names_of};
ghost use Rattle.cil_sources.specs.Files.{bytes_under, IsFrontOf};

use outside::{Files, ReadStop, read_all};
use std::alloc::Global;

/// Opens the file of that name and reads it, to its end or to the limit. Own.
pub fn read_file<F: Files>(
    alloc: Global,
    name: &str,
    limit: usize,
    files: &mut F,
) -> Result<Vec<u8>, ReadStop>
    requires { limit < 2 ^ 32 }
    ensures ok { IfOk result (λ v. IfSome (bytes_under (F.told files.old) name.now) (IsFrontOf limit v.items)) }
    ensures failed { IsErrOf result ReadStop.Failed → Rose (F.faults files.old) (F.faults files.new) }
    ensures calm { (result ≢ Err ReadStop.Failed) → F.faults files.new ≡ F.faults files.old }
    ensures missing { IfSome (F.told files.old) (λ t. find_file name.now t.names ≡ None → result ≡ Err ReadStop.Failed) }
    ensures later { F.faults files.old ≤ F.faults files.new }
    ensures names { names_of (F.told files.new) ≡ names_of (F.told files.old) }
    ensures strays { IfSome (bytes_under (F.told files.old) name.now) (λ _. F.strays files.new ≡ F.strays files.old) }
{
    files.open_file(name)?;
    read_all(alloc, files, limit)
}
