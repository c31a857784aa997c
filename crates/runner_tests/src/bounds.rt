ghost use Rattle.cil_runner.specs.Beginning.{IsFresh};

use crate::machine::machine_of;
use cil_runner::{Machine, RunEnd};
use outside::{MemSink, MemSource};
use std::alloc::Global;
use std::test::Fail;

// A loop with a jump to the end of its body (C11 6.8.6.2p2).
// int main(void) { int i; for (i = 0; i < 3; i++) { if (i == 1) continue; putchar('a' + i); } return 0; }
const PASSES_ONE: &str = "\
int putchar ( int ) ;
int main ( void ) ;
int main ( void ) {
  int i ;
  i = 0 ;
  while ( 1 ) {
    if ( ( i < 3 ) ) {
    } else {
      break ;
    }
    {
      if ( ( i == 1 ) ) {
        goto __l___0 ;
      } else {
      }
      putchar ( ( 97 + i ) ) ;
    }
    __l___0 : ;
    i = ( i + 1 ) ;
  }
  return 0 ;
}
";

// int main(void) { int c; while ((c = getchar()) != -1) putchar(c); return 0; }
const ECHOES: &str = "\
int getchar ( void ) ;
int putchar ( int ) ;
int main ( void ) ;
int main ( void ) {
  int c ;
  while ( 1 ) {
    c = getchar ( ) ;
    if ( ( c != ( - 1 ) ) ) {
    } else {
      break ;
    }
    putchar ( c ) ;
  }
  return 0 ;
}
";

// No main.
const STARTS: &str = "\
int putchar ( int ) ;
int start ( void ) ;
int start ( void ) {
  putchar ( 97 ) ;
  return 0 ;
}
";

// A main of another type.
const LONG: &str = "\
long main ( void ) ;
long main ( void ) {
  return 0L ;
}
";

// A main of internal linkage.
const INTERNAL: &str = "\
static int main ( void ) ;
static int main ( void ) {
  return 0 ;
}
";

/// A text, its input, a bound on its units, and what it has done at the bound.
type Cut = (&'static str, &'static str, u64, RunEnd, &'static str);

/// Runs that use all units of their bounds. A turn of an echo copies a byte, and one more finds the end of the input.
fn cuts() -> &'static [Cut] {
    &[
        (PASSES_ONE, "", 0, RunEnd::StillRunning, ""),
        (PASSES_ONE, "", 4, RunEnd::StillRunning, "ac"),
        (PASSES_ONE, "", 5, RunEnd::Exited(0), "ac"),
        (STARTS, "", 0, RunEnd::Undefined, ""),
        (LONG, "", 0, RunEnd::Undefined, ""),
        (INTERNAL, "", 0, RunEnd::Undefined, ""),
        (ECHOES, "hi", 0, RunEnd::StillRunning, ""),
        (ECHOES, "hi", 2, RunEnd::StillRunning, "h"),
        (ECHOES, "hi", 3, RunEnd::StillRunning, "hi"),
        (ECHOES, "hi", 4, RunEnd::Exited(0), "hi"),
        (
            ECHOES,
            "one line\nand more",
            19,
            RunEnd::Exited(0),
            "one line\nand more",
        ),
    ]
}

/// Whether a machine comes to that end with that output, over a source that gives seven bytes at once and a sink that takes three, and uses all units.
fn comes_to(alloc: Global, machine: &mut Machine, cut: &Cut) -> Result<bool, Fail>
    requires { IsFresh machine.old }
{
    let mut input = MemSource::new(cut.1.as_bytes().to_vec(alloc)?, 7, Vec::new(alloc));
    let mut out = MemSink::new(alloc, 3, 10_000, Vec::new(alloc))?;
    let end = machine.run(cut.2, &mut input, &mut out);
    Ok(end == cut.3 && machine.used() == cut.2 && out.taken() == cut.4.as_bytes())
}

/// Whether a run comes to what its row has.
fn is_met(alloc: Global, cut: &Cut) -> Result<bool, Fail> {
    let mut machine = machine_of(alloc, cut.0)?;
    comes_to(alloc, &mut machine, cut)
}

/// The first run that comes to something else, by its bound.
fn first_other(alloc: Global, cuts: &[Cut]) -> Result<Option<u64>, Fail> {
    for cut in cuts {
        if !is_met(alloc, cut)? {
            return Ok(Some(cut.2));
        }
    }
    Ok(None)
}

#[test]
fn bounds_cut_runs(rt: HostRuntime) -> Result<(), Fail> {
    let other = first_other(rt.alloc(), cuts())?;
    assert_eq!(rt; other, None);
    Ok(())
}
