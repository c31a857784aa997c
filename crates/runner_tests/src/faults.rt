ghost use Rattle.cil_runner.specs.Beginning.{IsFresh};

use crate::machine::machine_of;
use cil_runner::{Machine, RunEnd};
use outside::{MemSink, MemSource};
use std::alloc::Global;
use std::test::Fail;

// Writes `go`, and then copies its input to its output.
const COPIES: &str = "\
int getchar ( void ) ;
int putchar ( int ) ;
int main ( void ) ;
int main ( void ) {
  int c ;
  putchar ( 103 ) ;
  putchar ( 111 ) ;
  while ( 1 ) {
    c = getchar ( ) ;
    if ( ( c < 0 ) ) {
      break ;
    } else {
    }
    putchar ( c ) ;
  }
  return 0 ;
}
";

const INPUT: &str = "abcd";

const OUTPUT: &str = "goabcd";

/// The numbers of the read and of the write that fails, how the run ends, and how many bytes the sink has, the first of the output. The reads 0 to 3 give a
/// byte each, and 4 finds the end; all output is written before a read. A write takes a byte.
fn calls() -> &'static [(u64, u64, RunEnd, usize)] {
    &[
        (0, 100, RunEnd::ReadFault, 2),
        (1, 100, RunEnd::ReadFault, 3),
        (2, 100, RunEnd::ReadFault, 4),
        (3, 100, RunEnd::ReadFault, 5),
        (4, 100, RunEnd::ReadFault, 6),
        (5, 100, RunEnd::Exited(0), 6),
        (100, 0, RunEnd::WriteFault, 0),
        (100, 1, RunEnd::WriteFault, 1),
        (100, 2, RunEnd::WriteFault, 2),
        (100, 3, RunEnd::WriteFault, 3),
        (100, 4, RunEnd::WriteFault, 4),
        (100, 5, RunEnd::WriteFault, 5),
        (100, 6, RunEnd::Exited(0), 6),
    ]
}

/// Whether a machine ends so over a source and a sink that move one byte a call, and fail in these calls, and the sink has that many bytes of the output.
fn ends_so(
    alloc: Global,
    machine: &mut Machine,
    row: &(u64, u64, RunEnd, usize),
) -> Result<bool, Fail>
    requires { IsFresh machine.old }
{
    let input = INPUT.as_bytes().to_vec(alloc)?;
    let mut input = MemSource::new(input, 1, vec![in alloc; row.0]?);
    let mut out = MemSink::new(alloc, 1, 100, vec![in alloc; row.1]?)?;
    let end = machine.run(100, &mut input, &mut out);
    Ok(end == row.2 && OUTPUT.as_bytes().starts_with(out.taken()) && out.taken().len() == row.3)
}

/// Whether a run ends as its row has it.
fn is_met(alloc: Global, row: &(u64, u64, RunEnd, usize)) -> Result<bool, Fail> {
    let mut machine = machine_of(alloc, COPIES)?;
    ends_so(alloc, &mut machine, row)
}

/// The first row that ends otherwise, by its place.
fn first_other(alloc: Global, rows: &[(u64, u64, RunEnd, usize)]) -> Result<Option<usize>, Fail> {
    for (i, row) in rows.iter().enumerate() {
        if !is_met(alloc, row)? {
            return Ok(Some(i));
        }
    }
    Ok(None)
}

#[test]
fn each_call_that_fails_ends_a_run(rt: HostRuntime) -> Result<(), Fail> {
    let other = first_other(rt.alloc(), calls())?;
    assert_eq!(rt; other, None);
    Ok(())
}
