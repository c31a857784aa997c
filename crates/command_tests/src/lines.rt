//! The line of each status, also of those that no command gives at will.

ghost use Rattle.std.specs.Prelude.{◌≡◌};
ghost use Rattle.cil_lines.specs.Messages.{HasFiles};

use cil_base::{Code, Fault, Feature, NameId, NamePool, Place, Refusal, UnitNo, What};
use cil_lines::{Status, report};
use outside::MemSink;
use std::alloc::Global;
use std::process::Abort;
use std::test::Fail;

/// The line of a status whose places are in `a.c`.
fn line_of(alloc: Global, status: Status) -> Result<Vec<u8>, Fail>
    requires { HasFiles 1 status }
{
    let mut names = NamePool::new(alloc);
    names.intern(b"a.c")?;
    let mut err = MemSink::new(alloc, 7, 4096, Vec::new(alloc))?;
    report(&mut err, &names, 10_000_000, &status);
    Ok(Vec::from_slice(alloc, err.taken())?)
}

/// The line of a status is this one.
fn tells(rt: &impl Abort, alloc: Global, status: Status, line: &str) -> Result<(), Fail>
    requires { HasFiles 1 status }
{
    let told = line_of(alloc, status)?;
    assert_eq!(rt; told.as_slice(), line.as_bytes());
    Ok(())
}

fn refused(fault: Fault, line: u32, other: Option<u32>) -> Status
    ensures { HasFiles 1 result }
{
    let at = place(line);
    let other = match other {
        Some(line) => Some(place(line)),
        None => None,
    };
    Status::Refused(Refusal { fault, at, other })
}

fn place(line: u32) -> Place
    ensures { result.file.0 ≡ 0 }
{
    Place {
        unit: UnitNo(0),
        token: 3,
        file: NameId(0),
        line,
    }
}

#[test]
fn ends_are_told_by_their_lines(rt: HostRuntime) -> Result<(), Fail> {
    let alloc = rt.alloc();
    tells(&rt, alloc, Status::Done, "")?;
    tells(&rt, alloc, Status::Exited(7), "")?;
    tells(
        &rt,
        alloc,
        Status::StillRunning,
        "cil: still running after 10000000 steps\n",
    )?;
    tells(&rt, alloc, Status::NotCil(63), "cil: not CIL at byte 63\n")?;
    tells(&rt, alloc, Status::Memory, "cil: want of memory\n")
}

#[test]
fn refusals_are_told_by_their_lines(rt: HostRuntime) -> Result<(), Fail> {
    for (fault, line, other, told) in [
        (Fault::Lexical, 2, None, "cil: a.c:2: lexical fault\n"),
        (
            Fault::Excluded(Feature::Floating),
            1,
            None,
            "cil: a.c:1: excluded: floating\n",
        ),
        (
            Fault::Syntax,
            1,
            Some(1),
            "cil: a.c:1: syntax fault, stopped at a.c:1\n",
        ),
        (
            Fault::Constraint(Code::Undeclared),
            13,
            None,
            "cil: a.c:13: constraint: undeclared\n",
        ),
        (
            Fault::Limit(What::ObjectSize),
            1,
            None,
            "cil: a.c:1: limit: object size\n",
        ),
        (
            Fault::Duplicate,
            1,
            Some(1),
            "cil: a.c:1: duplicate definition, other at a.c:1\n",
        ),
        (
            Fault::Incompatible,
            1,
            Some(4),
            "cil: a.c:1: incompatible declaration, other at a.c:4\n",
        ),
    ] {
        tells(&rt, rt.alloc(), refused(fault, line, other), told)?;
    }
    Ok(())
}
