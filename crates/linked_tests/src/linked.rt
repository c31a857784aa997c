ghost use Rattle.std.specs.Prelude.{◌≡◌, true, All, IfOk};
ghost use Rattle.cil_base.specs.declared.kinds.Abi.TheVariants.{Lp64};
ghost use Rattle.cil_tree.specs.View.{program_of};
ghost use Rattle.cil_tree.specs.Programs.{IsProgram};

use crate::equal::equal;
use crate::units::{Digit, Form, Locals, Row, Unit, add_unit};
use cil_base::{Abi, Bytes, Env, Memory, NamePool, Outcome};
use cil_check::check;
use cil_runner::run_cil;
use cil_tree::CilUnit;
use std::alloc::Global;

/// The exit status of an outcome, if it is one.
fn status(o: &Outcome) -> Option<u8> {
    match o {
        Outcome::Exit(status, _) => Some(*status),
        Outcome::Running(_) | Outcome::Undefined(_) => None,
    }
}

/// Whether all units are well-formed programs.
fn all_check(units: &[CilUnit], names: &NamePool) -> Result<bool, Memory>
    ensures { IfOk result (λ b. b ≡ true → All (λ u. IsProgram (program_of names.now u)) units.now) }
{
    for i in 0..units.len() {
        if !check(&units[i], names)? {
            return Ok(false);
        }
    }
    Ok(true)
}

/// Whether all units have the data model of the rows.
fn all_alike(units: &[CilUnit]) -> bool
    ensures { result ≡ true → All (λ u. u.graph.abi ≡ Lp64) units.now }
{
    for i in 0..units.len() {
        if units[i].graph.abi() != Abi::Lp64 {
            return false;
        }
    }
    true
}

/// One word, and the input `A`.
fn environment(alloc: Global) -> Result<Env, Memory> {
    let input = b"A".to_vec(alloc)?;
    let word = b"p".to_vec(alloc)?;
    let mut args = Vec::new(alloc);
    args.push(Bytes::new(word))?;
    Ok(Env {
        args,
        input: Bytes::new(input),
    })
}

/// The status of the run of units, which are linked; Memory also where one of them is no well-formed program, or
/// has another data model than the rows.
fn run_units(alloc: Global, units: &[CilUnit], names: &NamePool) -> Result<Option<u8>, Memory> {
    if !all_check(units, names)? || !all_alike(units) {
        return Err(Memory);
    }
    let env = environment(alloc)?;
    Ok(status(&run_cil(alloc, units, names, &env, 10)?))
}

fn run_in(
    names: &mut NamePool,
    made: &mut Vec<CilUnit>,
    alloc: Global,
    units: &[Unit],
) -> Result<Option<u8>, Memory> {
    for unit in units {
        add_unit(made, alloc, names, unit)?;
    }
    run_units(alloc, made, names)
}

/// The status of the run of these units.
fn run(alloc: Global, units: &[Unit]) -> Result<Option<u8>, Memory> {
    let mut names = NamePool::new(alloc);
    let mut made = Vec::new(alloc);
    run_in(&mut names, &mut made, alloc, units)
}

/// Names of locals that no global has.
const OWN: Locals = Locals {
    sum: b"sum",
    digit: b"digit",
};

/// Units that are linked, and the status of their run.
struct Linked {
    name: &'static str,
    units: &'static [Unit],
    status: Option<u8>,
}

/// An external object and an external function are one in both units (6.2.2p2).
const EXTERNAL: Linked = Linked {
    name: "external names are one in all units",
    units: &[
        Unit {
            locals: OWN,
            rows: &[
                Row::External(b"n", Form::Object(Some(1))),
                Row::External(
                    b"f",
                    Form::Function(Some(&[Digit::Set(0, 2), Digit::Number(1)])),
                ),
            ],
        },
        Unit {
            locals: OWN,
            rows: &[
                Row::External(b"f", Form::Function(None)),
                Row::External(b"n", Form::Object(None)),
                Row::External(
                    b"main",
                    Form::Function(Some(&[Digit::Value(1), Digit::Call(0), Digit::Value(1)])),
                ),
            ],
        },
    ],
    status: Some(112),
};

/// An internal object and an internal function are those of their unit (6.2.2p2).
const INTERNAL: Linked = Linked {
    name: "internal names are those of their unit",
    units: &[
        Unit {
            locals: OWN,
            rows: &[
                Row::Internal(b"n", Form::Object(Some(1))),
                Row::Internal(b"g", Form::Function(Some(&[Digit::Value(0)]))),
                Row::External(b"f", Form::Function(Some(&[Digit::Call(1)]))),
            ],
        },
        Unit {
            locals: OWN,
            rows: &[
                Row::Internal(b"n", Form::Object(Some(2))),
                Row::Internal(b"g", Form::Function(Some(&[Digit::Value(0)]))),
                Row::External(b"f", Form::Function(None)),
                Row::External(
                    b"main",
                    Form::Function(Some(&[Digit::Call(2), Digit::Call(1)])),
                ),
            ],
        },
    ],
    status: Some(12),
};

/// A declared function of the host's name is the host's.
const DECLARED: Linked = Linked {
    name: "a declared function is the host's",
    units: &[Unit {
        locals: OWN,
        rows: &[
            Row::External(b"getchar", Form::Function(None)),
            Row::External(b"main", Form::Function(Some(&[Digit::Call(0)]))),
        ],
    }],
    status: Some(65),
};

/// A unit's definition counts before the host's function (own).
const DEFINED: Linked = Linked {
    name: "a definition counts before the host",
    units: &[
        Unit {
            locals: OWN,
            rows: &[
                Row::External(b"getchar", Form::Function(None)),
                Row::External(b"main", Form::Function(Some(&[Digit::Call(0)]))),
            ],
        },
        Unit {
            locals: OWN,
            rows: &[Row::External(b"getchar", Form::Function(Some(&[Digit::Number(7)])))],
        },
    ],
    status: Some(7),
};

/// An internal main begins no run (5.1.2.2.1p1).
const INTERNAL_MAIN: Linked = Linked {
    name: "an internal main begins no run",
    units: &[
        Unit {
            locals: OWN,
            rows: &[Row::Internal(b"main", Form::Function(Some(&[Digit::Number(1)])))],
        },
        Unit {
            locals: OWN,
            rows: &[Row::External(b"main", Form::Function(Some(&[Digit::Number(2)])))],
        },
    ],
    status: Some(2),
};

/// What no unit defines is undefined where it is called.
const UNDEFINED: Linked = Linked {
    name: "what no unit defines is undefined",
    units: &[Unit {
        locals: OWN,
        rows: &[
            Row::External(b"f", Form::Function(None)),
            Row::External(b"main", Form::Function(Some(&[Digit::Call(0)]))),
        ],
    }],
    status: None,
};

/// Locals have names of globals of another unit, which they neither hide nor are (6.2.1p4, 6.2.2p6).
const LOCALS: Linked = Linked {
    name: "locals are no globals of another unit",
    units: &[
        Unit {
            locals: OWN,
            rows: &[
                Row::External(b"n", Form::Object(Some(1))),
                Row::External(b"g", Form::Function(Some(&[Digit::Number(2)]))),
                Row::External(
                    b"f",
                    Form::Function(Some(&[Digit::Value(0), Digit::Call(1)])),
                ),
            ],
        },
        Unit {
            locals: Locals {
                sum: b"n",
                digit: b"g",
            },
            rows: &[
                Row::External(b"f", Form::Function(None)),
                Row::External(
                    b"main",
                    Form::Function(Some(&[Digit::Number(2), Digit::Call(0)])),
                ),
            ],
        },
    ],
    status: Some(32),
};

const ALL: [Linked; 7] = [
    EXTERNAL,
    INTERNAL,
    DECLARED,
    DEFINED,
    INTERNAL_MAIN,
    UNDEFINED,
    LOCALS,
];

#[test]
fn linked_units_run(rt: HostRuntime) {
    for linked in &ALL {
        let status = run(rt.alloc(), linked.units);
        equal(&rt, &linked.name, &status, &Ok(linked.status));
    }
}
