ghost use Rattle.std.specs.Prelude.{◌≡◌, ◌++◌, true, false, [], length, IfOk, IfErr};
ghost use Rattle.std.specs.List.{list_all};
ghost use Rattle.type_graph.specs.Arena.{IsArena};
ghost use Rattle.cil_tree.specs.View.{program_of};
ghost use Rattle.cil_tree.specs.WellFormedTypes.{members_are_unqualified};
ghost use Rattle.cil_tree.specs.Programs.{IsTextOf};
ghost use Rattle.cil_text.specs.ReadText.{read_text};
ghost use Rattle.cil_text.specs.TypesOf.{AddsParts, HasNeeded, declared_types, defined_types};
ghost use Rattle.cil_declarators.specs.declared.stop.Stop.TheVariants.{WantOfMemory};
ghost use Rattle.cil_scan.specs.Said.{all_lines};
ghost use Rattle.cil_declarators.specs.Gives.{Gives};
ghost use Rattle.cil_declarators.specs.Extends.{Extends};
ghost use Rattle.cil_reader.specs.Settings.{OnwardOutside, env_in};
ghost use Rattle.cil_reader.specs.Pools.{KeepsNames};
ghost use Rattle.cil_reader.specs.Aggregates.{aggregates_in};
ghost use Rattle.cil_reader.specs.Globals.{EachDeclared, declarations_of, globals_of};
ghost use Rattle.cil_reader.specs.Defined.{defined_read, globals_read, Refuses};
ghost use Rattle.cil_reader.specs.Stops.{StopsAt};

use crate::aggregates::read_aggregates;
use crate::bodies::read_bodies;
use crate::globals::{Declaration, names_of, read_declarations, read_objects};
use crate::names::{Known, Names};
use crate::reader::Reader;
use cil_base::{Abi, NamePool};
use cil_check::check;
use cil_declarators::{Numbering, Stop};
use cil_layout::bad_place;
use cil_printer::{PrintStop, print};
use cil_scan::{Word, lines_of};
use cil_tree::{CilUnit, GlobalDecl};
use std::alloc::Global;
use thiserror::Error;
use type_graph::TypeGraph;

/// The depth to which what is read may nest, and the most parts that one may have: more than any text can.
const DEPTH: u32 = u32::MAX;

/// Why bytes are not read.
#[derive(Clone, Copy, Debug, PartialEq, Eq, Error)]
pub enum ReadStop {
    /// They are no text of a program. The place is that of the first line that is not laid out as a text has its
    /// lines, or the end (own).
    #[error("not CIL at byte {0}")]
    NotCil(usize),
    /// Want of memory.
    #[error("want of memory")]
    Memory,
}

/// Nothing is known yet.
fn nothing_known(alloc: Global) -> Known
    ensures tags { result.tags ≡ [] }
    ensures members { result.members.items ≡ [] }
    ensures globals { result.globals.types.items ≡ [] }
    ensures locals { result.locals.types.items ≡ [] }
{
    Known {
        tags: Numbering::new(alloc),
        members: Vec::new(alloc),
        globals: Names::new(alloc),
        locals: Names::new(alloc),
    }
}

/// The globals that are declared so, with the objects and the bodies that lines define; no other line stands there.
#[tactic(auto, using(crate::proofs::GlobalLaws::declared_later, crate::proofs::ProgramLaws::defined_fails, crate::proofs::OnwardLaws::onward_grows))]
fn define_globals(
    r: &mut Reader,
    pool: &mut NamePool,
    left: u32,
    declarations: &[Declaration],
    lines: &[Vec<Word>],
) -> Result<Vec<GlobalDecl>, Stop>
    requires { EachDeclared (length r.old.graph.nodes) declarations.now }
    ensures gives { Gives (λ xs. globals_of r.new.graph.nodes pool.new xs.items) result (defined_read (env_in r.old) left (declarations_of r.old.graph.nodes declarations.now) (all_lines lines.now)) }
    ensures on { OnwardOutside r.old r.new pool.old pool.new }
    ensures adds { IfOk result (λ xs. AddsParts r.old.graph r.new.graph (defined_types (globals_of r.new.graph.nodes pool.new xs.items))) }
{
    let (mut globals, rest) = read_objects(r, pool, left, declarations, lines)?;
    let rest = read_bodies(r, pool, left, declarations, &mut globals, rest)?;
    if !rest.is_empty() {
        return Err(Stop::NotCil);
    }
    Ok(globals)
}

/// The globals of a program, to the end of its text.
#[tactic(auto, using(crate::proofs::GlobalLaws::declared_later, crate::proofs::ProgramLaws::globals_give, crate::proofs::ProgramLaws::globals_fail, crate::proofs::PoolLaws::pool_same, crate::proofs::OnwardLaws::onward_env, crate::proofs::OutsideLaws::extends_by))]
fn read_globals(
    r: &mut Reader,
    pool: &mut NamePool,
    left: u32,
    lines: &[Vec<Word>],
) -> Result<Vec<GlobalDecl>, Stop>
    ensures gives { Gives (λ xs. globals_of r.new.graph.nodes pool.new xs.items) result (globals_read (env_in r.old) left (all_lines lines.now)) }
    ensures graph { Extends r.old.graph r.new.graph }
    ensures pool { KeepsNames pool.old pool.new }
    ensures adds { IfOk result (λ xs. AddsParts r.old.graph r.new.graph (declared_types (globals_of r.new.graph.nodes pool.new xs.items) ++ defined_types (globals_of r.new.graph.nodes pool.new xs.items))) }
{
    let (declarations, rest) = read_declarations(r, left, lines)?;
    let names = names_of(r, &declarations)?;
    r.set_globals(names);
    define_globals(r, pool, left, &declarations, rest)
}

/// The tree that the lines of a text say, whether or not it is a program's and the text is its own.
#[tactic(auto, using(crate::proofs::MemberLaws::new_known, crate::proofs::ProgramLaws::blank, crate::proofs::PoolLaws::pool_same, crate::proofs::PoolLaws::pool_twice))]
fn read_tree(alloc: Global, bytes: &[u8], pool: &mut NamePool, abi: Abi) -> Result<CilUnit, Stop>
    ensures gives { Gives (λ u. (aggregates_in u.graph pool.new, globals_of u.graph.nodes pool.new u.globals.items)) result (read_text abi 4294967295 bytes.now) }
    ensures model { IfOk result (λ u. u.graph.abi ≡ abi) }
    ensures needed { IfOk result (λ u. HasNeeded (program_of pool.new u)) }
    ensures unqualified { IfOk result (λ u. list_all members_are_unqualified u.graph.aggs ≡ true) }
    ensures arena { IfOk result (λ u. IsArena u.graph) }
    ensures pool { KeepsNames pool.old pool.new }
{
    let lines = lines_of(alloc, bytes)?;
    let mut r = Reader::new(TypeGraph::new_for(alloc, abi), nothing_known(alloc));
    let rest = read_aggregates(&mut r, pool, DEPTH, &lines)?;
    let globals = read_globals(&mut r, pool, DEPTH, rest)?;
    let graph = r.into_graph();
    // What is known of an arena is known where it is read.
    let _types = graph.len();
    Ok(CilUnit { graph, globals })
}

/// Whether bytes are the text of a tree, which is a program's.
#[tactic(auto, using(crate::proofs::RefusalLaws::no_program, crate::proofs::RefusalLaws::other_text, crate::proofs::RefusalLaws::too_long))]
fn is_text(unit: &CilUnit, names: &NamePool, bytes: &[u8]) -> Result<bool, Stop>
    ensures text { IfOk result (λ b. b ≡ true → IsTextOf bytes.now (program_of names.now unit.now)) }
    ensures other { IfOk result (λ b. b ≡ false → IsTextOf bytes.now (program_of names.now unit.now) → ⊥) }
    ensures memory { IfErr result (λ e. e ≡ WantOfMemory) }
{
    if !check(unit, names)? {
        return Ok(false);
    }
    match print(unit, names) {
        Ok(text) => Ok(text.as_slice() == bytes),
        Err(PrintStop::TooLong) => Ok(false),
        Err(PrintStop::Memory) => Err(Stop::WantOfMemory),
    }
}

/// The program of a data model whose text bytes are.
fn read_text(alloc: Global, bytes: &[u8], pool: &mut NamePool, abi: Abi) -> Result<CilUnit, Stop>
    ensures text { IfOk result (λ u. IsTextOf bytes.now (program_of pool.new u)) }
    ensures model { IfOk result (λ u. u.graph.abi ≡ abi) }
    ensures refused { Refuses abi bytes.now result }
    ensures pool { KeepsNames pool.old pool.new }
{
    let unit = read_tree(alloc, bytes, pool, abi)?;
    if !is_text(&unit, pool, bytes)? {
        return Err(Stop::NotCil);
    }
    Ok(unit)
}

/// Reads a CIL text: the program of a data model whose text these bytes are, with the texts of the pool's names (own).
/// The words `long` and `unsigned long`, and the suffixes `L` and `UL`, are those of the model's kinds.
///
/// NotCil comes exactly for bytes that are the text of no well-formed program of the model, where memory suffices; it
/// names the place of the first line that is not laid out as a text has its lines, or the end. Memory comes only for
/// want of memory. The pool gets the names that stand in the text; those that it had keep their numbers, whatever is
/// answered.
pub fn read(alloc: Global, bytes: &[u8], pool: &mut NamePool, abi: Abi) -> Result<CilUnit, ReadStop>
    ensures text { IfOk result (λ u. IsTextOf bytes.now (program_of pool.new u)) }
    ensures model { IfOk result (λ u. u.graph.abi ≡ abi) }
    ensures place { StopsAt abi bytes.now result }
    ensures pool { KeepsNames pool.old pool.new }
{
    match read_text(alloc, bytes, pool, abi) {
        Ok(unit) => Ok(unit),
        Err(Stop::NotCil) => Err(ReadStop::NotCil(bad_place(bytes))),
        Err(Stop::WantOfMemory) => Err(ReadStop::Memory),
    }
}
