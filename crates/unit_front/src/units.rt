ghost use Rattle.std.specs.Prelude.{◌≡◌, ◌<◌, length, IfOk};
ghost use Rattle.c_lexer.specs.Lexed.{IfRefused};
ghost use Rattle.cast_insert.specs.Refusals.{IfRefusal, IsCheckedRefusal};
ghost use Rattle.cil_base.specs.NamePool.{Stays};
ghost use Rattle.unit_front.specs.Identifiers.{AreDeclared, DeclaresIn};
ghost use Rattle.unit_front.specs.Refusals.{AreGrammatical, IsGrammatical, IsTokensRefusal, IsFrontRefusal, IsInUnit, too_large as refusal_of_size};
ghost use Rattle.unit_lower.specs.Externals.{HasExternals};

use crate::identifiers::are_declared;
use c_lexer::{Tokens, lex};
use c_parser::parse;
use c_tree::Unit;
use cast_insert::check_unit;
use cil_base::{Abi, Fault, NameId, NamePool, Place, Refusal, Stop, UNIT_BYTES, UnitNo, What};
use link_names::Fronted;
use std::alloc::Global;
use unit_lower::lower_unit;

/// The CIL program that a translation unit becomes under a data model, with what linking it with others asks for. The unit has that
/// number and file.
///
/// It is refused for a limit on its bytes, then as `lex`, `parse` and `check_unit` say; a unit that becomes a program is grammatical (C11
/// 6.9). `Memory` comes where memory is wanting, and where an external name stands at no identifier, which ought never to be.
#[tactic(auto, using(crate::proofs::Causes::large, crate::proofs::Places::of_tokens, crate::proofs::Files::grows_stays, cil_base::proofs::PoolLemmas::stays_then))]
pub fn front(
    alloc: Global,
    bytes: &[u8],
    unit: UnitNo,
    file: NameId,
    names: &mut NamePool,
    abi: Abi,
) -> Result<Fronted, Stop>
    requires named { file.0 < length names.old }
    ensures grammatical { IfOk result (λ _. IsGrammatical (record { bytes = bytes.now; unit = unit; file = file; names = names.old })) }
    ensures refused { IfRefused result (IsFrontRefusal (record { bytes = bytes.now; unit = unit; file = file; names = names.old }) names.new) }
    ensures stands { IfRefused result (IsInUnit unit) }
    ensures externals { IfOk result HasExternals }
    ensures declared { IfOk result (DeclaresIn (record { bytes = bytes.now; unit = unit; file = file; names = names.old }) names.new) }
    ensures stays { Stays names.old names.new }
{
    if bytes.len() > UNIT_BYTES {
        return Err(too_large(unit, file));
    }
    let tokens = lex(alloc, bytes, unit, file, names)?;
    tokens_front(alloc, &tokens, names, abi)
}

/// The CIL program that a translation unit of these tokens becomes.
#[tactic(auto, using(crate::proofs::Causes::of_grammar, crate::proofs::Causes::of_check, crate::proofs::Places::of_grammar, crate::proofs::Places::of_check))]
fn tokens_front(
    alloc: Global,
    tokens: &Tokens<'_>,
    names: &mut NamePool,
    abi: Abi,
) -> Result<Fronted, Stop>
    ensures grammatical { IfOk result (λ _. AreGrammatical tokens.now) }
    ensures refused { IfRefused result (IsTokensRefusal tokens.now) }
    ensures stands { IfRefused result (IsInUnit tokens.now.unit) }
    ensures externals { IfOk result HasExternals }
    ensures declared { IfOk result (AreDeclared tokens.now) }
    ensures stays { Stays names.old names.new }
{
    let tree = parse(alloc, tokens)?;
    parsed_front(alloc, &tree, tokens, names, abi)
}

/// The CIL program that a translation unit of these tokens becomes, with what linking it with others asks for; it is refused as
/// `check_unit` says. Each external name is declared at an identifier of the unit.
#[tactic(auto, using(cil_base::proofs::PoolLemmas::stays_then))]
pub fn parsed_front(
    alloc: Global,
    tree: &Unit,
    tokens: &Tokens<'_>,
    names: &mut NamePool,
    abi: Abi,
) -> Result<Fronted, Stop>
    ensures refused { IfRefused result (IsCheckedRefusal tokens.now) }
    ensures externals { IfOk result HasExternals }
    ensures declared { IfOk result (AreDeclared tokens.now) }
    ensures stays { Stays names.old names.new }
{
    let typed = check_unit(alloc, tree, tokens, names, abi)?;
    let bases = names.bases()?;
    let fronted = lower_unit(alloc, &typed, bases)?;
    if !are_declared(tokens, &fronted) {
        return Err(impossible());
    }
    Ok(fronted)
}

/// The refusal of a unit that has too many bytes.
fn too_large(unit: UnitNo, file: NameId) -> Stop
    ensures size { IfRefusal result (λ refusal. refusal ≡ refusal_of_size unit file) }
    ensures stands { IfRefusal result (IsInUnit unit) }
{
    Stop::Refused(Refusal {
        fault: Fault::Limit(What::UnitBytes),
        at: Place {
            unit,
            token: 0,
            file,
            line: 1,
        },
        other: None,
    })
}

/// What a branch answers that never comes.
fn impossible() -> Stop
    ensures { IfRefusal result (λ refusal. ⊥) }
{
    Stop::Memory
}
