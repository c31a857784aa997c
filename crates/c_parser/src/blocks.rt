ghost use Rattle.std.specs.Prelude.{◌≡◌, ◌≤◌, length, IfOk, MatchResult};
ghost use Rattle.c_tree.specs.Scoped.{entered};
ghost use Rattle.c_cursor.specs.declared.stops.ParseStop.TheVariants.{Memory as WantOfMemory};
ghost use Rattle.c_exprs.specs.DeclaratorReading.{outer_of};

use c_cursor::ParseStop;
use typedef_scopes::Scopes;

/// Begins a block (C11 6.2.1p4).
#[tactic(auto, using(c_exprs::proofs::ScopeLemmas::entered_outer))]
pub(crate) fn enter_block(s: &mut Scopes) -> Result<(), ParseStop>
    ensures entered { MatchResult result (λ _. s.new ≡ entered s.old) (λ stop. stop ≡ WantOfMemory) }
    ensures outer { IfOk result (λ _. outer_of s.new ≡ s.old) }
    ensures room { IfOk result (λ _. 2 ≤ length s.new) }
{
    s.enter()?;
    Ok(())
}

/// Ends a block, of which nothing is in scope behind it (C11 6.2.1p4).
#[tactic(auto, using(crate::proofs::Kept::left_block))]
pub(crate) fn leave_block(s: &mut Scopes)
    requires { 2 ≤ length s.old }
    ensures { s.new ≡ outer_of s.old }
{
    s.leave();
}
