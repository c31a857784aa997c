ghost use Rattle.std.specs.Prelude.{◌≡◌, ℕ, ℤ, true, false, int_lt, IfOk};
ghost use Rattle.std.specs.Ordering.{int_cmp};
ghost use Rattle.std.specs.List.Sorted.{IsPartitionPoint, IsSortedByKey};
ghost use Rattle.cil_control.specs.Flat.{place_for};
ghost use Rattle.cil_control.specs.Leading.{table_leads};

use cil_base::Memory;
use std::marker::Model;

/// The cases of a switch with the places that they lead to, in rising order of their values (C11 6.8.4.2).
#[derive(Drop)]
pub struct Cases {
    table: Vec<(i128, usize)>,
}

impl Model for Cases {
    ghost use Rattle.std.specs.Prelude.{ℕ, ℤ, List};
    ghost use Rattle.std.specs.Ordering.{int_cmp};
    ghost use Rattle.std.specs.List.Sorted.{IsSortedByKey};

    ghost Value = { List (ℤ × ℕ) };

    ghost view = { λ c. c.table.items };

    ghost invariant = { λ c. IsSortedByKey (λ x. x.0) int_cmp c.table.items };
}

impl Cases {
    /// The cases of a table, of which the first with a value counts. Memory comes only for want of memory.
    pub fn new(mut table: Vec<(i128, usize)>) -> Result<Self, Memory>
        ensures same { IfOk result (λ cases. (v : ℤ) (other : ℕ) → place_for v cases other ≡ place_for v table.items other) }
        ensures leads { IfOk result (λ cases. (n p : ℕ) → table_leads n p table.items ≡ true → table_leads n p cases ≡ true) }
    {
        table.sort_by_key(|case| case.0)?;
        Ok(Cases { table })
    }

    /// The place of a value, else the other one.
    pub fn place_for(&self, v: i128, other: usize) -> usize
        ensures { result ≡ place_for v self.now other }
    {
        place_in(&self.table, v, other)
    }
}

/// The place of a value in a sorted table, else the other one.
fn place_in(table: &[(i128, usize)], v: i128, other: usize) -> usize
    requires { IsSortedByKey (λ x. x.0) int_cmp table.now }
    ensures { result ≡ place_for v table.now other }
{
    match table.get(position(table, v)) {
        Some(case) => { if case.0 == v { case.1 } else { other } }
        None => other,
    }
}

/// The number of cases of lower values in a sorted table.
fn position(table: &[(i128, usize)], v: i128) -> usize
    requires { IsSortedByKey (λ x. x.0) int_cmp table.now }
    ensures { IsPartitionPoint (λ x. int_lt x.0 v ≡ true) (λ x. int_lt x.0 v ≡ false) table.now result }
{
    table.partition_point(|case| case.0 < v)
}
