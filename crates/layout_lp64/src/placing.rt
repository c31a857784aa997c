ghost use Rattle.std.specs.Prelude.{◌≡◌, ◌<◌, IfOk};
ghost use Rattle.type_graph.specs.Layouts.{nothing_placed};
ghost use Rattle.type_graph.specs.declared.layout.Layout.{Layout};
ghost use Rattle.layout_lp64.specs.Capped.{capped_step, capped_finished};
ghost use Rattle.layout_lp64.specs.Placements.{placed_of, seen};

use crate::arithmetic::{capped, rounded_up};
use cil_base::Memory;
use std::alloc::Global;
use type_graph::Layout;

/// The layout of an aggregate, and the offsets of its members in order.
#[derive(Drop)]
pub struct AggregateLayout {
    pub(crate) whole: Layout,
    pub(crate) offsets: Vec<u32>,
}

/// Members that were placed: where they end, the greatest alignment, and the offsets.
#[derive(Drop)]
pub(crate) struct Placing {
    end: u32,
    align: u32,
    offsets: Vec<u32>,
}

impl Placing {
    /// No members.
    pub(crate) fn new(alloc: Global) -> Self
        ensures none { placed_of result ≡ nothing_placed }
        ensures aligned { 0 < result.align }
    {
        Placing {
            end: 0,
            align: 1,
            offsets: Vec::new(alloc),
        }
    }

    /// Places a member: over the others in a union (C11 6.7.2.1p16), else behind them (6.7.2.1p15).
    pub(crate) fn place(&mut self, over: bool, l: Layout) -> Result<(), Memory>
        requires { 0 < l.align }
        ensures placed { IfOk result (λ _. placed_of self.new ≡ capped_step over (placed_of self.old) l) }
        ensures aligned { IfOk result (λ _. 0 < self.new.align) }
    {
        let at = if over {
            0
        } else {
            rounded_up(self.end, l.align)
        };
        self.offsets.push(at)?;
        self.end = if over {
            self.end.max(l.size)
        } else {
            capped(at as u64 + l.size as u64)
        };
        self.align = self.align.max(l.align);
        Ok(())
    }

    /// The layout of an aggregate with these members (6.7.2.1p17).
    pub(crate) fn finish(self) -> AggregateLayout
        requires { 0 < self.align }
        ensures { seen result ≡ capped_finished (placed_of self) }
    {
        AggregateLayout {
            whole: Layout {
                size: rounded_up(self.end, self.align),
                align: self.align,
            },
            offsets: self.offsets,
        }
    }
}
