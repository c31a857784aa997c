ghost use Rattle.std.specs.Prelude.{◌≡◌, false, [], IfOk, OnOk};
ghost use Rattle.type_graph.specs.Shapes.{shape};
ghost use Rattle.init_expand.specs.Images.{is_zero, HasNoZero, AreScalars};
ghost use Rattle.init_expand.specs.Spots.{RisesTo};

use crate::spots::scalar_at;
use cil_base::{Constant, Memory, TypeId};
use cil_tree::ImageItem;
use std::alloc::Global;
use unit_types::Types;

/// What a branch answers that never comes.
pub(crate) fn impossible() -> Memory {
    Memory
}

/// Whether a value is zero, or a null pointer.
pub(crate) fn is_zero(value: Constant) -> bool
    ensures { result ≡ is_zero value }
{
    match value {
        Constant::Int(_, n) => n == 0,
        Constant::Address(..) | Constant::Function(_) => false,
    }
}

/// An image that grows: scalars that are not zero, at rising offsets, and the least offset at which the next one may stand.
#[derive(Drop)]
pub(crate) struct Growing {
    pub(crate) items: Vec<ImageItem>,
    least: u64,
}

impl Growing {
    /// No scalars, with room for so many.
    pub(crate) fn with_room(alloc: Global, count: usize) -> Result<Self, Memory>
        ensures items { IfOk result (λ image. image.items.items ≡ []) }
        ensures least { IfOk result (λ image. image.least ≡ 0) }
    {
        Ok(Growing {
            items: Vec::with_capacity(alloc, count)?,
            least: 0,
        })
    }

    /// Whether a part that begins at an offset stands behind all scalars.
    pub(crate) fn ends_before(&self, offset: u64) -> bool {
        self.least <= offset
    }

    /// Adds a scalar of an object of a type that is not zero, and answers whether it stands behind all others; one that does not is left out.
    #[tactic(auto, using(crate::proofs::ImageLaws::none_pushed))]
    pub(crate) fn add(&mut self, types: &Types, ty: TypeId, item: ImageItem) -> Result<bool, Memory>
        requires { is_zero item.value ≡ false }
        ensures none { OnOk result (HasNoZero self.old.items.items → HasNoZero self.new.items.items) }
        ensures rises { OnOk result (RisesTo types.now (shape types.now.nodes ty.0) 0 self.old.items.items self.old.least → RisesTo types.now (shape types.now.nodes ty.0) 0 self.new.items.items self.new.least) }
        ensures scalars { OnOk result (AreScalars types.now (shape types.now.nodes ty.0) self.old.items.items → AreScalars types.now (shape types.now.nodes ty.0) self.new.items.items) }
    {
        let Some(at) = scalar_at(types, ty, &item.path) else {
            return Err(impossible());
        };
        if at.offset < self.least {
            return Ok(false);
        }
        let Some(least) = at.offset.checked_add(1) else {
            return Err(impossible());
        };
        self.items.push(item)?;
        self.least = least;
        Ok(true)
    }
}
