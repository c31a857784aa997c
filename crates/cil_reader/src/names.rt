ghost use Rattle.std.specs.Prelude.{◌≡◌, [], ◌∷◌, ◌++◌, length, IfOk};
ghost use Rattle.cil_declarators.specs.Gives.{Gives};
ghost use Rattle.cil_declarators.specs.Fresh.{with_new};

use cil_base::TypeId;
use cil_declarators::{Numbering, Stop};
use std::alloc::Global;

/// Different names in order, each with its type.
#[derive(Drop)]
pub(crate) struct Names {
    pub numbering: Numbering,
    pub types: Vec<TypeId>,
    ghost paired: { length numbering ≡ length types.items },
}

/// What is known while a function is read: the tags of aggregates and the members of structs and unions by their
/// numbers, globals and locals.
#[derive(Drop)]
pub(crate) struct Known {
    pub tags: Numbering,
    pub members: Vec<Names>,
    pub globals: Names,
    pub locals: Names,
}

impl Names {
    ghost use Rattle.cil_reader.specs.Settings.{FoundIn};

    /// No names.
    pub(crate) fn new(alloc: Global) -> Self
        ensures numbering { result.numbering ≡ [] }
        ensures types { result.types.items ≡ [] }
    {
        Names {
            numbering: Numbering::new(alloc),
            types: Vec::new(alloc),
        }
    }

    /// The number and the type of a name.
    #[tactic(auto, using(crate::proofs::SettingsLaws::found_in, crate::proofs::SettingsLaws::found_none))]
    pub(crate) fn find(&self, name: &[u8]) -> Option<(u32, TypeId)>
        ensures { FoundIn name.now self.now result }
    {
        let number = self.numbering.find(name)?;
        Some((number, self.types[number as usize]))
    }

    /// These names and one more.
    pub(crate) fn with(self, name: &[u8], ty: TypeId) -> Result<Names, Stop>
        ensures gives { Gives (λ x. x.numbering) result (with_new self.numbering name.now) }
        ensures numbering { IfOk result (λ x. x.numbering ≡ self.numbering ++ name.now ∷ []) }
        ensures types { IfOk result (λ x. x.types.items ≡ self.types.items ++ ty ∷ []) }
    {
        let Names {
            mut numbering,
            mut types,
        } = self;
        numbering.add(name)?;
        types.push(ty)?;
        Ok(Names { numbering, types })
    }
}
