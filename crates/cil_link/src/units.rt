use crate::entities::Entities;
use cil_base::NamePool;
use cil_tree::CilUnit;

/// The programs of a run, which are linked. Their names are those of one pool.
#[derive(Clone, Copy)]
pub struct Units<'a> {
    pub units: &'a [CilUnit],
    pub names: &'a NamePool,
    pub entities: &'a Entities,
}
