use crate::program::Program;
use cil_base::NameId;
use cil_tree::Local;

/// A function whose statements are printed: its program, its locals and the names of its labels.
#[derive(Clone, Copy)]
pub(crate) struct Function<'a> {
    pub program: &'a Program<'a>,
    pub locals: &'a [Local],
    pub labels: &'a [NameId],
}
