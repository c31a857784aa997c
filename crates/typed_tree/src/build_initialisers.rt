ghost use Rattle.std.specs.Prelude.{◌≡◌, List};
ghost use Rattle.type_graph.specs.declared.nodes.Node.{Node};
ghost use Rattle.typed_tree.specs.Built.{IsInitStep};
ghost use Rattle.typed_tree.specs.Top.{top_of, top_init, top_inits};
ghost use Rattle.typed_tree.specs.Tree as tree;
ghost use Rattle.typed_tree.specs.View.{typed_of, typed_init_of, inits_of};

use crate::expressions::TypedExp;
use crate::initialisers::{InitStep, Path, TypedInit};
use cil_base::{Bytes, Constant};

/// Each byte of a part becomes zero.
pub fn zeroed_part(path: Path) -> InitStep
    ensures { IsInitStep (λ nodes. tree.Zero path.items) 0 result }
{
    InitStep::Zero(path)
}

/// A scalar is given a value of its type.
pub fn scalar_part(path: Path, value: TypedExp) -> InitStep
    ensures { IsInitStep (λ nodes. tree.Scalar path.items (typed_of nodes value)) (top_of value) result }
{
    InitStep::Scalar(path, value)
}

/// A scalar of an object with static storage duration is given a constant (C11 6.7.9p4).
pub fn constant_part(path: Path, value: Constant) -> InitStep
    ensures { IsInitStep (λ nodes. tree.Constant' path.items value) 0 result }
{
    InitStep::Constant(path, value)
}

/// A struct or union is given a value of its type (C11 6.7.9p13).
pub fn aggregate_part(path: Path, value: TypedExp) -> InitStep
    ensures { IsInitStep (λ nodes. tree.Aggregate path.items (typed_of nodes value)) (top_of value) result }
{
    InitStep::Aggregate(path, value)
}

/// The first elements of an array of characters are given the bytes of a string (C11 6.7.9p14).
pub fn string_part(path: Path, bytes: Bytes) -> InitStep
    ensures { IsInitStep (λ nodes. tree.Bytes path.items bytes) 0 result }
{
    InitStep::Bytes(path, bytes)
}

/// An initialiser, of its steps in the order of the text.
pub fn initialiser(steps: Vec<InitStep>) -> TypedInit
    ensures made { (nodes : List Node) → typed_init_of nodes result ≡ inits_of nodes steps.items }
    ensures greatest { top_init result ≡ top_inits steps.items }
{
    TypedInit { steps }
}
