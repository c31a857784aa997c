ghost use Rattle.std.specs.Prelude.{◌≡◌, ◌<◌, OnOk, length};
ghost use Rattle.type_graph.specs.Shapes.{shape};
ghost use Rattle.type_graph.specs.Arena.{IsArena};
ghost use Rattle.cil_tree.specs.Typing.{same_shape};
ghost use Rattle.cil_text.specs.ReadExps.{bases};
ghost use Rattle.cil_scan.specs.Said.{all_said};
ghost use Rattle.cil_declarators.specs.Gives.{Gives};
ghost use Rattle.cil_reader.specs.Settings.{Onward, env_in};
ghost use Rattle.cil_reader.specs.Typed.{typed};

use crate::reader::Reader;
use cil_base::TypeId;
use cil_declarators::Stop;
use cil_scan::Word;
use type_graph::TypeGraph;

/// Whether two types are one.
pub(crate) fn is_same(g: &TypeGraph, a: TypeId, b: TypeId) -> bool
    requires left { a.0 < length g.now.nodes }
    requires right { b.0 < length g.now.nodes }
    ensures is { result ≡ same_shape (shape g.now.nodes a.0) (shape g.now.nodes b.0) }
    ensures arena { IsArena g.now }
{
    // What is known of an arena is known where it is read.
    let _types = g.len();
    g.is_same(a, b)
}

/// What stands behind a declarator, or a type's name, that gives a type which is known: it adds no other.
#[tactic(auto, using(crate::proofs::SameLaws::typed_gives, crate::proofs::SameLaws::typed_fails, crate::proofs::SameLaws::same_type, crate::proofs::OnwardLaws::onward_grows))]
pub(crate) fn read_typed<'w, 'a>(
    r: &mut Reader,
    left: u32,
    ty: TypeId,
    words: &'w [Word<'a>],
) -> Result<&'w [Word<'a>], Stop>
    requires { ty.0 < length r.old.graph.nodes }
    ensures gives { Gives (λ x. all_said x.now) result (typed (bases (env_in r.old)) left (shape r.old.graph.nodes ty.0) (all_said words.now)) }
    ensures same { OnOk result (r.new.graph.nodes ≡ r.old.graph.nodes) }
    ensures on { Onward r.old r.new }
{
    let (named, rest) = r.read_decl(left, words)?;
    if r.is_same(named.ty, ty) {
        return Ok(rest);
    }
    Err(Stop::NotCil)
}
