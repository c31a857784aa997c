ghost use Rattle.std.specs.Prelude.{◌≡◌};
ghost use Rattle.unit_types.specs.Normal.{joined};

use type_graph::Quals;

/// Both qualifiers, each once (C11 6.7.3p5).
pub fn joined(p: Quals, q: Quals) -> Quals
    ensures { result ≡ joined p q }
{
    Quals {
        constant: p.constant || q.constant,
        restricted: p.restricted || q.restricted,
    }
}
