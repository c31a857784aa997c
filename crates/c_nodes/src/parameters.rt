ghost use Rattle.std.specs.Prelude.{◌≡◌, [], ◌∷◌, ◌++◌, IfOk};
ghost use Rattle.c_tree.specs.Syntax as plain;
ghost use Rattle.c_tree.specs.View.{specifiers_of, declarator_of, parameter_of, parameters_of};
ghost use Rattle.c_tree.specs.Height.{parameters_height};

use crate::declarators::DeclaratorNode;
use crate::specifiers::SpecifierList;
use c_tree::Parameter;
use cil_base::Memory;
use std::alloc::Global;
use std::marker::Model;

/// A parameter's declaration, with its height.
#[derive(Drop)]
pub struct ParameterNode {
    tree: Parameter,
    height: u32,
}

impl Model for ParameterNode {
    ghost use Rattle.std.specs.Prelude.{◌≡◌};
    ghost use Rattle.std.specs.Coded.{codes};
    ghost use Rattle.c_tree.specs.contracts.expression.Parameter as contracts;
    ghost use Rattle.c_tree.specs.declared.expression.Parameter.{Parameter};
    ghost use Rattle.c_tree.specs.View.{parameter_of};
    ghost use Rattle.c_tree.specs.Height.{parameter_height};

    ghost Value = { Parameter };

    ghost coded = { Prim.hlevel (codes, contracts.the_row.coded) };

    ghost view = { λ n. n.tree };

    ghost invariant = { λ n. n.height ≡ parameter_height (parameter_of n.tree) };
}

/// Specifiers and a declarator, as a parameter.
pub fn parameter_of(specifiers: SpecifierList, d: DeclaratorNode) -> ParameterNode
    ensures { parameter_of result ≡ plain.Parameter (specifiers_of specifiers) (declarator_of d) }
{
    let height = specifiers.height.max(d.height);
    ParameterNode {
        tree: Parameter {
            specifiers: specifiers.list,
            declarator: Box::into_inner(d.tree),
        },
        height,
    }
}

/// Parameters, and the height of the highest.
#[derive(Drop)]
pub struct ParameterList {
    pub(crate) list: Vec<Parameter>,
    pub(crate) height: u32,
}

impl Model for ParameterList {
    ghost use Rattle.std.specs.Prelude.{◌≡◌, List};
    ghost use Rattle.std.specs.Coded.{codes};
    ghost use Rattle.c_tree.specs.contracts.expression.Parameter as contracts;
    ghost use Rattle.c_tree.specs.declared.expression.Parameter.{Parameter};
    ghost use Rattle.c_tree.specs.View.{parameters_of};
    ghost use Rattle.c_tree.specs.Height.{parameters_height};

    ghost Value = { List Parameter };

    ghost coded = { Prim.hlevel (codes, contracts.the_row.coded) };

    ghost view = { λ l. l.list.items };

    ghost invariant = { λ l. l.height ≡ parameters_height (parameters_of l.list.items) };
}

impl ParameterList {
    /// None.
    pub fn new(alloc: Global) -> Self
        ensures { result ≡ [] }
    {
        ParameterList {
            list: Vec::new(alloc),
            height: 0,
        }
    }

    /// One more, behind the others.
    #[tactic(auto, using(crate::proofs::Lists::tall_parameters))]
    pub fn push(&mut self, p: ParameterNode) -> Result<(), Memory>
        ensures { IfOk result (λ _. self.new ≡ self.old ++ p ∷ []) }
    {
        let height = self.height.max(p.height);
        self.list.push(p.tree)?;
        self.height = height;
        Ok(())
    }
}
