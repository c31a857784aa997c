ghost use Rattle.std.specs.Prelude.{◌≡◌, ℕ, ◌*◌, ◌≤◌, true, List, Some, length, map};
ghost use Rattle.std.specs.List.{list_all};
ghost use Rattle.type_graph.specs.Arena.{IsArena};
ghost use Rattle.cil_tree.specs.declared.globals.CilUnit.{CilUnit};
ghost use Rattle.cil_tree.specs.Tree.{Program};
ghost use Rattle.cil_tree.specs.View.{program_of};
ghost use Rattle.cil_tree.specs.Text.{Text};
ghost use Rattle.cil_tree.specs.WellFormedTypes.{members_are_unqualified};
ghost use Rattle.cil_tree.specs.Programs.{IsProgram, IsTextOf, seen_aggregate, SameProgram};
ghost use Rattle.cil_text.specs.Occurs.{Occurs};
ghost use Rattle.cil_text.specs.ReadText.{read_text};
ghost use Rattle.cil_text.specs.TypesOf.{HasNeeded};

/// A law, which does nothing when it is called: no bytes are the text of two programs of one data model (own), so a text
/// names one program of it, up to the numbers that its types and names have.
pub fn one_text()
    ensures { (bytes : List ℕ) → (p q : Program) → IsTextOf bytes p → IsTextOf bytes q → p.graph.abi ≡ q.graph.abi → SameProgram p q }
{}

/// A law, which does nothing when it is called: equal programs have one text (own).
pub fn equal_programs_have_one_text()
    ensures { (p q : Program) → SameProgram p q → Text p ≡ Text q }
{}

/// A law, which does nothing when it is called: the executable reading, with as much fuel as twice the bytes of the
/// text, gives the aggregates and the globals of each well-formed program from its text (own).
pub fn text_is_read()
    ensures { (p : Program) (n : ℕ) → IsProgram p → 2 * length (Text p) ≤ n → read_text p.graph.abi n (Text p) ≡ Some (map (seen_aggregate p) p.graph.aggs, p.globals) }
{}

/// A law, which does nothing when it is called: what equals a well-formed program and has no other types and no
/// qualified members is well-formed, whatever numbers its types and names have (own).
pub fn equal_programs_are_well_formed()
    ensures { (p q : Program) (u : CilUnit) → IsProgram p → SameProgram p q → Occurs p q → IsArena q.graph → program_of q.names u ≡ q → IsProgram q }
{}

/// A law, which does nothing when it is called: what equals a well-formed program, and has no types but those that
/// occur in it and their parts, has no other types than that program (own).
pub fn needed_types_occur()
    ensures { (p q : Program) → IsProgram p → SameProgram p q → HasNeeded q → list_all members_are_unqualified q.graph.aggs ≡ true → Occurs p q }
{}

/// A law, which does nothing when it is called: where bytes are a program's text, the tree that is read from them in its
/// data model is a program with that text, if it has no types but those that occur in it and their parts (own).
pub fn what_is_read_has_the_text()
    ensures { (bytes : List ℕ) (p q : Program) (u : CilUnit) (n : ℕ) → IsTextOf bytes p → 2 * length bytes ≤ n → p.graph.abi ≡ q.graph.abi → read_text p.graph.abi n bytes ≡ Some (map (seen_aggregate q) q.graph.aggs, q.globals) → HasNeeded q → list_all members_are_unqualified q.graph.aggs ≡ true → IsArena q.graph → program_of q.names u ≡ q → IsTextOf bytes q }
{}
