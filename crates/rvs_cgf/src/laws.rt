// What holds of trees that spell groups.
ghost use Rattle.std.specs.Prelude.{◌≡◌, List, map, true, Ok};
ghost use Rattle.rvs_insn.specs.Isa.{Isa};
ghost use Rattle.rvs_tree.specs.Data.{Data};
ghost use Rattle.rvs_abstract.specs.declared.families.Families.{Families};
ghost use Rattle.rvs_cgf.specs.Groups.{Label, groups_of};
ghost use Rattle.rvs_cgf.specs.Spelled.{CanBeSpelled, Spells, are_admitted, bare, selected};

/// A tree that spells groups as their normal text does, with a map of keys under each line of a
/// kind, is read, for every core that admits their mnemonics and whichever families are read, as
/// their selected labels with the same mnemonics and points and nothing skipped.
pub fn spelled_groups_are_read()
    ensures { (isa other : Isa) (families : Families) (groups : List Label) (tree : Data)
        → CanBeSpelled isa groups
        → are_admitted other groups ≡ true → Spells groups tree
        → groups_of other families tree ≡ Ok (map bare (selected groups)) }
{}
