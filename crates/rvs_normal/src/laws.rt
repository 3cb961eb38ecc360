// Laws of texts and groups.
ghost use Rattle.std.specs.Prelude.{◌≡◌, ◌≤◌, ℕ, List, [], ◌∷◌, length, true, Ok};
ghost use Rattle.rvs_insn.specs.Isa.{Isa};
ghost use Rattle.rvs_tree.specs.Data.{Data};
ghost use Rattle.rvs_yaml.specs.Parsed.{answer};
ghost use Rattle.rvs_abstract.specs.declared.families.Families.{Families};
ghost use Rattle.rvs_cgf.specs.Groups.{Label, groups_of};
ghost use Rattle.rvs_cgf.specs.Print.{normal_text};
ghost use Rattle.rvs_cgf.specs.Spelled.{are_admitted};
ghost use Rattle.rvs_normal.specs.Once.{KeysOnce};
ghost use Rattle.rvs_normal.specs.Again.{KeepsLimit, IsReadAgain};
ghost use Rattle.rvs_normal.specs.Example.{example, example_text, IsReadAs};

/// Each map of an accepted text has each of its keys once, whatever it merges.
pub fn keys_stand_once()
    ensures { (bytes : List ℕ) (tree : Data) → answer bytes ≡ Ok tree → KeysOnce tree }
{}

/// The normal text of groups that were read from a text is accepted again, where it keeps the limit
/// on nodes, and gives the selected labels with the same mnemonics and points, and nothing skipped:
/// for their own core, and for every other that admits their mnemonics, with whichever families
/// either text is read. A text of at most 4 MiB, as every file of groups has, keeps the limit.
pub fn normal_text_is_read_again()
    ensures again { (isa other : Isa) (families : Families) (bytes : List ℕ) (tree : Data)
        (groups : List Label)
        → answer bytes ≡ Ok tree → groups_of isa families tree ≡ Ok groups
        → KeepsLimit (normal_text groups) → are_admitted other groups ≡ true
        → IsReadAgain other groups }
    ensures short { (isa : Isa) (families : Families) (bytes : List ℕ) (tree : Data)
        (groups : List Label)
        → answer bytes ≡ Ok tree → groups_of isa families tree ≡ Ok groups
        → length (normal_text groups) ≤ 4194304 → KeepsLimit (normal_text groups) }
    ensures own_core { (isa : Isa) (families : Families) (bytes : List ℕ) (tree : Data)
        (groups : List Label)
        → answer bytes ≡ Ok tree → groups_of isa families tree ≡ Ok groups
        → are_admitted isa groups ≡ true }
{}

/// The normal text of one label, and that this text is accepted, with a tree that is read as that
/// label for every core and whichever families are read.
pub fn an_example_is_read_again()
    ensures text { normal_text (example ∷ []) ≡ example_text }
    ensures again { (isa : Isa) → IsReadAs isa example_text example }
{}
