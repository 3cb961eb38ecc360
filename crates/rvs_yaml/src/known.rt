// The anchors that are known at a place.
ghost use Rattle.std.specs.Prelude.{◌≤◌, ℕ, min};
ghost use Rattle.rvs_yaml.specs.Anchors as spec;
ghost use Rattle.rvs_yaml.specs.Gives.{Gives, FailsWith};
ghost use Rattle.rvs_yaml.specs.Heights.{found_depth};
ghost use Rattle.rvs_yaml.specs.StackView.{all_known, known_view, IsKeptUpTo};
ghost use Rattle.rvs_tree.specs.ValueView.{value_view};

use crate::anchor_list::AnchorList;
use crate::anchoring::find_anchor;
use rvs_base::Fault;
use rvs_tree::{Value, shared_value, thin_value};
use rvs_yaml_text::YamlKind;
use std::alloc::Global;

/// The anchors that are complete. Where `poor` is true, what stands for their values serves.
#[derive(Clone, Copy)]
pub(crate) struct Known<'a, 'b> {
    pub poor: bool,
    pub anchors: &'b AnchorList<'a>,
}

impl Known<'_, '_> {
    /// A bound on the depth of what an alias with this name stands for. From 33 on depths are
    /// counted as 33.
    pub(crate) fn alias_depth(&self, name: &str) -> u64
        ensures bound { min (found_depth (spec.lookup name.now (all_known self.now))) 33 ≤ result }
        ensures kept { (most : ℕ) → IsKeptUpTo most self.now → result ≤ most }
        ensures shallow { result ≤ 33 }
    {
        match find_anchor(name, self.anchors) {
            Some(value) => value.depth,
            None => 0,
        }
    }

    /// What an alias with this name stands for.
    pub(crate) fn alias_value(&self, alloc: Global, name: &str) -> Result<Value, Fault<YamlKind>>
        ensures given { Gives value_view result
            (spec.known_alias (spec.lookup name.now (known_view self.now))) }
        ensures refused { FailsWith result
            (spec.known_alias (spec.lookup name.now (known_view self.now))) }
    {
        let Some(value) = find_anchor(name, self.anchors) else {
            return Err(Fault::Refused(YamlKind::UnknownAlias));
        };
        let made = if self.poor {
            thin_value(alloc, value)
        } else {
            shared_value(value)
        };
        Ok(made?)
    }
}
