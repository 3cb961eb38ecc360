// The blocks that aren't complete, with the anchors that are.
ghost use Rattle.std.specs.Prelude.{length};
ghost use Rattle.rvs_yaml.specs.Rising.{Rises, Rises-prop, befores};

use crate::anchor_list::AnchorList;
use crate::open::Open;

/// The blocks that aren't complete, the innermost last, and the anchors of all nodes that are
/// complete. No block began with fewer anchors than the one around it.
#[derive(Drop)]
pub(crate) struct OpenBlocks<'a> {
    pub blocks: Vec<Open<'a>>,
    pub anchors: AnchorList<'a>,
    ghost rising: { Rises (length anchors.anchors.items)
        (befores blocks.items) } by { Rises-prop (length anchors.anchors.items)
            (befores blocks.items) },
}
