// Why what comes next in a flow collection is refused.
ghost use Rattle.std.specs.Prelude.{◌≡◌, Err};
ghost use Rattle.rvs_yaml.specs.Flow as spec;
ghost use Rattle.rvs_yaml.specs.FlowParts as parts;
ghost use Rattle.rvs_yaml_text.specs.declared.kind.YamlKind.TheVariants.{BadScalar, BadFlow};
ghost use Rattle.rvs_tree.specs.ValueView.{entries_view};
ghost use Rattle.rvs_yaml_text.specs.KeyView.{key_view};
ghost use Rattle.rvs_yaml.specs.FlowView.{place_view};

use crate::reading::FlowState;
use rvs_base::{Fault, release};
use rvs_tree::EntryList;
use rvs_yaml_text::{Key, YamlKind};

/// Whether the key is new among these, or merges.
pub(crate) fn is_new(list: &EntryList, key: &Key) -> bool
    ensures { result ≡ parts.is_new (entries_view list.now.entries.items) (key_view key.now) }
{
    key.merges || !list.has_key(key.name.as_str())
}

/// Why a quoted scalar with a colon and then more text is refused.
pub(crate) fn cut_key_fault(place: &FlowState, key: &Key) -> YamlKind
    ensures { spec.with_cut_key (place_view place.now) (key_view key.now) ≡ Err result }
{
    match place {
        FlowState::KeyPlace(list) => {
            if is_new(list, key) {
                YamlKind::BadFlow
            } else {
                YamlKind::DuplicateKey
            }
        }
        FlowState::Member(_) | FlowState::EntryValue(_) => YamlKind::BadScalar,
        _ => YamlKind::BadFlow,
    }
}

/// Why a plain scalar that ends in a colon is refused, where this byte ends it.
pub(crate) fn colon_scalar_fault(place: &FlowState, byte: u8) -> YamlKind
    ensures { spec.with_colon_scalar (place_view place.now) byte ≡ Err result }
{
    match place {
        FlowState::Member(_) if byte == b',' || byte == b']' => YamlKind::BadScalar,
        FlowState::EntryValue(_) if byte == b',' || byte == b'}' => YamlKind::BadScalar,
        _ => YamlKind::BadFlow,
    }
}

/// The fault of what begins here, which is the scalar's where one could begin.
pub(crate) fn start_fault(place: &FlowState, kind: YamlKind) -> YamlKind
    ensures { spec.with_fault (place_view place.now) kind ≡ Err result }
{
    match place {
        FlowState::BehindMember(_) | FlowState::BehindEntry(_) => YamlKind::BadFlow,
        _ => kind,
    }
}

/// Refuses what comes at this place, which is let go.
pub(crate) fn refused(
    fault: Fault<YamlKind>,
    place: FlowState,
) -> Result<FlowState, Fault<YamlKind>>
    ensures { result ≡ Err fault }
{
    release(place);
    Err(fault)
}
