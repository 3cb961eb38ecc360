// Where a check looks.
ghost use Rattle.std.specs.Prelude.{◌≡◌};
ghost use Rattle.rvs_cgf.specs.Groups as spec;
ghost use Rattle.rvs_cgf.specs.PlaceView.{place_view};

/// Where a check looks: the label, the node and the key, each empty where it looks at none.
#[derive(Clone, Copy)]
pub struct At<'a> {
    /// The label.
    pub label: &'a str,
    /// The node.
    pub node: &'a str,
    /// The key.
    pub key: &'a str,
}

/// At a label.
pub fn at_label(label: &str) -> At<'_>
    ensures { place_view result ≡ spec.at_label label.now }
{
    At {
        label,
        node: "",
        key: "",
    }
}

/// At a node of a label.
pub fn at_node<'a>(label: &'a str, node: &'a str) -> At<'a>
    ensures { place_view result ≡ spec.at_node label.now node.now }
{
    At {
        label,
        node,
        key: "",
    }
}

/// At a key of a node.
pub fn at_key<'a>(place: At<'a>, key: &'a str) -> At<'a>
    ensures { place_view result ≡ spec.at_key (place_view place.entry) key.now }
{
    At {
        label: place.label,
        node: place.node,
        key,
    }
}
