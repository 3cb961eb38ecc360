// Which rules groups may break.
ghost use Rattle.std.specs.Prelude.{◌≡◌};
ghost use Rattle.rvs_points.specs.Faults.{number_of};

use rvs_abstract::AbstractRefusal;
use rvs_cross::CrossRefusal;
use rvs_expr::ExprRefusal;

/// Which rule a coverage group file breaks.
#[derive(Drop)]
pub enum CgfKind {
    /// A label's name has another shape.
    BadLabelName,
    /// What stands there has another shape.
    BadShape,
    /// A node isn't known.
    UnknownNode,
    /// A mnemonic isn't known, or not admitted.
    UnknownMnemonic,
    /// A register isn't known.
    BadRegister,
    /// A key is no expression.
    BadExpr(ExprRefusal),
    /// A key is no call of a family.
    BadAbstract(AbstractRefusal),
    /// A key is no cross point.
    BadCross(CrossRefusal),
    /// An entry of `config` is no condition.
    BadConfig,
    /// More than 256 labels.
    TooManyLabels,
    /// More than 2,048 points of a label, or a sum of points times mnemonics above 65,536.
    TooManyPoints,
    /// The memory of the core has no room for the test of a label. Reading groups never finds it:
    /// who makes their tests does.
    NoRoom,
}

impl CgfKind {
    /// The number under which a fault line names the kind: 1 to 12, in the order above.
    pub fn number(&self) -> u8
        ensures { result ≡ number_of self.now }
    {
        match self {
            CgfKind::BadLabelName => 1,
            CgfKind::BadShape => 2,
            CgfKind::UnknownNode => 3,
            CgfKind::UnknownMnemonic => 4,
            CgfKind::BadRegister => 5,
            CgfKind::BadExpr(_) => 6,
            CgfKind::BadAbstract(_) => 7,
            CgfKind::BadCross(_) => 8,
            CgfKind::BadConfig => 9,
            CgfKind::TooManyLabels => 10,
            CgfKind::TooManyPoints => 11,
            CgfKind::NoRoom => 12,
        }
    }
}
