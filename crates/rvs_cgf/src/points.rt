// Points in order, with the set of their pairs of kind and key.
ghost use Rattle.std.specs.Prelude.{◌≡◌, ◌∷◌, ◌++◌, [], List, map, string_bytes};
ghost use Rattle.std.specs.Prelude.{IfOk, OnOk};
ghost use Rattle.rvs_cgf.specs.Groups as spec;
ghost use Rattle.rvs_points.specs.PointView.{point_view};
ghost use Rattle.rvs_points.specs.Kinds.{mark};
ghost use Rattle.rvs_cgf.specs.PointKeys.{AreKeysOf};

use rvs_base::{Items, NoMemory, beside};
use rvs_points::{Kind, Point};
use std::alloc::{AllocError, Global};
use std::collections::BTreeSet;

/// Points in order, with the set of their pairs of kind and key.
#[derive(Drop)]
pub struct Points {
    /// The points.
    pub list: Items<Point>,
    /// The pairs of kind and key, as texts.
    pub known: BTreeSet<String>,
    ghost told: { AreKeysOf known list },
}

/// The mark of a kind, one character.
fn mark(kind: Kind) -> &'static str
    ensures { result.now ≡ mark kind ∷ [] }
{
    match kind {
        Kind::Mnemonic => "m",
        Kind::Rs1 => "1",
        Kind::Rs2 => "2",
        Kind::Rd => "d",
        Kind::OpComb => "o",
        Kind::ValComb => "v",
        Kind::CrossComb => "c",
    }
}

/// A pair of kind and key as one text.
fn marked(alloc: Global, kind: Kind, key: &str) -> Result<String, AllocError>
    ensures { IfOk result (λ text. string_bytes text ≡ mark kind ∷ key.now) }
{
    let mut text = String::from_str(alloc, mark(kind))?;
    text.push_str(key)?;
    Ok(text)
}

/// Adds a point's pair.
fn add_pair(alloc: Global, known: &mut BTreeSet<String>, point: &Point) -> Result<(), AllocError>
    ensures { OnOk result ((points : List Point) →
        AreKeysOf known.old points → AreKeysOf known.new (points ++ point.now ∷ [])) }
{
    let text = marked(alloc, point.kind, point.key.as_str())?;
    known.insert(text)?;
    Ok(())
}

/// Adds the pairs of points.
fn add_pairs(alloc: Global, known: &mut BTreeSet<String>, more: &[Point]) -> Result<(), AllocError>
    ensures { OnOk result ((points : List Point) →
        AreKeysOf known.old points → AreKeysOf known.new (points ++ more.now)) }
{
    for point in more {
        add_pair(alloc, known, point)?;
    }
    Ok(())
}

impl Points {
    /// No points.
    pub fn new(alloc: Global) -> Self
        ensures { result.list ≡ [] }
    {
        Points {
            list: Items::new(alloc),
            known: BTreeSet::new(alloc),
        }
    }

    /// The points alone.
    pub fn into_items(self) -> Items<Point>
        ensures { result ≡ self.list }
    {
        let Points { list, known: _ } = self;
        list
    }

    /// Whether a point of this kind and key is there.
    ///
    /// # Errors
    ///
    /// [`NoMemory`].
    pub fn has(&self, alloc: Global, kind: Kind, key: &str) -> Result<bool, NoMemory>
        ensures { IfOk result (λ b. b ≡ spec.has kind key.now (map point_view self.now.list)) }
    {
        let text = marked(alloc, kind, key)?;
        Ok(self.known.contains(text.as_str()))
    }

    /// The points with one more.
    ///
    /// # Errors
    ///
    /// [`NoMemory`].
    pub fn with(self, alloc: Global, point: Point) -> Result<Points, NoMemory>
        ensures { IfOk result (λ p. p.list ≡ self.list ++ point ∷ []) }
    {
        let Points { list, mut known } = self;
        let added = add_pair(alloc, &mut known, &point);
        let ((), (point, mut list, known)) = beside(added, (point, list, known))?;
        list.push(point)?;
        Ok(Points { list, known })
    }

    /// The points with more behind them.
    ///
    /// # Errors
    ///
    /// [`NoMemory`].
    pub fn with_all(self, alloc: Global, more: Items<Point>) -> Result<Points, NoMemory>
        ensures { IfOk result (λ p. p.list ≡ self.list ++ more) }
    {
        let Points { list, mut known } = self;
        let added = add_pairs(alloc, &mut known, more.as_slice());
        let ((), (list, known, more)) = beside(added, (list, known, more))?;
        let mut list = list.into_vec();
        let mut more = more.into_vec();
        list.append(&mut more)?;
        let list = Items::from(list);
        Ok(Points { list, known })
    }
}
