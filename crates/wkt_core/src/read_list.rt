//! The points in parentheses as they are read: those of one list, and those of all lists of a text.

use crate::position::ReadPoint;
use crate::walk::Walk;

/// A list of points that was read.
#[derive(Drop)]
pub(crate) struct ReadList {
    /// The walk along the points, if all their numbers are in range.
    walk: Walk,
    whole: bool,
    in_range: bool,
}

impl ReadList {
    ghost use Rattle.std.specs.Prelude.{[], ◌∷◌, ◌++◌, ◌≡◌, List};
    ghost use Rattle.number_core.specs.declared.scale.Scale.{Scale};
    ghost use Rattle.wkt_core.specs.Grammar.{RawPoint};
    ghost use Rattle.wkt_core.specs.PointSteps.{point_read};
    ghost use Rattle.wkt_core.specs.ReadLists.{IsReadOf};

    /// The empty list.
    #[inline(always)]
    pub(crate) fn new() -> ReadList
        ensures { (scale : Scale) → IsReadOf scale result [] }
    {
        ReadList {
            walk: Walk::new(),
            whole: true,
            in_range: true,
        }
    }

    /// Adds a point.
    #[inline(always)]
    pub(crate) fn push(&mut self, point: ReadPoint)
        ensures { (scale : Scale) (ps : List RawPoint) (p : RawPoint) → IsReadOf scale self.old ps
            → point ≡ point_read scale p → IsReadOf scale self.new (ps ++ p ∷ []) }
    {
        if !point.whole {
            self.whole = false;
        }
        match point.position {
            Some(position) => self.walk.push(position),
            None => self.in_range = false,
        }
    }
}

/// The first list, whether it is the only one, and whether the numbers of all lists are good.
#[derive(Drop)]
pub(crate) struct ReadLists {
    pub(crate) first: ReadList,
    alone: bool,
    whole: bool,
    in_range: bool,
}

impl ReadLists {
    ghost use Rattle.std.specs.Prelude.{◌≡◌, [], ◌∷◌, ◌++◌, List, false, IsTrue, IfSome, IfNone};
    ghost use Rattle.number_core.specs.declared.scale.Scale.{Scale};
    ghost use Rattle.wkt_core.specs.Grammar.{RawPoint};
    ghost use Rattle.wkt_core.specs.ReadLists.{IsReadOf, AreReadOf};

    /// The state before the first list is read.
    #[inline(always)]
    pub(crate) fn new() -> ReadLists
        ensures { (scale : Scale) → IsReadOf scale result.first [] }
    {
        ReadLists {
            first: ReadList::new(),
            alone: true,
            whole: true,
            in_range: true,
        }
    }

    /// Records that the first list was read. It is the only one until another is added.
    #[inline(always)]
    pub(crate) fn first_was_read(&mut self)
        ensures { (scale : Scale) (ps : List RawPoint)
            → IsReadOf scale self.old.first ps → AreReadOf scale self.new (ps ∷ []) }
    {
        self.alone = true;
        self.whole = self.first.whole;
        self.in_range = self.first.in_range;
    }

    /// Adds a further list.
    #[inline(always)]
    pub(crate) fn push(&mut self, further: ReadList)
        ensures { (scale : Scale) (lists : List (List RawPoint)) (ps : List RawPoint)
            → AreReadOf scale self.old lists → IsReadOf scale further ps
            → AreReadOf scale self.new (lists ++ ps ∷ []) }
    {
        self.alone = false;
        self.whole = self.whole && further.whole;
        self.in_range = self.in_range && further.in_range;
    }

    /// Whether each number of the lists is a whole number of units of the scale.
    #[inline(always)]
    pub(crate) fn is_whole(&self) -> bool
        ensures { result ≡ self.now.whole }
    {
        self.whole
    }

    /// Whether each number of the lists is in range, in whole units.
    #[inline(always)]
    pub(crate) fn is_in_range(&self) -> bool
        ensures { result ≡ self.now.in_range }
    {
        self.in_range
    }

    /// The walk along the list, if it is the only one.
    #[inline(always)]
    pub(crate) fn alone(&self) -> Option<&Walk>
        ensures some { IfSome result (λ walk.
            IsTrue self.now.alone × (walk.now ≡ self.now.first.walk)) }
        ensures none { IfNone result (self.now.alone ≡ false) }
    {
        if self.alone {
            Some(&self.first.walk)
        } else {
            None
        }
    }
}
