//! The meeting of two intervals of one axis, and the intersections of their parts.

ghost use Rattle.std.specs.Prelude.{◌≡◌, ◌<ℤ◌};
ghost use Rattle.relation_core.specs.Meetings.{IsMeeting, shares, interior_of, boundary_of};
ghost use Rattle.relation_core.specs.Meetings.{exterior_of};

use crate::part::Parts;
use Shared::{Interval, Nothing, Point};
use geom_core::Span;
use std::cmp::Ordering::{Equal, Greater, Less};

/// The intersection of two parts of one axis.
#[derive(Clone, Copy)]
pub enum Shared {
    /// It is empty.
    Nothing,
    /// It consists of single coordinates.
    Point,
    /// It contains an open interval.
    Interval,
}

/// How two intervals of an axis lie to each other, without regard to direction: the eight relations
/// of Egenhofer and Franzosa (1991) between two intervals of positive length, and the cases in
/// which one or both intervals are a single coordinate.
#[derive(Clone, Copy)]
pub enum Meeting {
    Disjoint,
    Meet,
    Overlap,
    Inside,
    CoveredBy,
    Contains,
    Covers,
    Equal,
    PointDisjoint,
    PointAtEnd,
    PointInside,
    DisjointPoint,
    EndAtPoint,
    ContainsPoint,
    PointsDisjoint,
    PointsEqual,
}

/// The meeting of two intervals of positive length.
#[inline(always)]
fn of_intervals(a: &Span, b: &Span) -> Meeting
    requires first { a.now.lo <ℤ a.now.hi }
    requires second { b.now.lo <ℤ b.now.hi }
    ensures { IsMeeting result a.now b.now }
{
    match (a.hi.cmp(&b.lo), b.hi.cmp(&a.lo)) {
        (Less, _) => Meeting::Disjoint,
        (_, Less) => Meeting::Disjoint,
        (Equal, _) => Meeting::Meet,
        (_, Equal) => Meeting::Meet,
        (Greater, Greater) => of_crossing(a, b),
    }
}

/// The meeting of two intervals whose intersection has positive length.
#[inline(always)]
fn of_crossing(a: &Span, b: &Span) -> Meeting
    requires first { a.now.lo <ℤ a.now.hi }
    requires second { b.now.lo <ℤ b.now.hi }
    requires first_reaches { b.now.lo <ℤ a.now.hi }
    requires second_reaches { a.now.lo <ℤ b.now.hi }
    ensures { IsMeeting result a.now b.now }
{
    match (a.lo.cmp(&b.lo), a.hi.cmp(&b.hi)) {
        (Less, Less) => Meeting::Overlap,
        (Less, Equal) => Meeting::Covers,
        (Less, Greater) => Meeting::Contains,
        (Equal, Less) => Meeting::CoveredBy,
        (Equal, Equal) => Meeting::Equal,
        (Equal, Greater) => Meeting::Covers,
        (Greater, Less) => Meeting::Inside,
        (Greater, Equal) => Meeting::CoveredBy,
        (Greater, Greater) => Meeting::Overlap,
    }
}

/// The meeting of an interval of positive length with a single coordinate.
#[inline(always)]
fn of_interval_and_point(a: &Span, b: &Span) -> Meeting
    requires first { a.now.lo <ℤ a.now.hi }
    requires second { b.now.lo ≡ b.now.hi }
    ensures { IsMeeting result a.now b.now }
{
    match (a.lo.cmp(&b.lo), b.lo.cmp(&a.hi)) {
        (Greater, _) => Meeting::DisjointPoint,
        (_, Greater) => Meeting::DisjointPoint,
        (Equal, _) => Meeting::EndAtPoint,
        (_, Equal) => Meeting::EndAtPoint,
        (Less, Less) => Meeting::ContainsPoint,
    }
}

/// The meeting of a single coordinate with an interval of positive length.
#[inline(always)]
fn of_point_and_interval(a: &Span, b: &Span) -> Meeting
    requires first { a.now.lo ≡ a.now.hi }
    requires second { b.now.lo <ℤ b.now.hi }
    ensures { IsMeeting result a.now b.now }
{
    match (b.lo.cmp(&a.lo), a.lo.cmp(&b.hi)) {
        (Greater, _) => Meeting::PointDisjoint,
        (_, Greater) => Meeting::PointDisjoint,
        (Equal, _) => Meeting::PointAtEnd,
        (_, Equal) => Meeting::PointAtEnd,
        (Less, Less) => Meeting::PointInside,
    }
}

/// The meeting of two single coordinates.
#[inline(always)]
fn of_points(a: &Span, b: &Span) -> Meeting
    requires first { a.now.lo ≡ a.now.hi }
    requires second { b.now.lo ≡ b.now.hi }
    ensures { IsMeeting result a.now b.now }
{
    match a.lo.cmp(&b.lo) {
        Less => Meeting::PointsDisjoint,
        Equal => Meeting::PointsEqual,
        Greater => Meeting::PointsDisjoint,
    }
}

#[inline(always)]
fn row(interior: Shared, boundary: Shared, exterior: Shared) -> Parts<Shared>
    ensures { result ≡ shares interior boundary exterior }
{
    Parts {
        interior,
        boundary,
        exterior,
    }
}

impl Meeting {
    /// The meeting of `a` and `b`.
    #[inline(always)]
    pub fn of(a: &Span, b: &Span) -> Meeting
        ensures { IsMeeting result a.now b.now }
    {
        match (a.lo < a.hi, b.lo < b.hi) {
            (true, true) => of_intervals(a, b),
            (true, false) => of_interval_and_point(a, b),
            (false, true) => of_point_and_interval(a, b),
            (false, false) => of_points(a, b),
        }
    }

    /// The intersections of the inner part of the first interval with each part of the second.
    #[inline(always)]
    pub fn interior(self) -> Parts<Shared>
        ensures { result ≡ interior_of self }
    {
        match self {
            Meeting::Disjoint | Meeting::Meet | Meeting::DisjointPoint | Meeting::EndAtPoint => row(
                Nothing, Nothing, Interval,
            ),
            Meeting::Overlap | Meeting::Contains | Meeting::Covers => row(
                Interval, Point, Interval,
            ),
            Meeting::Inside | Meeting::CoveredBy | Meeting::Equal => row(
                Interval, Nothing, Nothing,
            ),
            Meeting::PointDisjoint | Meeting::PointsDisjoint => row(Nothing, Nothing, Point),
            Meeting::PointAtEnd => row(Nothing, Point, Nothing),
            Meeting::PointInside | Meeting::PointsEqual => row(Point, Nothing, Nothing),
            Meeting::ContainsPoint => row(Point, Nothing, Interval),
        }
    }

    /// The intersections of the ends of the first interval with each part of the second.
    #[inline(always)]
    pub fn boundary(self) -> Parts<Shared>
        ensures { result ≡ boundary_of self }
    {
        match self {
            Meeting::Disjoint
            | Meeting::Contains
            | Meeting::DisjointPoint
            | Meeting::ContainsPoint => row(Nothing, Nothing, Point),
            Meeting::Meet | Meeting::Covers => row(Nothing, Point, Point),
            Meeting::Overlap | Meeting::EndAtPoint => row(Point, Nothing, Point),
            Meeting::Inside => row(Point, Nothing, Nothing),
            Meeting::CoveredBy => row(Point, Point, Nothing),
            Meeting::Equal => row(Nothing, Point, Nothing),
            Meeting::PointDisjoint
            | Meeting::PointAtEnd
            | Meeting::PointInside
            | Meeting::PointsDisjoint
            | Meeting::PointsEqual => row(Nothing, Nothing, Nothing),
        }
    }

    /// The intersections of the outside of the first interval with each part of the second.
    #[inline(always)]
    pub fn exterior(self) -> Parts<Shared>
        ensures { result ≡ exterior_of self }
    {
        match self {
            Meeting::Disjoint
            | Meeting::Meet
            | Meeting::Overlap
            | Meeting::Inside
            | Meeting::CoveredBy
            | Meeting::PointDisjoint
            | Meeting::PointAtEnd
            | Meeting::PointInside => row(Interval, Point, Interval),
            Meeting::Contains
            | Meeting::Covers
            | Meeting::Equal
            | Meeting::EndAtPoint
            | Meeting::ContainsPoint
            | Meeting::PointsEqual => row(Nothing, Nothing, Interval),
            Meeting::DisjointPoint | Meeting::PointsDisjoint => row(Point, Nothing, Interval),
        }
    }
}
