//! Worked rows.

use crate::trees::{Squares, has_leaves, square};
use geom_core::Shape;
use rtree_core::choices::pick_seeds;
use rtree_core::split::split;
use rtree_core::{Entry, RTree};
use std::alloc::{AllocError, Global};
use std::test::Fail;

/// The leaves of a tree, in order, as the numbers of their entries.
type Leaves = &'static [&'static [u32]];

const NINE_POINTS: Leaves = &[&[0, 2, 4, 6, 8], &[1, 3, 5, 7]];

const TEN_POINTS: Leaves = &[&[0, 2, 4, 6, 8, 9], &[1, 3, 5, 7]];

const TWELVE_POINTS: Leaves = &[&[0, 2, 4, 6, 8, 9, 10, 11], &[1, 3, 5, 7]];

const TWELVE_WITHOUT_TWO: Leaves = &[&[0, 4, 8, 10, 5, 7], &[2, 6, 9, 11]];

const SEVEN_OF_NINE: Leaves = &[&[0, 2, 4, 6, 8, 5, 7]];

const PACKED_TWENTY: Leaves = &[
    &[0, 1, 2, 3, 4, 5, 6],
    &[7, 8, 9, 10, 11, 12, 13],
    &[14, 15, 16, 17, 18, 19],
];

const PACKED_EIGHTEEN_LEFT: Leaves = &[
    &[1, 2, 3, 4, 5, 6],
    &[7, 9, 10, 11, 12, 13],
    &[14, 15, 16, 17, 18, 19],
];

const PACKED_NINE: Leaves = &[&[0, 1, 2, 3, 4], &[5, 6, 7, 8]];

const PACKED_EIGHT_LEFT: Leaves = &[&[0, 1, 2, 3, 4], &[6, 7, 8]];

const PACKED_SEVEN_LEFT: Leaves = &[&[0, 1, 2, 3, 4, 7, 8]];

/// The name of a row, and the leaves of the packed tree of the first squares. The zigzag has a
/// slice of two pages and one of one page; in each the lower points come first, ordered by number.
/// In the backward row, entries of equal height are ordered by number, and leaves by position.
const PACKINGS: &[(&str, Squares, u8, Leaves)] = &[
    (
        "packed_diagonal",
        Squares::Diagonal,
        20,
        &[
            &[19, 18, 17, 16, 15, 14],
            &[13, 12, 11, 10, 9, 8, 7],
            &[6, 5, 4, 3, 2, 1, 0],
        ],
    ),
    (
        "packed_zigzag",
        Squares::Zigzag,
        24,
        &[
            &[0, 2, 4, 6, 8, 10, 12, 14],
            &[16, 18, 20, 22, 17, 19, 21, 23],
            &[1, 3, 5, 7, 9, 11, 13, 15],
        ],
    ),
    (
        "packed_backward",
        Squares::Backward,
        16,
        &[&[0, 1, 2, 3, 4, 5, 6, 7], &[8, 9, 10, 11, 12, 13, 14, 15]],
    ),
];

/// The corners of a window, and the numbers that it meets.
type Window = (i64, i64, i64, i64, &'static [u32]);

/// Squares that are removed from a tree in turn, whether it held all of them, and the leaves, the
/// height and the number of entries of the tree that is left.
type Removal = (&'static [u8], bool, Leaves, u32, usize);

/// The name of a row, the first squares of a tree, and removals from it, one after another.
type Row = (&'static str, Squares, u8, &'static [Removal]);

/// Removals from trees into which the squares were inserted in turn.
const FROM_GROWN: &[Row] = &[
    (
        "removal_extra_1",
        Squares::Row,
        9,
        &[
            (&[1, 3], true, SEVEN_OF_NINE, 1, 7),
            (&[1], false, SEVEN_OF_NINE, 1, 7),
        ],
    ),
    (
        "removal_extra_2",
        Squares::Crowd,
        12,
        &[
            (&[], true, TWELVE_POINTS, 2, 12),
            (&[1, 3], true, TWELVE_WITHOUT_TWO, 2, 10),
        ],
    ),
    (
        "removal_extra_3",
        Squares::Row,
        9,
        &[(&[1, 3, 0, 2, 4, 6, 8, 5, 7], true, &[], 0, 0)],
    ),
];

/// Removals from packed trees, whose leaves keep the order of the entries that remain.
const FROM_PACKED: &[Row] = &[
    (
        "packed_few",
        Squares::Row,
        9,
        &[(&[], true, PACKED_NINE, 2, 9)],
    ),
    ("packed_few", Squares::Row, 0, &[(&[], true, &[], 0, 0)]),
    (
        "packed_removals",
        Squares::Row,
        9,
        &[
            (&[5], true, PACKED_EIGHT_LEFT, 2, 8),
            (&[6], true, PACKED_SEVEN_LEFT, 1, 7),
            (&[5], false, PACKED_SEVEN_LEFT, 1, 7),
        ],
    ),
    (
        "packed_removal_order",
        Squares::Row,
        20,
        &[(&[0, 8], true, PACKED_EIGHTEEN_LEFT, 2, 18)],
    ),
    (
        "packed_removal_of_the_last",
        Squares::Row,
        1,
        &[(&[0], true, &[], 0, 0)],
    ),
];

/// Numbers of entries, and the heights of trees packed from them.
const HEIGHTS: &[(u32, u32)] = &[
    (0, 0),
    (1, 1),
    (8, 1),
    (9, 2),
    (64, 2),
    (65, 3),
    (262_145, 7),
    (1_000_000, 7),
    (4_294_967_295, 11),
];

const IN_CROWD: &[Window] = &[(4, 0, 6, 0, &[4, 5, 6, 9]), (9, 1, 10, 2, &[])];

const IN_TWENTY: &[Window] = &[(5, 0, 8, 0, &[5, 6, 7, 8]), (20, 0, 21, 5, &[])];

/// Whether a tree has these leaves, this height and this number of entries.
fn is_tree(tree: &RTree, leaves: Leaves, height: u32, len: usize) -> bool {
    has_leaves(tree, leaves)
        && tree.height() == height
        && tree.len() == len
        && tree.is_empty() == (len == 0)
}

/// Whether a tree finds exactly these numbers in a window.
fn finds(tree: &RTree, alloc: Global, window: &Shape, numbers: &[u32]) -> Result<bool, AllocError> {
    Ok(tree.window(alloc, window)?.as_slice() == numbers)
}

/// Whether nine points have their leaves, and then ten have theirs.
fn grows_to_ten(alloc: Global) -> Result<bool, AllocError> {
    let mut tree = Squares::Crowd.grown(alloc, 9)?;
    let is_of_nine = is_tree(&tree, NINE_POINTS, 2, 9);
    tree.insert(Squares::Crowd.entry(9))?;
    Ok(is_of_nine && has_leaves(&tree, TEN_POINTS))
}

#[test]
fn nine_points(rt: HostRuntime) -> Result<(), Fail> {
    assert!(rt; grows_to_ten(rt.alloc())?);
    Ok(())
}

/// Whether entries have these numbers.
fn have_numbers(entries: &[Entry], numbers: &[u32]) -> bool {
    entries.iter().map(|e| e.number).eq(numbers.iter().copied())
}

/// Whether the squares with an outlier are split into six and three.
fn splits(alloc: Global) -> Result<bool, AllocError> {
    let mut rest = Squares::Outlier.listed(alloc, 9)?;
    let has_seeds = pick_seeds(&rest) == (0, 8);
    let mut one = Vec::with_capacity(alloc, 9)?;
    let mut two = Vec::with_capacity(alloc, 9)?;
    split(&mut rest, &mut one, &mut two);
    let is_dealt = have_numbers(&one, &[0, 1, 2, 3, 4, 5]) && have_numbers(&two, &[8, 6, 7]);
    Ok(has_seeds && rest.is_empty() && is_dealt)
}

#[test]
fn nine_points_split(rt: HostRuntime) -> Result<(), Fail> {
    assert!(rt; splits(rt.alloc())?);
    Ok(())
}

/// Whether a tree finds exactly these numbers in each of these windows.
fn finds_all(tree: &RTree, alloc: Global, windows: &[Window]) -> Result<bool, AllocError> {
    for (x1, y1, x2, y2, numbers) in windows {
        let Some(window) = Shape::new(*x1, *y1, *x2, *y2) else {
            return Ok(false);
        };
        if !finds(tree, alloc, &window, numbers)? {
            return Ok(false);
        }
    }
    Ok(true)
}

#[test]
fn window_extra(rt: HostRuntime) -> Result<(), Fail> {
    let alloc = rt.alloc();
    assert!(rt; finds_all(&Squares::Crowd.grown(alloc, 10)?, alloc, IN_CROWD)?);
    Ok(())
}

#[test]
fn empty_tree(rt: HostRuntime) -> Result<(), Fail> {
    let tree = RTree::new(rt.alloc());
    assert!(rt; is_tree(&tree, &[], 0, 0) && finds(&tree, rt.alloc(), &square(0, 0, 1), &[])?);
    Ok(())
}

/// Whether a tree is that of twenty packed points, and finds the points of two windows.
fn is_twenty(tree: &RTree, alloc: Global) -> Result<bool, AllocError> {
    Ok(is_tree(tree, PACKED_TWENTY, 2, 20) && finds_all(tree, alloc, IN_TWENTY)?)
}

#[test]
fn packed_twenty(rt: HostRuntime) -> Result<(), Fail> {
    let alloc = rt.alloc();
    assert!(rt; is_twenty(&Squares::Row.packed(alloc, 20)?, alloc)?);
    Ok(())
}

/// Whether a tree is left as these removals say.
fn follows(tree: &mut RTree, squares: Squares, removals: &[Removal]) -> Result<bool, AllocError> {
    for (numbers, held, leaves, height, len) in removals {
        if squares.removed(tree, numbers)? != *held || !is_tree(tree, leaves, *height, *len) {
            return Ok(false);
        }
    }
    Ok(true)
}

/// Whether a tree into which squares were inserted is left as a row says.
fn grown_follows(alloc: Global, row: &Row) -> Result<bool, AllocError> {
    let (_, squares, count, removals) = *row;
    follows(&mut squares.grown(alloc, count)?, squares, removals)
}

#[test]
fn removals(rt: HostRuntime) -> Result<(), Fail> {
    for row in FROM_GROWN {
        assert!(rt; grown_follows(rt.alloc(), row)?, "{}", row.0);
    }
    Ok(())
}

/// Whether a packed tree of squares is left as a row says.
fn packed_follows(alloc: Global, row: &Row) -> Result<bool, AllocError> {
    let (_, squares, count, removals) = *row;
    follows(&mut squares.packed(alloc, count)?, squares, removals)
}

#[test]
fn packed_removals(rt: HostRuntime) -> Result<(), Fail> {
    for row in FROM_PACKED {
        assert!(rt; packed_follows(rt.alloc(), row)?, "{}", row.0);
    }
    Ok(())
}

/// Whether a packed tree has these leaves, independent of the order of the list.
fn packs_into(
    alloc: Global,
    squares: Squares,
    count: u8,
    leaves: &[&[u32]],
) -> Result<bool, AllocError> {
    let mut turned = squares.listed(alloc, count)?;
    turned.reverse();
    Ok(
        has_leaves(&squares.packed(alloc, count)?, leaves)
            && has_leaves(&RTree::pack(alloc, turned)?, leaves),
    )
}

#[test]
fn packed_leaves(rt: HostRuntime) -> Result<(), Fail> {
    for (name, squares, count, leaves) in PACKINGS {
        assert!(rt; packs_into(rt.alloc(), *squares, *count, leaves)?, "{name}");
    }
    Ok(())
}

#[test]
fn packed_heights(rt: HostRuntime) -> Result<(), Fail> {
    for (entries, height) in HEIGHTS {
        assert!(rt; RTree::packed_height(*entries) == *height);
    }
    Ok(())
}
