//! How much of a tree a window visits, by the number of calls of the window.

ghost use Rattle.std.specs.Prelude.{◌↔◌, IsTrue};

use geom_core::Shape;
use rtree_core::{RTree, Window};
use std::alloc::{AllocError, Global};
use std::sync::atomic::{AtomicU32, Ordering};
use std::test::Fail;
use test_data::on_packed;

/// A window that counts its calls.
#[derive(Drop)]
struct Counted {
    shape: Shape,
    asked: AtomicU32,
}

impl Window for Counted {
    ghost shape_of = { λ w. w.shape };

    fn admits(&self, shape: &Shape) -> bool {
        self.asked.fetch_add(1, Ordering::SeqCst);
        shape.meets(&self.shape)
    }
}

/// Whether a tree finds only this number in a window.
fn finds_alone<W: Window>(
    alloc: Global,
    tree: &RTree,
    window: &W,
    number: u32,
) -> Result<bool, AllocError> {
    Ok(tree.window(alloc, window)?.as_slice() == [number].as_slice())
}

/// Of 1,000 points on a line, eight are in each leaf, so one of them is found by testing 8 of the
/// 1,000 entries, 8 of 125 leaves, 8 of 16 nodes above them and both children of the root.
#[test]
fn window_follows_one_path(rt: HostRuntime) -> Result<(), Fail> {
    let (alloc, asked) = (rt.alloc(), AtomicU32::new(0));
    let shape = Shape::new(500, 0, 500, 0).ok_or("a point")?;
    let window = Counted { shape, asked };
    let found = on_packed(alloc, (1000, 1), (1, 1), |tree, _| {
        finds_alone(alloc, tree, &window, 500)
    })?;
    assert!(rt; found?);
    assert_eq!(rt; window.asked.load(Ordering::SeqCst), 26);
    Ok(())
}
