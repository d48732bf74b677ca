//! Loading that runs out of memory. With each allocation failing in turn, the same call with memory
//! then has the same result as without the failure.

use crate::layers::seen;
use crate::read_layers::answer_by;
use layer_core::Layer;
use row_core::ReadFault;
use std::alloc::AllocGlobal;
use std::random::RandomSource;
use std::test::Fail;
use std::thread::Threads;

const TEN: &[u8] = b"id,wkt\na,POINT (0 0)\n0123456789abcdefg,POINT (1 0)\n\
    c,POINT (2 0)\nd,POINT (3 0)\ne,POINT (4 0)\n\
    f,POINT (5 0)\ng,POINT (6 0)\nh,POINT (7 0)\ni,POINT (8 0)\nj,POINT (9 0)\n";

/// Whether the layer and its tree have ten features.
fn has_ten(layer: &Layer) -> bool {
    layer.len() == 10 && layer.tree().len() == 10
}

/// Whether ten features are loaded, or the fault.
fn loads_ten<R: Threads + Sync + RandomSource + AllocGlobal>(
    rt: &R,
) -> Result<Result<bool, ReadFault>, Fail> {
    Ok(answer_by(rt, TEN, 2)?.map(|layer| seen(layer, |layer| has_ten(layer))))
}

#[test]
fn refused_loading(rt: HostRuntime) -> Result<(), Fail> {
    let first = loads_ten(&rt)?;
    assert!(rt; matches!(first, Ok(true) | Err(ReadFault::Memory)));
    assert!(rt; first == Ok(true) || loads_ten(&rt)? == Ok(true));
    Ok(())
}
