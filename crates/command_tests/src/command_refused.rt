//! Commands over layers of any geometry without memory. With each allocation failing in turn, a
//! command ends as without the failure or fails, and executed again, it ends as without it.

use crate::runs::{Run, attempt, ends};
use std::random::RandomSource;
use std::sync::Wait;
use std::test::Fail;
use std::thread::Threads;

/// A triangle, a line and points, a layer that they are joined with, edits, and improper rings.
const FILES: [(&str, &str); 4] = [
    (
        "left.csv",
        "id,wkt\nt,\"POLYGON ((0 0, 4 0, 0 4, 0 0))\"\nl,\"LINESTRING (0 3, 3 0)\"\n\
         p,\"MULTIPOINT (1 1, 5 5)\"\n",
    ),
    (
        "right.csv",
        "id,wkt\ns,\"LINESTRING (0 0, 3 3)\"\nq,POINT (2 2)\n",
    ),
    (
        "edits.csv",
        "op,layer,id,wkt\ndelete,right,s,\ninsert,right,r,\"LINESTRING (1 0, 1 5)\"\n",
    ),
    (
        "bow.csv",
        "id,wkt\ndot,POINT (0 0)\nbow,\"POLYGON ((0 0, 4 4, 4 0, 0 4, 0 0))\"\n",
    ),
];

const JOINS: &[Run] = &[
    (
        "join|left.csv|right.csv|--relation|crosses|--geometry|any",
        0,
        "left,right,matrix\nt,s,1F2001102\nl,s,0F1FF0102\np,s,0F0FFF102\n",
        "",
    ),
    (
        "join|left.csv|right.csv|--relation|crosses|--geometry|any|--rings|even-odd\
         |--edits|edits.csv",
        0,
        "left,right,matrix\nt,r,1F2001102\nl,r,0F1FF0102\np,r,0F0FFF102\n",
        "",
    ),
    (
        "join|right.csv|left.csv|--relation|touches|--geometry|any|--workers|1",
        0,
        "left,right,matrix\nq,t,F0FFFF212\n",
        "",
    ),
    (
        "join|bow.csv|bow.csv|--relation|intersects|--geometry|any|--rings|even-odd",
        0,
        "left,right,matrix\ndot,dot,0FFFFFFF2\ndot,bow,F0FFFF212\n\
         bow,dot,FF20F1FF2\nbow,bow,2FFF1FFF2\n",
        "rjoin: left: even-odd rule for 1 feature with improper rings: row 2\n\
         rjoin: right: even-odd rule for 1 feature with improper rings: row 2\n",
    ),
    (
        "nearest|bow.csv|right.csv|--geometry|any|--rings|even-odd",
        0,
        "left,right,distance\ndot,s,0\nbow,s,0\nbow,q,0\n",
        "rjoin: left: even-odd rule for 1 feature with improper rings: row 2\n",
    ),
    (
        "window|bow.csv|POINT (0 0)|--geometry|any|--rings|even-odd",
        0,
        "id\ndot\nbow\n",
        "rjoin: layer: even-odd rule for 1 feature with improper rings: row 2\n",
    ),
];

/// The box of the second window holds a point of the layer that the window itself doesn't.
const LAYERS: &[Run] = &[
    (
        "window|left.csv|LINESTRING (3 0, 4 1)|--geometry|any",
        0,
        "id\nt\nl\n",
        "",
    ),
    (
        "window|left.csv|POLYGON ((3 2, 6 2, 6 6, 3 2))|--geometry|any",
        0,
        "id\n",
        "",
    ),
    (
        "window|left.csv|MULTIPOINT (0.5 0.5, 5 5)|--geometry|any|--scale|1",
        0,
        "id\nt\np\n",
        "",
    ),
    (
        "stats|left.csv|--geometry|any",
        0,
        "features 3\npoints 1\nlines 1\nareas 1\nvertices 8\nheight 1\n",
        "",
    ),
    (
        "bounds|left.csv|--geometry|any|--scale|1",
        0,
        "id,x1,y1,x2,y2\nt,0,0,40,40\nl,0,0,30,30\np,10,10,50,50\n",
        "",
    ),
];

/// Whether a run ends as expected, at the second attempt if it fails without memory at the first.
fn ends_at_last<R: RandomSource + AllocGlobal + Threads + Wait + Sync>(
    rt: &R,
    run: &Run,
) -> Result<bool, Fail> {
    match attempt(rt, &FILES, run) {
        Some(is_so) => Ok(is_so),
        None => ends(rt, &FILES, run),
    }
}

#[test]
fn joins_without_memory(rt: HostRuntime) -> Result<(), Fail> {
    for run in JOINS {
        assert!(rt; ends_at_last(&rt, run)?, "{}", run.0);
    }
    Ok(())
}

#[test]
fn layers_without_memory(rt: HostRuntime) -> Result<(), Fail> {
    for run in LAYERS {
        assert!(rt; ends_at_last(&rt, run)?, "{}", run.0);
    }
    Ok(())
}
