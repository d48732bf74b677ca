//! Paths of commands, among them one that no file of a system has.

use crate::runs::{Run, check};
use std::test::Fail;

/// Layers at paths that would be confused if words were trimmed, lower-cased or truncated.
const PATHS: [(&str, &str); 5] = [
    ("-", "id,wkt\ninput,POINT (0 0)\n"),
    ("-l.csv", "id,wkt\ndash,POINT (1 1)\n"),
    ("", "id,wkt\nnone,POINT (2 2)\n"),
    (" Übersicht der Felder.CSV ", "id,wkt\nspaces,POINT (3 3)\n"),
    ("übersicht der felder.csv", "id,wkt\nlowered,POINT (4 4)\n"),
];

const PATHS_AS_THEY_STAND: [Run; 4] = [
    ("bounds|-", 0, "id,x1,y1,x2,y2\ninput,0,0,0,0\n", ""),
    ("bounds|--|-l.csv", 0, "id,x1,y1,x2,y2\ndash,1,1,1,1\n", ""),
    ("window||POINT (2 2)", 0, "id\nnone\n", ""),
    (
        "bounds| Übersicht der Felder.CSV ",
        0,
        "id,x1,y1,x2,y2\nspaces,3,3,3,3\n",
        "",
    ),
];

const INPUT_THAT_IS_NOT_THERE: [Run; 1] = [("bounds|-", 1, "", "rjoin: layer: cannot be opened\n")];

#[test]
fn paths_as_they_stand(rt: HostRuntime) -> Result<(), Fail> {
    check(&rt, &PATHS, &PATHS_AS_THEY_STAND)
}

#[test]
fn input_that_is_not_there(rt: HostRuntime) -> Result<(), Fail> {
    check(&rt, &[], &INPUT_THAT_IS_NOT_THERE)
}
