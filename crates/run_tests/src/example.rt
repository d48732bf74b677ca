//! The files of the worked example, a join by touches, and its output.

pub const LEFT: &str = "id,wkt\na,\"POLYGON ((0 0, 4 0, 4 4, 0 4, 0 0))\"\n\
     b,POINT (4 4)\nc,\"LINESTRING (1 0, 3 0)\"\n";

pub const RIGHT: &str = "id,wkt\nx,\"POLYGON ((4 4, 8 4, 8 8, 4 8, 4 4))\"\n\
     y,\"POLYGON ((2 2, 6 2, 6 6, 2 6, 2 2))\"\n\
     z,\"LINESTRING (0 0, 5 0)\"\n";

pub const REPORT: &str = "left,right,matrix\na,x,FF2F01212\na,z,FF2101102\nb,x,F0FFFF212\n";

/// Edits that delete the first feature of the left layer and insert it after the others.
pub const EDITS: &str =
    "op,layer,id,wkt\ndelete,left,a,\ninsert,left,a,\"POLYGON ((0 0, 4 0, 4 4, 0 4, 0 0))\"\n";

/// The report after these edits.
pub const EDITED: &str = "left,right,matrix\nb,x,F0FFFF212\na,x,FF2F01212\na,z,FF2101102\n";
