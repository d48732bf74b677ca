//! The whole help texts of the program and of each command.

pub(crate) const OF_THE_PROGRAM: &str = "\
Joins two layers of geometries by a spatial relation

Usage: rjoin <COMMAND>

Commands:
  relate   Writes the DE-9IM matrix of two geometries
  join     Writes the pairs of features of two layers that stand in a relation
  near     Writes the pairs of features of two layers that are at most a distance apart
  nearest  Writes for each feature of a layer the nearest ones of another, with distances
  draw     Writes a picture of two layers and of the pairs that stand in a relation, as SVG
  window   Writes the ids of the features of a layer that meet a geometry
  stats    Counts the features of a layer by kind, and the levels of its tree
  bounds   Writes the corners of the features of a layer
  help     Print this message or the help of the given subcommand(s)

Options:
  -h, --help     Print help
  -V, --version  Print version

Layers are CSV files with the header id,wkt and one feature per row:
  id,wkt
  mill lane,\"LINESTRING (10 0, 10 10)\"
With --columns ID,GEOMETRY they may have any columns, of which these two are read.

Geometries are points, segments along an axis and rectangles, as well-known text:
  POINT (4 4)
  POLYGON ((0 0, 4 0, 4 4, 0 4, 0 0))
With --geometry any they are points, polylines and polygons of any direction, and MULTI forms.

A coordinate has no decimals, or up to K with --scale K; counted in units of the last decimal, its
absolute value is at most 1000000000000, or 1000000000000000000 with --geometry any. With --round
it may have any number of decimals, and an exponent as in 1.5e-7; it is read as the nearest one of K
decimals, a half away from zero.

The path - stands for standard input, for at most one file of a command.

Exit status:
  0  success: the output is written
  1  a fault of input, output, memory, threads or hashing keys, reported on standard error
  2  the arguments are invalid

rjoin COMMAND --help gives details.
";

pub(crate) const OF_RELATE: &str = "\
Writes the DE-9IM matrix of two geometries

Usage: rjoin relate [OPTIONS] <A> <B>

Arguments:
  <A>  First geometry, as well-known text
  <B>  Second geometry, as well-known text

Options:
      --scale <scale>        Decimals of a coordinate, 0 to 6; any geometry 0 to 15 [default: 0]
      --round                Read each number as the nearest one of these decimals
      --geometry <geometry>  Kind of the geometries, box or any [default: box]
      --rings <rings>        Rings that --geometry any accepts, proper (the default) or even-odd
  -h, --help                 Print help

Geometries are points, segments along an axis and rectangles:
  POINT (4 4)    LINESTRING (1 0, 3 0)
  POLYGON ((0 0, 4 0, 4 4, 0 4, 0 0))

With --geometry any they are points, polylines and polygons of any direction, and MULTI forms:
  LINESTRING (0 0, 3 2, 5 2)    MULTIPOINT (1 1, 2 2)
  MULTIPOLYGON (((0 0, 4 0, 0 4, 0 0)), ((9 9, 8 9, 9 8, 9 9)))
Rings that cross or run along each other are refused. --rings even-odd accepts any closed
rings: a point that lies on none is inside if a ray from it crosses them an odd number of times.

The nine letters are those of DE-9IM, in three rows of three: interior, boundary and exterior of A,
each with interior, boundary and exterior of B. F means that the two share nothing, and 0, 1 or 2
that they share points, lines or areas.

Exit status: 0 for success, 1 for a fault of a text or of the output, 2 for invalid arguments
";

pub(crate) const OF_JOIN: &str = "\
Writes the pairs of features of two layers that stand in a relation

Usage: rjoin join [OPTIONS] --relation <relation> <LEFT> <RIGHT>

Arguments:
  <LEFT>   CSV file of the left layer
  <RIGHT>  CSV file of the right layer

Options:
      --relation <relation>    Name of a relation, or mask of nine letters
      --pairs                  Write the two ids of each pair, without the matrix
      --first                  Write the first pair of each left feature alone
      --count                  Write the number of pairs of each left feature in place of the pairs
      --unmatched              Write the left features without a pair in place of the pairs
      --edits <edits>          CSV file of edits, which are applied before the join
      --skip <skip>            CSV file for rows whose geometry can't be read, which are left out
      --workers <workers>      Number of threads, 1 to 16, or auto for one per processor [default: 4]
      --batch <batch>          Pairs per batch, 1 to 4096 [default: 256]
      --cut <cut>              Rounds of cutting the trees into tasks, 0 to 8 [default: 2]
      --scale <scale>          Decimals of a coordinate, 0 to 6; any geometry 0 to 15 [default: 0]
      --round                  Read each number as the nearest one of these decimals
      --geometry <geometry>    Kind of the geometries, box or any [default: box]
      --rings <rings>          Rings that --geometry any accepts, proper (the default) or even-odd
      --columns <columns>      Names of a layer's columns, ID,GEOMETRY or GEOMETRY
      --delimiter <delimiter>  Character between a layer's fields, \",\" (the default), \";\" or tab
      --left-columns <names>   Names of the left layer's columns, in place of --columns
      --right-columns <names>  Names of the right layer's columns, in place of --columns
      --left-delimiter <sep>   Character between the left layer's fields, in place of --delimiter
      --right-delimiter <sep>  Character between the right layer's fields, in place of --delimiter
  -h, --help                   Print help

A layer is a CSV file such as             Edits are a CSV file such as
  id,wkt                                    op,layer,id,wkt
  mill,\"LINESTRING (10 0, 10 10)\"           insert,left,inn,POINT (4 4)

With --columns ID,GEOMETRY a layer may have any columns, of which these two are read; with
--columns GEOMETRY the id of a row is its number. An option of one side, as --left-columns or
--right-delimiter, stands for that layer in place of the one for both.

The path - stands for standard input, for at most one of the files.

Geometries are points, segments along an axis and rectangles. With --geometry any they are points,
polylines and polygons of any direction, and MULTI forms; rings that cross or run along each other
are refused, and --rings even-odd accepts any closed rings, as rjoin relate --help describes.

Relations of a left feature to a right one:
  intersects  they share a point
  touches     they share a point, and their interiors share none
  crosses     different dimensions: their interiors share a point, and the one of lower dimension
              also has points outside the other; two lines: their interiors share isolated points
  within      the left one lies in the right one, and their interiors share a point
  contains    the right one lies in the left one, and their interiors share a point
  overlaps    equal dimensions, which the intersection of their interiors has too, and each also
              has points outside the other
  equals      they are the same set of points
  covers      each point of the right one is a point of the left one
  covered_by  each point of the left one is a point of the right one
  contains_properly
              each point of the right one is in the interior of the left one
  disjoint    they share no point: refused, like each mask that disjoint features may fit
A mask of nine letters may replace the name, with one for each letter of the matrix: T asks for
0, 1 or 2, and F, 0, 1 and 2 for that letter; * allows any.

The report is CSV: left,right,matrix, and for each pair the two ids and the nine letters of DE-9IM,
in three rows of three: interior, boundary and exterior of the left one, each with interior,
boundary and exterior of the right one. F means that the two share nothing, and 0, 1 or 2 that they
share points, lines or areas. With --pairs it is left,right and the two ids. It is in the order of
the left file, then in that of the right file, and with --first it has the first pair of each left
feature alone. Neither --workers nor --batch nor --cut changes what is written.

In place of the report, --count writes left,count, and for each left feature its id and the number
of its pairs, and --unmatched writes left, and the id of each left feature without a pair, both in
the order of the left file. Edits that insert a feature put it behind those of the file.

A row whose geometry can't be read is a fault of its file. With --skip FILE such rows are left out:
FILE then lists them as CSV, side,row,id,fault, and a line on standard error counts them. FILE is
written before the report, whole or not at all, and replaces what is there.

Exit status: 0 for success, 1 for a fault of a file, output, memory, threads or hashing keys, 2 for
invalid arguments
";

pub(crate) const OF_NEAR: &str = "\
Writes the pairs of features of two layers that are at most a distance apart

Usage: rjoin near [OPTIONS] --distance <distance> <LEFT> <RIGHT>

Arguments:
  <LEFT>   CSV file of the left layer
  <RIGHT>  CSV file of the right layer

Options:
      --distance <distance>    Greatest distance of a pair, read as a coordinate is
      --apart                  Leave out pairs that share a point
      --edits <edits>          CSV file of edits, which are applied before the join
      --skip <skip>            CSV file for rows whose geometry can't be read, which are left out
      --workers <workers>      Number of threads, 1 to 16, or auto for one per processor [default: 4]
      --batch <batch>          Pairs per batch, 1 to 4096 [default: 256]
      --cut <cut>              Rounds of cutting the trees into tasks, 0 to 8 [default: 2]
      --scale <scale>          Decimals of a coordinate, 0 to 6; any geometry 0 to 15 [default: 0]
      --round                  Read each number as the nearest one of these decimals
      --geometry <geometry>    Kind of the geometries, box or any [default: box]
      --rings <rings>          Rings that --geometry any accepts, proper (the default) or even-odd
      --columns <columns>      Names of a layer's columns, ID,GEOMETRY or GEOMETRY
      --delimiter <delimiter>  Character between a layer's fields, \",\" (the default), \";\" or tab
      --left-columns <names>   Names of the left layer's columns, in place of --columns
      --right-columns <names>  Names of the right layer's columns, in place of --columns
      --left-delimiter <sep>   Character between the left layer's fields, in place of --delimiter
      --right-delimiter <sep>  Character between the right layer's fields, in place of --delimiter
  -h, --help                   Print help

A layer is a CSV file such as             Edits are a CSV file such as
  id,wkt                                    op,layer,id,wkt
  mill,\"LINESTRING (10 0, 10 10)\"           insert,left,inn,POINT (4 4)

With --columns ID,GEOMETRY a layer may have any columns, of which these two are read; with
--columns GEOMETRY the id of a row is its number. An option of one side, as --left-columns or
--right-delimiter, stands for that layer in place of the one for both.

The path - stands for standard input, for at most one of the files.

Geometries are points, segments along an axis and rectangles. With --geometry any they are points,
polylines and polygons of any direction, and MULTI forms; rings that cross or run along each other
are refused, and --rings even-odd accepts any closed rings, as rjoin relate --help describes.

The distance of two features is the least distance of a point of the left one and a point of the
right one, and 0 if they share a point. The report has the pairs whose distance is at most that of
--distance, which is decided exactly, and with --apart only those that share no point.

The number after --distance is read as a coordinate is, with --scale and --round, and is 0 to
4000000000000 units of the last decimal, or to 4000000000000000000 with --geometry any.

The report is CSV: left,right,distance, and for each pair the two ids and the distance, rounded to
the nearest unit of the last decimal. Neither --workers nor --batch nor --cut changes the report.

A row whose geometry can't be read is a fault of its file. With --skip FILE such rows are left out:
FILE then lists them as CSV, side,row,id,fault, and a line on standard error counts them. FILE is
written before the report, whole or not at all, and replaces what is there.

For example,
  rjoin near data/stations.csv data/roads.csv --distance 5 --apart
writes
  left,right,distance
  mill,church path,5
  church,mill lane,5
  junction,church path,1
  junction,north road,5

Exit status: 0 for success, 1 for a fault of a file, output, memory, threads or hashing keys, 2 for
invalid arguments
";

pub(crate) const OF_NEAREST: &str = "\
Writes for each feature of a layer the nearest ones of another, with distances

Usage: rjoin nearest [OPTIONS] <LEFT> <RIGHT>

Arguments:
  <LEFT>   CSV file of the left layer
  <RIGHT>  CSV file of the right layer

Options:
      --most <most>            Number of nearest features sought for each left one [default: 1]
      --distance <distance>    Greatest distance of a pair, read as a coordinate is
      --edits <edits>          CSV file of edits, which are applied before the join
      --skip <skip>            CSV file for rows whose geometry can't be read, which are left out
      --workers <workers>      Number of threads, 1 to 16, or auto for one per processor [default: 4]
      --batch <batch>          Pairs per batch, 1 to 4096 [default: 256]
      --cut <cut>              Rounds of cutting the trees into tasks, 0 to 8 [default: 2]
      --scale <scale>          Decimals of a coordinate, 0 to 6; any geometry 0 to 15 [default: 0]
      --round                  Read each number as the nearest one of these decimals
      --geometry <geometry>    Kind of the geometries, box or any [default: box]
      --rings <rings>          Rings that --geometry any accepts, proper (the default) or even-odd
      --columns <columns>      Names of a layer's columns, ID,GEOMETRY or GEOMETRY
      --delimiter <delimiter>  Character between a layer's fields, \",\" (the default), \";\" or tab
      --left-columns <names>   Names of the left layer's columns, in place of --columns
      --right-columns <names>  Names of the right layer's columns, in place of --columns
      --left-delimiter <sep>   Character between the left layer's fields, in place of --delimiter
      --right-delimiter <sep>  Character between the right layer's fields, in place of --delimiter
  -h, --help                   Print help

A layer is a CSV file such as             Edits are a CSV file such as
  id,wkt                                    op,layer,id,wkt
  mill,\"LINESTRING (10 0, 10 10)\"           insert,left,inn,POINT (4 4)

With --columns ID,GEOMETRY a layer may have any columns, of which these two are read; with
--columns GEOMETRY the id of a row is its number. An option of one side, as --left-columns or
--right-delimiter, stands for that layer in place of the one for both.

The path - stands for standard input, for at most one of the files.

Geometries are points, segments along an axis and rectangles. With --geometry any they are points,
polylines and polygons of any direction, and MULTI forms; rings that cross or run along each other
are refused, and --rings even-odd accepts any closed rings, as rjoin relate --help describes.

The distance of two features is the least distance of a point of the left one and a point of the
right one, and 0 if they share a point. For each left feature the report has as many of the nearest
right ones as --most says, and all that are as far away as the last of these; with --distance only
those that are at most so far away. Distances are compared exactly.

The number after --distance is read as a coordinate is, with --scale and --round, and is 0 to
4000000000000 units of the last decimal, or to 4000000000000000000 with --geometry any.

The report is CSV: left,right,distance, and for each pair the two ids and the distance, rounded to
the nearest unit of the last decimal. It is in the order of the left file, then by distance, then in
the order of the right file. Neither --workers nor --batch nor --cut changes the report.

A row whose geometry can't be read is a fault of its file. With --skip FILE such rows are left out:
FILE then lists them as CSV, side,row,id,fault, and a line on standard error counts them. FILE is
written before the report, whole or not at all, and replaces what is there.

For example,
  rjoin nearest data/stations.csv data/roads.csv --most 2
writes
  left,right,distance
  mill,mill lane,0
  mill,church path,5
  church,church path,0
  church,mill lane,5
  junction,high street,0
  junction,church path,1

Exit status: 0 for success, 1 for a fault of a file, output, memory, threads or hashing keys, 2 for
invalid arguments
";

pub(crate) const OF_DRAW: &str = "\
Writes a picture of two layers and of the pairs that stand in a relation, as SVG

Usage: rjoin draw [OPTIONS] --relation <relation> <LEFT> <RIGHT>

Arguments:
  <LEFT>   CSV file of the left layer
  <RIGHT>  CSV file of the right layer

Options:
      --relation <relation>    Name of a relation, or mask of nine letters
      --edits <edits>          CSV file of edits, which are applied before the join
      --skip <skip>            CSV file for rows whose geometry can't be read, which are left out
      --workers <workers>      Number of threads, 1 to 16, or auto for one per processor [default: 4]
      --batch <batch>          Pairs per batch, 1 to 4096 [default: 256]
      --cut <cut>              Rounds of cutting the trees into tasks, 0 to 8 [default: 2]
      --scale <scale>          Decimals of a coordinate, 0 to 6; any geometry 0 to 15 [default: 0]
      --round                  Read each number as the nearest one of these decimals
      --geometry <geometry>    Kind of the geometries, box or any [default: box]
      --rings <rings>          Rings that --geometry any accepts, proper (the default) or even-odd
      --columns <columns>      Names of a layer's columns, ID,GEOMETRY or GEOMETRY
      --delimiter <delimiter>  Character between a layer's fields, \",\" (the default), \";\" or tab
      --left-columns <names>   Names of the left layer's columns, in place of --columns
      --right-columns <names>  Names of the right layer's columns, in place of --columns
      --left-delimiter <sep>   Character between the left layer's fields, in place of --delimiter
      --right-delimiter <sep>  Character between the right layer's fields, in place of --delimiter
  -h, --help                   Print help

The layers are read, edited and joined as by rjoin join; its --help describes files, geometries,
relations and --skip.

The picture is SVG 1.1, which browsers show: the second axis upwards, left features in blue and
right ones in orange, those that occur in a pair highlighted by stronger lines and fills, each with
its id as a title that appears under the pointer. A legend counts features and pairs:
  rjoin draw parcels.csv roads.csv --relation touches > picture.svg

Layers with more than 100000 features together, after the edits, are refused. Neither --workers nor
--batch nor --cut changes the picture.

Exit status: 0 for success, 1 for a fault of a file, output, memory, threads or hashing keys, or too
many features, 2 for invalid arguments
";

pub(crate) const OF_WINDOW: &str = "\
Writes the ids of the features of a layer that meet a geometry

Usage: rjoin window [OPTIONS] <LAYER> <WKT>

Arguments:
  <LAYER>  CSV file of the layer
  <WKT>    Geometry of the window, as well-known text

Options:
      --scale <scale>          Decimals of a coordinate, 0 to 6; any geometry 0 to 15 [default: 0]
      --round                  Read each number as the nearest one of these decimals
      --geometry <geometry>    Kind of the geometries, box or any [default: box]
      --rings <rings>          Rings that --geometry any accepts, proper (the default) or even-odd
      --columns <columns>      Names of a layer's columns, ID,GEOMETRY or GEOMETRY
      --delimiter <delimiter>  Character between a layer's fields, \",\" (the default), \";\" or tab
  -h, --help                   Print help

A layer is a CSV file such as
  id,wkt
  mill lane,\"LINESTRING (10 0, 10 10)\"
With --columns ID,GEOMETRY a layer may have any columns, of which these two are read; with
--columns GEOMETRY the id of a row is its number.
The path - stands for standard input.

Geometries are points, segments along an axis and rectangles. With --geometry any the features and
the window are points, polylines and polygons of any direction, and MULTI forms. Rings that cross or
run along each other are refused; --rings even-odd accepts any closed rings.

A feature meets the window if they share a point. The output is CSV: id, and then the ids in the
order of the file.

Exit status: 0 for success, 1 for a fault of the file, WKT, output, memory or hashing keys, 2 for
invalid arguments
";

pub(crate) const OF_STATS: &str = "\
Counts the features of a layer by kind, and the levels of its tree

Usage: rjoin stats [OPTIONS] <LAYER>

Arguments:
  <LAYER>  CSV file of the layer

Options:
      --scale <scale>          Decimals of a coordinate, 0 to 6; any geometry 0 to 15 [default: 0]
      --round                  Read each number as the nearest one of these decimals
      --geometry <geometry>    Kind of the geometries, box or any [default: box]
      --rings <rings>          Rings that --geometry any accepts, proper (the default) or even-odd
      --columns <columns>      Names of a layer's columns, ID,GEOMETRY or GEOMETRY
      --delimiter <delimiter>  Character between a layer's fields, \",\" (the default), \";\" or tab
  -h, --help                   Print help

A layer is a CSV file such as
  id,wkt
  mill lane,\"LINESTRING (10 0, 10 10)\"
With --columns ID,GEOMETRY a layer may have any columns, of which these two are read; with
--columns GEOMETRY the id of a row is its number.
The path - stands for standard input.

Geometries are points, segments along an axis and rectangles. With --geometry any they are points,
polylines and polygons of any direction, and MULTI forms. Rings that cross or run along each other
are refused; --rings even-odd accepts any closed rings.

The output has five lines: features, points, segments, rectangles and height, each with a number.
With --geometry any it has six: features, points, lines, areas, vertices and height.

Exit status: 0 for success, 1 for a fault of the file, output, memory or hashing keys, 2 for
invalid arguments
";

pub(crate) const OF_BOUNDS: &str = "\
Writes the corners of the features of a layer

Usage: rjoin bounds [OPTIONS] <LAYER>

Arguments:
  <LAYER>  CSV file of the layer

Options:
      --scale <scale>          Decimals of a coordinate, 0 to 6; any geometry 0 to 15 [default: 0]
      --round                  Read each number as the nearest one of these decimals
      --geometry <geometry>    Kind of the geometries, box or any [default: box]
      --rings <rings>          Rings that --geometry any accepts, proper (the default) or even-odd
      --columns <columns>      Names of a layer's columns, ID,GEOMETRY or GEOMETRY
      --delimiter <delimiter>  Character between a layer's fields, \",\" (the default), \";\" or tab
  -h, --help                   Print help

A layer is a CSV file such as
  id,wkt
  mill lane,\"LINESTRING (10 0, 10 10)\"
With --columns ID,GEOMETRY a layer may have any columns, of which these two are read; with
--columns GEOMETRY the id of a row is its number.
The path - stands for standard input.

Geometries are points, segments along an axis and rectangles. With --geometry any they are points,
polylines and polygons of any direction, and MULTI forms. Rings that cross or run along each other
are refused; --rings even-odd accepts any closed rings.

The output is CSV: id,x1,y1,x2,y2, and for each feature, in the order of the file, its id and its
least and greatest coordinates. They are whole numbers of units of the last decimal: with
--scale 2, 12.5 is written as 1250.

Exit status: 0 for success, 1 for a fault of the file, output, memory or hashing keys, 2 for
invalid arguments
";
