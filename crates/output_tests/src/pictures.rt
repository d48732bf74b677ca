//! Pictures written by hand.

use crate::layers::{Row, picture_of};

/// The parts of a picture to compare: its height and that of the drawing in it, the counts of the
/// legend, and the drawing from the size of its frame to the end.
#[derive(Clone, Copy)]
struct Expected {
    heights: [&'static str; 2],
    counts: [&'static str; 3],
    drawing: &'static str,
}

/// The number after these words, up to this end.
fn count_after<'a>(text: &'a str, words: &str, end: &str) -> Option<&'a str> {
    let (_, rest) = text.split_once(words)?;
    let (count, _) = rest.split_once(end)?;
    Some(count)
}

/// The text after the legend, from the size of the frame.
fn drawing(text: &str) -> Option<&str> {
    let (_, rest) = text.split_once("</text>\n<svg ")?;
    let (_, drawing) = rest.split_once(" viewBox=\"0 0 ")?;
    Some(drawing)
}

/// Whether a picture and the drawing in it have these heights.
fn heights(text: &str, expected: [&str; 2]) -> bool {
    let shown = "\" viewBox=\"0 0 1000 ";
    let rest = text.strip_prefix(
        "<svg xmlns=\"http://www.w3.org/2000/svg\" version=\"1.1\" width=\"1000\" height=\"",
    );
    let rest = rest.and_then(|rest| rest.strip_prefix(expected[0]));
    let rest = rest.and_then(|rest| rest.strip_prefix(shown));
    rest.is_some_and(|rest| rest.starts_with(expected[0]))
        && count_after(text, "<svg y=\"40\" width=\"1000\" height=\"", "\"") == Some(expected[1])
}

/// Whether a legend has these counts.
fn counts(text: &str, expected: [&str; 3]) -> bool {
    count_after(text, "left features: ", "</text>") == Some(expected[0])
        && count_after(text, "right features: ", "</text>") == Some(expected[1])
        && count_after(text, "matching pairs: ", "</text>") == Some(expected[2])
}

/// Whether a picture has these parts, and starts as SVG.
fn says(text: &str, expected: &Expected) -> bool {
    heights(text, expected.heights)
        && counts(text, expected.counts)
        && drawing(text) == Some(expected.drawing)
}

/// A picture of a matching left and right point: SVG 1.1, with the style of its classes. The
/// colours are the blue and the vermillion of Okabe and Ito.
const WHOLE: &str = "<svg xmlns=\"http://www.w3.org/2000/svg\" version=\"1.1\" \
    width=\"1000\" height=\"1040\" viewBox=\"0 0 1000 1040\">\n\
    <style>text{font:16px sans-serif}\
    path{stroke-width:.1%;stroke-linecap:round;stroke-linejoin:round;fill-opacity:.06}\
    .point{stroke-width:.5%}\
    .match{stroke-width:.25%;fill-opacity:.24}\
    .point.match{stroke-width:.9%}\
    .left{fill:#0072B2;stroke:#0072B2}\
    .right{fill:#D55E00;stroke:#D55E00}</style>\n\
    <rect width=\"100%\" height=\"100%\" fill=\"#fff\"/>\n\
    <path class=\"left\" d=\"M20 12h16v16h-16z\"/>\
    <text x=\"46\" y=\"26\">left features: 1</text>\n\
    <path class=\"right\" d=\"M320 12h16v16h-16z\"/>\
    <text x=\"346\" y=\"26\">right features: 1</text>\n\
    <path class=\"left match\" d=\"M620 12h16v16h-16z\"/>\
    <path class=\"right match\" d=\"M642 12h16v16h-16z\"/>\
    <text x=\"668\" y=\"26\">matching pairs: 1</text>\n\
    <svg y=\"40\" width=\"1000\" height=\"1000\" \
    preserveAspectRatio=\"xMidYMin\" viewBox=\"0 0 2 2\">\n\
    <g class=\"left\">\n<path class=\"point match\" d=\"M1 1h0v0\"><title>a</title></path>\n</g>\n\
    <g class=\"right\">\n<path class=\"point match\" d=\"M1 1h0v0\"><title>b</title></path>\n</g>\n\
    </svg>\n</svg>\n";

#[test]
fn whole_picture(rt: HostRuntime) {
    let point = (4, 4, 4, 4);
    let text = picture_of(&rt, &[("a", point)], &[("b", point)], &[(0, 0)]);
    assert!(rt; text.is_some_and(|text| text.as_str() == WHOLE));
}

/// Whether the picture of these features and pairs has these parts.
fn draws(
    rt: &HostRuntime,
    left: &[Row<'_>],
    right: &[Row<'_>],
    pairs: &[(u32, u32)],
    expected: &Expected,
) -> bool {
    picture_of(rt, left, right, pairs).is_some_and(|text| says(text.as_str(), expected))
}

/// Without features the frame is around the origin, one unit on each side.
#[test]
fn nothing_drawn(rt: HostRuntime) {
    let expected = Expected {
        heights: ["1040", "1000"],
        counts: ["0", "0", "0"],
        drawing: "2 2\">\n<g class=\"left\">\n\
            </g>\n<g class=\"right\">\n\
            </g>\n</svg>\n</svg>\n",
    };
    assert!(rt; draws(&rt, &[], &[], &[], &expected));
}

/// One point is in the middle of a frame of two units.
#[test]
fn point_drawn(rt: HostRuntime) {
    let expected = Expected {
        heights: ["1040", "1000"],
        counts: ["0", "1", "0"],
        drawing: "2 2\">\n<g class=\"left\">\n\
            </g>\n<g class=\"right\">\n\
            <path class=\"point\" d=\"M1 1h0v0\"><title>p</title></path>\n\
            </g>\n</svg>\n</svg>\n",
    };
    assert!(rt; draws(&rt, &[], &[("p", (7, -3, 7, -3))], &[], &expected));
}

/// The cover goes from (0, -10) to (40, 20), so the margin is 40 / 20 + 1 = 3 and the corner of the
/// frame is (-3, 23). The frame is 46 wide and 36 high, so it is drawn 1,000 wide and 783 high. The
/// right layer's second feature is in two pairs, and its first is in none.
#[test]
fn matches_drawn(rt: HostRuntime) {
    let left = [
        ("road", (0, 5, 40, 5)),
        ("tree", (10, 20, 10, 20)),
        ("lake", (20, -10, 30, 0)),
    ];
    let right = [("wall", (5, 0, 5, 8)), ("park", (10, 0, 25, 20))];
    let expected = Expected {
        heights: ["823", "783"],
        counts: ["3", "2", "2"],
        drawing: "46 36\">\n<g class=\"left\">\n\
            <path d=\"M3 18h40v0\"><title>road</title></path>\n\
            <path class=\"point match\" d=\"M13 3h0v0\"><title>tree</title></path>\n\
            <path class=\"match\" d=\"M23 23h10v10h-10z\"><title>lake</title></path>\n\
            </g>\n<g class=\"right\">\n\
            <path d=\"M8 15h0v8\"><title>wall</title></path>\n\
            <path class=\"match\" d=\"M13 3h15v20h-15z\"><title>park</title></path>\n\
            </g>\n</svg>\n</svg>\n",
    };
    assert!(rt; draws(&rt, &left, &right, &[(1, 1), (2, 1)], &expected));
}

/// The whole plane: both lengths are 2 * 10^12, and the margin is a twentieth of that plus one.
#[test]
fn plane_drawn(rt: HostRuntime) {
    const FAR: i64 = 1_000_000_000_000;
    let expected = Expected {
        heights: ["1040", "1000"],
        counts: ["1", "1", "0"],
        drawing: "2200000000002 2200000000002\">\n<g class=\"left\">\n\
            <path d=\"M100000000001 100000000001\
            h2000000000000v2000000000000h-2000000000000z\"><title>all</title></path>\n\
            </g>\n<g class=\"right\">\n\
            <path class=\"point\" d=\"M2100000000001 2100000000001h0v0\">\
            <title>far</title></path>\n\
            </g>\n</svg>\n</svg>\n",
    };
    let left = [("all", (-FAR, -FAR, FAR, FAR))];
    let right = [("far", (FAR, -FAR, FAR, -FAR))];
    assert!(rt; draws(&rt, &left, &right, &[], &expected));
}

/// A vertical segment of 100 units: the margin is 6, and the frame is 12 wide and 112 high. It is
/// drawn at the greatest height, twice the width.
#[test]
fn tall_drawn(rt: HostRuntime) {
    let expected = Expected {
        heights: ["2040", "2000"],
        counts: ["1", "0", "0"],
        drawing: "12 112\">\n<g class=\"left\">\n\
            <path d=\"M6 6h0v100\"><title>mast</title></path>\n\
            </g>\n<g class=\"right\">\n\
            </g>\n</svg>\n</svg>\n",
    };
    assert!(rt; draws(&rt, &[("mast", (0, 0, 0, 100))], &[], &[], &expected));
}

/// XML 1.0, sections 2.2 and 2.4: markup as references, and U+FFFD for forbidden characters.
#[test]
fn ids_escaped(rt: HostRuntime) {
    let right = [
        ("a&b<c>\"d\" 'e'", (0, 0, 0, 0)),
        ("]]>", (0, 0, 0, 0)),
        ("\u{0}\u{8}\u{b}\u{1f}\u{fffe}\u{ffff}", (0, 0, 0, 0)),
        ("\t\n\r \u{7f}é€\u{fffd}\u{1ffff}", (0, 0, 0, 0)),
    ];
    let expected = Expected {
        heights: ["1040", "1000"],
        counts: ["0", "4", "0"],
        drawing: "2 2\">\n<g class=\"left\">\n\
            </g>\n<g class=\"right\">\n\
            <path class=\"point\" d=\"M1 1h0v0\">\
            <title>a&amp;b&lt;c&gt;&quot;d&quot; &apos;e&apos;</title></path>\n\
            <path class=\"point\" d=\"M1 1h0v0\"><title>]]&gt;</title></path>\n\
            <path class=\"point\" d=\"M1 1h0v0\">\
            <title>\u{fffd}\u{fffd}\u{fffd}\u{fffd}\u{fffd}\u{fffd}</title></path>\n\
            <path class=\"point\" d=\"M1 1h0v0\">\
            <title>\t\n\r \u{7f}é€\u{fffd}\u{1ffff}</title></path>\n\
            </g>\n</svg>\n</svg>\n",
    };
    assert!(rt; draws(&rt, &[], &right, &[], &expected));
}
