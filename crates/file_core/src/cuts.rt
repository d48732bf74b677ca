//! Cutting a text of records into parts.

ghost use Rattle.std.specs.Prelude.{◌≡◌, ◌++◌};

/// The number of bytes before a place in which a cut is searched for.
const WINDOW: usize = 4096;

/// Splits the text into two parts, the first of which has about `near` bytes.
///
/// The cut is after a line feed, if there is one near, preferably one that follows a quote, since a
/// line feed within a quoted field seldom does. A wrong cut only costs time.
pub(crate) fn cut(text: &[u8], near: usize) -> (&[u8], &[u8])
    ensures { result.0.now ++ result.1.now ≡ text.now }
{
    let end = near.min(text.len());
    let start = end.saturating_sub(WINDOW);
    let place = start.saturating_add(last_end(&text[start..end]));
    text.split_at(place.min(text.len()))
}

/// The place after the last line feed that follows a quote, else after the last one, else 0.
fn last_end(window: &[u8]) -> usize {
    let mut last = 0;
    let mut quoted = 0;
    let mut before = 0;
    for (i, byte) in window.iter().enumerate() {
        if *byte == b'\n' {
            last = i + 1;
            if before == b'"' {
                quoted = last;
            }
        }
        if *byte != b'\r' {
            before = *byte;
        }
    }
    if quoted > 0 { quoted } else { last }
}

/// The greatest length in bytes of a text whose line feeds are counted in eight bits: less than
/// 256, and a multiple of the number of bytes that are compared at once.
const COUNTED: usize = 224;

/// The number of line feeds in a text.
pub(crate) fn line_feeds(text: &[u8]) -> usize {
    let mut count: usize = 0;
    for chunk in text.chunks(COUNTED) {
        count = count.wrapping_add(few_line_feeds(chunk).into());
    }
    count
}

/// The number of line feeds in a text of at most [`COUNTED`] bytes.
fn few_line_feeds(text: &[u8]) -> u8 {
    let mut count: u8 = 0;
    for byte in text {
        // An unchecked sum lets the compiler compare many bytes at once. It never wraps.
        count = count.wrapping_add((*byte == b'\n').into());
    }
    count
}
