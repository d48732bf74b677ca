//! Whether `--workers` is given `auto`, by which the `clap` definition is chosen.

ghost use Rattle.std.specs.Prelude.{◌≡◌, map, false};
ghost use Rattle.usage_core.specs.Usage.{auto_follows, has_auto, workers_value};

/// The values that `--workers` takes by a `clap` definition.
#[derive(Clone, Copy)]
pub(crate) enum WorkersValue {
    /// A number, which `clap` checks.
    Number,
    /// Any text.
    Text,
}

/// The values that `--workers` takes where these words are read: any text where it is `auto`, and
/// else a number, so that `clap` tells of any other word.
pub(crate) fn workers_value(words: &[&str]) -> WorkersValue
    ensures { result ≡ workers_value (map (λ word. word.now) words.now) }
{
    if has_auto(words) {
        WorkersValue::Text
    } else {
        WorkersValue::Number
    }
}

/// Whether `--workers` is given `auto`, before a word `--`.
fn has_auto(words: &[&str]) -> bool
    ensures { result ≡ has_auto false (map (λ word. word.now) words.now) }
{
    let mut is_named = false;
    for word in words {
        let word = *word;
        if word == "--" {
            return false;
        }
        if auto_follows(is_named, word) {
            return true;
        }
        is_named = word == "--workers";
    }
    false
}

/// Whether this word gives `auto` to `--workers`, which may be the word before it.
fn auto_follows(is_named: bool, word: &str) -> bool
    ensures { result ≡ auto_follows is_named word.now }
{
    word == "--workers=auto" || (is_named && word == "auto")
}
