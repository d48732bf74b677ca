//! The tokens of a text other than numbers: white space, words and symbols.

ghost use Rattle.std.specs.Prelude.{◌≡◌, ℕ, List, IfSome, IfNone};
ghost use Rattle.wkt_core.specs.Grammar.{is_blank};
ghost use Rattle.wkt_core.specs.TokenSteps.{skip, gap_at, symbol_at, rest_view};
ghost use Rattle.wkt_core.specs.TokenSteps.{TakesLetters, StandsNext};

/// Whether the byte is a space, tab, carriage return or line feed.
#[inline(always)]
fn is_blank(byte: u8) -> bool
    ensures { result ≡ is_blank byte }
{
    matches!(byte, b' ' | b'\t' | b'\r' | b'\n')
}

/// The text after its leading white space, of any length.
#[cold]
#[inline(never)]
fn skip_all_blanks(mut text: &[u8]) -> &[u8]
    ensures { result.now ≡ skip text.now }
{
    while let [first, rest @ ..] = text
        && is_blank(*first)
    {
        text = rest;
    }
    text
}

/// The text after its leading white space.
#[inline(always)]
pub fn skip_blanks(text: &[u8]) -> &[u8]
    ensures { result.now ≡ skip text.now }
{
    // Mostly there is no or one space, and every byte of white space is at most a space.
    match text {
        [] => text,
        [first, ..] if *first > b' ' => text,
        [b' ', second, ..] if *second > b' ' => &text[1..],
        _ => skip_all_blanks(text),
    }
}

/// The text after its leading white space, or `None` if it has none.
#[inline(always)]
pub(crate) fn skip_gap(text: &[u8]) -> Option<&[u8]>
    ensures { rest_view result ≡ gap_at text.now }
{
    match text {
        [first, rest @ ..] if is_blank(*first) => Some(skip_blanks(rest)),
        _ => None,
    }
}

/// The text after this byte, or `None` if it doesn't start with it.
#[inline(always)]
pub fn skip_symbol(text: &[u8], symbol: u8) -> Option<&[u8]>
    ensures { rest_view result ≡ symbol_at symbol text.now }
{
    match text {
        [first, rest @ ..] if *first == symbol => Some(rest),
        _ => None,
    }
}

/// The token after an item of a list, a comma or the closing parenthesis, with the text after it.
pub enum Next<'a> {
    Item(&'a [u8]),
    End(&'a [u8]),
}

/// The token after an item, without white space before it.
#[inline(always)]
fn read_symbol(text: &[u8]) -> Option<Next<'_>>
    ensures { StandsNext text.now result }
{
    match text {
        [b',', rest @ ..] => Some(Next::Item(rest)),
        [b')', rest @ ..] => Some(Next::End(rest)),
        _ => None,
    }
}

/// The token after an item and its white space, of which there mostly is none.
#[inline(always)]
pub fn read_next(text: &[u8]) -> Option<Next<'_>>
    // the text behind a comma or a closing parenthesis and the white space before it, or none where
    // neither stands there
    ensures { StandsNext (skip text.now) result }
{
    match read_symbol(text) {
        Some(next) => Some(next),
        None => read_symbol(skip_all_blanks(text)),
    }
}

/// The text after this word in any ASCII case, or `None` if it doesn't start with it.
#[inline(always)]
pub fn skip_word<'a>(text: &'a [u8], word: &[u8]) -> Option<&'a [u8]>
    // the text behind this word, in any case
    ensures some { IfSome result (λ rest. TakesLetters word.now text.now rest.now) }
    // only where it doesn't stand there
    ensures none { IfNone result ((rest : List ℕ) → TakesLetters word.now text.now rest → ⊥) }
{
    let (front, rest) = text.split_at_checked(word.len())?;
    if front.eq_ignore_ascii_case(word) {
        Some(rest)
    } else {
        None
    }
}
