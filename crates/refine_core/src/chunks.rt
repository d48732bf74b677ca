//! The chunks of a list of pairs, which workers draw by their numbers.

ghost use Rattle.std.specs.Prelude.{◌≡◌, ◌*◌, ◌<◌, ◌≤◌, ℕ, length};
ghost use Rattle.refine_core.specs.Chunks.{most_chunks, chunk_size, chunk_of, IsChunkNumber};

/// The greatest number of chunks: many more than workers, so that a pair that takes long to decide
/// delays few others, and few enough that the cost per chunk is negligible.
const MAX_CHUNKS: usize = 4096;

/// The number of pairs in a chunk of a list of `len` pairs; the last chunk may have fewer.
fn chunk_size(len: usize) -> usize
    ensures { result ≡ chunk_size len }
{
    len / MAX_CHUNKS + 1
}

/// The number of chunks of a list of `len` pairs.
pub(crate) fn chunk_count(len: usize) -> u32
    ensures few { result ≤ most_chunks }
    ensures numbers { (number : ℕ) → number < result → IsChunkNumber len number }
    ensures all { len ≤ result * chunk_size len }
{
    len.div_ceil(chunk_size(len)) as u32
}

/// The chunk with this number.
pub(crate) fn chunk(pairs: &[(u32, u32)], number: u32) -> &[(u32, u32)]
    requires { IsChunkNumber (length pairs.now) number }
    ensures { result.now ≡ chunk_of pairs.now number }
{
    let size = chunk_size(pairs.len());
    let rest = &pairs[number as usize * size..];
    &rest[..size.min(rest.len())]
}
