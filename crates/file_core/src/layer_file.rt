//! CSV files of layers.

ghost use Rattle.std.specs.Prelude.{◌≡◌, ◌≢◌, ◌≤◌, ◌↔◌, false, Ok, Err, All, IsErrOf, IsTrue};
ghost use Rattle.std.specs.Prelude.{IfOk, IfErr, IfSome};
ghost use Rattle.file_core.specs.Batches.{CanNumber, IsBatch, UnreadGive, after_rows, all_rows};
ghost use Rattle.row_core.specs.LayerRows.{HasId, form_of};
ghost use Rattle.file_core.specs.Batches.{if_loaded, with_rows};
ghost use Rattle.file_core.specs.LayerFiles.{IsLayerFile, list_read};
ghost use Rattle.file_core.specs.SkippedRows.{LoadsFile, loaded_of, loaded_or, rows_in};
ghost use Rattle.file_core.specs.SkippedRows.{with_skipped_or};
ghost use Rattle.row_core.specs.Unread.{IsUnread, count_unread};
ghost use Rattle.layer_core.specs.Limits.{most_features};

use crate::batch::{Batch, Crew, MIN_THREADED_BYTES, add_and_read, read_next};
use crate::cuts::line_feeds;
use crate::insertion::add_parts;
use crate::loading::{Loading, begin};
use crate::skipped::{Unreadable, WithSkipped};
use format_core::Format;
use layer_core::{FeatureList, Geometry, Layer, MAX_FEATURES};
use layer_edit_core::FeatureListBuilder;
use row_core::{LayerRowReader, ReadFault, Source, Unread, read_all};
use std::alloc::Global;
use std::hash::RandomState;
use std::thread::Threads;

/// The number of bytes at the start of a file from which its number of rows is estimated.
const SAMPLE: usize = 65_536;

/// A reader of the files of layers, by one thread or by several.
///
/// If `threads` is more than 1 and a file isn't small, several threads read parts of it ahead while
/// another inserts the rows before them. The result is the same.
#[derive(Drop)]
pub struct LayerReader<'r, F, R> {
    pub rt: &'r R,
    pub alloc: Global,
    /// How the files are laid out, and how their geometries read.
    pub format: F,
    pub threads: u32,
}

impl<F: Format, R: Threads + Sync> LayerReader<'_, F, R> {
    /// The features of a layer's CSV file. `state` hashes the ids.
    ///
    /// The file has records of fields with double quotes if needed (RFC 4180), with line ends LF or
    /// CR LF, and between fields the character of the format's layout. Its header has the columns of
    /// the layout, `id,wkt` or any columns among which are the named ones, in any ASCII case, with
    /// or without a byte order mark before it. Each row inserts a feature, by
    /// [`FeatureListBuilder::add`], whose id is the row's number where the file has no ids.
    ///
    /// # Errors
    /// [`ReadFault::TooLong`] and [`ReadFault::Header`], in this order, and then the fault of the
    /// first row that has one: [`ReadFault::Row`] if it hasn't as many fields as the header, else
    /// [`LayerFault::BadId`], else that of the geometry's text, which is [`ReadFault::Wkt`] or
    /// [`ReadFault::Geometry`], else [`LayerFault::DoubleId`], else [`LayerFault::LayerFull`].
    /// [`ReadFault::Memory`] may come in place of any other.
    pub fn features_of_bytes(
        &self,
        state: RandomState,
        bytes: &[u8],
    ) -> Result<FeatureList<F::Geometry>, ReadFault>
        // for any number of threads, exactly the features or the first fault that the CSV records
        // give by the format of their geometries, unless memory is refused
        ensures file { result ≢ Err ReadFault.Memory
            → IsLayerFile (F.reads self.now.format) bytes.now result }
        // never `Io`
        ensures no_io { result ≢ Err ReadFault.Io }
    {
        let loading = self.load(Unreadable::Refuse, state, bytes)?;
        Ok(loading.features.finish()?)
    }

    /// The layer of a CSV file, read as by [`LayerReader::features_of_bytes`]. At most `threads`
    /// threads pack its tree.
    ///
    /// # Errors
    /// Those of [`LayerReader::features_of_bytes`].
    pub fn layer_of_bytes(
        &self,
        state: RandomState,
        bytes: Vec<u8>,
    ) -> Result<Layer<F::Geometry>, ReadFault>
        // the same of the layer of these features
        ensures file { result ≢ Err ReadFault.Memory
            → IsLayerFile (F.reads self.now.format) bytes.items (list_read result) }
        ensures no_io { result ≢ Err ReadFault.Io }
    {
        let loading = self.features_of_bytes(state, bytes.as_slice())?;
        let threads = self.threads_for(bytes.as_slice());
        // The file's memory is freed before the tree is packed.
        drop(bytes);
        Ok(loading.finish_by_threads(self.alloc, threads, self.rt)?)
    }

    /// The layer of a file, which is read from a source that hasn't failed.
    ///
    /// # Errors
    /// Those of [`read_all`], and then those of [`LayerReader::layer_of_bytes`].
    pub fn read_layer<S: Source>(
        &self,
        state: RandomState,
        source: &mut S,
    ) -> Result<Layer<F::Geometry>, ReadFault>
        requires { S.has_failed source.old ≡ false }
        // `Io` exactly where the reader has failed
        ensures io { IsErrOf result ReadFault.Io ↔ IsTrue (S.has_failed source.new) }
        // as of its bytes
        ensures file { result ≢ Err ReadFault.Io → result ≢ Err ReadFault.Memory
            → IfSome (S.remaining source.old)
            (λ bytes. IsLayerFile (F.reads self.now.format) bytes (list_read result)) }
    {
        let bytes = read_all(self.alloc, self.format.limits(), source)?;
        self.layer_of_bytes(state, bytes)
    }

    /// The features of a layer's CSV file, and the rows that were skipped, in file order: where
    /// `unreadable` is [`Unreadable::Skip`], those whose geometry can't be read. They aren't in the
    /// layer: they don't count towards its greatest number of features, and a later row may have
    /// the id of one.
    ///
    /// # Errors
    /// Those of [`LayerReader::features_of_bytes`], except that of a geometry's text where such
    /// rows are skipped.
    pub fn load_features(
        &self,
        unreadable: Unreadable,
        state: RandomState,
        bytes: &[u8],
    ) -> Result<WithSkipped<FeatureList<F::Geometry>>, ReadFault>
        // where rows are skipped, for any number of threads, exactly the features of the rows whose
        // geometry reads, and exactly the other rows, in file order, each with its number, its id
        // and the fault of its text; or the first fault of another kind, unless memory is refused;
        // where none is skipped, as `LayerReader::features_of_bytes`
        ensures file { result ≢ Err ReadFault.Memory
            → LoadsFile (F.reads self.now.format) unreadable bytes.now
            (with_skipped_or unreadable (λ features. features) result) }
        // never `Io`
        ensures no_io { result ≢ Err ReadFault.Io }
    {
        let Loading {
            features,
            skipped,
            ..
        } = self.load(unreadable, state, bytes)?;
        Ok(WithSkipped {
            read: features.finish()?,
            skipped,
        })
    }

    /// The layer of a CSV file, and the rows that were skipped, as by
    /// [`LayerReader::load_features`]. At most `threads` threads pack its tree.
    ///
    /// # Errors
    /// Those of [`LayerReader::load_features`].
    pub fn load_layer(
        &self,
        unreadable: Unreadable,
        state: RandomState,
        bytes: Vec<u8>,
    ) -> Result<WithSkipped<Layer<F::Geometry>>, ReadFault>
        // the same of the layer of these features
        ensures file { result ≢ Err ReadFault.Memory
            → LoadsFile (F.reads self.now.format) unreadable bytes.items
            (with_skipped_or unreadable (λ layer. layer.list) result) }
        ensures no_io { result ≢ Err ReadFault.Io }
    {
        let loaded = self.load_features(unreadable, state, bytes.as_slice())?;
        let WithSkipped { read, skipped } = loaded;
        let threads = self.threads_for(bytes.as_slice());
        // The file's memory is freed before the tree is packed.
        drop(bytes);
        Ok(WithSkipped {
            read: read.finish_by_threads(self.alloc, threads, self.rt)?,
            skipped,
        })
    }

    /// The rows of a file, of which those that can't be read are refused or skipped.
    fn load(
        &self,
        unreadable: Unreadable,
        state: RandomState,
        bytes: &[u8],
    ) -> Result<Loading<FeatureListBuilder<F::Geometry>>, ReadFault>
        ensures file { result ≢ Err ReadFault.Memory
            → LoadsFile (F.reads self.now.format) unreadable bytes.now (loaded_or result) }
        ensures no_io { result ≢ Err ReadFault.Io }
    {
        let crew = Crew {
            rt: self.rt,
            threads: self.threads_for(bytes),
        };
        load(self.alloc, self.format, &crew, unreadable, state, bytes)
    }

    /// The number of threads for a file of these bytes: 1 if they are few.
    fn threads_for(&self, bytes: &[u8]) -> u32 {
        if bytes.len() >= MIN_THREADED_BYTES {
            self.threads
        } else {
            1
        }
    }
}

/// The rows of a file in this format.
fn load<F: Format, R: Threads + Sync>(
    alloc: Global,
    format: F,
    crew: &Crew<'_, R>,
    unreadable: Unreadable,
    state: RandomState,
    bytes: &[u8],
) -> Result<Loading<FeatureListBuilder<F::Geometry>>, ReadFault>
    ensures file { result ≢ Err ReadFault.Memory
        → LoadsFile (F.reads format) unreadable bytes.now (loaded_or result) }
    ensures no_io { result ≢ Err ReadFault.Io }
{
    let (unread, places) = Unread::open(alloc, format.limits(), bytes, format.layout())?;
    let loading = begin(alloc, state, unreadable, likely_rows(bytes))?;
    let reader = LayerRowReader {
        alloc,
        format,
        places,
    };
    add_all(reader, crew, loading, unread)
}

/// The rows before, with those that aren't read yet added, batch by batch.
fn add_all<F: Format, R: Threads + Sync>(
    reader: LayerRowReader<F>,
    crew: &Crew<'_, R>,
    loading: Loading<FeatureListBuilder<F::Geometry>>,
    unread: Unread<'_>,
) -> Result<Loading<FeatureListBuilder<F::Geometry>>, ReadFault>
    requires reading { IsUnread unread }
    requires next { count_unread unread ≡ rows_in (loaded_of loading) }
    ensures rows { result ≢ Err ReadFault.Memory → UnreadGive (form_of F.reads reader)
        unread.entry (loaded_of loading) (loaded_or result) }
    ensures no_io { result ≢ Err ReadFault.Io }
{
    let (unread, batch) = read_next(reader, crew, unread);
    let mut round = Round {
        loading,
        unread,
        batch,
    };
    while let Ok(true) = round.batch.more {
        round = next_round(reader, crew, round)?;
    }
    let Round { loading, batch, .. } = round;
    add_last(loading, batch)
}

/// The state of reading a file: the rows added, the batch after them, and the unread rest.
#[derive(Drop)]
struct Round<'a, G: Geometry> {
    loading: Loading<FeatureListBuilder<G>>,
    batch: Batch<G>,
    unread: Unread<'a>,
}

/// Adds the rows of a batch, and reads the next one.
fn next_round<'a, F: Format, R: Threads + Sync>(
    reader: LayerRowReader<F>,
    crew: &Crew<'_, R>,
    round: Round<'a, F::Geometry>,
) -> Result<Round<'a, F::Geometry>, ReadFault>
    requires ids { All HasId (all_rows round.batch.rows.items) }
    requires few { CanNumber (loaded_of round.loading) (all_rows round.batch.rows.items) }
    requires reading { IsUnread round.unread }
    ensures ok { IfOk result (λ next.
        with_rows (loaded_of round.entry.loading) (all_rows round.entry.batch.rows.items)
        ≡ Ok (loaded_of next.loading)) }
    ensures err { IfErr result (λ fault. fault ≢ ReadFault.Memory
        → with_rows (loaded_of round.entry.loading) (all_rows round.entry.batch.rows.items)
        ≡ Err fault) }
    ensures no_io { result ≢ Err ReadFault.Io }
    ensures read { IfOk result (λ next. IsBatch (form_of F.reads reader) round.entry.unread
        (all_rows next.batch.rows.items) next.batch.more next.unread) }
{
    let Round {
        loading,
        batch,
        unread,
    } = round;
    let (added, (unread, batch)) = add_and_read(reader, crew, loading, batch.rows, unread);
    Ok(Round {
        loading: added?,
        batch,
        unread,
    })
}

/// Adds the rows of the last batch, and returns the fault of the row after it, if any.
fn add_last<G: Geometry>(
    mut loading: Loading<FeatureListBuilder<G>>,
    batch: Batch<G>,
) -> Result<Loading<FeatureListBuilder<G>>, ReadFault>
    requires ids { All HasId (all_rows batch.rows.items) }
    requires few { CanNumber (loaded_of loading) (all_rows batch.rows.items) }
    requires no_io { batch.more ≢ Err ReadFault.Io }
    ensures rows { result ≢ Err ReadFault.Memory → loaded_or result
        ≡ if_loaded (with_rows (loaded_of loading) (all_rows batch.rows.items))
        (after_rows batch.more) }
    ensures no_io { result ≢ Err ReadFault.Io }
{
    add_parts(&mut loading, batch.rows)?;
    batch.more?;
    Ok(loading)
}

/// An estimate of the number of a file's rows, by its first lines, at most [`MAX_FEATURES`]. A
/// wrong estimate costs only time or memory.
fn likely_rows(bytes: &[u8]) -> usize
    ensures { result ≤ most_features }
{
    let lines = line_feeds(&bytes[..bytes.len().min(SAMPLE)]);
    let samples = bytes.len() / SAMPLE + 1;
    lines.saturating_mul(samples).min(MAX_FEATURES)
}
