//! Reading a file or a source as a layer, or as its features alone.

ghost use Rattle.std.specs.Prelude.{◌≡◌, ◌↔◌, false, IsTrue, IsErrOf};
ghost use Rattle.run_core.specs.Inputs.{Builds, Reads, ReadsFeatures};

use file_core::{LayerReader, Unreadable, WithSkipped};
use format_core::Format;
use layer_core::{FeatureList, Layer};
use row_core::{ReadFault, Source, read_all};
use std::hash::RandomState;
use std::thread::Threads;

/// The layer of a file's bytes, and the rows that were skipped. `state` hashes the ids.
pub(crate) fn build_layer<F: Format, R: Threads + Sync>(
    reader: &LayerReader<'_, F, R>,
    unreadable: Unreadable,
    state: RandomState,
    bytes: Vec<u8>,
) -> Result<WithSkipped<Layer<F::Geometry>>, ReadFault>
    ensures { Builds (F.reads reader.now.format) unreadable bytes.items result }
{
    reader.load_layer(unreadable, state, bytes)
}

/// Reads a source as a layer.
pub(crate) fn read_layer<F: Format, R: Threads + Sync, S: Source>(
    reader: &LayerReader<'_, F, R>,
    unreadable: Unreadable,
    state: RandomState,
    source: &mut S,
) -> Result<WithSkipped<Layer<F::Geometry>>, ReadFault>
    requires { S.has_failed source.old ≡ false }
    ensures reads { Reads (F.reads reader.now.format) unreadable (S.remaining source.old) result }
    ensures io { IsErrOf result ReadFault.Io ↔ IsTrue (S.has_failed source.new) }
{
    let bytes = read_all(reader.alloc, reader.format.limits(), source)?;
    build_layer(reader, unreadable, state, bytes)
}

/// Reads a source as the features of a layer, whose ids `state` hashes.
///
/// # Errors
/// A fault of the source or of its bytes, or that an allocation fails.
pub fn read_features<F: Format, R: Threads + Sync, S: Source>(
    reader: &LayerReader<'_, F, R>,
    state: RandomState,
    source: &mut S,
) -> Result<FeatureList<F::Geometry>, ReadFault>
    requires { S.has_failed source.old ≡ false }
    // the features of the layer, or the fault, that the bytes of the source give, unless memory is
    // refused
    ensures reads { ReadsFeatures (F.reads reader.now.format) (S.remaining source.old) result }
    // `Io` exactly where the source has failed
    ensures io { IsErrOf result ReadFault.Io ↔ IsTrue (S.has_failed source.new) }
{
    let bytes = read_all(reader.alloc, reader.format.limits(), source)?;
    reader.features_of_bytes(state, bytes.as_slice())
}
