//! Opening the files of a command, and random keys for hashing the ids of their features.

ghost use Rattle.std.specs.Prelude.{◌≡◌, false, IfOk, IfErr, IfSome};
ghost use Rattle.run_core.specs.EditedLayers.{bytes_of};
ghost use Rattle.run_core.specs.SourceStates.{AreFresh};
ghost use Rattle.command_core.specs.Opening.{IsAt, IsMissing, AreEditsAt, AreEditsMissing};
ghost use Rattle.command_core.specs.Opening.{AreOpened, IsFirstMissing, IsLayerUnready, bytes_in};

use crate::inputs::Inputs;
use run_core::{Input, JoinSources, RunFault};
use std::hash::RandomState;
use std::random::RandomSource;
use words_core::LayerPaths;

/// Opens the files at these paths, in the order left, right, edits.
pub fn open_sources<'a, I: Inputs>(
    inputs: &I,
    paths: &LayerPaths<'a>,
) -> Result<JoinSources<'a, I::File, I::File, I::File>, RunFault>
    ensures opened { IfOk result (λ sources.
        AreOpened (I.files inputs.now) paths.now (bytes_in I.File.remaining sources)) }
    ensures fresh { IfOk result
        (AreFresh I.File.has_failed I.File.has_failed I.File.has_failed) }
    ensures missing { IfErr result (IsFirstMissing (I.files inputs.now) paths.now) }
{
    let left = open_input(inputs, Input::Left, paths.left)?;
    let right = open_input(inputs, Input::Right, paths.right)?;
    let edits = open_edits(inputs, paths.edits)?;
    Ok(JoinSources {
        left,
        right,
        edits,
        left_layout: paths.left_layout,
        right_layout: paths.right_layout,
    })
}

/// Opens the file of a layer, and draws random keys for hashing its ids.
pub fn open_layer<R: RandomSource, I: Inputs>(
    rt: &R,
    inputs: &I,
    path: &str,
) -> Result<(I::File, RandomState), RunFault>
    ensures ok { IfOk result (λ opened.
        IsAt (I.files inputs.now) path.now (I.File.remaining opened.0)) }
    ensures fresh { IfOk result (λ opened. I.File.has_failed opened.0 ≡ false) }
    ensures fault { IfErr result (IsLayerUnready (I.files inputs.now) path.now) }
{
    let layer = open_input(inputs, Input::Layer, path)?;
    let state = hash_state(rt)?;
    Ok((layer, state))
}

/// Opens the file of an input.
fn open_input<I: Inputs>(inputs: &I, input: Input, path: &str) -> Result<I::File, RunFault>
    ensures ok { IfOk result (λ file.
        IsAt (I.files inputs.now) path.now (I.File.remaining file)) }
    ensures fresh { IfOk result (λ file. I.File.has_failed file ≡ false) }
    ensures missing { IfErr result (λ _. IsMissing (I.files inputs.now) path.now) }
    ensures fault { IfErr result (λ f. f ≡ RunFault.NoFile input) }
{
    match inputs.open(path) {
        Ok(file) => Ok(file),
        Err(_) => Err(RunFault::NoFile(input)),
    }
}

/// Opens the file of edits, if one is given.
fn open_edits<I: Inputs>(inputs: &I, path: Option<&str>) -> Result<Option<I::File>, RunFault>
    ensures ok { IfOk result (λ edits.
        AreEditsAt (I.files inputs.now) path.entry (bytes_of I.File.remaining edits)) }
    ensures fresh { IfOk result (λ edits. IfSome edits (λ e. I.File.has_failed e ≡ false)) }
    ensures missing { IfErr result (λ _. AreEditsMissing (I.files inputs.now) path.entry) }
    ensures fault { IfErr result (λ f. f ≡ RunFault.NoFile Input.Edits) }
{
    match path {
        Some(path) => Ok(Some(open_input(inputs, Input::Edits, path)?)),
        None => Ok(None),
    }
}

/// Random keys for hashing the ids of a layer.
fn hash_state<R: RandomSource>(rt: &R) -> Result<RandomState, RunFault>
    ensures { IfErr result (λ f. f ≡ RunFault.NoKeys) }
{
    match RandomState::new(rt) {
        Ok(state) => Ok(state),
        Err(_) => Err(RunFault::NoKeys),
    }
}

/// Random keys for hashing the ids of the left and of the right layer.
pub fn hash_states<R: RandomSource>(rt: &R) -> Result<(RandomState, RandomState), RunFault>
    ensures { IfErr result (λ f. f ≡ RunFault.NoKeys) }
{
    Ok((hash_state(rt)?, hash_state(rt)?))
}
