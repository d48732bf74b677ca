//! Two layers that were read, or a text made of them, with the rows that were skipped.

use crate::fault::RunFault;
use crate::layers::free_layers;
use crate::text::Text;
use file_core::SkippedRow;
use layer_core::{Geometry, Layer};
use std::thread::Threads;

/// The rows of two layers' files that were skipped, since their geometry can't be read, each list
/// in file order.
#[derive(Drop)]
pub struct SkippedRows {
    pub left: Vec<SkippedRow>,
    pub right: Vec<SkippedRow>,
}

/// A left and a right layer, and the rows that were skipped of their files.
#[derive(Drop)]
pub struct LoadedLayers<G: Geometry> {
    pub layers: (Layer<G>, Layer<G>),
    pub skipped: SkippedRows,
}

/// A text made of two layers, and the rows that were skipped of their files.
#[derive(Drop)]
pub struct JoinText {
    pub text: Text,
    pub skipped: SkippedRows,
}

impl<G: Geometry + Send> LoadedLayers<G> {
    ghost use Rattle.run_core.specs.TextRuns.{IsFinished};

    /// The text that was made of the layers, with the rows that were skipped, or why there is none.
    /// The layers are freed, in parallel if there is more than one worker.
    pub fn finish<R: Threads>(
        self,
        rt: &R,
        workers: u32,
        text: Result<Text, RunFault>,
    ) -> Result<JoinText, RunFault>
        ensures { IsFinished text self.skipped result }
    {
        let LoadedLayers { layers, skipped } = self;
        free_layers(rt, layers.0, layers.1, workers);
        match text {
            Ok(text) => Ok(JoinText { text, skipped }),
            Err(fault) => Err(fault),
        }
    }
}
