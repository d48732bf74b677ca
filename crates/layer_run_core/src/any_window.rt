//! The features of a layer of any geometry that share a point with a window.

ghost use Rattle.std.specs.Prelude.{◌≡◌, Ok, false, IfOk, IfErr, IsTrue, OnOk};
ghost use Rattle.format_core.specs.Formats.{AnyText, ReadsAny};
ghost use Rattle.format_core.specs.Layouts.{laid_out};
ghost use Rattle.run_core.specs.declared.fault.Input.{Input};
ghost use Rattle.run_core.specs.ImproperRings.{AreRingsImproper};
ghost use Rattle.layer_run_core.specs.Jobs.{OnlyAt};
ghost use Rattle.run_core.specs.Marks.{MarksLayer};
ghost use Rattle.run_core.specs.Runs.{NoTextFault, RunEnds};
ghost use Rattle.layer_run_core.specs.AnyWindows.{AnyWindowGives, IsAnyWindowFault, IsUnread};

use crate::intersection::intersect;
use crate::layer_run::run_marking;
use crate::window::{Meeting, Window};
use any_geometry_core::AnyGeometry;
use arrangement_core::PreparedGeometry;
use file_core::LayerReader;
use format_core::{AnyFormat, Format, LaidOut, TextFault};
use report_core::Sink;
use row_core::Source;
use run_core::{ImproperRings, Input, RunFault};
use std::alloc::{AllocError, Global};
use std::hash::RandomState;
use std::marker::Model;
use std::thread::Threads;

/// Writes the ids of the features of a layer that share a point with a window: a CSV record `id`,
/// and then one record for each such feature, in layer order.
///
/// The text of the window is read first, then the layer, by several threads; `state` hashes its
/// ids. The window is prepared once for its matrices with all features. `improper` becomes the
/// numbers of the layer's rows whose geometries have improper rings, from 1, after the header, in
/// file order.
///
/// # Errors
/// The first fault of the window or the layer, after which nothing is written, or a fault of the
/// output.
pub fn run_any_window<R: Threads + Sync, L: Source, S: Sink>(
    reader: &LayerReader<'_, LaidOut<'_, AnyFormat>, R>,
    state: RandomState,
    layer: &mut L,
    wkt: &[u8],
    improper: &mut Vec<u32>,
    sink: &mut S,
) -> Result<(), RunFault>
    requires layer { L.has_failed layer.old ≡ false }
    requires sink { S.has_failed sink.old ≡ false }
    // Ok means that the ids of exactly the features that share a point of the plane with the window
    // were written, in layer order; a fault of the window's text is the one that the text has,
    // unless memory is refused; all other faults as `run_marking`, and only where the window is
    // good
    ensures runs { let format = reader.now.format in let any = format.format in
        let reads = laid_out format.layout (ReadsAny any.scale any.rings) in
        let file = L.remaining layer.old in
        RunEnds (AnyWindowGives reads wkt.now file) NoTextFault
        (IsAnyWindowFault reads wkt.now file)
        (OnlyAt Input.Layer (IsTrue (L.has_failed layer.new)))
        S.written S.is_flushed S.has_failed sink.old sink.new result }
    // on success exactly the rows of the layer's file whose geometries have improper rings
    ensures improper { let format = reader.now.format in let any = format.format in
        let reads = laid_out format.layout (ReadsAny any.scale any.rings) in
        let is_marked = AreRingsImproper any.rings in
        OnOk result (MarksLayer reads is_marked (L.remaining layer.old) improper.new.items) }
{
    match read_window(reader.alloc, reader.format.format, wkt) {
        Ok(geometry) => match AnyWindow::new(reader.alloc, &geometry) {
            Ok(window) => {
                let marks = ImproperRings {
                    rings: reader.format.format.rings,
                };
                let made = Meeting { window };
                run_marking(reader, state, layer, &made, &marks, improper, sink)
            }
            Err(AllocError) => Err(RunFault::Memory),
        },
        Err(fault) => Err(fault),
    }
}

/// Reads the text of a window.
fn read_window(alloc: Global, format: AnyFormat, wkt: &[u8]) -> Result<AnyGeometry, RunFault>
    ensures ok { IfOk result
        (λ geometry. AnyText format.scale format.rings wkt.now (Ok geometry)) }
    ensures err { IfErr result (IsUnread (AnyText format.scale format.rings) wkt.now) }
{
    match format.read(alloc, wkt)? {
        Ok(geometry) => Ok(geometry),
        Err(TextFault::Geometry(fault)) => Err(RunFault::Geometry(Input::Window, fault)),
        Err(TextFault::Wkt(fault, _)) => Err(RunFault::Wkt(Input::Window, fault)),
    }
}

/// A window that is a geometry of any kind, prepared for its matrices with those of the layer. In
/// contracts its value is the geometry.
#[derive(Drop)]
struct AnyWindow<'a> {
    geometry: &'a AnyGeometry,
    prepared: PreparedGeometry<'a>,
}

impl<'a> Model for AnyWindow<'a> {
    ghost use Rattle.std.specs.Prelude.{◌≡◌};
    ghost use Rattle.any_geometry_core.specs.declared.geometry.AnyGeometry.{AnyGeometry};
    ghost use Rattle.any_geometry_core.specs.AnyGeometries.{figure_of};

    ghost Value = { AnyGeometry };

    ghost view = { λ window. window.geometry.now };

    ghost invariant = { λ window. window.prepared ≡ figure_of window.geometry.now };
}

impl<'a> AnyWindow<'a> {
    /// Prepares a window.
    ///
    /// # Errors
    /// If an allocation fails.
    fn new(alloc: Global, geometry: &'a AnyGeometry) -> Result<AnyWindow<'a>, AllocError>
        ensures { IfOk result (λ window. window ≡ geometry.now) }
    {
        let prepared = PreparedGeometry::new(alloc, geometry.geometry())?;
        Ok(AnyWindow { geometry, prepared })
    }
}

/// It meets the geometries that share a point with it.
impl<'a> Window<AnyGeometry> for AnyWindow<'a> {
    ghost use Rattle.any_geometry_core.specs.AnyGeometries.{figure_of};
    ghost use Rattle.any_relation_core.specs.PlaneSets.{Intersect};

    ghost is_met = { λ window g. Intersect (figure_of g) (figure_of window) };

    fn meets(&self, alloc: Global, geometry: &AnyGeometry) -> Result<bool, AllocError> {
        intersect(alloc, geometry, self.geometry, &self.prepared)
    }
}
