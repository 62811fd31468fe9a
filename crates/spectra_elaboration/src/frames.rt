//! Bodies that are being put in.

ghost use Rattle.std.specs.Prelude.{◌≡◌, ◌<◌, length, IfOk};
ghost use Rattle.spectra_resolved.specs.Resolved.{ResolvedTree};
ghost use Rattle.spectra_elaboration.specs.Putting.{with_bodies};
ghost use Rattle.spectra_elaboration.specs.DefinitionViews.{definitions_data};
ghost use Rattle.spectra_elaboration.specs.Frames.{AreFrames, filled_at};

use crate::definitions::Definitions;
use spectra_resolved::spot::Spot;
use spectra_resolved::tree::Resolved;
use std::alloc::{AllocError, Global};

/// What is put in for definitions.
#[derive(Clone, Copy)]
pub struct By<'s> {
    pub alloc: Global,
    pub definitions: &'s Definitions,
}

/// A body that is being put in, or the line itself: how deep others may stand in it, the name in the line that brings it, and
/// its arguments as they are written. Their names are those of the frame with the number `outer`, which is an earlier one.
#[derive(Clone, Copy)]
pub struct Frame<'s> {
    pub deep: usize,
    pub brought: Option<Spot>,
    pub arguments: &'s [Resolved],
    pub outer: usize,
}

/// The frame of a line alone.
pub fn line_frame<'s>(by: &By<'s>) -> Result<Vec<Frame<'s>>, AllocError>
    ensures framed { IfOk result (λ frames. AreFrames frames.items) }
    ensures within { IfOk result (λ frames. 0 < length frames.items) }
    ensures line { IfOk result (λ frames. (t : ResolvedTree) → filled_at (definitions_data by.now.definitions.now) frames.items 0 t ≡ with_bodies (definitions_data by.now.definitions.now) t) }
{
    let line = Frame {
        deep: by.definitions.bodies.len(),
        brought: None,
        arguments: &[],
        outer: 0,
    };
    let mut frames = Vec::new(by.alloc);
    frames.push(line)?;
    Ok(frames)
}
