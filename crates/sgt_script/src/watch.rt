//! An observer that can explain a run, and report its progress.

use crate::explainer::Explainer;
use crate::observer::Observer;
use crate::progress::Progress;
use sgt_assembly::SgtEngine;
use sgt_input::{Lines, Sink};
use sgt_model::Event;
use std::io::Eprint;
use std::time::Clock;

/// The observers of a run, if there are any. A run is compiled for this one kind of observer: then the engine is
/// compiled into its loop.
#[derive(Drop)]
pub(crate) struct Watch<'a, W, E: Sink> {
    /// Explains the run, if that is asked for.
    explainer: Option<Explainer<'a, E>>,
    /// Reports how far the run is, if that is asked for.
    progress: Option<Progress<'a, W>>,
    /// Whether either is there.
    is_watching: bool,
}

impl<'a, W, E: Sink> Watch<'a, W, E> {
    /// Watches by these.
    pub(crate) fn new(
        explainer: Option<Explainer<'a, E>>,
        progress: Option<Progress<'a, W>>,
    ) -> Self {
        let is_watching = explainer.is_some() || progress.is_some();
        Watch {
            explainer,
            progress,
            is_watching,
        }
    }

    /// Writes the remaining explanations when the run is over.
    pub(crate) fn finish(self) {
        if let Some(explainer) = self.explainer {
            explainer.finish();
        }
    }
}

impl<W: Clock + Eprint, E: Sink> Watch<'_, W, E> {
    // The engine is about to answer this event.
    #[inline(never)]
    fn see_before(&mut self, engine: &SgtEngine, event: &Event) {
        if let Some(explainer) = &mut self.explainer {
            explainer.before(engine, event);
        }
    }

    // The engine has answered the event of the line returned last.
    #[inline(never)]
    fn see_answered(&mut self, engine: &SgtEngine, lines: &Lines) {
        if let Some(explainer) = &mut self.explainer {
            explainer.answered(engine, lines);
        }
        if let Some(progress) = &mut self.progress {
            progress.answered(engine, lines);
        }
    }
}

impl<W: Clock + Eprint, E: Sink> Observer for Watch<'_, W, E> {
    fn before(&mut self, engine: &SgtEngine, event: &Event) {
        if self.is_watching {
            self.see_before(engine, event);
        }
    }

    fn answered(&mut self, engine: &SgtEngine, lines: &Lines) {
        if self.is_watching {
            self.see_answered(engine, lines);
        }
    }

    fn written(&mut self, lines: &Lines) {
        if let Some(explainer) = &mut self.explainer {
            explainer.written(lines);
        }
        if let Some(progress) = &mut self.progress {
            progress.written(lines);
        }
    }

    fn ended(&mut self, engine: &SgtEngine) {
        if let Some(explainer) = &mut self.explainer {
            explainer.ended(engine);
        }
    }
}
