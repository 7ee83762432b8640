//! Sources of a manifest as drawings, or as places of faults.

use crate::warnings::warnings;
use std::alloc::{AllocError, Global};
use wac::manifest::{ComposeManifest, Source};
use wac::{
    EncodeOptions, Files, Output, Stop, Workspace, add_components, bad_manifest, load_text,
    not_composed, show_place,
};
use wac_draw::flowchart;
use wac_parser_lexer::SourceSpan;

/// What is seen of the graph of a source.
#[derive(Drop)]
struct Seen {
    drawing: String,
    warnings: String,
}

/// What is shown of sources, one after another.
#[derive(Drop)]
struct Showing {
    alloc: Global,
    workspace: Workspace,
    /// Whether components are nested; else they are imported.
    define: bool,
    /// How many sources were looked at.
    count: usize,
    text: String,
}

impl Showing {
    /// The drawing of a source with its warnings; none where it is refused.
    fn seen(&self, source: &str) -> Option<Seen> {
        let graph = self.workspace.graph(source).ok()?;
        Some(Seen {
            drawing: flowchart(&graph, self.alloc).ok()?,
            warnings: warnings(&graph, self.alloc).ok()?,
        })
    }

    /// Tells what a source was composed to.
    fn tell_output(&mut self, output: &Output, seen: Option<Seen>) -> Result<(), AllocError> {
        let name = output.name.as_str();
        let length = output.bytes.len();
        writeln!(self.text, "%% {name}, {length} bytes")?;
        match seen {
            None => Ok(()),
            Some(Seen { drawing, warnings }) => {
                self.text.push_str(drawing.as_str())?;
                self.text.push_str(warnings.as_str())
            }
        }
    }

    /// Shows a place in a source.
    fn tell_place(&mut self, source: &str, span: Option<SourceSpan>) -> Result<(), AllocError> {
        match span {
            None => Ok(()),
            Some(span) => {
                let shown = show_place(self.alloc, source, span)?;
                self.text.push_str(shown.as_str())
            }
        }
    }

    /// Tells why a source was refused, with its line.
    fn tell_stop(&mut self, source: &str, stop: Stop) -> Result<(), AllocError> {
        match stop {
            Stop::Memory => self.text.push_str("error: out of memory\n"),
            Stop::Unwritten => Ok(()),
            Stop::Refused { text: told, span } => {
                writeln!(self.text, "error in source {}: {told}", self.count)?;
                self.tell_place(source, span)
            }
        }
    }

    /// Composes a source, and shows what comes of it. Whether it was accepted.
    fn show_source(&mut self, source: &str) -> Result<bool, AllocError> {
        self.count = self.count.saturating_add(1);
        let seen = self.seen(source);
        let options = EncodeOptions {
            define_components: self.define,
            validate: true,
            processor: None,
        };
        match self.workspace.compose(source, options) {
            Ok(output) => {
                self.tell_output(&output, seen)?;
                Ok(true)
            }
            Err(fault) => {
                let stop = not_composed(self.alloc, &fault);
                self.tell_stop(source, stop)?;
                Ok(false)
            }
        }
    }
}

/// Shows sources, up to the first that is refused. Whether all were accepted.
fn show_sources<F: Files>(
    alloc: Global,
    files: &F,
    showing: &mut Showing,
    sources: Vec<Source>,
) -> Result<bool, Stop> {
    for source in sources {
        let source = load_text(alloc, files, source.source)?;
        if !showing.show_source(source.as_str())? {
            return Ok(false);
        }
    }
    Ok(true)
}

/// What a manifest is read as, before a source is composed.
fn showing_of<F: Files>(
    alloc: Global,
    files: &F,
    manifest: ComposeManifest,
) -> Result<(Showing, Vec<Source>), Stop> {
    let mut showing = Showing {
        alloc,
        workspace: Workspace::new(alloc),
        define: !manifest.import,
        count: 0,
        text: String::new(alloc),
    };
    add_components(alloc, files, &mut showing.workspace, manifest.components)?;
    Ok((showing, manifest.sources))
}

/// What is shown of a manifest's sources, and why nothing more is shown.
#[derive(Drop)]
pub struct Shown {
    pub text: String,
    /// Whether all sources were accepted.
    pub outcome: Result<bool, Stop>,
}

/// Shows the sources of a manifest, up to the first that is refused.
pub fn show<F: Files>(alloc: Global, files: &F, manifest: &str) -> Result<Shown, Stop> {
    let manifest = match ComposeManifest::read(alloc, manifest) {
        Ok(manifest) => manifest,
        Err(fault) => return Err(bad_manifest(alloc, fault)),
    };
    let (mut showing, sources) = showing_of(alloc, files, manifest)?;
    let outcome = show_sources(alloc, files, &mut showing, sources);
    Ok(Shown {
        text: showing.text,
        outcome,
    })
}
