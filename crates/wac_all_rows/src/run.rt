//! Rows of runs of the program: what is printed to the letter, or the wirings of the components that are printed.
mod ends;
mod files;
mod manifests;
mod plugging;
mod refusals;
mod resolving;
mod runs;
mod steps;
mod wirings;

use runs::tell_run;
use steps::tell_steps;
use wac_rows::{Row, RowTeller, Told};
use wirings::tell_wirings;

/// A row with the part `words` is a run on these words and the part `input`, told to the letter; one with the part `steps` has
/// the steps of a workspace. Any other is a manifest, told by the wirings that come of it.
pub struct RunRows;

impl RowTeller for RunRows {
    fn tell(&self, told: &mut Told, row: &Row<'_>) {
        if let Some(words) = row.text("words") {
            return tell_run(told, words, row);
        }
        match row.text("steps") {
            Some(steps) => tell_steps(told, steps),
            None => tell_wirings(told, row),
        }
    }
}
