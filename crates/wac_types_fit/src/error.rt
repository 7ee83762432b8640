//! Why something does not fit.

ghost use Rattle.std.specs.Prelude.{◌≡◌, [], ◌∷◌, List, Some, string_bytes, option_copied};
ghost use Rattle.wac_types_fit.specs.Frames.{Step};
ghost use Rattle.wac_types_fit.specs.Errors.{steps_of, words_of, SaysBehind};
ghost use Rattle.wac_types_fit.specs.Words.{in_turn};

use std::alloc::{AllocError, AllocFailed, Global};
use std::error::Error;
use std::fmt;
use wac_types_base::ExternKind;

/// Why something does not fit.
#[derive(Debug, Drop)]
pub enum SubtypeError {
    /// The frames lead, from the outside in, to two items that disagree, or to one that is missing.
    Mismatch {
        frames: Vec<(ExternKind, String)>,
        expected: Option<&'static str>,
        found: Option<&'static str>,
    },
    /// There was no memory.
    Memory,
}

/// What is given and what is asked disagree; none where it is missing.
pub(crate) fn mismatch(
    alloc: Global,
    turned: bool,
    given: Option<&'static str>,
    asked: Option<&'static str>,
) -> SubtypeError
    ensures steps { steps_of result ≡ Some [] }
    ensures words { words_of result ≡ Some ([], in_turn turned (option_copied asked.entry) (option_copied given.entry)) }
{
    let (expected, found) = if turned {
        (given, asked)
    } else {
        (asked, given)
    };
    SubtypeError::Mismatch {
        frames: Vec::new(alloc),
        expected,
        found,
    }
}

/// The fault, one frame further out.
pub(crate) fn behind(kind: ExternKind, name: String, fault: SubtypeError) -> SubtypeError
    ensures steps { (ss : List Step) → steps_of result ≡ Some ss
        → (rest : List Step) × (steps_of fault ≡ Some rest) × (ss ≡ (kind, string_bytes name) ∷ rest) }
    ensures words { SaysBehind result (kind, string_bytes name) fault }
{
    match fault {
        SubtypeError::Memory => SubtypeError::Memory,
        SubtypeError::Mismatch {
            mut frames,
            expected,
            found,
        } => match frames.insert(0, (kind, name)) {
            Err(AllocFailed { .. }) => SubtypeError::Memory,
            Ok(()) => SubtypeError::Mismatch {
                frames,
                expected,
                found,
            },
        },
    }
}

/// The fault, behind an item of this name.
pub fn within(alloc: Global, kind: ExternKind, name: &str, fault: SubtypeError) -> SubtypeError
    ensures steps { (ss : List Step) → steps_of result ≡ Some ss
        → (rest : List Step) × (steps_of fault ≡ Some rest) × (ss ≡ (kind, name.now) ∷ rest) }
    ensures words { SaysBehind result (kind, name.now) fault }
{
    match String::from_str(alloc, name) {
        Err(AllocError) => SubtypeError::Memory,
        Ok(name) => behind(kind, name, fault),
    }
}

fn fmt_items<W: fmt::Write>(
    expected: Option<&'static str>,
    found: Option<&'static str>,
    f: &mut fmt::Formatter<W>,
) -> fmt::Result {
    match (expected, found) {
        (Some(expected), Some(found)) => write!(f, "expected {expected}, found {found}"),
        (Some(expected), None) => write!(f, "expected {expected}, found nothing"),
        (None, Some(found)) => write!(f, "expected nothing, found {found}"),
        (None, None) => f.write_str("expected nothing"),
    }
}

impl fmt::Display for SubtypeError {
    fn fmt<W: fmt::Write>(&self, f: &mut fmt::Formatter<W>) -> fmt::Result {
        match self {
            SubtypeError::Memory => f.write_str("out of memory"),
            SubtypeError::Mismatch {
                frames,
                expected,
                found,
            } => {
                for (kind, name) in frames {
                    write!(f, "{kind} `{name}`: ")?;
                }
                fmt_items(*expected, *found, f)
            }
        }
    }
}

impl Error for SubtypeError {}
