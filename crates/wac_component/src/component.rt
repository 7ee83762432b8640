//! A whole component.
ghost use Rattle.std.specs.Prelude.{◌≡◌, [], map, IfErr};
ghost use Rattle.wac_component.specs.Rules as rule;
ghost use Rattle.wac_component.specs.Sections as grammar;
ghost use Rattle.wac_component.specs.Components.{Reads, IsFirstFault};
ghost use Rattle.wac_component.specs.Views.{section_view};
ghost use Rattle.wac_component.specs.Reads.{Gives};

use crate::entry::Section;
use crate::fault::{ReadError, Stop};
use crate::sections::{read_section, skip_preamble};
use std::alloc::Global;

/// Sections to the end.
fn read_sections(alloc: Global, bytes: &[u8]) -> Result<Vec<Section<'_>>, Stop>
    ensures { Gives (λ v. (map section_view v.items, [])) result ((rule.all_of grammar.section).read bytes.now) }
{
    let mut values = Vec::new(alloc);
    let mut rest = bytes;
    while !rest.is_empty() {
        let (value, after) = read_section(alloc, rest)?;
        values.push(value)?;
        rest = after;
    }
    Ok(values)
}

/// The preamble, and sections to the end.
#[tactic(auto, unfolding(crate::specs::Sections::component))]
fn read_whole(alloc: Global, bytes: &[u8]) -> Result<Vec<Section<'_>>, Stop>
    ensures { Gives (λ v. (map section_view v.items, [])) result (grammar.component.read bytes.now) }
{
    read_sections(alloc, skip_preamble(bytes)?)
}

/// The sections of a component, one level of it: nested components and core modules are their bytes. It takes time in
/// proportion to the bytes, but for growing the lists.
///
/// # Errors
/// `Refused` where the bytes are no component, or one with what is not read, by name: core types, values, options of names,
/// canonical functions of a later standard. The offset, in bytes, is where reading stopped. `Memory` where an allocation
/// failed.
pub fn read_component(alloc: Global, bytes: &[u8]) -> Result<Vec<Section<'_>>, ReadError>
    // The sections of these bytes and no others, or the bytes have none.
    ensures read { Reads (λ v. map section_view v.items) result bytes.now }
    // What is wrong, and where.
    ensures fault { IfErr result (IsFirstFault bytes.now) }
{
    match read_whole(alloc, bytes) {
        Ok(sections) => Ok(sections),
        Err(Stop::Fault(fault)) => Err(ReadError::Refused {
            offset: bytes.len() - fault.left,
            kind: fault.kind,
        }),
        Err(Stop::Memory) => Err(ReadError::Memory),
    }
}
