//! A component's sections.
ghost use Rattle.std.specs.Prelude.{◌≡◌, ◌++◌, ◌∷◌, [], length, map, true, ◌&&◌};
ghost use Rattle.std.specs.List.{flat_map, list_all};
ghost use Rattle.std.specs.Option.{option_copied, option_map};
ghost use Rattle.wac_graph_bytes.specs.Leb.{unsigned};
ghost use Rattle.wac_graph_bytes.specs.Spelling.{vec, framed, contents, section_id, section_bytes, component_bytes, preamble};
ghost use Rattle.wac_graph_bytes.specs.Sizes.{small, name_fits, vec_fits};
ghost use Rattle.wac_graph_bytes.specs.Views.{view, processor_view, index_name_view, sort_names_view, all_names_view};
ghost use Rattle.wac_graph_bytes.specs.Writing.{Appends, section_of, entry_fits, producers, producers_fit, index_name, index_name_fits, sort_names, debug_part, debug_part_fits, debug_names, debug_names_fit, debug_if, debug_if_fits, producers_if, producers_if_fit, sections_for, sections_fit};

use crate::entries::push_inside;
use crate::entry::{Entry, IndexName, Processor, SortNames};
use crate::error::SizeError;
use crate::text::{push_name, push_unsigned};
use crate::types::push_sort;
use std::alloc::Global;

/// A section, or a part of one: its number, how many bytes follow, and these bytes.
pub fn push_framed(out: &mut Vec<u8>, id: u8, inside: &[u8]) -> Result<(), SizeError>
    ensures { Appends result out.old.items out.new.items (framed id inside.now) (small (length inside.now)) }
{
    out.push(id)?;
    push_unsigned(out, inside.len() as u64)?;
    out.extend_from_slice(inside)?;
    Ok(())
}

/// The number of the section that has the entry.
fn section_number(e: &Entry) -> u8
    ensures { result ≡ section_id (section_of (view e.now)) }
{
    match e {
        Entry::Module(_) => 3,
        Entry::Nested(_) => 4,
        Entry::Instantiate(_, _) => 5,
        Entry::Alias(_) => 6,
        Entry::Defined(_) => 7,
        Entry::ComponentType(_) => 7,
        Entry::InstanceType(_) => 7,
        Entry::Import(_, _) => 10,
        Entry::Export(_) => 11,
    }
}

/// A section of that one entry.
#[tactic(auto, unfolding(crate::specs::Spelling::section_bytes))]
pub fn push_entry(alloc: Global, out: &mut Vec<u8>, e: &Entry) -> Result<(), SizeError>
    ensures { Appends result out.old.items out.new.items (section_bytes (section_of (view e.now))) (entry_fits (view e.now)) }
{
    if let Entry::Nested(bytes) = e {
        return push_framed(out, section_number(e), bytes);
    }
    let mut inside = Vec::new(alloc);
    push_inside(&mut inside, e)?;
    push_framed(out, section_number(e), &inside)
}

/// What the section holds that says what wrote the component.
fn push_producers_inside(out: &mut Vec<u8>, processor: &Processor) -> Result<(), SizeError>
    ensures { let by = processor_view processor.now in
        Appends result out.old.items out.new.items (contents (producers by)) (name_fits by.0 && name_fits by.1) }
{
    push_name(out, "producers")?;
    push_unsigned(out, 1)?;
    push_name(out, "processed-by")?;
    push_unsigned(out, 1)?;
    push_name(out, processor.name.as_str())?;
    push_name(out, processor.version.as_str())?;
    Ok(())
}

/// The section that says what wrote the component.
#[tactic(auto, unfolding(crate::specs::Spelling::section_bytes))]
pub fn push_producers(
    alloc: Global,
    out: &mut Vec<u8>,
    processor: &Processor,
) -> Result<(), SizeError>
    ensures { let by = processor_view processor.now in
        Appends result out.old.items out.new.items (section_bytes (producers by)) (producers_fit by) }
{
    let mut inside = Vec::new(alloc);
    push_producers_inside(&mut inside, processor)?;
    push_framed(out, 0, &inside)
}

/// The names of indexes.
#[tactic(auto, using(crate::proofs::Loops::unfit_item))]
fn push_index_names(out: &mut Vec<u8>, names: &[IndexName]) -> Result<(), SizeError>
    ensures { Appends result out.old.items out.new.items (vec index_name (map index_name_view names.now))
        (vec_fits index_name_fits (map index_name_view names.now)) }
{
    push_unsigned(out, names.len() as u64)?;
    for n in names {
        push_unsigned(out, n.index)?;
        push_name(out, n.name.as_str())?;
    }
    Ok(())
}

/// The names of indexes of one sort, for debuggers.
fn push_debug_part(alloc: Global, out: &mut Vec<u8>, names: &SortNames) -> Result<(), SizeError>
    ensures { Appends result out.old.items out.new.items (debug_part (sort_names_view names.now))
        (debug_part_fits (sort_names_view names.now)) }
{
    let mut inside = Vec::new(alloc);
    push_sort(&mut inside, names.sort)?;
    push_index_names(&mut inside, &names.names)?;
    push_framed(out, 1, &inside)
}

/// What the section of the names for debuggers holds.
#[tactic(auto, using(crate::proofs::Loops::unfit_item))]
fn push_debug_inside(alloc: Global, out: &mut Vec<u8>, names: &[SortNames]) -> Result<(), SizeError>
    ensures { let all = all_names_view names.now in
        Appends result out.old.items out.new.items (contents (debug_names all)) (list_all debug_part_fits all) }
{
    push_name(out, "component-name")?;
    for n in names {
        push_debug_part(alloc, out, n)?;
    }
    Ok(())
}

/// The section of the names for debuggers.
#[tactic(auto, unfolding(crate::specs::Spelling::section_bytes))]
pub fn push_debug_names(
    alloc: Global,
    out: &mut Vec<u8>,
    names: &[SortNames],
) -> Result<(), SizeError>
    ensures { let all = all_names_view names.now in
        Appends result out.old.items out.new.items (section_bytes (debug_names all)) (debug_names_fit all) }
{
    let mut inside = Vec::new(alloc);
    push_debug_inside(alloc, &mut inside, names)?;
    push_framed(out, 0, &inside)
}

/// That section, where there is a name.
fn push_debug_if(alloc: Global, out: &mut Vec<u8>, names: &[SortNames]) -> Result<(), SizeError>
    ensures { let all = all_names_view names.now in
        Appends result out.old.items out.new.items (flat_map section_bytes (debug_if all)) (debug_if_fits all) }
{
    if !names.is_empty() {
        push_debug_names(alloc, out, names)?;
    }
    Ok(())
}

/// The processor's section, where one is given.
fn push_producers_if(
    alloc: Global,
    out: &mut Vec<u8>,
    processor: Option<&Processor>,
) -> Result<(), SizeError>
    ensures { let by = option_map processor_view (option_copied processor.entry) in
        Appends result out.old.items out.new.items (flat_map section_bytes (producers_if by)) (producers_if_fit by) }
{
    if let Some(p) = processor {
        push_producers(alloc, out, p)?;
    }
    Ok(())
}

/// The entries, each in a section of its own.
#[tactic(auto, using(crate::proofs::Loops::unfit_item))]
pub fn push_entries(alloc: Global, out: &mut Vec<u8>, entries: &[Entry]) -> Result<(), SizeError>
    ensures { let all = map view entries.now in
        Appends result out.old.items out.new.items (flat_map section_bytes (map section_of all)) (list_all entry_fits all) }
{
    for e in entries {
        push_entry(alloc, out, e)?;
    }
    Ok(())
}

/// A component of those entries, each in a section of its own, of the section of the names for debuggers, where there is
/// a name, and of the processor's section, where one is given.
pub fn push_component(
    alloc: Global,
    out: &mut Vec<u8>,
    entries: &[Entry],
    processor: Option<&Processor>,
    names: &[SortNames],
) -> Result<(), SizeError>
    ensures { let by = option_map processor_view (option_copied processor.entry) in
        let all = all_names_view names.now in
        Appends result out.old.items out.new.items (component_bytes (sections_for (map view entries.now) by all))
        (sections_fit (map view entries.now) by all) }
{
    out.extend_from_slice(&[0x00, 0x61, 0x73, 0x6d, 0x0d, 0x00, 0x01, 0x00])?;
    push_entries(alloc, out, entries)?;
    push_debug_if(alloc, out, names)?;
    push_producers_if(alloc, out, processor)?;
    Ok(())
}
