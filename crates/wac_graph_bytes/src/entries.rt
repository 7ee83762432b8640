//! The bytes of the entries of sections.
ghost use Rattle.std.specs.Prelude.{◌≡◌, ◌++◌, ◌∷◌, [], OnOk, true, false, ◌&&◌, string_bytes, length};
ghost use Rattle.wac_graph_bytes.specs.Leb.{unsigned};
ghost use Rattle.wac_graph_bytes.specs.Entries.{Core, ComponentType, InstanceType};
ghost use Rattle.wac_graph_bytes.specs.Spelling.{vec, argument, instance_entry, import_entry, stated_bytes, export_entry, type_entry, framed, contents};
ghost use Rattle.wac_graph_bytes.specs.Sizes.{small, vec_fits, argument_fits, instance_fits, import_fits, stated_fits, export_fits, type_fits, inside_fits};
ghost use Rattle.wac_graph_bytes.specs.Views.{arguments_view, export_view, declarations_of, view};
ghost use Rattle.wac_graph_bytes.specs.Writing.{Appends, section_of};

use crate::core_writers::push_core_type;
use crate::declarations::push_declarations;
use crate::entry::{Declaration, Entry, Export, NamedIndex};
use crate::error::SizeError;
use crate::text::{push_extern_name, push_name, push_unsigned};
use crate::types::{push_alias, push_defined_type, push_description, push_sort};
use crate::value::Description;

/// The arguments of an instantiation.
#[tactic(auto, using(crate::proofs::Loops::unfit_item))]
pub fn push_arguments(out: &mut Vec<u8>, arguments: &[NamedIndex]) -> Result<(), SizeError>
    ensures { Appends result out.old.items out.new.items (vec argument (arguments_view arguments.now))
        (vec_fits argument_fits (arguments_view arguments.now)) }
{
    push_unsigned(out, arguments.len() as u64)?;
    for a in arguments {
        push_name(out, a.name.as_str())?;
        push_sort(out, a.sort)?;
        push_unsigned(out, a.index)?;
    }
    Ok(())
}

/// An instance of a component, with arguments.
pub fn push_instance(
    out: &mut Vec<u8>,
    component: u64,
    arguments: &[NamedIndex],
) -> Result<(), SizeError>
    ensures { Appends result out.old.items out.new.items (instance_entry (component, arguments_view arguments.now))
        (instance_fits (component, arguments_view arguments.now)) }
{
    out.push(0x00)?;
    push_unsigned(out, component)?;
    push_arguments(out, arguments)
}

/// An import.
pub fn push_import(out: &mut Vec<u8>, name: &str, d: Description) -> Result<(), SizeError>
    ensures { Appends result out.old.items out.new.items (import_entry (name.now, d)) (import_fits (name.now, d)) }
{
    push_extern_name(out, name)?;
    push_description(out, d)?;
    Ok(())
}

/// What an export is said to be, or nothing.
fn push_stated(out: &mut Vec<u8>, d: Option<Description>) -> Result<(), SizeError>
    ensures { Appends result out.old.items out.new.items (stated_bytes d) (stated_fits d) }
{
    match d {
        None => out.push(0x00)?,
        Some(d) => {
            out.push(0x01)?;
            push_description(out, d)?;
        }
    }
    Ok(())
}

/// An export.
pub fn push_export(out: &mut Vec<u8>, e: &Export) -> Result<(), SizeError>
    ensures { Appends result out.old.items out.new.items (export_entry (export_view e.now)) (export_fits (export_view e.now)) }
{
    push_extern_name(out, e.name.as_str())?;
    push_sort(out, e.sort)?;
    push_unsigned(out, e.index)?;
    push_stated(out, e.stated)?;
    Ok(())
}

/// A component type.
pub fn push_component_type(out: &mut Vec<u8>, declarations: &[Declaration]) -> Result<(), SizeError>
    ensures { Appends result out.old.items out.new.items (type_entry (ComponentType (declarations_of declarations.now)))
        (type_fits (ComponentType (declarations_of declarations.now))) }
{
    out.push(0x41)?;
    push_declarations(out, declarations)
}

/// An instance type.
pub fn push_instance_type(out: &mut Vec<u8>, declarations: &[Declaration]) -> Result<(), SizeError>
    ensures { Appends result out.old.items out.new.items (type_entry (InstanceType (declarations_of declarations.now)))
        (type_fits (InstanceType (declarations_of declarations.now))) }
{
    out.push(0x42)?;
    push_declarations(out, declarations)
}

/// What the section of that one entry holds.
#[tactic(auto, using(crate::proofs::Loops::fits_one))]
pub fn push_inside(out: &mut Vec<u8>, e: &Entry) -> Result<(), SizeError>
    ensures { Appends result out.old.items out.new.items (contents (section_of (view e.now)))
        (inside_fits (section_of (view e.now))) }
{
    match e {
        Entry::Nested(bytes) => out.extend_from_slice(bytes)?,
        Entry::Module(declarations) => {
            push_unsigned(out, 1)?;
            push_core_type(out, declarations)?;
        }
        Entry::Instantiate(component, arguments) => {
            push_unsigned(out, 1)?;
            push_instance(out, *component, arguments)?;
        }
        Entry::Alias(alias) => {
            push_unsigned(out, 1)?;
            push_alias(out, alias)?;
        }
        Entry::Defined(ty) => {
            push_unsigned(out, 1)?;
            push_defined_type(out, ty)?;
        }
        Entry::ComponentType(declarations) => {
            push_unsigned(out, 1)?;
            push_component_type(out, declarations)?;
        }
        Entry::InstanceType(declarations) => {
            push_unsigned(out, 1)?;
            push_instance_type(out, declarations)?;
        }
        Entry::Import(name, d) => {
            push_unsigned(out, 1)?;
            push_import(out, name.as_str(), *d)?;
        }
        Entry::Export(e) => {
            push_unsigned(out, 1)?;
            push_export(out, e)?;
        }
    }
    Ok(())
}
