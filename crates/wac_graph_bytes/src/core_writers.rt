//! The bytes of core module types.
ghost use Rattle.std.specs.Prelude.{◌≡◌, ◌++◌, ◌∷◌, [], OnOk, true, false, ◌&&◌, ◌+◌, ◌*◌};
ghost use Rattle.wac_graph_bytes.specs.Leb.{unsigned};
ghost use Rattle.wac_graph_bytes.specs.Spelling.{vec, name, core_reference, core_value, bit, limits, core_description, core_declaration, core_type};
ghost use Rattle.wac_graph_bytes.specs.Sizes.{vec_fits, any_fits, name_fits, limits_fit, core_description_fits, core_declaration_fits, core_type_fits};
ghost use Rattle.wac_graph_bytes.specs.Views.{core_view, module_view};
ghost use Rattle.wac_graph_bytes.specs.Writing.{Appends};

use crate::error::SizeError;
use crate::module::{CoreDeclaration, CoreDescription, CoreReference, CoreValue, Limits};
use crate::text::{push_bound, push_name, push_unsigned};
use std::alloc::AllocError;

fn reference_byte(reference: CoreReference) -> u8
    ensures { result ≡ core_reference reference }
{
    match reference {
        CoreReference::Func => 0x70,
        CoreReference::Extern => 0x6f,
    }
}

/// The type of a core value.
pub fn push_core_value(out: &mut Vec<u8>, ty: CoreValue) -> Result<(), AllocError>
    ensures { OnOk result (out.new.items ≡ out.old.items ++ core_value ty) }
{
    match ty {
        CoreValue::I32 => out.push(0x7f)?,
        CoreValue::I64 => out.push(0x7e)?,
        CoreValue::F32 => out.push(0x7d)?,
        CoreValue::F64 => out.push(0x7c)?,
        CoreValue::V128 => out.push(0x7b)?,
        CoreValue::Reference(r) => out.push(reference_byte(r))?,
    }
    Ok(())
}

/// The parameters or the results of a core function.
pub fn push_core_values(out: &mut Vec<u8>, types: &[CoreValue]) -> Result<(), SizeError>
    ensures { Appends result out.old.items out.new.items (vec core_value types.now) (vec_fits any_fits types.now) }
{
    push_unsigned(out, types.len() as u64)?;
    for t in types {
        push_core_value(out, *t)?;
    }
    Ok(())
}

fn bit_of(b: bool) -> u8
    ensures { result ≡ bit b }
{
    if b { 1 } else { 0 }
}

fn flags_of(shared: bool, wide: bool) -> u8
    ensures { result ≡ 2 * bit shared + 4 * bit wide }
{
    match (shared, wide) {
        (false, false) => 0,
        (true, false) => 2,
        (false, true) => 4,
        (true, true) => 6,
    }
}

/// The flags and bounds of a table or a memory.
pub fn push_limits(out: &mut Vec<u8>, shared: bool, l: Limits) -> Result<(), SizeError>
    ensures { Appends result out.old.items out.new.items (limits shared l) (limits_fit l) }
{
    let flags = flags_of(shared, l.wide);
    match l.maximum {
        None => {
            out.push(flags)?;
            push_bound(out, l.wide, l.minimum)?;
        }
        Some(maximum) => {
            out.push(flags + 1)?;
            push_bound(out, l.wide, l.minimum)?;
            push_bound(out, l.wide, maximum)?;
        }
    }
    Ok(())
}

/// What a core import or export is.
pub fn push_core_description(out: &mut Vec<u8>, d: CoreDescription) -> Result<(), SizeError>
    ensures { Appends result out.old.items out.new.items (core_description d) (core_description_fits d) }
{
    match d {
        CoreDescription::Func(index) => {
            out.push(0x00)?;
            push_unsigned(out, index)?;
        }
        CoreDescription::Table(reference, l) => {
            out.push(0x01)?;
            out.push(reference_byte(reference))?;
            push_limits(out, false, l)?;
        }
        CoreDescription::Memory(l, shared) => {
            out.push(0x02)?;
            push_limits(out, shared, l)?;
        }
        CoreDescription::Global(ty, mutable) => {
            out.push(0x03)?;
            push_core_value(out, ty)?;
            out.push(bit_of(mutable))?;
        }
        CoreDescription::Tag(index) => {
            out.push(0x04)?;
            out.push(0x00)?;
            push_unsigned(out, index)?;
        }
    }
    Ok(())
}

/// A declaration of a core module type.
pub fn push_core_declaration(out: &mut Vec<u8>, d: &CoreDeclaration) -> Result<(), SizeError>
    ensures { Appends result out.old.items out.new.items (core_declaration (core_view d.now))
        (core_declaration_fits (core_view d.now)) }
{
    match d {
        CoreDeclaration::Import(module, name, description) => {
            out.push(0x00)?;
            push_name(out, module.as_str())?;
            push_name(out, name.as_str())?;
            push_core_description(out, *description)?;
        }
        CoreDeclaration::Signature(params, results) => {
            out.push(0x01)?;
            out.push(0x60)?;
            push_core_values(out, params)?;
            push_core_values(out, results)?;
        }
        CoreDeclaration::Export(name, description) => {
            out.push(0x03)?;
            push_name(out, name.as_str())?;
            push_core_description(out, *description)?;
        }
    }
    Ok(())
}

/// A core module type: its declarations.
#[tactic(auto, using(crate::proofs::Loops::unfit_item))]
pub fn push_core_type(out: &mut Vec<u8>, declarations: &[CoreDeclaration]) -> Result<(), SizeError>
    ensures { Appends result out.old.items out.new.items (core_type (module_view declarations.now))
        (core_type_fits (module_view declarations.now)) }
{
    out.push(0x50)?;
    push_unsigned(out, declarations.len() as u64)?;
    for d in declarations {
        push_core_declaration(out, d)?;
    }
    Ok(())
}
