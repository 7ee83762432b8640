//! The bytes of component types and instance types.
ghost use Rattle.std.specs.Prelude.{◌≡◌, ◌++◌, ◌&&◌, length};
ghost use Rattle.wac_graph_bytes.specs.Leb.{unsigned};
ghost use Rattle.wac_graph_bytes.specs.Spelling.{declaration_bytes, declaration_count};
ghost use Rattle.wac_graph_bytes.specs.Sizes.{small, declarations_fit};
ghost use Rattle.wac_graph_bytes.specs.Views.{declarations_of};
ghost use Rattle.wac_graph_bytes.specs.Writing.{Appends};
ghost use Rattle.wac_graph_bytes.specs.Declaring.{one_bytes, one_fits};

use crate::core_writers::push_core_type;
use crate::entry::Declaration;
use crate::error::SizeError;
use crate::text::{push_extern_name, push_unsigned};
use crate::types::{push_alias, push_defined_type, push_description};

/// One declaration.
#[cycle(declarations)]
pub fn push_declaration(out: &mut Vec<u8>, d: &Declaration) -> Result<(), SizeError>
    ensures { Appends result out.old.items out.new.items (one_bytes d.now) (one_fits d.now) }
{
    match d {
        Declaration::Module(declarations) => {
            out.push(0x00)?;
            push_core_type(out, declarations)?;
        }
        Declaration::Defined(ty) => {
            out.push(0x01)?;
            push_defined_type(out, ty)?;
        }
        Declaration::ComponentType(inner) => {
            out.push(0x01)?;
            out.push(0x41)?;
            push_declarations(out, inner)?;
        }
        Declaration::InstanceType(inner) => {
            out.push(0x01)?;
            out.push(0x42)?;
            push_declarations(out, inner)?;
        }
        Declaration::Alias(alias) => {
            out.push(0x02)?;
            push_alias(out, alias)?;
        }
        Declaration::Import(name, description) => {
            out.push(0x03)?;
            push_extern_name(out, name.as_str())?;
            push_description(out, *description)?;
        }
        Declaration::Export(name, description) => {
            out.push(0x04)?;
            push_extern_name(out, name.as_str())?;
            push_description(out, *description)?;
        }
    }
    Ok(())
}

/// Their count, and each of them.
#[cycle(declarations)]
pub fn push_declarations(out: &mut Vec<u8>, ds: &[Declaration]) -> Result<(), SizeError>
    ensures { let all = declarations_of ds.now in Appends result out.old.items out.new.items
        (unsigned (declaration_count all) ++ declaration_bytes all) (small (declaration_count all) && declarations_fit all) }
{
    push_unsigned(out, ds.len() as u64)?;
    for d in ds {
        push_declaration(out, d)?;
    }
    Ok(())
}
