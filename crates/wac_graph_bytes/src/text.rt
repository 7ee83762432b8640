//! LEB128, and names.
ghost use Rattle.std.specs.Prelude.{◌≡◌, ◌<◌, ◌^◌, ◌++◌, ◌∷◌, [], OnOk, IfErr, map, string_bytes, true, false};
ghost use Rattle.wac_graph_bytes.specs.declared.error.SizeError.TheVariants.{TooLarge};
ghost use Rattle.wac_graph_bytes.specs.Leb.{digits, unsigned, signed};
ghost use Rattle.wac_graph_bytes.specs.Spelling.{name, extern_name, vec};
ghost use Rattle.wac_graph_bytes.specs.Sizes.{small, name_fits, bound_fits, vec_fits};
ghost use Rattle.wac_graph_bytes.specs.Writing.{Appends};

use crate::error::SizeError;
use std::alloc::AllocError;

/// The digits of a number, the last one below the limit.
fn push_digits(out: &mut Vec<u8>, limit: u64, n: u64) -> Result<(), AllocError>
    requires positive { 0 < limit }
    requires seven_bits { limit < 129 }
    ensures { OnOk result (out.new.items ≡ out.old.items ++ digits limit n) }
{
    let mut rest = n;
    while rest >= limit {
        out.push((rest % 128) as u8 + 128)?;
        rest /= 128;
    }
    out.push(rest as u8)?;
    Ok(())
}

/// That a number has 32 bits.
fn check_small(n: u64) -> Result<(), SizeError>
    ensures small { OnOk result (small n ≡ true) }
    ensures large { IfErr result (λ e. (e ≡ TooLarge) × (small n ≡ false)) }
{
    if n > 4294967295 {
        return Err(SizeError::TooLarge);
    }
    Ok(())
}

/// A count, an index or a size.
pub fn push_unsigned(out: &mut Vec<u8>, n: u64) -> Result<(), SizeError>
    ensures { Appends result out.old.items out.new.items (unsigned n) (small n) }
{
    check_small(n)?;
    push_digits(out, 128, n)?;
    Ok(())
}

/// A bound of a table or a memory; with wide addresses it may have 64 bits.
pub fn push_bound(out: &mut Vec<u8>, wide: bool, n: u64) -> Result<(), SizeError>
    ensures { Appends result out.old.items out.new.items (unsigned n) (bound_fits wide n) }
{
    if !wide {
        check_small(n)?;
    }
    push_digits(out, 128, n)?;
    Ok(())
}

/// An index as the type of a value.
pub fn push_signed(out: &mut Vec<u8>, n: u64) -> Result<(), SizeError>
    ensures { Appends result out.old.items out.new.items (signed n) (small n) }
{
    check_small(n)?;
    push_digits(out, 64, n)?;
    Ok(())
}

/// A text with its length.
pub fn push_name(out: &mut Vec<u8>, text: &str) -> Result<(), SizeError>
    ensures { Appends result out.old.items out.new.items (name text.now) (name_fits text.now) }
{
    push_unsigned(out, text.len() as u64)?;
    out.extend_from_slice(text.as_bytes())?;
    Ok(())
}

/// The name of an import or an export.
pub fn push_extern_name(out: &mut Vec<u8>, text: &str) -> Result<(), SizeError>
    ensures { Appends result out.old.items out.new.items (extern_name text.now) (name_fits text.now) }
{
    out.push(0x00)?;
    push_name(out, text)
}

/// Names, as of flags.
pub fn push_names(out: &mut Vec<u8>, names: &[String]) -> Result<(), SizeError>
    ensures { Appends result out.old.items out.new.items (vec name (map string_bytes names.now))
        (vec_fits name_fits (map string_bytes names.now)) }
{
    push_unsigned(out, names.len() as u64)?;
    for n in names {
        push_name(out, n.as_str())?;
    }
    Ok(())
}
