//! Bytes, numbers and names, with the offset at which each stands.

use super::{ReadError, Sort};
use std::alloc::Global;
use std::str::from_utf8;

/// The bytes that are still to be read, and where they begin.
#[derive(Clone, Copy, Drop)]
pub struct Cursor<'a> {
    rest: &'a [u8],
    at: usize,
}

const PREAMBLE: [u8; 8] = [0x00, 0x61, 0x73, 0x6d, 0x0d, 0x00, 0x01, 0x00];

impl<'a> Cursor<'a> {
    pub fn new(bytes: &'a [u8]) -> Self {
        Cursor { rest: bytes, at: 0 }
    }

    pub fn offset(&self) -> usize {
        self.at
    }

    pub fn is_empty(&self) -> bool {
        self.rest.is_empty()
    }

    pub fn left(&self) -> usize {
        self.rest.len()
    }

    /// The next byte, which stays.
    pub fn peek(&self) -> Option<u8> {
        self.rest.first().copied()
    }

    pub fn byte(&mut self) -> Result<u8, ReadError> {
        let Some((first, rest)) = self.rest.split_first() else {
            return Err(ReadError::At(self.at, "the bytes end here"));
        };
        self.rest = rest;
        self.at = self.at.wrapping_add(1);
        Ok(*first)
    }

    pub fn take(&mut self, count: u32) -> Result<&'a [u8], ReadError> {
        let count = count as usize;
        if count > self.rest.len() {
            return Err(ReadError::At(self.at, "longer than the bytes around it"));
        }
        let (front, rest) = self.rest.split_at(count);
        self.rest = rest;
        self.at = self.at.wrapping_add(count);
        Ok(front)
    }

    /// That the bytes before here are wrong.
    pub fn fault<T>(&self, what: &'static str) -> Result<T, ReadError> {
        Err(ReadError::At(self.at, what))
    }

    /// That no bytes are left.
    pub fn at_end(&self, what: &'static str) -> Result<(), ReadError> {
        if self.is_empty() {
            Ok(())
        } else {
            self.fault(what)
        }
    }

    /// A cursor over the next bytes alone, which are passed over here.
    pub fn part(&mut self, count: u32) -> Result<Cursor<'a>, ReadError> {
        let at = self.at;
        let rest = self.take(count)?;
        Ok(Cursor { rest, at })
    }

    /// Everything that is left.
    pub fn rest(&mut self) -> &'a [u8] {
        let rest = self.rest;
        self.at = self.at.wrapping_add(rest.len());
        self.rest = &[];
        rest
    }

    pub fn preamble(&mut self) -> Result<(), ReadError> {
        for wanted in PREAMBLE {
            if self.byte()? != wanted {
                return Err(ReadError::At(self.at.wrapping_sub(1), "no component's preamble"));
            }
        }
        Ok(())
    }

    /// An unsigned number of at most 32 bits, in LEB128 of shortest form.
    pub fn unsigned(&mut self) -> Result<u32, ReadError> {
        let at = self.at;
        match u32::try_from(self.wide()?) {
            Ok(n) => Ok(n),
            Err(_) => Err(ReadError::At(at, "a number over 32 bits")),
        }
    }

    /// An unsigned number of at most 64 bits, in LEB128 of shortest form.
    pub fn wide(&mut self) -> Result<u64, ReadError> {
        let at = self.at;
        let mut value: u64 = 0;
        let mut scale: u64 = 1;
        for place in 0..10 {
            let byte = self.byte()?;
            let digit = u64::from(byte & 0x7f);
            if place == 9 && digit > 1 {
                return Err(ReadError::At(at, "a number over 64 bits"));
            }
            value = value.wrapping_add(digit.wrapping_mul(scale));
            scale = scale.wrapping_mul(128);
            if byte < 0x80 {
                if place > 0 && byte == 0 {
                    return Err(ReadError::At(at, "a number not in its shortest form"));
                }
                return Ok(value);
            }
        }
        Err(ReadError::At(at, "a number over 64 bits"))
    }

    /// A type's index as a value type: a signed number of 33 bits, not below 0, in LEB128 of shortest form.
    pub fn index_as_type(&mut self) -> Result<u32, ReadError> {
        let at = self.at;
        let mut value: u64 = 0;
        let mut scale: u64 = 1;
        let mut before = 0x40;
        for _ in 0..5 {
            let byte = self.byte()?;
            value = value.wrapping_add(u64::from(byte & 0x7f).wrapping_mul(scale));
            scale = scale.wrapping_mul(128);
            if byte < 0x80 {
                return index_of(at, value, byte, before);
            }
            before = byte;
        }
        Err(ReadError::At(at, "a number over 33 bits"))
    }

    /// A length, and that many bytes of UTF-8.
    pub fn label(&mut self) -> Result<&'a str, ReadError> {
        let count = self.unsigned()?;
        let at = self.at;
        match from_utf8(self.take(count)?) {
            Ok(text) => Ok(text),
            Err(_) => Err(ReadError::At(at, "a name that is no UTF-8")),
        }
    }

    /// The same, copied.
    pub fn name(&mut self, alloc: Global) -> Result<String, ReadError> {
        Ok(String::from_str(alloc, self.label()?)?)
    }

    /// A name of an import or an export: `00` says that no options follow.
    pub fn extern_name(&mut self) -> Result<&'a str, ReadError> {
        self.exactly(0x00, "a name with options")?;
        self.label()
    }

    pub fn exactly(&mut self, wanted: u8, what: &'static str) -> Result<(), ReadError> {
        let at = self.at;
        if self.byte()? == wanted {
            Ok(())
        } else {
            Err(ReadError::At(at, what))
        }
    }

    pub fn section_id(&mut self) -> Result<u8, ReadError> {
        let at = self.at;
        match self.byte()? {
            id @ (0 | 3..=7 | 10 | 11) => Ok(id),
            _ => Err(ReadError::At(at, "no section of a component")),
        }
    }

    pub fn sort(&mut self) -> Result<Sort, ReadError> {
        let at = self.at;
        match self.byte()? {
            0x00 => {
                self.exactly(0x11, "a core sort but the module")?;
                Ok(Sort::Module)
            }
            0x01 => Ok(Sort::Func),
            0x03 => Ok(Sort::Type),
            0x04 => Ok(Sort::Component),
            0x05 => Ok(Sort::Instance),
            _ => Err(ReadError::At(at, "no sort")),
        }
    }
}

/// The index that ends with this byte, after the byte before it.
fn index_of(at: usize, value: u64, last: u8, before: u8) -> Result<u32, ReadError> {
    if last & 0x40 != 0 {
        return Err(ReadError::At(at, "no value type"));
    }
    if last == 0 && before & 0x40 == 0 {
        return Err(ReadError::At(at, "a number not in its shortest form"));
    }
    match u32::try_from(value) {
        Ok(n) => Ok(n),
        Err(_) => Err(ReadError::At(at, "an index over 32 bits")),
    }
}
