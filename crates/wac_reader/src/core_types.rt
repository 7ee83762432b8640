//! Core module types, each read as its text.

use super::ReadError;
use super::cursor::Cursor;
use super::type_text::TypeText;
use super::types::text_if;
use std::alloc::Global;

impl Cursor<'_> {
    fn core_value(&mut self) -> Result<&'static str, ReadError> {
        Ok(match self.byte()? {
            0x7f => "i32",
            0x7e => "i64",
            0x7d => "f32",
            0x7c => "f64",
            0x7b => "v128",
            0x70 => "funcref",
            0x6f => "externref",
            _ => return self.fault("no core type before here"),
        })
    }
}

impl TypeText<'_> {
    /// A module type: `50` and its declarations.
    pub fn module_type(&mut self, alloc: Global) {
        self.exactly(0x50, "a core type that is no module type");
        let mut functions = Vec::new(alloc);
        self.push("module { ");
        self.core_declarations(alloc, &mut functions);
        self.push("}");
    }

    fn core_declarations(&mut self, alloc: Global, functions: &mut Vec<String>) {
        for _ in 0..self.number() {
            if self.has_fault() {
                break;
            }
            self.core_declaration(alloc, functions);
        }
    }

    fn core_declaration(&mut self, alloc: Global, functions: &mut Vec<String>) {
        match self.byte() {
            0x00 => self.core_import(functions),
            0x01 => self.core_type(alloc, functions),
            0x03 => self.core_export(functions),
            _ => self.refuse("no declaration of a module type before here"),
        }
    }

    fn core_import(&mut self, functions: &Vec<String>) {
        self.push("import ");
        self.label();
        self.push(" ");
        self.label();
        self.core_described(functions);
    }

    fn core_export(&mut self, functions: &Vec<String>) {
        self.push("export ");
        self.label();
        self.core_described(functions);
    }

    fn core_described(&mut self, functions: &Vec<String>) {
        self.push(": ");
        self.core_description(functions);
        self.push("; ");
    }

    /// A function's type, which is written where an index names it.
    fn core_type(&mut self, alloc: Global, functions: &mut Vec<String>) {
        self.exactly(0x60, "a core type that is no function's");
        let mut function = TypeText::new(alloc, self.cursor);
        function.core_function();
        self.cursor = function.cursor;
        match function.finish() {
            Ok(text) => self.keep(text, functions),
            Err(fault) => self.fail(fault),
        }
    }

    fn keep(&mut self, function: String, functions: &mut Vec<String>) {
        if let Err(refusal) = functions.push(function) {
            self.fail(ReadError::from(refusal));
        }
    }

    fn core_function(&mut self) {
        self.push("(");
        self.core_values();
        self.push(") -> (");
        self.core_values();
        self.push(")");
    }

    fn core_values(&mut self) {
        for i in 0..self.number() {
            if self.has_fault() {
                break;
            }
            self.push(text_if(i > 0, ", "));
            self.core_value();
        }
    }

    fn core_value(&mut self) {
        let read = self.cursor.core_value();
        self.push_read(read);
    }

    fn core_description(&mut self, functions: &Vec<String>) {
        match self.byte() {
            0x00 => self.core_reference("func ", functions),
            0x01 => self.table(),
            0x02 => self.memory(),
            0x03 => self.global(),
            0x04 => {
                self.exactly(0x00, "a tag that is no exception");
                self.core_reference("tag ", functions);
            }
            _ => self.refuse("no core description before here"),
        }
    }

    fn core_reference(&mut self, word: &str, functions: &Vec<String>) {
        self.push(word);
        match functions.get(self.number() as usize) {
            Some(ty) => self.push(ty.as_str()),
            None => self.refuse("index out of range"),
        }
    }

    fn table(&mut self) {
        let is_reference = matches!(self.cursor.peek(), Some(0x6f | 0x70));
        self.push("table ");
        self.core_value();
        if !is_reference {
            self.refuse("a table of no references");
        }
        self.push(" ");
        self.limits();
    }

    fn memory(&mut self) {
        self.push("memory ");
        self.limits();
    }

    /// The type stands before the flag, and is written after its word.
    fn global(&mut self) {
        let read = self.cursor.core_value();
        let ty = self.known(read);
        self.push("global ");
        match self.byte() {
            0x00 => {}
            0x01 => self.push("mut "),
            _ => self.refuse("neither 00 nor 01 before here"),
        }
        self.push(ty);
    }

    /// A byte of flags, the minimum, and the maximum where there is one: `1..2`, `shared`, `64`.
    fn limits(&mut self) {
        let flags = self.byte();
        if flags > 0x07 {
            return self.refuse("flags of limits before here");
        }
        let is_wide = flags & 0x04 != 0;
        self.bound_of_limits(is_wide);
        self.push("..");
        if flags & 0x01 != 0 {
            self.bound_of_limits(is_wide);
        }
        self.push(text_if(flags & 0x02 != 0, " shared"));
        self.push(text_if(is_wide, " 64"));
    }

    fn bound_of_limits(&mut self, is_wide: bool) {
        let bound = if is_wide {
            self.wide()
        } else {
            u64::from(self.number())
        };
        self.push_number(bound);
    }
}
