//! Types: each is read as its tree's text.

use super::cursor::Cursor;
use super::told::between;
use super::type_text::TypeText;
use super::{Kind, Member, ReadError, Root, Sort, Source, Spaces, Thing};

/// The primitive type of that byte.
fn primitive(byte: u8) -> Option<&'static str> {
    Some(match byte {
        0x7f => "bool",
        0x7e => "s8",
        0x7d => "u8",
        0x7c => "s16",
        0x7b => "u16",
        0x7a => "s32",
        0x79 => "u32",
        0x78 => "s64",
        0x77 => "u64",
        0x76 => "f32",
        0x75 => "f64",
        0x74 => "char",
        0x73 => "string",
        0x64 => "error-context",
        _ => return None,
    })
}

/// The text, where it is wanted.
pub fn text_if(is_wanted: bool, text: &'static str) -> &'static str {
    if is_wanted { text } else { "" }
}

impl Spaces {
    /// Reads a type entry to its end, with the types inside it.
    pub fn type_entry(&mut self, cursor: &mut Cursor<'_>) -> Result<(), ReadError> {
        self.begin_type(cursor)?;
        // A step takes a byte, or ends a type whose beginning took two.
        for _ in 0..cursor.left().wrapping_add(2) {
            if self.scopes.len() <= 1 {
                return Ok(());
            }
            self.step(cursor)?;
        }
        cursor.fault("a type without an end")
    }

    /// Reads a type without declarations, or opens the scope of one with declarations.
    fn begin_type(&mut self, cursor: &mut Cursor<'_>) -> Result<(), ReadError> {
        let tag = cursor.byte()?;
        let kind = match tag {
            0x41 => Kind::Component,
            0x42 => Kind::Instance,
            _ => return self.defined(cursor, tag),
        };
        let left = cursor.unsigned()?;
        self.open_scope(kind, left)
    }

    /// Reads the innermost scope's next declaration, or ends that scope.
    fn step(&mut self, cursor: &mut Cursor<'_>) -> Result<(), ReadError> {
        let Some(inner) = self.scopes.last_mut() else {
            return cursor.fault("no scope");
        };
        match inner.left.checked_sub(1) {
            Some(left) => {
                inner.left = left;
                self.declaration(cursor)
            }
            None => self.end_type(cursor),
        }
    }

    /// Ends the innermost scope: its type goes into the scope around it.
    fn end_type(&mut self, cursor: &Cursor<'_>) -> Result<(), ReadError> {
        let Some(ended) = self.scopes.pop() else {
            return cursor.fault("no scope");
        };
        let word = if ended.kind == Kind::Component {
            "component { "
        } else {
            "instance { "
        };
        let text = between(self.alloc, word, ended.text.as_str(), "}")?;
        self.add_type(cursor, ended.kind, text, ended.exports)
    }

    /// A type entry's type adds one index.
    fn add_type(
        &mut self,
        cursor: &Cursor<'_>,
        kind: Kind,
        text: String,
        exports: Vec<Member>,
    ) -> Result<(), ReadError> {
        let sort = if kind == Kind::Module {
            Sort::CoreType
        } else {
            Sort::Type
        };
        let source = Source::new(self.alloc, Root::Type(text.clone()?));
        let ty = self.node(kind, text, exports)?;
        self.add(Thing { sort, source, ty }, cursor)
    }

    /// A core type: a module's.
    pub fn core_type_entry(&mut self, cursor: &mut Cursor<'_>) -> Result<(), ReadError> {
        let mut text = TypeText::new(self.alloc, *cursor);
        text.module_type(self.alloc);
        *cursor = text.cursor;
        self.add_type(cursor, Kind::Module, text.finish()?, Vec::new(self.alloc))
    }

    fn declaration(&mut self, cursor: &mut Cursor<'_>) -> Result<(), ReadError> {
        match cursor.byte()? {
            0x00 => self.core_type_entry(cursor),
            0x01 => self.begin_type(cursor),
            0x02 => self.alias_entry(cursor),
            0x03 => self.declared_import(cursor),
            0x04 => self.declared_export(cursor),
            _ => cursor.fault("no declaration before here"),
        }
    }

    /// A type without declarations, after its first byte.
    fn defined(&mut self, cursor: &mut Cursor<'_>, tag: u8) -> Result<(), ReadError> {
        let mut text = TypeText::new(self.alloc, *cursor);
        let kind = self.write_defined(&mut text, tag);
        *cursor = text.cursor;
        self.add_type(cursor, kind, text.finish()?, Vec::new(self.alloc))
    }

    fn write_defined(&self, text: &mut TypeText<'_>, tag: u8) -> Kind {
        match tag {
            0x40 => {
                self.func(text, "func(");
                Kind::Func
            }
            0x43 => {
                self.func(text, "async func(");
                Kind::Func
            }
            _ => {
                self.defined_value(text, tag);
                Kind::Value
            }
        }
    }

    fn defined_value(&self, text: &mut TypeText<'_>, tag: u8) {
        match primitive(tag) {
            Some(word) => text.push(word),
            None => self.compound(text, tag),
        }
    }

    fn compound(&self, text: &mut TypeText<'_>, tag: u8) {
        match tag {
            0x72 => self.record(text),
            0x71 => self.variant(text),
            0x67 => self.fixed_size_list(text),
            0x6f => self.tuple(text),
            0x6e => text.labels("flags"),
            0x6d => text.labels("enum"),
            0x6a => self.result_type(text),
            _ => self.around_one(text, tag),
        }
    }

    /// A type around another: a list, an option, a handle, a stream or a future.
    fn around_one(&self, text: &mut TypeText<'_>, tag: u8) {
        match tag {
            0x70 => self.one(text, "list<"),
            0x6b => self.one(text, "option<"),
            0x69 => self.handle(text, "own<"),
            0x68 => self.handle(text, "borrow<"),
            0x66 => self.at_most_one(text, "stream<"),
            0x65 => self.at_most_one(text, "future<"),
            _ => text.refuse("no type before here"),
        }
    }

    /// A primitive type, or the index of a value type.
    fn value(&self, text: &mut TypeText<'_>) {
        match text.cursor.peek().and_then(primitive) {
            Some(word) => {
                let _ = text.byte();
                text.push(word);
            }
            None => self.indexed_value(text),
        }
    }

    fn indexed_value(&self, text: &mut TypeText<'_>) {
        match text.cursor.index_as_type() {
            Ok(index) => self.write_type(text, index, Kind::Value),
            Err(fault) => text.fail(fault),
        }
    }

    /// Writes the type at that index, of that kind.
    fn write_type(&self, text: &mut TypeText<'_>, index: u32, kind: Kind) {
        let read = self.text_at(&text.cursor, index, kind);
        text.push_read(read);
    }

    fn text_at(&self, cursor: &Cursor<'_>, index: u32, kind: Kind) -> Result<&str, ReadError> {
        let ty = self.find(cursor, Sort::Type, index)?.ty;
        self.expect_kind(cursor, ty, kind)?;
        self.text_of(cursor, ty)
    }

    /// Where the type's kind is known, it is this one.
    fn expect_kind(&self, cursor: &Cursor<'_>, ty: usize, wanted: Kind) -> Result<(), ReadError> {
        let kind = self.kind_of(ty);
        if kind == wanted || kind == Kind::Unknown {
            Ok(())
        } else {
            cursor.fault("a type of another kind")
        }
    }

    /// `00`, or `01` and a type; `_` where none stands.
    fn optional_type(&self, text: &mut TypeText<'_>) {
        match text.byte() {
            0x00 => text.push("_"),
            0x01 => self.value(text),
            _ => text.refuse("neither 00 nor 01 before here"),
        }
    }

    /// Names with types, as `a: u8, b: string`.
    fn fields(&self, text: &mut TypeText<'_>) {
        for i in 0..text.number() {
            if text.has_fault() {
                break;
            }
            text.push(text_if(i > 0, ", "));
            text.label();
            text.push(": ");
            self.value(text);
        }
    }

    fn record(&self, text: &mut TypeText<'_>) {
        text.push("record { ");
        self.fields(text);
        text.push(" }");
    }

    fn variant(&self, text: &mut TypeText<'_>) {
        text.push("variant {");
        for i in 0..text.number() {
            if text.has_fault() {
                break;
            }
            text.push(if i > 0 { ", " } else { " " });
            self.case(text);
        }
        text.push(" }");
    }

    fn case(&self, text: &mut TypeText<'_>) {
        text.label();
        text.push("(");
        self.optional_type(text);
        text.exactly(0x00, "a case with more");
        text.push(")");
    }

    fn one(&self, text: &mut TypeText<'_>, word: &str) {
        text.push(word);
        self.value(text);
        text.push(">");
    }

    fn fixed_size_list(&self, text: &mut TypeText<'_>) {
        text.push("list<");
        self.value(text);
        text.push(", ");
        let length = text.number();
        text.push_number(u64::from(length));
        text.push(">");
    }

    fn tuple(&self, text: &mut TypeText<'_>) {
        text.push("tuple<");
        for i in 0..text.number() {
            if text.has_fault() {
                break;
            }
            text.push(text_if(i > 0, ", "));
            self.value(text);
        }
        text.push(">");
    }

    fn result_type(&self, text: &mut TypeText<'_>) {
        text.push("result<");
        self.optional_type(text);
        text.push(", ");
        self.optional_type(text);
        text.push(">");
    }

    fn handle(&self, text: &mut TypeText<'_>, word: &str) {
        text.push(word);
        let index = text.number();
        self.write_type(text, index, Kind::Resource);
        text.push(">");
    }

    fn at_most_one(&self, text: &mut TypeText<'_>, word: &str) {
        text.push(word);
        self.optional_type(text);
        text.push(">");
    }

    /// `func(a: u8) -> u8`.
    fn func(&self, text: &mut TypeText<'_>, word: &str) {
        text.push(word);
        self.fields(text);
        text.push(")");
        self.func_result(text);
    }

    /// A function's result, where it has one.
    fn func_result(&self, text: &mut TypeText<'_>) {
        match text.byte() {
            0x00 => {
                text.push(" -> ");
                self.value(text);
            }
            0x01 => text.exactly(0x00, "results with names"),
            _ => text.refuse("neither 00 nor 01 before here"),
        }
    }

    /// What goes under that name is said to be of a sort, and of a type by number.
    pub fn description(
        &mut self,
        cursor: &mut Cursor<'_>,
        name: &str,
    ) -> Result<(Sort, usize), ReadError> {
        let sort = cursor.sort()?;
        let (space, kind) = match sort {
            Sort::Type | Sort::CoreType => return Ok((Sort::Type, self.bound(cursor, name)?)),
            Sort::Module => (Sort::CoreType, Kind::Module),
            Sort::Func => (Sort::Type, Kind::Func),
            Sort::Component => (Sort::Type, Kind::Component),
            Sort::Instance => (Sort::Type, Kind::Instance),
        };
        let ty = self.indexed(cursor, space)?.ty;
        self.expect_kind(cursor, ty, kind)?;
        Ok((sort, ty))
    }

    /// `00` and the index of an equal type, or `01`: a fresh resource.
    fn bound(&mut self, cursor: &mut Cursor<'_>, name: &str) -> Result<usize, ReadError> {
        match cursor.byte()? {
            0x00 => Ok(self.indexed(cursor, Sort::Type)?.ty),
            0x01 => {
                let text = between(self.alloc, "resource ", name, "")?;
                self.node(Kind::Resource, text, Vec::new(self.alloc))
            }
            _ => cursor.fault("no bound of a type before here"),
        }
    }

    /// A description's text: the type's, after `type` where a type other than a resource is described.
    pub fn described(
        &self,
        cursor: &Cursor<'_>,
        sort: Sort,
        ty: usize,
    ) -> Result<String, ReadError> {
        let text = self.text_of(cursor, ty)?;
        let is_value = sort == Sort::Type && self.kind_of(ty) != Kind::Resource;
        between(self.alloc, text_if(is_value, "type "), text, "")
    }
}
