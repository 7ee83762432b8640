//! Worlds of components that other tools made, told as text.

use std::alloc::Global;
use std::test::Fail;
use wac_component::*;
use wac_types_base::{
    DefinedType, FuncType, FuncTypeId, Interface, InterfaceId, ItemKind, NamedMap, PrimitiveType,
    ResourceId, Type, Types, UsedType, ValueType, World,
};

/// What is still to be told of a type.
#[derive(Drop)]
enum Piece {
    Text(String),
    Value(ValueType),
}

/// How often a type is taken apart at most.
const MOST: usize = 100_000;

/// Pieces in order.
#[derive(Drop)]
struct Pieces {
    alloc: Global,
    list: Vec<Piece>,
}

impl Pieces {
    fn new(alloc: Global) -> Self {
        Pieces {
            alloc,
            list: Vec::new(alloc),
        }
    }

    fn text(&mut self, text: &str) -> Result<(), Fail> {
        self.list
            .push(Piece::Text(String::from_str(self.alloc, text)?))?;
        Ok(())
    }

    fn value(&mut self, ty: ValueType) -> Result<(), Fail> {
        self.list.push(Piece::Value(ty))?;
        Ok(())
    }

    /// A type with one type in it.
    fn one(&mut self, word: &str, ty: ValueType) -> Result<(), Fail> {
        self.text(word)?;
        self.text("<")?;
        self.value(ty)?;
        self.text(">")
    }

    fn optional(&mut self, ty: Option<ValueType>) -> Result<(), Fail> {
        match ty {
            Some(ty) => self.value(ty),
            None => self.text("_"),
        }
    }

    fn fields(&mut self, fields: &NamedMap<ValueType>) -> Result<(), Fail> {
        for at in 0..fields.len() {
            let (name, ty) = fields.entry(at);
            if at > 0 {
                self.text(", ")?;
            }
            self.text(name)?;
            self.text(": ")?;
            self.value(*ty)?;
        }
        Ok(())
    }

    fn cases(&mut self, cases: &NamedMap<Option<ValueType>>) -> Result<(), Fail> {
        for at in 0..cases.len() {
            let (name, ty) = cases.entry(at);
            if at > 0 {
                self.text(", ")?;
            }
            self.text(name)?;
            if let Some(ty) = ty {
                self.text("(")?;
                self.value(*ty)?;
                self.text(")")?;
            }
        }
        Ok(())
    }

    fn names(&mut self, word: &str, names: &[String]) -> Result<(), Fail> {
        self.text(word)?;
        self.text(" {")?;
        let mut first = true;
        for name in names {
            if !first {
                self.text(", ")?;
            }
            first = false;
            self.text(name.as_str())?;
        }
        self.text("}")
    }

    fn values(&mut self, types: &[ValueType]) -> Result<(), Fail> {
        self.text("tuple<")?;
        let mut first = true;
        for ty in types {
            if !first {
                self.text(", ")?;
            }
            first = false;
            self.value(*ty)?;
        }
        self.text(">")
    }

    fn defined(&mut self, ty: &DefinedType) -> Result<(), Fail> {
        match ty {
            DefinedType::Tuple(items) => self.values(items.as_slice()),
            DefinedType::List(ty) => self.one("list", *ty),
            DefinedType::FixedSizeList(ty, length) => {
                self.text("list<")?;
                self.value(*ty)?;
                let length = format!(in self.alloc; ", {length}>")?;
                self.text(length.as_str())
            }
            DefinedType::Option(ty) => self.one("option", *ty),
            DefinedType::Result { ok, err } => {
                self.text("result<")?;
                self.optional(*ok)?;
                self.text(", ")?;
                self.optional(*err)?;
                self.text(">")
            }
            DefinedType::Variant(variant) => {
                self.text("variant {")?;
                self.cases(&variant.cases)?;
                self.text("}")
            }
            DefinedType::Record(record_type) => {
                self.text("record {")?;
                self.fields(&record_type.fields)?;
                self.text("}")
            }
            DefinedType::Flags(flags) => self.names("flags", flags.0.as_slice()),
            DefinedType::Enum(cases) => self.names("enum", cases.0.as_slice()),
            DefinedType::Alias(ty) => self.value(*ty),
            DefinedType::Stream(ty) => {
                self.text("stream<")?;
                self.optional(*ty)?;
                self.text(">")
            }
            DefinedType::Future(ty) => {
                self.text("future<")?;
                self.optional(*ty)?;
                self.text(">")
            }
        }
    }
}

fn word_of(primitive: PrimitiveType) -> &'static str {
    match primitive {
        PrimitiveType::U8 => "u8",
        PrimitiveType::S8 => "s8",
        PrimitiveType::U16 => "u16",
        PrimitiveType::S16 => "s16",
        PrimitiveType::U32 => "u32",
        PrimitiveType::S32 => "s32",
        PrimitiveType::U64 => "u64",
        PrimitiveType::S64 => "s64",
        PrimitiveType::F32 => "f32",
        PrimitiveType::F64 => "f64",
        PrimitiveType::Char => "char",
        PrimitiveType::Bool => "bool",
        PrimitiveType::String => "string",
        PrimitiveType::ErrorContext => "error-context",
    }
}

fn lost() -> Fail {
    Fail::from("an id does not stand")
}

/// A text of types.
#[derive(Drop)]
struct Teller<'a> {
    alloc: Global,
    types: &'a Types,
    out: String,
}

impl Teller<'_> {
    fn text(&mut self, text: &str) -> Result<(), Fail> {
        self.out.push_str(text)?;
        Ok(())
    }

    fn resource(&mut self, id: ResourceId) -> Result<(), Fail> {
        let types = self.types;
        if !types.has(ItemKind::Ty(Type::Resource(id))) {
            return Err(lost());
        }
        self.text(types.resource(id).name.as_str())
    }

    fn handle(&mut self, word: &str, id: ResourceId) -> Result<(), Fail> {
        self.text(word)?;
        self.text("<")?;
        self.resource(id)?;
        self.text(">")
    }

    /// Tells pieces, and the pieces that they are made of.
    fn pieces(&mut self, pieces: Pieces) -> Result<(), Fail> {
        let types = self.types;
        let mut stack = pieces.list;
        stack.reverse();
        for _ in 0..MOST {
            match stack.pop() {
                None => return Ok(()),
                Some(Piece::Text(text)) => self.text(text.as_str())?,
                Some(Piece::Value(ValueType::Primitive(primitive))) => {
                    self.text(word_of(primitive))?
                }
                Some(Piece::Value(ValueType::Own(id))) => self.handle("own", id)?,
                Some(Piece::Value(ValueType::Borrow(id))) => self.handle("borrow", id)?,
                Some(Piece::Value(ValueType::Defined(id))) => {
                    if !types.has(ItemKind::Value(ValueType::Defined(id))) {
                        return Err(lost());
                    }
                    let mut inner = Pieces::new(self.alloc);
                    inner.defined(types.defined_type(id))?;
                    let mut parts = inner.list;
                    for _ in 0..parts.len() {
                        if let Some(part) = parts.pop() {
                            stack.push(part)?;
                        }
                    }
                }
            }
        }
        Err(Fail::from("a type that is too large"))
    }

    fn func_type(&mut self, func: &FuncType) -> Result<(), Fail> {
        let mut pieces = Pieces::new(self.alloc);
        pieces.text(if func.is_async {
            "async func("
        } else {
            "func("
        })?;
        pieces.fields(&func.params)?;
        pieces.text(")")?;
        if let Some(ty) = func.result {
            pieces.text(" -> ")?;
            pieces.value(ty)?;
        }
        self.pieces(pieces)
    }

    fn func(&mut self, id: FuncTypeId) -> Result<(), Fail> {
        let types = self.types;
        if !types.has(ItemKind::Func(id)) {
            return Err(lost());
        }
        self.func_type(types.func_type(id))
    }

    /// What an item is that is no instance.
    fn plain(&mut self, kind: ItemKind) -> Result<(), Fail> {
        match kind {
            ItemKind::Func(id) => self.func(id),
            ItemKind::Ty(Type::Func(id)) => {
                self.text("type ")?;
                self.func(id)
            }
            ItemKind::Ty(Type::Resource(id)) => {
                self.text("resource ")?;
                self.resource(id)
            }
            ItemKind::Ty(Type::Value(ty)) => {
                self.text("type ")?;
                let mut pieces = Pieces::new(self.alloc);
                pieces.value(ty)?;
                self.pieces(pieces)
            }
            _ => self.text("something else"),
        }
    }

    /// The identifier of an interface.
    fn interface_name(&mut self, interface: &Interface) -> Result<(), Fail> {
        match &interface.id {
            Some(id) => self.text(id.as_str()),
            None => self.text("_"),
        }
    }

    fn uses(&mut self, pad: &str, uses: &NamedMap<UsedType>) -> Result<(), Fail> {
        let types = self.types;
        for at in 0..uses.len() {
            let (name, used) = uses.entry(at);
            if !types.has(ItemKind::Instance(used.interface)) {
                return Err(lost());
            }
            self.text(pad)?;
            self.text("use ")?;
            self.text(name)?;
            self.text(" = ")?;
            self.interface_name(types.interface(used.interface))?;
            self.text(".")?;
            match &used.name {
                Some(original) => self.text(original.as_str())?,
                None => self.text(name)?,
            }
            self.text("\n")?;
        }
        Ok(())
    }

    fn instance(&mut self, id: InterfaceId) -> Result<(), Fail> {
        let types = self.types;
        if !types.has(ItemKind::Instance(id)) {
            return Err(lost());
        }
        let interface = types.interface(id);
        self.text(" = interface ")?;
        self.interface_name(interface)?;
        self.text("\n")?;
        self.uses("  ", &interface.uses)?;
        for at in 0..interface.exports.len() {
            let (name, kind) = interface.exports.entry(at);
            self.text("  ")?;
            self.text(name)?;
            self.text(": ")?;
            self.plain(*kind)?;
            self.text("\n")?;
        }
        Ok(())
    }

    fn items(&mut self, word: &str, items: &NamedMap<ItemKind>) -> Result<(), Fail> {
        for at in 0..items.len() {
            let (name, kind) = items.entry(at);
            self.text(word)?;
            self.text(" ")?;
            self.text(name)?;
            match *kind {
                ItemKind::Instance(id) => self.instance(id)?,
                other => {
                    self.text(": ")?;
                    self.plain(other)?;
                    self.text("\n")?;
                }
            }
        }
        Ok(())
    }

    fn world(&mut self, world: &World) -> Result<(), Fail> {
        self.uses("", &world.uses)?;
        self.items("import", &world.imports)?;
        self.items("export", &world.exports)
    }
}

/// The world of a component, as text.
fn told(alloc: Global, digits: &str) -> Result<String, Fail> {
    let bytes = hex::decode(alloc, digits)?;
    let (types, id) = read_world(alloc, &bytes, 7)?;
    let mut teller = Teller {
        alloc,
        types: &types,
        out: String::new(alloc),
    };
    teller.world(types.world(id))?;
    let Teller {
        alloc: _,
        types: _,
        out,
    } = teller;
    Ok(out)
}

/// A component written for the world of this text.
///
/// ```text
/// package t:w;
/// interface types {
///   resource r { constructor(s: string); m: func() -> u32; st: static func(x: borrow<r>) -> r; }
///   record p { x: u32, y: string }
///   variant v { a, b(p), c(list<u8>) }
///   enum e { red, green }
///   flags f { one, two }
///   type q = option<p>;
///   go: func(a: p, b: v) -> result<r, e>;
/// }
/// interface more {
///   use types.{r, p as point};
///   resource own { constructor(); get: func(x: borrow<r>) -> tuple<point, f32>; }
///   run: async func(o: own) -> option<point>;
/// }
/// world w {
///   import types;
///   use types.{e};
///   import log: func(x: string, y: e);
///   export main: func() -> list<string>;
///   export more;
/// }
/// ```
const STATED: &str = "\
    0061736d0d00010007d101014217040001720301016900014001017373000104000e5b636f6e7374727563746f725d\
    7201020168000140010473656c6603007904000b5b6d6574686f645d722e6d0104014001017803000104000c5b7374\
    617469635d722e737401050172020178790179730400017003000601707d0171030161000001620107000163010800\
    04000176030009016d020372656405677265656e0400016503000b016e02036f6e650374776f0400016603000d016b\
    070400017103000f016a0101010c01400201610701620a0011040002676f01120a0e010009743a772f747970657305\
    0006060103000001650a0701000165030001070b01400201787301790201000a080100036c6f670103070301707307\
    050140000004013b0061736d01000000010d026000017f60047f7f7f7f017f03030200010503010001070d03016600\
    0001720001016d02000a09020300000b0300000b02040100000006130300000100016600000100017200020100016d\
    080b01000000030003000401050b0a0100046d61696e010100060601030000017206060103000001700704013f7f00\
    070301690807050140000009080b010000000300030004010a070301680807030168060705016f020776070e014002\
    0473656c660b01780c000d013d0061736d01000000010f0260027f7f017f60047f7f7f7f017f030302000105030100\
    01070d030166000001720001016d02000a09020300000b0300000b0204010001000613030000010101660000010101\
    7200020101016d080b010000020300030104030e0703016b070708014301016f09000f013c0061736d01000000010e\
    0260017f017f60047f7f7f7f017f03030200010503010001070d030166000001720001016d02000a09020300000b03\
    00000b02040100020006130300000102016600000102017200020102016d080b010000040300030204051004eb0200\
    61736d0d0001000a1301000e696d706f72742d747970652d7830030107090172020178790179730a1401000e696d70\
    6f72742d747970652d78310300010a1301000e696d706f72742d747970652d78320301070301690307050140000004\
    0a1301000e696d706f72742d66756e632d78330105070301680307030168000705016f020276070e0140020473656c\
    660601780700080a1301000e696d706f72742d66756e632d783401090703016b020708014301016f04000a0a130100\
    0e696d706f72742d66756e632d7835010b0b07010001720300000b0b010005706f696e740302000b090100036f776e\
    030300070301690e0705014000000f0b180100105b636f6e7374727563746f725d6f776e0100010110070301680e07\
    0301680c0705016f020d76070e0140020473656c661101781200130b1701000f5b6d6574686f645d6f776e2e676574\
    01010101140703016b0d0708014301016f0f00150b0b01000372756e0102010116056a010000060e696d706f72742d\
    747970652d783003060e696d706f72742d747970652d783103070e696d706f72742d747970652d783203080e696d70\
    6f72742d66756e632d783301030e696d706f72742d66756e632d783401040e696d706f72742d66756e632d78350105\
    0b0e010008743a772f6d6f7265050100";

const STATED_WORLD: &str = "\
    use e = t:w/types.e\n\
    import t:w/types = interface t:w/types\n\
    \x20\x20r: resource r\n\
    \x20\x20[constructor]r: func(s: string) -> own<r>\n\
    \x20\x20[method]r.m: func(self: borrow<r>) -> u32\n\
    \x20\x20[static]r.st: func(x: borrow<r>) -> own<r>\n\
    \x20\x20p: type record {x: u32, y: string}\n\
    \x20\x20v: type variant {a, b(record {x: u32, y: string}), c(list<u8>)}\n\
    \x20\x20e: type enum {red, green}\n\
    \x20\x20f: type flags {one, two}\n\
    \x20\x20q: type option<record {x: u32, y: string}>\n\
    \x20\x20go: func(a: record {x: u32, y: string}, b: variant {a, b(record {x: u32, y: string}), c(list<u8>)}) -> result<own<r>, enum {red, green}>\n\
    import e: type enum {red, green}\n\
    import log: func(x: string, y: enum {red, green})\n\
    export main: func() -> list<string>\n\
    export t:w/more = interface t:w/more\n\
    \x20\x20use r = t:w/types.r\n\
    \x20\x20use point = t:w/types.p\n\
    \x20\x20r: resource r\n\
    \x20\x20point: type record {x: u32, y: string}\n\
    \x20\x20own: resource own\n\
    \x20\x20[constructor]own: func() -> own<own>\n\
    \x20\x20[method]own.get: func(self: borrow<own>, x: borrow<r>) -> tuple<record {x: u32, y: string}, f32>\n\
    \x20\x20run: async func(o: own<own>) -> option<record {x: u32, y: string}>\n\
";

/// A component that another tool made of a core module over the world of this text.
///
/// ```text
/// package a:b;
/// interface t {
///   resource s { m: func(); }
///   record r { x: u32 }
/// }
/// interface i {
///   use t.{s, r as q};
///   f: func(v: borrow<s>, w: q) -> s;
/// }
/// world w {
///   import t;
///   import i;
///   export t;
///   export i;
/// }
/// ```
const MADE: &str = "\
    0061736d0d0001000734014206040001730301017201017879040001720300010168000140010473656c6603010004\
    000b5b6d6574686f645d732e6d01040a0a010005613a622f740500060b020300000173030000017207320142080203\
    0201010400017303000002030201020400017103000201680101690101400201760401770300050400016601060a0a\
    010005613a622f69050301db010061736d0100000001130360017f0060027f7f017f60047f7f7f7f017f0238030561\
    3a622f740b5b6d6574686f645d732e6d000005613a622f74105b7265736f757263652d64726f705d73000005613a62\
    2f6901660001030403000102050301000107370411613a622f74235b6d6574686f645d732e6d000307613a622f6923\
    6600040c636162695f7265616c6c6f630005066d656d6f727902000a0d030300000b0300000b0300000b002f097072\
    6f647563657273010c70726f6365737365642d6279010d7769742d636f6d706f6e656e7407302e3234352e31070902\
    3f7f0072010178790610010100000b5b6d6574686f645d732e6d080501010000000606010300000173080301030602\
    240101020b5b6d6574686f645d732e6d0000105b7265736f757263652d64726f705d73000106060101000101660805\
    0101000100021a0201010166000200000205613a622f74120005613a622f691201060c0100020102066d656d6f7279\
    070d02680440010473656c660701000628020000010211613a622f74235b6d6574686f645d732e6d000001020c6361\
    62695f7265616c6c6f6308060100000300080481010061736d0d0001000a1201000d696d706f72742d747970652d73\
    0301070d02680040010473656c660101000a16010011696d706f72742d6d6574686f642d732d6d01020b0701000173\
    03000007060172010178790b0701000172030400070d02680340010473656c660601000b1301000b5b6d6574686f64\
    5d732e6d010001010705280100000211696d706f72742d6d6574686f642d732d6d01020d696d706f72742d74797065\
    2d7303040b0b010005613a622f74050200070f03680469044002017609017705000a060d010000010207613a622f69\
    2366080601000005000b060b020300030173030003017204b4010061736d0d0001000a1201000d696d706f72742d74\
    7970652d73030107060172010178790a2602000d696d706f72742d747970652d72030001000e696d706f72742d7479\
    70652d733003000007030168030a1301000d696d706f72742d747970652d71030002070d0269034002017604017705\
    00060a1201000d696d706f72742d66756e632d6601070b0d02000173030000000171030200070f0368086908400201\
    760a017709000b0b0901000166010001010c0555010001050d696d706f72742d66756e632d6601030d696d706f7274\
    2d747970652d73030c0d696d706f72742d747970652d72030d0e696d706f72742d747970652d733003040d696d706f\
    72742d747970652d7103050b0b010005613a622f6905040000a0030e636f6d706f6e656e742d6e616d65014c000006\
    000b5b6d6574686f645d732e6d010d7265736f757263652e64726f700201660311613a622f74235b6d6574686f645d\
    732e6d040c636162695f7265616c6c6f630507613a622f692366010b00020100066d656d6f7279010900110100046d\
    61696e01170012030005613a622f740105613a622f6902046d61696e014805060005613a622f740105613a622f6902\
    13613a622f742d7368696d2d696e7374616e63650305613a622f740413613a622f692d7368696d2d696e7374616e63\
    650505613a622f6901220104000b5b6d6574686f645d732e6d010166020b5b6d6574686f645d732e6d030166012803\
    08000874792d613a622f74010173020172030874792d613a622f690401730601730c01730d0172012e04020014613a\
    622f742d7368696d2d636f6d706f6e656e740114613a622f692d7368696d2d636f6d706f6e656e7401480506000561\
    3a622f740105613a622f690213613a622f742d7368696d2d696e7374616e63650305613a622f740413613a622f692d\
    7368696d2d696e7374616e63650505613a622f69002f0970726f647563657273010c70726f6365737365642d627901\
    0d7769742d636f6d706f6e656e7407302e3234352e31";

const MADE_WORLD: &str = "\
    import a:b/t = interface a:b/t\n\
    \x20\x20s: resource s\n\
    \x20\x20r: type record {x: u32}\n\
    \x20\x20[method]s.m: func(self: borrow<s>)\n\
    import a:b/i = interface a:b/i\n\
    \x20\x20use s = a:b/t.s\n\
    \x20\x20use q = a:b/t.r\n\
    \x20\x20s: resource s\n\
    \x20\x20q: type record {x: u32}\n\
    \x20\x20f: func(v: borrow<s>, w: record {x: u32}) -> own<s>\n\
    export a:b/t = interface a:b/t\n\
    \x20\x20s: resource s\n\
    \x20\x20r: type record {x: u32}\n\
    \x20\x20[method]s.m: func(self: borrow<s>)\n\
    export a:b/i = interface a:b/i\n\
    \x20\x20use s = a:b/t.s\n\
    \x20\x20use q = a:b/t.r\n\
    \x20\x20s: resource s\n\
    \x20\x20q: type record {x: u32}\n\
    \x20\x20f: func(v: borrow<s>, w: record {x: u32}) -> own<s>\n\
";

#[test]
fn worlds_are_those_of_the_texts(rt: HostRuntime) -> Result<(), Fail> {
    let alloc = rt.alloc();
    let text = told(alloc, STATED)?;
    assert_eq!(rt; text.as_str(), STATED_WORLD);
    let text = told(alloc, MADE)?;
    assert_eq!(rt; text.as_str(), MADE_WORLD);
    Ok(())
}

/// What is refused behind the preamble, and in the section that begins at which offset.
fn refused(alloc: Global, digits: &str) -> Result<Option<(usize, WorldFault)>, Fail> {
    let mut bytes = hex::decode(alloc, "0061736d0d000100")?;
    bytes.extend_from_slice(&hex::decode(alloc, digits)?)?;
    match read_world(alloc, &bytes, 7) {
        Ok(_) => Ok(None),
        Err(WorldError::Refused { offset, kind }) => Ok(Some((offset, kind))),
        Err(_) => Err(Fail::from("not read")),
    }
}

#[test]
fn refusals_have_names_and_offsets(rt: HostRuntime) -> Result<(), Fail> {
    let alloc = rt.alloc();
    assert_eq!(rt; refused(alloc, "")?, None);
    // A function that is not there is exported.
    assert_eq!(rt;
        refused(alloc, "0b0701000161010000")?,
        Some((8, WorldFault::Index))
    );
    // Two imports of one name.
    assert_eq!(rt;
        refused(alloc, "070501400001000a0b0200016101000001610100")?,
        Some((15, WorldFault::Name))
    );
    // What is no export of an instance.
    assert_eq!(rt;
        refused(alloc, "07030142000a060100016105000606010100000162")?,
        Some((21, WorldFault::Export))
    );
    // Two instances with the same resource of their own.
    assert_eq!(rt;
        refused(alloc, "07090142010400017203010a0b0200016105000001620500")?,
        Some((19, WorldFault::Resources))
    );
    // A core module.
    assert_eq!(rt;
        refused(alloc, "03030150000a0701000161001100")?,
        Some((13, WorldFault::CoreModule))
    );
    // A nested component without what it imports.
    assert_eq!(rt;
        refused(
            alloc,
            "04170061736d0d000100070501400001000a06010001610100050401000000"
        )?,
        Some((25, WorldFault::Argument))
    );
    Ok(())
}
