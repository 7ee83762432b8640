//! Types of values and of functions.

ghost use Rattle.std.specs.Prelude.{map, codes, None};
ghost use Rattle.std.specs.Option.{option_map};
ghost use Rattle.wac_parser_tree.specs.Trees.{maybe_ty, tys};
ghost use Rattle.wac_parser_print.specs.Results.{behind_success};
ghost use Rattle.wac_parser_print.specs.Texts.{enclosed, result_of, slice};
ghost use Rattle.wac_parser_tree.specs.Views.{view_boxed_ty, view_func_type, view_func_type_ref, view_named_type, view_result_list, view_ty};
ghost use Rattle.wac_parser_print.specs.Printing as text;
ghost use Rattle.wac_parser_print.specs.Printers.{Adds};

use crate::printer::DocumentPrinter;
use wac_parser_tree::{FuncType, FuncTypeRef, Ident, NamedType, ResultList, Type};
use wac_streams::ByteSink;

impl<W: ByteSink + Drop> DocumentPrinter<'_, W> {
    #[cycle(ty)]
    pub(crate) fn add_ty(&mut self, ty: &Type<'_>)
        ensures { Adds self.old (text.ty (view_ty ty.now)) self.new }
    {
        match ty {
            Type::U8(_) => self.word("u8"),
            Type::S8(_) => self.word("s8"),
            Type::U16(_) => self.word("u16"),
            Type::S16(_) => self.word("s16"),
            Type::U32(_) => self.word("u32"),
            Type::S32(_) => self.word("s32"),
            Type::U64(_) => self.word("u64"),
            Type::S64(_) => self.word("s64"),
            Type::F32(_) => self.word("f32"),
            Type::F64(_) => self.word("f64"),
            Type::Char(_) => self.word("char"),
            Type::Bool(_) => self.word("bool"),
            Type::String(_) => self.word("string"),
            Type::Tuple(types, _) => self.add_tuple(types),
            Type::List(ty, _) => self.add_enclosed(ty, "list<"),
            Type::Option(ty, _) => self.add_enclosed(ty, "option<"),
            Type::Result { ok: None, err, .. } => self.add_without_success(err),
            Type::Result {
                ok: Some(ok),
                err,
                ..
            } => {
                self.word("result<");
                self.add_ty(ok);
                self.add_behind_success(err);
            }
            Type::Borrow(id, _) => self.add_borrow(id),
            Type::Stream(None, _) => self.word("stream"),
            Type::Stream(Some(ty), _) => self.add_enclosed(ty, "stream<"),
            Type::Future(None, _) => self.word("future"),
            Type::Future(Some(ty), _) => self.add_enclosed(ty, "future<"),
            Type::ErrorContext(_) => self.word("error-context"),
            Type::Ident(id) => self.slice(id.span),
        }
    }

    /// Adds a type behind an opening and before `>`.
    #[cycle(ty)]
    fn add_enclosed(&mut self, ty: &Type<'_>, opening: &str)
        ensures { Adds self.old (enclosed opening.now (text.ty (view_ty ty.now))) self.new }
    {
        self.word(opening);
        self.add_ty(ty);
        self.word(">");
    }

    /// Adds a result without a type of success.
    #[cycle(ty)]
    fn add_without_success(&mut self, err: &Option<Box<Type<'_>>>)
        ensures { Adds self.old (result_of None (text.payload (maybe_ty (option_map view_boxed_ty err.now)))) self.new }
    {
        match err {
            Some(err) => self.add_enclosed(err, "result<_, "),
            None => self.word("result"),
        }
    }

    /// Adds what stands behind the type of success of a result.
    #[cycle(ty)]
    fn add_behind_success(&mut self, err: &Option<Box<Type<'_>>>)
        ensures { Adds self.old (behind_success (text.payload (maybe_ty (option_map view_boxed_ty err.now)))) self.new }
    {
        match err {
            Some(err) => self.add_enclosed(err, ", "),
            None => self.word(">"),
        }
    }

    #[cycle(ty)]
    fn add_tuple(&mut self, types: &Vec<Type<'_>>)
        ensures { Adds self.old (enclosed (codes "tuple<") (text.tys (tys (map view_ty types.now.items)))) self.new }
    {
        self.word("tuple<");
        let mut between = "";
        for ty in types {
            self.word(between);
            self.add_ty(ty);
            between = ", ";
        }
        self.word(">");
    }

    fn add_borrow(&mut self, id: &Ident<'_>)
        ensures { Adds self.old (enclosed (codes "borrow<") (slice id.now.span)) self.new }
    {
        self.word("borrow<");
        self.slice(id.span);
        self.word(">");
    }

    fn add_named_type(&mut self, named: &NamedType<'_>)
        ensures { Adds self.old (text.named_type (view_named_type named.now)) self.new }
    {
        self.slice(named.id.span);
        self.word(": ");
        self.add_ty(&named.ty);
    }

    pub(crate) fn add_named_types(&mut self, types: &Vec<NamedType<'_>>)
        ensures { Adds self.old (text.named_types (map view_named_type types.now.items)) self.new }
    {
        let mut between = "";
        for ty in types {
            self.word(between);
            self.add_named_type(ty);
            between = ", ";
        }
    }

    fn add_result_list(&mut self, results: &ResultList<'_>)
        ensures { Adds self.old (text.result_list (view_result_list results.now)) self.new }
    {
        match results {
            ResultList::Scalar(ty) => {
                self.word(" -> ");
                self.add_ty(ty);
            }
            ResultList::Empty => {}
        }
    }

    /// Adds a keyword where it stands.
    pub(crate) fn add_keyword_if(&mut self, keyword: &str, stands: bool)
        ensures { Adds self.old (text.keyword_if keyword.now stands) self.new }
    {
        if stands {
            self.word(keyword);
        }
    }

    pub(crate) fn add_func_type(&mut self, ty: &FuncType<'_>)
        ensures { Adds self.old (text.func_type (view_func_type ty.now)) self.new }
    {
        self.add_keyword_if("async ", ty.is_async);
        self.word("func(");
        self.add_named_types(&ty.params);
        self.word(")");
        self.add_result_list(&ty.results);
    }

    pub(crate) fn add_func_type_ref(&mut self, ty: &FuncTypeRef<'_>)
        ensures { Adds self.old (text.func_type_ref (view_func_type_ref ty.now)) self.new }
    {
        match ty {
            FuncTypeRef::Func(ty) => self.add_func_type(ty),
            FuncTypeRef::Ident(id) => self.slice(id.span),
        }
    }
}
