//! Types of values and of functions.

ghost use Rattle.std.specs.Prelude.{◌≡◌, IfOk, map};
ghost use Rattle.std.specs.Option.{option_map};
ghost use Rattle.wac_parser_tree.specs.Accessors.{ty_span};
ghost use Rattle.wac_parser_tree.specs.Views.{view_boxed_ty, view_func_type, view_func_type_ref, view_named_type, view_result_list, view_ty};

use crate::lists::clone_all;
use crate::text::Ident;
use std::alloc::{AllocError, Global};
use wac_parser_lexer::SourceSpan;

/// The type of a value.
#[derive(Debug)]
pub enum Type<'a> {
    /// `u8`.
    U8(SourceSpan),
    /// `s8`.
    S8(SourceSpan),
    /// `u16`.
    U16(SourceSpan),
    /// `s16`.
    S16(SourceSpan),
    /// `u32`.
    U32(SourceSpan),
    /// `s32`.
    S32(SourceSpan),
    /// `u64`.
    U64(SourceSpan),
    /// `s64`.
    S64(SourceSpan),
    /// `f32`.
    F32(SourceSpan),
    /// `f64`.
    F64(SourceSpan),
    /// `char`.
    Char(SourceSpan),
    /// `bool`.
    Bool(SourceSpan),
    /// `string`.
    String(SourceSpan),
    /// `tuple<..>`.
    Tuple(Vec<Type<'a>>, SourceSpan),
    /// `list<..>`.
    List(Box<Type<'a>>, SourceSpan),
    /// `option<..>`.
    Option(Box<Type<'a>>, SourceSpan),
    /// `result`, with the types that it has.
    Result {
        /// The type of a success.
        ok: Option<Box<Type<'a>>>,
        /// The type of a failure.
        err: Option<Box<Type<'a>>>,
        /// Where the type stands.
        span: SourceSpan,
    },
    /// `borrow<ID>`.
    Borrow(Ident<'a>, SourceSpan),
    /// `stream`, with a type or without.
    Stream(Option<Box<Type<'a>>>, SourceSpan),
    /// `future`, with a type or without.
    Future(Option<Box<Type<'a>>>, SourceSpan),
    /// `error-context`.
    ErrorContext(SourceSpan),
    /// A declared type.
    Ident(Ident<'a>),
}

// It takes the value apart: where one is held at a `?`, a derived drop is proved there part by part.
impl Drop for Type<'_> {
    fn drop(self) {
        match self {
            Type::U8(_) => {}
            Type::S8(_) => {}
            Type::U16(_) => {}
            Type::S16(_) => {}
            Type::U32(_) => {}
            Type::S32(_) => {}
            Type::U64(_) => {}
            Type::S64(_) => {}
            Type::F32(_) => {}
            Type::F64(_) => {}
            Type::Char(_) => {}
            Type::Bool(_) => {}
            Type::String(_) => {}
            Type::Tuple(_, _) => {}
            Type::List(_, _) => {}
            Type::Option(_, _) => {}
            Type::Result {
                ok: _,
                err: _,
                span: _,
            } => {}
            Type::Borrow(_, _) => {}
            Type::Stream(_, _) => {}
            Type::Future(_, _) => {}
            Type::ErrorContext(_) => {}
            Type::Ident(_) => {}
        }
    }
}

/// A name with its type: `ID: TYPE`.
#[derive(Debug, Drop)]
pub struct NamedType<'a> {
    /// The name.
    pub id: Ident<'a>,
    /// Its type.
    pub ty: Type<'a>,
}

/// A type `[async] func(PARAMS) [-> TYPE]`.
#[derive(Debug, Drop)]
pub struct FuncType<'a> {
    /// Whether `async` stands before it.
    pub is_async: bool,
    /// The parameters, in order.
    pub params: Vec<NamedType<'a>>,
    /// What it returns.
    pub results: ResultList<'a>,
}

/// What a function returns.
#[derive(Debug)]
pub enum ResultList<'a> {
    /// Nothing.
    Empty,
    /// A value of a type.
    Scalar(Type<'a>),
}

// It takes the value apart: where one is held at a `?`, a derived drop is proved there part by part.
impl Drop for ResultList<'_> {
    fn drop(self) {
        match self {
            ResultList::Empty => {}
            ResultList::Scalar(_) => {}
        }
    }
}

/// A function type, or the name of one.
#[derive(Debug)]
pub enum FuncTypeRef<'a> {
    /// A function type.
    Func(FuncType<'a>),
    /// The name of a function type.
    Ident(Ident<'a>),
}

// It takes the value apart: where one is held at a `?`, a derived drop is proved there part by part.
impl Drop for FuncTypeRef<'_> {
    fn drop(self) {
        match self {
            FuncTypeRef::Func(_) => {}
            FuncTypeRef::Ident(_) => {}
        }
    }
}

impl<'a> Type<'a> {
    /// Where the type stands.
    pub fn span(&self) -> SourceSpan
        ensures { result ≡ ty_span (view_ty self.now) }
    {
        match self {
            Type::U8(span)
            | Type::S8(span)
            | Type::U16(span)
            | Type::S16(span)
            | Type::U32(span)
            | Type::S32(span)
            | Type::U64(span)
            | Type::S64(span)
            | Type::F32(span)
            | Type::F64(span)
            | Type::Char(span)
            | Type::Bool(span)
            | Type::String(span)
            | Type::Tuple(_, span)
            | Type::List(_, span)
            | Type::Option(_, span)
            | Type::Result { span, .. }
            | Type::Borrow(_, span)
            | Type::Stream(_, span)
            | Type::Future(_, span)
            | Type::ErrorContext(span) => *span,
            Type::Ident(id) => id.span,
        }
    }

    /// An equal type.
    #[cycle(ty)]
    pub fn clone(&self, alloc: Global) -> Result<Self, AllocError>
        ensures { IfOk result (λ t. view_ty t ≡ view_ty self.now) }
    {
        match self {
            Type::U8(span) => Ok(Type::U8(*span)),
            Type::S8(span) => Ok(Type::S8(*span)),
            Type::U16(span) => Ok(Type::U16(*span)),
            Type::S16(span) => Ok(Type::S16(*span)),
            Type::U32(span) => Ok(Type::U32(*span)),
            Type::S32(span) => Ok(Type::S32(*span)),
            Type::U64(span) => Ok(Type::U64(*span)),
            Type::S64(span) => Ok(Type::S64(*span)),
            Type::F32(span) => Ok(Type::F32(*span)),
            Type::F64(span) => Ok(Type::F64(*span)),
            Type::Char(span) => Ok(Type::Char(*span)),
            Type::Bool(span) => Ok(Type::Bool(*span)),
            Type::String(span) => Ok(Type::String(*span)),
            Type::Tuple(types, span) => Ok(Type::Tuple(clone_types(alloc, types)?, *span)),
            Type::List(ty, span) => Ok(Type::List(clone_boxed(alloc, ty)?, *span)),
            Type::Option(ty, span) => Ok(Type::Option(clone_boxed(alloc, ty)?, *span)),
            Type::Result { ok, err, span } => Ok(Type::Result {
                ok: clone_payload(alloc, ok)?,
                err: clone_payload(alloc, err)?,
                span: *span,
            }),
            Type::Borrow(id, span) => Ok(Type::Borrow(*id, *span)),
            Type::Stream(ty, span) => Ok(Type::Stream(clone_payload(alloc, ty)?, *span)),
            Type::Future(ty, span) => Ok(Type::Future(clone_payload(alloc, ty)?, *span)),
            Type::ErrorContext(span) => Ok(Type::ErrorContext(*span)),
            Type::Ident(id) => Ok(Type::Ident(*id)),
        }
    }
}

#[cycle(ty)]
fn clone_boxed<'a>(alloc: Global, ty: &Type<'a>) -> Result<Box<Type<'a>>, AllocError>
    ensures { IfOk result (λ t. view_boxed_ty t ≡ view_ty ty.now) }
{
    Ok(Box::new(alloc, Type::clone(ty, alloc)?)?)
}

#[cycle(ty)]
fn clone_payload<'a>(
    alloc: Global,
    ty: &Option<Box<Type<'a>>>,
) -> Result<Option<Box<Type<'a>>>, AllocError>
    ensures { IfOk result (λ t. option_map view_boxed_ty t ≡ option_map view_boxed_ty ty.now) }
{
    match ty {
        Some(ty) => Ok(Some(clone_boxed(alloc, ty)?)),
        None => Ok(None),
    }
}

#[cycle(ty)]
fn clone_types<'a>(alloc: Global, types: &Vec<Type<'a>>) -> Result<Vec<Type<'a>>, AllocError>
    ensures { IfOk result (λ v. map view_ty v.items ≡ map view_ty types.now.items) }
{
    let mut copies = Vec::new(alloc);
    for ty in types {
        copies.push(Type::clone(ty, alloc)?)?;
    }
    Ok(copies)
}

impl<'a> NamedType<'a> {
    /// An equal name and type.
    pub fn clone(&self, alloc: Global) -> Result<Self, AllocError>
        ensures { IfOk result (λ t. view_named_type t ≡ view_named_type self.now) }
    {
        Ok(NamedType {
            id: self.id,
            ty: self.ty.clone(alloc)?,
        })
    }
}

impl<'a> FuncType<'a> {
    /// An equal type.
    pub fn clone(&self, alloc: Global) -> Result<Self, AllocError>
        ensures { IfOk result (λ t. view_func_type t ≡ view_func_type self.now) }
    {
        Ok(FuncType {
            is_async: self.is_async,
            params: clone_all(alloc, &self.params)?,
            results: self.results.clone(alloc)?,
        })
    }
}

impl<'a> ResultList<'a> {
    /// Equal results.
    pub fn clone(&self, alloc: Global) -> Result<Self, AllocError>
        ensures { IfOk result (λ t. view_result_list t ≡ view_result_list self.now) }
    {
        match self {
            ResultList::Empty => Ok(ResultList::Empty),
            ResultList::Scalar(ty) => Ok(ResultList::Scalar(ty.clone(alloc)?)),
        }
    }
}

impl<'a> FuncTypeRef<'a> {
    /// An equal reference.
    pub fn clone(&self, alloc: Global) -> Result<Self, AllocError>
        ensures { IfOk result (λ t. view_func_type_ref t ≡ view_func_type_ref self.now) }
    {
        match self {
            FuncTypeRef::Func(ty) => Ok(FuncTypeRef::Func(ty.clone(alloc)?)),
            FuncTypeRef::Ident(id) => Ok(FuncTypeRef::Ident(*id)),
        }
    }
}
