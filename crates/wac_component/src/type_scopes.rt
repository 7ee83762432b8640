//! What type entries stand for, with the scopes in them.
use crate::additions::{Parts, add_defined, add_func, interface_of, world_of};
use crate::builder::Builder;
use crate::entry::{CoreSort, Sort};
use crate::world_fault::{Halt, WorldFault};
use wac_graph_bytes::{
    Alias, Case, Declaration, DefinedType as TypeForm, Param, Sort as PlainSort,
    ValueType as ValueForm,
};
use wac_types_base::{
    DefinedType, Enum, Flags, FuncType, Items, NamedMap, Names, Record, ResourceId, Type,
    ValueType, Variant,
};

fn sort_of(sort: PlainSort) -> Sort {
    match sort {
        PlainSort::Func => Sort::Func,
        PlainSort::Ty => Sort::Ty,
        PlainSort::Component => Sort::Component,
        PlainSort::Instance => Sort::Instance,
        PlainSort::Module => Sort::Core(CoreSort::Module),
    }
}

impl<'a> Builder<'a> {
    fn value(&self, ty: ValueForm) -> Result<ValueType, Halt> {
        match ty {
            ValueForm::Primitive(primitive) => Ok(ValueType::Primitive(primitive)),
            ValueForm::Index(index) => match self.type_item(index)?.ty {
                Type::Value(value) => Ok(value),
                _ => Err(Halt::Refused(WorldFault::Index)),
            },
        }
    }

    fn optional_value(&self, ty: Option<ValueForm>) -> Result<Option<ValueType>, Halt> {
        match ty {
            None => Ok(None),
            Some(ty) => Ok(Some(self.value(ty)?)),
        }
    }

    fn resource(&self, index: u64) -> Result<ResourceId, Halt> {
        match self.type_item(index)?.ty {
            Type::Resource(id) => Ok(id),
            _ => Err(Halt::Refused(WorldFault::Index)),
        }
    }

    /// Fields of a record, or parameters of a function.
    fn fields(&self, fields: &[Param]) -> Result<NamedMap<ValueType>, Halt> {
        let mut map = NamedMap::new(self.alloc);
        for field in fields {
            let ty = self.value(field.ty)?;
            if let Some(_) = map.insert(field.name.clone()?, ty)? {
                return Err(Halt::Refused(WorldFault::Name));
            }
        }
        Ok(map)
    }

    fn cases(&self, cases: &[Case]) -> Result<NamedMap<Option<ValueType>>, Halt> {
        let mut map = NamedMap::new(self.alloc);
        for case in cases {
            let ty = self.optional_value(case.ty)?;
            if let Some(_) = map.insert(case.name.clone()?, ty)? {
                return Err(Halt::Refused(WorldFault::Name));
            }
        }
        Ok(map)
    }

    fn names(&self, names: &[String]) -> Result<Names, Halt> {
        let mut set = Names::new(self.alloc);
        for name in names {
            if !set.insert(name.clone()?)? {
                return Err(Halt::Refused(WorldFault::Name));
            }
        }
        Ok(set)
    }

    fn items(&self, types: &[ValueForm]) -> Result<Items<ValueType>, Halt> {
        let mut items = Items::new(self.alloc);
        for ty in types {
            items.push(self.value(*ty)?)?;
        }
        Ok(items)
    }

    fn add(&mut self, ty: DefinedType) -> Result<Type, Halt> {
        add_defined(&mut self.types, ty)
    }

    fn add_func(
        &mut self,
        is_async: bool,
        params: &[Param],
        answer: Option<ValueForm>,
    ) -> Result<Type, Halt> {
        let func = FuncType {
            params: self.fields(params)?,
            result: self.optional_value(answer)?,
            is_async,
        };
        add_func(&mut self.types, func)
    }

    /// A type without declarations.
    pub fn define(&mut self, form: &TypeForm) -> Result<Type, Halt> {
        match form {
            TypeForm::Primitive(primitive) => Ok(Type::Value(ValueType::Primitive(*primitive))),
            TypeForm::Own(index) => Ok(Type::Value(ValueType::Own(self.resource(*index)?))),
            TypeForm::Borrow(index) => Ok(Type::Value(ValueType::Borrow(self.resource(*index)?))),
            TypeForm::Func(is_async, params, answer) => self.add_func(*is_async, params, *answer),
            _ => {
                let ty = self.defined(form)?;
                self.add(ty)
            }
        }
    }

    /// A type with an entry of its own.
    fn defined(&self, form: &TypeForm) -> Result<DefinedType, Halt> {
        match form {
            TypeForm::Record(fields) => Ok(DefinedType::Record(Record {
                fields: self.fields(fields)?,
            })),
            TypeForm::Variant(cases) => Ok(DefinedType::Variant(Variant {
                cases: self.cases(cases)?,
            })),
            TypeForm::List(ty) => Ok(DefinedType::List(self.value(*ty)?)),
            TypeForm::Option(ty) => Ok(DefinedType::Option(self.value(*ty)?)),
            TypeForm::FixedSizeList(ty, length) => {
                Ok(DefinedType::FixedSizeList(self.value(*ty)?, *length))
            }
            TypeForm::Tuple(types) => Ok(DefinedType::Tuple(self.items(types)?)),
            TypeForm::Flags(names) => Ok(DefinedType::Flags(Flags(self.names(names)?))),
            TypeForm::Enum(names) => Ok(DefinedType::Enum(Enum(self.names(names)?))),
            TypeForm::Result(ok, err) => Ok(DefinedType::Result {
                ok: self.optional_value(*ok)?,
                err: self.optional_value(*err)?,
            }),
            TypeForm::Stream(ty) => Ok(DefinedType::Stream(self.optional_value(*ty)?)),
            TypeForm::Future(ty) => Ok(DefinedType::Future(self.optional_value(*ty)?)),
            TypeForm::Primitive(_)
            | TypeForm::Own(_)
            | TypeForm::Borrow(_)
            | TypeForm::Func(_, _, _) => { Err(Halt::Refused(WorldFault::Index)) }
        }
    }

    fn add_inner_alias(&mut self, alias: &Alias) -> Result<(), Halt> {
        let bound = match alias {
            Alias::Export(sort, instance, name) => {
                self.export_of(sort_of(*sort), *instance, name.as_str())?
            }
            Alias::Outer(sort, out, index) => self.bound_at(sort_of(*sort), *out, *index)?,
        };
        self.push(bound)
    }

    /// A declaration, with at most so many levels of types in it.
    #[cycle(scopes)]
    fn declare(
        &mut self,
        levels: usize,
        declaration: &Declaration,
        parts: &mut Parts,
    ) -> Result<(), Halt> {
        match declaration {
            Declaration::Module(_) => Ok(()),
            Declaration::Defined(form) => {
                let ty = self.define(form)?;
                self.push_type(ty, false)
            }
            Declaration::ComponentType(declarations) => self.add_component(levels, declarations),
            Declaration::InstanceType(declarations) => self.add_instance(levels, declarations),
            Declaration::Alias(alias) => self.add_inner_alias(alias),
            Declaration::Import(name, description) => {
                let bound = self.describe(name.as_str(), *description, parts)?;
                let bound = self.import(name.as_str(), bound, parts)?;
                self.push(bound)
            }
            Declaration::Export(name, description) => {
                let bound = self.describe(name.as_str(), *description, parts)?;
                let bound = self.export(name.as_str(), bound, parts)?;
                self.push(bound)
            }
        }
    }

    /// What the declarations of a type import and export, in a scope of their own.
    #[cycle(scopes)]
    fn declare_all(&mut self, levels: usize, declarations: &[Declaration]) -> Result<Parts, Halt> {
        if levels == 0 {
            return Err(Halt::Refused(WorldFault::Depth));
        }
        self.enter()?;
        let mut parts = Parts::new(self.alloc);
        for declaration in declarations {
            self.declare(levels - 1, declaration, &mut parts)?;
        }
        self.leave();
        Ok(parts)
    }

    /// A component type, at the next index.
    #[cycle(scopes)]
    pub fn add_component(
        &mut self,
        levels: usize,
        declarations: &[Declaration],
    ) -> Result<(), Halt> {
        let parts = self.declare_all(levels, declarations)?;
        let id = world_of(&mut self.types, parts)?;
        self.push_type(Type::World(id), false)
    }

    /// An instance type, at the next index.
    #[cycle(scopes)]
    pub fn add_instance(
        &mut self,
        levels: usize,
        declarations: &[Declaration],
    ) -> Result<(), Halt> {
        let parts = self.declare_all(levels, declarations)?;
        let has_resources = parts.has_resources;
        let id = interface_of(&mut self.types, parts)?;
        self.push_type(Type::Interface(id), has_resources)
    }
}
