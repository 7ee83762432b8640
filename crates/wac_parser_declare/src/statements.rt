//! Statements that declare a type.
#![tactic(auto, using(crate::proofs::Standing::standing))]

ghost use Rattle.std.specs.Prelude.{◌≡◌, IfOk};
ghost use Rattle.wac_types_base.specs.declared.item.ItemKind.{ItemKind};
ghost use Rattle.wac_types_base.specs.Collection.{Stands, Grows};
ghost use Rattle.wac_parser_declare.specs.Added.{IsNewType};
ghost use Rattle.wac_parser_declare.specs.Holding.{NamesStand};
ghost use Rattle.wac_parser_declare.specs.InWorlds.{IsTypeStatement};
ghost use Rattle.wac_parser_declare.specs.Packages.{SamePackages};

use crate::growing::PackagedTypes;
use crate::interfaces::interface_decl;
use crate::scope::Context;
use crate::type_decls::type_decl;
use crate::worlds::world_decl;
use std::alloc::Global;
use wac_parser_refusals::Outcome;
use wac_parser_tree::TypeStatement;
use wac_types_base::Type;

/// The type that a statement declares: an interface, a world or another type.
pub fn type_statement<T: PackagedTypes>(
    statement: &TypeStatement<'_>,
    alloc: Global,
    context: Context<'_>,
    types: &mut T,
) -> Outcome<Type>
    requires { NamesStand (T.collection types.old) context.root.now }
    ensures outcome { IsTypeStatement statement.now context.entry (T.collection types.old) (T.packages types.old)
        (T.collection types.new) result }
    ensures stands { IfOk result (λ t. Stands (T.collection types.new) (ItemKind.Ty t)) }
    ensures fresh { IfOk result (IsNewType (T.collection types.old)) }
    ensures grows { Grows (T.collection types.old) (T.collection types.new) }
    ensures packages { SamePackages (T.packages types.old) (T.packages types.new) }
{
    match statement {
        TypeStatement::Interface(decl) => {
            let id = interface_decl(decl, alloc, context, types)?;
            Ok(Type::Interface(id))
        }
        TypeStatement::World(decl) => {
            let id = world_decl(decl, alloc, context, types)?;
            Ok(Type::World(id))
        }
        TypeStatement::Ty(decl) => type_decl(decl, alloc, context.root, types),
    }
}
