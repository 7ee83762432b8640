//! Plugging as a text.

ghost use Rattle.std.specs.Prelude.{◌≡◌, ◌≢◌, ◌↔◌, ◌++◌, [], All, IsTrue, IfOk, IfErr, OnOk, map, option_map, string_bytes};
ghost use Rattle.std.specs.List.{concat};
ghost use Rattle.wac_types_base.specs.Stated.{exports_of};
ghost use Rattle.wac_types_names.specs.Keys.{borrowed_key};
ghost use Rattle.wac_graph_plug.specs.Plans.{world_in, WorldStands};
ghost use Rattle.wac_texts.specs.declared.plugging.PlugTextError.{PlugTextError};
ghost use Rattle.wac_texts.specs.Plugs.{IsReadable, AreReadable, IsSpelled, world_of, CanBePlugged, PlugTextRefused, Plugs, text_error};
ghost use Rattle.wac_texts.specs.Plugs.{argument_text, directive_text, exports_text, planned_text, plug_at, plugs_text, socket_text};
ghost use Rattle.wac_texts.specs.Worlds.{HasWorld};

use crate::spelling::{has_byte, is_package_name, is_spellable};
use std::alloc::{AllocError, AllocFailed, Global};
use std::error::Error;
use std::fmt;
use wac_graph_plug::{Argument, Plan, PlanError, WorldIn, plan_of};
use wac_parser_resolve::PackageRef;
use wac_types_names::BorrowedPackageKey;

/// Why no text plugs packages.
#[derive(Debug, Drop)]
pub enum PlugTextError {
    /// The name of the document, or the key of a package, is no name of a package.
    NameNotReadable,
    /// Two exports are for one import of the socket.
    PlugConflict { import: String },
    /// No export of a plug is for an import of the socket.
    NoPlugHappened,
    /// A name has a quote, or a character that no source may have.
    NameNotSpellable,
    Memory,
}

impl fmt::Display for PlugTextError {
    ghost use Rattle.std.specs.Prelude.{Some};
    ghost use Rattle.wac_texts.specs.Plugs.{plugging_words};

    ghost output = { λ e. Some (plugging_words e) };

    fn fmt<W: fmt::Write>(&self, f: &mut fmt::Formatter<W>) -> fmt::Result {
        match self {
            PlugTextError::NameNotReadable => f.write_str("package name cannot be read"),
            PlugTextError::PlugConflict { import } => write!(
                f,
                "two plugs match import `{import}`"
            ),
            PlugTextError::NoPlugHappened => f.write_str("no plug matches an import of the socket"),
            PlugTextError::NameNotSpellable => f.write_str("a name cannot be written as a string"),
            PlugTextError::Memory => f.write_str("out of memory"),
        }
    }
}

impl Error for PlugTextError {}

impl From<AllocError> for PlugTextError {
    ghost from_gives = { λ _ e. e ≡ PlugTextError.Memory };

    fn from(_: AllocError) -> Self {
        PlugTextError::Memory
    }
}

impl<T: Drop> From<AllocFailed<T>> for PlugTextError {
    ghost from_gives = { λ _ e. e ≡ PlugTextError.Memory };

    fn from(_: AllocFailed<T>) -> Self {
        PlugTextError::Memory
    }
}

impl From<PlanError> for PlugTextError {
    ghost from_gives = { λ plan e. e ≡ text_error plan };

    fn from(fault: PlanError) -> Self {
        match fault {
            PlanError::PlugConflict { import } => PlugTextError::PlugConflict { import },
            PlanError::NoPlugHappened => PlugTextError::NoPlugHappened,
            PlanError::Memory => PlugTextError::Memory,
        }
    }
}

/// Whether a package's own name is the name of a package, without a version.
fn is_readable(package: PackageRef<'_>) -> bool
    ensures { IsTrue result ↔ IsReadable «package».entry }
{
    let name = package.package.name();
    is_package_name(name) && !has_byte(name, b'@')
}

/// Tests the names of packages.
fn test_names(
    name: &str,
    plugs: &[PackageRef<'_>],
    socket: PackageRef<'_>,
) -> Result<(), PlugTextError>
    ensures readable { OnOk result (AreReadable name.now plugs.now socket.entry) }
    ensures refused { IfErr result
        (λ e. (e ≡ PlugTextError.NameNotReadable) × (AreReadable name.now plugs.now socket.entry → ⊥)) }
{
    if !is_package_name(name) || !is_readable(socket) {
        return Err(PlugTextError::NameNotReadable);
    }
    for plug in plugs {
        if !is_readable(*plug) {
            return Err(PlugTextError::NameNotReadable);
        }
    }
    Ok(())
}

/// Whether the names of an argument can be written.
fn is_spelled(argument: &Argument) -> bool
    ensures { IsTrue result ↔ IsSpelled argument.now }
{
    is_spellable(argument.given.import.as_str()) && is_spellable(argument.given.export.as_str())
}

/// Tests the names of imports and exports.
fn test_arguments(arguments: &[Argument]) -> Result<(), PlugTextError>
    ensures spelled { OnOk result (All IsSpelled arguments.now) }
    ensures refused { IfErr result (λ e. (e ≡ PlugTextError.NameNotSpellable) × (All IsSpelled arguments.now → ⊥)) }
{
    for argument in arguments {
        if !is_spelled(argument) {
            return Err(PlugTextError::NameNotSpellable);
        }
    }
    Ok(())
}

/// The world of a package.
fn world_of(package: PackageRef<'_>) -> WorldIn<'_>
    requires { HasWorld «package» }
    ensures world { world_in result ≡ world_of «package».entry }
    ensures stands { WorldStands result }
{
    WorldIn {
        types: package.types,
        world: package.package.ty(),
    }
}

/// The worlds of packages.
fn worlds_of<'a>(alloc: Global, packages: &[PackageRef<'a>]) -> Result<Vec<WorldIn<'a>>, AllocError>
    requires { All HasWorld packages.now }
    ensures worlds { IfOk result (λ v. map world_in v.items ≡ map world_of packages.now) }
    ensures stand { IfOk result (λ v. All WorldStands v.items) }
{
    let mut worlds = Vec::new(alloc);
    for package in packages {
        worlds.push(world_of(*package))?;
    }
    Ok(worlds)
}

/// How packages are plugged into a socket, if all names can be written.
fn planned(
    alloc: Global,
    name: &str,
    plugs: &[PackageRef<'_>],
    socket: PackageRef<'_>,
) -> Result<Plan, PlugTextError>
    requires plugs { All HasWorld plugs.now }
    requires socket { HasWorld socket }
    ensures plugged { IfOk result (CanBePlugged name.now plugs.now socket.entry) }
    ensures refused { IfErr result (PlugTextRefused name.now plugs.now socket.entry) }
{
    test_names(name, plugs, socket)?;
    let worlds = worlds_of(alloc, plugs)?;
    let plan = plan_of(alloc, &worlds, world_of(socket))?;
    test_arguments(&plan.arguments)?;
    Ok(plan)
}

/// The statement that instantiates a plug.
fn write_plug(
    text: &mut String,
    number: usize,
    plug: Option<&PackageRef<'_>>,
) -> Result<(), AllocError>
    ensures { OnOk result
        (string_bytes text.new ≡ string_bytes text.old ++ plug_at number (option_map (λ p. p.now) plug.entry)) }
{
    let Some(plug) = plug else {
        return Ok(());
    };
    let key = plug.package.key();
    write!(text, "let plug{number} = new {key} {{ ... }};\n\n")
}

/// The statements that instantiate the plugs.
fn write_plugs(text: &mut String, plan: &Plan, plugs: &[PackageRef<'_>]) -> Result<(), AllocError>
    ensures { OnOk result (string_bytes text.new ≡ string_bytes text.old ++ plugs_text 0 plugs.now plan.now.plugs.items) }
{
    for (number, at) in plan.plugs.iter().enumerate() {
        write_plug(text, number, plugs.get(*at))?;
    }
    Ok(())
}

/// An argument of the socket.
fn write_argument(text: &mut String, argument: &Argument) -> Result<(), AllocError>
    ensures { OnOk result (string_bytes text.new ≡ string_bytes text.old ++ argument_text argument.now) }
{
    let import = argument.given.import.as_str();
    let export = argument.given.export.as_str();
    let plug = argument.plug;
    write!(text, "    \"{import}\": plug{plug}[\"{export}\"],\n")
}

/// The arguments of the socket.
fn write_arguments(text: &mut String, plan: &Plan) -> Result<(), AllocError>
    ensures { OnOk result
        (string_bytes text.new ≡ string_bytes text.old ++ concat (map argument_text plan.now.arguments.items)) }
{
    for argument in &plan.arguments {
        write_argument(text, argument)?;
    }
    Ok(())
}

/// Whether a package has exports.
fn has_exports(package: PackageRef<'_>) -> bool
    requires { HasWorld «package» }
    ensures { IsTrue result ↔ (exports_of (world_of «package».entry) ≢ []) }
{
    !package.types.world(package.package.ty()).exports.is_empty()
}

/// The directive of the document.
fn directive(alloc: Global, name: &str) -> Result<String, AllocError>
    ensures { IfOk result (λ text. string_bytes text ≡ directive_text name.now) }
{
    format!(in alloc; "package {name};\n\n")
}

/// The socket's statement up to its arguments.
fn write_socket(text: &mut String, key: BorrowedPackageKey<'_>) -> Result<(), AllocError>
    ensures { OnOk result (string_bytes text.new ≡ string_bytes text.old ++ socket_text (borrowed_key key.entry)) }
{
    write!(text, "let socket = new {key} {{\n")
}

/// The export of the socket's exports, if it has some.
fn write_exports(text: &mut String, socket: PackageRef<'_>) -> Result<(), AllocError>
    requires { HasWorld socket }
    ensures { OnOk result
        (string_bytes text.new ≡ string_bytes text.old ++ exports_text (exports_of (world_of socket.entry))) }
{
    if has_exports(socket) {
        text.push_str("\nexport socket...;\n")?;
    }
    Ok(())
}

/// The text of a plan.
fn planned_text(
    alloc: Global,
    name: &str,
    plan: &Plan,
    plugs: &[PackageRef<'_>],
    socket: PackageRef<'_>,
) -> Result<String, AllocError>
    requires socket { HasWorld socket }
    ensures { IfOk result (λ text. string_bytes text ≡ planned_text name.now plugs.now socket.entry plan.now) }
{
    let mut text = directive(alloc, name)?;
    write_plugs(&mut text, plan, plugs)?;
    write_socket(&mut text, socket.package.key())?;
    write_arguments(&mut text, plan)?;
    text.push_str("    ...\n};\n")?;
    write_exports(&mut text, socket)?;
    Ok(text)
}

/// The text of a document that plugs plugs into a socket: it instantiates each plug with a match, passes what matches to the
/// socket, and exports the exports of the socket.
pub fn plug_text(
    alloc: Global,
    name: &str,
    plugs: &[PackageRef<'_>],
    socket: PackageRef<'_>,
) -> Result<String, PlugTextError>
    requires plugs { All HasWorld plugs.now }
    requires socket { HasWorld socket }
    ensures plugged { IfOk result (λ text. Plugs name.now plugs.now socket.entry (string_bytes text)) }
    ensures refused { IfErr result (PlugTextRefused name.now plugs.now socket.entry) }
{
    let plan = planned(alloc, name, plugs, socket)?;
    Ok(planned_text(alloc, name, &plan, plugs, socket)?)
}
