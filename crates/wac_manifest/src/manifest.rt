//! What manifests say.

ghost use Rattle.std.specs.Prelude.{codes, map, option_map};
ghost use Rattle.semver.specs.Identifiers.{parts_of};
ghost use Rattle.serde_json.specs.Read.{read};
ghost use Rattle.serde_json.specs.View.{view};
ghost use Rattle.wac_manifest.specs.Manifests.{component, key_in, list, may, must, says_composing, says_plugging, source, version, version_in};
ghost use Rattle.wac_manifest.specs.Views.{component_view, composing_view, key_view, plugging_view, source_view, Reads};

use crate::data::{BytesData, TextData, bytes_data, text_data};
use crate::error::ManifestError;
use crate::members::{Members, text_of};
use semver::Version;
use serde_json::Value;
use std::alloc::{AllocError, Global};

/// A component that is handed in: its key, its bytes, and the world that it is stated to have.
#[derive(Drop)]
pub struct Component {
    pub name: String,
    pub version: Option<Version>,
    pub bytes: BytesData,
    /// A document that declares the world.
    pub world: TextData,
    /// The name of the world.
    pub select: String,
}

/// A source that is composed.
#[derive(Drop)]
pub struct Source {
    pub source: TextData,
    /// The path of the file to which the component is written, if there is one.
    pub out: Option<String>,
}

/// Components, and sources that are composed over them, one after another.
#[derive(Drop)]
pub struct ComposeManifest {
    pub components: Vec<Component>,
    pub sources: Vec<Source>,
    /// Whether packages are imported instead of nested.
    pub import: bool,
}

/// The key of a component.
#[derive(Drop)]
pub struct Key {
    pub name: String,
    pub version: Option<Version>,
}

/// Components, of which some are plugged into one.
#[derive(Drop)]
pub struct PlugManifest {
    pub components: Vec<Component>,
    /// The name of the package that is composed.
    pub name: String,
    pub plugs: Vec<Key>,
    pub socket: Key,
    /// The path of the file to which the component is written, if there is one.
    pub out: Option<String>,
}

const COMPONENT: [&str; 5] = ["name", "version", "bytes", "world", "select"];

const SOURCE: [&str; 2] = ["source", "out"];

const COMPOSE: [&str; 3] = ["components", "sources", "import"];

const PLUG: [&str; 5] = ["components", "name", "plugs", "socket", "out"];

/// The version that a text spells.
fn version_of(alloc: Global, text: &str) -> Result<Version, ManifestError>
    ensures { Reads parts_of (version text.now) result }
{
    match Version::parse(alloc, text) {
        Ok(version) => Ok(version),
        Err(error) => {
            if error == semver::Error::from(AllocError) {
                return Err(ManifestError::Memory);
            }
            Err(ManifestError::Bad)
        }
    }
}

/// The version of a member, if it is there.
fn maybe_version(
    alloc: Global,
    members: Members<'_>,
    name: &str,
) -> Result<Option<Version>, ManifestError>
    ensures { Reads (option_map parts_of) (may version_in name.now (view members.entry.object.now)) result }
{
    match members.find(name) {
        None => Ok(None),
        Some(value) => Ok(Some(version_of(alloc, text_of(value)?)?)),
    }
}

/// The component that a value says.
fn component_of(alloc: Global, value: &Value) -> Result<Component, ManifestError>
    ensures { Reads component_view (component (view value.now)) result }
{
    let members = Members::of(value, &COMPONENT)?;
    Ok(Component {
        name: members.text(alloc, "name")?,
        version: maybe_version(alloc, members, "version")?,
        bytes: bytes_data(alloc, members.get("bytes")?)?,
        world: text_data(alloc, members.get("world")?)?,
        select: members.text(alloc, "select")?,
    })
}

/// The components that a member lists.
fn components(alloc: Global, members: Members<'_>) -> Result<Vec<Component>, ManifestError>
    ensures { Reads (λ v. map component_view v.items)
        (must (list component) (codes "components") (view members.entry.object.now)) result }
{
    let mut all = Vec::new(alloc);
    for value in members.list("components")? {
        all.push(component_of(alloc, value)?)?;
    }
    Ok(all)
}

/// The source that a value says.
fn source_of(alloc: Global, value: &Value) -> Result<Source, ManifestError>
    ensures { Reads source_view (source (view value.now)) result }
{
    let members = Members::of(value, &SOURCE)?;
    Ok(Source {
        source: text_data(alloc, members.get("source")?)?,
        out: members.maybe_text(alloc, "out")?,
    })
}

/// The sources that a member lists.
fn sources(alloc: Global, members: Members<'_>) -> Result<Vec<Source>, ManifestError>
    ensures { Reads (λ v. map source_view v.items)
        (must (list source) (codes "sources") (view members.entry.object.now)) result }
{
    let mut all = Vec::new(alloc);
    for value in members.list("sources")? {
        all.push(source_of(alloc, value)?)?;
    }
    Ok(all)
}

/// The key that a value spells, as `name` or `name@version`.
fn key_of(alloc: Global, value: &Value) -> Result<Key, ManifestError>
    ensures { Reads key_view (key_in (view value.now)) result }
{
    let text = text_of(value)?;
    match text.split_once('@') {
        None => Ok(Key {
            name: String::from_str(alloc, text)?,
            version: None,
        }),
        Some((name, version)) => Ok(Key {
            name: String::from_str(alloc, name)?,
            version: Some(version_of(alloc, version)?),
        }),
    }
}

/// The keys that a member lists.
fn keys(alloc: Global, members: Members<'_>, name: &str) -> Result<Vec<Key>, ManifestError>
    ensures { Reads (λ v. map key_view v.items) (must (list key_in) name.now (view members.entry.object.now)) result }
{
    let mut all = Vec::new(alloc);
    for value in members.list(name)? {
        all.push(key_of(alloc, value)?)?;
    }
    Ok(all)
}

/// The value that a text is.
fn value_of(alloc: Global, text: &str) -> Result<Value, ManifestError>
    ensures { Reads view (read text.now) result }
{
    match Value::from_str(alloc, text) {
        Ok(value) => Ok(value),
        Err(error) => {
            if error.is_memory() {
                return Err(ManifestError::Memory);
            }
            Err(ManifestError::Bad)
        }
    }
}

impl ComposeManifest {
    /// The manifest that a text is: `{"components": [..], "sources": [..], "import": true or false or absent}`.
    pub fn read(alloc: Global, text: &str) -> Result<Self, ManifestError>
        ensures { Reads composing_view (says_composing text.now) result }
    {
        let value = value_of(alloc, text)?;
        let members = Members::of(&value, &COMPOSE)?;
        Ok(ComposeManifest {
            components: components(alloc, members)?,
            sources: sources(alloc, members)?,
            import: members.is_set("import")?,
        })
    }
}

impl PlugManifest {
    /// The manifest that a text is: `{"components": [..], "name": .., "plugs": [..], "socket": .., "out": path or absent}`.
    pub fn read(alloc: Global, text: &str) -> Result<Self, ManifestError>
        ensures { Reads plugging_view (says_plugging text.now) result }
    {
        let value = value_of(alloc, text)?;
        let members = Members::of(&value, &PLUG)?;
        Ok(PlugManifest {
            components: components(alloc, members)?,
            name: members.text(alloc, "name")?,
            plugs: keys(alloc, members, "plugs")?,
            socket: key_of(alloc, members.get("socket")?)?,
            out: members.maybe_text(alloc, "out")?,
        })
    }
}
