//! The members of a JSON object.

ghost use Rattle.std.specs.Prelude.{◌≡◌, bytes_eq, false, map, option_map, string_bytes};
ghost use Rattle.std.specs.List.{list_any};
ghost use Rattle.std.specs.Option.{unwrap_or};
ghost use Rattle.serde_json.specs.Find.{get, as_array, as_bool, as_str};
ghost use Rattle.serde_json.specs.View.{items_view, view};
ghost use Rattle.wac_manifest.specs.Manifests.{may, must, object_of};
ghost use Rattle.wac_manifest.specs.Views.{Reads};

use crate::error::ManifestError;
use serde_json::Value;
use std::alloc::Global;

/// The members of an object.
#[derive(Clone, Copy)]
pub(crate) struct Members<'a> {
    object: &'a Value,
}

/// Whether a name is one of these.
fn is_among(name: &str, names: &[&str]) -> bool
    ensures { result ≡ list_any (bytes_eq name.now) (map (λ n. n.now) names.now) }
{
    for other in names {
        if name == *other {
            return true;
        }
    }
    false
}

/// The text that a value is.
pub(crate) fn text_of(value: &Value) -> Result<&str, ManifestError>
    ensures { Reads (λ s. s.now) (as_str (view value.now)) result }
{
    value.as_str().ok_or(ManifestError::Bad)
}

/// The values of the list that a value is.
pub(crate) fn list_of(value: &Value) -> Result<&Vec<Value>, ManifestError>
    ensures { Reads (λ v. items_view v.now.items) (as_array (view value.now)) result }
{
    value.as_array().ok_or(ManifestError::Bad)
}

impl<'a> Members<'a> {
    /// The members of the object that a value is, each under one of these names.
    pub(crate) fn of(value: &'a Value, names: &[&str]) -> Result<Self, ManifestError>
        ensures { Reads (λ m. view m.object.now) (object_of (map (λ n. n.now) names.now) (view value.now)) result }
    {
        let Some(object) = value.as_object() else {
            return Err(ManifestError::Bad);
        };
        for name in object.keys() {
            if !is_among(name.as_str(), names) {
                return Err(ManifestError::Bad);
            }
        }
        Ok(Members { object: value })
    }

    /// The value of a member, if it is there.
    pub(crate) fn find(self, name: &str) -> Option<&'a Value>
        ensures { option_map (λ v. view v.now) result ≡ get name.now (view self.entry.object.now) }
    {
        self.object.get(name)
    }

    /// The value of a member.
    pub(crate) fn get(self, name: &str) -> Result<&'a Value, ManifestError>
        ensures { Reads (λ v. view v.now) (get name.now (view self.entry.object.now)) result }
    {
        self.find(name).ok_or(ManifestError::Bad)
    }

    /// The text of a member.
    pub(crate) fn text(self, alloc: Global, name: &str) -> Result<String, ManifestError>
        ensures { Reads string_bytes (must as_str name.now (view self.entry.object.now)) result }
    {
        Ok(String::from_str(alloc, text_of(self.get(name)?)?)?)
    }

    /// The text of a member, if it is there.
    pub(crate) fn maybe_text(
        self,
        alloc: Global,
        name: &str,
    ) -> Result<Option<String>, ManifestError>
        ensures { Reads (option_map string_bytes) (may as_str name.now (view self.entry.object.now)) result }
    {
        match self.find(name) {
            None => Ok(None),
            Some(value) => Ok(Some(String::from_str(alloc, text_of(value)?)?)),
        }
    }

    /// The values of the list of a member.
    pub(crate) fn list(self, name: &str) -> Result<&'a Vec<Value>, ManifestError>
        ensures { Reads (λ v. items_view v.now.items) (must as_array name.now (view self.entry.object.now)) result }
    {
        list_of(self.get(name)?)
    }

    /// Whether a member is there and true.
    pub(crate) fn is_set(self, name: &str) -> Result<bool, ManifestError>
        ensures { Reads (λ b. b)
            (option_map (λ b. unwrap_or b false) (may as_bool name.now (view self.entry.object.now))) result }
    {
        match self.find(name) {
            None => Ok(false),
            Some(value) => value.as_bool().ok_or(ManifestError::Bad),
        }
    }
}
