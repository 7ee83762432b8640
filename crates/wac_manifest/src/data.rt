//! Texts and bytes that a manifest gives.

ghost use Rattle.std.specs.Prelude.{string_bytes};
ghost use Rattle.serde_json.specs.View.{view};
ghost use Rattle.wac_manifest.specs.Manifests.{bytes_in, digits as digits_in, digits_of_text, form as form_in, named_form as named, text_in};
ghost use Rattle.wac_manifest.specs.Views.{bytes_view, form_view, text_view, Reads};

use crate::error::ManifestError;
use crate::members::text_of;
use hex::FromHexError;
use serde_json::Value;
use std::alloc::Global;

/// A text, or the path of the file that has it.
#[derive(Debug, Drop)]
pub enum TextData {
    File(String),
    Text(String),
}

/// Bytes, or the path of the file that has them.
#[derive(Debug, Drop)]
pub enum BytesData {
    File(String),
    Bytes(Vec<u8>),
}

/// One of the ways in which data stands in a manifest.
#[derive(Clone, Copy)]
enum Form<'a> {
    File(&'a str),
    Text(&'a str),
    Hex(&'a str),
}

/// The form of data of this name.
fn named_form<'a>(name: &str, text: &'a str) -> Result<Form<'a>, ManifestError>
    ensures { Reads form_view (named name.now text.now) result }
{
    if name == "file" {
        Ok(Form::File(text))
    } else if name == "text" {
        Ok(Form::Text(text))
    } else if name == "hex" {
        Ok(Form::Hex(text))
    } else {
        Err(ManifestError::Bad)
    }
}

/// The form of data, and its text.
fn form_of(value: &Value) -> Result<Form<'_>, ManifestError>
    ensures { Reads form_view (form_in (view value.now)) result }
{
    let Some(object) = value.as_object() else {
        return Err(ManifestError::Bad);
    };
    if object.len() != 1 {
        return Err(ManifestError::Bad);
    }
    let Some((name, value)) = object.first_key_value() else {
        return Err(ManifestError::Bad);
    };
    named_form(name.as_str(), text_of(value)?)
}

/// The bytes of an even number of hexadecimal digits.
fn digits(alloc: Global, text: &str) -> Result<Vec<u8>, ManifestError>
    ensures { Reads (λ v. v.items) (digits_in text.now) result }
{
    match hex::decode(alloc, text) {
        Ok(bytes) => Ok(bytes),
        Err(FromHexError::OutOfMemory) => Err(ManifestError::Memory),
        Err(_) => Err(ManifestError::Bad),
    }
}

/// The text of an even number of hexadecimal digits.
fn digits_text(alloc: Global, text: &str) -> Result<String, ManifestError>
    ensures { Reads string_bytes (digits_of_text text.now) result }
{
    let bytes = digits(alloc, text)?;
    match std::str::from_utf8(&bytes) {
        Ok(text) => Ok(String::from_str(alloc, text)?),
        Err(_) => Err(ManifestError::Bad),
    }
}

/// The text that a value gives.
pub(crate) fn text_data(alloc: Global, value: &Value) -> Result<TextData, ManifestError>
    ensures { Reads text_view (text_in (view value.now)) result }
{
    match form_of(value)? {
        Form::File(path) => Ok(TextData::File(String::from_str(alloc, path)?)),
        Form::Text(text) => Ok(TextData::Text(String::from_str(alloc, text)?)),
        Form::Hex(text) => Ok(TextData::Text(digits_text(alloc, text)?)),
    }
}

/// The bytes that a value gives.
pub(crate) fn bytes_data(alloc: Global, value: &Value) -> Result<BytesData, ManifestError>
    ensures { Reads bytes_view (bytes_in (view value.now)) result }
{
    match form_of(value)? {
        Form::File(path) => Ok(BytesData::File(String::from_str(alloc, path)?)),
        Form::Text(text) => Ok(BytesData::Bytes(Vec::from_slice(alloc, text.as_bytes())?)),
        Form::Hex(text) => Ok(BytesData::Bytes(digits(alloc, text)?)),
    }
}
