//! Parts of a JSON value.
ghost use Rattle.std.specs.Prelude.{◌≡◌, IfOk, IfErr, map, option_map};
ghost use Rattle.serde_json.specs.View.{view};
ghost use Rattle.board_package.specs.Manifest as spec;
ghost use Rattle.board_package.specs.Manifest.{Misses};

use crate::manifest::ManifestFault;
use lengths::text::{Text, TextFault};
use serde_json::Value;
use std::alloc::Global;

/// Whether a value is an object with so many members.
pub fn has_members(value: &Value, count: usize) -> bool
    ensures { result ≡ spec.has_members count (view value.now) }
{
    match value.as_object() {
        Some(members) => members.len() == count,
        None => false,
    }
}

/// The list that an object has under a key.
pub fn list_at<'v>(value: &'v Value, key: &str) -> Option<&'v [Value]>
    ensures { option_map (λ list. map view list.now) result ≡ spec.list_at key.now (view value.now) }
{
    match value.get(key) {
        Some(found) => match found.as_array() {
            Some(list) => Some(list.as_slice()),
            None => None,
        },
        None => None,
    }
}

/// The whole number that an object has under a key.
pub fn number_at(value: &Value, key: &str) -> Option<u64>
    ensures { result ≡ spec.number_at key.now (view value.now) }
{
    match value.get(key) {
        Some(found) => found.as_u64(),
        None => None,
    }
}

/// The name of a file that a value is: a text of 1 to 200 bytes, each from 32 to 126; otherwise it is `BadManifest`.
pub fn name_of(alloc: Global, value: &Value) -> Result<Text, ManifestFault>
    ensures ok { IfOk result (λ name. spec.name_of (view value.now) ≡ Some name) }
    ensures fault { IfErr result (Misses (spec.name_of (view value.now))) }
{
    let Some(text) = value.as_str() else {
        return Err(ManifestFault::BadManifest);
    };
    match Text::new(alloc, text.as_bytes()) {
        Ok(name) => Ok(name),
        Err(TextFault::BadText) => Err(ManifestFault::BadManifest),
        Err(TextFault::NoMemory) => Err(ManifestFault::NoMemory),
    }
}

/// The name of a file that an object has under a key.
pub fn name_at(alloc: Global, value: &Value, key: &str) -> Result<Text, ManifestFault>
    ensures ok { IfOk result (λ name. spec.name_at key.now (view value.now) ≡ Some name) }
    ensures fault { IfErr result (Misses (spec.name_at key.now (view value.now))) }
{
    match value.get(key) {
        Some(found) => name_of(alloc, found),
        None => Err(ManifestFault::BadManifest),
    }
}
