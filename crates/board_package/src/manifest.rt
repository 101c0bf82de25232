//! The manifest of a package.
ghost use Rattle.std.specs.Prelude.{◌≡◌, ◌≤◌, ◌++◌, List, length, map, All, IfOk, IfErr, OnOk, Some, codes};
ghost use Rattle.serde_json.specs.View.{view};
ghost use Rattle.board_package.specs.Manifest as spec;
ghost use Rattle.board_package.specs.Manifest.{IsManifest, IsManifestFault, IsLawful, IsOnBoard, IsValueOf, IsNotJson, Misses, each_from, copper_entry, drill_entry, drill_from, manifest_of};
ghost use Rattle.board_package.specs.declared.manifest.ManifestFault.TheVariants as fault;

use crate::entry::{Entry, Role};
use crate::values::{has_members, list_at, name_at, name_of, number_at};
use board_shapes::MOST_LAYERS;
use lengths::rows::{NoMemory, Rows};
use lengths::text::Text;
use serde_json::Value;
use std::alloc::Global;

/// The most drill files of a package.
pub const MOST_DRILLS: usize = 64;

/// What a manifest lists: how many copper layers there are, from 1 to `MOST_LAYERS`, and the files in the order in which
/// they are taken, which are the copper files, the drill files and the netlist.
#[derive(Drop)]
pub struct Manifest {
    pub layers: u8,
    pub files: Rows<Entry>,
}

/// Why bytes are no manifest.
#[derive(Clone, Copy, Debug, PartialEq, Eq)]
pub enum ManifestFault {
    /// `serde_json` reads no value from them.
    NotJson,
    /// The value has another form.
    BadManifest,
    /// Memory is wanted.
    NoMemory,
}

impl From<NoMemory> for ManifestFault {
    ghost from_gives = { λ _ e. e ≡ fault.NoMemory };

    fn from(_: NoMemory) -> ManifestFault {
        ManifestFault::NoMemory
    }
}

/// Reads a manifest: a JSON object with exactly the keys `copper`, `drills` and `netlist`. `copper` is a list of 1 to 32
/// names of files, layer 1 first. `drills` is a list of 0 to 64 objects with exactly the keys `file`, `from` and `to`,
/// with 1 <= from <= to <= number of copper files. `netlist` is the name of a file. A name has 1 to 200 bytes, each
/// from 32 to 126.
pub fn read_manifest(alloc: Global, bytes: &[u8]) -> Result<Manifest, ManifestFault>
    ensures ok { IfOk result (λ m. IsManifest bytes.now m) }
    ensures lawful { IfOk result (λ m. IsLawful m) }
    ensures fault { IfErr result (IsManifestFault bytes.now) }
{
    let value = value_of(alloc, bytes)?;
    manifest_in(alloc, &value)
}

// The value that `serde_json` reads.
fn value_of(alloc: Global, bytes: &[u8]) -> Result<Value, ManifestFault>
    ensures ok { IfOk result (λ value. IsValueOf bytes.now (view value)) }
    ensures fault { IfErr result (spec.IsUnreadable bytes.now) }
{
    match Value::from_slice(alloc, bytes) {
        Ok(value) => Ok(value),
        Err(error) => if error.is_memory() {
            Err(ManifestFault::NoMemory)
        } else {
            Err(ManifestFault::NotJson)
        },
    }
}

// The manifest that a value is.
fn manifest_in(alloc: Global, value: &Value) -> Result<Manifest, ManifestFault>
    ensures ok { IfOk result (λ m. manifest_of (view value.now) ≡ Some m) }
    ensures lawful { IfOk result (λ m. IsLawful m) }
    ensures fault { IfErr result (Misses (manifest_of (view value.now))) }
{
    if !has_members(value, 3) {
        return Err(ManifestFault::BadManifest);
    }
    let Some(copper) = list_at(value, "copper") else {
        return Err(ManifestFault::BadManifest);
    };
    let Some(drills) = list_at(value, "drills") else {
        return Err(ManifestFault::BadManifest);
    };
    let netlist = name_at(alloc, value, "netlist")?;
    manifest_from(alloc, copper, drills, netlist)
}

// The manifest of these lists and of the netlist, where they are not too long.
fn manifest_from(
    alloc: Global,
    copper: &[Value],
    drills: &[Value],
    netlist: Text,
) -> Result<Manifest, ManifestFault>
    ensures ok { IfOk result (λ m. spec.manifest_from (Some (map view copper.now)) (Some (map view drills.now)) (Some netlist) ≡ Some m) }
    ensures lawful { IfOk result (λ m. IsLawful m) }
    ensures fault { IfErr result (Misses (spec.manifest_from (Some (map view copper.now)) (Some (map view drills.now)) (Some netlist))) }
{
    if copper.is_empty() || copper.len() > MOST_LAYERS as usize || drills.len() > MOST_DRILLS {
        return Err(ManifestFault::BadManifest);
    }
    let layers = copper.len() as u8;
    let files = files_of(alloc, copper, drills, netlist)?;
    Ok(Manifest { layers, files })
}

// The entries of the files of these lists and of the netlist.
fn files_of(
    alloc: Global,
    copper: &[Value],
    drills: &[Value],
    netlist: Text,
) -> Result<Rows<Entry>, ManifestFault>
    requires some { 1 ≤ length copper.now }
    requires few { length copper.now ≤ MOST_LAYERS }
    requires few_drills { length drills.now ≤ MOST_DRILLS }
    ensures ok { IfOk result (λ files. spec.files_of (map view copper.now) (map view drills.now) netlist ≡ Some files) }
    ensures lawful { IfOk result (λ files. All (λ e. IsOnBoard (length copper.now) e.role) files) }
    ensures fault { IfErr result (Misses (spec.files_of (map view copper.now) (map view drills.now) netlist)) }
{
    let layers = copper.len() as u8;
    let mut files = Rows::new(alloc);
    add_copper(alloc, copper, &mut files)?;
    add_drills(alloc, drills, layers, &mut files)?;
    files.push(Entry {
        name: netlist,
        number: (copper.len() + drills.len()) as u32,
        role: Role::Netlist,
    })?;
    Ok(files)
}

// Adds the entries of the copper files.
fn add_copper(alloc: Global, copper: &[Value], files: &mut Rows<Entry>) -> Result<(), ManifestFault>
    requires few { length copper.now ≤ MOST_LAYERS }
    ensures ok { OnOk result ((added : List Entry) × (each_from copper_entry 0 (map view copper.now) ≡ Some added) × (files.new ≡ files.old ++ added)) }
    ensures lawful { OnOk result (All (λ e. IsOnBoard (length copper.now) e.role) files.old → All (λ e. IsOnBoard (length copper.now) e.role) files.new) }
    ensures fault { IfErr result (Misses (each_from copper_entry 0 (map view copper.now))) }
{
    for (i, value) in copper.iter().enumerate() {
        let name = name_of(alloc, value)?;
        files.push(Entry {
            name,
            number: i as u32,
            role: Role::Copper { layer: i as u8 + 1 },
        })?;
    }
    Ok(())
}

// Adds the entries of the drill files.
fn add_drills(
    alloc: Global,
    drills: &[Value],
    layers: u8,
    files: &mut Rows<Entry>,
) -> Result<(), ManifestFault>
    requires few { length drills.now ≤ MOST_DRILLS }
    ensures ok { OnOk result ((added : List Entry) × (each_from (drill_entry layers) layers (map view drills.now) ≡ Some added) × (files.new ≡ files.old ++ added)) }
    ensures lawful { OnOk result (All (λ e. IsOnBoard layers e.role) files.old → All (λ e. IsOnBoard layers e.role) files.new) }
    ensures fault { IfErr result (Misses (each_from (drill_entry layers) layers (map view drills.now))) }
{
    for (i, value) in drills.iter().enumerate() {
        let entry = drill_of(alloc, value, layers, u32::from(layers) + i as u32)?;
        files.push(entry)?;
    }
    Ok(())
}

// The entry of a drill file.
fn drill_of(alloc: Global, value: &Value, layers: u8, number: u32) -> Result<Entry, ManifestFault>
    ensures ok { IfOk result (λ e. drill_entry layers number (view value.now) ≡ Some e) }
    ensures lawful { IfOk result (λ e. IsOnBoard layers e.role) }
    ensures fault { IfErr result (Misses (drill_entry layers number (view value.now))) }
{
    if !has_members(value, 3) {
        return Err(ManifestFault::BadManifest);
    }
    let name = name_at(alloc, value, "file")?;
    let (Some(from), Some(to)) = (number_at(value, "from"), number_at(value, "to")) else {
        return Err(ManifestFault::BadManifest);
    };
    spanned(name, from, to, layers, number)
}

// The same, with what stands in the value.
fn spanned(name: Text, from: u64, to: u64, layers: u8, number: u32) -> Result<Entry, ManifestFault>
    ensures ok { IfOk result (λ e. drill_from layers number (Some name) (Some from) (Some to) ≡ Some e) }
    ensures lawful { IfOk result (λ e. IsOnBoard layers e.role) }
    ensures fault { IfErr result (Misses (drill_from layers number (Some name) (Some from) (Some to))) }
{
    if from < 1 || to < from || to > u64::from(layers) {
        return Err(ManifestFault::BadManifest);
    }
    Ok(Entry {
        name,
        number,
        role: Role::Drill {
            from: from as u8,
            to: to as u8,
        },
    })
}
