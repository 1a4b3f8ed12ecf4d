ghost use Rattle.std.specs.Prelude.{◌≡◌, None, option_map};
ghost use Rattle.pool_types.specs.declared.module_types.IndexType.TheVariants.{I32};
ghost use Rattle.pool_types.specs.declared.table_type.TableElementType.TheVariants.{Func};
ghost use Rattle.serde_json.specs.View.{view, items_view};
ghost use Rattle.pool_forms.specs.Fields.{IsOfForm, optional, or_null};
ghost use Rattle.pool_forms.specs.ModuleForms.{image_form, index_form, index_named, page_log2_form, memory_type_form, memory_form, element_form, element_named, table_form, part_pair, part_form, module_form};

use crate::fields::{bytes, flag_or, has_only, number, number_or, number_or_none, pair_of};
use crate::form_fault::FormFault;
use crate::from_json::{FromJson, list_or_empty};
use pool_types::{
    ImageDecl, IndexType, Limits, MemoryDecl, MemoryType, ModuleInfo, Part, TableElementType,
    TableType, Text,
};
use serde_json::Value;
use std::alloc::Global;

impl FromJson for ImageDecl {
    ghost form = { image_form };

    #[tactic(auto, unfolding(crate::specs::ModuleForms::image_form))]
    fn from_json(alloc: Global, value: &Value) -> Result<ImageDecl, FormFault> {
        if !has_only(value, &["offset", "hex"]) {
            return Err(FormFault::OtherForm);
        }
        let offset = number(value.get("offset")).ok_or(FormFault::OtherForm)?;
        let bytes = bytes(alloc, value.get("hex"))?;
        Ok(ImageDecl { offset, bytes })
    }
}

fn image_or_null(alloc: Global, value: &Value) -> Result<Option<ImageDecl>, FormFault>
    ensures { IsOfForm (or_null image_form (view value.now)) result }
{
    if value.is_null() {
        return Ok(None);
    }
    Ok(Some(ImageDecl::from_json(alloc, value)?))
}

/// An image that may be left out, or be null.
fn image(alloc: Global, field: Option<&Value>) -> Result<Option<ImageDecl>, FormFault>
    ensures { IsOfForm (optional None (or_null image_form) (option_map (λ v. view v.now) field.entry)) result }
{
    match field {
        None => Ok(None),
        Some(value) => image_or_null(alloc, value),
    }
}

fn index_named(name: &str) -> Option<IndexType>
    ensures { result ≡ index_named name.now }
{
    if name == "i32" {
        Some(IndexType::I32)
    } else if name == "i64" {
        Some(IndexType::I64)
    } else {
        None
    }
}

/// The type of addresses, which may be left out.
fn index(field: Option<&Value>) -> Option<IndexType>
    ensures { result ≡ optional I32 index_form (option_map (λ v. view v.now) field.entry) }
{
    match field {
        None => Some(IndexType::I32),
        Some(value) => index_named(value.as_str()?),
    }
}

/// The size of a memory's pages as a power of two, which may be left out.
fn page_log2(field: Option<&Value>) -> Option<u8>
    ensures { result ≡ optional 16 page_log2_form (option_map (λ v. view v.now) field.entry) }
{
    let log2 = number_or(16, field)?;
    if log2 == 0 || log2 == 16 {
        Some(log2 as u8)
    } else {
        None
    }
}

#[tactic(auto, unfolding(crate::specs::ModuleForms::memory_type_form))]
fn memory_type(value: &Value) -> Option<MemoryType>
    ensures { result ≡ memory_type_form (view value.now) }
{
    let min = number_or(0, value.get("min"))?;
    let max = number_or_none(value.get("max"))?;
    let idx_type = index(value.get("index"))?;
    let shared = flag_or(false, value.get("shared"))?;
    let page_size_log2 = page_log2(value.get("page_log2"))?;
    Some(MemoryType {
        idx_type,
        limits: Limits { min, max },
        shared,
        page_size_log2,
    })
}

impl FromJson for MemoryDecl {
    ghost form = { memory_form };

    #[tactic(auto, unfolding(crate::specs::ModuleForms::memory_form))]
    fn from_json(alloc: Global, value: &Value) -> Result<MemoryDecl, FormFault> {
        if !has_only(
            value,
            &["min", "max", "index", "shared", "page_log2", "image"],
        ) {
            return Err(FormFault::OtherForm);
        }
        let ty = memory_type(value).ok_or(FormFault::OtherForm)?;
        let image = image(alloc, value.get("image"))?;
        Ok(MemoryDecl { ty, image })
    }
}

fn element_named(name: &str) -> Option<TableElementType>
    ensures { result ≡ element_named name.now }
{
    if name == "func" {
        Some(TableElementType::Func)
    } else if name == "gc" {
        Some(TableElementType::GcRef)
    } else if name == "cont" {
        Some(TableElementType::Cont)
    } else {
        None
    }
}

/// The type of a table's elements, which may be left out.
fn element(field: Option<&Value>) -> Option<TableElementType>
    ensures { result ≡ optional Func element_form (option_map (λ v. view v.now) field.entry) }
{
    match field {
        None => Some(TableElementType::Func),
        Some(value) => element_named(value.as_str()?),
    }
}

#[tactic(auto, unfolding(crate::specs::ModuleForms::table_form))]
fn table_type(value: &Value) -> Option<TableType>
    ensures { result ≡ table_form (view value.now) }
{
    if !has_only(value, &["kind", "min", "max", "index"]) {
        return None;
    }
    let element = element(value.get("kind"))?;
    let min = number_or(0, value.get("min"))?;
    let max = number_or_none(value.get("max"))?;
    let idx_type = index(value.get("index"))?;
    Some(TableType {
        idx_type,
        limits: Limits { min, max },
        element,
    })
}

impl FromJson for TableType {
    ghost form = { table_form };

    fn from_json(_alloc: Global, value: &Value) -> Result<TableType, FormFault> {
        table_type(value).ok_or(FormFault::OtherForm)
    }
}

fn part(alloc: Global, items: &[Value]) -> Result<Part, FormFault>
    ensures { IsOfForm (part_pair (items_view items.now)) result }
{
    let (name, bytes) = pair_of(items).ok_or(FormFault::OtherForm)?;
    let name = name.as_str().ok_or(FormFault::OtherForm)?;
    let bytes = bytes.as_u64().ok_or(FormFault::OtherForm)?;
    let Ok(name) = String::from_str(alloc, name) else {
        return Err(FormFault::Memory);
    };
    let name = Text::from_string(name);
    Ok(Part { name, bytes })
}

impl FromJson for Part {
    ghost form = { part_form };

    #[tactic(auto, unfolding(crate::specs::ModuleForms::part_form))]
    fn from_json(alloc: Global, value: &Value) -> Result<Part, FormFault> {
        match value.as_array() {
            Some(items) => part(alloc, items.as_slice()),
            None => Err(FormFault::OtherForm),
        }
    }
}

impl FromJson for ModuleInfo {
    ghost form = { module_form };

    #[tactic(auto, unfolding(crate::specs::ModuleForms::module_form))]
    fn from_json(alloc: Global, value: &Value) -> Result<ModuleInfo, FormFault> {
        if !has_only(value, &["memories", "tables", "state_bytes", "parts"]) {
            return Err(FormFault::OtherForm);
        }
        let memories = list_or_empty(alloc, value.get("memories"))?;
        let tables = list_or_empty(alloc, value.get("tables"))?;
        let state_bytes = number_or(0, value.get("state_bytes")).ok_or(FormFault::OtherForm)?;
        let parts = list_or_empty(alloc, value.get("parts"))?;
        Ok(ModuleInfo {
            memories,
            tables,
            state_bytes,
            parts,
        })
    }
}
