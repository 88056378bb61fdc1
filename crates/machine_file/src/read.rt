//! From the bytes of a file to the machine that it describes.

ghost use Rattle.std.specs.Prelude.{◌≡◌, ◌≢◌, Some, None, Ok, Err, IfOk, IfErr, string_bytes};
ghost use Rattle.std.specs.List.{list_all};
ghost use Rattle.std.specs.BTreeMap.{keys};
ghost use Rattle.toml.specs.Data.{get_member};
ghost use Rattle.toml.specs.View.{view, table_view};
ghost use Rattle.start_file.specs.Tables.{data_of};
ghost use Rattle.start_file.specs.Touches.{address_of};
ghost use Rattle.hardware.specs.Limits.{IsWithin};
ghost use Rattle.start_file.specs.Starts.{IsDocument};
ghost use Rattle.machine_file.specs.Files.{is_bank_key, is_machine_key, bank_in, as_bank, bank_of, sharing_named, sharing_of, is_first};
ghost use Rattle.machine_file.specs.Files.{replacement_named, replacement_of};
ghost use Rattle.machine_file.specs.Files.{with_banks, machine_in, Describes, Refused};

use crate::fault::MachineFault;
use crate::limits::limit_fault;
use env_contract::place::Place;
use part_cache::replacement::Replacement;
use part_tlb::bank::{Bank, Hardware, Sharing};
use std::alloc::Global;
use toml::{Table, Value};

#[tactic(auto, using(toml::proofs::Views::table_get))]
fn at<'a>(table: &'a Table, key: &str) -> Option<&'a Value>
    ensures { data_of result ≡ get_member key.now (table_view table.now) }
{
    table.get(key)
}

fn is_bank_key(key: &str) -> bool
    ensures { result ≡ is_bank_key key.now }
{
    key == "sets"
        || key == "ways"
        || key == "bytes"
        || key == "hit"
        || key == "miss"
        || key == "replace"
}

fn has_bank_keys(table: &Table) -> bool
    ensures { result ≡ list_all (λ k. is_bank_key (string_bytes k)) (keys table.now) }
{
    table.keys().all(|key| is_bank_key(key.as_str()))
}

fn is_machine_key(key: &str) -> bool
    ensures { result ≡ is_machine_key key.now }
{
    key == "version"
        || key == "sharing"
        || key == "page"
        || key == "code"
        || key == "data"
        || key == "second"
}

fn has_machine_keys(table: &Table) -> bool
    ensures { result ≡ list_all (λ k. is_machine_key (string_bytes k)) (keys table.now) }
{
    table.keys().all(|key| is_machine_key(key.as_str()))
}

fn number(value: Option<&Value>) -> Option<u32>
    ensures { result ≡ address_of (data_of value.entry) }
{
    match value? {
        Value::Integer(number) => u32::try_from(*number).ok(),
        _ => None,
    }
}

fn bank_in(table: &Table) -> Option<Bank>
    ensures { result ≡ bank_in (table_view table.now) }
{
    if !has_bank_keys(table) {
        return None;
    }
    Some(Bank {
        sets: number(at(table, "sets"))?,
        ways: number(at(table, "ways"))?,
        bytes: number(at(table, "bytes"))?,
        hit: number(at(table, "hit"))?,
        miss: number(at(table, "miss"))?,
        replacement: Replacement::LeastRecent,
    })
}

fn replacement_named(word: &str) -> Option<Replacement>
    ensures { result ≡ replacement_named word.now }
{
    if word == "lru" {
        Some(Replacement::LeastRecent)
    } else if word == "fifo" {
        Some(Replacement::FirstCome)
    } else {
        None
    }
}

fn replacement(value: Option<&Value>) -> Option<Replacement>
    ensures { result ≡ replacement_of (data_of value.entry) }
{
    let Some(value) = value else {
        return Some(Replacement::LeastRecent);
    };
    match value {
        Value::String(word) => replacement_named(word.as_str()),
        _ => None,
    }
}

// The bank of the numbers with the rule, or what is wrong at the place.
fn as_bank(
    place: Place,
    bank: Option<Bank>,
    rule: Option<Replacement>,
) -> Result<Option<Bank>, MachineFault>
    ensures { result ≡ as_bank place bank rule }
{
    let Some(bank) = bank else {
        return Err(MachineFault::BadBank(place));
    };
    let Some(replacement) = rule else {
        return Err(MachineFault::Replacement(place));
    };
    Ok(Some(Bank {
        replacement,
        ..bank
    }))
}

fn bank(place: Place, value: Option<&Value>) -> Result<Option<Bank>, MachineFault>
    ensures { result ≡ bank_of place (data_of value.entry) }
{
    let Some(value) = value else {
        return Ok(None);
    };
    match value {
        Value::Table(table) => {
            let numbers = bank_in(table);
            let rule = replacement(at(table, "replace"));
            as_bank(place, numbers, rule)
        }
        _ => Err(MachineFault::BadBank(place)),
    }
}

fn sharing_named(word: &str) -> Option<Sharing>
    ensures { result ≡ sharing_named word.now }
{
    if word == "partitioned" {
        Some(Sharing::Partitioned)
    } else if word == "shared" {
        Some(Sharing::Shared)
    } else {
        None
    }
}

fn sharing(value: Option<&Value>) -> Option<Sharing>
    ensures { result ≡ sharing_of (data_of value.entry) }
{
    match value? {
        Value::String(word) => sharing_named(word.as_str()),
        _ => None,
    }
}

fn is_first(value: Option<&Value>) -> bool
    ensures { result ≡ is_first (data_of value.entry) }
{
    let Some(value) = value else {
        return false;
    };
    match value {
        Value::Integer(number) => *number == 1,
        _ => false,
    }
}

// The machine of the banks, or the first fault.
fn with_banks(
    sharing: Sharing,
    page: Result<Option<Bank>, MachineFault>,
    code: Result<Option<Bank>, MachineFault>,
    line: Result<Option<Bank>, MachineFault>,
    second: Result<Option<Bank>, MachineFault>,
) -> Result<Hardware, MachineFault>
    ensures { result ≡ with_banks sharing page code line second }
{
    match (page, code, line, second) {
        (Err(fault), _, _, _) => Err(fault),
        (Ok(_), Err(fault), _, _) => Err(fault),
        (Ok(_), Ok(_), Err(fault), _) => Err(fault),
        (Ok(_), Ok(_), Ok(_), Err(fault)) => Err(fault),
        (Ok(buffer), Ok(code_cache), Ok(data_cache), Ok(second)) => Ok(Hardware {
            buffer,
            code_cache,
            data_cache,
            second,
            sharing,
        }),
    }
}

fn machine_in(table: &Table) -> Result<Hardware, MachineFault>
    ensures { result ≡ machine_in (table_view table.now) }
{
    if !is_first(at(table, "version")) {
        return Err(MachineFault::Version);
    }
    if !has_machine_keys(table) {
        return Err(MachineFault::UnknownKey);
    }
    let Some(sharing) = sharing(at(table, "sharing")) else {
        return Err(MachineFault::Sharing);
    };
    let page = bank(Place::Page, at(table, "page"));
    let code = bank(Place::Code, at(table, "code"));
    let line = bank(Place::Data, at(table, "data"));
    let second = bank(Place::Second, at(table, "second"));
    with_banks(sharing, page, code, line, second)
}

fn document(alloc: Global, bytes: &[u8]) -> Result<Table, MachineFault>
    ensures ok { IfOk result (λ t. IsDocument bytes.now (Some (table_view t))) }
    ensures fault { IfErr result (λ e. e ≢ MachineFault.Memory → e ≡ MachineFault.NotToml) }
    ensures refused { IfErr result (λ e. e ≢ MachineFault.Memory → IsDocument bytes.now None) }
    ensures told { IfErr result (λ e. e ≢ MachineFault.Memory → Refused bytes.now e) }
{
    match toml::de::table_from_slice(alloc, bytes) {
        Ok(table) => Ok(table),
        Err(fault) => {
            if fault.is_memory() {
                return Err(MachineFault::Memory);
            }
            Err(MachineFault::NotToml)
        }
    }
}

/// The machine that a file describes. It is within the limits.
///
/// # Errors
/// What the file is refused for first, or `Memory`.
pub fn read_machine(alloc: Global, bytes: &[u8]) -> Result<Hardware, MachineFault>
    ensures described { IfOk result (Describes bytes.now) }
    ensures within { IfOk result IsWithin }
    ensures refused { IfErr result (λ e. e ≢ MachineFault.Memory → Refused bytes.now e) }
{
    let table = document(alloc, bytes)?;
    match machine_in(&table) {
        Err(fault) => Err(fault),
        Ok(hardware) => match limit_fault(hardware) {
            Some(fault) => Err(fault),
            None => Ok(hardware),
        },
    }
}
