//! What is told of a touch that is none.

ghost use Rattle.std.specs.Prelude.{◌≡◌, ◌++◌, OnOk, codes, is_some};
ghost use Rattle.toml.specs.View.{items_view, table_view, view};
ghost use Rattle.start_file.specs.Tables.{data_of, keys_pass};
ghost use Rattle.start_file.specs.Touches.{address_of, is_touch_key, label_named, label_of, place_named, place_of, touch_in, touch_of};
ghost use Rattle.start_faults.specs.declared.keys.Keys.TheVariants as touch;
ghost use Rattle.start_faults.specs.Found.{first_unknown, has_key, key_lines, place_lines};
ghost use Rattle.start_faults.specs.Names.{version_if};
ghost use Rattle.start_faults.specs.Touches.{address_wanted, keyed_lines, label_wanted, list_lines, member_lines, names_text, places_wanted, touch_lines};
ghost use Rattle.start_faults.specs.Touches.{touch_place, touches_lines};

use crate::found::{array_in, put_count, put_place};
use crate::keys::{Keys, at, first_unknown, put_key};
use label_lattice::label::Label;
use label_lattice::lattice::Lattice;
use label_lattice::name::Name;
use std::alloc::{AllocError, Global};
use toml::{Table, Value};

fn is_place_named(two: bool, word: &str) -> bool
    ensures { result ≡ is_some (place_named (version_if two) word.now) }
{
    word == "page" || word == "code" || word == "data" || word == "second" && two
}

fn is_place(two: bool, value: Option<&Value>) -> bool
    ensures { result ≡ is_some (place_of (version_if two) (data_of value.entry)) }
{
    match value {
        Some(Value::String(word)) => is_place_named(two, word.as_str()),
        _ => false,
    }
}

fn label_named(lattice: &Lattice, word: &str) -> Option<Label>
    ensures { result ≡ label_named lattice.now word.now }
{
    lattice.laws();
    let name = Name::read(word.as_bytes())?;
    lattice.find(&name)
}

fn label(lattice: &Lattice, value: Option<&Value>) -> Option<Label>
    ensures { result ≡ label_of lattice.now (data_of value.entry) }
{
    match value? {
        Value::String(word) => label_named(lattice, word.as_str()),
        _ => None,
    }
}

fn is_label(lattice: &Lattice, value: Option<&Value>) -> bool
    ensures { result ≡ is_some (label_of lattice.now (data_of value.entry)) }
{
    label(lattice, value).is_some()
}

fn address(value: Option<&Value>) -> Option<u32>
    ensures { result ≡ address_of (data_of value.entry) }
{
    match value? {
        Value::Integer(number) => u32::try_from(*number).ok(),
        _ => None,
    }
}

fn is_address(value: Option<&Value>) -> bool
    ensures { result ≡ is_some (address_of (data_of value.entry)) }
{
    address(value).is_some()
}

fn has_touch_keys(table: &Table) -> bool
    ensures { result ≡ keys_pass is_touch_key (table_view table.now) }
{
    first_unknown(Keys::Touch, table).is_none()
}

// Whether a table is a touch.
fn is_touch_in(two: bool, lattice: &Lattice, table: &Table) -> bool
    ensures { result ≡ is_some (touch_in (version_if two) lattice.now (table_view table.now)) }
{
    let place = at(table, "place");
    let label = at(table, "label");
    let address = at(table, "address");
    if !has_touch_keys(table) {
        return false;
    }
    if !is_place(two, place) {
        return false;
    }
    if !is_label(lattice, label) {
        return false;
    }
    is_address(address)
}

fn is_touch(two: bool, lattice: &Lattice, value: &Value) -> bool
    ensures { result ≡ is_some (touch_of (version_if two) lattice.now (view value.now)) }
{
    match value {
        Value::Table(table) => is_touch_in(two, lattice, table),
        _ => false,
    }
}

fn places_wanted(two: bool) -> &'static [u8]
    ensures { result.now ≡ places_wanted (version_if two) }
{
    if two {
        b"page code data second".as_slice()
    } else {
        b"page code data; second from version = 2 on".as_slice()
    }
}

// Appends the names of labels.
fn put_names(out: &mut Vec<u8>, lattice: &Lattice) -> Result<(), AllocError>
    ensures { OnOk result (out.new.items ≡ out.old.items ++ names_text lattice.now.names) }
{
    lattice.laws();
    for number in 0..lattice.size() {
        out.extend_from_slice(b" ")?;
        out.extend_from_slice(lattice.name(Label::new(number as u8)).bytes())?;
    }
    Ok(())
}

fn put_label_wanted(out: &mut Vec<u8>, lattice: &Lattice) -> Result<(), AllocError>
    ensures { OnOk result (out.new.items ≡ out.old.items ++ label_wanted lattice.now) }
{
    out.extend_from_slice(b"a label:")?;
    put_names(out, lattice)?;
    Ok(())
}

// Appends the place of the touch behind i others.
fn put_touch_place(out: &mut Vec<u8>, i: usize) -> Result<(), AllocError>
    ensures { OnOk result (out.new.items ≡ out.old.items ++ touch_place i) }
{
    out.extend_from_slice(b"touch[")?;
    put_count(out, i as u64)?;
    out.extend_from_slice(b"]")?;
    Ok(())
}

// Appends the lines on a value of the touch behind i others.
fn put_member(
    out: &mut Vec<u8>,
    alloc: Global,
    i: usize,
    key: &[u8],
    value: Option<&Value>,
    wanted: &[u8],
) -> Result<(), AllocError>
    ensures { OnOk result (out.new.items ≡ out.old.items ++ place_lines (touch_place i ++ key.now) (data_of value.entry) wanted.now) }
{
    let mut place = Vec::new(alloc);
    put_touch_place(&mut place, i)?;
    place.extend_from_slice(key)?;
    put_place(out, place.as_slice(), value, wanted)?;
    Ok(())
}

fn put_label(
    out: &mut Vec<u8>,
    alloc: Global,
    lattice: &Lattice,
    i: usize,
    value: Option<&Value>,
) -> Result<(), AllocError>
    ensures { OnOk result (out.new.items ≡ out.old.items
        ++ place_lines (touch_place i ++ codes ".label") (data_of value.entry) (label_wanted lattice.now)) }
{
    let mut wanted = Vec::new(alloc);
    put_label_wanted(&mut wanted, lattice)?;
    put_member(out, alloc, i, b".label", value, wanted.as_slice())
}

// Appends the lines on the first of the three values that is none.
fn put_members(
    out: &mut Vec<u8>,
    alloc: Global,
    lattice: &Lattice,
    two: bool,
    i: usize,
    table: &Table,
) -> Result<(), AllocError>
    ensures { OnOk result (out.new.items ≡ out.old.items ++ member_lines (version_if two) lattice.now i (table_view table.now)) }
{
    let place = at(table, "place");
    if !is_place(two, place) {
        return put_member(out, alloc, i, b".place", place, places_wanted(two));
    }
    let label = at(table, "label");
    if !is_label(lattice, label) {
        return put_label(out, alloc, lattice, i, label);
    }
    put_member(
        out,
        alloc,
        i,
        b".address",
        at(table, "address"),
        address_wanted(),
    )
}

fn address_wanted() -> &'static [u8]
    ensures { result.now ≡ address_wanted }
{
    b"an integer from 0 to 4294967295"
}

fn put_unknown(out: &mut Vec<u8>, alloc: Global, i: usize, key: &str) -> Result<(), AllocError>
    ensures { OnOk result (out.new.items ≡ out.old.items ++ key_lines (touch_place i ++ codes ".") touch.Touch key.now) }
{
    let mut place = Vec::new(alloc);
    put_touch_place(&mut place, i)?;
    place.extend_from_slice(b".")?;
    put_key(out, alloc, place.as_slice(), Keys::Touch, key)
}

fn put_table(
    out: &mut Vec<u8>,
    alloc: Global,
    lattice: &Lattice,
    two: bool,
    i: usize,
    table: &Table,
) -> Result<(), AllocError>
    ensures { OnOk result (out.new.items ≡ out.old.items ++ keyed_lines (version_if two) lattice.now i (table_view table.now)
        (first_unknown (has_key touch.Touch) (table_view table.now))) }
{
    match first_unknown(Keys::Touch, table) {
        Some(key) => put_unknown(out, alloc, i, key),
        None => put_members(out, alloc, lattice, two, i, table),
    }
}

// Appends the lines on the touch behind i others, which is none.
fn put_touch(
    out: &mut Vec<u8>,
    alloc: Global,
    lattice: &Lattice,
    two: bool,
    i: usize,
    value: &Value,
) -> Result<(), AllocError>
    ensures { OnOk result (out.new.items ≡ out.old.items ++ touch_lines (version_if two) lattice.now i (view value.now)) }
{
    if let Value::Table(table) = value {
        return put_table(out, alloc, lattice, two, i, table);
    }
    let mut place = Vec::new(alloc);
    put_touch_place(&mut place, i)?;
    put_place(out, place.as_slice(), Some(value), b"a table")?;
    Ok(())
}

// Appends the lines on the first that is none.
fn put_list(
    out: &mut Vec<u8>,
    alloc: Global,
    lattice: &Lattice,
    two: bool,
    values: &[Value],
) -> Result<(), AllocError>
    ensures { OnOk result (out.new.items ≡ out.old.items ++ list_lines (version_if two) lattice.now 0 (items_view values.now)) }
{
    for (i, value) in values.iter().enumerate() {
        if !is_touch(two, lattice, value) {
            return put_touch(out, alloc, lattice, two, i, value);
        }
    }
    Ok(())
}

/// Appends the lines on the touches of a run, one of which is none.
pub(crate) fn put_touches(
    out: &mut Vec<u8>,
    alloc: Global,
    lattice: &Lattice,
    two: bool,
    touch: Option<&Value>,
) -> Result<(), AllocError>
    ensures { OnOk result (out.new.items ≡ out.old.items ++ touches_lines (version_if two) lattice.now (data_of touch.entry)) }
{
    match array_in(touch) {
        None => put_place(out, b"touch", touch, b"an array of tables")?,
        Some(values) => put_list(out, alloc, lattice, two, values)?,
    }
    Ok(())
}
