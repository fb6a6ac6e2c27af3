//! Parameters to bytes.
//!
//! `specs/Written.antt` draws them.
//!
//! RTPS 2.5, 9.4.2 (ParameterList, strings), 9.3.2 (Locator_t).

ghost use Rattle.std.specs.Prelude.{◌≡◌, ◌<◌, ◌^◌, ◌-◌, ◌%◌, ◌∷◌, [], ◌++◌, length, map, replicate, OnOk, IfErr};
ghost use Rattle.std.specs.Int.{w16, w32};
ghost use Rattle.std.specs.List.{flat_map};
ghost use Rattle.dds_base.specs.Fields.{number};
ghost use Rattle.dds_base.specs.declared.endianness.Endianness.TheVariants.{Little};
ghost use Rattle.rtps_announcements.specs.Names.{max_partitions};
ghost use Rattle.rtps_announcements.specs.Values.{AreListed, IsName, guid_text, duration_text};
ghost use Rattle.rtps_announcements.specs.Written.{row_text, unless, padded_name_text, locator_text};
ghost use Rattle.rtps_announcements.specs.WrittenEndpoints.{partition_row, representation_row};

use crate::locator::{Locator, Locators};
use crate::name::Name;
use crate::names::{
    LEN_ALIGNED, LEN_ENTITY_ID, LEN_PREFIX, LOCATOR_KIND_UDP_V4, PID_DATA_REPRESENTATION,
    PID_PARTITION,
};
use crate::partition::Partitions;
use crate::representation::Representations;
use dds_base::{Code, Duration, Guid};
use std::alloc::Global;

/// Appends what stands before a value: its id, and how many octets it has.
fn put_head(out: &mut Vec<u8>, id: u16, len: u16) -> Result<(), Code>
    ensures ok { OnOk result
        (out.new.items ≡ out.old.items ++ (number Little w16 id ++ number Little w16 len)) }
    ensures memory { IfErr result (λ e. e ≡ Code.Memory) }
{
    out.extend_from_slice([id.to_le_bytes(), len.to_le_bytes()].as_flattened())?;
    Ok(())
}

/// Appends a parameter.
#[tactic(auto, unfolding(crate::specs::Written::row_text))]
pub fn put_value(out: &mut Vec<u8>, id: u16, value: &[u8]) -> Result<(), Code>
    requires { length value.now < 2 ^ 16 }
    ensures ok { OnOk result (out.new.items ≡ out.old.items ++ row_text (id, value.now ∷ [])) }
    ensures memory { IfErr result (λ e. e ≡ Code.Memory) }
{
    put_head(out, id, value.len() as u16)?;
    out.extend_from_slice(value)?;
    Ok(())
}

/// Appends a parameter that is not left out.
#[tactic(auto, unfolding(crate::specs::Written::row_text))]
pub fn put_unless(out: &mut Vec<u8>, is_left_out: bool, id: u16, value: &[u8]) -> Result<(), Code>
    requires { length value.now < 2 ^ 16 }
    ensures ok { OnOk result
        (out.new.items ≡ out.old.items ++ row_text (id, unless is_left_out value.now)) }
    ensures memory { IfErr result (λ e. e ≡ Code.Memory) }
{
    if is_left_out {
        return Ok(());
    }
    put_value(out, id, value)
}

/// Appends a number.
pub fn put_number(out: &mut Vec<u8>, id: u16, word: u32) -> Result<(), Code>
    ensures ok { OnOk result
        (out.new.items ≡ out.old.items ++ row_text (id, number Little w32 word ∷ [])) }
    ensures memory { IfErr result (λ e. e ≡ Code.Memory) }
{
    put_value(out, id, &word.to_le_bytes())
}

/// Appends a GUID.
#[tactic(auto, unfolding(crate::specs::Written::row_text))]
pub fn put_guid(out: &mut Vec<u8>, id: u16, guid: &Guid) -> Result<(), Code>
    ensures ok { OnOk result
        (out.new.items ≡ out.old.items ++ row_text (id, guid_text guid.now ∷ [])) }
    ensures memory { IfErr result (λ e. e ≡ Code.Memory) }
{
    put_head(out, id, (LEN_PREFIX + LEN_ENTITY_ID) as u16)?;
    out.extend_from_slice(guid.prefix.as_slice())?;
    out.extend_from_slice(guid.entity.as_slice())?;
    Ok(())
}

/// Appends a time that is not left out.
pub fn put_time(out: &mut Vec<u8>, is_left_out: bool, id: u16, time: Duration) -> Result<(), Code>
    ensures ok { OnOk result
        (out.new.items ≡ out.old.items
        ++ row_text (id, unless is_left_out (duration_text Little time))) }
    ensures memory { IfErr result (λ e. e ≡ Code.Memory) }
{
    let halves = [time.seconds.to_le_bytes(), time.fraction.to_le_bytes()];
    put_unless(out, is_left_out, id, halves.as_flattened())
}

/// How many zeros stand behind a name and its zero, up to a multiple of 4.
fn zeros_after(name: &Name) -> usize
    ensures len { result ≡ 3 - length name.now % 4 }
    ensures few { result < LEN_ALIGNED }
{
    3 - name.as_slice().len() % LEN_ALIGNED
}

/// Appends as many zeros.
fn put_zeros(out: &mut Vec<u8>, count: usize) -> Result<(), Code>
    requires { count < LEN_ALIGNED }
    ensures ok { OnOk result (out.new.items ≡ out.old.items ++ replicate count 0) }
    ensures memory { IfErr result (λ e. e ≡ Code.Memory) }
{
    if count == 0 {
        return Ok(());
    }
    let zeros = [0; LEN_ALIGNED];
    out.extend_from_slice(&zeros[..count])?;
    Ok(())
}

/// Appends a name, and zeros up to a multiple of 4.
fn put_padded_name(out: &mut Vec<u8>, name: &Name) -> Result<(), Code>
    requires { IsName name.now }
    ensures ok { OnOk result (out.new.items ≡ out.old.items ++ padded_name_text name.now) }
    ensures memory { IfErr result (λ e. e ≡ Code.Memory) }
{
    let octets = name.as_slice();
    out.extend_from_slice(&(octets.len() as u32 + 1).to_le_bytes())?;
    out.extend_from_slice(octets)?;
    out.push(0)?;
    put_zeros(out, zeros_after(name))
}

/// Appends a parameter that is a name.
#[tactic(auto, unfolding(crate::specs::Written::row_text))]
pub fn put_name(out: &mut Vec<u8>, id: u16, name: &Name) -> Result<(), Code>
    requires { IsName name.now }
    ensures ok { OnOk result
        (out.new.items ≡ out.old.items ++ row_text (id, padded_name_text name.now ∷ [])) }
    ensures memory { IfErr result (λ e. e ≡ Code.Memory) }
{
    let len = 5 + name.as_slice().len() + zeros_after(name);
    put_head(out, id, len as u16)?;
    put_padded_name(out, name)
}

/// Appends a locator.
#[tactic(auto, unfolding(crate::specs::Written::row_text))]
fn put_locator(out: &mut Vec<u8>, id: u16, locator: &Locator) -> Result<(), Code>
    ensures ok { OnOk result
        (out.new.items ≡ out.old.items ++ row_text (id, locator_text locator.now ∷ [])) }
    ensures memory { IfErr result (λ e. e ≡ Code.Memory) }
{
    let kind = LOCATOR_KIND_UDP_V4.to_le_bytes();
    let port = (locator.port as u32).to_le_bytes();
    let words = [kind, port, [0; 4], [0; 4], [0; 4], locator.address];
    put_value(out, id, words.as_flattened())
}

/// Appends a parameter for each locator.
pub fn put_locators(out: &mut Vec<u8>, id: u16, locators: &Locators) -> Result<(), Code>
    ensures ok { OnOk result
        (out.new.items ≡ out.old.items ++ row_text (id, map locator_text locators.now)) }
    ensures memory { IfErr result (λ e. e ≡ Code.Memory) }
{
    for locator in locators.as_slice() {
        put_locator(out, id, locator)?;
    }
    Ok(())
}

/// Appends the names of partitions, each up to a multiple of 4.
fn put_names(out: &mut Vec<u8>, partitions: &Partitions) -> Result<(), Code>
    requires { AreListed max_partitions IsName partitions.now }
    ensures ok { OnOk result
        (out.new.items ≡ out.old.items ++ flat_map padded_name_text partitions.now) }
    ensures memory { IfErr result (λ e. e ≡ Code.Memory) }
{
    for name in partitions.as_slice() {
        put_padded_name(out, name)?;
    }
    Ok(())
}

/// Appends the partitions, where there are some.
pub fn put_partitions(alloc: Global, out: &mut Vec<u8>, partitions: &Partitions) -> Result<(), Code>
    requires { AreListed max_partitions IsName partitions.now }
    ensures ok { OnOk result (out.new.items
        ≡ out.old.items ++ row_text (partition_row partitions.now)) }
    ensures memory { IfErr result (λ e. e ≡ Code.Memory) }
{
    let names = partitions.as_slice();
    if names.is_empty() {
        return Ok(());
    }
    let mut value = Vec::new(alloc);
    value.extend_from_slice(&(names.len() as u32).to_le_bytes())?;
    put_names(&mut value, partitions)?;
    put_value(out, PID_PARTITION, &value)?;
    Ok(())
}

/// Appends ids.
fn put_ids(out: &mut Vec<u8>, representations: &Representations) -> Result<(), Code>
    ensures ok { OnOk result
        (out.new.items ≡ out.old.items ++ flat_map (number Little w16) representations.now) }
    ensures memory { IfErr result (λ e. e ≡ Code.Memory) }
{
    for id in representations.as_slice() {
        out.extend_from_slice(&id.to_le_bytes())?;
    }
    Ok(())
}

/// Appends the ids of representations.
#[tactic(auto, unfolding(crate::specs::Written::row_text))]
pub fn put_representations(out: &mut Vec<u8>, representations: &Representations) -> Result<(), Code>
    ensures ok { OnOk result (out.new.items ≡ out.old.items
        ++ row_text (representation_row representations.now)) }
    ensures memory { IfErr result (λ e. e ≡ Code.Memory) }
{
    let count = representations.as_slice().len();
    let padding = count % 2 * 2;
    put_head(
        out,
        PID_DATA_REPRESENTATION,
        (4 + 2 * count + padding) as u16,
    )?;
    out.extend_from_slice(&(count as u32).to_le_bytes())?;
    put_ids(out, representations)?;
    put_zeros(out, padding)?;
    Ok(())
}
