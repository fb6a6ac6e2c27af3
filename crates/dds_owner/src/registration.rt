//! Who is registered, as a list with an entry for each matched writer.
//!
//! DDS 1.4, 2.2.2.4 (register_instance, unregister_instance), 2.2.3 (LIVELINESS).

ghost use Rattle.std.specs.Prelude.{◌≡◌, ◌≤◌, ◌++◌, drop, length, map, vec_len, IfOk};
ghost use Rattle.std.specs.List.{list_any};
ghost use Rattle.dds_owner.specs.Registration.{blank_registrations, entered, is_there, is_there_at};

use dds_base::Handle;
use std::alloc::{AllocError, Global};

/// Whether a matched writer is registered for an instance.
#[derive(Clone, Copy)]
pub struct Registration {
    pub writer: Handle,
    pub is_registered: bool,
}

/// So many writers of which nothing has come.
pub fn blank_items(alloc: Global, writers: usize) -> Result<Vec<Registration>, AllocError>
    ensures { IfOk result (λ rs. rs.items ≡ blank_registrations 1 writers) }
{
    let mut items = Vec::with_capacity(alloc, writers)?;
    for at in 0..writers {
        items.push(Registration {
            writer: Handle::new(at as u64 + 1),
            is_registered: false,
        })?;
    }
    Ok(items)
}

/// Puts the registrations of the first writers over those of as many of more writers.
pub fn put_front(registrations: &mut Vec<Registration>, first: &[Registration])
    requires { length first.now ≤ vec_len registrations.old }
    ensures { registrations.new.items
        ≡ first.now ++ drop (length first.now) registrations.old.items }
{
    for at in 0..first.len() {
        registrations[at] = first[at];
    }
}

fn entered_registration(r: &Registration, writer: Handle, is_registered: bool) -> Registration
    ensures { result ≡ entered is_registered writer r.now }
{
    Registration {
        writer: r.writer,
        is_registered: if writer == r.writer {
            is_registered
        } else {
            r.is_registered
        },
    }
}

fn enter_all(registrations: &mut [Registration], writer: Handle, is_registered: bool)
    ensures { registrations.new ≡ map (entered is_registered writer) registrations.old }
{
    for r in registrations.iter_mut() {
        *r = entered_registration(r, writer, is_registered);
    }
}

/// Enters whether a writer is registered.
pub fn enter(registrations: &mut Vec<Registration>, writer: Handle, is_registered: bool)
    ensures { registrations.new.items ≡ map (entered is_registered writer) registrations.old.items }
{
    enter_all(registrations, writer, is_registered);
}

pub fn is_anybody_there(registrations: &[Registration]) -> bool
    ensures { result ≡ list_any is_there registrations.now }
{
    registrations.iter().any(|r| r.is_registered)
}

/// Whether anybody is registered once it is entered whether this writer is.
pub fn would_anybody_be_there(
    registrations: &[Registration],
    writer: Handle,
    is_registered: bool,
) -> bool
    ensures { result ≡ list_any (λ r. is_there (entered is_registered writer r)) registrations.now }
{
    registrations.iter().any(|r| entered_registration(r, writer, is_registered).is_registered)
}

/// Whether a writer is registered, by its publication handle.
pub fn is_writer_there(registrations: &[Registration], writer: Handle) -> bool
    ensures { result ≡ is_there_at registrations.now writer }
{
    match writer.number().checked_sub(1) {
        Some(at) => match registrations.get(at as usize) {
            Some(r) => r.is_registered,
            None => false,
        },
        None => false,
    }
}
