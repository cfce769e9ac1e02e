//! The time that a keyset's handle takes: to make it, and to open bytes under one of its keys.

ghost use Rattle.std.specs.Prelude.{◌≤◌, length, IfOk};
ghost use Rattle.key_msgs.specs.declared.primitive.Primitive.TheVariants.{Aead};
ghost use Rattle.keyset_model.specs.Keyset.{Keys};
ghost use Rattle.wrapped_prims.specs.Making.{IsOver};

use crate::clock::Stopwatch;
use key_msgs::Primitive;
use keyset_model::{Keyset, read_binary};
use managers::{AeadManager, AeadScheme, KeyTable, Managers, StandardAead};
use std::alloc::Global;
use std::io::{self, ErrorKind};
use tink_base::Trials;
use wrapped_prims::Handle;

/// What is timed, in the order in which it is printed.
pub const TASKS: [(&str, Task); 4] = [
    ("handle-make", Task::Make),
    ("handle-open-first", Task::OpenFirst),
    ("handle-open-middle", Task::OpenMiddle),
    ("handle-open-last", Task::OpenLast),
];

/// The most keys that a keyset has.
pub const MOST_KEYS: usize = 100_000;

/// The least key id, from which on ids have four bytes as varints.
const LEAST_ID: u32 = 1 << 21;

/// The bytes before the key id in a record of an AES-GCM key of 16 zero bytes with the URL `g`,
/// ENABLED; TINK follows the id.
const BEFORE: &[u8] =
    b"\x12\x24\x0a\x19\x0a\x01g\x12\x12\x1a\x10\0\0\0\0\0\0\0\0\0\0\0\0\0\0\0\0\x18\x01\x10\x01\x18";

const BEHIND: &[u8] = b"\x20\x01";

/// An IV of zeros, and the tag of no text under it: case 1 of the appendix of AES-GCM's authors.
const SEALED: &[u8] =
    b"\0\0\0\0\0\0\0\0\0\0\0\0\x58\xe2\xfc\xce\xfa\x7e\x30\x61\x36\x7f\x1d\x57\xa4\xe7\x45\x5a";

/// A task over a keyset of many keys, each with a prefix of its own.
#[derive(Clone, Copy)]
pub enum Task {
    /// Make its handle.
    Make,
    /// Open what the first key sealed.
    OpenFirst,
    /// Open what the key in the middle sealed.
    OpenMiddle,
    /// Open what the last key sealed.
    OpenLast,
}

impl Task {
    /// The task of this name.
    pub fn named(name: &str) -> Option<Task> {
        for (known, task) in TASKS {
            if known == name {
                return Some(task);
            }
        }
        None
    }

    // The place of the key that sealed the bytes.
    fn place(self, keys: usize) -> usize {
        match self {
            Task::Make | Task::OpenFirst => 0,
            Task::OpenMiddle => keys / 2,
            Task::OpenLast => keys.saturating_sub(1),
        }
    }
}

// The key id at a place.
fn id_at(place: usize) -> u32 {
    LEAST_ID + (place % MOST_KEYS) as u32
}

// A key id as a varint.
fn push_id(out: &mut Vec<u8>, id: u32) -> io::Result<()> {
    for shift in [0, 7, 14] {
        out.push(((id >> shift) & 0x7f) as u8 | 0x80)?;
    }
    out.push(((id >> 21) & 0x7f) as u8)?;
    Ok(())
}

// The keyset of `keys` keys, the first of them primary.
fn keyset_of(alloc: Global, keys: usize) -> io::Result<Keyset> {
    let mut out = Vec::new(alloc);
    out.push(0x08)?;
    push_id(&mut out, id_at(0))?;
    for place in 0..keys {
        out.extend_from_slice(BEFORE)?;
        push_id(&mut out, id_at(place))?;
        out.extend_from_slice(BEHIND)?;
    }
    if out.len() > 1 << 30 {
        return Err(ErrorKind::InvalidInput.into());
    }
    match read_binary(alloc, &out) {
        Ok(keyset) => Ok(keyset),
        Err(_) => Err(ErrorKind::InvalidInput.into()),
    }
}

// The empty text, sealed by the key at this place.
fn sealed_by(alloc: Global, place: usize) -> io::Result<Vec<u8>>
    ensures few { IfOk result (λ out. length out.items ≤ 1000) }
{
    let mut out = Vec::new(alloc);
    out.push(1)?;
    out.extend_from_slice(&id_at(place).to_be_bytes())?;
    out.extend_from_slice(SEALED)?;
    if out.len() > 1000 {
        return Err(ErrorKind::InvalidInput.into());
    }
    Ok(out)
}

// Makes the handle over and over.
fn time_making(
    rt: &HostRuntime,
    keyset: &Keyset,
    managers: &Managers,
    milliseconds: u32,
) -> io::Result<()> {
    let mut watch = Stopwatch::start(rt, milliseconds)?;
    for _ in 0..u32::MAX {
        for _ in 0..16 {
            drop(Handle::new(rt.alloc(), keyset, managers, Primitive::Aead));
        }
        if watch.is_over(rt, 16)? {
            break;
        }
    }
    watch.print(rt, 0)
}

// How many keys are tried for opening these bytes.
fn tried(alloc: Global, handle: &Handle<'_>, sealed: &[u8]) -> u64
    requires over { (keys : Keys)
        × IsOver (⟦<Managers as KeyTable>⟧.table handle.now.managers.now) Aead keys handle.now.held }
    requires few { length sealed.now ≤ 1000 }
{
    let mut trials = Trials::new();
    drop(handle.open(alloc, sealed, &[], &mut trials));
    trials.spent()
}

// Opens the bytes over and over.
fn time_opening(
    rt: &HostRuntime,
    handle: &Handle<'_>,
    sealed: &[u8],
    milliseconds: u32,
) -> io::Result<()>
    requires over { (keys : Keys)
        × IsOver (⟦<Managers as KeyTable>⟧.table handle.now.managers.now) Aead keys handle.now.held }
    requires few { length sealed.now ≤ 1000 }
{
    let mut watch = Stopwatch::start(rt, milliseconds)?;
    let mut last = 0;
    for _ in 0..u32::MAX {
        for _ in 0..16 {
            last = tried(rt.alloc(), handle, sealed);
        }
        if watch.is_over(rt, 16)? {
            break;
        }
    }
    watch.print(rt, last)
}

// Opens these bytes over and over by a handle of the keyset.
fn time_opening_by(
    rt: &HostRuntime,
    keyset: &Keyset,
    managers: &Managers,
    sealed: &[u8],
    milliseconds: u32,
) -> io::Result<()>
    requires few { length sealed.now ≤ 1000 }
{
    match Handle::new(rt.alloc(), keyset, managers, Primitive::Aead) {
        Ok(handle) => time_opening(rt, &handle, sealed, milliseconds),
        Err(_) => Err(ErrorKind::InvalidInput.into()),
    }
}

// Repeats the task over a keyset of AES-GCM keys with the URL `g`.
fn time_over(
    rt: &HostRuntime,
    task: Task,
    keyset: &Keyset,
    sealed: &[u8],
    milliseconds: u32,
) -> io::Result<()>
    requires few { length sealed.now ≤ 1000 }
{
    let alloc = rt.alloc();
    let manager = StandardAead::new(String::from_str(alloc, "g")?, AeadScheme::Gcm);
    let mut aead: Vec<Box<dyn AeadManager>> = Vec::new(alloc);
    aead.push(Box::new(alloc, manager)?)?;
    let Ok(all) = Managers::new(aead, Vec::new(alloc), Vec::new(alloc), Vec::new(alloc)) else {
        return Err(ErrorKind::InvalidInput.into());
    };
    match task {
        Task::Make => time_making(rt, keyset, &all, milliseconds),
        Task::OpenFirst | Task::OpenMiddle | Task::OpenLast => {
            time_opening_by(rt, keyset, &all, sealed, milliseconds)
        }
    }
}

/// Repeats the task for so long, and prints how often it ran, in how many nanoseconds, and how many
/// keys the last opening tried.
pub fn time(rt: &HostRuntime, task: Task, keys: usize, milliseconds: u32) -> io::Result<()> {
    let keyset = keyset_of(rt.alloc(), keys)?;
    let sealed = sealed_by(rt.alloc(), task.place(keys))?;
    time_over(rt, task, &keyset, &sealed, milliseconds)
}
