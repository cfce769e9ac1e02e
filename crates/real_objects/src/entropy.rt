//! The random bytes of a device, which is opened at the first fill and kept. Small draws are served
//! from bytes drawn ahead (`ahead`).
//!
//! The entropy reports the device's bytes if it knows them; the system's device doesn't. It isn't
//! steady, since a device may fail whatever is asked, and a failed fill may have used up bytes.

ghost use Rattle.std.specs.Prelude.{◌≡◌, ◌≤◌, ℕ, List, [], Option, None, length, take, IfOk, IfSome, IsOk, OnOk, OnErr};
ghost use Rattle.std.specs.Io.KnownBytes.{Consumes, Keeps};
ghost use Rattle.tink_spec.specs.Outside.{Drew, RanShort, RoseOnce, Stood};
ghost use Rattle.real_objects.specs.Device.{device_left, drawn_ahead, held_ahead, told_device, Skips};

use crate::ahead::{Ahead, Device};
use std::fs::{self, File, Metadata};
use std::io::{self, ErrorKind};
use std::os::unix::fs::{FileTypeExt, MetadataExt};
use tink_base::{Entropy, Failed, Lookahead};

/// The device of random bytes.
const DEVICE: &str = "/dev/urandom";

/// Its number, 1:9 (Linux, Documentation/admin-guide/devices.txt).
const NUMBER: u64 = 0x109;

/// Opens a device.
pub trait Opens {
    /// The opened device.
    type Device: Device + Drop;

    /// The bytes that a device opened now gives, if they are known.
    ghost given: { Self → Option (List ℕ) };

    /// They are known always or never.
    ghost untold: { (s t : Self) → given s ≡ None → given t ≡ None };

    /// Opens the device.
    fn open(&self) -> io::Result<Self::Device>
        ensures kept { IfOk result (λ device.
            Keeps (given self.now) (Self.Device.remaining device)) }
        ensures untold { IfOk result (λ device.
            given self.now ≡ None → Self.Device.remaining device ≡ None) };
}

/// The system's device of random bytes.
#[derive(Drop)]
pub struct RandomDevice<'a> {
    rt: &'a HostRuntime,
    path: &'a str,
}

impl<'a> RandomDevice<'a> {
    /// The device, which isn't opened yet.
    pub fn new(rt: &'a HostRuntime) -> RandomDevice<'a> {
        RandomDevice { rt, path: DEVICE }
    }

    /// The file of this path instead of the device, so that a test can see it refused.
    pub fn at(rt: &'a HostRuntime, path: &'a str) -> RandomDevice<'a> {
        RandomDevice { rt, path }
    }
}

impl Opens for RandomDevice<'_> {
    type Device = File;

    ghost given = { λ _. None };

    ghost untold = { λ s t none. none };

    /// Opens the device. A file of another kind or number is refused. It is checked before it is
    /// opened, since opening a pipe would wait for its other end, and again when it is open.
    fn open(&self) -> io::Result<File> {
        if !is_random(&fs::metadata(self.rt, self.path)?) {
            return Err(io::Error::from(ErrorKind::InvalidInput));
        }
        let device = fs::open(self.rt, self.path)?;
        if is_random(&device.metadata()?) {
            Ok(device)
        } else {
            Err(io::Error::from(ErrorKind::InvalidInput))
        }
    }
}

/// Whether a file is the character device of random bytes.
fn is_random(found: &Metadata) -> bool {
    found.file_type().is_char_device() && found.rdev() == NUMBER
}

/// The random bytes of a device, each drawn once and in order. If at most 64 are asked for and none
/// are held, one read of the device draws up to 1,024 ahead, for the next draws.
///
/// So this value holds bytes of future IVs, key ids and keys from one draw to the next. Bytes that
/// a draw returned are overwritten here with zeros. Bytes that no draw took aren't overwritten, and
/// are lost with the value.
#[derive(Drop)]
pub struct FileEntropy<O: Opens> {
    opener: O,
    device: Option<Ahead<O::Device>>,
    faults: u64,
}

impl<O: Opens> FileEntropy<O> {
    /// The device, before the first fill.
    pub fn new(opener: O) -> FileEntropy<O>
        ensures left { device_left O.given O.Device.remaining result ≡ O.given opener }
        ensures none_held { held_ahead result ≡ [] }
        ensures new { (told_device O.given O.Device.remaining result).faults ≡ 0 }
    {
        FileEntropy {
            opener,
            device: None,
            faults: 0,
        }
    }

    /// Fills `out` with the next bytes. The device is opened if it isn't open yet, and kept, with
    /// the bytes drawn ahead.
    fn draw(&mut self, out: &mut [u8]) -> io::Result<()>
        ensures filled { OnOk result
            (Consumes (device_left O.given O.Device.remaining self.old)
            (device_left O.given O.Device.remaining self.new) out.new) }
        ensures goes_on { OnErr result
            (Skips (device_left O.given O.Device.remaining self.old)
            (device_left O.given O.Device.remaining self.new) (length out.old)) }
        ensures enough { IfSome (drawn_ahead self.old)
            (λ held. length out.old ≤ length held → IsOk result) }
        ensures untold { device_left O.given O.Device.remaining self.old ≡ None →
            device_left O.given O.Device.remaining self.new ≡ None }
        ensures faults { self.new.faults ≡ self.old.faults }
    {
        match &mut self.device {
            Some(device) => device.fill(out),
            none => none.insert(Ahead::new(self.opener.open()?)).fill(out),
        }
    }
}

impl<O: Opens> Entropy for FileEntropy<O> {
    ghost state = { λ s. told_device O.given O.Device.remaining s };

    fn fill(&mut self, out: &mut [u8]) -> Result<(), Failed>
        ensures fills { OnOk result (Drew (told_device O.given O.Device.remaining self.old)
            (told_device O.given O.Device.remaining self.new) out.new) }
        ensures no_fault { OnOk result (Stood self.old.faults self.new.faults) }
        ensures failed { OnErr result (RanShort (told_device O.given O.Device.remaining self.old)
            (told_device O.given O.Device.remaining self.new) (length out.old)) }
        ensures once { OnErr result (RoseOnce self.old.faults self.new.faults) }

        // Bytes drawn ahead are returned, whatever happens to the device.
        ensures enough { IfSome (drawn_ahead self.old)
            (λ held. length out.old ≤ length held → IsOk result) }
    {
        match self.draw(out) {
            Ok(()) => Ok(()),
            Err(_) => {
                self.faults = self.faults.saturating_add(1);
                Err(Failed)
            }
        }
    }
}

impl<O: Opens> Lookahead for FileEntropy<O> {
    ghost held = { λ s. held_ahead s };

    /// The bytes drawn ahead. Before the first draw there are none.
    fn held(&self) -> &[u8]
        ensures bytes { result.now ≡ held_ahead self.now }
        ensures front { IfSome (device_left O.given O.Device.remaining self.now)
            (λ left. take (length (held_ahead self.now)) left ≡ held_ahead self.now) }
    {
        match &self.device {
            Some(device) => device.held(),
            None => &[],
        }
    }

    /// Uses up `count` of them, which are overwritten with zeros. The device isn't called.
    fn skip(&mut self, count: usize)
        requires within { count ≤ length (held_ahead self.old) }
        ensures drew { Drew (told_device O.given O.Device.remaining self.old)
            (told_device O.given O.Device.remaining self.new) (take count (held_ahead self.old)) }
        ensures stood { Stood self.old.faults self.new.faults }
    {
        match &mut self.device {
            Some(device) => device.skip(count),
            None => {}
        }
    }
}
