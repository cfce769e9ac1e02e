//! How much of a long input has been read, as it is shown at a terminal.

ghost use Rattle.std.specs.Prelude.{None, false};

use crate::metered::Taking;
use real_objects::StdSink;
use std::cell::Cell;
use std::test::Fail;
use tink_base::{Failed, Source};
use tinkey_host::Watched;

/// A source without an end.
#[derive(Drop)]
struct Endless;

impl Source for Endless {
    ghost state = { λ _. record { left = None; faults = 0; ended = false; late = 0 } };

    fn read(&mut self, out: &mut [u8]) -> Result<usize, Failed> {
        Ok(out.len())
    }
}

#[test]
fn shows_mib_from_64_on_at_most_once_in_16(rt: HostRuntime) -> Result<(), Fail> {
    let mut shown = Vec::new(rt.alloc());
    let writes = Cell::new(0);
    let asked = Cell::new(0);
    let mut out = vec![in rt.alloc(); 0_u8; 1_048_576]?;
    let mut source = Watched::over(
        Endless,
        Some(StdSink::new(Taking {
            written: &mut shown,
            open: true,
            well: true,
            writes: &writes,
            asked: &asked,
        })),
    );
    for _ in 0..100 {
        if source.read(&mut out) != Ok(1_048_576) {
            return Err(Fail::from("a whole read"));
        }
    }
    drop(source);
    assert_eq!(rt; shown.as_slice(), b"64 MiB\r80 MiB\r96 MiB\r".as_slice());
    Ok(())
}
