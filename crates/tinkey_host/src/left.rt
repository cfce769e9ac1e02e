//! The report of a file that a run couldn't remove.

ghost use Rattle.std.specs.Prelude.{◌≡◌, ◌++◌, None, IfSome, codes};
ghost use Rattle.tinkey_plans.specs.Status.{Wrote};
ghost use Rattle.tinkey_host.specs.Left.{left_line};

use tink_base::{Sink, write_all};

/// The text before the path.
const LEFT: &str = "tinkey: a temporary file is left: ";

/// Reports on `diag` the path of a file that was left under a temporary name, if any: a line after
/// the line of the status, which is unchanged. A fault of `diag` isn't reported. No memory is
/// taken.
pub fn tell_left<G: Sink>(diag: &mut G, left: Option<&str>)
    ensures none { left.entry ≡ None → diag.new ≡ diag.old }
    ensures line { IfSome left.entry (λ path.
        Wrote (left_line path.now) (G.state diag.old) (G.state diag.new)) }
{
    match left {
        Some(path) => write_line(diag, path),
        None => {}
    }
}

/// Writes the line of this path.
fn write_line<G: Sink>(diag: &mut G, path: &str)
    ensures { Wrote (left_line path.now) (G.state diag.old) (G.state diag.new) }
{
    match write_all(diag, LEFT.as_bytes()) {
        Ok(()) => write_path(diag, path),
        Err(_) => {}
    }
}

/// Writes the path and the end of its line.
fn write_path<G: Sink>(diag: &mut G, path: &str)
    ensures { Wrote (path.now ++ codes "\n") (G.state diag.old) (G.state diag.new) }
{
    match write_all(diag, path.as_bytes()) {
        Ok(()) => write_end(diag),
        Err(_) => {}
    }
}

/// Writes the end of a line.
fn write_end<G: Sink>(diag: &mut G)
    ensures { Wrote (codes "\n") (G.state diag.old) (G.state diag.new) }
{
    match write_all(diag, b"\n") {
        Ok(()) => {}
        Err(_) => {}
    }
}
