//! The report of why a file couldn't be read or made.

ghost use Rattle.std.specs.Prelude.{◌≡◌, None, IfSome};
ghost use Rattle.tinkey_plans.specs.Status.{Wrote};
ghost use Rattle.tinkey_host.specs.Cause.{cause_line};

use crate::not_text::write_lines;
use real_objects::Cause;
use tink_base::Sink;

/// Reports on `diag` why a call on files failed, if any did: a line after the line of the status,
/// which is unchanged. It depends on the cause alone, and shows no path. A fault of `diag` isn't
/// reported. No memory is taken.
pub fn tell_cause<G: Sink>(diag: &mut G, cause: Option<Cause>)
    ensures none { cause ≡ None → diag.new ≡ diag.old }
    ensures line { IfSome cause (λ why. Wrote (cause_line why) (G.state diag.old) (G.state diag.new)) }
{
    match cause {
        Some(cause) => write_lines(diag, cause_line(cause).as_bytes()),
        None => {}
    }
}

/// The line of this cause.
fn cause_line(cause: Cause) -> &'static str
    ensures { result.now ≡ cause_line cause }
{
    match cause {
        Cause::NoFolder => "tinkey: there is no such folder\n",
        Cause::NoPermission => "tinkey: no permission\n",
        Cause::IsFolder => "tinkey: this is a folder\n",
        Cause::NoLength => "tinkey: this is a pipe or a device, which has no length\n",
        Cause::NoSpace => "tinkey: no space is left, on the device or for this user\n",
        Cause::TooLarge => "tinkey: the file system takes no file that large\n",
        Cause::NameTooLong => "tinkey: the name is too long\n",
        Cause::ReadOnly => "tinkey: the file system is read-only\n",
        Cause::TooManyLinks => "tinkey: too many symbolic links follow one another\n",
        Cause::TooManyFiles => "tinkey: too many files are open\n",
        Cause::BadDevice => "tinkey: the device failed\n",
        Cause::Changed => "tinkey: the file has changed meanwhile\n",
        Cause::Unsupported => "tinkey: the file system can't do this\n",
        Cause::NoMemory => "tinkey: memory was refused\n",
        Cause::NoRandom => "tinkey: there are no random bytes for a temporary name\n",
        Cause::Other => "tinkey: the system gave another reason\n",
    }
}
