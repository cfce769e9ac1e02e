//! A session behind a line whose random bytes were wanting: the program ends there, and the library goes on.

ghost use Rattle.std.specs.Prelude.{IfSome};
ghost use Rattle.tinkey_session.specs.Keeping.{IsKept};

use crate::boxes::managers_of;
use key_msgs::template_named;
use managers::{AeadScheme, KeyTable, Managers};
use std::alloc::Global;
use std::test::Fail;
use test_words::{counting, same_text};
use tink_base::MemEntropy;
use tinkey_cmds::create;
use tinkey_session::{LineFault, Reply, Session, read_line};

/// What came of a line, as a word.
fn told(answer: &Result<Reply, LineFault>) -> &'static str {
    match answer {
        Ok(Reply::Done) => "done",
        Ok(_) => "another reply",
        Err(LineFault::EntropyFault) => "EntropyFault",
        Err(_) => "another fault",
    }
}

/// Holds what comes of a line to what is wanted.
fn expect(
    alloc: Global,
    session: &mut Session<'_>,
    line: &'static str,
    entropy: &mut MemEntropy,
    want: &str,
) -> Result<(), Fail>
    requires kept { IfSome session.old.kept (λ h. IsKept
        (⟦<Managers as KeyTable>⟧.table session.old.managers.now)
        (⟦<Managers as KeyTable>⟧.table h.managers.now) h.primitive session.old.keyset h.held) }
    ensures kept { IfSome session.new.kept (λ h. IsKept
        (⟦<Managers as KeyTable>⟧.table session.new.managers.now)
        (⟦<Managers as KeyTable>⟧.table h.managers.now) h.primitive session.new.keyset h.held) }
{
    if line.len() > 1000 {
        return Err("a shorter line".into());
    }
    let read = read_line(alloc, line.as_bytes())?;
    let answer = session.serve(alloc, &read, entropy);
    same_text(line, "the answer", want, told(&answer))
}

// The key has the id 0x00010203, which is 66051.
#[test]
fn answers_a_line_behind_one_that_drew_nothing(rt: HostRuntime) -> Result<(), Fail> {
    let url = "type.googleapis.com/google.crypto.tink.AesGcmKey";
    let all = managers_of(rt.alloc(), &[(url, AeadScheme::Gcm)], &[], &[])?;
    let mut entropy = MemEntropy::new(counting(rt.alloc(), 20)?, Vec::new(rt.alloc()));
    let keyset = create(rt.alloc(), &template_named("AES128_GCM")?, &mut entropy)?;
    let mut session = Session::new(keyset, &all);
    expect(
        rt.alloc(),
        &mut session,
        "seal - -",
        &mut entropy,
        "EntropyFault",
    )?;
    expect(
        rt.alloc(),
        &mut session,
        "enable 66051",
        &mut entropy,
        "done",
    )
}
