//! The counts of a self-test, and their text.

ghost use Rattle.std.specs.Prelude.{◌≡◌, ℕ, List, ◌++◌, IfOk};
ghost use Rattle.keyset_model.specs.Keyset.{Keys};
ghost use Rattle.tinkey_selftest.specs.Ready.{HasRoom};
ghost use Rattle.tinkey_selftest.specs.Telling.{counts_text, part};
ghost use Rattle.tinkey_selftest.specs.Trial.{Edits, Opens, Seals, counted, has_key, none_yet, one_refused};
ghost use Rattle.tinkey_selftest.specs.declared.trial.Sealing.{Sealing};
ghost use Rattle.tinkey_session.specs.Lines.{Line};

use itoa::Buffer;
use std::alloc::Global;
use tink_base::NoMemory;
use tinkey_session::Reply;

/// The outcomes of a self-test's lines. Each line counts in one of the first five.
#[derive(Clone, Copy, Debug, PartialEq, Eq)]
pub struct Counts {
    /// Seals that were accepted.
    pub sealed: u32,
    /// Opens that gave a plaintext.
    pub opened: u32,
    /// Opens that were refused.
    pub refused: u32,
    /// Edits that were accepted.
    pub edited: u32,
    /// Seals and edits that were refused.
    pub declined: u32,
    /// Opens that were refused although the keyset had the key that sealed, ENABLED.
    pub lost: u32,
}

impl Counts {
    /// The counts of no lines.
    pub(crate) fn none_yet() -> Counts
        ensures { result ≡ none_yet }
    {
        Counts {
            sealed: 0,
            opened: 0,
            refused: 0,
            edited: 0,
            declined: 0,
            lost: 0,
        }
    }

    /// The counts with a seal that has this reply.
    pub(crate) fn with_seal(self, reply: &Reply) -> Counts
        requires room { HasRoom self }
        ensures { (keys : Keys) (plain ad : List ℕ) →
            result ≡ counted keys (Seals plain ad) reply.now self }
    {
        match reply {
            Reply::Gives(_) => Counts {
                sealed: self.sealed + 1,
                ..self
            },
            Reply::Done | Reply::NewId(_) | Reply::Refuses(_) => Counts {
                declined: self.declined + 1,
                ..self
            },
        }
    }

    /// The counts with an open that has this reply, and whether the key that sealed is there.
    pub(crate) fn with_open(self, reply: &Reply, is_there: bool) -> Counts
        requires room { HasRoom self }
        ensures { (keys : Keys) (sealing : Sealing) → is_there ≡ has_key sealing.sealer keys →
            result ≡ counted keys (Opens sealing) reply.now self }
    {
        match reply {
            Reply::Gives(_) => Counts {
                opened: self.opened + 1,
                ..self
            },
            Reply::Done | Reply::NewId(_) | Reply::Refuses(_) => self.with_refused(is_there),
        }
    }

    /// The counts with a refused open; it counts as lost if the key that sealed is there.
    fn with_refused(self, is_there: bool) -> Counts
        requires room { HasRoom self }
        ensures { result ≡ one_refused is_there self }
    {
        let lost = if is_there { self.lost + 1 } else { self.lost };
        Counts {
            refused: self.refused + 1,
            lost,
            ..self
        }
    }

    /// The counts with an edit that has this reply.
    pub(crate) fn with_edit(self, reply: &Reply) -> Counts
        requires room { HasRoom self }
        ensures { (keys : Keys) (line : Line) →
            result ≡ counted keys (Edits line) reply.now self }
    {
        match reply {
            Reply::Refuses(_) => Counts {
                declined: self.declined + 1,
                ..self
            },
            Reply::Done | Reply::Gives(_) | Reply::NewId(_) => Counts {
                edited: self.edited + 1,
                ..self
            },
        }
    }
}

/// The line that reports the counts of `lines` lines, with its newline.
#[tactic(auto, unfolding(crate::specs::Telling::counts_text))]
pub fn counts_text(alloc: Global, lines: u32, counts: Counts) -> Result<Vec<u8>, NoMemory>
    ensures { IfOk result (λ text. text.items ≡ counts_text lines counts) }
{
    let mut text = Vec::new(alloc);
    push_part(&mut text, "lines ", lines)?;
    push_part(&mut text, " seals ", counts.sealed)?;
    push_part(&mut text, " opened ", counts.opened)?;
    push_part(&mut text, " refused ", counts.refused)?;
    push_part(&mut text, " edits ", counts.edited)?;
    push_part(&mut text, " declined ", counts.declined)?;
    push_part(&mut text, " lost ", counts.lost)?;
    text.push(b'\n')?;
    Ok(text)
}

/// Appends a name and its number.
fn push_part(text: &mut Vec<u8>, name: &str, number: u32) -> Result<(), NoMemory>
    ensures { IfOk result (λ done. text.new.items ≡ text.old.items ++ part name.now number) }
{
    text.extend_from_slice(name.as_bytes())?;
    let mut digits = Buffer::new();
    text.extend_from_slice(digits.format(number).as_bytes())?;
    Ok(())
}
