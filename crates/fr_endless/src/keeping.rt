//! The lines of the record that a session keeps for the windows that were sealed last.
ghost use Rattle.std.specs.Prelude.{◌≡◌, IfOk, None, replicate};
ghost use Rattle.fr_endless.specs.Kept.{IsOlder, IsRecordBy, IsTextReply, KeepsLast, KeepsNext, forgotten, text_at};
ghost use Rattle.fr_session.specs.Queries.{Replies};

use crate::queries::windows_by;
use fr_bus::live::LiveBus;
use fr_bus::outcome::Sealed;
use fr_session::prepared::BlockWriter;
use fr_session::queries::{write_block, write_memory, write_sealed, write_sealed_block};
use std::alloc::{AllocError, Global};
use std::io;
use std::io::Write;
use std::marker::Model;

/// The lines of the record for one window (project-defined). They are lost if an allocation for them fails.
///
/// In contracts, this is their text, or none once they are lost.
#[derive(Drop)]
pub struct KeptText {
    /// The room of the text stays for the next window at the same place.
    text: Vec<u8>,
    whole: bool,
}

impl Model for KeptText {
    ghost use Rattle.std.specs.Prelude.{List, Option, Some, None, ℕ, if◌then◌else◌};

    ghost Value = { Option (List ℕ) };

    ghost view = { λ k. if k.whole then Some k.text.items else None };
}

impl KeptText {
    ghost use Rattle.std.specs.Prelude.{◌≡◌, None, option_map};
    ghost use Rattle.fr_endless.specs.Kept.{IsTextOf};

    /// Returns the lines of no window.
    fn new(alloc: Global) -> KeptText
        ensures { result ≡ None }
    {
        KeptText {
            text: Vec::new(alloc),
            whole: false,
        }
    }

    /// Writes the lines of the window over those before.
    fn keep(&mut self, sealed: &Sealed)
        ensures { IsTextOf self.new sealed.now }
    {
        self.text.clear();
        self.whole = write_sealed(&mut self.text, sealed).is_ok();
    }

    /// Forgets the lines.
    fn forget(&mut self)
        ensures { self.new ≡ None }
    {
        self.whole = false;
    }

    /// Returns the lines, unless they are lost.
    fn text(&self) -> Option<&[u8]>
        ensures { option_map (λ t. t.now) result ≡ self.now }
    {
        if self.whole {
            Some(self.text.as_slice())
        } else {
            None
        }
    }
}

/// Returns places for the lines of so many windows (project-defined). Fails if an allocation does.
pub(crate) fn new_texts(alloc: Global, count: usize) -> Result<Vec<KeptText>, AllocError>
    ensures { IfOk result (λ texts. texts.items ≡ replicate count None) }
{
    let mut texts = Vec::with_capacity(alloc, count)?;
    for _place in 0..count {
        texts.push(KeptText::new(alloc))?;
    }
    Ok(texts)
}

/// Forgets all lines.
pub(crate) fn forget_all(texts: &mut Vec<KeptText>)
    ensures { texts.new.items ≡ forgotten texts.old.items }
{
    for place in 0..texts.len() {
        texts[place].forget();
    }
}

/// Keeps the lines of the window at the place of its number.
fn keep_next(texts: &mut Vec<KeptText>, sealed: &Sealed)
    ensures { KeepsNext texts.old.items sealed.now texts.new.items }
{
    let count = texts.len();
    if count > 0 {
        texts[sealed.window.number as usize % count].keep(sealed);
    }
}

/// Keeps the lines of the window that was sealed last.
pub(crate) fn keep_last(texts: &mut Vec<KeptText>, bus: &LiveBus)
    ensures { KeepsLast texts.old.items bus.now.last texts.new.items }
{
    if let Some(sealed) = bus.last() {
        keep_next(texts, sealed);
    }
}

/// Returns a copy of the bytes.
fn copied(alloc: Global, bytes: &[u8]) -> Result<Vec<u8>, AllocError>
    ensures { IfOk result (λ copy. copy.items ≡ bytes.now) }
{
    let mut copy = Vec::with_capacity(alloc, bytes.len())?;
    copy.extend_from_slice(bytes)?;
    Ok(copy)
}

/// Writes the lines of a window as a block, unless they are lost.
fn write_text<W: BlockWriter>(alloc: Global, writer: &mut W, kept: &KeptText) -> io::Result<()>
    ensures { Replies W.contents writer.old writer.new result (IsTextReply kept.now) }
{
    let Some(text) = kept.text() else {
        return write_memory(writer);
    };
    match copied(alloc, text) {
        Ok(block) => write_block(writer, block),
        Err(_) => write_memory(writer),
    }
}

/// Writes the lines of a window that isn't the last one, by the number of sealed windows.
fn write_older<W: BlockWriter>(
    alloc: Global,
    writer: &mut W,
    texts: &[KeptText],
    windows: u64,
    number: u32,
) -> io::Result<()>
    ensures { Replies W.contents writer.old writer.new result (IsOlder texts.now windows number) }
{
    if windows <= u64::from(number) {
        return writeln!(writer, "refused NoWindow");
    }
    if windows > u64::from(number) + texts.len() as u64 {
        return writeln!(writer, "refused NotKept");
    }
    write_text(alloc, writer, &texts[number as usize % texts.len()])
}

/// Writes the window of this number, if it was sealed last or its lines are kept.
pub(crate) fn write_record<W: BlockWriter>(
    alloc: Global,
    writer: &mut W,
    bus: &LiveBus,
    texts: &[KeptText],
    number: u32,
) -> io::Result<()>
    ensures { Replies W.contents writer.old writer.new result (IsRecordBy bus.now.last texts.now number) }
{
    match bus.last() {
        Some(sealed) if sealed.window.number == number => {
            write_sealed_block(alloc, writer, sealed)
        }
        last => write_older(alloc, writer, texts, windows_by(last), number),
    }
}
