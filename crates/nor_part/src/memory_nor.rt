//! Pages of a serial NOR part in memory.
ghost use Rattle.std.specs.Prelude.{◌≡◌, ◌≢◌, ℕ, ◌/◌, ◌*◌, ◌+◌, ◌<◌, ◌≤◌, IfOk, Ok, Err, true, length, vec_len, slice_index, replicate};
ghost use Rattle.nor_part.specs.Part.{HasCleared, HasTorn, KeepsOthers, LeavesTrace, is_blank, ProgramsPage, ErasesSector};
ghost use Rattle.nor_part.specs.Memory.{memory_page_at, AreFullPages, AreBlankPages, IsWholeErase, ZeroesBytes, ZeroesPage, trouble_answer};

use crate::cells::{clear, set, tear};
use crate::nor::Nor;
use flash_model::DevFault;
use std::alloc::{AllocError, Global};

// A page, with its 256 bytes.
#[derive(Drop)]
pub(crate) struct MemoryPage {
    pub(crate) bytes: Vec<u8>,
}

impl MemoryPage {
    fn new(alloc: Global) -> Result<MemoryPage, AllocError>
        ensures { IfOk result (λ page. page.bytes.items ≡ replicate 256 255) }
    {
        Ok(MemoryPage {
            bytes: vec![in alloc; 0xff; 256]?,
        })
    }

    fn set(&mut self)
        ensures blank { is_blank self.new.bytes.items ≡ true }
        ensures len { vec_len self.new.bytes ≡ vec_len self.old.bytes }
    {
        set(&mut self.bytes);
    }
}

/// What befalls a program or an erase.
#[derive(Clone, Copy, Debug, PartialEq, Eq)]
pub enum Trouble {
    /// It is torn, and told as failed.
    Fails,
    /// Power goes before it.
    CutBefore,
    /// Power goes in it, and it is torn.
    CutWithin,
    /// Power goes after it.
    CutAfter,
}

/// A serial NOR part in memory, in which one program or erase is befallen by a trouble, and one read is
/// refused.
#[derive(Drop)]
pub struct MemoryNor {
    pages: Vec<MemoryPage>,
    powered: bool,
    good: u64,
    trouble: Option<Trouble>,
    good_reads: u64,
    read_fault: Option<DevFault>,
    ghost whole: { AreFullPages pages.items },
}

impl MemoryNor {
    ghost use Rattle.std.specs.Prelude.{◌≡◌, ℕ, ◌*◌, ◌<◌, IfOk, vec_len, replicate, true, false};
    ghost use Rattle.nor_part.specs.MemoryParts.{held_of, page_total, awaits_read, read_due};

    /// A blank part of so many sectors of 4,096 bytes. No trouble is planned.
    pub fn new(alloc: Global, sectors: u32) -> Result<MemoryNor, AllocError>
        ensures count { IfOk result (λ part. page_total part ≡ 16 * sectors) }
        ensures blank { IfOk result (λ part. (page : ℕ) → held_of part page ≡ replicate 256 255) }
    {
        Ok(MemoryNor {
            pages: blank_pages(alloc, 16 * sectors as usize)?,
            powered: true,
            good: 0,
            trouble: None,
            good_reads: 0,
            read_fault: None,
        })
    }

    /// After so many programs and erases more the next one is befallen by this, in the place of what
    /// was planned before.
    pub fn plan(&mut self, good: u64, trouble: Trouble)
        ensures held { held_of self.new ≡ held_of self.old }
        ensures count { page_total self.new ≡ page_total self.old }
    {
        self.good = good;
        self.trouble = Some(trouble);
    }

    /// After so many reads more the next one is refused with this, and fills the buffer with 0, in the
    /// place of what was planned for a read before.
    pub fn plan_read(&mut self, good: u64, fault: DevFault)
        ensures held { held_of self.new ≡ held_of self.old }
        ensures count { page_total self.new ≡ page_total self.old }
        ensures awaits { awaits_read self.new ≡ true }
    {
        self.good_reads = good;
        self.read_fault = Some(fault);
    }

    /// Whether a read is still to be refused by plan.
    pub fn awaits_read(&self) -> bool
        ensures { result ≡ awaits_read self.now }
    {
        self.read_fault.is_some()
    }

    /// Takes back what was planned.
    pub fn forget_plan(&mut self)
        ensures held { held_of self.new ≡ held_of self.old }
        ensures count { page_total self.new ≡ page_total self.old }
        ensures awaits { awaits_read self.new ≡ false }
    {
        self.trouble = None;
        self.read_fault = None;
    }

    // What refuses the next read. With the power off each one is cut.
    fn due_read(&mut self) -> Option<DevFault>
        ensures pages { self.new.pages ≡ self.old.pages }
        ensures due { result ≡ read_due self.old }
    {
        if !self.powered {
            return Some(DevFault::PowerCut);
        }
        if self.good_reads > 0 {
            self.good_reads -= 1;
            return None;
        }
        let due = self.read_fault.take();
        if matches!(due, Some(DevFault::PowerCut)) {
            self.powered = false;
        }
        due
    }

    // What befalls the next program or erase. With the power off each one is cut before it begins.
    fn due(&mut self) -> Option<Trouble>
        ensures { self.new.pages ≡ self.old.pages }
    {
        if !self.powered {
            return Some(Trouble::CutBefore);
        }
        if self.good > 0 {
            self.good -= 1;
            return None;
        }
        self.trouble.take()
    }

    // Tells what befell a program or an erase.
    fn end(&mut self, due: Option<Trouble>) -> Result<(), DevFault>
        ensures pages { self.new.pages ≡ self.old.pages }
        ensures answer { result ≡ trouble_answer due }
    {
        match due {
            None => Ok(()),
            Some(Trouble::Fails) => Err(DevFault::Failed),
            Some(_) => {
                self.powered = false;
                Err(DevFault::PowerCut)
            }
        }
    }
}

impl Nor for MemoryNor {
    ghost use Rattle.std.specs.Prelude.{◌≡◌, ℕ, ◌+◌, ◌*◌, ◌<◌, ◌≤◌, OnOk, length, slice_index};
    ghost use Rattle.std.specs.Result.{result_err};
    ghost use Rattle.nor_part.specs.Part.{KeepsOthers, ProgramsPage, ErasesSector};
    ghost use Rattle.nor_part.specs.Memory.{IsWholeErase, ZeroesPage};
    ghost use Rattle.nor_part.specs.MemoryParts.{held_of, page_total, whole_of, read_due};

    ghost held = { held_of };

    ghost count = { page_total };

    ghost whole = { whole_of };

    fn page_count(&self) -> usize {
        self.pages.len()
    }

    fn read(&mut self, page: usize, buffer: &mut [u8]) -> Result<(), DevFault>
        requires in_range { page < page_total self.old }
        requires short { length buffer.old ≤ 256 }
        ensures read { OnOk result ((i : ℕ) → i < length buffer.old → slice_index buffer.new i ≡ slice_index (held_of self.old page) i) }
        ensures held { held_of self.new ≡ held_of self.old }
        ensures count { page_total self.new ≡ page_total self.old }

        // What is planned comes.
        ensures answer { result_err result ≡ read_due self.old }
    {
        if let Some(fault) = self.due_read() {
            buffer.fill(0);
            return Err(fault);
        }
        let bytes = &self.pages[page].bytes;
        buffer.copy_from_slice(&bytes[..buffer.len()]);
        Ok(())
    }

    fn program(&mut self, page: usize, bytes: &[u8]) -> Result<(), DevFault>
        requires in_range { page < page_total self.old }
        requires short { length bytes.now ≤ 256 }
        ensures programs { ProgramsPage (held_of self.old) page bytes.now (held_of self.new) result }
        ensures count { page_total self.new ≡ page_total self.old }

        // What befalls it is of this kind.
        ensures keeps { KeepsOthers (held_of self.old page) bytes.now (held_of self.new page) }
        ensures zeroes { ZeroesPage (held_of self.old page) bytes.now (held_of self.new page) result }
    {
        let due = self.due();
        program_page(&mut self.pages, page, bytes, due);
        self.end(due)
    }

    fn erase(&mut self, sector: usize) -> Result<(), DevFault>
        requires { 16 * sector + 16 ≤ page_total self.old }
        ensures erases { ErasesSector (held_of self.old) sector (held_of self.new) result }
        ensures count { page_total self.new ≡ page_total self.old }
        ensures whole { (page : ℕ) → IsWholeErase (held_of self.old page) (held_of self.new page) }
    {
        let due = self.due();
        erase_sector(&mut self.pages, sector, due);
        self.end(due)
    }

    fn power_on(&mut self) {
        self.powered = true;
    }
}

// Programs a page, or does to it what befalls it.
fn program_page(pages: &mut Vec<MemoryPage>, number: usize, bytes: &[u8], due: Option<Trouble>)
    requires in_part { number < vec_len pages.old }
    requires whole { AreFullPages pages.old.items }
    requires short { length bytes.now ≤ 256 }
    ensures programs { ProgramsPage (memory_page_at pages.old.items) number bytes.now (memory_page_at pages.new.items) (trouble_answer due) }
    ensures keeps { KeepsOthers (memory_page_at pages.old.items number) bytes.now (memory_page_at pages.new.items number) }
    ensures zeroes { ZeroesPage (memory_page_at pages.old.items number) bytes.now (memory_page_at pages.new.items number) (trouble_answer due) }
    ensures len { vec_len pages.new ≡ vec_len pages.old }
    ensures whole { AreFullPages pages.new.items }
{
    match due {
        None | Some(Trouble::CutAfter) => clear_page(pages, number, bytes),
        Some(Trouble::CutBefore) => {}
        Some(_) => tear_page(pages, number, bytes),
    }
}

// Erases a sector, or does to it what befalls it: a torn erase is one of its first page alone.
fn erase_sector(pages: &mut Vec<MemoryPage>, sector: usize, due: Option<Trouble>)
    requires in_part { 16 * sector + 16 ≤ vec_len pages.old }
    requires whole { AreFullPages pages.old.items }
    ensures erases { ErasesSector (memory_page_at pages.old.items) sector (memory_page_at pages.new.items) (trouble_answer due) }
    ensures each { (n : ℕ) → IsWholeErase (memory_page_at pages.old.items n) (memory_page_at pages.new.items n) }
    ensures len { vec_len pages.new ≡ vec_len pages.old }
    ensures whole { AreFullPages pages.new.items }
{
    match due {
        None | Some(Trouble::CutAfter) => set_sector(pages, sector),
        Some(Trouble::CutBefore) => {}
        Some(_) => set_page(pages, 16 * sector),
    }
}

fn clear_page(pages: &mut Vec<MemoryPage>, number: usize, bytes: &[u8])
    requires in_part { number < vec_len pages.old }
    requires whole { AreFullPages pages.old.items }
    requires short { length bytes.now ≤ 256 }
    ensures others { (n : ℕ) → n ≢ number → memory_page_at pages.new.items n ≡ memory_page_at pages.old.items n }
    ensures own { HasCleared (memory_page_at pages.old.items number) bytes.now (memory_page_at pages.new.items number) }
    ensures keeps { KeepsOthers (memory_page_at pages.old.items number) bytes.now (memory_page_at pages.new.items number) }
    ensures len { vec_len pages.new ≡ vec_len pages.old }
    ensures whole { AreFullPages pages.new.items }
{
    let page = &mut pages[number];
    clear(&mut page.bytes, bytes);
}

fn tear_page(pages: &mut Vec<MemoryPage>, number: usize, bytes: &[u8])
    requires in_part { number < vec_len pages.old }
    requires whole { AreFullPages pages.old.items }
    requires short { length bytes.now ≤ 256 }

    // The page is torn, and no other changes.
    ensures others { (n : ℕ) → n ≢ number → memory_page_at pages.new.items n ≡ memory_page_at pages.old.items n }
    ensures torn { HasTorn (memory_page_at pages.old.items number) bytes.now (memory_page_at pages.new.items number) }
    ensures trace { LeavesTrace (memory_page_at pages.old.items number) bytes.now (memory_page_at pages.new.items number) }
    ensures keeps { KeepsOthers (memory_page_at pages.old.items number) bytes.now (memory_page_at pages.new.items number) }
    ensures zeroes { ZeroesBytes bytes.now (memory_page_at pages.new.items number) }

    // The list stays one of full pages.
    ensures len { vec_len pages.new ≡ vec_len pages.old }
    ensures whole { AreFullPages pages.new.items }
{
    let page = &mut pages[number];
    tear(&mut page.bytes, bytes);
}

fn set_page(pages: &mut Vec<MemoryPage>, number: usize)
    requires in_part { number < vec_len pages.old }
    requires whole { AreFullPages pages.old.items }
    ensures others { (n : ℕ) → n ≢ number → memory_page_at pages.new.items n ≡ memory_page_at pages.old.items n }
    ensures own { is_blank (memory_page_at pages.new.items number) ≡ true }
    ensures len { vec_len pages.new ≡ vec_len pages.old }
    ensures whole { AreFullPages pages.new.items }
{
    let page = &mut pages[number];
    page.set();
}

fn set_sector(pages: &mut Vec<MemoryPage>, sector: usize)
    requires in_part { 16 * sector + 16 ≤ vec_len pages.old }
    requires whole { AreFullPages pages.old.items }
    ensures others { (n : ℕ) → n / 16 ≢ sector → memory_page_at pages.new.items n ≡ memory_page_at pages.old.items n }
    ensures own { (n : ℕ) → n / 16 ≡ sector → is_blank (memory_page_at pages.new.items n) ≡ true }
    ensures len { vec_len pages.new ≡ vec_len pages.old }
    ensures whole { AreFullPages pages.new.items }
{
    for place in 0..16 {
        set_page(pages, 16 * sector + place);
    }
}

fn blank_pages(alloc: Global, count: usize) -> Result<Vec<MemoryPage>, AllocError>
    ensures len { IfOk result (λ pages. vec_len pages ≡ count) }
    ensures whole { IfOk result (λ pages. AreFullPages pages.items) }
    ensures blank { IfOk result (λ pages. AreBlankPages pages.items) }
{
    let mut pages = Vec::with_capacity(alloc, count)?;
    for _ in 0..count {
        pages.push(MemoryPage::new(alloc)?)?;
    }
    Ok(pages)
}
