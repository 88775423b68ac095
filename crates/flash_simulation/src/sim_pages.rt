//! The pages of a flash in memory.
ghost use Rattle.std.specs.Prelude.{◌≡◌, ℕ, ◌+◌, ◌*◌, ◌^◌, ◌<◌, ◌≤◌, IfOk, Ok, length, vec_len};
ghost use Rattle.std.specs.Fork.{slice_chunk};
ghost use Rattle.flash_model.specs.Contents.{IsWhole};
ghost use Rattle.flash_model.specs.Device.{erased, bytes_of, ReportsPage};

use flash_model::{FaultKind, PageState, PageView};
use std::alloc::{AllocError, Global};

// The pages of a flash: the state of each, and in one piece the room for the bytes of all.
#[derive(Drop)]
pub(crate) struct SimPages {
    size: usize,
    states: Vec<PageState>,
    bytes: Vec<u8>,
    ghost room: { vec_len bytes ≡ vec_len states * size },
}

impl SimPages {
    ghost use Rattle.flash_simulation.specs.Stored.{page_at, programmed, erased_to, SetsPage, ErasesPages};
    ghost use Rattle.flash_model.specs.Contents.{shown_page, page_of};

    // So many pages of a size, all erased.
    pub(crate) fn new(alloc: Global, count: usize, size: usize) -> Result<SimPages, AllocError>
        requires { count * size < 2 ^ 64 }
        ensures erased { IfOk result (λ pages. (p : ℕ) → page_at pages p ≡ erased) }
        ensures count { IfOk result (λ pages. vec_len pages.states ≡ count) }
        ensures size { IfOk result (λ pages. pages.size ≡ size) }
    {
        Ok(SimPages {
            size,
            states: vec![in alloc; PageState::Erased; count]?,
            bytes: vec![in alloc; 0; count * size]?,
        })
    }

    // Where the bytes of a page begin.
    fn start_of(&self, number: usize) -> usize
        requires { number < vec_len self.now.states }
        ensures start { result ≡ number * self.now.size }
        ensures fits { result + self.now.size ≤ vec_len self.now.bytes }
    {
        number * self.size
    }

    // The bytes that the room of a page has, whatever its state.
    fn bytes_at(&self, number: usize) -> &[u8]
        requires { number < vec_len self.now.states }
        ensures { result.now ≡ slice_chunk self.now.bytes.items self.now.size number }
    {
        let start = self.start_of(number);
        &self.bytes[start..start + self.size]
    }

    // What a page holds.
    pub(crate) fn view(&self, number: usize) -> PageView<'_>
        requires { number < vec_len self.now.states }
        ensures { shown_page result ≡ page_at self.now number }
    {
        match self.states[number] {
            PageState::Erased => PageView::Erased,
            PageState::Data => PageView::Data(self.bytes_at(number)),
            PageState::Unreadable => PageView::Unreadable,
        }
    }

    // Tells what a page holds, and puts its bytes into the buffer where it holds any.
    pub(crate) fn read(&self, number: usize, buffer: &mut [u8]) -> PageState
        requires in_flash { number < vec_len self.now.states }
        requires whole { length buffer.old ≡ self.now.size }
        ensures { ReportsPage (page_at self.now number) buffer.old buffer.new (Ok result) }
    {
        let state = self.states[number];
        if state == PageState::Data {
            buffer.copy_from_slice(self.bytes_at(number));
        }
        state
    }

    // Lets a page be in this state, with the bytes that its room has.
    fn set_state(&mut self, number: usize, state: PageState)
        requires { number < vec_len self.old.states }
        ensures { SetsPage self.old number (page_of state (slice_chunk self.old.bytes.items self.old.size number)) self.new }
    {
        self.states[number] = state;
    }

    // Lets a page hold these bytes.
    fn fill(&mut self, number: usize, bytes: &[u8])
        requires in_flash { number < vec_len self.old.states }
        requires whole { length bytes.now ≡ self.old.size }
        ensures { SetsPage self.old number (bytes_of bytes.now) self.new }
    {
        let start = self.start_of(number);
        self.bytes[start..start + self.size].copy_from_slice(bytes);
        self.states[number] = PageState::Data;
    }

    // Lets a page hold this, whatever it held.
    pub(crate) fn put(&mut self, number: usize, page: PageView<'_>)
        requires in_flash { number < vec_len self.old.states }
        requires whole { IsWhole self.old.size (shown_page page) }
        ensures { SetsPage self.old number (shown_page page.entry) self.new }
    {
        match page {
            PageView::Erased => self.set_state(number, PageState::Erased),
            PageView::Data(bytes) => self.fill(number, bytes),
            PageView::Unreadable => self.set_state(number, PageState::Unreadable),
        }
    }

    // Programs a page, or does to it what befalls it.
    pub(crate) fn program(&mut self, number: usize, bytes: &[u8], due: Option<FaultKind>)
        requires in_flash { number < vec_len self.old.states }
        requires whole { length bytes.now ≡ self.old.size }
        ensures { SetsPage self.old number (programmed due (page_at self.old number) bytes.now) self.new }
    {
        match due {
            None | Some(FaultKind::ProgramCutWhole) => self.fill(number, bytes),
            Some(FaultKind::ProgramCutNone) => {}
            Some(_) => self.set_state(number, PageState::Unreadable),
        }
    }

    // Erases the page at a place of a block, or does to it what befalls it.
    fn erase(&mut self, number: usize, place: usize, due: Option<FaultKind>)
        requires { number < vec_len self.old.states }
        ensures { SetsPage self.old number (erased_to due place (page_at self.old number)) self.new }
    {
        match due {
            None | Some(FaultKind::EraseCutWhole) => self.set_state(number, PageState::Erased),
            Some(FaultKind::EraseCutNone) => {}
            Some(_) if place % 2 == 0 => self.set_state(number, PageState::Unreadable),
            Some(_) => {}
        }
    }

    // Erases the pages of a block, so many, or does to them what befalls it.
    pub(crate) fn erase_block(&mut self, block: usize, count: usize, due: Option<FaultKind>)
        requires some { 0 < count }
        requires in_flash { block * count + count ≤ vec_len self.old.states }
        ensures pages { ErasesPages (page_at self.old) count block due (page_at self.new) }
        ensures count { vec_len self.new.states ≡ vec_len self.old.states }
        ensures size { self.new.size ≡ self.old.size }
    {
        for place in 0..count {
            self.erase(block * count + place, place, due);
        }
    }
}
