//! The bytes of a part that holds what a flash does.
ghost use Rattle.std.specs.Prelude.{◌≡◌, ◌+◌, ◌≤◌, ◌<◌, ◌++◌, ◌-◌, IfOk, length, replicate, vec_len};
ghost use Rattle.flash_model.specs.Contents.{IsWhole, shown_page};
ghost use Rattle.flash_model.specs.Geometry.{IsGeometry, page_count};
ghost use Rattle.flash_simulation.specs.Simulation.{device_of};
ghost use Rattle.host_interface.specs.Steps.{overwritten};
ghost use Rattle.part_file.specs.Layout as spec;
ghost use Rattle.part_file.specs.Pages.{IsPart, page_put};

use crate::part_file::MAGIC;
use crate::places::{data_place, state_place};
use fields::push_u32;
use flash_model::{Flash, Geometry, PageView};
use flash_simulation::SimFlash;
use std::alloc::{AllocError, Global};

/// The bytes of a part that holds what a flash does: its head, the states of its pages, and their bytes.
/// What else stands there is 0.
pub fn spelled_part(alloc: Global, flash: &SimFlash) -> Result<Vec<u8>, AllocError>
    ensures part { IfOk result (λ bytes. IsPart (device_of flash.now) bytes.items) }
    ensures len { IfOk result (λ bytes. length bytes.items ≡ spec.part_length (device_of flash.now).geometry) }
{
    let sizes = flash.geometry();
    let mut bytes = blank_part(alloc, sizes)?;
    put_pages(&mut bytes, flash);
    Ok(bytes)
}

/// Puts the pages of a flash into a blank part.
fn put_pages(bytes: &mut [u8], flash: &SimFlash)
    requires { bytes.old ≡ spec.blank_part (device_of flash.now).geometry }
    ensures part { IsPart (device_of flash.now) bytes.new }
    ensures len { length bytes.new ≡ length bytes.old }
{
    let sizes = flash.geometry();
    for page in 0..sizes.page_count() as u32 {
        put_page(bytes, sizes, page, flash.page(page));
    }
}

/// Puts a page into a part.
fn put_page(bytes: &mut [u8], sizes: Geometry, page: u32, view: PageView<'_>)
    requires lawful { IsGeometry sizes }
    requires in_range { page < page_count sizes }
    requires whole { IsWhole sizes.page (shown_page view) }
    requires long { spec.part_length sizes ≤ length bytes.old }
    ensures { bytes.new ≡ page_put sizes page (shown_page view.entry) bytes.old }
{
    match view {
        PageView::Erased => {}
        PageView::Data(content) => {
            put_at(bytes, data_place(sizes, page) as usize, content);
            put_at(bytes, state_place(page) as usize, &[1]);
        }
        PageView::Unreadable => put_at(bytes, state_place(page) as usize, &[2]),
    }
}

/// Writes bytes over others from a place on.
fn put_at(bytes: &mut [u8], place: usize, others: &[u8])
    requires { place + length others.now ≤ length bytes.old }
    ensures { bytes.new ≡ overwritten place others.now bytes.old }
{
    bytes[place..place + others.len()].copy_from_slice(others);
}

/// The bytes of a part of which each page is erased.
fn blank_part(alloc: Global, sizes: Geometry) -> Result<Vec<u8>, AllocError>
    requires { IsGeometry sizes }
    ensures { IfOk result (λ bytes. bytes.items ≡ spec.blank_part sizes) }
{
    let mut bytes = Vec::new(alloc);
    bytes.extend_from_slice(&MAGIC)?;
    push_u32(&mut bytes, sizes.page)?;
    push_u32(&mut bytes, sizes.pages)?;
    push_u32(&mut bytes, sizes.blocks)?;
    bytes.resize(data_end(sizes), 0)?;
    Ok(bytes)
}

/// Where the bytes of the last page end.
fn data_end(sizes: Geometry) -> usize
    requires { IsGeometry sizes }
    ensures { result ≡ spec.part_length sizes }
{
    data_place(sizes, sizes.page_count() as u32 - 1) as usize + sizes.page as usize
}
