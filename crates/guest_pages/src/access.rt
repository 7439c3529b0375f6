//! Accesses of memory at physical addresses. An address is a multiple of the access's size, so all its bytes are in one page.
ghost use Rattle.std.specs.Prelude.{◌≡◌, ◌*◌, ◌%◌, ◌<◌, length, slice_index, slice_set};
ghost use Rattle.word32.specs.Pages.{page_number};
ghost use Rattle.word32.specs.Words.{half_in, with_half, word_in, with_word};
ghost use Rattle.guest_pages.specs.declared.page.PageKind.{PageKind};
ghost use Rattle.guest_pages.specs.Pages.{kind_at, memory_of};
ghost use Rattle.guest_pages.specs.Outline.{outline};

use crate::{GuestPages, Page};
use word32::{half_at, offset_of, page_of, put_half, put_word, word_at};

// The arms of a read that answer 0 are of pages that show zeros, so a read has no path that could fail.
impl GuestPages {
    /// The byte at an address.
    #[inline(always)]
    pub fn read_byte(&self, at: u32) -> u8
        requires { at < length self.now * 4096 }
        ensures { result ≡ slice_index (memory_of self.now) at }
    {
        match self.pages[page_of(at).number() as usize].bytes() {
            Some(bytes) => bytes[offset_of(at) as usize],
            None => 0,
        }
    }

    /// The half-word whose lower byte is at an address.
    #[inline(always)]
    pub fn read_half(&self, at: u32) -> u16
        requires there { at < length self.now * 4096 }
        requires aligned { at % 2 ≡ 0 }
        ensures { result ≡ half_in (memory_of self.now) at }
    {
        match self.pages[page_of(at).number() as usize].bytes() {
            Some(bytes) => half_at(bytes, offset_of(at) as usize),
            None => 0,
        }
    }

    /// The word whose lowest byte is at an address.
    #[inline(always)]
    pub fn read_word(&self, at: u32) -> u32
        requires there { at < length self.now * 4096 }
        requires aligned { at % 4 ≡ 0 }
        ensures { result ≡ word_in (memory_of self.now) at }
    {
        match self.pages[page_of(at).number() as usize].bytes() {
            Some(bytes) => word_at(bytes, offset_of(at) as usize),
            None => 0,
        }
    }

    /// Writes a byte to a page that has a frame of its own.
    #[inline(always)]
    pub fn write_byte(&mut self, at: u32, byte: u8)
        requires there { at < length self.old * 4096 }
        requires private { kind_at self.old (page_number at) ≡ PageKind.Private }
        ensures memory { memory_of self.new ≡ slice_set (memory_of self.old) at byte }
        ensures outline { outline self.new ≡ outline self.old }
    {
        match &mut self.pages[page_of(at).number() as usize] {
            Page::Private(frame) => frame.bytes_mut()[offset_of(at) as usize] = byte,
            _other => unreachable!(),
        }
    }

    /// Writes a half-word, its lower byte at an address, to a page that has a frame of its own.
    #[inline(always)]
    pub fn write_half(&mut self, at: u32, half: u16)
        requires there { at < length self.old * 4096 }
        requires aligned { at % 2 ≡ 0 }
        requires private { kind_at self.old (page_number at) ≡ PageKind.Private }
        ensures memory { memory_of self.new ≡ with_half (memory_of self.old) at half }
        ensures outline { outline self.new ≡ outline self.old }
    {
        match &mut self.pages[page_of(at).number() as usize] {
            Page::Private(frame) => put_half(frame.bytes_mut(), offset_of(at) as usize, half),
            _other => unreachable!(),
        }
    }

    /// Writes a word, its lowest byte at an address, to a page that has a frame of its own.
    #[inline(always)]
    pub fn write_word(&mut self, at: u32, word: u32)
        requires there { at < length self.old * 4096 }
        requires aligned { at % 4 ≡ 0 }
        requires private { kind_at self.old (page_number at) ≡ PageKind.Private }
        ensures memory { memory_of self.new ≡ with_word (memory_of self.old) at word }
        ensures outline { outline self.new ≡ outline self.old }
    {
        match &mut self.pages[page_of(at).number() as usize] {
            Page::Private(frame) => put_word(frame.bytes_mut(), offset_of(at) as usize, word),
            _other => unreachable!(),
        }
    }
}
