// A page of text, on its way to a sink.
ghost use Rattle.std.specs.Prelude.{◌≡◌, [], ◌++◌, ◌+◌, ◌-◌, ◌<◌, ◌≤◌, ◌↔◌, length, nat_le, min, take, IsTrue, OnOk};
ghost use Rattle.svg_text.specs.inner.Printing.{Prints};
ghost use Rattle.svg_text.specs.declared.page.TheConstants.{PAGE_SIZE};

use chart_io::{Sink, WriteFault, write_all};
use std::marker::Model;

// How many bytes a page has room for.
pub const PAGE_SIZE: usize = 4_096;

// Bytes that wait until a page of them can be handed on.
#[derive(Drop)]
pub struct Page {
    bytes: [u8; PAGE_SIZE],
    filled: usize,
}

impl Model for Page {
    ghost use Rattle.std.specs.Prelude.{◌≤◌, ℕ, List, take, length};

    ghost Value = { List ℕ };

    ghost view = { λ page. take page.filled page.bytes };

    ghost invariant = { λ page. page.filled ≤ length page.bytes };
}

impl Page {
    // An empty page.
    pub fn new() -> Page
        ensures { result ≡ [] }
    {
        Page {
            bytes: [0; PAGE_SIZE],
            filled: 0,
        }
    }

    // What waits on it.
    pub fn waiting(&self) -> &[u8]
        ensures { result.now ≡ self.now }
    {
        &self.bytes[..self.filled]
    }

    // Whether it has no room left.
    fn is_full(&self) -> bool
        ensures { result ≡ nat_le PAGE_SIZE (length self.now) }
    {
        self.filled >= PAGE_SIZE
    }

    // Makes it empty.
    fn clear(&mut self)
        ensures { self.new ≡ [] }
    {
        self.filled = 0;
    }

    // Whether it has room for so many bytes more.
    fn has_room(&self, count: usize) -> bool
        ensures { IsTrue result ↔ (length self.now + count ≤ PAGE_SIZE) }
    {
        count <= PAGE_SIZE - self.filled
    }

    // Takes the bytes.
    fn add(&mut self, bytes: &[u8])
        requires { length self.old + length bytes.now ≤ PAGE_SIZE }
        ensures { self.new ≡ self.old ++ bytes.now }
    {
        let end = self.filled + bytes.len();
        self.bytes[self.filled..end].copy_from_slice(bytes);
        self.filled = end;
    }

    // Takes as many of the bytes as it has room for, and says how many.
    fn fill(&mut self, bytes: &[u8]) -> usize
        ensures count { result ≡ min (length bytes.now) (PAGE_SIZE - length self.old) }
        ensures filled { self.new ≡ self.old ++ take result bytes.now }
    {
        let n = bytes.len().min(PAGE_SIZE - self.filled);
        let end = self.filled + n;
        self.bytes[self.filled..end].copy_from_slice(&bytes[..n]);
        self.filled = end;
        n
    }
}

// Hands what waits on the page on to the sink, and makes it empty.
pub fn hand_on<K: Sink>(out: &mut K, page: &mut Page) -> Result<(), WriteFault>
    ensures prints { Prints K.faults K.held out.old page.old out.new page.new result [] }
    ensures emptied { OnOk result (page.new ≡ []) }
{
    write_all(out, page.waiting())?;
    page.clear();
    Ok(())
}

// Hands the page on where it is full.
fn make_room<K: Sink>(out: &mut K, page: &mut Page) -> Result<(), WriteFault>
    ensures prints { Prints K.faults K.held out.old page.old out.new page.new result [] }
    ensures room { OnOk result (length page.new < PAGE_SIZE) }
{
    if !page.is_full() {
        return Ok(());
    }
    hand_on(out, page)
}

// Prints the bytes by way of the page, and hands it on each time it is full. Few calls of `put` come here.
#[inline(never)]
fn put_parts<K: Sink>(out: &mut K, page: &mut Page, bytes: &[u8]) -> Result<(), WriteFault>
    ensures { Prints K.faults K.held out.old page.old out.new page.new result bytes.now }
{
    let mut at = 0;
    while at < bytes.len() {
        make_room(out, page)?;
        at += page.fill(&bytes[at..]);
    }
    Ok(())
}

// Prints the bytes by way of the page, and hands it on where it is full.
#[inline(always)]
pub fn put<K: Sink>(out: &mut K, page: &mut Page, bytes: &[u8]) -> Result<(), WriteFault>
    ensures { Prints K.faults K.held out.old page.old out.new page.new result bytes.now }
{
    if page.has_room(bytes.len()) {
        page.add(bytes);
        return Ok(());
    }
    put_parts(out, page, bytes)
}
