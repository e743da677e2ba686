// An outlet behind a buffer: bytes wait there to be written.
ghost use Rattle.std.specs.Prelude.{◌+◌, ◌≡◌, ◌≤◌, length};

use crate::Outlet;
use std::fmt::InlineText;
use std::io;

#[derive(Drop)]
pub struct Buffered<'a, const N: usize> {
    outlet: &'a mut Outlet,
    bytes: [u8; N],
    used: usize,
    ghost within: { used ≤ N },
}

impl<'a, const N: usize> Buffered<'a, N> {
    pub fn new(outlet: &'a mut Outlet) -> Self
        ensures { result.used ≡ 0 }
    {
        Buffered {
            outlet,
            bytes: [0; N],
            used: 0,
        }
    }

    // Writes what waits.
    pub fn flush(&mut self) -> io::Result<()>
        ensures { self.new.used ≡ 0 }
    {
        let n = self.used;
        self.used = 0;
        self.outlet.put(&self.bytes[..n])
    }

    // Writes what waits, if fewer bytes than these are free.
    pub fn make_room(&mut self, bytes: usize) -> io::Result<()>
        ensures { bytes ≤ N → self.new.used + bytes ≤ N }
    {
        if N - self.used < bytes {
            return self.flush();
        }
        Ok(())
    }

    // Byte by byte: most pieces are short, and a call of memmove for each costs more than they do.
    #[inline(always)]
    fn add(&mut self, bytes: &[u8])
        requires { self.old.used + length bytes.now ≤ N }
        ensures { self.new.used ≡ self.old.used + length bytes.now }
    {
        let at = self.used;
        for i in 0..bytes.len() {
            self.bytes[at + i] = bytes[i];
        }
        self.used = at + bytes.len();
    }

    // Bytes of which some do not fit: what waits is written when it fills the buffer and more comes.
    #[inline(never)]
    fn put_over(&mut self, bytes: &[u8]) -> io::Result<()>
        requires { N ≤ self.old.used + length bytes.now }
    {
        if N == 0 {
            return self.outlet.put(bytes);
        }
        let (now, rest) = bytes.split_at(N - self.used);
        self.add(now);
        for part in rest.chunks(N) {
            self.flush()?;
            self.add(part);
        }
        Ok(())
    }

    // Each write but the last is of N bytes, so that the pages of a pipe are full. Inline, so that a short piece is stored in its caller.
    #[inline(always)]
    pub fn put(&mut self, bytes: &[u8]) -> io::Result<()> {
        if N - self.used < bytes.len() {
            return self.put_over(bytes);
        }
        self.add(bytes);
        Ok(())
    }

    // A number in decimal.
    pub fn put_number(&mut self, n: u64) -> io::Result<()> {
        let text = InlineText::<20>::of(n);
        self.put(text.as_str().as_bytes())
    }
}
