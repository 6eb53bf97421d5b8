// Output by blocks, through a lent buffer: what does not fit any more is preceded by what stands
// there. A block whose write fails is passed over.
ghost use Rattle.std.specs.Prelude.{◌≡◌, ◌≤◌, ◌+◌, ◌++◌, length, take};

use std::io;
use std::io::Write;

// Where the blocks go, and the buffer with how much of it is used.
#[derive(Drop)]
pub struct Blocks<'a, W> {
    writer: W,
    block: &'a mut [u8],
    used: usize,
    ghost within: { used ≤ length block.now },
}

impl<'a, W: Write> Blocks<'a, W> {
    pub fn new(writer: W, block: &'a mut [u8]) -> Blocks<'a, W>
        ensures { (result.used ≡ 0) × (length result.block.now ≡ length block.old) }
    {
        Blocks {
            writer,
            block,
            used: 0,
        }
    }

    // Writes the used part.
    fn put_block(&mut self)
        ensures { (self.new.used ≡ 0) × (length self.new.block.now ≡ length self.old.block.now) }
    {
        let _ = self.writer.write_all(&self.block[..self.used]);
        self.used = 0;
    }

    // `text` behind what stands in the buffer, where it fits.
    fn lay(&mut self, text: &[u8])
        requires { self.old.used + length text.now ≤ length self.old.block.now }
        ensures { take self.new.used self.new.block.now ≡ take self.old.used self.old.block.now ++ text.now }
    {
        let end = self.used + text.len();
        self.block[self.used..end].copy_from_slice(text);
        self.used = end;
    }
}

impl<'a, W: Write> Write for Blocks<'a, W> {
    fn write(&mut self, text: &[u8]) -> io::Result<usize> {
        if self.block.len() - self.used < text.len() {
            self.put_block();
        }
        if text.len() <= self.block.len() - self.used {
            self.lay(text);
        } else {
            let _ = self.writer.write_all(text);
        }
        Ok(text.len())
    }

    fn flush(&mut self) -> io::Result<()> {
        self.put_block();
        Ok(())
    }
}
