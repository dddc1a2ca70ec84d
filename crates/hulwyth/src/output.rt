// What the program writes: it is collected in a page, and the page is written when it is full and at the end.
ghost use Rattle.std.specs.Prelude.{◌≡◌, ◌≤◌};

use std::fmt;

// Standard output.
const OUTPUT: i32 = 1;

// The bytes that a page holds at most.
const SIZE: usize = 65536;

// An array, since the program allocates nothing.
#[derive(Drop)]
pub struct Page {
    bytes: [u8; SIZE],
    used: usize,
    ghost within: { used ≤ 65536 },
}

impl Page {
    pub fn new() -> Page {
        Page {
            bytes: io::large_buffer(),
            used: 0,
        }
    }

    // Writes the bytes that are used, and starts the page anew. A write that fails is not told.
    pub fn flush(&mut self)
        ensures { self.new.used ≡ 0 }
    {
        io::write_all(OUTPUT, &self.bytes[..self.used]);
        self.used = 0;
    }

    // Puts bytes behind those that are used, after writing them where the page is full.
    pub fn put(&mut self, text: &[u8]) {
        for byte in text {
            if self.used == SIZE {
                self.flush();
            }
            self.bytes[self.used] = *byte;
            self.used += 1;
        }
    }
}

impl fmt::Write for Page {
    fn write_str(&mut self, text: &str) -> fmt::Result {
        self.put(text.as_bytes());
        Ok(())
    }
}
