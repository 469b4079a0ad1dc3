// A lent output that is filled from the front.
#![tactic(auto)]

ghost use Rattle.std.specs.Prelude.{◌≡◌, length};
ghost use Rattle.output.specs.Cursor.{Wrote, HasRoom};

// A lent output, and the place where the next byte goes.
#[derive(Drop)]
pub struct Cursor<'a> {
    out: &'a mut [u8],
    at: usize,
}

impl<'a> Cursor<'a> {
    // At the front of the output.
    pub fn new(out: &'a mut [u8]) -> Self
        ensures same_output { result.out.ghost_name ≡ out.entry.ghost_name }
        ensures same_bytes { result.out.now ≡ out.old }
        ensures front { result.at ≡ 0 }
    {
        Cursor { out, at: 0 }
    }

    // How many bytes stand before the next place.
    pub fn place(&self) -> usize
        ensures { result ≡ self.now.at }
    {
        self.at
    }

    // Writes the bytes at the next place, which goes on behind them.
    #[inline]
    pub fn put(&mut self, bytes: &[u8])
        requires { HasRoom self.old (length bytes.now) }
        ensures { Wrote self.old bytes.now self.new }
    {
        let end = self.at + bytes.len();
        self.out[self.at..end].copy_from_slice(bytes);
        self.at = end;
    }
}
