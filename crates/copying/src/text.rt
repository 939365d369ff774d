// Text that is put into an area, part after part.
ghost use Rattle.std.specs.Prelude.{◌≡◌, [], ◌∷◌, ◌≤◌, length};

// The area, and the place after what is put.
#[derive(Drop)]
pub struct Text<'a> {
    area: &'a mut [u8],
    end: usize,
    ghost within: { end ≤ length area.now },
}

impl<'a> Text<'a> {
    ghost use Rattle.copying.specs.Text.{Room, Puts};

    // From the front of an area on.
    pub fn new(area: &'a mut [u8]) -> Text<'a>
        ensures end { result.end ≡ 0 }
        ensures area { result.area.now ≡ area.old }
        ensures same { result.area.ghost_name ≡ area.entry.ghost_name }
    {
        Text::at(area, 0)
    }

    // From a place of an area on.
    pub fn at(area: &'a mut [u8], place: usize) -> Text<'a>
        requires { place ≤ length area.old }
        ensures end { result.end ≡ place }
        ensures area { result.area.now ≡ area.old }
        ensures same { result.area.ghost_name ≡ area.entry.ghost_name }
    {
        Text { area, end: place }
    }

    // The place after what is put.
    pub fn end(&self) -> usize
        ensures { result ≡ self.now.end }
    {
        self.end
    }

    pub fn put_byte(&mut self, byte: u8)
        requires { Room self.old (byte ∷ []) }
        ensures { Puts self.old (byte ∷ []) self.new }
    {
        self.area[self.end] = byte;
        self.end += 1;
    }

    pub fn put(&mut self, part: &[u8])
        requires { Room self.old part.now }
        ensures { Puts self.old part.now self.new }
    {
        self.end = crate::copy(part, self.area, self.end);
    }
}
