// Numbers, and fields that show one.
ghost use Rattle.std.specs.Prelude.{◌++◌};
ghost use Rattle.solving.specs.Listing.{decimal};
ghost use Rattle.copying.specs.Text.{Room, Puts};

use copying::text::Text;
use itoa::Buffer;

// The figures of n in base ten.
pub fn put_number(text: &mut Text<'_>, n: usize)
    requires { Room text.old (decimal n) }
    ensures { Puts text.old (decimal n) text.new }
{
    text.put(Buffer::new().format(n).as_bytes());
}

// A field, its name in front of the number.
pub fn put_field(text: &mut Text<'_>, name: &[u8], n: usize)
    requires { Room text.old (name.now ++ decimal n) }
    ensures { Puts text.old (name.now ++ decimal n) text.new }
{
    text.put(name);
    put_number(text, n);
}
