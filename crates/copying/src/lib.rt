// Bytes copied into an area, and text that is put into one part after part.
#![tactic(auto)]

ghost use Rattle.std.specs.Prelude.{◌≡◌, ◌+◌, ◌≤◌, length};
ghost use Rattle.areas.specs.Area.{put};

pub mod text;

// Copies all of src to place `at` of the area, and returns the place after it.
pub fn copy(src: &[u8], area: &mut [u8], at: usize) -> usize
    requires { at + length src.now ≤ length area.old }
    ensures next { result ≡ at + length src.now }
    ensures area { area.new ≡ put at src.now area.old }
{
    let end = at + src.len();
    // By place: the library's `copy_from_slice` would have the archive need `memmove`.
    for (i, byte) in src.iter().enumerate() {
        area[at + i] = *byte;
    }
    end
}
