// A file in parts: each begins with a title, a line that begins with `#`.
ghost use Rattle.std.specs.Prelude.{◌≡◌, ◌≤◌, ◌<◌, length};

const TITLE: u8 = b'#';

// Whether the file has parts: it opens with a title.
pub fn titled(text: &[u8]) -> bool {
    text.first() == Some(&TITLE)
}

// The size of the first line, its end counted.
pub fn line_size(text: &[u8]) -> usize
    requires { 0 < length text.now }
    ensures { (0 < result) × (result ≤ length text.now) }
{
    match text.iter().position(|b| *b == b'\n') {
        Some(end) => end + 1,
        None => text.len(),
    }
}

// The size of the lines before the first title. A chain's sum would need a law that it stays within the text, which here each step shows.
fn body_size(text: &[u8]) -> usize
    ensures { result ≤ length text.now }
{
    let mut size = 0;
    while size < text.len() && text[size] != TITLE {
        size += line_size(&text[size..]);
    }
    size
}

#[derive(Drop)]
pub struct Part<'a> {
    pub title: &'a [u8],
    pub body: &'a [u8],
}

// The parts that are left of a file.
#[derive(Drop)]
pub struct Parts<'a> {
    rest: &'a [u8],
}

impl<'a> Parts<'a> {
    pub fn of(text: &'a [u8]) -> Parts<'a>
        ensures { result.rest.now ≡ text.now }
    {
        Parts { rest: text }
    }
}

impl<'a> Iterator for Parts<'a> {
    type Item = Part<'a>;

    ghost use Rattle.std.specs.Prelude.{length};
    ghost use Rattle.std.specs.Iterator.{at_most};

    ghost remaining = { λ s. at_most (length s.rest.now) };

    fn next(&mut self) -> Option<Part<'a>> {
        let text = self.rest;
        if text.is_empty() {
            return None;
        }
        let (title, after) = text.split_at(line_size(text));
        let (body, rest) = after.split_at(body_size(after));
        self.rest = rest;
        Some(Part { title, body })
    }
}
