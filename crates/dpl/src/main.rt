// The lister: reads a book from standard input and prints its listing, or the line of its refusal. What is printed comes from the crate
// hosted; here is only reading and writing.
#![tactic(auto)]

use limits::Book;

mod input;

// One byte more than a book may have: where that is read too, the text is too long.
const ROOM: usize = Book::TEXT_BYTES + 1;

// Output that is lost is told on standard error; what standard error loses is told nowhere.
fn print<R: Print + Eprint>(rt: &R, text: &[u8]) {
    let mut out = [0u8; Book::LISTING_BYTES];
    let n = hosted::print(text, &mut out);
    if rt.write_all(&out[..n]).is_err() {
        let _ = eprintln!(rt; "dpl: standard output cannot be written");
    }
}

fn main(rt: HostRuntime) {
    let mut text = [0u8; ROOM];
    let Ok(n) = input::read(&mut rt.stdin(), &mut text) else {
        let _ = eprintln!(rt; "dpl: standard input cannot be read");
        return;
    };
    print(&rt, &text[..n]);
}
