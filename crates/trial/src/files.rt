// The files of data/, which arguments name.
ghost use Rattle.std.specs.Prelude.{◌≤◌, IfOk};
ghost use Rattle.std.specs.Vec.{vec_len};

use std::env::Env;
use std::fs::{File, Files};
use std::io::{Read, Write};
use std::{env, io};

// How many bytes of a file are read, its first: a book that is too long, or many books or cases.
const INPUT: u64 = 65536;

// Prints the name of the file, which is an argument, and returns what is read of it. A file that cannot be opened is told on standard error, its
// name is not printed, and nothing is read.
fn take<R: Files + AllocGlobal + Eprint, W: Write>(
    rt: &R,
    out: &mut W,
    path: &str,
) -> io::Result<Vec<u8>>
    ensures { IfOk result (λ text. vec_len text ≤ 65536) }
{
    let mut text = Vec::new(rt.alloc());
    match File::open(rt, path) {
        Ok(file) => {
            writeln!(out, "{path}")?;
            file.take(INPUT).read_to_end(&mut text)?;
        }
        Err(e) => eprintln!(rt; "{path}: {e}")?,
    }
    // There are no more: the library's call does not say so. The limit goes by `as`, since there is no `From` between the two types.
    text.truncate(INPUT as usize);
    Ok(text)
}

// Hands each file that an argument names to `show`, by its name and what is read of it. It promises nothing: what is written is what
// `show` writes, of files of which no clause says what they hold.
pub fn each<R, W: Write, F>(rt: &R, out: &mut W, show: F) -> io::Result<()>
where
    R: Env + Files + AllocGlobal + Eprint,
    F: Fn(&mut W, &str, &[u8]) -> io::Result<()>,
    requires { F.IsAlwaysCallable show }
{
    for path in env::args(rt)?.skip(1) {
        let text = take(rt, out, path.as_str())?;
        show(out, path.as_str(), &text)?;
    }
    Ok(())
}

// Whether the name of the file begins `ev`, as `every_byte_..`: a file in which something takes every value.
pub fn swept(path: &str) -> bool {
    path.starts_with("ev")
}
