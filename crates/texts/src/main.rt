// The program on texts, files of the folder data that the input names, a line each: a line with the name, then what it writes.
#![tactic(auto)]

use std::fs::File;
use std::io;
use std::rt::Files;

// The file with this name.
fn open<R: Files>(rt: &R, name: &[u8]) -> io::Result<R::File> {
    match str::from_utf8(name) {
        Ok(path) => File::open(rt, path),
        Err(_) => Err(io::Error::from(io::ErrorKind::InvalidInput)),
    }
}

// One text. A file that cannot be opened is told on standard error.
fn text(rt: &(impl Files + Print + Eprint), name: &[u8]) -> io::Result<()> {
    rt.write_all(name)?;
    rt.write_all(b":\n")?;
    match open(rt, name) {
        Ok(mut file) => program::list_from(&mut file, &mut io::writer(rt)),
        Err(e) => eprintln!(rt; "{}: {e}", name.escape_ascii()),
    }
}

// Each of the texts.
fn texts(rt: &(impl Files + Print + Eprint), names: &[u8]) -> io::Result<()> {
    for line in names.split_inclusive(|b| *b == b'\n') {
        text(rt, line.strip_suffix(b"\n").unwrap_or(line))?;
    }
    Ok(())
}

fn main(rt: HostRuntime) -> io::Result<()> {
    let mut buf = [0u8; 65536];
    let n = reading::read_full(&mut rt.stdin(), &mut buf)?;
    texts(&rt, &buf[..n])
}
