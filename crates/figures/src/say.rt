// What the program writes.
use std::io;

// A form with the name at each @, and the numbers in turn at each #.
pub(crate) fn form(out: &impl Print, f: &[u8], name: &[u8], n: &[u64]) -> io::Result<()> {
    let mut numbers = n.iter();
    for b in f {
        match *b {
            b'#' => {
                if let Some(x) = numbers.next() {
                    out.print(*x)?;
                }
            }
            b'@' => out.write_all(name)?,
            other => out.write_all(&[other])?,
        }
    }
    Ok(())
}
