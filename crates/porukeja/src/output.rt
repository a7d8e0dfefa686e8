// Output to stdout, gathered into large writes.
use std::io;
use std::io::Write;

// So many bytes are gathered before they are written.
const FULL: usize = 65_536;

// What is written here reaches stdout between two lines and at the end, so each write ends with a line, and what is held where the program
// fails is not written: a BufWriter would write it as it is let go.
#[derive(Drop)]
pub(crate) struct Output<'r> {
    rt: &'r HostRuntime,
    held: Vec<u8>,
}

impl<'r> Output<'r> {
    pub(crate) fn new(rt: &'r HostRuntime) -> Output<'r> {
        Output {
            rt,
            held: Vec::new(rt.alloc()),
        }
    }

    // Writes what is held if it is much.
    pub(crate) fn pass_on(&mut self) -> io::Result<()> {
        if self.held.len() >= FULL {
            self.flush()?;
        }
        Ok(())
    }
}

impl<'r> Write for Output<'r> {
    fn write(&mut self, buf: &[u8]) -> io::Result<usize> {
        self.held.extend_from_slice(buf)?;
        Ok(buf.len())
    }

    fn write_all(&mut self, buf: &[u8]) -> io::Result<()> {
        self.held.extend_from_slice(buf)?;
        Ok(())
    }

    fn flush(&mut self) -> io::Result<()> {
        self.rt.stdout().write_all(&self.held)?;
        self.held.clear();
        Ok(())
    }
}
