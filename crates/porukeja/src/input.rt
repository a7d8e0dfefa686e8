// A file's bytes, read in large parts.
use std::fs::File;
use std::io;
use std::io::Read;

const PART: usize = 1_048_576;

// How many bytes are read between two words of progress.
const STEP: usize = 67_108_864;

// All bytes that are left. With `progress`, stderr is told how much is read.
// By parts: `read_to_end` doubles a vector that is full before it sees the end, and a reader that tells of progress does so before the
// bytes have found room.
fn read_all<F: Read>(rt: &HostRuntime, from: &mut F, progress: bool) -> io::Result<Vec<u8>> {
    let heap = rt.alloc();
    let mut bytes = Vec::new(heap);
    let mut part = vec![in heap; 0u8; PART]?;
    let mut told = 0usize;
    for _ in 0..u64::MAX {
        let n = from.read(&mut part)?;
        if n == 0 {
            break;
        }
        bytes.extend_from_slice(&part[..n])?;
        let steps = bytes.len() / STEP;
        if progress && steps > told {
            told = steps;
            let mebibytes = bytes.len() / 1_048_576;
            eprintln!(rt; "{mebibytes} MiB read")?;
        }
    }
    Ok(bytes)
}

// All bytes of a file.
pub(crate) fn read_file(rt: &HostRuntime, path: &str, progress: bool) -> io::Result<Vec<u8>> {
    let mut file = File::open(rt, path)?;
    read_all(rt, &mut file, progress)
}

// All bytes of standard input.
pub(crate) fn read_stdin(rt: &HostRuntime) -> io::Result<Vec<u8>> {
    let mut stdin = rt.stdin();
    read_all(rt, &mut stdin, false)
}
