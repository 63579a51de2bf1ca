use ld_tree::NoMemory;
use ld_tree_read::{ReadRefusal, read_tree};
use ld_tree_write::write_tree;
use std::alloc::Global;

/// Why there is nothing to print.
#[derive(Drop)]
pub enum BenchRefusal {
    /// The text is no JSON text that can be read.
    Refused,
    NoMemory,
}

impl From<NoMemory> for BenchRefusal {
    fn from(_e: NoMemory) -> BenchRefusal {
        BenchRefusal::NoMemory
    }
}

impl From<ReadRefusal> for BenchRefusal {
    fn from(e: ReadRefusal) -> BenchRefusal {
        match e {
            ReadRefusal::NoMemory => BenchRefusal::NoMemory,
            _ => BenchRefusal::Refused,
        }
    }
}

/// Reads the text so often, and gives the last tree's text back.
pub fn read_often(alloc: Global, text: &[u8], rounds: u32) -> Result<Vec<u8>, BenchRefusal> {
    for _ in 1..rounds {
        read_tree(alloc, text)?;
    }
    let mut out = Vec::new(alloc);
    write_tree(&read_tree(alloc, text)?, &mut out)?;
    Ok(out)
}

/// What is printed for each line.
pub fn print_lines(alloc: Global, text: &[u8]) -> Result<Vec<u8>, NoMemory> {
    let mut out = Vec::new(alloc);
    for line in text.split(|byte| *byte == b'\n') {
        print_line(alloc, line, &mut out)?;
    }
    Ok(out)
}

fn print_line(alloc: Global, line: &[u8], out: &mut Vec<u8>) -> Result<(), NoMemory> {
    match read_tree(alloc, line) {
        Ok(tree) => {
            // One tree at a time: the line is printed apart, and then moved behind the others.
            let mut printed = Vec::new(alloc);
            write_tree(&tree, &mut printed)?;
            out.append(&mut printed)?;
        }
        Err(ReadRefusal::NoMemory) => return Err(NoMemory),
        Err(_) => out.extend_from_slice(b"refused")?,
    }
    out.push(b'\n')?;
    Ok(())
}
