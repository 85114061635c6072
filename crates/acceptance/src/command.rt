use std::alloc::{AllocError, Global};
use std::test::Fail;
use surw_cli::{Status, surw_plain};
use surw_io::{MemShelf, MemSink};

// The words `JOB NAME`.
pub fn words_of(alloc: Global, job: &str, name: &str) -> Result<Vec<String>, AllocError> {
    let mut words = Vec::new(alloc);
    words.push(String::from_str(alloc, job)?)?;
    words.push(String::from_str(alloc, name)?)?;
    Ok(words)
}

// These words.
pub fn texts_of(alloc: Global, texts: &[&str]) -> Result<Vec<String>, AllocError> {
    let mut words = Vec::new(alloc);
    for text in texts {
        words.push(String::from_str(alloc, text)?)?;
    }
    Ok(words)
}

// A shelf with one file, which is read in small pieces.
pub fn shelf_of(alloc: Global, name: &str, bytes: &[u8], fails: &[u32]) -> Result<MemShelf, Fail> {
    let mut files = Vec::new(alloc);
    files.push((String::from_str(alloc, name)?, bytes.to_vec(alloc)?))?;
    Ok(MemShelf::new(alloc, files, 0, 7, fails.to_vec(alloc)?)?)
}

// The status of a job for the file `f` with this text, and what it printed.
pub fn job_of_text(alloc: Global, job: &str, text: &str) -> Result<(Status, MemSink), Fail> {
    let words = words_of(alloc, job, "f")?;
    let mut shelf = shelf_of(alloc, "f", text.as_bytes(), &[])?;
    let mut out = MemSink::new(alloc, 1000, 1000, Vec::new(alloc))?;
    let status = surw_plain(alloc, words.as_slice(), &mut shelf, &mut out);
    Ok((status, out))
}
