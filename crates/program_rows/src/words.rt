//! The words of a row.
use std::alloc::Global;
use std::io;

/// The words of a row, with a seed.
pub fn words_of(alloc: Global, row: &str, seed: Option<u64>) -> io::Result<Vec<String>> {
    let mut words = Vec::new(alloc);
    for word in row.split_whitespace() {
        words.push(String::from_str(alloc, word)?)?;
    }
    if let Some(seed) = seed {
        words.push(String::from_str(alloc, "--seed")?)?;
        words.push(format!(in alloc; "{seed}")?)?;
    }
    Ok(words)
}
