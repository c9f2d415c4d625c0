// Frames that stand in a line as hexadecimal. All words of a line are decoded before the first is read.
use crate::fault::{LineFault, Wrong};
use std::alloc::Global;
use text::hex::decode_hex;
use wire::reading::read_sealed;
use wire::records::Sealed;

pub(crate) fn bytes_in(heap: Global, word: &str) -> Result<Vec<u8>, LineFault> {
    if word.is_empty() {
        return Err(LineFault::Bad(Wrong::Words));
    }
    Ok(decode_hex(heap, word.as_bytes())?)
}

// A list has a word for each of its frames; the one word - is the empty list.
pub(crate) fn list_in(heap: Global, words: &[&str]) -> Result<Vec<Vec<u8>>, LineFault> {
    if let ["-"] = words {
        return Ok(Vec::new(heap));
    }
    words
        .iter()
        .map(|word| bytes_in(heap, word))
        .try_collect(heap)
}

pub(crate) fn read_list(heap: Global, frames: &[Vec<u8>]) -> Result<Vec<Sealed>, LineFault> {
    frames
        .iter()
        .map(|frame| -> Result<Sealed, LineFault> { Ok(read_sealed(frame.as_slice())?) })
        .try_collect(heap)
}
