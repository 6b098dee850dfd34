//! The numbers among the words.

/// The word at this place, where it is a number. The first two words are the program's name and what it measures.
pub fn number(words: &[String], place: usize) -> Option<u32> {
    words.get(place)?.as_str().parse::<u32>().ok()
}
