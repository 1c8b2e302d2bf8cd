//! The lines that are tried in the place of an entry's: by other machines and counts, with other replies, and with one word changed.

use std::alloc::{AllocError, Global};

/// The digits of a number.
fn digits(alloc: Global, n: u64) -> Result<String, AllocError> {
    format!(in alloc; "{n}")
}

/// A machine and its count.
fn turn_text(alloc: Global, m: usize, k: u64) -> Result<String, AllocError> {
    format!(in alloc; "{m}.{k}")
}

/// Adds a line of these parts, if it isn't there.
fn add(list: &mut Vec<String>, parts: &[&str]) -> Result<(), AllocError> {
    let mut line = String::new(*list.allocator());
    for part in parts {
        line.push_str(part)?;
    }
    if !list.iter().any(|old| old.as_str() == line.as_str()) {
        list.push(line)?;
    }
    Ok(())
}

/// Adds the line by each machine, with the count of each and the next.
fn add_turns(list: &mut Vec<String>, line: &str, counts: &[u64]) -> Result<(), AllocError> {
    let alloc = *list.allocator();
    let (n, rest) = line.split_once(' ').unwrap_or((line, ""));
    let (_, rest) = rest.split_once(' ').unwrap_or((rest, ""));
    for m in 0..counts.len() {
        for count in counts {
            for k in [*count, count.wrapping_add(1)] {
                add(list, &[n, " ", turn_text(alloc, m, k)?.as_str(), " ", rest])?;
            }
        }
    }
    Ok(())
}

/// Adds the lines with another number or flag in the place of a word: the numbers beside it, and limits of their types.
fn add_words(
    list: &mut Vec<String>,
    front: &str,
    word: &str,
    back: &str,
) -> Result<(), AllocError> {
    let alloc = *list.allocator();
    if word == "true" || word == "false" {
        add(list, &[front, "true", back])?;
        add(list, &[front, "false", back])?;
    }
    if let Ok(n) = word.parse::<u64>() {
        for other in [n.wrapping_add(1), n.wrapping_sub(1), 32, 64, 65_535] {
            add(list, &[front, digits(alloc, other)?.as_str(), back])?;
        }
    }
    Ok(())
}

/// Adds the lines that go on behind `front` as those ends say that begin so.
fn add_ends(list: &mut Vec<String>, front: &str, ends: &str, kind: char) -> Result<(), AllocError> {
    for end in ends.lines() {
        if let Some(end) = end.strip_prefix(kind) {
            add(list, &[front, end])?;
        }
    }
    Ok(())
}

/// The lines that are tried in the place of this one, and perhaps it itself: by other machines and counts, with other replies (the ends
/// `=`), and with one word of the reply changed, or cut behind a word, also with other words then (the ends `+`). The machines made so
/// many entries before.
pub fn changes(
    alloc: Global,
    line: &str,
    counts: &[u64],
    ends: &str,
) -> Result<Vec<String>, AllocError> {
    let mut list = Vec::new(alloc);
    add_turns(&mut list, line, counts)?;
    let reply = line.find("->").unwrap_or(0).wrapping_add(2);
    add_ends(&mut list, line.get(..reply).unwrap_or(""), ends, '=')?;
    let mut at = 0usize;
    for word in line.split([' ', '.']) {
        let end = at.wrapping_add(word.len());
        if at > reply {
            let front = line.get(..at).unwrap_or("");
            add_words(&mut list, front, word, line.get(end..).unwrap_or(""))?;
            let front = line.get(..end).unwrap_or("");
            add(&mut list, &[front])?;
            add_ends(&mut list, front, ends, '+')?;
        }
        at = end.wrapping_add(1);
    }
    Ok(list)
}
