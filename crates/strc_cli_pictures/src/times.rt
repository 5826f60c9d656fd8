// The shares of the time that a run wrote of its nodes.

use std::alloc::{AllocError, Global};

/// What a line begins with that tells the share of a node; its number follows, and `: `.
pub const NODE_LINE: &[u8] = b"strc: node ";

/// The share of the time of each of so many nodes, in thousandths, where a line of this text tells
/// it, as `strc: node 3: 12.5% ..`: none of any node where there is no text. Lines that tell
/// something else are passed over.
pub fn shares_in(alloc: Global, text: &[u8], nodes: usize) -> Result<Vec<Option<u32>>, AllocError> {
    if text.is_empty() {
        return Ok(Vec::new(alloc));
    }
    let mut shares = Vec::from_elem(alloc, None, nodes)?;
    for line in text.split(|byte| *byte == b'\n') {
        if let Some((node, share)) = share_in(line) {
            if node < shares.len() {
                shares[node] = Some(share);
            }
        }
    }
    Ok(shares)
}

/// The node of a line and its share, up to all of the time.
fn share_in(line: &[u8]) -> Option<(usize, u32)> {
    let rest = line.strip_prefix(NODE_LINE)?;
    let (node, rest) = leading_number(rest)?;
    let (percent, rest) = leading_number(rest.strip_prefix(b": ")?)?;
    let (tenth, rest) = leading_number(rest.strip_prefix(b".")?)?;
    let _ = rest.strip_prefix(b"%")?;
    if percent > 100 || tenth > 9 {
        return None;
    }
    Some((node as usize, (percent * 10 + tenth).min(1000)))
}

/// The number that a text begins with, and the rest; none where it has no digit there, or a number
/// of more than nine digits.
fn leading_number(text: &[u8]) -> Option<(u32, &[u8])> {
    let mut number: u32 = 0;
    let mut count: usize = 0;
    for byte in text {
        if !byte.is_ascii_digit() {
            break;
        }
        if count == 9 {
            return None;
        }
        number = number
            .saturating_mul(10)
            .saturating_add(u32::from(*byte - b'0'));
        count += 1;
    }
    if count == 0 {
        return None;
    }
    Some((number, &text[count..]))
}
