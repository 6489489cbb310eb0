//! The help of the prompt.

use crate::pieces::{Piece, push_pieces};
use crate::refusal::Refusal;
use crate::request::topic::{TOPICS, Topic};
use aig_base::Memory;

/// How wide the column of what can be typed is.
const WIDTH: usize = 22;

/// Adds the line of a topic.
fn push_topic(text: &mut Vec<u8>, topic: Topic) -> Result<(), Memory> {
    let usage = topic.usage().as_bytes();
    text.extend_from_slice(usage)?;
    for _space in usage.len()..WIDTH {
        text.push(b' ')?;
    }
    let rest = [Piece::Text(topic.about().as_bytes()), Piece::Text(b"\n")];
    push_pieces(text, &rest)
}

/// Adds the help of all topics.
fn push_all(text: &mut Vec<u8>) -> Result<(), Memory> {
    for topic in TOPICS {
        push_topic(text, topic)?;
    }
    text.extend_from_slice(
        b"A NAME is a word of a symbol, a vector without its [..], i0 l0 o0 b0 c0 by\nposition, or a literal; !NAME negates. A VALUE is hexadecimal, or bits if one\nis x, or as in Verilog: 8'hff 8'd31 4'b1x00.\n",
    )?;
    Ok(())
}

/// Adds the help of a topic, or of all.
pub(crate) fn push_help<'a>(
    text: &mut Vec<u8>,
    command: Option<&'a [u8]>,
) -> Result<(), Refusal<'a>> {
    let Some(word) = command else {
        push_all(text)?;
        return Ok(());
    };
    match Topic::of(word) {
        Some(topic) => {
            push_topic(text, topic)?;
            Ok(())
        }
        None => Err(Refusal::NoCommand(word)),
    }
}
