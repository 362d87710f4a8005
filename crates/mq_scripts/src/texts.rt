//! The bytes of a script, from the lines of its row: what stands between braces is repeated, and a byte may be written
//! as a backslash and two hexadecimal digits.

use crate::heads::{ask, count};
use mq_values::{Memory, Num};
use std::alloc::Global;

/// The bytes that a row's text stands for.
pub(crate) fn bytes_of(alloc: Global, head: &str, text: &str) -> Result<Vec<u8>, Memory> {
    let mut bytes = Vec::new(alloc);
    if ask(head, "bytes").is_some() {
        add_bytes(text, &mut bytes)?;
    } else if ask(head, "times").is_some() {
        add_repeats(text, count(head, "times", 1), &mut bytes)?;
    } else {
        bytes.extend_from_slice(text.as_bytes())?;
    }
    Ok(bytes)
}

// The text, in which a backslash and two digits stand for a byte.
fn add_bytes(text: &str, bytes: &mut Vec<u8>) -> Result<(), Memory> {
    for (number, part) in text.split('\\').enumerate() {
        if number == 0 {
            bytes.extend_from_slice(part.as_bytes())?;
        } else {
            add_byte(part.as_bytes(), bytes)?;
        }
    }
    Ok(())
}

// The byte that the first two digits write, and then the others as they are.
fn add_byte(part: &[u8], bytes: &mut Vec<u8>) -> Result<(), Memory> {
    if let [high, low, ..] = part {
        bytes.push(digit(*high).wrapping_mul(16).wrapping_add(digit(*low)))?;
    }
    for byte in part.iter().skip(2) {
        bytes.push(*byte)?;
    }
    Ok(())
}

fn digit(byte: u8) -> u8 {
    match byte {
        b'a'..=b'f' => byte.wrapping_sub(87),
        _ => byte.wrapping_sub(48),
    }
}

// The text, in which what stands between braces comes so many times.
fn add_repeats(text: &str, times: usize, bytes: &mut Vec<u8>) -> Result<(), Memory> {
    for (number, part) in text.split('{').enumerate() {
        match part.split_once('}') {
            Some((inner, rest)) if number > 0 => {
                add_times(inner, times, bytes)?;
                bytes.extend_from_slice(rest.as_bytes())?;
            }
            _ => bytes.extend_from_slice(part.as_bytes())?,
        }
    }
    Ok(())
}

// The text so many times; the sign # in it is the number of the time, from 1.
fn add_times(inner: &str, times: usize, bytes: &mut Vec<u8>) -> Result<(), Memory> {
    for number in 0..times {
        for (at, piece) in inner.split('#').enumerate() {
            if at > 0 {
                Num::new(number as i128 + 1, 0).print(bytes)?;
            }
            bytes.extend_from_slice(piece.as_bytes())?;
        }
    }
    Ok(())
}

/// The script with another before it, whose line ends are spaces: so the lines of the script keep their numbers.
pub(crate) fn joined(alloc: Global, base: &[u8], script: &[u8]) -> Result<Vec<u8>, Memory> {
    let mut bytes = Vec::new(alloc);
    for byte in base {
        bytes.push(if *byte == b'\n' { b' ' } else { *byte })?;
    }
    bytes.push(b' ')?;
    bytes.extend_from_slice(script)?;
    Ok(bytes)
}
