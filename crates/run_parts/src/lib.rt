// What programs share that read their texts from files or from standard input: the bytes, and what the arguments ask for. Assumes nothing.
#![tactic(auto)]

ghost use Rattle.run_parts.specs.Prefixes.{IsPrefixLen};

use read_bytes::numbers::number_at;
use read_names::is_spelled;
use spec_limits::BYTES;
use std::io::Read;
use std::rt::{Env, Files};
use std::{fs, str};

// Of a file over a text's length, enough is read to see that it is.
pub const TEXT: usize = BYTES + 1;

// Reads until the buffer is full, the input ends or a read fails: how many bytes stand at the buffer's start.
pub fn read_full<R: Read>(input: &mut R, buffer: &mut [u8]) -> usize
    ensures { IsPrefixLen result buffer.new }
{
    let mut done = 0;
    while done < buffer.len() {
        let n = input.read(&mut buffer[done..]).unwrap_or(0);
        if n == 0 {
            break;
        }
        done += n;
    }
    done
}

// The file's bytes at the start of the buffer, as far as they fit: how many. A file that can't be read counts as empty.
pub fn read_text<R: Files>(rt: &R, path: &[u8], buffer: &mut [u8]) -> usize
    ensures { IsPrefixLen result buffer.new }
{
    let Ok(name) = str::from_utf8(path) else {
        return 0;
    };
    match fs::open(rt, name) {
        Ok(mut file) => read_full(&mut file, buffer),
        Err(_) => 0,
    }
}

// The number that a text starts with, or 0.
fn number_of(text: &[u8]) -> usize {
    match number_at(text, 0) {
        Some((x, _)) => x,
        None => 0,
    }
}

// How often the first argument asks for a run.
pub fn times_asked(rt: &impl Env) -> usize {
    let mut word = [0u8; 8];
    let n = rt.arg(1, &mut word).unwrap_or(0);
    number_of(&word[..n])
}

// Does the second argument ask for this?
pub fn is_asked(rt: &impl Env, name: &[u8]) -> bool {
    let mut word = [0u8; 8];
    let n = rt.arg(2, &mut word).unwrap_or(0);
    is_spelled(&word[..n], 0, name)
}
