// Standard input as names and decimal numbers with one byte behind each, and as bytes. Any input is read: a number over the greatest usize
// counts as that one, and the end of the input ends a name and a number too.
ghost use Rattle.std.specs.Prelude.{◌≡◌, ◌≤◌, IfOk, min};
ghost use Rattle.cases.specs.Slices.{filled, Front, Taken};
ghost use denote.MutBor.{as_bor};

use crate::output::Output;
use std::io::{self, BufRead, BufReader, Read, Stdin, Write};

// Standard input, which every function that reads is handed.
pub type Input = BufReader<Stdin>;

// A number, and the byte behind it: none where the input ended.
#[derive(Clone, Copy)]
pub struct Number {
    pub value: usize,
    pub behind: Option<u8>,
}

// The next byte, where there is one.
fn next_byte(input: &mut Input) -> io::Result<Option<u8>> {
    let mut one = [0; 1];
    let got = input.read(&mut one)?;
    Ok(one[..got].first().copied())
}

// The digit that a byte is.
fn digit(byte: u8) -> Option<usize> {
    match byte {
        b'0'..=b'9' => Some(usize::from(byte - b'0')),
        _ => None,
    }
}

// The digits up to the first byte that is none, which is taken too. The loop counts, since nothing says that the digits end.
pub fn number_or_end(input: &mut Input) -> io::Result<Number> {
    let mut value = 0usize;
    for _ in 0..u64::MAX {
        let behind = next_byte(input)?;
        let Some(more) = behind.and_then(digit) else {
            return Ok(Number { value, behind });
        };
        value = value.saturating_mul(10).saturating_add(more);
    }
    Ok(Number {
        value,
        behind: None,
    })
}

pub fn next_number(input: &mut Input) -> io::Result<usize> {
    let n = number_or_end(input)?;
    Ok(n.value)
}

// The number as a word; one over 65,535 counts as that.
pub fn narrow(value: usize) -> u16
    ensures { result ≡ min value 65535 }
{
    u16::try_from(value).unwrap_or(u16::MAX)
}

// How many others follow. A number over 65,535 counts as 65,535, so that whoever reads so many comes to an end soon.
pub fn next_count(input: &mut Input) -> io::Result<usize>
    ensures { IfOk result (λ n. n ≤ 65535) }
{
    let n = next_number(input)?;
    Ok(usize::from(narrow(n)))
}

// Takes the name of a case, its `=` too, and copies it to standard output. The loop counts as that of `number_or_end` does.
pub fn copy_name(input: &mut Input, output: &mut Output) -> io::Result<()> {
    for _ in 0..u64::MAX {
        let Some(byte) = next_byte(input)? else {
            return Ok(());
        };
        output.write_all(&[byte])?;
        if byte == b'=' {
            return Ok(());
        }
    }
    Ok(())
}

// Takes the rest of a line of which `taken` was the last byte that was taken: nothing where that ended the line.
pub fn skip_line(input: &mut Input, taken: u8) -> io::Result<()> {
    if taken != b'\n' {
        input.skip_until(b'\n')?;
    }
    Ok(())
}

// Puts a word to the offsets from `from` up to `to`, as far as there are any.
pub fn fill(ws: &mut [u16], from: usize, to: usize, word: u16)
    ensures { ws.new ≡ filled ws.old from to word }
{
    let end = to.min(ws.len());
    if from < end {
        ws[from..end].fill(word);
    }
}

// The first `n` words, or all where there are fewer.
pub fn front(ws: &[u16], n: usize) -> &[u16]
    ensures { Front ws.entry n result }
{
    let end = n.min(ws.len());
    &ws[..end]
}

// The same of a slice that is written: a function of its own, since a reference says whether it writes.
pub fn front_mut(ws: &mut [u16], n: usize) -> &mut [u16]
    ensures { Front (as_bor ws.entry) n (as_bor result) }
{
    let end = n.min(ws.len());
    &mut ws[..end]
}

// How many words follow, and these, which are put to the front of `room`. A word that has no place there is dropped.
pub fn next_words<'a>(input: &mut Input, room: &'a mut [u16]) -> io::Result<&'a [u16]>
    ensures { IfOk result (λ ws. Taken (as_bor room.entry) 65535 ws) }
{
    let n = next_count(input)?;
    for i in 0..n {
        let word = narrow(next_number(input)?);
        if let Some(place) = room.get_mut(i) {
            *place = word;
        }
    }
    Ok(front(room, n))
}

// The next `n` bytes, whatever they are, which are put to the front of `room`: fewer where the input ends or there is no more room. They are not read one by one, since they may be many.
// The library says nothing of how many were read, so that there are no more is said here.
pub fn next_bytes<'a>(input: &mut Input, room: &'a mut [u8], n: usize) -> io::Result<&'a [u8]>
    ensures { IfOk result (λ bytes. Taken (as_bor room.entry) n bytes) }
{
    let most = n.min(room.len());
    let read = io::copy(&mut input.by_ref().take(most as u64), &mut &mut room[..])?;
    Ok(&room[..most.min(read as usize)])
}
