//! A source read whole, and a text written whole.

ghost use Rattle.std.specs.Prelude.{◌≡◌, ◌≤◌, ◌<◌, length, IfOk, OnOk, OnErr, IsErrOf, vec_len};
ghost use Rattle.std.specs.Io.KnownBytes.{Appends};
ghost use Rattle.kt_base.specs.Causes.{Rose, HasCause};
ghost use Rattle.kt_streams.specs.Outside.{Reads, WritesFront, Gains};

use kt_base::{Failed, NoMemory, Sink, Source};
use std::alloc::Global;
use thiserror::Error;

/// Why a source was not read.
#[derive(Clone, Copy, Debug, PartialEq, Eq, Error)]
pub enum ReadNo {
    #[error("the source failed")]
    Failed,
    #[error("out of memory")]
    Memory,
}

/// How many bytes are asked for at once.
const PIECE: usize = 65_536;

fn take_more<S: Source>(
    source: &mut S,
    piece: &mut [u8],
    bytes: &mut Vec<u8>,
) -> Result<usize, ReadNo>
    requires { 0 < length piece.old }
    ensures bytes { IfOk result (λ n. Gains (S.left source.old) (S.left source.new) bytes.old.items bytes.new.items n) }
    ensures later { S.faults source.old ≤ S.faults source.new }
    ensures failed { IsErrOf result ReadNo.Failed → Rose (S.faults source.old) (S.faults source.new) }
{
    match source.take(piece) {
        Ok(n) => match bytes.extend_from_slice(&piece[..n]) {
            Ok(()) => Ok(n),
            Err(_) => Err(ReadNo::Memory),
        },
        Err(_) => Err(ReadNo::Failed),
    }
}

// Reads a source in pieces of at most this length, to its end or until so many bytes were read.
fn read_pieces<S: Source>(
    alloc: Global,
    source: &mut S,
    piece: &mut [u8],
    many: usize,
) -> Result<Vec<u8>, ReadNo>
    requires { 0 < length piece.old }
    ensures read { IfOk result (λ bytes. Reads (S.left source.old) (S.left source.new) bytes.items many) }
    ensures later { S.faults source.old ≤ S.faults source.new }
    ensures failed { IsErrOf result ReadNo.Failed → Rose (S.faults source.old) (S.faults source.new) }
{
    let mut bytes = Vec::new(alloc);
    'pieces: while bytes.len() < many {
        let most = piece.len().min(many - bytes.len());
        if take_more(source, &mut piece[..most], &mut bytes)? == 0 {
            return Ok(bytes);
        }
    }
    Ok(bytes)
}

// Room for a piece.
fn new_piece(alloc: Global, len: usize) -> Result<Vec<u8>, NoMemory>
    ensures { IfOk result (λ piece. vec_len piece ≡ len) }
{
    Ok(vec![in alloc; 0u8; len]?)
}

/// Reads a source to its end, or until so many bytes were read.
pub fn read_all<S: Source>(alloc: Global, source: &mut S, many: usize) -> Result<Vec<u8>, ReadNo>
    ensures read { IfOk result (λ bytes. Reads (S.left source.old) (S.left source.new) bytes.items many) }
    ensures later { S.faults source.old ≤ S.faults source.new }
    ensures failed { IsErrOf result ReadNo.Failed → Rose (S.faults source.old) (S.faults source.new) }
{
    match new_piece(alloc, PIECE) {
        Ok(mut piece) => read_pieces(alloc, source, &mut piece, many),
        Err(NoMemory) => Err(ReadNo::Memory),
    }
}

/// Writes a text whole.
pub fn write_all<K: Sink>(sink: &mut K, text: &[u8]) -> Result<(), Failed>
    ensures whole { OnOk result (Appends (K.written sink.old) (K.written sink.new) text.now) }
    ensures front { OnErr result (WritesFront (K.written sink.old) (K.written sink.new) text.now) }
    ensures cause { HasCause (K.faults sink.old) (K.faults sink.new) result }
{
    let mut at = 0;
    while at < text.len() {
        at += sink.put(&text[at..])?;
    }
    Ok(())
}
