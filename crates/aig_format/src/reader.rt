//! Reading a file.
ghost use Rattle.std.specs.Prelude.{◌≡◌, ◌≢◌, ℕ, List, Some, Err, false, IfErr, IfOk};
ghost use Rattle.aig_base.specs.Circuit.{IsCircuit};
ghost use Rattle.aig_base.specs.FirstFault.{IsFirstFault};
ghost use Rattle.aig_base.specs.Renumbered.{IsBinaryReady};
ghost use Rattle.aig_parts.specs.Formed.{IsFormed};
ghost use Rattle.aig_parts.specs.declared.raw.Raw.{Raw};
ghost use Rattle.aig_format.specs.declared.reader.header.Format.TheVariants.{Binary};
ghost use Rattle.aig_format.specs.Header.{are_wrong};
ghost use Rattle.aig_format.specs.state.HeaderCounts.{AreWithin, in_line};
ghost use Rattle.aig_format.specs.state.ReaderAnswers.{AnswersRead};
ghost use Rattle.aig_format.specs.state.Reads.{ReadsAs};
ghost use Rattle.aig_format.specs.FileReading.{IsReading, Raises};
ghost use Rattle.aig_format.specs.Formats.{IsInFormat, without_format};
ghost use Rattle.aig_format.specs.Spells.{Spells};
ghost use Rattle.aig_format.specs.state.ReadingFile.{body_at, file_at};

mod ascii;
mod binary;
mod buffered_numbers;
mod delta;
pub(crate) mod header;
mod line;
mod section;
mod slice;
mod source;
mod stream;
mod symbol;
mod token;
mod token_fault;

use crate::reader::ascii::ascii_body;
use crate::reader::binary::binary_body;
use crate::reader::header::{Counts, Format, header};
use crate::reader::slice::Slice;
use crate::reader::source::Source;
use crate::reader::stream::Stream;
use aig_base::{Circuit, Fault, Raw, Read};
use std::alloc::Global;

/// All that follows the header line.
fn body<S: Source>(alloc: Global, s: &mut S, format: Format, counts: &Counts) -> Result<Raw, Fault>
    requires within { AreWithin counts.now }
    requires right { are_wrong format (in_line counts.now) ≡ false }
    ensures reads { ReadsAs S.Source s.old s.new (λ x. x) result (body_at format counts.now) }
    ensures formed { IfOk result IsFormed }
    ensures ready { format ≡ Binary → IfOk result IsBinaryReady }
{
    match format {
        Format::Ascii => ascii_body(alloc, s, counts),
        Format::Binary => binary_body(alloc, s, counts),
    }
}

/// The parts that the bytes left spell, all of them, and their format.
#[tactic(auto, unfolding(crate::specs::state::ReadingFile::file_at))]
fn file<S: Source>(alloc: Global, s: &mut S) -> Result<(Format, Raw), Fault>
    ensures bytes { S.reports s.old → AnswersRead (λ x. x.1) result (file_at (S.left s.old)) }
    ensures format { S.reports s.old → IfOk result
        (λ x. (raw : Raw) → Spells (S.left s.old) raw → IsInFormat x.0 (S.left s.old) raw) }
    ensures formed { IfOk result (λ x. IsFormed x.1) }
    ensures ready { IfOk result (λ x. x.0 ≡ Binary → IsBinaryReady x.1) }
    ensures reader { S.reader s.new ≡ S.reader s.old }
    ensures failures { Raises result (S.failures s.old) (S.failures s.new) }
{
    let (format, counts) = header(s)?;
    if counts.are_wrong(format) {
        return Err(Fault::Counts);
    }
    let raw = body(alloc, s, format, &counts)?;
    Ok((format, raw))
}

/// The circuit of parts that were read in this format, or their first fault. Those of a binary file are in order, so
/// its gates are not looked at again.
fn checked(alloc: Global, format: Format, raw: Raw) -> Result<Circuit, Fault>
    requires formed { IsFormed raw }
    requires ready { format ≡ Binary → IsBinaryReady raw }
    ensures parts { IfOk result (λ circuit. circuit ≡ raw) }
    ensures circuit { IfOk result IsCircuit }
    ensures fault { IfErr result (λ fault. fault ≢ Fault.Memory → IsFirstFault raw fault) }
{
    match format {
        Format::Ascii => Circuit::check(alloc, raw),
        Format::Binary => Circuit::check_ready(raw),
    }
}

/// The circuit that the bytes left spell, all of them, and their format.
fn circuit_with_format<S: Source>(alloc: Global, s: &mut S) -> Result<(Format, Circuit), Fault>
    ensures answers { S.reports s.old → result ≢ Err Fault.Io → IsReading (S.left s.old) (without_format result) }
    ensures format { S.reports s.old → IfOk result (λ x. IsInFormat x.0 (S.left s.old) x.1) }
    ensures circuit { IfOk result (λ x. IsCircuit x.1) }
    ensures reader { S.reader s.new ≡ S.reader s.old }
    ensures failures { Raises result (S.failures s.old) (S.failures s.new) }
{
    let (format, raw) = file(alloc, s)?;
    let circuit = checked(alloc, format, raw)?;
    Ok((format, circuit))
}

/// The circuit of a file, ASCII or binary as its first word says (AIGER 1.0; AIGER 1.9 for resets and properties).
///
/// It tries the faults in this order. First comes the first token of the header line that is refused (`Text` with its
/// place, or `Limit`), then counts that do not go together. Then come the first token of the body that is refused, and
/// the faults of the parts. It never answers `Io`. Lists grow with what was read: no count of the header reserves
/// anything while the file is read. Linear in the file and its greatest variable.
pub fn read(alloc: Global, bytes: &[u8]) -> Result<Circuit, Fault>
    ensures answers { IsReading bytes.now result }
    ensures circuit { IfOk result IsCircuit }
    ensures io { result ≢ Err Fault.Io }
{
    let mut source = Slice::new(bytes);
    let (_, circuit) = circuit_with_format(alloc, &mut source)?;
    Ok(circuit)
}

/// What `read` answers for the bytes that the reader holds, or `Io` where a read failed, which ends it.
///
/// It reads through an array of 32,768 bytes: it makes no read that the answer does not need, and none after one that
/// gave the end. Bytes of the last block that the answer does not need are taken from the reader too.
pub fn read_from<R: Read>(alloc: Global, reader: &mut R) -> Result<Circuit, Fault>
    ensures answers { (bytes : List ℕ) → R.left reader.old ≡ Some bytes → result ≢ Err Fault.Io
        → IsReading bytes result }
    ensures circuit { IfOk result IsCircuit }
    // It answers `Io` where a read failed, and then only.
    ensures io { Raises result (R.failures reader.old) (R.failures reader.new) }
{
    let (_, circuit) = read_with_format(alloc, reader)?;
    Ok(circuit)
}

/// What `read_from` answers, and the format of the file.
pub fn read_with_format<R: Read>(alloc: Global, reader: &mut R) -> Result<(Format, Circuit), Fault>
    ensures answers { (bytes : List ℕ) → R.left reader.old ≡ Some bytes → result ≢ Err Fault.Io
        → IsReading bytes (without_format result) }
    ensures format { (bytes : List ℕ) → R.left reader.old ≡ Some bytes
        → IfOk result (λ x. IsInFormat x.0 bytes x.1) }
    ensures circuit { IfOk result (λ x. IsCircuit x.1) }
    // It answers `Io` where a read failed, and then only.
    ensures io { Raises result (R.failures reader.old) (R.failures reader.new) }
{
    let mut stream = Stream::new(reader);
    circuit_with_format(alloc, &mut stream)
}
