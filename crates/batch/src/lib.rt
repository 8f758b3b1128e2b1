// What the programs share: an input read until a buffer is full, and many files in one input, each after its length in four bytes, the
// highest first.
#![tactic(auto)]

ghost use Rattle.std.specs.Prelude.{◌<◌, ◌≤◌, ◌≡◌, ◌⊎◌, IfErr, IfOk, Ok, Err, OnOk, length, take, drop};
ghost use Rattle.std.specs.Fn.{CalledAt};
ghost use Rattle.std.specs.Io.KnownBytes.{Consumes, IsAtEnd};
ghost use Rattle.batch.specs.Files.{Visited};
ghost use Rattle.batch.specs.Unread.{VisitedBefore};
ghost use Rattle.batch.specs.Input.{LosesFront, LosesCount, end_of_input, LengthOrEnd, LengthRead, LengthGiven, IsPrefixLen, FileRead, FileGiven};
ghost use Rattle.batch.specs.declared.Stopped.TheVariants.{Write};

use std::io;
use std::io::Read;

// No file is so long: what next_length answers at the end of the input.
const END: usize = usize::MAX;

// What for_each has room for.
const MOST_BYTES: usize = 100_000;

/// A read that failed, also one that a signal interrupts, and how many bytes had come before it. The bytes themselves are in the buffer
/// of the caller.
#[derive(Drop)]
pub struct Cut {
    pub count: usize,
    pub error: io::Error,
}

/// Why a program that reads an input and prints what it finds has not printed all of it.
#[derive(Drop)]
pub enum Stopped {
    Read(Cut),
    Write(io::Error),
}

/// Reads until `buf` is full or the input ends, and answers how many bytes it put to the front of `buf`. The reader has lost these bytes
/// and no others, also where a read fails.
pub fn read_full<R: Read>(input: &mut R, buf: &mut [u8]) -> Result<usize, Cut>
    ensures bytes { IfOk result (LosesFront (R.remaining input.old) (R.remaining input.new) buf.new) }
    ensures end { IfOk result (λ n. n < length buf.new → IsAtEnd (R.remaining input.new)) }
    ensures failed { IfErr result (λ cut. LosesFront (R.remaining input.old) (R.remaining input.new) buf.new cut.count) }
{
    // By hand, since std's `read_exact` and `read_to_end` say nothing of what a read that fails has left.
    let mut done = 0;
    while done < buf.len() {
        let n = match input.read(&mut buf[done..]) {
            Ok(n) => n,
            Err(error) => return Err(Cut { count: done, error }),
        };
        if n == 0 {
            return Ok(done);
        }
        done += n;
    }
    Ok(done)
}

/// The length before the next file; none at the end of the input, where fewer than its four bytes are left.
pub fn try_next_length<R: Read>(input: &mut R) -> Result<Option<usize>, Cut>
    ensures length { IfOk result (LengthGiven (R.remaining input.old) (R.remaining input.new)) }
    ensures failed { IfErr result (λ cut. (cut.count ≤ 4) × LosesCount (R.remaining input.old) (R.remaining input.new) cut.count) }
{
    let mut head = [0u8; 4];
    let n = read_full(input, &mut head)?;
    if n < 4 {
        return Ok(None);
    }
    Ok(Some(u32::from_be_bytes(head) as usize))
}

/// Reads the next `wanted` bytes to the front of `buf`, and answers how many there were; none, and nothing is read, where `buf` is
/// shorter. What `buf` holds between that count and `wanted` is not said: a read may leave anything there. `wanted` is given beside `buf`,
/// since the caller has one buffer for files of any length, and a file that is too long for it is no error.
pub fn try_read_file<R: Read>(
    input: &mut R,
    wanted: usize,
    buf: &mut [u8],
) -> Result<Option<usize>, Cut>
    ensures given { IfOk result (FileGiven wanted (R.remaining input.old) (R.remaining input.new) buf.old buf.new) }
    ensures rest { drop wanted buf.new ≡ drop wanted buf.old }
    ensures failed { IfErr result (λ cut. (wanted ≤ length buf.old) × (cut.count ≤ wanted)
        × LosesFront (R.remaining input.old) (R.remaining input.new) buf.new cut.count) }
{
    if buf.len() < wanted {
        return Ok(None);
    }
    let count = read_full(input, &mut buf[..wanted])?;
    Ok(Some(count))
}

/// The length before the next file; at the end of the input, and where a read fails, one that no buffer has.
pub fn next_length<R: Read>(input: &mut R) -> usize
    ensures range { LengthOrEnd result }
    ensures bytes { (result ≡ end_of_input) ⊎ LengthRead (R.remaining input.old) (R.remaining input.new) result }
{
    match try_next_length(input) {
        Ok(Some(length)) => length,
        Ok(None) | Err(_) => END,
    }
}

/// Reads the next so many bytes to the front of `buf`, and answers how many there were, also where a read fails; 0, and nothing is read,
/// where `buf` is shorter. What `buf` holds between that count and `length` is not said: a read may leave anything there.
pub fn read_file<R: Read>(input: &mut R, length: usize, buf: &mut [u8]) -> usize
    ensures count { IsPrefixLen result buf.new }
    ensures read { FileRead length result buf.old buf.new }
    ensures bytes { Consumes (R.remaining input.old) (R.remaining input.new) (take result buf.new) }
{
    if buf.len() < length {
        return 0;
    }
    match read_full(input, &mut buf[..length]) {
        Ok(count) => count,
        Err(cut) => cut.count,
    }
}

/// Calls `visit` with each file in turn; of a file that the input or a failed read cuts short, with what there is. It ends well where the
/// input does, or a file has more than 100,000 bytes. After an error, of a read or of `visit`, no file is read.
pub fn for_each<R: Read, F: FnMut(&[u8]) -> io::Result<()>>(
    input: &mut R,
    mut visit: F,
) -> Result<(), Stopped>
    requires { F.IsAlwaysCallable visit }
    ensures visited { OnOk result (Visited (λ f file g. CalledAt F.FnMut f file (Ok tt) g) visit (R.remaining input.old)) }
    ensures unread { IfErr result (VisitedBefore (λ f file g. CalledAt F.FnMut f file (Ok tt) g) visit (R.remaining input.old) (R.remaining input.new)) }
    ensures stopped { IfErr result (λ stopped. (error : _) → stopped ≡ Write error → (state : F) × (file : _) × F.post state file (Err error)) }
{
    let mut buf = [0u8; MOST_BYTES];
    // A proved loop has to end, and nothing says that the input does. No run uses up the turns.
    for _ in 0..u64::MAX {
        let wanted = match try_next_length(input) {
            Ok(None) => return Ok(()),
            Ok(Some(wanted)) => wanted,
            Err(cut) => return Err(Stopped::Read(cut)),
        };
        match try_read_file(input, wanted, &mut buf) {
            Ok(None) => return Ok(()),
            Ok(Some(count)) => visit(&buf[..count]).map_err(Stopped::Write)?,
            Err(cut) => {
                visit(&buf[..cut.count]).map_err(Stopped::Write)?;
                return Err(Stopped::Read(cut));
            }
        }
    }
    Ok(())
}
