// The line of a reading: R and the number of the refusal; or C and every field of the case in the order of the struct, the arrays whole;
// after them, where the part that holds the rates begins, its length and a hash of its bytes.
use super::row::row;
use fields::amounts::amounts_in_order;
use fields::shocks::shocks_in_order;
use heldcase::Case;
use heldcase::flows::Flows;
use std::io;
use std::io::Write;

// How many there are, the flows, and a 0 for each more that there could be.
fn print_flows<W: Write, const MOST: usize>(out: &mut W, flows: &Flows<MOST>) -> io::Result<()> {
    let given = flows.as_slice();
    let zeros: &[u64] = &[0; MOST];
    row(out, &[given.len() as u64])?;
    row(out, given)?;
    row(out, &zeros[given.len()..])
}

fn print_case<W: Write>(out: &mut W, c: Case) -> io::Result<()> {
    row(out, &[c.ufr, c.per_step])?;
    row(out, &c.sums)?;
    print_flows(out, &c.pension)?;
    print_flows(out, &c.bonds)?;
    row(out, &amounts_in_order(&c.amounts))?;
    row(out, &shocks_in_order(&c.shocks))?;
    let shocks = c.shocks;
    row(
        out,
        &[shocks.spread, shocks.duration, shocks.equity_correlation],
    )?;
    let people = c.people;
    row(out, &[people.heads, people.pension_age, people.mean_age])
}

// Takes in one byte more. The place of each byte counts.
fn hashed(hash: u64, byte: u8) -> u64 {
    (hash % 1_000_003) * 257 + byte as u64
}

fn hash_of(part: &[u8]) -> u64 {
    let mut hash = 0;
    for byte in part {
        hash = hashed(hash, *byte);
    }
    hash
}

// Where the part begins is what a host is told, its bytes are those of the slice. A refused file has an empty part at 0.
fn print_part<W: Write>(out: &mut W, file: &[u8]) -> io::Result<()> {
    let part = reader::file::rates_part(file);
    let place = flat::part::rates_place(file);
    row(
        out,
        &[place.offset as u64, part.len() as u64, hash_of(part)],
    )?;
    out.write_all(b"\n")
}

pub(super) fn print_reading<W: Write>(out: &mut W, file: &[u8]) -> io::Result<()> {
    match reader::file::read(file) {
        Err(refusal) => {
            out.write_all(b"R")?;
            row(out, &[refusal.number() as u64])?;
        }
        Ok(reading) => {
            out.write_all(b"C")?;
            print_case(out, reading.case)?;
        }
    }
    print_part(out, file)
}
