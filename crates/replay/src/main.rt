// Runs the oracle's stored answers against the library, and prints a line for each operation's file
// with the number of answers that were compared and that differ. A difference prints its line.
#![tactic(auto)]

mod compare;
mod scan;

use answers::Operation;
use compare::holds;
use scan::Scan;
use std::fs::File;
use std::io::{Read, Write};
use transfer::fail;

// How many lines were compared, and how many of them differ.
#[derive(Clone, Copy, Debug, Default, PartialEq, Eq)]
struct Tally {
    lines: u64,
    differ: u64,
}

// Compares the lines that end in some bytes.
fn compare_lines<O: Operation, W: Write>(
    out: &mut W,
    bytes: &[u8],
    scan: &mut Scan,
    tally: &mut Tally,
) {
    for byte in bytes {
        if scan.take(*byte) {
            tally.lines = tally.lines.wrapping_add(1);
            // A closure: the borrow checker does not cover `holds::<O>` passed by its name.
            if !scan.line().is_some_and(|line| holds::<O>(line)) {
                tally.differ = tally.differ.wrapping_add(1);
                scan.print(out);
            }
            scan.clear();
        }
    }
}

// A proved loop has to end, and nothing says that a file does: the turns are counted up to a number
// that no run reaches.
fn compare_all<O: Operation, W: Write>(out: &mut W, file: &mut File) -> Tally {
    let mut buf = [0u8; 65536];
    let mut scan = Scan::new();
    let mut tally = Tally::default();
    for _ in 0..u64::MAX {
        let n = file.read(&mut buf).unwrap_or(0);
        if n == 0 {
            break;
        }
        compare_lines::<O, W>(out, &buf[..n], &mut scan, &mut tally);
    }
    tally
}

// A write that fails is not told: what stands on standard output is short of it.
fn replay<O: Operation>(rt: &HostRuntime) {
    match File::open(rt, O::FILE) {
        Ok(mut file) => {
            let mut out = rt.stdout();
            let tally = compare_all::<O, _>(&mut out, &mut file);
            let _ = writeln!(
                out,
                "{}: {} compared, {} differ",
                O::FILE,
                tally.lines,
                tally.differ
            );
        }
        Err(error) => fail(&mut rt.stderr(), O::FILE.as_bytes(), &error),
    }
}

fn main(rt: HostRuntime) {
    replay::<answers::Sqrt>(&rt);
    replay::<answers::Narrow>(&rt);
    replay::<answers::RoundProduct>(&rt);
    replay::<answers::Cross>(&rt);
    replay::<answers::Normalize>(&rt);
    replay::<answers::CoordinateSystem>(&rt);
    replay::<answers::Inverse>(&rt);
    replay::<answers::TransformPoint>(&rt);
    replay::<answers::TransformRayError>(&rt);
    replay::<answers::TransformBounds>(&rt);
    replay::<answers::SwapsHandedness>(&rt);
    replay::<answers::LookAt>(&rt);
    replay::<answers::Corners>(&rt);
    replay::<answers::Area>(&rt);
    replay::<answers::Price>(&rt);
    replay::<answers::ObjectBound>(&rt);
    replay::<answers::WorldBound>(&rt);
    replay::<answers::CreateCurveShape>(&rt);
    replay::<answers::Intersect>(&rt);
    replay::<answers::Nearest>(&rt);
}
