// Prints the report of each stored sheet, under its name.
#![tactic(auto)]

use printer::print_sheet;
use std::fs::File;
use std::io::{Stderr, Stdout, Write};
use transfer::fail;

// Belts and their beams.
const CURVES: [&str; 7] = [
    "straight.sheet",
    "three-crossings.sheet",
    "spiral.sheet",
    "zero.sheet",
    "deep.sheet",
    "no-pieces.sheet",
    "split10.sheet",
];

// Each refusal of a beam that a sheet can reach.
const REFUSED_RAYS: [&str; 7] = [
    "refused_11.sheet",
    "refused_13.sheet",
    "refused_14.sheet",
    "width100.sheet",
    "refused_15_at_zero.sheet",
    "refused_16.sheet",
    "refused_16_direction.sheet",
];

// Each refusal of laying that a sheet can reach.
const REFUSED_CURVES: [&str; 10] = [
    "refused_1.sheet",
    "refused_3.sheet",
    "refused_22.sheet",
    "refused_22_before_4.sheet",
    "refused_4.sheet",
    "refused_4_before_5.sheet",
    "split11.sheet",
    "refused_6.sheet",
    "refused_7.sheet",
    "refused_7_wide.sheet",
];

// A wrong line of each kind.
const WRONG_LINES: [&str; 10] = [
    "empty.sheet",
    "wrong_line_1.sheet",
    "wrong_line_2.sheet",
    "wrong_line_3.sheet",
    "wrong_line_4.sheet",
    "wrong_line_5.sheet",
    "wrong_line_6.sheet",
    "wrong_line_7.sheet",
    "wrong_line_8.sheet",
    "wrong_line_12.sheet",
];

// Lines that are missing, or are too many.
const WRONG_ENDS: [&str; 5] = [
    "missing_line_8.sheet",
    "beam_before_points.sheet",
    "point_after_beam.sheet",
    "beams_65.sheet",
    "last_line_without_lf.sheet",
];

// Reads at most one byte more than a sheet may have. A write that fails is not told here: what stands
// on standard output is short of it.
fn print_file(out: &mut Stdout, err: &mut Stderr, file: &mut File, path: &str) {
    let mut bytes = [0u8; 65537];
    let n = transfer::read(file, &mut bytes).done;
    let _ = writeln!(out, "{path}:");
    print_sheet(out, err, &bytes[..n]);
}

fn run(rt: &HostRuntime, paths: &[&str]) {
    for path in paths {
        match File::open(rt, path) {
            Ok(mut file) => print_file(&mut rt.stdout(), &mut rt.stderr(), &mut file, path),
            Err(error) => fail(&mut rt.stderr(), path.as_bytes(), &error),
        }
    }
}

fn main(rt: HostRuntime) {
    run(&rt, &CURVES);
    run(&rt, &REFUSED_RAYS);
    run(&rt, &REFUSED_CURVES);
    run(&rt, &WRONG_LINES);
    run(&rt, &WRONG_ENDS);
}
