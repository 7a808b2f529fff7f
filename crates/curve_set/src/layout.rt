// The layout of the two arrays that a set is lent as. specs/Layout has it for the definitions. C lends the arrays apart and
// keeps what they hold, so a row is a place in both and a kind is a word.

use curve::FLOATS;
use geometry::{RAY_FLOATS, Ray};
use interaction::RECORD_FLOATS;
use matrix::{MATRIX_FLOATS, Matrix4x4};

/// What is the same for all curves of a set.
#[derive(Clone, Copy, Debug, PartialEq)]
pub struct Head {
    pub object_to_world: Matrix4x4,
    pub world_to_object: Matrix4x4,
    pub reverse: bool,
    pub ray: Ray,
}

// How many curves a set has at most.
pub const CURVES: usize = 64;

// The floats begin with both matrices and the ray.
pub const OBJECT_TO_WORLD: usize = 0;

pub const WORLD_TO_OBJECT: usize = OBJECT_TO_WORLD + MATRIX_FLOATS;

pub const RAY: usize = WORLD_TO_OBJECT + MATRIX_FLOATS;

pub const HEAD_FLOATS: usize = RAY + RAY_FLOATS;

// Then, for each curve in the order of adding, its floats, with room for as many as they will be when curves have more, and
// the record of its nearest crossing.
pub const SPARE: usize = 3;

pub const CURVE_ROOM: usize = FLOATS + SPARE;

pub const ROW_FLOATS: usize = CURVE_ROOM + RECORD_FLOATS;

pub const SET_FLOATS: usize = HEAD_FLOATS + CURVES * ROW_FLOATS;

// The words begin with how many curves there are, the place of the nearest, counted from 1 (0: a miss), and the reverse
// flag.
pub const COUNT: usize = 0;

pub const NEAREST: usize = 1;

pub const REVERSE: usize = 2;

pub const HEAD_WORDS: usize = 3;

// Then, for each curve, its number, a mark of the depth rule by which its answer was found (0: this one), and its kind.
pub const NUMBER: usize = 0;

pub const KIND: usize = 2;

pub const ROW_WORDS: usize = 3;

pub const SET_WORDS: usize = HEAD_WORDS + CURVES * ROW_WORDS;

// What the mark and the kind say. A miss is written as 0, and any other kind but a hit's is one too.
pub const THIS_RULE: u32 = 0;

pub const IS_HIT: u32 = 1;
