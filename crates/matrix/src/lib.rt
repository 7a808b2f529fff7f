// `Matrix4x4` of pbrt-rust, src/core/transform.rs: a struct of rows for callers. Its inverse is worked out on sixteen floats, in the crate `inverse`.
// An array of arrays would be no plainer: each place that names an entry, in code and definitions, would owe that it is within it.
#![tactic(auto, unfolding(crate::specs::Matrix::identity, crate::specs::Matrix::flat, crate::specs::Matrix::row_from, crate::specs::Matrix::matrix_from))]

ghost use Rattle.std.specs.Prelude.{◌≡◌, ◌+◌, ◌≤◌, length};
ghost use Rattle.matrix.specs.Matrix.{matrix_floats, identity, flat, row_from, matrix_from, inverse_of};

#[derive(Clone, Copy, Debug, PartialEq)]
pub struct Row {
    pub c0: f32,
    pub c1: f32,
    pub c2: f32,
    pub c3: f32,
}

#[derive(Clone, Copy, Debug, PartialEq)]
pub struct Matrix4x4 {
    pub r0: Row,
    pub r1: Row,
    pub r2: Row,
    pub r3: Row,
}

// How many floats a matrix is.
pub const MATRIX_FLOATS: usize = 16;

// The row whose floats start at a place, and not at a slice's start: over `&s[at..]` the matrix would owe a lemma for each row,
// that place i of the rest is place at + i.
fn row_from(s: &[f32], at: usize) -> Row
    requires { at + 4 ≤ length s.now }
    ensures { result ≡ row_from s.now at }
{
    Row {
        c0: s[at],
        c1: s[at + 1],
        c2: s[at + 2],
        c3: s[at + 3],
    }
}

// The matrix whose floats start at a place, row by row. It asks that they are there: it reads for other crates.
pub fn matrix_from(s: &[f32], at: usize) -> Matrix4x4
    requires { at + matrix_floats ≤ length s.now }
    ensures { result ≡ matrix_from s.now at }
{
    Matrix4x4 {
        r0: row_from(s, at),
        r1: row_from(s, at + 4),
        r2: row_from(s, at + 8),
        r3: row_from(s, at + 12),
    }
}

// All of an array, row by row.
impl From<&[f32; MATRIX_FLOATS]> for Matrix4x4 {
    ghost from_gives = { λ v m. m ≡ matrix_from v.now 0 };

    fn from(v: &[f32; MATRIX_FLOATS]) -> Matrix4x4 {
        matrix_from(v, 0)
    }
}

// And back.
impl From<Matrix4x4> for [f32; MATRIX_FLOATS] {
    ghost from_gives = { λ m v. v ≡ flat m };

    fn from(m: Matrix4x4) -> [f32; MATRIX_FLOATS] {
        [
            m.r0.c0, m.r0.c1, m.r0.c2, m.r0.c3, m.r1.c0, m.r1.c1, m.r1.c2, m.r1.c3, m.r2.c0, m
                .r2
                .c1, m.r2.c2, m.r2.c3, m.r3.c0, m.r3.c1, m.r3.c2, m.r3.c3,
        ]
    }
}

// The identity.
impl Default for Matrix4x4 {
    ghost is_default = { λ m. m ≡ identity };

    fn default() -> Matrix4x4 {
        let r0 = Row {
            c0: 1.0,
            c1: 0.0,
            c2: 0.0,
            c3: 0.0,
        };
        let r1 = Row {
            c0: 0.0,
            c1: 1.0,
            c2: 0.0,
            c3: 0.0,
        };
        let r2 = Row {
            c0: 0.0,
            c1: 0.0,
            c2: 1.0,
            c3: 0.0,
        };
        let r3 = Row {
            c0: 0.0,
            c1: 0.0,
            c2: 0.0,
            c3: 1.0,
        };
        Matrix4x4 { r0, r1, r2, r3 }
    }
}

impl Matrix4x4 {
    pub fn inverse(self) -> Matrix4x4
        ensures { result ≡ inverse_of self }
    {
        let mut v = <[f32; MATRIX_FLOATS]>::from(self);
        inverse::invert(&mut v);
        Matrix4x4::from(&v)
    }
}
