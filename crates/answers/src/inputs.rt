// The inputs of a line, each read behind the one before. What the line has no more of is None.
use curve::FLOATS;
use geometry::{Bounds3f, Point3f, RAY_FLOATS, Ray, Vector3f, ray_from};
use matrix::{MATRIX_FLOATS, Matrix4x4};

// The words of a line that are not read yet.
#[derive(Clone, Copy, Debug, PartialEq, Eq)]
pub struct Inputs<'a> {
    pub rest: &'a [u32],
}

impl Inputs<'_> {
    pub(crate) fn word(&mut self) -> Option<u32> {
        let (word, rest) = self.rest.split_first()?;
        self.rest = rest;
        Some(*word)
    }

    pub(crate) fn float(&mut self) -> Option<f32> {
        Some(float::of_bits(self.word()?))
    }

    // As many floats as a list has.
    pub(crate) fn fill(&mut self, list: &mut [f32]) -> Option<()> {
        for x in list {
            *x = self.float()?;
        }
        Some(())
    }

    fn floats<const N: usize>(&mut self) -> Option<[f32; N]> {
        let mut floats = [0.0; N];
        self.fill(&mut floats)?;
        Some(floats)
    }

    pub(crate) fn vector(&mut self) -> Option<Vector3f> {
        Some(Vector3f::from(self.point()?))
    }

    pub(crate) fn point(&mut self) -> Option<Point3f> {
        Some(Point3f {
            x: self.float()?,
            y: self.float()?,
            z: self.float()?,
        })
    }

    pub(crate) fn bounds(&mut self) -> Option<Bounds3f> {
        Some(Bounds3f {
            p_min: self.point()?,
            p_max: self.point()?,
        })
    }

    pub(crate) fn ray(&mut self) -> Option<Ray> {
        Some(ray_from(&self.floats::<RAY_FLOATS>()?, 0))
    }

    pub(crate) fn matrix(&mut self) -> Option<Matrix4x4> {
        Some(Matrix4x4::from(&self.floats::<MATRIX_FLOATS>()?))
    }

    pub(crate) fn curve(&mut self) -> Option<[f32; FLOATS]> {
        self.floats::<FLOATS>()
    }
}
