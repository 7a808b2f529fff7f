// The library's answers of matrices and transforms.
use crate::answer::Answer;
use crate::inputs::Inputs;
use crate::operation::Operation;

#[derive(Clone, Copy, Debug)]
pub struct Inverse;

impl Operation for Inverse {
    const FILE: &'static str = "inverse.txt";

    fn answer(inputs: &mut Inputs<'_>, out: &mut Answer) -> Option<()> {
        out.matrix(inputs.matrix()?.inverse())
    }
}

#[derive(Clone, Copy, Debug)]
pub struct TransformPoint;

impl Operation for TransformPoint {
    const FILE: &'static str = "transform_point.txt";

    fn answer(inputs: &mut Inputs<'_>, out: &mut Answer) -> Option<()> {
        let m = inputs.matrix()?;
        let moved = transform::transform_point(m, inputs.point()?);
        out.option(moved, Answer::point)
    }
}

#[derive(Clone, Copy, Debug)]
pub struct TransformRayError;

impl Operation for TransformRayError {
    const FILE: &'static str = "transform_ray_error.txt";

    fn answer(inputs: &mut Inputs<'_>, out: &mut Answer) -> Option<()> {
        let m = inputs.matrix()?;
        let moved = transform::transform_ray_error(m, inputs.ray()?);
        out.option(moved, |out, r| {
            out.ray(r.ray)?;
            out.vector(r.o_error)?;
            out.vector(r.d_error)
        })
    }
}

#[derive(Clone, Copy, Debug)]
pub struct TransformBounds;

impl Operation for TransformBounds {
    const FILE: &'static str = "transform_bounds.txt";

    const IS_BOX: bool = true;

    fn answer(inputs: &mut Inputs<'_>, out: &mut Answer) -> Option<()> {
        let m = inputs.matrix()?;
        let moved = transform::transform_bounds(m, inputs.bounds()?);
        out.option(moved, Answer::bounds)
    }
}

#[derive(Clone, Copy, Debug)]
pub struct SwapsHandedness;

impl Operation for SwapsHandedness {
    const FILE: &'static str = "swaps_handedness.txt";

    fn answer(inputs: &mut Inputs<'_>, out: &mut Answer) -> Option<()> {
        out.word(u32::from(transform::swaps_handedness(inputs.matrix()?)))
    }
}

#[derive(Clone, Copy, Debug)]
pub struct LookAt;

impl Operation for LookAt {
    const FILE: &'static str = "look_at.txt";

    fn answer(inputs: &mut Inputs<'_>, out: &mut Answer) -> Option<()> {
        let pos = inputs.point()?;
        let look = inputs.point()?;
        let view = transform::look_at(pos, look, inputs.vector()?);
        out.option(view, |out, t| {
            out.matrix(t.m)?;
            out.matrix(t.m_inv)
        })
    }
}
