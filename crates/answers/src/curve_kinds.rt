// The library's answers of curves, area, price and boxes, and of any four points, their corners.
use crate::answer::Answer;
use crate::inputs::Inputs;
use crate::operation::Operation;
use bezier::{Cubic, POINTS};

#[derive(Clone, Copy, Debug)]
pub struct Corners;

impl Operation for Corners {
    const FILE: &'static str = "corners.txt";

    // The lower corner, then the upper.
    fn answer(inputs: &mut Inputs<'_>, out: &mut Answer) -> Option<()> {
        let cp = Cubic {
            p0: inputs.point()?,
            p1: inputs.point()?,
            p2: inputs.point()?,
            p3: inputs.point()?,
        };
        let c = bezier::corners_of(&<[f32; POINTS]>::from(cp));
        out.floats(&[c.x.least, c.y.least, c.z.least])?;
        out.floats(&[c.x.greatest, c.y.greatest, c.z.greatest])
    }
}

#[derive(Clone, Copy, Debug)]
pub struct Area;

impl Operation for Area {
    const FILE: &'static str = "area.txt";

    fn answer(inputs: &mut Inputs<'_>, out: &mut Answer) -> Option<()> {
        let curve = inputs.curve()?;
        out.outcome(measure::area(&curve), Answer::float)
    }
}

#[derive(Clone, Copy, Debug)]
pub struct Price;

impl Operation for Price {
    const FILE: &'static str = "price.txt";

    fn answer(inputs: &mut Inputs<'_>, out: &mut Answer) -> Option<()> {
        let curve = inputs.curve()?;
        let cents = measure::price(&curve, inputs.word()?);
        out.outcome(cents, Answer::word)
    }
}

#[derive(Clone, Copy, Debug)]
pub struct ObjectBound;

impl Operation for ObjectBound {
    const FILE: &'static str = "object_bound.txt";

    const IS_BOX: bool = true;

    fn answer(inputs: &mut Inputs<'_>, out: &mut Answer) -> Option<()> {
        let curve = inputs.curve()?;
        out.outcome(measure::object_bound(&curve), Answer::bounds)
    }
}

#[derive(Clone, Copy, Debug)]
pub struct WorldBound;

impl Operation for WorldBound {
    const FILE: &'static str = "world_bound.txt";

    const IS_BOX: bool = true;

    fn answer(inputs: &mut Inputs<'_>, out: &mut Answer) -> Option<()> {
        let curve = inputs.curve()?;
        let bounds = measure::world_bound(&curve, inputs.matrix()?);
        out.outcome(bounds, Answer::bounds)
    }
}
