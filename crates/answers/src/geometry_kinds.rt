// The library's answers of floats and vectors.
use crate::answer::{Answer, DONE};
use crate::inputs::Inputs;
use crate::operation::Operation;
use float::Ties;

#[derive(Clone, Copy, Debug)]
pub struct Sqrt;

impl Operation for Sqrt {
    const FILE: &'static str = "sqrt.txt";

    fn answer(inputs: &mut Inputs<'_>, out: &mut Answer) -> Option<()> {
        out.float(float::sqrt(inputs.float()?))
    }
}

#[derive(Clone, Copy, Debug)]
pub struct Narrow;

impl Operation for Narrow {
    const FILE: &'static str = "narrow.txt";

    fn answer(inputs: &mut Inputs<'_>, out: &mut Answer) -> Option<()> {
        let high = u64::from(inputs.word()?);
        let bits = high << 32 | u64::from(inputs.word()?);
        out.float(float::narrow(std::num::f64_from_bits_with_nan(bits)))
    }
}

// The status of a product that a u32 does not hold.
const BEYOND: u32 = 1;

#[derive(Clone, Copy, Debug)]
pub struct RoundProduct;

impl Operation for RoundProduct {
    const FILE: &'static str = "round_product.txt";

    fn answer(inputs: &mut Inputs<'_>, out: &mut Answer) -> Option<()> {
        let x = inputs.float()?;
        let factor = inputs.word()?;
        let ties = match inputs.word()? {
            0 => Ties::Up,
            _ => Ties::Even,
        };
        match float::round_product(x, factor, ties) {
            Some(n) => {
                out.word(DONE)?;
                out.word(n)
            }
            None => out.word(BEYOND),
        }
    }
}

#[derive(Clone, Copy, Debug)]
pub struct Cross;

impl Operation for Cross {
    const FILE: &'static str = "cross.txt";

    fn answer(inputs: &mut Inputs<'_>, out: &mut Answer) -> Option<()> {
        let v1 = inputs.vector()?;
        let v2 = inputs.vector()?;
        out.vector(v1.cross(v2))
    }
}

#[derive(Clone, Copy, Debug)]
pub struct Normalize;

impl Operation for Normalize {
    const FILE: &'static str = "normalize.txt";

    fn answer(inputs: &mut Inputs<'_>, out: &mut Answer) -> Option<()> {
        out.option(inputs.vector()?.normalize(), Answer::vector)
    }
}

#[derive(Clone, Copy, Debug)]
pub struct CoordinateSystem;

impl Operation for CoordinateSystem {
    const FILE: &'static str = "coordinate_system.txt";

    fn answer(inputs: &mut Inputs<'_>, out: &mut Answer) -> Option<()> {
        let axes = geometry::vec3_coordinate_system(inputs.vector()?);
        out.option(axes, |out, (v2, v3)| {
            out.vector(v2)?;
            out.vector(v3)
        })
    }
}
