// The library's answer to a line of create_curve_shape: the status, the number of curves and a hash of the whole list
// afterwards.
use crate::answer::Answer;
use crate::inputs::Inputs;
use crate::operation::Operation;
use create::MOST_CURVES;
use curve::FLOATS;
use lines::LINE_WORDS;

// The most floats that a list has behind the curves.
const SPARE: usize = 100;

const LIST_ROOM: usize = FLOATS * MOST_CURVES + SPARE;

#[derive(Clone, Copy, Debug)]
pub struct CreateCurveShape;

impl Operation for CreateCurveShape {
    const FILE: &'static str = "create_curve_shape.txt";

    fn answer(inputs: &mut Inputs<'_>, out: &mut Answer) -> Option<()> {
        let degree = inputs.word()?;
        let basis = inputs.word()?;
        let curve_type = inputs.word()?;
        let width0 = inputs.float()?;
        let width1 = inputs.float()?;
        let split_depth = inputs.word()?;
        let list_len = inputs.word()? as usize;
        let points_len = inputs.word()? as usize;
        let mut room = [0.0f32; LINE_WORDS];
        let points = room.get_mut(..points_len)?;
        inputs.fill(points)?;
        let mut list_room = [0.0f32; LIST_ROOM];
        let list = list_room.get_mut(..list_len)?;
        lines::fill(list);
        let created = create::create_curve_shape(
            points,
            degree,
            basis,
            curve_type,
            width0,
            width1,
            split_depth,
            list,
        );
        out.outcome(created, |out, curves| {
            let hash = lines::hash(list);
            out.word(curves)?;
            out.word((hash >> 32) as u32)?;
            out.word((hash % 0x1_0000_0000) as u32) // the low 32 bits
        })
    }
}
