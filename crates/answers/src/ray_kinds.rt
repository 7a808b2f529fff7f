// The library's answers of rays: where one meets a curve, and where it first meets a list of them.
use crate::answer::{Answer, DONE};
use crate::inputs::Inputs;
use crate::operation::Operation;
use curve_set::Head;
use interaction::{RECORD_FLOATS, SurfaceInteraction};
use intersect::Intersection;
use lines::LINE_WORDS;

// The status of a miss, as the oracle's lines have it.
const MISSED: u32 = 1;

// What a line has behind its curves, the oracle's cast: the head of a set, as `curve_set` has it.
fn read_cast(inputs: &mut Inputs<'_>) -> Option<Head> {
    Some(Head {
        object_to_world: inputs.matrix()?,
        world_to_object: inputs.matrix()?,
        reverse: inputs.word()? != 0,
        ray: inputs.ray()?,
    })
}

// A hit's number is how many subcurves were looked at, or which curve of the list it is on.
fn put_hit(out: &mut Answer, number: u32, record: SurfaceInteraction) -> Option<()> {
    out.word(DONE)?;
    out.word(number)?;
    out.floats(&<[f32; RECORD_FLOATS]>::from(record))
}

#[derive(Clone, Copy, Debug)]
pub struct Intersect;

impl Operation for Intersect {
    const FILE: &'static str = "intersect.txt";

    fn answer(inputs: &mut Inputs<'_>, out: &mut Answer) -> Option<()> {
        let curve = inputs.curve()?;
        let c = read_cast(inputs)?;
        let met = intersect::intersect(
            &curve,
            c.object_to_world,
            c.world_to_object,
            c.reverse,
            c.ray,
        );
        match met {
            Ok(Intersection::Hit(record, looked)) => put_hit(out, looked, record),
            Ok(Intersection::Miss(looked)) => {
                out.word(MISSED)?;
                out.word(looked)
            }
            Err(refusal) => out.word(refusal.number()),
        }
    }
}

#[derive(Clone, Copy, Debug)]
pub struct Nearest;

impl Operation for Nearest {
    const FILE: &'static str = "nearest.txt";

    fn answer(inputs: &mut Inputs<'_>, out: &mut Answer) -> Option<()> {
        let len = inputs.word()? as usize;
        let mut room = [0.0f32; LINE_WORDS];
        let curves = room.get_mut(..len)?;
        inputs.fill(curves)?;
        let c = read_cast(inputs)?;
        let met = nearest::nearest(
            curves,
            c.object_to_world,
            c.world_to_object,
            c.reverse,
            c.ray,
        );
        match met {
            // The remainder spares a proof that k fits: a list of as many curves has no room in a line.
            Ok(Some((record, k))) => put_hit(out, (k % 0x1_0000_0000) as u32, record),
            Ok(None) => out.word(MISSED),
            Err(refusal) => out.word(refusal.number()),
        }
    }
}
