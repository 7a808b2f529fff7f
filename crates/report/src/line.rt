// The lines of the report, put into a buffer that is lent.
ghost use Rattle.report.specs.Printed.{number_text, bits_text, pieces_text, place_text, found_text, hit_text, miss_text, refused_text, answer_text, refused_sheet_text};
ghost use Rattle.text.specs.Put.{Puts};

use interaction::SurfaceInteraction;
use intersect::Intersection;
use limits::Refusal;
use text::Buffer;

/// No line has more bytes (`longest`).
pub const LONGEST: usize = 90;

/// Which ray meets which curve.
#[derive(Clone, Copy, Debug, PartialEq, Eq)]
pub struct Place {
    pub ray: u32,
    pub piece: u32,
}

fn put_number(out: &mut Buffer<'_>, key: &[u8], n: u32)
    ensures { Puts out.old out.new (number_text key.now n) }
{
    out.put_word(key);
    out.put_decimal(n);
}

// A float by its bits.
fn put_bits(out: &mut Buffer<'_>, key: &[u8], x: f32)
    ensures { Puts out.old out.new (bits_text key.now x) }
{
    out.put_word(key);
    out.put_float(x);
}

pub fn put_pieces(out: &mut Buffer<'_>, n: u32)
    ensures { Puts out.old out.new (pieces_text n) }
{
    put_number(out, b"pieces=", n);
    out.put_word(b"\n");
}

fn put_place(out: &mut Buffer<'_>, place: Place)
    ensures { Puts out.old out.new (place_text place.ray place.piece) }
{
    put_number(out, b"beam=", place.ray);
    put_number(out, b" piece=", place.piece);
}

// Distance, u and v.
fn put_found(out: &mut Buffer<'_>, hit: &SurfaceInteraction)
    ensures { Puts out.old out.new (found_text hit.now.t_hit hit.now.u hit.now.v) }
{
    put_bits(out, b" t=", hit.t_hit);
    put_bits(out, b" u=", hit.u);
    put_bits(out, b" v=", hit.v);
}

fn put_hit(out: &mut Buffer<'_>, place: Place, looked: u32, hit: &SurfaceInteraction)
    ensures { Puts out.old out.new
        (hit_text place.ray place.piece looked hit.now.t_hit hit.now.u hit.now.v) }
{
    put_place(out, place);
    put_number(out, b" looked=", looked);
    out.put_word(b" hit=1");
    put_found(out, hit);
    out.put_word(b"\n");
}

fn put_miss(out: &mut Buffer<'_>, place: Place, looked: u32)
    ensures { Puts out.old out.new (miss_text place.ray place.piece looked) }
{
    put_place(out, place);
    put_number(out, b" looked=", looked);
    out.put_word(b" hit=0\n");
}

/// The line of a refused ray, by any number.
pub fn put_refused(out: &mut Buffer<'_>, place: Place, number: u32)
    ensures { Puts out.old out.new (refused_text place.ray place.piece number) }
{
    put_place(out, place);
    put_number(out, b" refused=", number);
    out.put_word(b"\n");
}

/// The line of an answer.
pub fn put_answer(out: &mut Buffer<'_>, place: Place, met: Result<Intersection, Refusal>)
    ensures { Puts out.old out.new (answer_text place.ray place.piece met) }
{
    match met {
        Ok(Intersection::Hit(hit, looked)) => put_hit(out, place, looked, &hit),
        Ok(Intersection::Miss(looked)) => put_miss(out, place, looked),
        Err(refusal) => put_refused(out, place, refusal.number()),
    }
}

/// A refused sheet, by the refusal's number, and its wrong line.
pub fn put_refused_sheet(out: &mut Buffer<'_>, number: u32, line: u32)
    ensures { Puts out.old out.new (refused_sheet_text number line) }
{
    put_number(out, b"refused=", number);
    put_number(out, b" line=", line);
    out.put_word(b"\n");
}
