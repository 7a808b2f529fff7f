// The belt sheet: its reader. A sheet is a head of seven lines, then one or more points, then
// up to 64 rays; its curves go into a list that is lent.
#![tactic(auto)]

ghost use Rattle.std.specs.Prelude.{◌≡◌, ◌+◌, ◌*◌, ◌^◌, ◌<◌, ◌≤◌, length};
ghost use Rattle.geometry.specs.Ray.{ray_floats};
ghost use Rattle.create.specs.Create.{created_of, list_after};
ghost use Rattle.limits.specs.List.{over};
ghost use Rattle.limits.specs.declared.refusal.Refusal.TheVariants as refusal;
ghost use Rattle.grammar.specs.Grammar.{row_size, ray_key};
ghost use Rattle.sheet.specs.Sheet.{most_rays, rays_from, rays_read, params_in, sheet_behind, list_behind, sheet_within, list_within, sheet_of, list_of};

use geometry::{POINT_FLOATS, RAY_FLOATS};
use grammar::{Head, Reader, Row, read_head};
use limits::Refusal;

const MOST_BYTES: usize = 65536;

// More points than so many bytes hold, and as many rays as a sheet may have.
const ROOM_POINTS: usize = 2048;

const MOST_RAYS: usize = 64;

pub const RAYS_FLOATS: usize = MOST_RAYS * RAY_FLOATS;

const HEAD_LINES: usize = 7;

/// What an accepted sheet holds: how many curves were put into the list, the reverse flag, and how many
/// rays, with eight floats for each, the rest 0: memory is fixed.
#[derive(Clone, Copy, Debug, PartialEq)]
pub struct Sheet {
    pub pieces: u32,
    pub reverse: bool,
    pub ray_count: usize,
    pub rays: [f32; RAYS_FLOATS],
}

/// Why a sheet is refused, and the wrong line, which is 0 with every reason but `Refusal::WrongLine`.
#[derive(Clone, Copy, Debug, PartialEq, Eq)]
pub struct SheetRefusal {
    pub refusal: Refusal,
    pub line: usize,
}

impl From<Refusal> for SheetRefusal {
    ghost from_gives = { λ reason e. e ≡ record { refusal = reason; line = 0 } };

    fn from(refusal: Refusal) -> Self {
        SheetRefusal { refusal, line: 0 }
    }
}

// The line behind so many that are right is wrong.
fn wrong_line(lines: usize) -> SheetRefusal
    requires { lines + 1 < 2 ^ 64 }
    ensures { result ≡ record { refusal = refusal.WrongLine; line = lines + 1 } }
{
    SheetRefusal {
        refusal: Refusal::WrongLine,
        line: lines + 1,
    }
}

// The rays behind so many points, and how many there are.
#[tactic(auto, unfolding(crate::specs::Sheet::rays_from, crate::specs::Sheet::rays_read))]
fn read_rays(reader: &mut Reader<'_>, points: usize, out: &mut [f32]) -> usize
    requires { most_rays * ray_floats ≤ length out.old }
    ensures value { result ≡ rays_from reader.old.src.now reader.old.at points }
    ensures few { result ≤ most_rays }
    ensures reader { reader.new
        ≡ record reader.old { at = reader.old.at + result * row_size ray_key ray_floats } }
    ensures out_after { out.new ≡ over out.old 0 (rays_read reader.old.src.now reader.old.at points) }
{
    if 0 < points {
        reader.read_rows(Row::Beam, MOST_RAYS, out)
    } else {
        0
    }
}

// The curves of a whole sheet, and how many there are.
#[tactic(auto, unfolding(crate::specs::Sheet::params_in))]
fn create(head: Head, points: &[f32], list: &mut [f32]) -> Result<u32, Refusal>
    ensures value { result ≡ created_of points.now (params_in head) (length list.old) }
    ensures list_after { list.new ≡ list_after points.now (params_in head) list.old }
{
    let width0 = float::of_bits(head.width0);
    let width1 = float::of_bits(head.width1);
    create::create_curve_shape(
        points,
        head.degree,
        head.basis,
        head.ty,
        width0,
        width1,
        head.splitdepth,
        list,
    )
}

// What stands behind a head that is right.
fn read_behind(s: &[u8], head: Head, list: &mut [f32]) -> Result<Sheet, SheetRefusal>
    ensures value { result ≡ sheet_behind s.now (length list.old) (Ok head) }
    ensures list_after { list.new ≡ list_behind s.now list.old (Ok head) }
{
    let mut points = [0.0f32; ROOM_POINTS * POINT_FLOATS];
    let mut rays = [0.0f32; RAYS_FLOATS];
    let mut reader = Reader {
        src: s,
        at: head.end,
    };
    let p = reader.read_rows(Row::Point, ROOM_POINTS, &mut points);
    let n = read_rays(&mut reader, p, &mut rays);
    let is_whole = 0 < p && reader.at == s.len();
    if !is_whole {
        return Err(wrong_line(HEAD_LINES + p + n));
    }
    let pieces = create(head, &points[..p * POINT_FLOATS], list)?;
    Ok(Sheet {
        pieces,
        reverse: head.reverse == 1,
        ray_count: n,
        rays,
    })
}

// A sheet that is not too long.
#[tactic(auto, unfolding(crate::specs::Sheet::sheet_within, crate::specs::Sheet::list_within))]
fn read_within(s: &[u8], list: &mut [f32]) -> Result<Sheet, SheetRefusal>
    ensures value { result ≡ sheet_within s.now (length list.old) }
    ensures list_after { list.new ≡ list_within s.now list.old }
{
    let head = read_head(s).map_err(|wrong| wrong_line(wrong.lines))?;
    read_behind(s, head, list)
}

/// Reads a sheet and puts its curves into the list.
#[tactic(auto, unfolding(crate::specs::Sheet::sheet_of, crate::specs::Sheet::list_of))]
pub fn read_sheet(bytes: &[u8], list: &mut [f32]) -> Result<Sheet, SheetRefusal>
    ensures value { result ≡ sheet_of bytes.now (length list.old) }
    ensures list_after { list.new ≡ list_of bytes.now list.old }
{
    if MOST_BYTES < bytes.len() {
        Err(SheetRefusal::from(Refusal::SheetTooLong))
    } else {
        read_within(bytes, list)
    }
}
