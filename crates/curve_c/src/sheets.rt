// The belt sheet.
ghost use Rattle.std.specs.Prelude.{◌≡◌, length};
ghost use Rattle.sheet.specs.Sheet.{sheet_of, list_of, ReplyWithin};
ghost use Rattle.sheet.specs.Answer.{reply_number};
ghost use Rattle.curve_c.specs.Calls.{beams_after, counts_after};

use sheet::{RAYS_FLOATS, Sheet, SheetRefusal};

// Answers 0 with what a sheet holds, or its refusal with the line: no `put`, by which a refusal leaves the output.
fn put_reply(
    reply: Result<Sheet, SheetRefusal>,
    beams: &mut [f32; RAYS_FLOATS],
    out: &mut [u32; 4],
) -> u32
    requires { ReplyWithin reply }
    ensures value { result ≡ reply_number reply }
    ensures beams_after { beams.new ≡ beams_after reply beams.old }
    ensures out_after { out.new ≡ counts_after reply out.old }
{
    match reply {
        Ok(sheet) => {
            let reverse = u32::from(sheet.reverse);
            // By a variable: the borrow checker does not cover an array that is stored straight from a field.
            let rays = sheet.rays;
            *beams = rays;
            *out = [sheet.pieces, reverse, sheet.ray_count as u32, 0];
            0
        }
        Err(wrong) => {
            out[3] = wrong.line as u32;
            wrong.refusal.number()
        }
    }
}

#[unsafe(no_mangle)]
pub extern "C" fn curve_sheet(
    bytes: &[u8],
    list: &mut [f32],
    beams: &mut [f32; RAYS_FLOATS],
    out: &mut [u32; 4],
) -> u32
    ensures value { result ≡ reply_number (sheet_of bytes.now (length list.old)) }
    ensures list_after { list.new ≡ list_of bytes.now list.old }
    ensures beams_after { beams.new ≡ beams_after (sheet_of bytes.now (length list.old)) beams.old }
    ensures out_after { out.new ≡ counts_after (sheet_of bytes.now (length list.old)) out.old }
{
    let reply = sheet::read_sheet(bytes, list);
    put_reply(reply, beams, out)
}
