// The tide series: the solid tides of many rows of bodies at a mark, in grains. It takes any mark and any slices.
#![tactic(auto)]

ghost use Rattle.std.specs.Prelude.{◌≡◌, length};
ghost use Rattle.refusal.specs.Answered as A;
ghost use Rattle.series.specs.Series as S;

use mark::Vec3;
use refusal::{Refusal, Refused};

mod many;

// The tides of many rows of bodies, six doubles to a row (Moon, then Sun), into three numbers to a row: the number of rows, or `BodyNotFinite` or
// `BodyDistance` and the first bad row, `Mark` or `SeriesLength` and 0. A refusal writes no number.
pub fn series(m: Vec3, bodies: &[f64], out: &mut [i64]) -> Result<usize, Refused>
    ensures value { A.counted result ≡ S.series_answer m bodies.now (length out.old) }
    ensures out_after { out.new ≡ S.series_numbers m bodies.now out.old }
{
    let u = tides::direction_of(m).map_err(|refusal| Refused { refusal, place: 0 })?;
    let (rows, rest) = bodies.as_chunks::<6>();
    if !rest.is_empty() || out.len() != 3 * rows.len() {
        return Err(Refused {
            refusal: Refusal::SeriesLength,
            place: 0,
        });
    }
    let count = many::scan(rows)?;
    many::fill(u, rows, out);
    Ok(count)
}
